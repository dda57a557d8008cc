// What holds of all journals.
ghost use Rattle.std.specs.Prelude.{ℕ, List, Option};
ghost use Rattle.store_model.specs.declared.call.Call.{Call};
ghost use Rattle.store_model.specs.declared.answer.Answer.{Answer};
ghost use Rattle.store_model.specs.declared.event.Event.{Event};
ghost use Rattle.je_answers.specs.Standing.{Standing};
ghost use Rattle.je_answers.specs.Alone.{Alone, IsAutoCommitted, CallsStayAlone};
ghost use Rattle.je_answers.specs.Laws.{JournalsGoOn, CommitsMakeTheStore, AttemptsGoOn};

/// A journal that answers as the model does so with one more event that does.
pub fn journals_go_on()
    ensures { JournalsGoOn }
{}

/// The committed transactions of a journal, one after another, make the store in which it leaves the
/// environment, and they are counted. The attempted ones begin with them.
pub fn commits_make_the_store()
    ensures store { (st : Standing) (events : List Event) → CommitsMakeTheStore st events }
    ensures attempts { (st : Standing) (events : List Event) → AttemptsGoOn st events }
{}

/// Where no transaction is under way, a call that is a transaction of its own meets no lock: it answers
/// what evaluation on the committed store and the limits of the log say, and leaves no transaction, no
/// lock and no wait behind.
pub fn calls_stay_alone()
    ensures { (limit : Option Answer) (p : Alone) (session line : ℕ) (call : Call) (answer : Answer) →
        IsAutoCommitted call → CallsStayAlone limit p session line call answer }
{}
