// Numbers of cursors.
ghost use Rattle.std.specs.Prelude.{◌≡◌, option_map};
ghost use Rattle.store_model.specs.declared.call.Call.TheVariants.{Open as Opens};
ghost use Rattle.jalibsuk.specs.Usable.{IsUsable};
ghost use Rattle.jalibsuk.specs.Named.{name_of_handle};
ghost use Rattle.jalibsuk.specs.Methods.{Gives};
ghost use Rattle.jalibsuk.specs.Cursors.{Opens as IsOpened, opened_by};

use crate::Error;
use crate::asking::give;
use crate::cursor_calls::open;
use crate::error::error_told;
use environment::Environment;
use je_disk::Disk;
use je_order::Word;
use std::alloc::Global;
use store_model::Answer;

// What the opening of a cursor of that number came to: none where another cursor has the number.
fn opened_by(number: u8, answered: Result<Answer, Error>) -> Option<Result<u8, Error>>
    ensures { result ≡ opened_by number answered }
{
    match answered {
        Ok(Answer::Done) => Some(Ok(number)),
        Ok(Answer::NameTaken) => None,
        Ok(other) => {
            let error = error_told(&other);
            drop(other);
            Some(Err(error))
        }
        Err(error) => Some(Err(error)),
    }
}

// Opens a session's cursor of that number on the database of a handle.
fn open_numbered<D: Disk>(
    environment: &mut Environment<D>,
    alloc: Global,
    names: &[Option<Word>],
    handle: usize,
    session: u8,
    number: u8,
) -> Result<Answer, Error>
    requires usable { IsUsable D.meaning environment.old }
    ensures usable { IsUsable D.meaning environment.new }
    ensures gives { Gives D.meaning environment.old environment.new session (option_map (λ n. Opens number n) (name_of_handle handle names.now)) result }
{
    let call = open(names, handle, number);
    give(environment, alloc, session, call)
}

// Opens a session's cursor on the database of a handle, under the first number from 1 to 8 that is free.
pub(crate) fn open_first_free<D: Disk>(
    environment: &mut Environment<D>,
    alloc: Global,
    names: &[Option<Word>],
    handle: usize,
    session: u8,
) -> Result<u8, Error>
    requires usable { IsUsable D.meaning environment.old }
    ensures usable { IsUsable D.meaning environment.new }
    ensures opens { IsOpened D.meaning 8 1 environment.old environment.new session (name_of_handle handle names.now) result }
{
    for number in 1..9u8 {
        let answered = open_numbered(environment, alloc, names, handle, session, number);
        if let Some(opened) = opened_by(number, answered) {
            return opened;
        }
    }
    Err(Error::TooManyCursors)
}
