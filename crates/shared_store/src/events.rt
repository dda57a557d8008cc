// Events of an environment, each with what it does to a run.
ghost use Rattle.std.specs.Prelude.{◌≡◌, Option, None, Some, IfSome};
ghost use Rattle.shared_store.specs.declared.sync_out.SyncOut.{SyncOut as Out};
ghost use Rattle.shared_store.specs.Run.{HasRun};

use crate::sync_out::SyncOut;
use environment::{Environment, Outcome};
use je_disk::{Disk, SyncDone, SyncJob};
use std::alloc::{AllocError, Global};
use store_model::{Answer, Call};

// The line that a journal has for a call; none of a script gave it.
const LINE: u32 = 1;

/// Gives a session's call. Running out of memory changes nothing.
pub(crate) fn step<D: Disk>(
    environment: &mut Environment<D>,
    alloc: Global,
    session: u8,
    call: &Call,
) -> Result<Outcome, AllocError>
    requires { (out : Option Out) × HasRun D.meaning environment.old out }
    ensures { (out : Option Out) → HasRun D.meaning environment.old out → HasRun D.meaning environment.new out }
{
    environment.step(alloc, session, LINE, call)
}

/// Goes on with the first call that waits and may go on, if there is one, and says whose it was. Where memory runs out that session is ended.
pub(crate) fn resume_next<D: Disk>(
    environment: &mut Environment<D>,
    alloc: Global,
) -> Option<(u8, Result<Outcome, AllocError>)>
    requires { (out : Option Out) × HasRun D.meaning environment.old out }
    ensures { (out : Option Out) → HasRun D.meaning environment.old out → HasRun D.meaning environment.new out }
{
    let (session, _line) = environment.next_ready()?;
    Some((session, environment.resume(alloc, session)))
}

/// Ends a session: its call that waits is withdrawn, and its transaction aborted.
pub(crate) fn end_session<D: Disk>(environment: &mut Environment<D>, session: u8)
    requires { (out : Option Out) × HasRun D.meaning environment.old out }
    ensures { (out : Option Out) → HasRun D.meaning environment.old out → HasRun D.meaning environment.new out }
{
    environment.end_session(session);
}

/// Writes the log out to its files.
pub(crate) fn write_out<D: Disk>(environment: &mut Environment<D>) -> Answer
    requires { (out : Option Out) × HasRun D.meaning environment.old out }
    ensures { (out : Option Out) → HasRun D.meaning environment.old out → HasRun D.meaning environment.new out }
{
    environment.write_out()
}

/// Begins a sync of the commits so far. None where the disk failed, now or before.
pub(crate) fn begin_sync<D: Disk>(environment: &mut Environment<D>) -> Option<(D::Job, SyncOut)>
    requires { (out : Option Out) × HasRun D.meaning environment.old out }
    ensures begun { (out : Option Out) → HasRun D.meaning environment.old out → IfSome result (λ p. HasRun D.meaning environment.new (Some p.1)) }
    ensures failed { (out : Option Out) → HasRun D.meaning environment.old out → result ≡ None → HasRun D.meaning environment.new out }
{
    if environment.fault().is_some() {
        return None;
    }
    let commits = environment.commits();
    let job = environment.sync_begin()?;
    let number = job.number();
    Some((job, SyncOut { number, commits }))
}

/// Ends the sync that is out: gives how many commits are durable, where it worked, and the sync that is out then. Where the disk failed before, or another
/// sync is out, this one is given up.
pub(crate) fn end_sync<D: Disk>(
    environment: &mut Environment<D>,
    done: <D::Job as SyncJob>::Done,
    out: SyncOut,
) -> (Option<u64>, Option<SyncOut>)
    requires { HasRun D.meaning environment.old (Some out) }
    ensures { HasRun D.meaning environment.new result.1 }
{
    if environment.fault().is_some() || environment.sync_out() != Some(done.number()) {
        done.give_up();
        return (None, Some(out));
    }
    match environment.sync_end(done, out.commits) {
        Answer::Durable { commit } => (Some(commit), None),
        other => {
            drop(other);
            (None, None)
        }
    }
}
