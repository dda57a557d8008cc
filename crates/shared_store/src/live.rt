// What is behind the lock.
ghost use Rattle.std.specs.Prelude.{◌≡◌, None};
ghost use Rattle.shared_store.specs.Run.{HasRun};

use crate::events::{begin_sync, end_session, end_sync, resume_next, step, write_out};
use crate::reply::Reply;
use crate::sync_out::SyncOut;
use crate::turn::Turn;
use environment::{Environment, Outcome};
use je_disk::{Disk, SyncDone, SyncJob};
use je_order::List;
use std::alloc::{AllocError, Global};
use std::marker::Model;
use store_model::{Answer, Call, Durability, Victim};

// How many calls go on at most before the lock is let go: each of 64 sessions has one that waits, and it waits again at most as often as another one ends.
const MOST_RESUMED: u32 = 4096;

/// An open environment, the sync that is out, and the replies for threads that wait. It has room for a reply of each session.
pub(crate) struct Live<D: Disk> {
    environment: Environment<D>,
    out: Option<SyncOut>,
    is_syncing: bool,
    synced: u64,
    replies: Vec<Option<Reply>>,
}

impl<D: Disk> Model for Live<D> {
    ghost use Rattle.std.specs.Prelude.{ℕ};
    ghost use Rattle.shared_store.specs.Run.{HasRun};

    ghost Value = { ℕ };

    ghost view = { λ l. l.synced };

    ghost invariant = { λ l. HasRun D.meaning l.environment l.out };
}

// Puts a reply where the session's thread finds it.
fn put_reply(replies: &mut Vec<Option<Reply>>, session: u8, reply: Reply) {
    match replies.get_mut(usize::from(session)) {
        Some(slot) => *slot = Some(reply),
        None => drop(reply),
    }
}

// Takes a reply away that nobody waits for: a call that closes a cycle may be answered and be a victim as well.
fn clear_reply(replies: &mut Vec<Option<Reply>>, session: u8) {
    match replies.get_mut(usize::from(session)) {
        Some(slot) => *slot = None,
        None => {}
    }
}

// Tells victims that they are.
fn tell_victims(replies: &mut Vec<Option<Reply>>, victims: List<Victim>) {
    for victim in victims.into_vec() {
        let Victim {
            session,
            line: _,
            cycle,
        } = victim;
        let answer = Answer::Deadlock { cycle };
        put_reply(
            replies,
            session,
            Reply::Answered(answer, Durability::NoSync),
        );
    }
}

// Tells a session what its call came to that went on, unless it waits again. Where that is a commit, it is one of a call outside a transaction.
fn tell(replies: &mut Vec<Option<Reply>>, session: u8, answer: Answer) {
    match answer {
        Answer::Waiting { at, owner: _ } => drop(at),
        answer => put_reply(replies, session, Reply::Answered(answer, Durability::Sync)),
    }
}

impl<D: Disk> Live<D> {
    /// Over an environment that was opened, with room for the replies of its sessions.
    pub(crate) fn new(environment: Environment<D>, replies: Vec<Option<Reply>>) -> Live<D>
        requires { HasRun D.meaning environment None }
    {
        Live {
            environment,
            out: None,
            is_syncing: false,
            synced: 0,
            replies,
        }
    }

    // Goes on with the first call that may, and says whether there was one.
    fn resume(&mut self, alloc: Global) -> bool {
        let Some((session, result)) = resume_next(&mut self.environment, alloc) else {
            return false;
        };
        match result {
            Ok(Outcome { answer, victims }) => {
                tell_victims(&mut self.replies, victims);
                tell(&mut self.replies, session, answer);
            }
            Err(_) => put_reply(&mut self.replies, session, Reply::Memory),
        }
        true
    }

    /// Goes on with the calls that wait and may.
    pub(crate) fn go_on(&mut self, alloc: Global) {
        for _ in 0..MOST_RESUMED {
            if !self.resume(alloc) {
                return;
            }
        }
    }

    /// Gives a session's call, and gives with the answer what its commit waits for.
    pub(crate) fn give(
        &mut self,
        alloc: Global,
        session: u8,
        call: &Call,
    ) -> Result<(Answer, Durability), AllocError> {
        clear_reply(&mut self.replies, session);
        let durability = self.environment.durability_of(session);
        let Outcome { answer, victims } = step(&mut self.environment, alloc, session, call)?;
        tell_victims(&mut self.replies, victims);
        self.go_on(alloc);
        Ok((answer, durability))
    }

    /// Ends a session.
    pub(crate) fn end_session(&mut self, alloc: Global, session: u8) {
        end_session(&mut self.environment, session);
        clear_reply(&mut self.replies, session);
        self.go_on(alloc);
    }

    /// Whether a session's call waits for its reply.
    pub(crate) fn has_no_reply(&self, session: u8) -> bool {
        match self.replies.get(usize::from(session)) {
            Some(Some(_)) => false,
            Some(None) => true,
            None => false,
        }
    }

    /// Takes a session's reply.
    pub(crate) fn take_reply(&mut self, session: u8) -> Option<Reply> {
        match self.replies.get_mut(usize::from(session)) {
            Some(slot) => slot.take(),
            None => None,
        }
    }

    /// Writes the log out.
    pub(crate) fn write_out(&mut self, alloc: Global) -> Answer {
        let answer = write_out(&mut self.environment);
        self.go_on(alloc);
        answer
    }

    /// Whether a commit waits for a sync that another thread runs.
    pub(crate) fn must_wait(&self, commit: u64) -> bool {
        self.is_syncing && self.synced < commit && self.environment.fault().is_none()
    }

    /// Whose turn it is to make a commit durable.
    pub(crate) fn take_turn(&mut self, alloc: Global, commit: u64) -> Turn<D::Job> {
        if self.synced >= commit {
            return Turn::Covered;
        }
        match begin_sync(&mut self.environment) {
            Some((job, out)) => {
                self.out = Some(out);
                self.is_syncing = true;
                Turn::Runs(job)
            }
            None => {
                self.go_on(alloc);
                Turn::Failed
            }
        }
    }

    /// Ends a sync that has run.
    pub(crate) fn end_turn(&mut self, alloc: Global, done: <D::Job as SyncJob>::Done) {
        self.is_syncing = false;
        let Some(out) = self.out else {
            done.give_up();
            return;
        };
        let (durable, left) = end_sync(&mut self.environment, done, out);
        self.out = left;
        self.synced = self.synced.max(durable.unwrap_or(0));
        self.go_on(alloc);
    }

    /// The environment.
    pub(crate) fn into_environment(self) -> Environment<D>
        ensures { (out : _) × HasRun D.meaning result out }
    {
        let Live {
            environment,
            out: _,
            is_syncing: _,
            synced: _,
            replies,
        } = self;
        drop(replies);
        environment
    }
}
