// An environment that threads share.
ghost use Rattle.std.specs.Prelude.{◌≤◌};
ghost use Rattle.shared_store.specs.Run.{HasRun};

use crate::live::Live;
use crate::reply::Reply;
use crate::turn::Turn;
use environment::{Config, Environment, OpenErr, Opened, Stopped};
use je_disk::{Disk, SyncJob};
use std::alloc::{AllocError, Global};
use std::sync::{Condvar, Mutex, Wait};
use store_model::{Answer, Call, Durability};

// How many sessions there are, 0 among them.
const SESSIONS: usize = 256;

/// An open environment that threads share. Each session is one thread's at a time: a session whose call waits is given no other call.
pub struct SharedStore<D: Disk> {
    inside: Mutex<Live<D>>,
    moved: Condvar,
}

// Room for the replies of all sessions.
fn no_replies(alloc: Global) -> Result<Vec<Option<Reply>>, AllocError> {
    let mut replies = Vec::with_capacity(alloc, SESSIONS)?;
    for _ in 0..SESSIONS {
        replies.push(None)?;
    }
    Ok(replies)
}

impl<D: Disk> SharedStore<D> {
    /// Opens the environment that the disk has, as `Environment::open` does.
    pub fn open(alloc: Global, disk: D, config: &Config) -> Result<SharedStore<D>, Stopped<D>>
        requires file_max { config.now.file_max ≤ 1073741824 }
        requires least { 4 ≤ config.now.fanout }
        requires most { config.now.fanout ≤ 128 }
    {
        let Ok(replies) = no_replies(alloc) else {
            let error = OpenErr::Memory;
            return Err(Stopped { error, disk });
        };
        match Environment::open(alloc, disk, config) {
            Ok(
                Opened {
                    environment,
                    opening,
                },
            ) => {
                drop(opening);
                Ok(SharedStore {
                    inside: Mutex::new(Live::new(environment, replies)),
                    moved: Condvar::new(),
                })
            }
            Err(stopped) => {
                drop(replies);
                Err(stopped)
            }
        }
    }

    // Waits for the reply of a session's call.
    fn wait<R: Wait>(&self, rt: &R, session: u8) -> Result<(Answer, Durability), AllocError> {
        let lock = self.inside.lock(rt);
        let mut inside = self
            .moved
            .wait_while(rt, lock, |inside| inside.has_no_reply(session));
        match inside.take_reply(session) {
            Some(Reply::Answered(answer, durability)) => Ok((answer, durability)),
            Some(Reply::Memory) => Err(AllocError),
            None => Err(AllocError),
        }
    }

    // Makes a commit durable: waits for the sync that another thread runs, or runs one.
    fn sync<R: Wait>(&self, rt: &R, alloc: Global, commit: u64) -> Answer {
        for _ in 0..u64::MAX {
            let turn = {
                let lock = self.inside.lock(rt);
                let mut inside = self
                    .moved
                    .wait_while(rt, lock, |inside| inside.must_wait(commit));
                inside.take_turn(alloc, commit)
            };
            match turn {
                Turn::Covered => return Answer::Durable { commit },
                Turn::Failed => {
                    self.moved.notify_all();
                    return Answer::DiskFault;
                }
                Turn::Runs(job) => {
                    let done = job.run();
                    self.inside.lock(rt).end_turn(alloc, done);
                    self.moved.notify_all();
                }
            }
        }
        Answer::Logged { commit }
    }

    // Does what a commit waits for.
    fn follow<R: Wait>(
        &self,
        rt: &R,
        alloc: Global,
        commit: u64,
        durability: Durability,
    ) -> Answer {
        match durability {
            Durability::WriteNoSync => self.inside.lock(rt).write_out(alloc),
            Durability::Sync | Durability::NoSync => self.sync(rt, alloc, commit),
        }
    }

    /// Gives a session's call. Where it waits for a lock, so does this, until another transaction's end lets it go on, or it is a deadlock's victim. A commit
    /// comes back when it is as durable as its transaction asks: `Durable`, or `DiskFault`. Running out of memory in a call that waited ends the session; in another
    /// one it changes nothing.
    pub fn call<R: Wait>(
        &self,
        rt: &R,
        alloc: Global,
        session: u8,
        call: &Call,
    ) -> Result<Answer, AllocError> {
        let given = self.inside.lock(rt).give(alloc, session, call)?;
        self.moved.notify_all();
        let (answer, durability) = match given {
            (Answer::Waiting { at, owner: _ }, _) => {
                drop(at);
                self.wait(rt, session)?
            }
            answered => answered,
        };
        match answer {
            Answer::Logged { commit } => Ok(self.follow(rt, alloc, commit, durability)),
            answer => Ok(answer),
        }
    }

    /// Ends a session: its transaction is aborted.
    pub fn end_session<R: Wait>(&self, rt: &R, alloc: Global, session: u8) {
        self.inside.lock(rt).end_session(alloc, session);
        self.moved.notify_all();
    }

    /// The environment, which no thread shares any more.
    pub fn into_environment(self) -> Environment<D>
        ensures { (out : _) × HasRun D.meaning result out }
    {
        let SharedStore { inside, moved: _ } = self;
        inside.into_inner().into_environment()
    }
}
