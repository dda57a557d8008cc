// What it takes to make a change stable.
ghost use Rattle.std.specs.Prelude.{◌≡◌, ◌≢◌, ◌↔◌, IsTrue, true, false};

/// What it takes to make stable what was done to a file, or to a folder.
#[derive(Clone, Copy, PartialEq, Eq)]
pub enum Pending {
    /// It is stable.
    Nothing,
    /// The sync job that is out makes it so.
    Job,
    /// The next sync makes it so.
    Sync,
}

/// How far a sync job is.
#[derive(Clone, Copy)]
pub enum Stage {
    /// It begins.
    Begun,
    /// It has worked, or has failed or was given up.
    Ended { worked: bool },
}

impl Pending {
    ghost use Rattle.dir_disk.specs.declared.pending.Pending.TheVariants.{Nothing, Job, Sync};

    /// Whether the next sync has to take it along: it is not stable.
    pub fn is_due(self) -> bool
        ensures { IsTrue result ↔ (self ≢ Nothing) }
    {
        self != Pending::Nothing
    }

    /// A sync job begins, and takes along what is due.
    pub fn begin(&mut self)
        ensures due { self.old ≢ Nothing → self.new ≡ Job }
        ensures stable { self.old ≡ Nothing → self.new ≡ Nothing }
    {
        if self.is_due() {
            *self = Pending::Job;
        }
    }

    /// The sync job that was out has worked, or has failed or was given up. What was done since it began
    /// is due still.
    pub fn end(&mut self, worked: bool)
        ensures since { self.old ≡ Sync → self.new ≡ Sync }
        ensures stable { self.old ≡ Nothing → self.new ≡ Nothing }
        ensures worked { worked ≡ true → self.old ≡ Job → self.new ≡ Nothing }
        ensures failed { worked ≡ false → self.old ≡ Job → self.new ≡ Sync }
    {
        if *self == Pending::Job {
            *self = if worked {
                Pending::Nothing
            } else {
                Pending::Sync
            };
        }
    }

    /// The sync job that is out reaches a stage.
    pub(crate) fn follow(&mut self, stage: Stage) {
        match stage {
            Stage::Begun => self.begin(),
            Stage::Ended { worked } => self.end(worked),
        }
    }
}
