// The store that an environment had when it was opened.
ghost use Rattle.std.specs.Prelude.{◌≡◌};
ghost use Rattle.log_replay.specs.Rows.{store_of};
ghost use Rattle.recovery_je.specs.Checking.{values_in};

use record_tree::Loads;
use std::marker::Model;
use std::snapshot::Snapshot;

/// The store that an environment had when it was opened. It takes no memory: only contracts see it.
#[derive(Drop)]
pub struct OpeningStore<T: Loads> {
    trees: Snapshot<T>,
}

impl<T: Loads> Model for OpeningStore<T> {
    ghost use Rattle.store_model.specs.declared.store.Store.{Store};
    ghost use Rattle.log_replay.specs.Rows.{store_of};
    ghost use Rattle.recovery_je.specs.Checking.{values_in};

    ghost Value = { Store };

    ghost view = { λ o. store_of (values_in (T.stored o.trees.value)) };
}

impl<T: Loads> OpeningStore<T> {
    /// The store that these trees hold. It takes no memory.
    pub fn of(trees: &T) -> OpeningStore<T>
        ensures { result ≡ store_of (values_in (T.stored trees.now)) }
    {
        OpeningStore {
            trees: Snapshot::of(trees),
        }
    }
}
