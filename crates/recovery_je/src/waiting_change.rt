// A change that waits for a commit.
use je_lsn::Lsn;
use je_order::{Name, Octets};
use std::marker::Model;

/// A change of one record that was logged at `at`: the data that the name is set to, or None where the
/// record is deleted.
#[derive(Drop)]
pub(crate) struct WaitingChange {
    pub(crate) db: u32,
    pub(crate) name: Name,
    pub(crate) at: Lsn,
    pub(crate) value: Option<Octets>,
}

impl Model for WaitingChange {
    ghost use Rattle.log_trees.specs.Changes.{LoggedChange};

    ghost Value = { LoggedChange };

    ghost view = { λ a. record { db = a.db; name = a.name; written = record { at = a.at; value = a.value } } };
}
