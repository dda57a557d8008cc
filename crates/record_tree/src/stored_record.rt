// A committed record.
use je_lsn::Lsn;
use je_order::{Name, Octets};
use std::marker::Model;

/// A committed record: its name, the LSN at which it was logged, and its data.
#[derive(Drop)]
pub struct StoredRecord {
    pub name: Name,
    pub at: Lsn,
    pub value: Octets,
}

impl Model for StoredRecord {
    ghost use Rattle.je_order.specs.declared.name.Name.{Name as Named};
    ghost use Rattle.record_tree.specs.Stored.{Stored};

    ghost Value = { Named × Stored };

    ghost view = { λ a. (a.name, record { at = a.at; value = a.value }) };
}
