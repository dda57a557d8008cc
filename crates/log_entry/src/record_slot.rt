// A slot of a BIN.
ghost use Rattle.std.specs.Prelude.{◌≡◌};

use crate::fields::{put_name, put_version, read_name, read_version};
use crate::item::Item;
use je_bytes::Reader;
use je_lsn::Lsn;
use je_order::{Name, cmp_name};
use std::alloc::{AllocError, Global};
use std::cmp::Ordering;

/// A record of a BIN: its name, and where its last committed change stands; None where it was deleted.
#[derive(Drop)]
pub struct RecordSlot {
    pub name: Name,
    pub lsn: Option<Lsn>,
}

impl Item for RecordSlot {
    ghost use Rattle.log_entry.specs.Items.{IsRecordSlot, record_slot_bytes, record_slot_in, record_before};

    ghost IsItem = { IsRecordSlot };

    ghost item_bytes = { record_slot_bytes };

    ghost item_in = { record_slot_in };

    ghost before = { record_before };

    #[tactic(auto, unfolding(crate::specs::Items::record_slot_in))]
    fn read(alloc: Global, reader: &mut Reader<'_>) -> Result<Option<RecordSlot>, AllocError> {
        let Some(name) = read_name(alloc, reader)? else {
            return Ok(None);
        };
        let Some(lsn) = read_version(reader) else {
            return Ok(None);
        };
        Ok(Some(RecordSlot { name, lsn }))
    }

    fn put(&self, out: &mut Vec<u8>) -> Result<(), AllocError> {
        put_name(out, &self.name)?;
        put_version(out, self.lsn)
    }

    fn size(&self) -> u32 {
        (13 + self.name.key.len() + self.name.dup.len()) as u32
    }

    fn comes_before(&self, other: &RecordSlot) -> bool {
        match cmp_name(&self.name, &other.name) {
            Ordering::Less => true,
            _ => false,
        }
    }
}
