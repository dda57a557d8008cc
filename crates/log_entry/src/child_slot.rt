// A slot of an IN.
ghost use Rattle.std.specs.Prelude.{◌≡◌};

use crate::fields::{put_name, read_name};
use crate::item::Item;
use je_bytes::{Reader, put_u64};
use je_lsn::Lsn;
use je_order::{Name, cmp_name};
use std::alloc::{AllocError, Global};
use std::cmp::Ordering;

/// A child of an IN: the least name that the child may hold, and where the child's last image stands.
#[derive(Drop)]
pub struct ChildSlot {
    pub name: Name,
    pub child: Lsn,
}

impl Item for ChildSlot {
    ghost use Rattle.log_entry.specs.Items.{IsChildSlot, child_slot_bytes, child_slot_in, child_before};

    ghost IsItem = { IsChildSlot };

    ghost item_bytes = { child_slot_bytes };

    ghost item_in = { child_slot_in };

    ghost before = { child_before };

    #[tactic(auto, unfolding(crate::specs::Items::child_slot_in))]
    fn read(alloc: Global, reader: &mut Reader<'_>) -> Result<Option<ChildSlot>, AllocError> {
        let Some(name) = read_name(alloc, reader)? else {
            return Ok(None);
        };
        let Ok(child) = reader.u64() else {
            return Ok(None);
        };
        Ok(Some(ChildSlot {
            name,
            child: Lsn::from_u64(child),
        }))
    }

    fn put(&self, out: &mut Vec<u8>) -> Result<(), AllocError> {
        put_name(out, &self.name)?;
        put_u64(out, self.child.as_u64())
    }

    fn size(&self) -> u32 {
        (12 + self.name.key.len() + self.name.dup.len()) as u32
    }

    fn comes_before(&self, other: &ChildSlot) -> bool {
        match cmp_name(&self.name, &other.name) {
            Ordering::Less => true,
            _ => false,
        }
    }
}
