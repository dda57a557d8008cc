// A root in a checkpoint's end.
ghost use Rattle.std.specs.Prelude.{◌≡◌};

use crate::item::Item;
use je_bytes::{Reader, put_u32, put_u64};
use je_lsn::Lsn;
use std::alloc::{AllocError, Global};

/// Where the last image of the root of a database's tree stands.
#[derive(Clone, Copy)]
pub struct Root {
    pub db: u32,
    pub image: Lsn,
}

impl Item for Root {
    ghost use Rattle.log_entry.specs.Items.{IsRoot, root_bytes, root_in, root_before};

    ghost IsItem = { IsRoot };

    ghost item_bytes = { root_bytes };

    ghost item_in = { root_in };

    ghost before = { root_before };

    #[tactic(auto, unfolding(crate::specs::Items::root_in))]
    fn read(_alloc: Global, reader: &mut Reader<'_>) -> Result<Option<Root>, AllocError> {
        let Ok(db) = reader.u32() else {
            return Ok(None);
        };
        let Ok(image) = reader.u64() else {
            return Ok(None);
        };
        Ok(Some(Root {
            db,
            image: Lsn::from_u64(image),
        }))
    }

    fn put(&self, out: &mut Vec<u8>) -> Result<(), AllocError> {
        put_u32(out, self.db)?;
        put_u64(out, self.image.as_u64())
    }

    fn size(&self) -> u32 {
        12
    }

    fn comes_before(&self, other: &Root) -> bool {
        self.db < other.db
    }
}
