// A file's row in a summary.
ghost use Rattle.std.specs.Prelude.{◌≡◌};

use crate::item::Item;
use je_bytes::{Reader, put_u32, put_u64};
use je_lsn::FileNo;
use std::alloc::{AllocError, Global};

/// How many bytes a log file has, and how many of them are live.
#[derive(Clone, Copy)]
pub struct FileUsage {
    pub file: FileNo,
    pub total: u64,
    pub live: u64,
}

impl Item for FileUsage {
    ghost use Rattle.log_entry.specs.Items.{IsFileUsage, file_usage_bytes, file_usage_in, file_before};

    ghost IsItem = { IsFileUsage };

    ghost item_bytes = { file_usage_bytes };

    ghost item_in = { file_usage_in };

    ghost before = { file_before };

    #[tactic(auto, unfolding(crate::specs::Items::file_usage_in))]
    fn read(_alloc: Global, reader: &mut Reader<'_>) -> Result<Option<FileUsage>, AllocError> {
        let Ok(file) = reader.u32() else {
            return Ok(None);
        };
        let Ok(total) = reader.u64() else {
            return Ok(None);
        };
        let Ok(live) = reader.u64() else {
            return Ok(None);
        };
        Ok(Some(FileUsage {
            file: FileNo(file),
            total,
            live,
        }))
    }

    fn put(&self, out: &mut Vec<u8>) -> Result<(), AllocError> {
        put_u32(out, self.file.0)?;
        put_u64(out, self.total)?;
        put_u64(out, self.live)
    }

    fn size(&self) -> u32 {
        20
    }

    fn comes_before(&self, other: &FileUsage) -> bool {
        self.file.0 < other.file.0
    }
}
