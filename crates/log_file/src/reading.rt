// Scanning a file of a disk.
ghost use Rattle.std.specs.Prelude.{◌≡◌, true, length, IfOk};
ghost use Rattle.je_bytes.specs.Reading.{AreBytes};
ghost use Rattle.je_disk.specs.Moments.{now, Passes};
ghost use Rattle.je_disk.specs.States.{content};
ghost use Rattle.je_disk.specs.Causes.{HasCause};
ghost use Rattle.log_file.specs.Reading.{IsScanOf};
ghost use Rattle.log_file.specs.Scan.{scan_of};

use crate::{FileScan, scan_bytes};
use je_disk::{Disk, DiskErr};
use je_lsn::FileNo;
use std::alloc::{AllocError, Global};

/// What a scan of a file found.
#[derive(Drop)]
pub struct Scanned {
    /// What the file's bytes are.
    pub found: FileScan,
    /// How many bytes the file has: those behind the valid prefix's end are its torn tail.
    pub len: u64,
}

/// What a file of the disk is, and its length; a file that is not there has no bytes. The file is read
/// once, whole, into memory that is free again afterwards. `Failed` comes only where the disk counted a
/// fault; Memory is free. The disk's state stays the same, and so do the jobs that are out.
pub fn scan<D: Disk>(alloc: Global, disk: &mut D, f: FileNo) -> Result<Scanned, DiskErr>
    ensures scanned { IfOk result (λ scanned. IsScanOf D.meaning.observable (now (D.meaning.history disk.old)).reads f.0 scanned) }
    ensures same { D.meaning.observable ≡ true → now (D.meaning.history disk.new) ≡ now (D.meaning.history disk.old) }
    ensures moments { D.meaning.observable ≡ true → Passes (D.meaning.history disk.old) (D.meaning.history disk.new) (λ s. s ≡ now (D.meaning.history disk.old)) }
    ensures jobs { (D.meaning.sync_out disk.new ≡ D.meaning.sync_out disk.old) × (D.meaning.read_out disk.new ≡ D.meaning.read_out disk.old) × (D.meaning.read_of disk.new ≡ D.meaning.read_of disk.old) × (D.meaning.last_job disk.new ≡ D.meaning.last_job disk.old) }
    ensures cause { HasCause (D.meaning.faults disk.old) (D.meaning.faults disk.new) result }
{
    let bytes = read_whole(alloc, disk, f)?;
    Ok(scan_whole(alloc, &bytes, f)?)
}

// What a file is that has these bytes.
fn scan_whole(alloc: Global, bytes: &[u8], f: FileNo) -> Result<Scanned, AllocError>
    ensures are { AreBytes bytes.now }
    ensures scanned { IfOk result (λ scanned. (scanned.found ≡ scan_of f.0 bytes.now) × (scanned.len ≡ length bytes.now)) }
{
    let found = scan_bytes(alloc, bytes, f)?;
    Ok(Scanned {
        found,
        len: bytes.len() as u64,
    })
}

/// The bytes of a file of the disk; none where it is not there. `Failed` comes only where the disk counted a fault;
/// Memory is free. The disk's state stays the same, and so do the jobs that are out.
pub fn read_whole<D: Disk>(alloc: Global, disk: &mut D, f: FileNo) -> Result<Vec<u8>, DiskErr>
    ensures bytes { D.meaning.observable ≡ true → IfOk result (λ bytes. bytes.items ≡ content (now (D.meaning.history disk.old)).reads f.0) }
    ensures same { D.meaning.observable ≡ true → now (D.meaning.history disk.new) ≡ now (D.meaning.history disk.old) }
    ensures moments { D.meaning.observable ≡ true → Passes (D.meaning.history disk.old) (D.meaning.history disk.new) (λ s. s ≡ now (D.meaning.history disk.old)) }
    ensures jobs { (D.meaning.sync_out disk.new ≡ D.meaning.sync_out disk.old) × (D.meaning.read_out disk.new ≡ D.meaning.read_out disk.old) × (D.meaning.read_of disk.new ≡ D.meaning.read_of disk.old) × (D.meaning.last_job disk.new ≡ D.meaning.last_job disk.old) }
    ensures cause { HasCause (D.meaning.faults disk.old) (D.meaning.faults disk.new) result }
{
    let len = disk.len(f)?;
    let mut bytes = vec![in alloc; 0u8; len as usize]?;
    let count = disk.read(f, 0, &mut bytes)?;
    bytes.truncate(count);
    Ok(bytes)
}
