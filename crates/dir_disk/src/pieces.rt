// Reading a whole piece, and numbers in order.
ghost use Rattle.std.specs.Prelude.{◌≡◌, ◌≤◌, length, map, IfOk};
ghost use Rattle.std.specs.BTreeSet.{IsOrdered};
ghost use Rattle.std.specs.Ordering.{nat_cmp};
ghost use Rattle.je_disk.specs.States.{AreRisingNumbers};

use je_lsn::FileNo;
use std::alloc::{AllocError, Global};
use std::collections::BTreeSet;
use std::io;
use std::io::{ErrorKind, Read, Seek, SeekFrom};

/// Reads until the piece is full or the file ends, and answers how many bytes.
pub fn fill<F: Read>(file: &mut F, into: &mut [u8]) -> io::Result<usize>
    ensures { IfOk result (λ count. count ≤ length into.old) }
{
    let mut count = 0;
    for _ in 0..u64::MAX {
        match file.read(&mut into[count..]) {
            Ok(0) => break,
            Ok(more) => count += more,
            Err(e) if e.kind() == ErrorKind::Interrupted => {}
            Err(e) => return Err(e),
        }
    }
    Ok(count)
}

/// Reads from an offset of the file until the piece is full or the file ends: how many bytes it read.
pub fn fill_from<F: Read + Seek>(file: &mut F, at: u64, into: &mut [u8]) -> io::Result<usize>
    ensures { IfOk result (λ count. count ≤ length into.old) }
{
    file.seek(SeekFrom::Start(at))?;
    fill(file, into)
}

fn sorted(alloc: Global, numbers: &BTreeSet<u32>) -> Result<Vec<u32>, AllocError>
    ensures items { IfOk result (λ sorted. sorted.items ≡ numbers.now.keys) }
    ensures ordered { IsOrdered nat_cmp numbers.now }
{
    numbers.iter().copied().collect(alloc)
}

fn numbered(alloc: Global, numbers: &[u32]) -> Result<Vec<FileNo>, AllocError>
    ensures { IfOk result (λ files. files.items ≡ map (λ n. record { 0 = n }) numbers.now) }
{
    numbers.iter().map(|f| FileNo(*f)).collect(alloc)
}

/// The numbers of files, rising: all of them.
pub fn in_order(alloc: Global, numbers: &BTreeSet<u32>) -> Result<Vec<FileNo>, AllocError>
    ensures rising { IfOk result (λ files. AreRisingNumbers files.items) }
    ensures all { IfOk result (λ files. files.items ≡ map (λ n. record { 0 = n }) numbers.now.keys) }
{
    let sorted = sorted(alloc, numbers)?;
    numbered(alloc, sorted.as_slice())
}
