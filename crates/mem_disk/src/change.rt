// What a call changed.
use je_lsn::FileNo;
use je_order::Octets;

/// What a call that was done changed on the disk.
#[derive(Drop)]
pub enum Change {
    Create(FileNo),
    Append(FileNo, Octets),
    Cut(FileNo, u64),
    Remove(FileNo),
    Sync,
    BeginSync,
    EndSync,
}
