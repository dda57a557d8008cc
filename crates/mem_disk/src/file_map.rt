// The files and the record of changes.
ghost use Rattle.std.specs.Prelude.{◌≡◌, ◌++◌, ◌∷◌, [], ℕ, Some, None, length, take, drop, map, min, is_some, nat_eq, OnOk, OnErr, IfOk};
ghost use Rattle.std.specs.Option.{option_map};
ghost use Rattle.std.specs.BTreeMap.{keys, get, IsOrdered};
ghost use Rattle.std.specs.Ordering.{nat_cmp, eq_by_cmp};
ghost use Rattle.std.specs.List.Sorted.{IsStrictlyIncreasing};
ghost use Rattle.std.specs.Map.{lookup};
ghost use Rattle.std.specs.Set.{is_member};
ghost use Rattle.mem_disk.specs.CrashStates.{crash_state_of};
ghost use Rattle.mem_disk.specs.Replay.{read_at, replay, listed, held, files_at};
ghost use Rattle.je_disk.specs.States.{content, put_at, synced, AreRisingNumbers, IsListing};
ghost use Rattle.mem_disk.specs.declared.change.Change.TheVariants.{Create as Created, Append as Appended, Cut as Shortened, Remove as Removed, Sync as Synced, BeginSync as Begun, EndSync as Ended};

use crate::file_state::file_after;
use crate::{Change, MemCrashState};
use je_lsn::FileNo;
use je_order::Octets;
use std::alloc::{AllocError, Global};
use std::collections::BTreeMap;

/// The files as they read, and the record of all changes, which makes the same files.
#[derive(Drop)]
pub struct FileMap {
    files: BTreeMap<u32, Vec<u8>>,
    changes: Vec<Change>,
    ghost agrees: { (f : ℕ) → read_at files f ≡ (replay changes.items).reads f },
}

fn keys_of(alloc: Global, files: &BTreeMap<u32, Vec<u8>>) -> Result<Vec<u32>, AllocError>
    ensures items { IfOk result (λ numbers. numbers.items ≡ keys files.now) }
    ensures ordered { IsOrdered nat_cmp files.now }
    ensures has { (q : ℕ) → is_some (get nat_cmp files.now q) ≡ is_member (eq_by_cmp nat_cmp) (keys files.now) q }
{
    files.keys().copied().collect(alloc)
}

fn numbered(alloc: Global, numbers: &[u32]) -> Result<Vec<FileNo>, AllocError>
    ensures { IfOk result (λ files. files.items ≡ map (λ n. record { 0 = n }) numbers.now) }
{
    numbers.iter().map(|f| FileNo(*f)).collect(alloc)
}

fn bytes_at(files: &BTreeMap<u32, Vec<u8>>, f: u32) -> &[u8]
    ensures { result.now ≡ content (read_at files.now) f }
{
    match files.get(&f) {
        Some(file) => file.as_slice(),
        None => &[],
    }
}

fn copies_of(
    alloc: Global,
    files: &BTreeMap<u32, Vec<u8>>,
    numbers: &[u32],
) -> Result<Vec<(FileNo, Vec<u8>)>, AllocError>
    ensures { IfOk result (λ copies. listed copies.items ≡ files_at (read_at files.now) numbers.now) }
{
    let mut copies = Vec::new(alloc);
    for f in numbers {
        let bytes = Vec::from_slice(alloc, bytes_at(files, *f))?;
        copies.push((FileNo(*f), bytes))?;
    }
    Ok(copies)
}

fn grow(
    alloc: Global,
    files: &mut BTreeMap<u32, Vec<u8>>,
    f: u32,
    bytes: &[u8],
) -> Result<(), AllocError>
    ensures ok { OnOk result ((g : ℕ) → read_at files.new g ≡ put_at (read_at files.old) f (Some (content (read_at files.old) f ++ bytes.now)) g) }
    ensures err { OnErr result ((g : ℕ) → read_at files.new g ≡ read_at files.old g) }
{
    if let Some(file) = files.get_mut(&f) {
        return file.extend_from_slice(bytes);
    }
    let file = Vec::from_slice(alloc, bytes)?;
    files.insert(f, file)?;
    Ok(())
}

// Both steps or none: room for the record comes before the file's growth.
fn write(
    alloc: Global,
    files: &mut BTreeMap<u32, Vec<u8>>,
    changes: &mut Vec<Change>,
    f: u32,
    bytes: &[u8],
    change: Change,
) -> Result<(), AllocError>
    ensures ok { OnOk result ((g : ℕ) → read_at files.new g ≡ put_at (read_at files.old) f (Some (content (read_at files.old) f ++ bytes.now)) g) }
    ensures recorded { OnOk result (changes.new.items ≡ changes.old.items ++ change ∷ []) }
    ensures err { OnErr result ((g : ℕ) → read_at files.new g ≡ read_at files.old g) }
    ensures unrecorded { OnErr result (changes.new.items ≡ changes.old.items) }
{
    changes.reserve(1)?;
    grow(alloc, files, f, bytes)?;
    changes.push(change).unwrap();
    Ok(())
}

fn shorten(files: &mut BTreeMap<u32, Vec<u8>>, f: u32, len: u64)
    ensures { (g : ℕ) → read_at files.new g ≡ put_at (read_at files.old) f (option_map (take len) (read_at files.old f)) g }
{
    if let Some(file) = files.get_mut(&f) {
        file.truncate(len as usize);
    }
}

fn take_away(files: &mut BTreeMap<u32, Vec<u8>>, f: u32)
    ensures { (g : ℕ) → read_at files.new g ≡ put_at (read_at files.old) f None g }
{
    files.remove(&f);
}

fn copy_from(bytes: &[u8], at: u64, into: &mut [u8]) -> usize
    ensures count { result ≡ min (length into.old) (length (drop at bytes.now)) }
    ensures moved { into.new ≡ take result (drop at bytes.now) ++ drop result into.old }
{
    if at >= bytes.len() as u64 {
        return 0;
    }
    let rest = &bytes[at as usize..];
    let count = rest.len().min(into.len());
    into[..count].copy_from_slice(&rest[..count]);
    count
}

impl FileMap {
    /// No files, and no changes. It takes no memory.
    pub fn new(alloc: Global) -> FileMap
        ensures { result.changes.items ≡ [] }
    {
        FileMap {
            files: BTreeMap::new(alloc),
            changes: Vec::new(alloc),
        }
    }

    /// The files' numbers, rising.
    pub fn numbers(&self, alloc: Global) -> Result<Vec<FileNo>, AllocError>
        ensures rising { IfOk result (λ numbers. AreRisingNumbers numbers.items) }
        ensures listed { IfOk result (λ numbers. IsListing (replay self.now.changes.items).reads numbers.items) }
    {
        let numbers = keys_of(alloc, &self.files)?;
        numbered(alloc, numbers.as_slice())
    }

    /// These files, put there one after another, and stable.
    pub fn with_files(alloc: Global, files: &[(FileNo, Vec<u8>)]) -> Result<FileMap, AllocError>
        ensures { IfOk result (λ file_map. replay file_map.changes.items ≡ synced (held (listed files.now))) }
    {
        let mut file_map = FileMap::new(alloc);
        for (f, bytes) in files {
            file_map.append(*f, bytes.as_slice())?;
        }
        file_map.sync()?;
        Ok(file_map)
    }

    /// Copies of the files, rising by their numbers.
    pub fn files(&self, alloc: Global) -> Result<Vec<(FileNo, Vec<u8>)>, AllocError>
        ensures rising { IfOk result (λ files. IsStrictlyIncreasing (map (λ p. p.0) (listed files.items))) }
        ensures read { IfOk result (λ files. (f : ℕ) → lookup (nat_eq f) (listed files.items) ≡ (replay self.now.changes.items).reads f) }
    {
        let numbers = keys_of(alloc, &self.files)?;
        copies_of(alloc, &self.files, numbers.as_slice())
    }

    /// How many bytes a file has.
    pub fn len(&self, f: FileNo) -> u64
        ensures { result ≡ length (content (replay self.now.changes.items).reads f.0) }
    {
        bytes_at(&self.files, f.0).len() as u64
    }

    /// Reads a file's bytes from an offset into the front of a piece, and answers how many.
    pub fn read(&self, f: FileNo, at: u64, into: &mut [u8]) -> usize
        ensures count { result ≡ min (length into.old) (length (drop at (content (replay self.now.changes.items).reads f.0))) }
        ensures moved { into.new ≡ take result (drop at (content (replay self.now.changes.items).reads f.0)) ++ drop result into.old }
    {
        copy_from(bytes_at(&self.files, f.0), at, into)
    }

    /// What a crash keeps of a file.
    pub fn crash_state(&self, alloc: Global, f: FileNo) -> Result<MemCrashState, AllocError>
        ensures { IfOk result (λ crash_state. crash_state_of crash_state ≡ (replay self.now.changes.items).crash_states f.0) }
    {
        Ok(file_after(alloc, self.changes.as_slice(), f)?.into_crash_state())
    }

    /// A copy of a file's bytes.
    pub fn bytes(&self, alloc: Global, f: FileNo) -> Result<Vec<u8>, AllocError>
        ensures { IfOk result (λ bytes. bytes.items ≡ content (replay self.now.changes.items).reads f.0) }
    {
        Vec::from_slice(alloc, bytes_at(&self.files, f.0))
    }

    /// Makes an empty file where there is none. Running out of memory changes nothing.
    pub fn create(&mut self, f: FileNo) -> Result<(), AllocError>
        ensures ok { OnOk result (self.new.changes.items ≡ self.old.changes.items ++ Created f ∷ []) }
        ensures err { OnErr result (self.new.changes.items ≡ self.old.changes.items) }
    {
        let alloc = *self.changes.allocator();
        write(
            alloc,
            &mut self.files,
            &mut self.changes,
            f.0,
            &[],
            Change::Create(f),
        )
    }

    /// Puts bytes at a file's end. Running out of memory changes nothing.
    pub fn append(&mut self, f: FileNo, bytes: &[u8]) -> Result<(), AllocError>
        ensures ok { OnOk result (self.new.changes.items ≡ self.old.changes.items ++ Appended f bytes.now ∷ []) }
        ensures err { OnErr result (self.new.changes.items ≡ self.old.changes.items) }
    {
        let alloc = *self.changes.allocator();
        let change = Change::Append(f, Octets::from_slice(alloc, bytes)?);
        write(
            alloc,
            &mut self.files,
            &mut self.changes,
            f.0,
            bytes,
            change,
        )
    }

    /// Cuts a file to a length. Running out of memory changes nothing.
    pub fn cut(&mut self, f: FileNo, len: u64) -> Result<(), AllocError>
        ensures ok { OnOk result (self.new.changes.items ≡ self.old.changes.items ++ Shortened f len ∷ []) }
        ensures err { OnErr result (self.new.changes.items ≡ self.old.changes.items) }
    {
        self.changes.push(Change::Cut(f, len))?;
        shorten(&mut self.files, f.0, len);
        Ok(())
    }

    /// Takes a file away. Running out of memory changes nothing.
    pub fn remove(&mut self, f: FileNo) -> Result<(), AllocError>
        ensures ok { OnOk result (self.new.changes.items ≡ self.old.changes.items ++ Removed f ∷ []) }
        ensures err { OnErr result (self.new.changes.items ≡ self.old.changes.items) }
    {
        self.changes.push(Change::Remove(f))?;
        take_away(&mut self.files, f.0);
        Ok(())
    }

    /// Notes a sync. Running out of memory changes nothing.
    pub fn sync(&mut self) -> Result<(), AllocError>
        ensures ok { OnOk result (self.new.changes.items ≡ self.old.changes.items ++ Synced ∷ []) }
        ensures err { OnErr result (self.new.changes.items ≡ self.old.changes.items) }
    {
        self.changes.push(Change::Sync)?;
        Ok(())
    }

    /// Notes the beginning of a sync job. Running out of memory changes nothing.
    pub fn begin_sync(&mut self) -> Result<(), AllocError>
        ensures ok { OnOk result (self.new.changes.items ≡ self.old.changes.items ++ Begun ∷ []) }
        ensures err { OnErr result (self.new.changes.items ≡ self.old.changes.items) }
    {
        self.changes.push(Change::BeginSync)?;
        Ok(())
    }

    /// Notes the end of a sync job. Running out of memory changes nothing.
    pub fn end_sync(&mut self) -> Result<(), AllocError>
        ensures ok { OnOk result (self.new.changes.items ≡ self.old.changes.items ++ Ended ∷ []) }
        ensures err { OnErr result (self.new.changes.items ≡ self.old.changes.items) }
    {
        self.changes.push(Change::EndSync)?;
        Ok(())
    }
}
