// Entries as they are encoded at the end of the write buffer.
ghost use Rattle.std.specs.Prelude.{◌≡◌, ◌≤◌, ◌+◌, ◌++◌, length, vec_capacity, IsOk, OnOk, OnErr};
ghost use Rattle.log_entry.specs.Body.{IsEntry};
ghost use Rattle.log_entry.specs.Parts.{entry_by};
ghost use Rattle.log_entry.specs.Encoding.{encoding, size_of};
ghost use Rattle.log_entry.specs.declared.entry.Entry.TheVariants.{FileHeader};
ghost use Rattle.log_buffer.specs.Flip.{header_size};

use je_lsn::FileNo;
use log_entry::{Entry, EntryRef, encode_ref_onto};
use log_file::LOG_VERSION;
use std::alloc::AllocError;

// The first entry of a file.
fn header(file: FileNo) -> Entry
    ensures { result ≡ FileHeader 1 file.0 }
{
    Entry::FileHeader {
        version: LOG_VERSION,
        file: file.0,
    }
}

// Puts a file's header at the end. Running out of memory changes nothing.
pub(crate) fn encode_header(onto: &mut Vec<u8>, file: FileNo) -> Result<(), AllocError>
    ensures ok { OnOk result (onto.new.items ≡ onto.old.items ++ encoding (FileHeader 1 file.0) 0) }
    ensures err { OnErr result (onto.new.items ≡ onto.old.items) }
    ensures fits { length onto.old.items + header_size ≤ vec_capacity onto.old → IsOk result }
    ensures capacity { vec_capacity onto.old ≤ vec_capacity onto.new }
{
    let header = header(file);
    let encoded = encode_ref_onto(&EntryRef::Whole(&header), 0, onto);
    drop(header);
    encoded
}

// Puts a file's header and first entry at the end. Running out of memory changes nothing.
pub(crate) fn encode_first(
    onto: &mut Vec<u8>,
    file: FileNo,
    entry: &EntryRef<'_>,
) -> Result<(), AllocError>
    requires { IsEntry (entry_by entry.now) }
    ensures ok { OnOk result (onto.new.items ≡ onto.old.items ++ (encoding (FileHeader 1 file.0) 0 ++ encoding (entry_by entry.now) 0)) }
    ensures err { OnErr result (onto.new.items ≡ onto.old.items) }
    ensures fits { length onto.old.items + (header_size + size_of (entry_by entry.now)) ≤ vec_capacity onto.old → IsOk result }
    ensures capacity { vec_capacity onto.old ≤ vec_capacity onto.new }
{
    let start = onto.len();
    encode_header(onto, file)?;
    match encode_ref_onto(entry, 0, onto) {
        Ok(()) => Ok(()),
        Err(error) => {
            onto.truncate(start);
            Err(error)
        }
    }
}
