//! Log entries: what the log keeps, and the one encoding of each as bytes. It stands on `je_bytes` for numbers
//! and the checksum, on `je_order` for names, and on `je_lsn`. Upward it promises that `encode` writes an entry's
//! encoding and `decode` finds exactly what was written, whatever follows it; that no encoding begins another;
//! and, of a file, what its valid prefix is and how an append makes it longer.
#![tactic(auto)]

pub mod body_reader;
pub mod body_writer;
pub mod child_slot;
pub mod decoder;
pub mod encoder;
pub mod entry;
pub mod entry_ref;
pub mod fields;
pub mod file_usage;
pub mod item;
pub mod items;
pub mod laws;
pub mod record_slot;
pub mod ref_writer;
pub mod root;

pub use child_slot::ChildSlot;
pub use decoder::{Decoded, Torn, decode, decode_at};
pub use encoder::{HEAD_SIZE, encode, encode_onto, encode_ref_onto, ref_size, size};
pub use entry::Entry;
pub use entry_ref::EntryRef;
pub use file_usage::FileUsage;
pub use laws::{one_encoding, prefixes_are_encodings};
pub use record_slot::RecordSlot;
pub use root::Root;
