// A database as a dump.
ghost use Rattle.std.specs.Prelude.{◌≡◌, []};
ghost use Rattle.text_out.specs.OutBuffer.{Adds, point};
ghost use Rattle.record_tree.specs.Occupied.{occupied_by};
ghost use Rattle.log_replay.specs.Rows.{pair_of};
ghost use Rattle.txn_core.specs.Known.{committed, with_row};
ghost use Rattle.in_tree.specs.Whole.{seen_in};
ghost use Rattle.database_dump.specs.Text.{is_dup, records_text, rows_text};

use dump_text::{put_end, put_header, put_pair};
use in_tree::Trees;
use je_io::Sink;
use record_map::{Cell, Data, EdgeRef, SortKey};
use store_model::Kind;
use text_out::OutBuffer;
use txn_core::reading::committed_in;

fn is_dup(kind: Kind) -> bool
    ensures { result ≡ is_dup kind }
{
    match kind {
        Kind::Plain => false,
        Kind::Dup => true,
    }
}

// The data of a record; with sorted duplicates its name has it.
fn value_of<'a>(kind: Kind, name: &'a SortKey, data: &'a Data) -> &'a [u8]
    ensures { (name.now.key, result.now) ≡ pair_of kind (name.now, data.now) }
{
    match kind {
        Kind::Plain => data.as_slice(),
        Kind::Dup => name.dup(),
    }
}

// Sends what is committed under a name, if a record is.
fn put_cell<K: Sink>(
    buffer: &mut OutBuffer,
    out: &mut K,
    kind: Kind,
    printed: bool,
    name: &SortKey,
    cell: &Cell,
)
    ensures { Adds (point (K.written out.old) (K.faults out.old) buffer.old)
        (point (K.written out.new) (K.faults out.new) buffer.new)
        (rows_text printed kind (with_row name.now (occupied_by cell.now).value [])) }
{
    if let Some(data) = committed_in(cell) {
        put_pair(buffer, out, printed, name.key(), value_of(kind, name, data));
    }
}

// Sends the committed records of the database of that number, in name order.
fn put_records<K: Sink>(
    buffer: &mut OutBuffer,
    out: &mut K,
    records: &Trees,
    db: u32,
    kind: Kind,
    printed: bool,
)
    ensures { Adds (point (K.written out.old) (K.faults out.old) buffer.old)
        (point (K.written out.new) (K.faults out.new) buffer.new)
        (rows_text printed kind (committed (seen_in records.now) db)) }
{
    let mut from = EdgeRef::First;
    'records: while let Some((name, cell)) = records.next(db, from) {
        put_cell(buffer, out, kind, printed, name, cell);
        from = EdgeRef::Behind(name);
    }
}

/// Sends the dump of the database of that number, which is of this kind: its header, its committed records in name order,
/// and the end. With `printed`, bytes that may be printed are shown as themselves. It takes no memory.
pub fn put_database<K: Sink>(
    buffer: &mut OutBuffer,
    out: &mut K,
    records: &Trees,
    db: u32,
    kind: Kind,
    printed: bool,
)
    ensures { Adds (point (K.written out.old) (K.faults out.old) buffer.old)
        (point (K.written out.new) (K.faults out.new) buffer.new)
        (records_text printed kind (committed (seen_in records.now) db)) }
{
    put_header(buffer, out, printed, is_dup(kind));
    put_records(buffer, out, records, db, kind, printed);
    put_end(buffer, out);
}
