// The texts of answers.
ghost use Rattle.std.specs.Prelude.{◌≡◌, ◌++◌, [], codes, decimal, unwrap_or, is_some, position};
ghost use Rattle.std.specs.List.{flat_map};
ghost use Rattle.text_out.specs.OutBuffer.{Adds, point};
ghost use Rattle.script_text.specs.Report.{answer_text, bytes_text, cycle_text, dup_text, is_least_in, name_text, number_in, number_text, place_text, short_text, turned, txn_text, waiting_text, word_text};

use crate::texts::put_bytes;
use je_io::Sink;
use je_order::{Bound, TxnId, Word};
use store_model::{Answer, Kind, LockTarget};
use text_out::{OutBuffer, put_number};

fn put_record<K: Sink>(buffer: &mut OutBuffer, out: &mut K, key: &[u8], value: &[u8])
    ensures { Adds (point (K.written out.old) (K.faults out.old) buffer.old)
        (point (K.written out.new) (K.faults out.new) buffer.new)
        (codes "ok " ++ bytes_text key.now ++ codes " " ++ bytes_text value.now) }
{
    buffer.put(out, b"ok ");
    put_bytes(buffer, out, key);
    buffer.put(out, b" ");
    put_bytes(buffer, out, value);
}

// Sends a record that an index found: the index's key, the record's own key and its data.
fn put_index_record<K: Sink>(
    buffer: &mut OutBuffer,
    out: &mut K,
    key: &[u8],
    primary_key: &[u8],
    value: &[u8],
)
    ensures { Adds (point (K.written out.old) (K.faults out.old) buffer.old)
        (point (K.written out.new) (K.faults out.new) buffer.new)
        (codes "ok " ++ bytes_text key.now ++ codes " " ++ bytes_text primary_key.now ++ codes " " ++ bytes_text value.now) }
{
    buffer.put(out, b"ok ");
    put_bytes(buffer, out, key);
    buffer.put(out, b" ");
    put_bytes(buffer, out, primary_key);
    buffer.put(out, b" ");
    put_bytes(buffer, out, value);
}

// Sends a name of a list, behind a blank.
fn put_name<K: Sink>(buffer: &mut OutBuffer, out: &mut K, name: &Word)
    ensures { Adds (point (K.written out.old) (K.faults out.old) buffer.old)
        (point (K.written out.new) (K.faults out.new) buffer.new)
        (name_text name.now) }
{
    buffer.put(out, b" ");
    buffer.put(out, name.as_slice());
}

fn put_names<K: Sink>(buffer: &mut OutBuffer, out: &mut K, names: &[Word])
    ensures { Adds (point (K.written out.old) (K.faults out.old) buffer.old)
        (point (K.written out.new) (K.faults out.new) buffer.new)
        (flat_map name_text names.now) }
{
    for k in 0..names.len() {
        put_name(buffer, out, &names[k]);
    }
}

fn put_list<K: Sink>(buffer: &mut OutBuffer, out: &mut K, names: &[Word])
    ensures { Adds (point (K.written out.old) (K.faults out.old) buffer.old)
        (point (K.written out.new) (K.faults out.new) buffer.new)
        (codes "ok" ++ flat_map name_text names.now) }
{
    buffer.put(out, b"ok");
    put_names(buffer, out, names);
}

// Sends what stands behind the key in a record's name.
fn put_dup<K: Sink>(buffer: &mut OutBuffer, out: &mut K, kind: Kind, dup: &[u8])
    ensures { Adds (point (K.written out.old) (K.faults out.old) buffer.old)
        (point (K.written out.new) (K.faults out.new) buffer.new)
        (dup_text kind dup.now) }
{
    match kind {
        Kind::Plain => {}
        Kind::Dup => {
            buffer.put(out, b" ");
            put_bytes(buffer, out, dup);
        }
    }
}

fn put_place<K: Sink>(buffer: &mut OutBuffer, out: &mut K, kind: Kind, at: &Bound)
    ensures { Adds (point (K.written out.old) (K.faults out.old) buffer.old)
        (point (K.written out.new) (K.faults out.new) buffer.new)
        (place_text kind at.now) }
{
    match at {
        Bound::At(name) => {
            put_bytes(buffer, out, name.key.as_slice());
            put_dup(buffer, out, kind, name.dup.as_slice());
        }
        Bound::End => buffer.put(out, b"end"),
    }
}

fn put_waiting<K: Sink>(buffer: &mut OutBuffer, out: &mut K, at: &LockTarget, owner: TxnId)
    ensures { Adds (point (K.written out.old) (K.faults out.old) buffer.old)
        (point (K.written out.new) (K.faults out.new) buffer.new)
        (waiting_text at.now owner) }
{
    buffer.put(out, b"waiting ");
    buffer.put(out, at.db.as_slice());
    buffer.put(out, b" ");
    put_place(buffer, out, at.kind, &at.at);
    buffer.put(out, b" by ");
    put_number(buffer, out, owner.0);
}

// Sends a transaction of a list, behind a blank.
fn put_txn<K: Sink>(buffer: &mut OutBuffer, out: &mut K, txn: &TxnId)
    ensures { Adds (point (K.written out.old) (K.faults out.old) buffer.old)
        (point (K.written out.new) (K.faults out.new) buffer.new)
        (txn_text txn.now) }
{
    buffer.put(out, b" ");
    put_number(buffer, out, txn.0);
}

fn put_txns<K: Sink>(buffer: &mut OutBuffer, out: &mut K, txns: &[TxnId])
    ensures { Adds (point (K.written out.old) (K.faults out.old) buffer.old)
        (point (K.written out.new) (K.faults out.new) buffer.new)
        (flat_map txn_text txns.now) }
{
    for k in 0..txns.len() {
        put_txn(buffer, out, &txns[k]);
    }
}

fn is_least_in(cycle: &[TxnId], txn: TxnId) -> bool
    ensures { result ≡ is_least_in cycle.now txn }
{
    cycle.iter().all(|other| txn.0 <= other.0)
}

// Where the least transaction of a cycle stands.
fn least_at(cycle: &[TxnId]) -> Option<usize>
    ensures { result ≡ position (is_least_in cycle.now) cycle.now }
{
    cycle.iter().position(|txn| is_least_in(cycle, *txn))
}

// Sends the transactions of a cycle, from the least on.
fn put_turned<K: Sink>(buffer: &mut OutBuffer, out: &mut K, cycle: &[TxnId])
    ensures { Adds (point (K.written out.old) (K.faults out.old) buffer.old)
        (point (K.written out.new) (K.faults out.new) buffer.new)
        (flat_map txn_text (turned cycle.now)) }
{
    match least_at(cycle) {
        Some(at) => {
            put_txns(buffer, out, &cycle[at..]);
            put_txns(buffer, out, &cycle[..at]);
        }
        None => put_txns(buffer, out, cycle),
    }
}

// Sends a word and the transactions of a cycle.
pub fn put_cycle<K: Sink>(buffer: &mut OutBuffer, out: &mut K, word: &[u8], cycle: &[TxnId])
    ensures { Adds (point (K.written out.old) (K.faults out.old) buffer.old)
        (point (K.written out.new) (K.faults out.new) buffer.new)
        (cycle_text word.now cycle.now) }
{
    buffer.put(out, word);
    put_turned(buffer, out, cycle);
}

// The words of an answer whose text is words and at most a number; no bytes for the others.
fn word_of(answer: &Answer) -> &[u8]
    ensures { result.now ≡ word_text answer.now }
{
    match answer {
        Answer::Done => b"ok",
        Answer::Txn { txn: _ } => b"ok txn",
        Answer::Count { count: _ } => b"ok",
        Answer::NotFound => b"notfound",
        Answer::KeyExist => b"keyexist",
        Answer::KeyEmpty => b"keyempty",
        Answer::NoPosition => b"noposition",
        Answer::NotAvailable { owner: _ } => b"unavailable",
        Answer::SessionWaits => b"sessionwaits",
        Answer::NoTxn => b"notxn",
        Answer::InTxn { txn: _ } => b"intxn",
        Answer::NoDatabase => b"nodatabase",
        Answer::NoCursor => b"nocursor",
        Answer::NameTaken => b"nametaken",
        Answer::HasIndex => b"hasindex",
        Answer::TooMany { count: _ } => b"toomany",
        Answer::DatabaseInUse { txn: _ } => b"inuse",
        Answer::ReadOnlyIndex => b"readonlyindex",
        Answer::NotOnDuplicates => b"notonduplicates",
        Answer::OnlyOnDuplicates => b"onlyonduplicates",
        Answer::TooLong { length: _ } => b"toolong",
        Answer::Flushed { node: _ } => b"flushed",
        Answer::Nothing => b"nothing",
        Answer::InCheckpoint => b"incheckpoint",
        Answer::NoCheckpoint => b"nocheckpoint",
        Answer::NodesLeft { count: _ } => b"nodesleft",
        Answer::LogFull => b"logfull",
        Answer::IdsEnded => b"idsended",
        Answer::DiskFault => b"diskfault",
        Answer::Invalid { first: _ } => b"invalid",
        _ => b"",
    }
}

// The number behind them.
fn number_in(answer: &Answer) -> Option<u64>
    ensures { result ≡ number_in answer.now }
{
    match answer {
        Answer::Txn { txn } => Some(txn.0),
        Answer::Count { count } => Some(*count),
        Answer::NotAvailable { owner } => Some(owner.0),
        Answer::InTxn { txn } => Some(txn.0),
        Answer::TooMany { count } => Some(u64::from(*count)),
        Answer::DatabaseInUse { txn } => Some(txn.0),
        Answer::TooLong { length } => Some(*length),
        Answer::Flushed { node } => Some(*node),
        Answer::NodesLeft { count } => Some(*count),
        _ => None,
    }
}

fn put_number_if<K: Sink>(buffer: &mut OutBuffer, out: &mut K, number: Option<u64>)
    ensures { Adds (point (K.written out.old) (K.faults out.old) buffer.old)
        (point (K.written out.new) (K.faults out.new) buffer.new)
        (number_text number) }
{
    if let Some(number) = number {
        buffer.put(out, b" ");
        put_number(buffer, out, number);
    }
}

fn put_short<K: Sink>(buffer: &mut OutBuffer, out: &mut K, answer: &Answer)
    ensures { Adds (point (K.written out.old) (K.faults out.old) buffer.old)
        (point (K.written out.new) (K.faults out.new) buffer.new)
        (short_text answer.now) }
{
    buffer.put(out, word_of(answer));
    put_number_if(buffer, out, number_in(answer));
}

// Whether an answer has a text.
pub fn has_text(answer: &Answer) -> bool
    ensures { result ≡ is_some (answer_text answer.now) }
{
    !matches!(answer, Answer::Logged { .. } | Answer::Durable { .. })
}

// Sends an answer's text; nothing where it has none.
pub fn put_answer<K: Sink>(buffer: &mut OutBuffer, out: &mut K, answer: &Answer)
    ensures { Adds (point (K.written out.old) (K.faults out.old) buffer.old)
        (point (K.written out.new) (K.faults out.new) buffer.new)
        (unwrap_or (answer_text answer.now) []) }
{
    match answer {
        Answer::Rec { key, value } => put_record(buffer, out, key.as_slice(), value.as_slice()),
        Answer::IndexRec {
            key,
            primary_key,
            value,
        } => put_index_record(
            buffer,
            out,
            key.as_slice(),
            primary_key.as_slice(),
            value.as_slice(),
        ),
        Answer::Names { names } => put_list(buffer, out, names.as_slice()),
        Answer::Waiting { at, owner } => put_waiting(buffer, out, at, *owner),
        Answer::Deadlock { cycle } => put_cycle(buffer, out, b"deadlock", cycle.as_slice()),
        Answer::MustAbort { cycle } => put_cycle(buffer, out, b"mustabort", cycle.as_slice()),
        _ => put_short(buffer, out, answer),
    }
}
