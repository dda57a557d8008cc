// Reading a dump.
ghost use Rattle.std.specs.Prelude.{◌≡◌, ◌≤◌, ◌+◌, [], None, nat_lt, IfOk, OnOk, IfErr};
ghost use Rattle.dump_text.specs.Grammar.{GivesDump, dump_of, dump_ended, header_from, pending_after, most_bytes, pairs_from, pairs_after, first_header};
ghost use Rattle.dump_text.specs.declared.dump_err.DumpErr.TheVariants.{Memory as NoMemory};
ghost use Rattle.text_lines.specs.Lines.{text_lines};

use crate::dump::Dump;
use crate::dump_err::DumpErr;
use crate::dump_header::{DumpHeader, ended_header, first_header, header_after};
use crate::dump_pair::DumpPair;
use crate::pending_key::PendingKey;
use crate::values::line_bytes;
use je_order::{KEY_LIMIT, List, Octets, VALUE_LIMIT};
use std::alloc::Global;
use text_lines::cut_line;

/// The most lines that a dump may have.
pub const MOST_DUMP_LINES: u32 = 1_000_000;

// The most bytes that a key may have, or data behind a key.
fn most_bytes(dup: bool, pending: &Option<PendingKey>) -> usize
    ensures { result ≡ most_bytes dup pending.now }
{
    if dup || pending.is_none() {
        KEY_LIMIT
    } else {
        VALUE_LIMIT
    }
}

// The key that is pending behind one line more, and the pairs.
fn take_bytes(
    pairs: &mut Vec<DumpPair>,
    line: u32,
    pending: Option<PendingKey>,
    bytes: Octets,
) -> Result<Option<PendingKey>, DumpErr>
    ensures pairs { OnOk result (pairs.new.items ≡ pairs_after pairs.old.items pending bytes) }
    ensures pending { IfOk result (λ key. key ≡ pending_after line pending bytes) }
    ensures err { IfErr result (λ e. e ≡ NoMemory) }
{
    match pending {
        Some(PendingKey { line, key }) => {
            pairs.push(DumpPair {
                line,
                key,
                value: bytes,
            })?;
            Ok(None)
        }
        None => Ok(Some(PendingKey { line, key: bytes })),
    }
}

// The dump that ends at a line, if it may end there and nothing stands behind it.
fn dump_ended(
    header: DumpHeader,
    pairs: Vec<DumpPair>,
    pending: Option<PendingKey>,
    line: u32,
    rest: &[u8],
) -> Result<Dump, DumpErr>
    requires { line ≤ MOST_DUMP_LINES }
    ensures { GivesDump result (dump_ended header pairs.items pending line (text_lines rest.now)) }
{
    if pending.is_some() {
        return Err(DumpErr::BadDump { line });
    }
    if !rest.is_empty() {
        let _ = cut_line(rest);
        return Err(DumpErr::BadDump { line: line + 1 });
    }
    Ok(Dump {
        dup: header.dup,
        dup_line: header.dup_line,
        pairs: List::from_vec(pairs),
    })
}

// The pairs of a dump behind its header, which ends before this line.
fn read_pairs(alloc: Global, header: DumpHeader, from: u32, texts: &[u8]) -> Result<Dump, DumpErr>
    requires { from ≤ MOST_DUMP_LINES + 1 }
    ensures { GivesDump result (pairs_from header (text_lines texts.now) from [] None) }
{
    let mut pairs = Vec::new(alloc);
    let mut pending = None;
    let mut line = from;
    let mut rest = texts;
    while !rest.is_empty() {
        let (text, behind) = cut_line(rest);
        if line > MOST_DUMP_LINES {
            return Err(DumpErr::BadDump { line });
        }
        if text == b"DATA=END".as_slice() {
            return dump_ended(header, pairs, pending, line, behind);
        }
        let most = most_bytes(header.dup, &pending);
        let Some(bytes) = line_bytes(alloc, header.printed, most, text)? else {
            return Err(DumpErr::BadDump { line });
        };
        pending = take_bytes(&mut pairs, line, pending, bytes)?;
        rest = behind;
        line += 1;
    }
    Err(DumpErr::BadDump { line })
}

// A dump behind its first line.
fn read_header(alloc: Global, texts: &[u8]) -> Result<Dump, DumpErr>
    ensures { GivesDump result (header_from (text_lines texts.now) 2 first_header) }
{
    let mut header = first_header();
    let mut line = 2u32;
    let mut rest = texts;
    while !rest.is_empty() {
        let (text, behind) = cut_line(rest);
        if line > MOST_DUMP_LINES {
            return Err(DumpErr::BadDump { line });
        }
        if text == b"HEADER=END".as_slice() {
            return read_pairs(alloc, ended_header(header, line), line + 1, behind);
        }
        let Some(next) = header_after(header, line, text) else {
            return Err(DumpErr::BadDump { line });
        };
        header = next;
        rest = behind;
        line += 1;
    }
    Err(DumpErr::BadDump { line })
}

/// What a dump says, or its first bad line. It answers what the grammar says, unless memory runs out.
pub fn parse_dump(alloc: Global, input: &[u8]) -> Result<Dump, DumpErr>
    ensures { GivesDump result (dump_of input.now) }
{
    if input.is_empty() {
        return Err(DumpErr::BadDump { line: 1 });
    }
    let (text, rest) = cut_line(input);
    if text != b"VERSION=3".as_slice() {
        return Err(DumpErr::BadDump { line: 1 });
    }
    read_header(alloc, rest)
}
