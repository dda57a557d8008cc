// Reading a script.
ghost use Rattle.std.specs.Prelude.{◌≡◌, ◌≤◌, ◌++◌, nat_lt, option_to_list, true, IfOk, OnOk};
ghost use Rattle.std.specs.List.{list_all};
ghost use Rattle.script_text.specs.Grammar.{Gives, given_of, is_line, is_skipped, line_gives, maintenance_of, plan_of, session_line, step_of};
ghost use Rattle.script_text.specs.Words.{words_of};

use crate::calls::call_of;
use crate::session::session_number;
use crate::words::Words;
use je_order::List;
use std::alloc::{AllocError, AllocFailed, Global};
use store_model::{RunPlan, ScriptLine, Step};
use text_lines::cut_line;

/// The most lines that a script may have.
pub const MOST_LINES: u32 = 1_000_000;

/// Why a script was not read.
#[derive(Clone, Copy, Debug, PartialEq, Eq)]
pub enum ParseErr {
    /// The line with this number, counted from 1, is the first one outside the grammar.
    BadScript { line: u32 },
    /// Out of memory.
    Memory,
}

impl From<AllocError> for ParseErr {
    ghost use Rattle.script_text.specs.declared.parsing.ParseErr.{ParseErr};

    ghost from_gives = { λ _ e. e ≡ ParseErr.Memory };

    fn from(_: AllocError) -> ParseErr {
        ParseErr::Memory
    }
}

impl<T: Drop> From<AllocFailed<T>> for ParseErr {
    ghost use Rattle.script_text.specs.declared.parsing.ParseErr.{ParseErr};

    ghost from_gives = { λ _ e. e ≡ ParseErr.Memory };

    fn from(_: AllocFailed<T>) -> ParseErr {
        ParseErr::Memory
    }
}

/// The plan that a script asks for, or its first bad line. It answers what the grammar says, unless
/// memory runs out. A plan's lines keep their order and their numbers; lines that are empty or begin
/// with `#` are counted and give nothing.
pub fn parse(alloc: Global, input: &[u8]) -> Result<RunPlan, ParseErr>
    ensures answer { Gives result (plan_of input.now) }
    ensures lines { IfOk result (λ plan. list_all is_line plan.lines ≡ true) }
{
    plan_of(alloc, input)
}

// The plan that a script asks for.
fn plan_of(alloc: Global, input: &[u8]) -> Result<RunPlan, ParseErr>
    ensures { Gives result (plan_of input.now) }
{
    let mut lines = Vec::new(alloc);
    let mut rest = input;
    let mut line = 1u32;
    while !rest.is_empty() {
        let (text, behind) = cut_line(rest);
        keep(&mut lines, given_by_line(alloc, line, text)?)?;
        rest = behind;
        line += 1;
    }
    Ok(RunPlan {
        lines: List::from_vec(lines),
    })
}

fn keep(lines: &mut Vec<ScriptLine>, given: Option<ScriptLine>) -> Result<(), AllocError>
    ensures { OnOk result (lines.new.items ≡ lines.old.items ++ option_to_list given) }
{
    if let Some(given) = given {
        lines.push(given)?;
    }
    Ok(())
}

// What one line gives: a call, a step of maintenance, or nothing.
fn given_by_line(alloc: Global, line: u32, text: &[u8]) -> Result<Option<ScriptLine>, ParseErr>
    ensures answer { Gives result (line_gives line text.now) }
    ensures within { OnOk result (line ≤ MOST_LINES) }
{
    if line > MOST_LINES || !is_ascii(text) {
        return Err(ParseErr::BadScript { line });
    }
    if is_skipped(text) {
        return Ok(None);
    }
    match given_of(alloc, line, text)? {
        Some(given) => Ok(Some(given)),
        None => Err(ParseErr::BadScript { line }),
    }
}

// Whether each byte is one of ASCII: it looks for the greatest.
fn is_ascii(text: &[u8]) -> bool
    ensures { result ≡ list_all (λ c. nat_lt c 128) text.now }
{
    let mut greatest = 0u8;
    for c in text {
        greatest = greatest.max(*c);
    }
    greatest < 128
}

fn is_skipped(text: &[u8]) -> bool
    ensures { result ≡ is_skipped text.now }
{
    text.is_empty() || text[0] == b'#'
}

// What a line asks for, if it is one of the grammar.
fn given_of(alloc: Global, line: u32, text: &[u8]) -> Result<Option<ScriptLine>, AllocError>
    ensures { IfOk result (λ given. given ≡ given_of line (words_of text.now)) }
{
    let mut words = Words::new(text);
    let Some(giver) = words.next() else {
        return Ok(None);
    };
    if giver == b"m".as_slice() {
        return Ok(maintenance_of(line, words));
    }
    session_line(alloc, line, giver, words)
}

// The step that a word names, if it names one.
fn step_of(word: &[u8]) -> Option<Step>
    ensures { result ≡ step_of word.now }
{
    if word == b"begin".as_slice() {
        Some(Step::Begin)
    } else if word == b"flush".as_slice() {
        Some(Step::Flush)
    } else if word == b"finish".as_slice() {
        Some(Step::Finish)
    } else if word == b"sync".as_slice() {
        Some(Step::Sync)
    } else {
        None
    }
}

// The step of maintenance of a line, by the words behind its first, if it is one.
fn maintenance_of(line: u32, mut words: Words) -> Option<ScriptLine>
    ensures { result ≡ maintenance_of line words.entry }
{
    let step = words.next()?;
    if words.next().is_some() {
        return None;
    }
    Some(ScriptLine::Maintenance {
        line,
        step: step_of(step)?,
    })
}

// The call of a session's line, by the words behind its first, if it is one.
fn session_line(
    alloc: Global,
    line: u32,
    session: &[u8],
    mut words: Words,
) -> Result<Option<ScriptLine>, AllocError>
    ensures { IfOk result (λ given. given ≡ session_line line session.now words.entry) }
{
    let Some(verb) = words.next() else {
        return Ok(None);
    };
    let Some(session) = session_number(session) else {
        return Ok(None);
    };
    let Some(call) = call_of(alloc, verb, words)? else {
        return Ok(None);
    };
    Ok(Some(ScriptLine::Session {
        session,
        line,
        call,
    }))
}
