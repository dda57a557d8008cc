// The lines of a soak.
ghost use Rattle.std.specs.Prelude.{◌≡◌, ◌≤◌, ◌+◌, ◌++◌, length, IfOk};
ghost use Rattle.store_model.specs.declared.plan.ScriptLine.TheVariants.{Session};
ghost use Rattle.store_model.specs.declared.call.Call.TheVariants.{Create};
ghost use Rattle.soak_plan.specs.Rounds.{soak_of, step_lines};

use crate::round::Round;
use crate::rounds::{next_round, step_in_turn};
use crate::soak_state::SoakState;
use je_order::{List, Word};
use std::alloc::{AllocError, Global};
use store_model::{Call, Kind, RunPlan, ScriptLine};

/// How many calls are drawn.
pub const ROUNDS: u32 = 4_000;

/// How many lines the script of a seed has.
pub const SOAK_LINES: u32 = 4_402;

// A line that makes a database.
fn create_line(db: Word, line: u32, kind: Kind) -> ScriptLine
    ensures { result ≡ Session 1 line (Create db kind) }
{
    ScriptLine::Session {
        session: 1,
        line,
        call: Call::Create { db, kind },
    }
}

// Adds the step of maintenance after a round, if there is one. It answers the number of the line behind it.
fn push_step(lines: &mut Vec<ScriptLine>, round: u32, line: u32) -> Result<u32, AllocError>
    requires line { line ≤ 9_000 }
    requires round { 1 ≤ round }
    ensures { IfOk result (λ next. (lines.new.items ≡ lines.old.items ++ step_lines round line) × (next ≡ line + length (step_lines round line))) }
{
    if round % 10 != 0 {
        return Ok(line);
    }
    lines.push(ScriptLine::Maintenance {
        line,
        step: step_in_turn(round / 10 - 1),
    })?;
    Ok(line + 1)
}

/// The script of a seed: 4,402 lines, numbered from 1 without a gap. Two make the databases `t` (plain) and `u` (with
/// duplicates), and then come 4,000 calls of the sessions 1 to 4, with a step of maintenance after each tenth. The only
/// error is out of memory. The rules are this project's own.
pub fn soak(alloc: Global, seed: u32) -> Result<RunPlan, AllocError>
    ensures { IfOk result (λ plan. plan.lines ≡ soak_of seed) }
{
    let mut lines = Vec::new(alloc);
    let plain = Word::from_slice(alloc, b"t".as_slice())?;
    lines.push(create_line(plain, 1, Kind::Plain))?;
    let dup = Word::from_slice(alloc, b"u".as_slice())?;
    lines.push(create_line(dup, 2, Kind::Dup))?;
    let mut state = SoakState {
        number: seed,
        begun: [false; 4],
    };
    let mut line = 3u32;
    for done in 0..ROUNDS {
        let round = done + 1;
        let Round {
            session,
            call,
            after,
        } = next_round(alloc, state)?;
        lines.push(ScriptLine::Session {
            session,
            line,
            call,
        })?;
        line = push_step(&mut lines, round, line + 1)?;
        state = after;
    }
    Ok(RunPlan {
        lines: List::from_vec(lines),
    })
}
