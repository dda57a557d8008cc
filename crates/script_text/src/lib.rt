//! Scripts and reports as text. `parse` reads a script into a plan, and names the first line that is
//! outside the grammar; `report` prints what became of each line. It stands on the model, whose
//! types it reads and prints, and on sources and sinks. The grammar and the report's text are
//! definitions, and both calls are proved to be exactly these.
#![tactic(auto)]

mod answer_texts;
mod bytes;
mod calls;
mod counting;
mod cursor_calls;
mod event_lines;
mod index_calls;
mod logged_call;
pub mod parsing;
pub mod reporting;
mod session;
mod texts;
mod waiting;
mod words;

pub use parsing::{MOST_LINES, ParseErr, parse};
pub use reporting::{put_last_line, report};
