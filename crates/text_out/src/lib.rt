//! Text on its way to a sink. `OutBuffer` gathers bytes and writes them in pieces; `put_number` and `put_digits` send a
//! number and bytes as digits, `put_lsn` a place in the log. Each call says what it adds to the text (`Adds`), so that
//! the parts of a long text are put together by adding up. It takes no memory. It stands on sinks and on LSNs, and what
//! prints stands on it.
#![tactic(auto)]

pub mod digits;
pub mod hexadecimal;
pub mod out_buffer;

pub use digits::{put_digits, put_hexadecimal, put_lsn, put_number};
pub use hexadecimal::write_hexadecimal;
pub use out_buffer::OutBuffer;
