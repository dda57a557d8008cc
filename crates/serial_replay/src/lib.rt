//! What isolation promises of a journal's transactions: a committed serializable transaction replays
//! right before its commit, with the same answers and changes, so that no record came into what it read;
//! at repeatable read each record that was read still stands at the commit. It stands on `je_answers`,
//! which says what each event may answer, and on `standing_laws`. It has no code but its laws: they hold of
//! every journal whose events answer what the model lets them, whatever program gave the answers. After no
//! event of such a journal do transactions wait for one another in a cycle; and after each one each index has
//! the pairs of its primary's records, as each transaction sees them, for which it stands on `indexed_standings`.
#![tactic(auto)]

pub mod laws;

pub use laws::{
    a_replay_is_worked, attempts_stay_indexed, cycles_never_stand, indexes_stay, journals_replay,
    none_is_indexed, reached_stays,
};
