// The counts of changes.
ghost use Rattle.std.specs.Prelude.{◌≡◌, count_by, IfSome};
ghost use Rattle.active_txns.specs.Own.{counted as counts_of, is_set, counts_added as with_more, none_counted};

use crate::OwnCounts;
use store_model::RecordChange;

/// The counts of no change.
pub fn none_counted() -> OwnCounts
    ensures { result ≡ none_counted }
{
    OwnCounts { len: 0, set: 0 }
}

// Whether a change sets a name.
fn sets(change: &RecordChange) -> bool
    ensures { result ≡ is_set change.now }
{
    match change {
        RecordChange::Set { .. } => true,
        RecordChange::Unset { .. } => false,
    }
}

/// How many of some changes, each with its database's number, set a name.
pub fn count_set(changes: &[(u32, RecordChange)]) -> u64
    ensures { result ≡ count_by (λ c. is_set c.1) changes.now }
{
    let mut count = 0u64;
    for change in changes {
        if sets(&change.1) {
            count += 1;
        }
    }
    count
}

/// The counts of changes, each with its database's number.
pub fn counted(changes: &[(u32, RecordChange)]) -> OwnCounts
    ensures { result ≡ counts_of changes.now }
{
    OwnCounts {
        len: changes.len() as u64,
        set: count_set(changes),
    }
}

// The counts of changes and of more of them; None where a number ends.
pub(crate) fn add_counts(first: OwnCounts, more: OwnCounts) -> Option<OwnCounts>
    ensures { IfSome result (λ all. all ≡ with_more first more) }
{
    let Some(len) = first.len.checked_add(more.len) else {
        return None;
    };
    match first.set.checked_add(more.set) {
        Some(set) => Some(OwnCounts { len, set }),
        None => None,
    }
}
