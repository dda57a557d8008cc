// What a call on records comes to, and the databases beside its own.
use je_order::List;
use sessions::NamedDb;
use txn_views::TargetPlan;

/// What a call of a transaction comes to, and the databases in which it may wait beside its own: the primary of an
/// index, or the indexes of a primary.
#[derive(Drop)]
pub(crate) struct CallPlan {
    pub(crate) target: TargetPlan,
    pub(crate) others: List<NamedDb>,
}
