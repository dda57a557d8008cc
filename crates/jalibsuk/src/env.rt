// An open environment.
use environment::Environment;
use je_disk::Disk;
use je_order::Word;
use std::alloc::Global;
use std::marker::Model;

/// An open environment. It is not `Drop`: `close` has to take it. Each of its methods says, on what is seen of it, what the store below promises
/// of the call; who wants no theorem reads past the clauses, and has nothing to prove.
pub struct Env<D: Disk> {
    pub(crate) environment: Environment<D>,
    // The names of the databases, by the numbers of their handles; none where it was removed.
    pub(crate) names: Vec<Option<Word>>,
    pub(crate) alloc: Global,
}

impl<D: Disk> Model for Env<D> {
    ghost use Rattle.jalibsuk.specs.Seen.{Seen};
    ghost use Rattle.jalibsuk.specs.Code.{seen_code};
    ghost use Rattle.jalibsuk.specs.Usable.{IsUsable};

    ghost Value = { Seen D };

    ghost coded = { seen_code D D.code };

    ghost view = { λ e. record { environment = e.environment; names = e.names.items } };

    ghost invariant = { λ e. IsUsable D.meaning e.environment };
}
