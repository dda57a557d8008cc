// A view of records that lie in a list.
ghost use Rattle.std.specs.Prelude.{◌≡◌, true};
ghost use Rattle.cursor_je.specs.Rising.{rising};

use crate::searching::{first_in, last_in};
use crate::{NameEdge, NameRef, RecordRef, View};
use je_order::{List, Octets};
use std::alloc::{AllocError, Global};
use store_model::Kind;

// The records of a database, in a list, in which their names rise.
#[derive(Drop)]
pub struct ListView {
    pub kind: Kind,
    pub pairs: List<(Octets, Octets)>,
    ghost up: { rising kind pairs ≡ true },
}

impl View for ListView {
    ghost use Rattle.cursor_je.specs.Rising.{rises_of};

    ghost kind_of = { λ v. v.kind };

    ghost pairs_of = { λ v. v.pairs };

    ghost rises = { λ v. rises_of v.kind v.pairs v.up };

    fn kind(&self) -> Kind {
        self.kind
    }

    fn record(
        &self,
        _alloc: Global,
        name: NameRef<'_>,
    ) -> Result<Option<RecordRef<'_>>, AllocError> {
        let from = NameEdge::At(name);
        let upto = NameEdge::Behind(name);
        Ok(first_in(self.kind, from, upto, self.pairs.as_slice()))
    }

    fn first_from(
        &self,
        _alloc: Global,
        from: NameEdge<'_>,
    ) -> Result<Option<RecordRef<'_>>, AllocError> {
        Ok(first_in(self.kind, from, NameEdge::End, self.pairs.as_slice()))
    }

    fn last_below(
        &self,
        _alloc: Global,
        upto: NameEdge<'_>,
    ) -> Result<Option<RecordRef<'_>>, AllocError> {
        Ok(last_in(self.kind, NameEdge::First, upto, self.pairs.as_slice()))
    }
}
