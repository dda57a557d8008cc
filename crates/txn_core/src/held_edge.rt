// Where a search in memory begins or ends.
ghost use Rattle.std.specs.Prelude.{◌≡◌, ◌++◌, ◌∷◌, [], IfOk};
ghost use Rattle.record_map.specs.Cells.{edge_of};
ghost use Rattle.store_model.specs.Store.{named};
ghost use Rattle.cursor_je.specs.Looks.{edge_in, name_in};
ghost use Rattle.txn_core.specs.Views.{edge_held};

use cursor_je::{NameEdge, NameRef};
use record_map::{EdgeRef, SortKey};
use std::alloc::{AllocError, Global};

/// An edge between the names of a database, whose name is held.
#[derive(Drop)]
pub enum HeldEdge {
    /// In front of all names.
    First,
    /// In front of the name.
    At(SortKey),
    /// Right behind the name.
    Behind(SortKey),
    /// Behind all names.
    End,
}

/// The name as it is held. It takes memory where the key has more than 22 bytes, or the dup any.
pub fn held_name(alloc: Global, name: NameRef<'_>) -> Result<SortKey, AllocError>
    ensures { IfOk result (λ held. held ≡ name_in name.entry) }
{
    if name.dup.is_empty() {
        return SortKey::plain(alloc, name.key);
    }
    SortKey::new(alloc, name.to_name(alloc)?)
}

// The least name behind all names of the key.
fn behind_key(alloc: Global, key: &[u8]) -> Result<SortKey, AllocError>
    ensures { IfOk result (λ held. held ≡ named (key.now ++ 0 ∷ []) []) }
{
    let mut bytes = Vec::from_slice(alloc, key)?;
    bytes.push(0)?;
    SortKey::plain(alloc, bytes.as_slice())
}

/// The edge with a name of its own.
pub fn held_edge(alloc: Global, edge: NameEdge<'_>) -> Result<HeldEdge, AllocError>
    ensures { IfOk result (λ held. edge_held held ≡ edge_in edge.entry) }
{
    match edge {
        NameEdge::First => Ok(HeldEdge::First),
        NameEdge::At(name) => Ok(HeldEdge::At(held_name(alloc, name)?)),
        NameEdge::Behind(name) => Ok(HeldEdge::Behind(held_name(alloc, name)?)),
        NameEdge::BehindKey(key) => Ok(HeldEdge::At(behind_key(alloc, key)?)),
        NameEdge::End => Ok(HeldEdge::End),
    }
}

/// The same edge, by reference.
pub fn edge_ref<'a>(edge: &'a HeldEdge) -> EdgeRef<'a>
    ensures { edge_of result ≡ edge_held edge.now }
{
    match edge {
        HeldEdge::First => EdgeRef::First,
        HeldEdge::At(name) => EdgeRef::At(name),
        HeldEdge::Behind(name) => EdgeRef::Behind(name),
        HeldEdge::End => EdgeRef::End,
    }
}
