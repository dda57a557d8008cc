// Edges between names.
ghost use Rattle.std.specs.Prelude.{◌≡◌, [], IfOk};
ghost use Rattle.je_order.specs.Order.{name_cmp};
ghost use Rattle.je_order.specs.Edges.{is_below};
ghost use Rattle.je_order.specs.Edges.Edge.{At as AtEdge};
ghost use Rattle.store_model.specs.Store.{Pair, named, name_of, proper};
ghost use Rattle.store_model.specs.Reads.{behind_key};
ghost use Rattle.record_eval.specs.Looks.{edge_in};

use je_order::{Name, Octets, cmp_bytes, copy_of};
use std::alloc::{AllocError, Global};
use std::cmp::Ordering;
use store_model::Kind;

/// In front of all names, in front of a name, right behind a name, or behind all names.
#[derive(Drop)]
pub enum NameEdge {
    First,
    At { name: Name },
    Behind { name: Name },
    End,
}

/// The name of a key alone.
pub fn key_name(alloc: Global, key: &Octets) -> Result<Name, AllocError>
    ensures { IfOk result (λ name. name ≡ named key.now []) }
{
    Ok(Name {
        key: copy_of(key)?,
        dup: Octets::new(alloc),
    })
}

/// The name of the record of a key and data.
pub fn pair_name(
    alloc: Global,
    kind: Kind,
    key: &Octets,
    value: &Octets,
) -> Result<Name, AllocError>
    ensures { IfOk result (λ name. name ≡ name_of kind (key.now, value.now)) }
{
    match kind {
        Kind::Plain => key_name(alloc, key),
        Kind::Dup => {
            Ok(Name {
                key: copy_of(key)?,
                dup: copy_of(value)?,
            })
        }
    }
}

/// The name that a name is for in a database of that kind.
pub fn proper_name(alloc: Global, kind: Kind, at: &Name) -> Result<Name, AllocError>
    ensures { IfOk result (λ name. name ≡ proper kind at.now) }
{
    match kind {
        Kind::Plain => key_name(alloc, &at.key),
        Kind::Dup => copy_of(at),
    }
}

/// In front of all names of a key.
pub fn before_key(alloc: Global, key: &Octets) -> Result<NameEdge, AllocError>
    ensures { IfOk result (λ edge. edge_in edge ≡ AtEdge (named key.now [])) }
{
    let name = key_name(alloc, key)?;
    Ok(NameEdge::At { name })
}

/// Behind all names of a key.
pub fn after_key(alloc: Global, key: &Octets) -> Result<NameEdge, AllocError>
    ensures { IfOk result (λ edge. edge_in edge ≡ behind_key key.now) }
{
    let mut longer = Vec::from_slice(alloc, key.as_slice())?;
    longer.push(0)?;
    let name = Name {
        key: Octets::from_vec(longer),
        dup: Octets::new(alloc),
    };
    Ok(NameEdge::At { name })
}

/// The order of a name and that of a record.
pub fn cmp_to_pair(kind: Kind, name: &Name, pair: &(Octets, Octets)) -> Ordering
    ensures { result ≡ name_cmp name.now (name_of kind pair.now) }
{
    let keys = cmp_bytes(name.key.as_slice(), pair.0.as_slice());
    match kind {
        Kind::Plain => keys.then(cmp_bytes(name.dup.as_slice(), b"")),
        Kind::Dup => keys.then(cmp_bytes(name.dup.as_slice(), pair.1.as_slice())),
    }
}

/// The order of a record's name and a name.
pub fn cmp_pair(kind: Kind, pair: &(Octets, Octets), name: &Name) -> Ordering
    ensures { result ≡ name_cmp (name_of kind pair.now) name.now }
{
    let keys = cmp_bytes(pair.0.as_slice(), name.key.as_slice());
    match kind {
        Kind::Plain => keys.then(cmp_bytes(b"", name.dup.as_slice())),
        Kind::Dup => keys.then(cmp_bytes(pair.1.as_slice(), name.dup.as_slice())),
    }
}

impl NameEdge {
    /// Whether a record's name is below the edge.
    pub fn is_below(&self, kind: Kind, pair: &(Octets, Octets)) -> bool
        ensures { result ≡ is_below (edge_in self.now) (name_of kind pair.now) }
    {
        match self {
            NameEdge::First => false,
            NameEdge::At { name } => cmp_to_pair(kind, name, pair).is_gt(),
            NameEdge::Behind { name } => cmp_to_pair(kind, name, pair).is_ge(),
            NameEdge::End => true,
        }
    }

    /// Whether a name is below the edge.
    pub fn is_above_name(&self, other: &Name) -> bool
        ensures { result ≡ is_below (edge_in self.now) other.now }
    {
        match self {
            NameEdge::First => false,
            NameEdge::At { name } => je_order::cmp_name(name, other).is_gt(),
            NameEdge::Behind { name } => je_order::cmp_name(name, other).is_ge(),
            NameEdge::End => true,
        }
    }
}
