// What calls come to, over records in a list, and what is refused.
use crate::list_view::ListView;
use crate::searching::is_rising;
use crate::{Planned, plan, refusal};
use je_order::{List, Name, Octets, Word};
use std::alloc::{AllocError, Global};
use store_model::{Answer, Call, Kind, Motion, PutMode};

type Bytes = &'static [u8];

/// A call, by its bytes.
#[derive(Clone, Copy)]
enum Ask {
    Get(Bytes),
    GetBoth(Bytes, Bytes),
    Put(Bytes, Bytes, PutMode),
    Delete(Bytes),
    Count,
    First,
    Last,
    Next,
    Prev,
    NextDup,
    PrevDup,
    NextNoDup,
    PrevNoDup,
    Current,
    Key(Bytes),
    Range(Bytes),
    Both(Bytes, Bytes),
    BothRange(Bytes, Bytes),
    PutHere(Bytes),
    DeleteHere,
    CursorPut(Bytes, Bytes, PutMode),
}

/// What a call is answered.
#[derive(Clone, Copy)]
enum Want {
    Done,
    Rec(Bytes, Bytes),
    Count(u64),
    NotFound,
    KeyExist,
    KeyEmpty,
    NoPosition,
}

type Pairs = &'static [(Bytes, Bytes)];

/// Which records there are.
#[derive(Clone, Copy)]
enum Held {
    Empty,
    Plain,
    Dups,
    Left,
    Keys,
}

/// The kind and the records, where the cursor stands, the call, its answer, where the cursor then stands,
/// and how many changes there are.
#[derive(Clone, Copy)]
struct Row(
    Kind,
    Held,
    Option<(Bytes, Bytes)>,
    Ask,
    Want,
    Option<(Bytes, Bytes)>,
    usize,
);

static EMPTY: [(Bytes, Bytes); 0] = [];

static PLAIN: [(Bytes, Bytes); 2] = [(b"a", b"1"), (b"c", b"3")];

static DUPS: [(Bytes, Bytes); 3] = [(b"k", b"1"), (b"k", b"2"), (b"k", b"3")];

static LEFT: [(Bytes, Bytes); 2] = [(b"k", b"2"), (b"k", b"3")];

static KEYS: [(Bytes, Bytes); 4] = [(b"a", b"1"), (b"k", b"2"), (b"k", b"4"), (b"m", b"1")];

static ROWS: [Row; 34] = [
    Row(
        Kind::Plain,
        Held::Plain,
        None,
        Ask::Get(b"a"),
        Want::Rec(b"a", b"1"),
        None,
        0,
    ),
    Row(
        Kind::Plain,
        Held::Plain,
        None,
        Ask::Get(b"b"),
        Want::NotFound,
        None,
        0,
    ),
    Row(
        Kind::Plain,
        Held::Plain,
        None,
        Ask::GetBoth(b"a", b"2"),
        Want::NotFound,
        None,
        0,
    ),
    Row(
        Kind::Plain,
        Held::Plain,
        None,
        Ask::Put(b"a", b"9", PutMode::Overwrite),
        Want::Done,
        None,
        1,
    ),
    Row(
        Kind::Plain,
        Held::Plain,
        None,
        Ask::Put(b"a", b"9", PutMode::NoOverwrite),
        Want::KeyExist,
        None,
        0,
    ),
    Row(
        Kind::Plain,
        Held::Plain,
        None,
        Ask::Delete(b"c"),
        Want::Done,
        None,
        1,
    ),
    Row(
        Kind::Plain,
        Held::Plain,
        None,
        Ask::First,
        Want::Rec(b"a", b"1"),
        Some((b"a", b"")),
        0,
    ),
    Row(
        Kind::Plain,
        Held::Plain,
        Some((b"a", b"")),
        Ask::Next,
        Want::Rec(b"c", b"3"),
        Some((b"c", b"")),
        0,
    ),
    Row(
        Kind::Plain,
        Held::Plain,
        Some((b"c", b"")),
        Ask::Next,
        Want::NotFound,
        Some((b"c", b"")),
        0,
    ),
    Row(
        Kind::Plain,
        Held::Plain,
        None,
        Ask::Prev,
        Want::Rec(b"c", b"3"),
        Some((b"c", b"")),
        0,
    ),
    Row(
        Kind::Plain,
        Held::Plain,
        None,
        Ask::Range(b"b"),
        Want::Rec(b"c", b"3"),
        Some((b"c", b"")),
        0,
    ),
    Row(
        Kind::Plain,
        Held::Plain,
        None,
        Ask::BothRange(b"a", b"0"),
        Want::NotFound,
        None,
        0,
    ),
    Row(
        Kind::Plain,
        Held::Plain,
        None,
        Ask::NextDup,
        Want::NoPosition,
        None,
        0,
    ),
    Row(
        Kind::Plain,
        Held::Plain,
        Some((b"a", b"")),
        Ask::PutHere(b"7"),
        Want::Done,
        Some((b"a", b"")),
        1,
    ),
    Row(
        Kind::Plain,
        Held::Empty,
        Some((b"a", b"")),
        Ask::PutHere(b"7"),
        Want::KeyEmpty,
        Some((b"a", b"")),
        0,
    ),
    Row(
        Kind::Plain,
        Held::Plain,
        None,
        Ask::CursorPut(b"b", b"2", PutMode::NoOverwrite),
        Want::Done,
        Some((b"b", b"")),
        1,
    ),
    Row(
        Kind::Dup,
        Held::Dups,
        None,
        Ask::Put(b"k", b"2", PutMode::NoDupData),
        Want::KeyExist,
        None,
        0,
    ),
    Row(
        Kind::Dup,
        Held::Dups,
        None,
        Ask::Key(b"k"),
        Want::Rec(b"k", b"1"),
        Some((b"k", b"1")),
        0,
    ),
    Row(
        Kind::Dup,
        Held::Dups,
        Some((b"k", b"1")),
        Ask::Count,
        Want::Count(3),
        Some((b"k", b"1")),
        0,
    ),
    Row(
        Kind::Dup,
        Held::Dups,
        Some((b"k", b"1")),
        Ask::DeleteHere,
        Want::Done,
        Some((b"k", b"1")),
        1,
    ),
    Row(
        Kind::Dup,
        Held::Left,
        Some((b"k", b"1")),
        Ask::Current,
        Want::KeyEmpty,
        Some((b"k", b"1")),
        0,
    ),
    Row(
        Kind::Dup,
        Held::Left,
        Some((b"k", b"1")),
        Ask::Next,
        Want::Rec(b"k", b"2"),
        Some((b"k", b"2")),
        0,
    ),
    Row(
        Kind::Dup,
        Held::Left,
        None,
        Ask::Delete(b"k"),
        Want::Done,
        None,
        2,
    ),
    Row(
        Kind::Dup,
        Held::Empty,
        None,
        Ask::Get(b"k"),
        Want::NotFound,
        None,
        0,
    ),
    Row(
        Kind::Dup,
        Held::Keys,
        Some((b"k", b"2")),
        Ask::NextDup,
        Want::Rec(b"k", b"4"),
        Some((b"k", b"4")),
        0,
    ),
    Row(
        Kind::Dup,
        Held::Keys,
        Some((b"k", b"2")),
        Ask::PrevDup,
        Want::NotFound,
        Some((b"k", b"2")),
        0,
    ),
    Row(
        Kind::Dup,
        Held::Keys,
        Some((b"k", b"2")),
        Ask::NextNoDup,
        Want::Rec(b"m", b"1"),
        Some((b"m", b"1")),
        0,
    ),
    Row(
        Kind::Dup,
        Held::Keys,
        Some((b"k", b"4")),
        Ask::PrevNoDup,
        Want::Rec(b"a", b"1"),
        Some((b"a", b"1")),
        0,
    ),
    Row(
        Kind::Dup,
        Held::Keys,
        Some((b"k", b"4")),
        Ask::Last,
        Want::Rec(b"m", b"1"),
        Some((b"m", b"1")),
        0,
    ),
    Row(
        Kind::Dup,
        Held::Keys,
        None,
        Ask::BothRange(b"k", b"3"),
        Want::Rec(b"k", b"4"),
        Some((b"k", b"4")),
        0,
    ),
    Row(
        Kind::Dup,
        Held::Keys,
        None,
        Ask::Both(b"k", b"3"),
        Want::NotFound,
        None,
        0,
    ),
    Row(
        Kind::Dup,
        Held::Keys,
        None,
        Ask::Put(b"k", b"2", PutMode::Overwrite),
        Want::Done,
        None,
        1,
    ),
    Row(
        Kind::Dup,
        Held::Keys,
        None,
        Ask::Put(b"k", b"9", PutMode::NoOverwrite),
        Want::KeyExist,
        None,
        0,
    ),
    Row(
        Kind::Dup,
        Held::Keys,
        None,
        Ask::CursorPut(b"k", b"3", PutMode::NoDupData),
        Want::Done,
        Some((b"k", b"3")),
        1,
    ),
];

fn pairs_of(held: Held) -> Pairs {
    match held {
        Held::Empty => &EMPTY,
        Held::Plain => &PLAIN,
        Held::Dups => &DUPS,
        Held::Left => &LEFT,
        Held::Keys => &KEYS,
    }
}

fn octets(alloc: Global, bytes: &[u8]) -> Result<Octets, AllocError> {
    Octets::from_slice(alloc, bytes)
}

fn word(alloc: Global) -> Result<Word, AllocError> {
    Word::from_slice(alloc, b"d")
}

fn pair_of(alloc: Global, pair: &(Bytes, Bytes)) -> Result<(Octets, Octets), AllocError> {
    Ok((octets(alloc, pair.0)?, octets(alloc, pair.1)?))
}

// The records in a list, if their names rise.
fn view_of(alloc: Global, kind: Kind, rows: Pairs) -> Result<Option<ListView>, AllocError> {
    let mut pairs = List::new(alloc);
    for row in rows {
        pairs.push(pair_of(alloc, row)?)?;
    }
    if is_rising(kind, pairs.as_slice()) {
        return Ok(Some(ListView { kind, pairs }));
    }
    Ok(None)
}

fn place_of(alloc: Global, at: Option<(Bytes, Bytes)>) -> Result<Option<Name>, AllocError> {
    let Some((key, dup)) = at else {
        return Ok(None);
    };
    Ok(Some(Name {
        key: octets(alloc, key)?,
        dup: octets(alloc, dup)?,
    }))
}

fn motion_of(alloc: Global, ask: &Ask) -> Result<Motion, AllocError> {
    match *ask {
        Ask::First => Ok(Motion::First),
        Ask::Last => Ok(Motion::Last),
        Ask::Next => Ok(Motion::Next),
        Ask::Prev => Ok(Motion::Prev),
        Ask::NextDup => Ok(Motion::NextDup),
        Ask::PrevDup => Ok(Motion::PrevDup),
        Ask::NextNoDup => Ok(Motion::NextNoDup),
        Ask::PrevNoDup => Ok(Motion::PrevNoDup),
        Ask::Key(key) => Ok(Motion::Key {
            key: octets(alloc, key)?,
        }),
        Ask::Range(key) => Ok(Motion::Range {
            key: octets(alloc, key)?,
        }),
        Ask::Both(key, value) => Ok(Motion::Both {
            key: octets(alloc, key)?,
            value: octets(alloc, value)?,
        }),
        Ask::BothRange(key, value) => Ok(Motion::BothRange {
            key: octets(alloc, key)?,
            value: octets(alloc, value)?,
        }),
        _ => Ok(Motion::Current),
    }
}

fn call_of(alloc: Global, ask: &Ask) -> Result<Call, AllocError> {
    match *ask {
        Ask::Get(key) => Ok(Call::Get {
            db: word(alloc)?,
            key: octets(alloc, key)?,
            rmw: false,
        }),
        Ask::GetBoth(key, value) => Ok(Call::GetBoth {
            db: word(alloc)?,
            key: octets(alloc, key)?,
            value: octets(alloc, value)?,
            rmw: false,
        }),
        Ask::Put(key, value, mode) => Ok(Call::Put {
            db: word(alloc)?,
            key: octets(alloc, key)?,
            value: octets(alloc, value)?,
            mode,
        }),
        Ask::Delete(key) => Ok(Call::Delete {
            db: word(alloc)?,
            key: octets(alloc, key)?,
        }),
        Ask::Count => Ok(Call::Count { cursor: 1 }),
        Ask::PutHere(value) => Ok(Call::CPutCur {
            cursor: 1,
            value: octets(alloc, value)?,
        }),
        Ask::DeleteHere => Ok(Call::CDel { cursor: 1 }),
        Ask::CursorPut(key, value, mode) => Ok(Call::CPut {
            cursor: 1,
            key: octets(alloc, key)?,
            value: octets(alloc, value)?,
            mode,
        }),
        _ => Ok(Call::Cur {
            cursor: 1,
            motion: motion_of(alloc, ask)?,
            rmw: false,
        }),
    }
}

fn is_answer(answer: &Answer, want: &Want) -> bool {
    match (answer, want) {
        (Answer::Done, Want::Done) => true,
        (Answer::Rec { key, value }, Want::Rec(k, v)) => {
            key.as_slice() == *k && value.as_slice() == *v
        }
        (Answer::Count { count }, Want::Count(n)) => count == n,
        (Answer::NotFound, Want::NotFound) => true,
        (Answer::KeyExist, Want::KeyExist) => true,
        (Answer::KeyEmpty, Want::KeyEmpty) => true,
        (Answer::NoPosition, Want::NoPosition) => true,
        _ => false,
    }
}

fn is_place(place: &Option<Name>, want: &Option<(Bytes, Bytes)>) -> bool {
    match (place, want) {
        (None, None) => true,
        (Some(name), Some((key, dup))) => {
            name.key.as_slice() == *key && name.dup.as_slice() == *dup
        }
        _ => false,
    }
}

fn planned_of(
    alloc: Global,
    view: &ListView,
    call: Call,
    at: &Option<Name>,
) -> Result<Planned, AllocError> {
    let planned = plan(alloc, view, &call, at.as_ref());
    drop(call);
    planned
}

fn is_as_planned(planned: &Planned, row: &Row) -> bool {
    is_answer(&planned.answer, &row.4)
        && is_place(&planned.place, &row.5)
        && planned.changes.len() == row.6
}

fn is_right(alloc: Global, row: &Row) -> Result<bool, AllocError> {
    let Some(view) = view_of(alloc, row.0, pairs_of(row.1))? else {
        return Ok(false);
    };
    let at = place_of(alloc, row.2)?;
    let planned = planned_of(alloc, &view, call_of(alloc, &row.3)?, &at)?;
    let right = is_as_planned(&planned, row);
    drop(planned);
    Ok(right)
}

#[test]
fn calls_come_to_what_was_worked_out(rt: HostRuntime) {
    for row in &ROWS {
        assert!(rt; is_right(rt.alloc(), row) == Ok(true));
    }
}

// A kind, the bytes of a key and of data, and the length that is refused, if any.
static LIMITS: [(Kind, usize, usize, Option<u64>); 6] = [
    (Kind::Plain, 4_096, 1, None),
    (Kind::Plain, 4_097, 1, Some(4_097)),
    (Kind::Plain, 1, 65_536, None),
    (Kind::Plain, 1, 65_537, Some(65_537)),
    (Kind::Dup, 1, 4_096, None),
    (Kind::Dup, 1, 4_097, Some(4_097)),
];

fn zeros(alloc: Global, len: usize) -> Result<Octets, AllocError> {
    Ok(Octets::from_vec(vec![in alloc; 0; len]?))
}

fn put_of(alloc: Global, key: usize, value: usize) -> Result<Call, AllocError> {
    Ok(Call::Put {
        db: word(alloc)?,
        key: zeros(alloc, key)?,
        value: zeros(alloc, value)?,
        mode: PutMode::Overwrite,
    })
}

fn refused_length(kind: Kind, call: Call) -> Option<u64> {
    let refused = refusal(kind, &call);
    drop(call);
    match refused {
        Some(Answer::TooLong { length }) => Some(length),
        other => {
            drop(other);
            None
        }
    }
}

fn length_refused(
    alloc: Global,
    row: &(Kind, usize, usize, Option<u64>),
) -> Result<Option<u64>, AllocError> {
    let call = put_of(alloc, row.1, row.2)?;
    Ok(refused_length(row.0, call))
}

#[test]
fn refuses_past_the_limits(rt: HostRuntime) {
    for row in &LIMITS {
        assert!(rt; length_refused(rt.alloc(), row) == Ok(row.3));
    }
}
