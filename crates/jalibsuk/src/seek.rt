// Where a cursor moves.

/// Where a cursor moves before it reads. Where there is no such record it stays where it is.
#[derive(Clone, Copy, Debug)]
pub enum Seek<'k> {
    First,
    Last,
    /// The next record; from none, the first.
    Next,
    /// The record before; from none, the last.
    Prev,
    /// The next record of the same key.
    NextDup,
    /// The record before of the same key.
    PrevDup,
    /// The first record of the next key; from none, the first.
    NextNoDup,
    /// The last record of the key before; from none, the last.
    PrevNoDup,
    /// Where it stands.
    Current,
    /// The first record of a key.
    Key(&'k [u8]),
    /// The first record with this key or a greater one.
    Range(&'k [u8]),
    /// The record of a key and data.
    Both(&'k [u8], &'k [u8]),
    /// The first record of a key with this data or greater data; in a plain database as `Both`.
    BothRange(&'k [u8], &'k [u8]),
}
