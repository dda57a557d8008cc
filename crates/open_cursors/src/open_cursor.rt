// An open cursor.
use je_order::Word;
use store_model::{Kind, Place};

/// An open cursor: its session, where it stands, and the name and the kind of its database, which no call changes
/// while the cursor is open.
#[derive(Drop)]
pub struct OpenCursor {
    pub session: u8,
    pub place: Place,
    pub name: Word,
    pub kind: Kind,
}
