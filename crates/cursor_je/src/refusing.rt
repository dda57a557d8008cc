// What a database refuses.
ghost use Rattle.std.specs.Prelude.{◌≡◌};
ghost use Rattle.store_model.specs.Refusals.{or_refusal, too_long, data_limit, pair_refusal, motion_refusal, kind_refusal, size_refusal, database_refuses};

use je_order::{KEY_LIMIT, VALUE_LIMIT};
use store_model::{Answer, Call, DUP_LIMIT, Kind, Motion, PutMode};

fn too_long(limit: usize, bytes: &[u8]) -> Option<Answer>
    ensures { result ≡ too_long limit bytes.now }
{
    if limit < bytes.len() {
        return Some(Answer::TooLong {
            length: bytes.len() as u64,
        });
    }
    None
}

fn data_limit(kind: Kind) -> usize
    ensures { result ≡ data_limit kind }
{
    match kind {
        Kind::Plain => VALUE_LIMIT,
        Kind::Dup => DUP_LIMIT,
    }
}

fn pair_refusal(kind: Kind, key: &[u8], value: &[u8]) -> Option<Answer>
    ensures { result ≡ pair_refusal kind key.now value.now }
{
    if let Some(refusal) = too_long(KEY_LIMIT, key) {
        return Some(refusal);
    }
    too_long(data_limit(kind), value)
}

fn motion_refusal(motion: &Motion, kind: Kind) -> Option<Answer>
    ensures { result ≡ motion_refusal motion.now kind }
{
    match motion {
        Motion::Key { key } => too_long(KEY_LIMIT, key.as_slice()),
        Motion::Range { key } => too_long(KEY_LIMIT, key.as_slice()),
        Motion::Both { key, value } => pair_refusal(kind, key.as_slice(), value.as_slice()),
        Motion::BothRange { key, value } => pair_refusal(kind, key.as_slice(), value.as_slice()),
        _ => None,
    }
}

fn size_refusal(call: &Call, kind: Kind) -> Option<Answer>
    ensures { result ≡ size_refusal call.now kind }
{
    match call {
        Call::Get { key, .. } => too_long(KEY_LIMIT, key.as_slice()),
        Call::GetBoth { key, value, .. } => pair_refusal(kind, key.as_slice(), value.as_slice()),
        Call::Put { key, value, .. } => pair_refusal(kind, key.as_slice(), value.as_slice()),
        Call::Delete { key, .. } => too_long(KEY_LIMIT, key.as_slice()),
        Call::Cur { motion, .. } => motion_refusal(motion, kind),
        Call::CPutCur { value, .. } => too_long(data_limit(kind), value.as_slice()),
        Call::CPut { key, value, .. } => pair_refusal(kind, key.as_slice(), value.as_slice()),
        _ => None,
    }
}

fn kind_refusal(call: &Call, kind: Kind) -> Option<Answer>
    ensures { result ≡ kind_refusal call.now kind }
{
    match (call, kind) {
        (Call::CPutCur { .. }, Kind::Dup) => Some(Answer::NotOnDuplicates),
        (
            Call::Put {
                mode: PutMode::NoDupData,
                ..
            },
            Kind::Plain,
        ) => Some(Answer::OnlyOnDuplicates),
        (
            Call::CPut {
                mode: PutMode::NoDupData,
                ..
            },
            Kind::Plain,
        ) => Some(Answer::OnlyOnDuplicates),
        _ => None,
    }
}

/// What a database of that kind refuses of a call on its records: the call is none for its kind, else
/// the key or the data has more bytes than it may. None where it refuses nothing. It takes no memory.
pub fn refusal(kind: Kind, call: &Call) -> Option<Answer>
    ensures { result ≡ database_refuses kind call.now }
{
    if let Some(refusal) = kind_refusal(call, kind) {
        return Some(refusal);
    }
    size_refusal(call, kind)
}
