// What refuses a call late.
use db_catalog::FoundDb;
use store_model::Answer;

/// What refuses a call on records that nothing refused early, or the database that it is on.
#[derive(Drop)]
pub(crate) enum Late {
    Refused(Answer),
    Found(FoundDb),
}
