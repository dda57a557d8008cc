// What a call that opens a cursor comes to.
use open_cursors::OpenCursor;
use store_model::Answer;

/// What refuses a call that opens a cursor, which nothing refused early, or the cursor that it opens.
#[derive(Drop)]
pub(crate) enum ToOpen {
    Refused(Answer),
    Opens(OpenCursor),
}
