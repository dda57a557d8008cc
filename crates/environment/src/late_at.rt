// What refuses a call at a cursor late.
use crate::spot::Spot;
use store_model::Answer;

/// What refuses a call at a cursor that nothing refused early, or where the cursor stands.
#[derive(Drop)]
pub(crate) enum LateAt {
    Refused(Answer),
    Stands(Spot),
}
