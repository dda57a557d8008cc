// Tables of rows, each of which says what is to come.

/// The first row of a table that does not come as it says, by its place among the rows, from 0; None where all of
/// them do.
pub fn first_wrong<R, E, F: FnMut(&R) -> Result<bool, E>>(
    rows: &[R],
    mut comes: F,
) -> Result<Option<usize>, E>
    requires { F.IsAlwaysCallable comes }
{
    for (at, row) in rows.iter().enumerate() {
        if !comes(row)? {
            return Ok(Some(at));
        }
    }
    Ok(None)
}
