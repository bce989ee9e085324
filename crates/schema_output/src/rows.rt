//! Worked rows: what the definitions show of small evaluations.
ghost use Rattle.schema_output.specs.Rows.{ErrorIsListed, FirstErrorStands, RefusedIsListed, StringIsListed};

/// States what the definitions show of small evaluations, one in each clause.
///
/// The rows are computed from the definitions alone. The function does nothing at run time.
pub fn worked_rows()
    ensures string_is_listed { StringIsListed }
    ensures refused_is_listed { RefusedIsListed }
    ensures first_error_stands { FirstErrorStands }
    ensures error_is_listed { ErrorIsListed }
{}
