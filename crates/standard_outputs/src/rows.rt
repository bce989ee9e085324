//! Worked rows: what the definitions show of small evaluations.
ghost use Rattle.standard_outputs.specs.Rows.{BarIsRefused, BarPropIsRefused, EscapedIsApart, ExampleIsRefused};
ghost use Rattle.standard_outputs.specs.Rows.{NamesAreEscaped, PointIsRefused, ReadOnlyAnnotates};

/// States what the definitions show of small evaluations, one in each clause.
///
/// The rows are computed from the definitions alone. The function does nothing at run time.
pub fn worked_rows()
    ensures read_only_annotates { ReadOnlyAnnotates }
    ensures names_are_escaped { NamesAreEscaped }
    ensures point_is_refused { PointIsRefused }
    ensures bar_prop_is_refused { BarPropIsRefused }
    ensures bar_is_refused { BarIsRefused }
    ensures example_is_refused { ExampleIsRefused }
    ensures escaped_is_apart { EscapedIsApart }
{}
