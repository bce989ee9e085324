//! Units made of the errors of a run. (Core 2020-12, 12.3 and 12.4)
ghost use Rattle.std.specs.Prelude.{◌≡◌, Bool, IfOk, map};
ghost use Rattle.schema_reports.specs.ReportViews.{error_of};
ghost use Rattle.schema_reports.specs.UnitViews.{unit_of};
ghost use Rattle.schema_output.specs.ErrorUnits.{error_unit, errors_unit, root_unit};

use schema_reports::{
    ErrorDescription, EvaluationNode, OutOfMemory, SharedLocation, UnitReport, ValidationError,
};
use std::alloc::Global;

// Returns the unit of one error.
fn error_unit(alloc: Global, error: ValidationError<'_>) -> Result<EvaluationNode, OutOfMemory>
    ensures unit { IfOk result (λ n. (texts : Bool) → unit_of texts n ≡ error_unit (error_of texts error.entry)) }
{
    let instance_location = SharedLocation::new(alloc, error.instance_path(alloc)?)?;
    let evaluation_path = SharedLocation::new(alloc, error.evaluation_path)?;
    let schema_location = SharedLocation::new(alloc, error.schema_path)?;
    let mut errors = Vec::new(alloc);
    errors.push(ErrorDescription {
        keyword: error.keyword,
        text: error.text,
    })?;
    Ok(EvaluationNode {
        report: UnitReport {
            valid: false,
            evaluation_path,
            absolute_keyword_location: None,
            schema_location,
            instance_location,
            annotations: None,
            errors,
        },
        children: Vec::new(alloc),
    })
}

// Returns a root with this verdict and these units, and nothing else.
fn root_unit(
    alloc: Global,
    valid: bool,
    children: Vec<EvaluationNode>,
) -> Result<EvaluationNode, OutOfMemory>
    ensures unit { IfOk result (λ n. (texts : Bool) → unit_of texts n ≡ root_unit valid (map (unit_of texts) children.items)) }
{
    let root = SharedLocation::root(alloc)?;
    Ok(EvaluationNode {
        report: UnitReport {
            valid,
            evaluation_path: root.clone()?,
            absolute_keyword_location: None,
            schema_location: root.clone()?,
            instance_location: root,
            annotations: None,
            errors: Vec::new(alloc),
        },
        children,
    })
}

/// Returns a root with one unit for each error, in their order.
///
/// The root is valid exactly if there is no error, and its locations are empty. The unit of an
/// error is invalid, and has the error's locations, keyword and text. No unit has an absolute
/// location or annotations.
///
/// # Errors
///
/// Out of memory.
pub fn unit_of_errors(
    alloc: Global,
    errors: Vec<ValidationError<'_>>,
) -> Result<EvaluationNode, OutOfMemory>
    ensures unit { IfOk result (λ n. (texts : Bool) → unit_of texts n ≡ errors_unit (map (error_of texts) errors.entry.items)) }
{
    let valid = errors.is_empty();
    let mut children = Vec::new(alloc);
    for error in errors {
        children.push(error_unit(alloc, error)?)?;
    }
    let unit = root_unit(alloc, valid, children)?;
    Ok(unit)
}
