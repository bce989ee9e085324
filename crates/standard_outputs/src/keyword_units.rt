//! Which units are those of keywords.
ghost use Rattle.std.specs.Prelude.{◌≡◌};
ghost use Rattle.schema_reports.specs.UnitViews.{report_in};
ghost use Rattle.std.specs.Prelude.{true};
ghost use Rattle.standard_outputs.specs.CodeViews.{outer_of, text_of};
ghost use Rattle.standard_outputs.specs.KeywordUnits.{after_slash, is_bare, is_keyword_in, keyword_of, outer_for};

use schema_reports::UnitReport;

/// Returns what a pointer has after an outer one and a `/`, if it begins so.
fn after_slash<'p>(outer: &str, path: &'p str) -> Option<&'p str>
    ensures rest { text_of result ≡ after_slash outer.now path.now }
{
    match path.strip_prefix(outer) {
        Some(rest) => rest.strip_prefix('/'),
        None => None,
    }
}

/// Returns whether a pointer writes a name as it is.
fn is_bare(name: &str) -> bool
    ensures bare { result ≡ is_bare name.now }
{
    let bytes = name.as_bytes();
    !bytes.contains(&b'/') && !bytes.contains(&b'~')
}

/// Returns the keyword of a schema object's unit, of which a unit inside it is.
pub(crate) fn keyword_of<'r>(outer: &UnitReport, report: &'r UnitReport) -> Option<&'r str>
    ensures keyword { text_of result ≡ keyword_of (report_in true outer.now) (report_in true report.now) }
{
    let name = after_slash(
        outer.evaluation_path.as_str(),
        report.evaluation_path.as_str(),
    )?;
    let other = after_slash(
        outer.schema_location.as_str(),
        report.schema_location.as_str(),
    )?;
    if is_bare(name) && name == other {
        Some(name)
    } else {
        None
    }
}

/// Returns whether a unit is that of a keyword of the schema object in whose unit it stands.
pub(crate) fn is_keyword_in(outer: Option<&UnitReport>, report: &UnitReport) -> bool
    ensures keyword { result ≡ is_keyword_in (outer_of outer.entry) (report_in true report.now) }
{
    match outer {
        Some(outer) => keyword_of(outer, report).is_some(),
        None => false,
    }
}

/// Returns the unit if it is that of a schema object.
pub(crate) fn outer_for<'r>(
    outer: Option<&UnitReport>,
    report: &'r UnitReport,
) -> Option<&'r UnitReport>
    ensures outer { outer_of result ≡ outer_for (outer_of outer.entry) (report_in true report.now) }
{
    if is_keyword_in(outer, report) {
        None
    } else {
        Some(report)
    }
}
