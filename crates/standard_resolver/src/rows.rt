//! Worked rows: the targets of references in small documents.
ghost use Rattle.standard_resolver.specs.DialectRows.{DialectRowsHold};
ghost use Rattle.standard_resolver.specs.DocumentRows.{RowsHold};
ghost use Rattle.standard_resolver.specs.StandardRows.{StandardRowsHold};

/// A law: the worked rows of the narrow rule hold.
///
/// Each row states a consequence of the definitions for a small document. The function does
/// nothing.
pub fn worked_rows()
    ensures rows { RowsHold }
{}

/// A law: the worked rows of the standard's rule hold.
///
/// The function does nothing.
pub fn standard_rows()
    ensures rows { StandardRowsHold }
{}

/// A law: the worked rows of dialects by the standard's rule hold.
///
/// The function does nothing.
pub fn dialect_rows()
    ensures rows { DialectRowsHold }
{}
