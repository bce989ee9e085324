//! Worked rows: what greatest solutions accept if chains of questions return.
ghost use Rattle.theory_fixed_points.specs.Rows.{AllAcceptsText, AllComesBack, AllRefusesNumber, AnyAcceptsNumber, AnyComesBack};

/// The worked rows: each clause states one fact about a small schema.
///
/// Either a chain of questions returns, or a greatest solution accepts or refuses an instance. The
/// rows are computed from the definitions alone, over a tiny resolver, table, matcher and keyword
/// type. The function does nothing when it runs.
pub fn worked_rows()
    ensures any_comes_back { AnyComesBack }
    ensures any_accepts_number { AnyAcceptsNumber }
    ensures all_comes_back { AllComesBack }
    ensures all_refuses_number { AllRefusesNumber }
    ensures all_accepts_text { AllAcceptsText }
{}
