//! Worked rows: greatest solutions of small schemas whose references return.
ghost use Rattle.theory_fixed_points.specs.Cycles.{AllAndMatchRefuses, AnyOrMatchAccepts, TwoAcceptText, TwoRefuseNumber};

/// The worked rows: each clause states what a solution accepts or refuses.
///
/// The rows are computed from the definitions alone, over a tiny resolver, table, matcher and
/// keyword type. The function does nothing when it runs.
pub fn worked_cycle_rows()
    ensures two_refuse_number { TwoRefuseNumber }
    ensures two_accept_text { TwoAcceptText }
    ensures any_or_match_accepts { AnyOrMatchAccepts }
    ensures all_and_match_refuses { AllAndMatchRefuses }
{}
