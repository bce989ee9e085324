//! Worked rows: what the definitions say of small schemas.
ghost use Rattle.theory_meaning.specs.Rows.{RootsAreRoots, TextIsString, NumberIsNoString, NotIsTakenApart, NotIsRefused};
ghost use Rattle.theory_meaning.specs.Rows.{NotSharesNoError, EitherIsTakenApart, EitherIsAccepted, LongSharesOneError};
ghost use Rattle.theory_meaning.specs.Rows.{LongVerdictIsWhole, LongErrorsAreTakenApart, NestedIsRefused, NestedDoesNotReturn};
ghost use Rattle.theory_meaning.specs.Rows.{ChainIsRefused, EmbeddedCountsFromItsResource, SelfIsNoKeyword};
ghost use Rattle.theory_meaning.specs.RowsFused.{FusedHasUnits, FusedHasOneError, FusedKeepsUnits};
ghost use Rattle.theory_meaning.specs.Rows.{TurningReturns, TurningIsNumbered, TurningIsAccepted};

/// The worked rows: each clause states one fact about a small schema.
///
/// The rows are computed from the definitions alone, over a tiny resolver, table, matcher and
/// keyword type. The function does nothing when it runs.
pub fn worked_rows()
    ensures roots_are_roots { RootsAreRoots }
    ensures text_is_string { TextIsString }
    ensures number_is_no_string { NumberIsNoString }
    ensures not_is_taken_apart { NotIsTakenApart }
    ensures not_is_refused { NotIsRefused }
    ensures not_shares_no_error { NotSharesNoError }
    ensures either_is_taken_apart { EitherIsTakenApart }
    ensures either_is_accepted { EitherIsAccepted }
    ensures long_shares_one_error { LongSharesOneError }
    ensures long_verdict_is_whole { LongVerdictIsWhole }
    ensures long_errors_are_taken_apart { LongErrorsAreTakenApart }
    ensures nested_is_refused { NestedIsRefused }
    ensures nested_does_not_return { NestedDoesNotReturn }
    ensures chain_is_refused { ChainIsRefused }
    ensures embedded_counts_from_its_resource { EmbeddedCountsFromItsResource }
    ensures self_is_no_keyword { SelfIsNoKeyword }
    ensures turning_returns { TurningReturns }
    ensures turning_is_numbered { TurningIsNumbered }
    ensures turning_is_accepted { TurningIsAccepted }
    ensures fused_has_units { FusedHasUnits }
    ensures fused_has_one_error { FusedHasOneError }
    ensures fused_keeps_units { FusedKeepsUnits }
{}
