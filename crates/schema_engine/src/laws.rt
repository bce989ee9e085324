//! Laws about any two builds, validators or calls of one schema, for all parts.
//!
//! Each function states one law, and does nothing.
ghost use Rattle.schema_engine.specs.FreeCalls.{EmptyIffValid, NoneIffEmpty, NoneIffValid, TrueIffEmpty, TrueIffNone, TrueIffValid};
ghost use Rattle.schema_engine.specs.FreeCalls.{OneErrorList, OneEvaluation, OneFirstError, OneSense, OneTree, OneVerdict};
ghost use Rattle.schema_engine.specs.FreeCalls.{ErrorListAgain, EvaluationAgain, FirstErrorAgain, UnitsAgain, VerdictAgain};
ghost use Rattle.schema_engine.specs.FreeCalls.{ValidatorCallsAgree};
ghost use Rattle.schema_engine.specs.GreatestCalls.{FinishingAccepts, FinishingGreatest, GreatestAnswersAgree, GreatestVerdictsAgree};
ghost use Rattle.schema_engine.specs.AnyParts.{OfAnyHanded, OfAnyParts};
ghost use Rattle.schema_engine.specs.Nesting.{AllErrorsAgree, BuildsAgree, FirstErrorsAgree, VerdictsAgree};
ghost use Rattle.schema_engine.specs.Nesting.{EvaluationsOfBoth, UnitsOfBoth};
ghost use Rattle.schema_engine.specs.Nesting.{LargerErrors, LargerEvaluations, LargerFirstErrors, LargerVerdicts};

use schema_traits::{KeywordTable, Matcher, Resolver, Validate};

/// Two validators with the meaning of one schema answer every instance alike.
///
/// The law is about two validators that mean the plain meaning of the schema, with equal limits on
/// runs, if no chain of references returns. `build` and `build_nested` return such validators
/// whatever the limit on nested targets, so that limit changes no answer except the site of a
/// failure.
///
/// The verdicts are equal, and so are the first errors and the lists of errors. If both calls
/// return the failure of an unfinished match, each may show a site of its own. If the instance or
/// the schema holds a fraction, the texts of errors are not covered. Then the law says that both
/// calls return an error or neither does, that both return the failure if the call does not decide,
/// and that the errors are equal except for their texts if the first run meets no unfinished match.
///
/// Two evaluations have one verdict, and both are made of the failure if the call does not decide.
/// If the first run meets an unfinished match and texts are covered, their units are equal, or both
/// are made of the failure. If it meets none, their units are equal (except for texts that are not
/// covered), provided that both validators have the units of the plain meaning.
pub fn limits_agree<S: Resolver, T: KeywordTable<K>, K: Validate, M: Matcher>()
    ensures verdict { OfAnyParts (VerdictsAgree S.Resolver T.KeywordTable K.Validate M.Matcher.own) }
    ensures first { OfAnyParts (FirstErrorsAgree S.Resolver T.KeywordTable K.Validate M.Matcher.own) }
    ensures errors { OfAnyParts (AllErrorsAgree S.Resolver T.KeywordTable K.Validate M.Matcher.own) }
    ensures evaluation { OfAnyParts (EvaluationsOfBoth S.Resolver T.KeywordTable K.Validate M.Matcher.own) }
    ensures units { OfAnyParts (UnitsOfBoth S.Resolver T.KeywordTable K.Validate M.Matcher.own) }
{}

/// The validator with the larger limit on runs decides whatever the other decides, and alike.
///
/// The law is about two validators that mean the plain meaning of one schema, if no chain of
/// references returns. If the one with the smaller limit decides, the verdicts are equal, and first
/// errors, lists of errors and evaluations agree as in `limits_agree`.
pub fn larger_limits_agree<S: Resolver, T: KeywordTable<K>, K: Validate, M: Matcher>()
    ensures verdict { OfAnyParts (LargerVerdicts S.Resolver T.KeywordTable K.Validate M.Matcher.own) }
    ensures first { OfAnyParts (LargerFirstErrors S.Resolver T.KeywordTable K.Validate M.Matcher.own) }
    ensures errors { OfAnyParts (LargerErrors S.Resolver T.KeywordTable K.Validate M.Matcher.own) }
    ensures evaluation { OfAnyParts (LargerEvaluations S.Resolver T.KeywordTable K.Validate M.Matcher.own) }
{}

/// Two validators with the greatest solution of one schema agree, even on reference cycles.
///
/// The law is about two validators that accept as the schema does, if each keyword of what the root
/// reaches is monotone. `build` and `build_nested` return such validators whatever the limits on
/// nested targets and on runs. If two calls both decide, one finds no error exactly if the other
/// finds none, and two verdicts are equal.
pub fn greatest_agree<S: Resolver, T: KeywordTable<K>, K: Validate, M: Matcher>()
    ensures answers { OfAnyParts (GreatestAnswersAgree S.Resolver T.KeywordTable K.Validate M.Matcher.own) }
    ensures verdict { OfAnyParts (GreatestVerdictsAgree S.Resolver T.KeywordTable K.Validate M.Matcher.own) }
{}

/// If the matcher finishes every match, each call decides, and answers by the greatest solution.
///
/// If each keyword is monotone, a call finds no error exactly if the nodes accept. If the validator
/// accepts as a schema does, that is exactly if the greatest solution of the schema does: under
/// every outcome of the matches, the largest set of targets and places that supports itself holds
/// the root's target at the root place. This holds for all limits, and even if chains of references
/// return.
pub fn finishing_say_greatest<S: Resolver, T: KeywordTable<K>, K: Validate, M: Matcher>()
    ensures nodes { FinishingAccepts K.Validate M.Matcher.own }
    ensures schema { OfAnyParts (FinishingGreatest S.Resolver T.KeywordTable K.Validate M.Matcher.own) }
{}

/// Whether a schema builds does not depend on the limits on nested targets and on runs.
///
/// What `build` and `build_nested` promise of a validator, and of an error, does not name these
/// limits. So if one build of a schema succeeded, then another build with the same meta validators,
/// by options that differ in these limits alone, fails only if it is out of memory. This holds
/// whether or not the options have the schema checked.
pub fn builds_agree<S: Resolver, T: KeywordTable<K>, K: Validate, M: Matcher>()
    ensures memory { OfAnyParts (BuildsAgree S.Resolver T.KeywordTable K.Validate M.Matcher.own) }
{}

/// The calls `is_valid`, `validate`, `iter_errors` and `evaluate` agree, even on reference cycles.
///
/// Each call compiles nodes of its own. Any two validators compiled from one schema, by the same
/// options and the same limit on nested targets, have one sense and the same units at every depth.
/// So two verdicts are equal, and two first errors, two lists of errors or two evaluations agree as
/// in `limits_agree`. The units of two evaluations are equal if the first run meets no unfinished
/// match.
///
/// If two calls both decide, one finds no error exactly if the other finds none: `is_valid` by
/// returning `true`, `validate` by no error, `iter_errors` by the empty list, and `evaluate` by a
/// valid unit. The verdicts, and whether there is an error, do not depend on whether the texts of
/// errors are covered.
pub fn free_calls_agree<S: Resolver, T: KeywordTable<K>, K: Validate, M: Matcher>()
    ensures sense { OfAnyHanded S.Resolver T.KeywordTable K.Validate M.Matcher.own OneSense }
    ensures verdict { OfAnyHanded S.Resolver T.KeywordTable K.Validate M.Matcher.own OneVerdict }
    ensures first { OfAnyHanded S.Resolver T.KeywordTable K.Validate M.Matcher.own OneFirstError }
    ensures errors { OfAnyHanded S.Resolver T.KeywordTable K.Validate M.Matcher.own OneErrorList }
    ensures evaluation { OfAnyHanded S.Resolver T.KeywordTable K.Validate M.Matcher.own OneEvaluation }
    ensures units { OfAnyHanded S.Resolver T.KeywordTable K.Validate M.Matcher.own OneTree }
    ensures true_none { OfAnyHanded S.Resolver T.KeywordTable K.Validate M.Matcher.own TrueIffNone }
    ensures true_empty { OfAnyHanded S.Resolver T.KeywordTable K.Validate M.Matcher.own TrueIffEmpty }
    ensures none_empty { OfAnyHanded S.Resolver T.KeywordTable K.Validate M.Matcher.own NoneIffEmpty }
    ensures true_valid { OfAnyHanded S.Resolver T.KeywordTable K.Validate M.Matcher.own TrueIffValid }
    ensures none_valid { OfAnyHanded S.Resolver T.KeywordTable K.Validate M.Matcher.own NoneIffValid }
    ensures empty_valid { OfAnyHanded S.Resolver T.KeywordTable K.Validate M.Matcher.own EmptyIffValid }
{}

/// The four calls of one validator agree on every instance, even on reference cycles.
///
/// If two of them decide, one finds no error exactly if the other finds none, from some depth on:
/// `is_valid` by returning `true`, `validate` by no error, `iter_errors` by the empty list, and
/// `evaluate` by a valid unit.
pub fn validator_calls_agree<K: Validate, M: Matcher>()
    ensures verdicts { ValidatorCallsAgree K.Validate M.Matcher.own }
{}

/// A call made twice answers alike, even on reference cycles.
///
/// Two verdicts are equal, two first errors are equal or both are none, two lists of errors are
/// equal, and two evaluations have one verdict and equal units. Only a failure may differ: it
/// reports an unfinished match, if the call does not decide or the outcomes share no error, and may
/// show a site of its own each time. If texts of errors are not covered, because the instance or
/// the schema holds a fraction, the law says what `limits_agree` says then.
pub fn calls_repeat<K: Validate, M: Matcher>()
    ensures verdict { VerdictAgain K.Validate M.Matcher.own }
    ensures first { FirstErrorAgain K.Validate M.Matcher.own }
    ensures errors { ErrorListAgain K.Validate M.Matcher.own }
    ensures evaluation { EvaluationAgain K.Validate M.Matcher.own }
    ensures units { UnitsAgain K.Validate M.Matcher.own }
{}
