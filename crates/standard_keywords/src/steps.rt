//! Steps of one family's makers, as steps of the standard table's makers.
ghost use Rattle.std.specs.Prelude.{◌≡◌};
ghost use Rattle.keyword_joins.specs.BothScripts.{step_as};
ghost use Rattle.standard_keywords.specs.declared.family.Family.TheVariants as family;

use crate::family::Family;
use schema_traits::MakerStep;

pub(crate) fn assertion_step<A, L, P, F, B>(step: MakerStep<A>) -> MakerStep<Family<A, L, P, F, B>>
    ensures step { result ≡ step_as family.Assertion step }
{
    match step {
        MakerStep::Compile(path) => MakerStep::Compile(path),
        MakerStep::Refer(text) => MakerStep::Refer(text),
        MakerStep::Pending(kind) => MakerStep::Pending(kind),
        MakerStep::Reserve(kind) => MakerStep::Reserve(kind),
        MakerStep::Keyword(keyword, names) => {
            MakerStep::Keyword(Family::Assertion(keyword), names)
        }
        MakerStep::Nothing => MakerStep::Nothing,
        MakerStep::Refuse(error) => MakerStep::Refuse(error),
    }
}

pub(crate) fn applicator_step<A, L, P, F, B>(step: MakerStep<L>) -> MakerStep<Family<A, L, P, F, B>>
    ensures step { result ≡ step_as family.Applicator step }
{
    match step {
        MakerStep::Compile(path) => MakerStep::Compile(path),
        MakerStep::Refer(text) => MakerStep::Refer(text),
        MakerStep::Pending(kind) => MakerStep::Pending(kind),
        MakerStep::Reserve(kind) => MakerStep::Reserve(kind),
        MakerStep::Keyword(keyword, names) => {
            MakerStep::Keyword(Family::Applicator(keyword), names)
        }
        MakerStep::Nothing => MakerStep::Nothing,
        MakerStep::Refuse(error) => MakerStep::Refuse(error),
    }
}

pub(crate) fn pattern_step<A, L, P, F, B>(step: MakerStep<P>) -> MakerStep<Family<A, L, P, F, B>>
    ensures step { result ≡ step_as family.PatternProperties step }
{
    match step {
        MakerStep::Compile(path) => MakerStep::Compile(path),
        MakerStep::Refer(text) => MakerStep::Refer(text),
        MakerStep::Pending(kind) => MakerStep::Pending(kind),
        MakerStep::Reserve(kind) => MakerStep::Reserve(kind),
        MakerStep::Keyword(keyword, names) => {
            MakerStep::Keyword(Family::PatternProperties(keyword), names)
        }
        MakerStep::Nothing => MakerStep::Nothing,
        MakerStep::Refuse(error) => MakerStep::Refuse(error),
    }
}

pub(crate) fn format_step<A, L, P, F, B>(step: MakerStep<F>) -> MakerStep<Family<A, L, P, F, B>>
    ensures step { result ≡ step_as family.Format step }
{
    match step {
        MakerStep::Compile(path) => MakerStep::Compile(path),
        MakerStep::Refer(text) => MakerStep::Refer(text),
        MakerStep::Pending(kind) => MakerStep::Pending(kind),
        MakerStep::Reserve(kind) => MakerStep::Reserve(kind),
        MakerStep::Keyword(keyword, names) => { MakerStep::Keyword(Family::Format(keyword), names) }
        MakerStep::Nothing => MakerStep::Nothing,
        MakerStep::Refuse(error) => MakerStep::Refuse(error),
    }
}

pub(crate) fn basic_step<A, L, P, F, B>(step: MakerStep<B>) -> MakerStep<Family<A, L, P, F, B>>
    ensures step { result ≡ step_as family.Basic step }
{
    match step {
        MakerStep::Compile(path) => MakerStep::Compile(path),
        MakerStep::Refer(text) => MakerStep::Refer(text),
        MakerStep::Pending(kind) => MakerStep::Pending(kind),
        MakerStep::Reserve(kind) => MakerStep::Reserve(kind),
        MakerStep::Keyword(keyword, names) => { MakerStep::Keyword(Family::Basic(keyword), names) }
        MakerStep::Nothing => MakerStep::Nothing,
        MakerStep::Refuse(error) => MakerStep::Refuse(error),
    }
}
