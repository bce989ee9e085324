//! Keywords of the standard that show a fraction of their schema in an error.
ghost use Rattle.std.specs.Prelude.{◌≡◌};
ghost use Rattle.standard_basics.specs.BasicShape.{is_whole};
ghost use Rattle.standard_basics.specs.Shapes.{shape_of};
ghost use Rattle.standard_assertions.specs.Assertions.{shows_no_fraction};

use meta_checker::{TellsFractions, has_fraction};
use standard_assertions::Assertion;
use standard_basics::BasicKeyword;
use standard_keywords::{Family, StandardKeyword};

/// Decides whether a keyword of the standard shows a fraction of its schema.
#[derive(Drop)]
pub struct StandardFractions {}

fn assertion_shows_none(assertion: &Assertion) -> bool
    ensures whole { result ≡ shows_no_fraction assertion.now }
{
    match assertion {
        Assertion::Type(_, _) => true,
        Assertion::Types(_, _) => true,
        Assertion::Const(constant) => !has_fraction(constant.as_value()),
        Assertion::Enum(values) => !has_fraction(values.as_value()),
        Assertion::Limit(_, limit) => !limit.as_number().is_f64(),
        Assertion::MultipleOf(divisor) => !divisor.as_number().is_f64(),
        Assertion::Size(_, _) => true,
        Assertion::Count(_, _) => true,
        Assertion::UniqueItems => true,
        Assertion::DependentRequired(_) => true,
    }
}

fn basic_shows_none(keyword: &BasicKeyword) -> bool
    ensures whole { result ≡ is_whole (shape_of keyword.now) }
{
    match keyword {
        BasicKeyword::Not(schema) => !has_fraction(schema),
        _ => true,
    }
}

impl TellsFractions<StandardKeyword> for StandardFractions {
    fn shows_none(&self, keyword: &StandardKeyword) -> bool {
        match keyword {
            Family::Assertion(keyword) => assertion_shows_none(&keyword.keyword),
            Family::Applicator(_) => true,
            Family::PatternProperties(_) => true,
            Family::Format(_) => true,
            Family::Basic(keyword) => basic_shows_none(keyword),
        }
    }
}
