//! The meanings of the keywords: each function states laws, and does nothing.

ghost use Rattle.schema_applicators.specs.Meanings.{AllOfFaults, AllOfHolds, AnyOfFaults, AnyOfHolds, IfFaults, IfHolds};
ghost use Rattle.schema_applicators.specs.Meanings.{NotFaults, NotHolds, OneOfFaults, OneOfHolds};
ghost use Rattle.keyword_authoring.specs.MeaningWords.{Always};

/// `allOf` holds exactly if all its schemas accept.
///
/// Its errors are those of the schemas, in order.
pub fn all_of_means()
    ensures holds { Always AllOfHolds }
    ensures faults { Always AllOfFaults }
{}

/// `anyOf` holds exactly if at least one of its schemas accepts.
///
/// If it does not hold, it has one error of its own.
pub fn any_of_means()
    ensures holds { Always AnyOfHolds }
    ensures faults { Always AnyOfFaults }
{}

/// `oneOf` holds exactly if only one of its schemas accepts.
///
/// If it does not hold, it has one error of its own.
pub fn one_of_means()
    ensures holds { Always OneOfHolds }
    ensures faults { Always OneOfFaults }
{}

/// `not` holds exactly if its schema refuses.
///
/// If it does not hold, it has one error of its own.
pub fn not_means()
    ensures holds { Always NotHolds }
    ensures faults { Always NotFaults }
{}

/// `if` has the verdict and the errors of the branch that its condition picks.
///
/// A missing branch accepts.
pub fn if_means()
    ensures holds { Always IfHolds }
    ensures faults { Always IfFaults }
{}
