//! Why a text is refused.
ghost use Rattle.std.specs.Prelude.{◌≡◌};
ghost use Rattle.pattern_characters.specs.Faults.{fault_text, kind_of, kind_text};
ghost use Rattle.pattern_characters.specs.declared.faults.Stop.TheVariants.{Refused, OutOfMemory};

use std::alloc::AllocError;

/// The allocator refused memory.
pub type OutOfMemory = AllocError;

/// What is wrong with a pattern.
#[derive(Clone, Copy, Debug, PartialEq, Eq)]
pub enum Fault {
    /// A quantifier stands where there is nothing to repeat.
    NothingToRepeat,
    /// The first number of a quantifier is greater than the second one.
    NumbersOutOfOrder,
    /// A bracket or a brace stands for itself without a backslash.
    LoneBracket,
    /// An escape stands for nothing.
    BadEscape,
    /// A back reference has the number of no group.
    NoSuchGroup,
    /// A back reference has the name of no group.
    NoSuchName,
    /// A class has no closing bracket.
    OpenClass,
    /// A set of characters stands at an end of a range.
    SetInRange,
    /// The first character of a range comes after the last one.
    RangeOutOfOrder,
    /// A group has no closing bracket.
    OpenGroup,
    /// A closing bracket closes no group.
    NoGroupToClose,
    /// The characters after `(?` begin no group.
    BadOpening,
    /// The characters after `(?` begin a group that only other engines have.
    OtherOpening,
    /// The name of a group is none.
    BadName,
    /// Two groups that may both take part in a match have the same name.
    SameName,
    /// Flags of a group come twice, or there are none.
    BadFlags,
    /// A flag of a group is none of i, m and s.
    OtherFlags,
    /// No property of characters has this name.
    UnknownProperty,
    /// A back reference stands under the flag i.
    ReferenceIgnoringCase,
    /// Groups nest too deep.
    TooDeep,
    /// There are too many groups.
    TooManyGroups,
}

/// Why the reader stops.
#[derive(Clone, Copy, Debug)]
pub enum Stop {
    /// The text is refused.
    Refused(Fault),
    /// Memory ran out.
    OutOfMemory,
}

impl From<Fault> for Stop {
    ghost from_gives = { λ fault stop. stop ≡ Refused fault };

    fn from(fault: Fault) -> Stop {
        Stop::Refused(fault)
    }
}

impl From<AllocError> for Stop {
    ghost from_gives = { λ _ stop. stop ≡ OutOfMemory };

    fn from(_error: AllocError) -> Stop {
        Stop::OutOfMemory
    }
}

/// Whether a text is no pattern, or none that is supported.
#[derive(Clone, Copy, Debug, PartialEq, Eq)]
pub enum Kind {
    /// The text breaks a rule of the standard.
    NoPattern,
    /// The text may be a pattern, but is past a limit or has a spelling that is not read.
    NotSupported,
}

impl Fault {
    /// Tells whether the text is no pattern, or none that is supported.
    pub fn kind(self) -> Kind
        ensures kind { result ≡ kind_of self }
    {
        match self {
            Fault::OtherOpening => Kind::NotSupported,
            Fault::OtherFlags => Kind::NotSupported,
            Fault::UnknownProperty => Kind::NotSupported,
            Fault::ReferenceIgnoringCase => Kind::NotSupported,
            Fault::TooDeep => Kind::NotSupported,
            Fault::TooManyGroups => Kind::NotSupported,
            _ => Kind::NoPattern,
        }
    }

    /// Returns what is wrong, in plain English.
    pub fn text(self) -> &'static str
        ensures text { result.now ≡ fault_text self }
    {
        match self {
            Fault::NothingToRepeat => "a quantifier has nothing to repeat",
            Fault::NumbersOutOfOrder => "the numbers of a quantifier are out of order",
            Fault::LoneBracket => "a bracket or a brace needs a backslash",
            Fault::BadEscape => "an escape stands for nothing",
            Fault::NoSuchGroup => "a back reference has the number of no group",
            Fault::NoSuchName => "a back reference has the name of no group",
            Fault::OpenClass => "a class has no closing bracket",
            Fault::SetInRange => "a set of characters is at an end of a range",
            Fault::RangeOutOfOrder => "the ends of a range are out of order",
            Fault::OpenGroup => "a group has no closing bracket",
            Fault::NoGroupToClose => "a closing bracket closes no group",
            Fault::BadOpening => "the characters after (? begin no group",
            Fault::OtherOpening => "the characters after (? begin a group of another engine",
            Fault::BadName => "the name of a group is missing or has a wrong character",
            Fault::SameName => "two groups have the same name",
            Fault::BadFlags => "the flags of a group are missing or come twice",
            Fault::OtherFlags => "a flag of a group is none of i, m and s",
            Fault::UnknownProperty => "no known property of characters has this name",
            Fault::ReferenceIgnoringCase => "a back reference ignores case",
            Fault::TooDeep => "groups are nested too deep",
            Fault::TooManyGroups => "there are too many groups",
        }
    }
}

impl Kind {
    /// Returns `no pattern` or `not supported`.
    pub fn text(self) -> &'static str
        ensures text { result.now ≡ kind_text self }
    {
        match self {
            Kind::NoPattern => "no pattern",
            Kind::NotSupported => "not supported",
        }
    }
}
