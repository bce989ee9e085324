//! The call that a case names.
ghost use Rattle.std.specs.Prelude.{◌≡◌};
ghost use Rattle.test_rows.specs.Calls.{build_question_named, call_named, errors_question_named, evaluation_question_named};
ghost use Rattle.test_rows.specs.Calls.{map_question_named, other_call_named, question_named};

/// A question to a validator.
#[derive(Clone, Copy, PartialEq, Eq)]
pub enum Question {
    /// All four calls, which should agree.
    Errors,
    Valid,
    First,
    IterErrors,
    /// The verdict of the evaluation.
    Evaluate,
    /// The list of the evaluation.
    List,
    /// The errors of the evaluation, each with its evaluation path and text.
    EvaluationErrors,
    /// The size of the list.
    ///
    /// It is the number of units, how many have errors, and the evaluation path of the last one.
    ListCount,
    /// The number of errors, and the first and the last of them.
    ErrorsCount,
    /// Whether the schema builds.
    Build,
    Draft,
    /// The number of entries of the root's node.
    Entries,
    /// Whether each keyword of each node says that it is monotone.
    Monotone,
}

/// A question to a map of validators.
#[derive(Clone, Copy, PartialEq, Eq)]
pub enum MapQuestion {
    Names,
    /// The errors that the validator under a name lists.
    Errors,
    /// The draft of the validator under a name.
    Draft,
}

/// The call that a case names.
#[derive(Clone, Copy, PartialEq, Eq)]
pub enum Call {
    Validator(Question),
    /// A question that clones of a validator and their sources should answer alike.
    Clones(Question),
    Map(MapQuestion),
    /// The four calls that build and validate in one.
    Free,
    /// Only the check of the schema by the meta validators.
    Check,
}

impl Call {
    /// Returns the call of this name, if there is one. Does not allocate.
    pub fn named(name: &str) -> Option<Call>
        ensures named { result ≡ call_named name.now }
    {
        if let Some(question) = question_named(name) {
            return Some(Call::Validator(question));
        }
        if let Some(question) = map_question_named(name) {
            return Some(Call::Map(question));
        }
        other_call_named(name)
    }
}

fn question_named(name: &str) -> Option<Question>
    ensures named { result ≡ question_named name.now }
{
    if let Some(question) = errors_question_named(name) {
        return Some(question);
    }
    if let Some(question) = evaluation_question_named(name) {
        return Some(question);
    }
    build_question_named(name)
}

// Returns the question of this name that requests errors or a verdict.
fn errors_question_named(name: &str) -> Option<Question>
    ensures named { result ≡ errors_question_named name.now }
{
    match name {
        "errors" => Some(Question::Errors),
        "valid" => Some(Question::Valid),
        "first" => Some(Question::First),
        "iter_errors" => Some(Question::IterErrors),
        "errors_count" => Some(Question::ErrorsCount),
        _ => None,
    }
}

// Returns the question of this name that requests an evaluation.
fn evaluation_question_named(name: &str) -> Option<Question>
    ensures named { result ≡ evaluation_question_named name.now }
{
    match name {
        "evaluate" => Some(Question::Evaluate),
        "list" => Some(Question::List),
        "evaluation_errors" => Some(Question::EvaluationErrors),
        "list_count" => Some(Question::ListCount),
        _ => None,
    }
}

// Returns the question of this name about the result of the build.
fn build_question_named(name: &str) -> Option<Question>
    ensures named { result ≡ build_question_named name.now }
{
    match name {
        "build" => Some(Question::Build),
        "draft" => Some(Question::Draft),
        "entries" => Some(Question::Entries),
        "monotone" => Some(Question::Monotone),
        _ => None,
    }
}

fn map_question_named(name: &str) -> Option<MapQuestion>
    ensures named { result ≡ map_question_named name.now }
{
    match name {
        "map" => Some(MapQuestion::Names),
        "map_errors" => Some(MapQuestion::Errors),
        "map_draft" => Some(MapQuestion::Draft),
        _ => None,
    }
}

// Returns the call of this name that is not a question.
fn other_call_named(name: &str) -> Option<Call>
    ensures named { result ≡ other_call_named name.now }
{
    match name {
        "clone" => Some(Call::Clones(Question::Errors)),
        "clone_list" => Some(Call::Clones(Question::List)),
        "free" => Some(Call::Free),
        "check" => Some(Call::Check),
        _ => None,
    }
}
