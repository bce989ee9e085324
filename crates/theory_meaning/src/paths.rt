//! Laws of where errors point, for every schema and all parts.
//!
//! Each function states laws in its contract, and does nothing when it runs.

ghost use Rattle.std.specs.Prelude.{List};
ghost use Rattle.theory_meaning.specs.ErrorsLead.{ErrorsLead, FirstLeads, ListedLead, NodeErrorsLead};
ghost use Rattle.theory_definitions.specs.Guarded.{Nodes};
ghost use Rattle.theory_definitions.specs.Instance.{Text};
ghost use Rattle.theory_meaning.specs.Numbered.{Numbers};
ghost use Rattle.theory_definitions.specs.Parts.{Parts};
ghost use Rattle.theory_definitions.specs.Plan.{Key};
ghost use Rattle.serde_json.specs.Data.{Data};

/// Each error of the plain meaning points at a keyword and at a value.
///
/// Its evaluation path leads to the keyword, and the value is inside the instance.
pub fn errors_lead<S, K, R>()
    ensures lead { (w : Parts S K R) (absorbs : K → List Text) → ErrorsLead w absorbs }
{}

/// Each error of numbered nodes points at a keyword and at a value.
///
/// This holds whether questions return or not.
pub fn node_errors_lead<S, K, R>()
    ensures lead { (w : Parts S K R) (absorbs : K → List Text) (keys : Numbers S) (nodes : Nodes K)
        → NodeErrorsLead w absorbs keys nodes }
{}

/// Each error that a call returns points at a keyword and at a value.
///
/// This requires that each error of the sense does so, and excludes the failure of the call.
pub fn given_errors_lead<S, K, R>()
    ensures listed { (w : Parts S K R) (root : Key S) (instance : Data) → ListedLead w root instance }
    ensures first { (w : Parts S K R) (root : Key S) (instance : Data) → FirstLeads w root instance }
{}
