//! The result of a keyword's evaluation. (Core 2020-12, 12.4)
//!
//! It consists of a verdict, annotations, errors, and the units inside the keyword's own.
//!
//! If a keyword asks a child that its request did not get, then the unit that it receives is valid,
//! at empty locations.
ghost use Rattle.std.specs.Prelude.{◌≡◌, [], ◌∷◌, Bool, IfOk, OnErr, map, true, false, OnOk};
ghost use Rattle.serde_json.specs.View.{view};
ghost use Rattle.schema_reports.specs.UnitViews.{described_of, unit_of};
ghost use Rattle.schema_reports.specs.EvaluationResults.{annotated, errored, gives_of, gives_with, of_units, refusing};
ghost use Rattle.theory_definitions.specs.Keywords.{all_valid};

use crate::evaluation::{Annotations, ChildList, ErrorDescription, EvaluationNode};
use crate::location::OutOfMemory;
use std::alloc::Global;
use std::mem;

/// The result of an evaluation: annotations, units and, if invalid, errors.
///
/// The annotations of an invalid result are reported as dropped.
#[derive(Drop)]
pub enum EvaluationResult {
    Valid(Option<Annotations>, ChildList),
    Invalid(Vec<ErrorDescription>, Option<Annotations>, ChildList),
}

/// The result of a keyword that another one absorbs, with its name.
#[derive(Drop)]
pub struct AbsorbedResult {
    pub keyword: String,
    pub result: EvaluationResult,
}

/// Returns whether a keyword's own result and all absorbed ones are valid.
pub fn accepts(own: &EvaluationResult, absorbed: &[AbsorbedResult]) -> bool
    ensures verdict { (texts : Bool) → result ≡ all_valid (gives_with texts own.now absorbed.now) }
{
    if !own.is_valid() {
        return false;
    }
    for one in absorbed {
        if !one.result.is_valid() {
            return false;
        }
    }
    true
}

impl EvaluationResult {
    /// Returns whether the result is valid.
    pub fn is_valid(&self) -> bool
        ensures verdict { (texts : Bool) → result ≡ (gives_of texts self.now).valid }
    {
        match self {
            EvaluationResult::Valid(_, _) => true,
            EvaluationResult::Invalid(_, _, _) => false,
        }
    }

    /// Returns a valid result without annotations or units.
    pub fn valid_empty(alloc: Global) -> EvaluationResult
        ensures empty { (texts : Bool) → gives_of texts result ≡ of_units [] }
    {
        EvaluationResult::Valid(None, ChildList::new(alloc))
    }

    /// Returns an invalid result with these errors, but no annotations or units.
    pub fn invalid_empty(alloc: Global, errors: Vec<ErrorDescription>) -> EvaluationResult
        ensures errors { (texts : Bool) → gives_of texts result ≡ refusing (map (described_of texts) errors.items) }
    {
        EvaluationResult::Invalid(errors, None, ChildList::new(alloc))
    }

    /// Returns a result with these units, valid exactly if all of them are.
    pub fn from_children(alloc: Global, children: ChildList) -> EvaluationResult
        ensures children { (texts : Bool) → gives_of texts result ≡ of_units (map (unit_of texts) children) }
    {
        if children.all_valid() {
            EvaluationResult::Valid(None, children)
        } else {
            EvaluationResult::Invalid(Vec::new(alloc), None, children)
        }
    }

    /// Returns a result with one unit, valid exactly if the unit is.
    pub fn from_node(alloc: Global, node: EvaluationNode) -> Result<EvaluationResult, OutOfMemory>
        ensures child { IfOk result (λ r. (texts : Bool) → gives_of texts r ≡ of_units (unit_of texts node ∷ [])) }
    {
        let children = ChildList::of(alloc, node)?;
        Ok(EvaluationResult::from_children(alloc, children))
    }

    /// Sets the annotations, whether the result is valid or not.
    pub fn annotate(&mut self, new_annotations: Annotations)
        ensures annotated { (texts : Bool) → gives_of texts self.new ≡ annotated (view new_annotations) (gives_of texts self.old) }
    {
        match self {
            EvaluationResult::Valid(annotations, _) => *annotations = Some(new_annotations),
            EvaluationResult::Invalid(_, annotations, _) => *annotations = Some(new_annotations),
        }
    }

    /// Adds an error, which makes the result invalid.
    ///
    /// The result keeps its units and annotations. On `Err` it is unchanged.
    pub fn mark_errored(
        &mut self,
        alloc: Global,
        error: ErrorDescription,
    ) -> Result<(), OutOfMemory>
        ensures errored { OnOk result ((texts : Bool)
            → gives_of texts self.new ≡ errored (described_of texts error) (gives_of texts self.old)) }
        ensures unchanged { OnErr result ((texts : Bool) → gives_of texts self.new ≡ gives_of texts self.old) }
    {
        match self {
            EvaluationResult::Invalid(errors, _, _) => {
                errors.push(error)?;
                Ok(())
            }
            EvaluationResult::Valid(annotations, children) => {
                let mut errors = Vec::new(alloc);
                errors.push(error)?;
                let kept = annotations.take();
                let inside = mem::replace(children, ChildList::new(alloc));
                *self = EvaluationResult::Invalid(errors, kept, inside);
                Ok(())
            }
        }
    }
}
