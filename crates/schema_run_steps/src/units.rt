//! The units of a node at a place.
//!
//! A node has a unit of its own, one for each entry, and one for each keyword that an entry
//! absorbs.
ghost use Rattle.std.specs.Prelude.{◌≡◌, Bool, IfOk, map};
ghost use Rattle.theory_definitions.specs.Reports.{unit};
ghost use Rattle.theory_definitions.specs.Units.{false_unit, given_units, keyword_unit, no_unit, true_unit};
ghost use Rattle.schema_reports.specs.EvaluationResults.{gives_of, named_of};
ghost use Rattle.schema_reports.specs.UnitViews.{unit_of};
ghost use Rattle.schema_traits.specs.KeywordViews.{answer_of};
ghost use Rattle.schema_run_steps.specs.EntryUnits.{absorbed_of, entry_units_of};
ghost use Rattle.schema_run_steps.specs.NodeUnits.{named_gives};
ghost use Rattle.schema_run_steps.specs.Askings.{at_work};
ghost use Rattle.schema_run_steps.specs.PlaceWords.{pointer_here};
ghost use Rattle.schema_run_steps.specs.ReplyWords.{SaysFalse};
ghost use Rattle.schema_run_steps.specs.UnitWords.{AreUnitsOfReference, IsUnit, IsUnitAround, IsUnitAt};
ghost use Rattle.schema_run_steps.specs.UnitWords.{KeywordStandsAt, NodeStandsAt, UnitStandsAt};

use crate::evaluation_order::{AbsorbedUnit, EntryUnits};
use crate::question::Question;
use crate::replies::false_error;
use schema_node_table::{KeywordName, Node, absolute_location};
use schema_reports::{
    AbsorbedResult, Annotations, ChildList, ErrorDescription, EvaluationNode, EvaluationResult,
    OutOfMemory, SharedLocation, UnitReport,
};
use schema_run_context::{UnitTexts, ValidationContext};
use schema_traits::{Answer, Found};
use std::alloc::Global;

// The locations of a unit.
#[derive(Drop)]
struct UnitPlaces {
    evaluation_path: SharedLocation,
    absolute_keyword_location: Option<String>,
    schema_location: SharedLocation,
    instance_location: SharedLocation,
}

impl UnitPlaces {
    // Returns the unit that has these locations and this content.
    #[inline(always)]
    fn unit(
        self,
        valid: bool,
        annotations: Option<Annotations>,
        errors: Vec<ErrorDescription>,
        children: ChildList,
    ) -> EvaluationNode
        ensures unit { IsUnitAt self valid annotations errors.items children result }
    {
        EvaluationNode {
            report: UnitReport {
                valid,
                evaluation_path: self.evaluation_path,
                absolute_keyword_location: self.absolute_keyword_location,
                schema_location: self.schema_location,
                instance_location: self.instance_location,
                annotations,
                errors,
            },
            children: children.into_nodes(),
        }
    }
}

// Returns the locations of a unit of the node that has these texts.
#[inline(always)]
fn places_by<K>(
    alloc: Global,
    node: &Node<K>,
    kept: UnitTexts,
    pointer: SharedLocation,
) -> Result<UnitPlaces, OutOfMemory>
    ensures { IfOk result (UnitStandsAt node.now pointer kept.path kept.schema) }
{
    let absolute_keyword_location = absolute_location(alloc, node, kept.schema.as_str())?;
    Ok(UnitPlaces {
        evaluation_path: kept.path,
        absolute_keyword_location,
        schema_location: kept.schema,
        instance_location: pointer,
    })
}

// Returns the locations of the node's own unit.
fn node_places<K>(
    alloc: Global,
    node: &Node<K>,
    question: &Question<'_, '_>,
    context: &mut ValidationContext<'_>,
) -> Result<UnitPlaces, OutOfMemory>
    ensures places { IfOk result (NodeStandsAt node.now question.now) }
    ensures stays { context.new ≡ context.old }
{
    let kept = context.node_texts(alloc, question.path, &node.location)?;
    let pointer = SharedLocation::new(alloc, question.place.pointer(alloc)?)?;
    places_by(alloc, node, kept, pointer)
}

/// Returns the unit of a node that accepts every instance: valid and empty.
///
/// # Errors
///
/// Out of memory.
pub fn accepting_unit<K>(
    alloc: Global,
    node: &Node<K>,
    question: &Question<'_, '_>,
    context: &mut ValidationContext<'_>,
) -> Result<EvaluationNode, OutOfMemory>
    ensures unit { IfOk result (IsUnit (λ _. true_unit (at_work node.now question.now))) }
    ensures stays { context.new ≡ context.old }
{
    let places = node_places(alloc, node, question, context)?;
    Ok(places.unit(true, None, Vec::new(alloc), ChildList::new(alloc)))
}

/// Returns the unit for a child without an edge: valid, at empty locations.
///
/// # Errors
///
/// Out of memory.
pub fn unasked_unit(alloc: Global) -> Result<EvaluationNode, OutOfMemory>
    ensures unit { IfOk result (IsUnit (λ _. no_unit)) }
{
    let root = SharedLocation::root(alloc)?;
    Ok(EvaluationNode {
        report: UnitReport {
            valid: true,
            evaluation_path: root.clone()?,
            absolute_keyword_location: None,
            schema_location: root.clone()?,
            instance_location: root,
            annotations: None,
            errors: Vec::new(alloc),
        },
        children: Vec::new(alloc),
    })
}

/// Returns the unit of a node that refuses every instance.
///
/// It is invalid, with the error of the schema `false`.
///
/// # Errors
///
/// Out of memory.
pub fn refusing_unit<K>(
    alloc: Global,
    node: &Node<K>,
    question: &Question<'_, '_>,
    context: &mut ValidationContext<'_>,
) -> Result<EvaluationNode, OutOfMemory>
    ensures unit { IfOk result (SaysFalse node.now question.now unit_of false_unit) }
    ensures stays { context.new ≡ context.old }
{
    let error = false_error(alloc, node, question)?;
    let mut errors = Vec::new(alloc);
    errors.push(ErrorDescription {
        keyword: error.keyword,
        text: error.text,
    })?;
    let places = node_places(alloc, node, question, context)?;
    Ok(places.unit(false, None, errors, ChildList::new(alloc)))
}

/// Returns the unit of a node around the units of its entries.
///
/// It is valid exactly if each of them is, and has the node's annotations. Its locations are these
/// texts and this pointer.
///
/// # Errors
///
/// Out of memory.
#[inline(always)]
pub fn entries_unit<K>(
    alloc: Global,
    node: &Node<K>,
    kept: UnitTexts,
    pointer: SharedLocation,
    children: ChildList,
) -> Result<EvaluationNode, OutOfMemory>
    ensures unit { IfOk result (IsUnitAround node.now kept pointer children) }
{
    let places = places_by(alloc, node, kept, pointer)?;
    let valid = children.all_valid();
    let annotations = node.annotations.clone()?;
    Ok(places.unit(valid, annotations, Vec::new(alloc), children))
}

// Returns the locations of the unit of a keyword with this name.
#[inline(always)]
fn keyword_places<K>(
    alloc: Global,
    node: &Node<K>,
    name: &str,
    question: &Question<'_, '_>,
    pointer: &SharedLocation,
    context: &mut ValidationContext<'_>,
) -> Result<UnitPlaces, OutOfMemory>
    requires pointed { pointer.now ≡ pointer_here question.now }
    ensures places { IfOk result (KeywordStandsAt node.now question.now name.now) }
    ensures stays { context.new ≡ context.old }
{
    let kept = context.keyword_texts(alloc, question.path, name, &node.location)?;
    places_by(alloc, node, kept, pointer.clone()?)
}

// Returns the unit of a keyword with this name and this result.
fn unit_of_keyword<K>(
    alloc: Global,
    node: &Node<K>,
    name: &str,
    question: &Question<'_, '_>,
    pointer: &SharedLocation,
    given: EvaluationResult,
    context: &mut ValidationContext<'_>,
) -> Result<EvaluationNode, OutOfMemory>
    requires pointed { pointer.now ≡ pointer_here question.now }
    ensures unit { IfOk result (λ u. IsUnit (λ texts. keyword_unit (at_work node.now question.now)
        (named_gives name.now (gives_of texts given))) u) }
    ensures stays { context.new ≡ context.old }
{
    let places = keyword_places(alloc, node, name, question, pointer, context)?;
    match given {
        EvaluationResult::Valid(annotations, children) => {
            Ok(places.unit(true, annotations, Vec::new(alloc), children))
        }
        EvaluationResult::Invalid(errors, annotations, children) => {
            Ok(places.unit(false, annotations, errors, children))
        }
    }
}

fn absorbed_units<K>(
    alloc: Global,
    node: &Node<K>,
    question: &Question<'_, '_>,
    pointer: &SharedLocation,
    absorbed: Vec<AbsorbedResult>,
    context: &mut ValidationContext<'_>,
) -> Result<Vec<AbsorbedUnit>, OutOfMemory>
    requires pointed { pointer.now ≡ pointer_here question.now }
    ensures units { IfOk result (λ us. (texts : Bool) → map (absorbed_of texts) us.items
        ≡ map (λ a. (a.name, keyword_unit (at_work node.now question.now) a)) (map (named_of texts) absorbed.items)) }
    ensures stays { context.new ≡ context.old }
{
    let mut units = Vec::with_capacity(alloc, absorbed.len())?;
    for one in absorbed {
        let keyword = one.keyword;
        let unit = unit_of_keyword(
            alloc,
            node,
            keyword.as_str(),
            question,
            pointer,
            one.result,
            context,
        )?;
        units.push(AbsorbedUnit { keyword, unit })?;
    }
    Ok(units)
}

/// Returns the units of a keyword and of the keywords that it absorbs.
///
/// # Errors
///
/// Out of memory.
pub fn units_of_keyword<K>(
    alloc: Global,
    node: &Node<K>,
    name: &KeywordName,
    question: &Question<'_, '_>,
    pointer: &SharedLocation,
    answer: Answer<'_>,
    context: &mut ValidationContext<'_>,
) -> Result<EntryUnits, OutOfMemory>
    requires pointed { pointer.now ≡ pointer_here question.now }
    ensures units { IfOk result (λ units. (texts : Bool) → entry_units_of texts units
        ≡ given_units (at_work node.now question.now) name.now (answer_of texts answer.entry).gives) }
    ensures stays { context.new ≡ context.old }
{
    let Found { own, absorbed } = Box::into_inner(answer.into_evaluation(alloc)?);
    let own = unit_of_keyword(alloc, node, name.as_str(), question, pointer, own, context)?;
    let absorbed = absorbed_units(alloc, node, question, pointer, absorbed, context)?;
    Ok(EntryUnits { own, absorbed })
}

/// Returns the unit of a reference: its target's, at its own evaluation path.
///
/// A reference absorbs no keywords.
///
/// # Errors
///
/// Out of memory.
pub fn units_of_reference(
    alloc: Global,
    name: &KeywordName,
    question: &Question<'_, '_>,
    unit: EvaluationNode,
    context: &mut ValidationContext<'_>,
) -> Result<EntryUnits, OutOfMemory>
    ensures units { IfOk result (AreUnitsOfReference question.now name.now unit) }
    ensures stays { context.new ≡ context.old }
{
    let evaluation_path = context.keyword_path(alloc, question.path, name.as_str())?;
    let EvaluationNode { report, children } = unit;
    let own = EvaluationNode {
        report: UnitReport {
            evaluation_path,
            ..report
        },
        children,
    };
    Ok(EntryUnits {
        own,
        absorbed: Vec::new(alloc),
    })
}
