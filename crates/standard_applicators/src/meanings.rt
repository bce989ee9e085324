//! The meanings of the keywords: each function states laws, and does nothing.
ghost use Rattle.standard_applicators.specs.Meanings.{ContainsFaults, ContainsHolds, DependentSchemasFaults, DependentSchemasHolds};
ghost use Rattle.standard_applicators.specs.Meanings.{DependenciesFaults, DependenciesHold};
ghost use Rattle.standard_applicators.specs.Meanings.{LaterItemsFaults, LaterItemsHold, ListedItemsFaults, ListedItemsHold};
ghost use Rattle.standard_applicators.specs.Meanings.{NoLaterItemsFaults, NoLaterItemsHolds};
ghost use Rattle.keyword_authoring.specs.MeaningWords.{Always};

/// `contains` holds of a list exactly if enough items fit, and not too many.
///
/// It holds of any instance that is no list. If it does not hold, it has one error of its own.
pub fn contains_means()
    ensures holds { Always ContainsHolds }
    ensures faults { Always ContainsFaults }
{}

/// `dependentSchemas` holds exactly if the schema of each member accepts.
///
/// A schema is evaluated only if the instance has the member of its name. The errors are those of
/// the schemas, in the order of their names.
pub fn dependent_schemas_means()
    ensures holds { Always DependentSchemasHolds }
    ensures faults { Always DependentSchemasFaults }
{}

/// `dependencies` holds exactly if no name is missing and each schema accepts.
///
/// The required names and the schemas are those of the members that the instance has. Its errors
/// are one of its own for each missing name, and then those of the schemas, in the order of their
/// names.
pub fn dependencies_mean()
    ensures holds { Always DependenciesHold }
    ensures faults { Always DependenciesFaults }
{}

/// `items` with a list holds exactly if each item fits its own schema.
///
/// That is the schema with the item's number; an item without one fits. The errors are those of the
/// schemas, in the order of the items.
pub fn listed_items_mean()
    ensures holds { Always ListedItemsHold }
    ensures faults { Always ListedItemsFaults }
{}

/// `items` with one schema holds exactly if each later item fits.
///
/// The same is true of `additionalItems`. The later items are those after the first so many. The
/// errors are those of the schema at these items, in the order of the items.
pub fn later_items_mean()
    ensures holds { Always LaterItemsHold }
    ensures faults { Always LaterItemsFaults }
{}

/// `additionalItems` with `false` holds exactly if there are no later items.
///
/// If it does not hold, it has one error of its own.
pub fn no_later_items_means()
    ensures holds { Always NoLaterItemsHolds }
    ensures faults { Always NoLaterItemsFaults }
{}
