//! The meanings of the keywords: each function states laws, and does nothing.
ghost use Rattle.standard_basics.specs.Meanings.{CountMeans, ItemsMean, PatternMeans, PrefixItemsMean, PropertiesMean};
ghost use Rattle.standard_basics.specs.Meanings.{PropertyNamesMean, RequiredFaults, RequiredHolds, TypeMeans, TypesMean};
ghost use Rattle.keyword_authoring.specs.MeaningWords.{Always};

/// `type` holds exactly if the value has its type, or one of its types.
///
/// If it does not hold, it has one error of its own.
pub fn type_means()
    ensures one { Always TypeMeans }
    ensures some { Always TypesMean }
{}

/// `minLength`, `maxLength` and `minProperties` hold exactly if the count is within the limit.
///
/// They hold of whatever they do not count. If one does not hold, it has one error of its own.
pub fn counts_mean()
    ensures means { Always CountMeans }
{}

/// `pattern` holds exactly if its pattern matches the text, or the instance is no text.
///
/// If it does not hold, it has one error of its own.
pub fn pattern_means()
    ensures means { Always PatternMeans }
{}

/// `required` holds exactly if the object has each of the members.
///
/// It has one error of its own for each name that is missing, in order.
pub fn required_means()
    ensures holds { Always RequiredHolds }
    ensures faults { Always RequiredFaults }
{}

/// `properties` holds exactly if each member with a schema of its own fits it.
///
/// The errors are those of the schemas, in the order of their names.
pub fn properties_mean()
    ensures means { Always PropertiesMean }
{}

/// `propertyNames` holds exactly if each name of a member fits its schema.
///
/// The errors are those of the schema at these names, in order.
pub fn property_names_mean()
    ensures means { Always PropertyNamesMean }
{}

/// `prefixItems` holds exactly if each item fits the schema of its number.
///
/// An item without one fits. The errors are those of the schemas, in the order of the items.
pub fn prefix_items_mean()
    ensures means { Always PrefixItemsMean }
{}

/// `items` holds exactly if each later item fits its schema.
///
/// The later items are those after the first so many. The errors are those of the schema at these
/// items, in order.
pub fn items_mean()
    ensures means { Always ItemsMean }
{}
