ghost use Rattle.std.specs.Prelude.{◌≡◌, IfSome, IfNone};
ghost use Rattle.schema_drafts.specs.KeywordTable.{row_named};
ghost use Rattle.schema_drafts.specs.KeywordViews.{builtin_text};

/// A keyword of the standard. The variants are in order of priority.
#[derive(Clone, Copy, Debug, PartialEq, Eq, Hash)]
pub enum BuiltinKeyword {
    TypeKeyword,
    Const,
    Enum,
    Minimum,
    Maximum,
    ExclusiveMinimum,
    ExclusiveMaximum,
    MultipleOf,
    MinLength,
    MaxLength,
    MinItems,
    MaxItems,
    MinProperties,
    MaxProperties,
    Required,
    DependentRequired,
    Pattern,
    Format,
    ContentEncoding,
    ContentMediaType,
    ContentSchema,
    UniqueItems,
    Properties,
    PatternProperties,
    AdditionalProperties,
    PropertyNames,
    Items,
    PrefixItems,
    AdditionalItems,
    Contains,
    Dependencies,
    DependentSchemas,
    AllOf,
    AnyOf,
    OneOf,
    Not,
    If,
    UnevaluatedProperties,
    UnevaluatedItems,
    Ref,
    RecursiveRef,
    DynamicRef,
}

/// Every keyword of the standard, in order of priority.
pub const BUILTIN_KEYWORDS: [BuiltinKeyword; 42] = [
    BuiltinKeyword::TypeKeyword,
    BuiltinKeyword::Const,
    BuiltinKeyword::Enum,
    BuiltinKeyword::Minimum,
    BuiltinKeyword::Maximum,
    BuiltinKeyword::ExclusiveMinimum,
    BuiltinKeyword::ExclusiveMaximum,
    BuiltinKeyword::MultipleOf,
    BuiltinKeyword::MinLength,
    BuiltinKeyword::MaxLength,
    BuiltinKeyword::MinItems,
    BuiltinKeyword::MaxItems,
    BuiltinKeyword::MinProperties,
    BuiltinKeyword::MaxProperties,
    BuiltinKeyword::Required,
    BuiltinKeyword::DependentRequired,
    BuiltinKeyword::Pattern,
    BuiltinKeyword::Format,
    BuiltinKeyword::ContentEncoding,
    BuiltinKeyword::ContentMediaType,
    BuiltinKeyword::ContentSchema,
    BuiltinKeyword::UniqueItems,
    BuiltinKeyword::Properties,
    BuiltinKeyword::PatternProperties,
    BuiltinKeyword::AdditionalProperties,
    BuiltinKeyword::PropertyNames,
    BuiltinKeyword::Items,
    BuiltinKeyword::PrefixItems,
    BuiltinKeyword::AdditionalItems,
    BuiltinKeyword::Contains,
    BuiltinKeyword::Dependencies,
    BuiltinKeyword::DependentSchemas,
    BuiltinKeyword::AllOf,
    BuiltinKeyword::AnyOf,
    BuiltinKeyword::OneOf,
    BuiltinKeyword::Not,
    BuiltinKeyword::If,
    BuiltinKeyword::UnevaluatedProperties,
    BuiltinKeyword::UnevaluatedItems,
    BuiltinKeyword::Ref,
    BuiltinKeyword::RecursiveRef,
    BuiltinKeyword::DynamicRef,
];

impl BuiltinKeyword {
    /// Returns the keyword's name, as written in schemas.
    pub fn as_str(self) -> &'static str
        ensures name { result.now ≡ builtin_text self }
    {
        match self {
            BuiltinKeyword::TypeKeyword => "type",
            BuiltinKeyword::Const => "const",
            BuiltinKeyword::Enum => "enum",
            BuiltinKeyword::Minimum => "minimum",
            BuiltinKeyword::Maximum => "maximum",
            BuiltinKeyword::ExclusiveMinimum => "exclusiveMinimum",
            BuiltinKeyword::ExclusiveMaximum => "exclusiveMaximum",
            BuiltinKeyword::MultipleOf => "multipleOf",
            BuiltinKeyword::MinLength => "minLength",
            BuiltinKeyword::MaxLength => "maxLength",
            BuiltinKeyword::MinItems => "minItems",
            BuiltinKeyword::MaxItems => "maxItems",
            BuiltinKeyword::MinProperties => "minProperties",
            BuiltinKeyword::MaxProperties => "maxProperties",
            BuiltinKeyword::Required => "required",
            BuiltinKeyword::DependentRequired => "dependentRequired",
            BuiltinKeyword::Pattern => "pattern",
            BuiltinKeyword::Format => "format",
            BuiltinKeyword::ContentEncoding => "contentEncoding",
            BuiltinKeyword::ContentMediaType => "contentMediaType",
            BuiltinKeyword::ContentSchema => "contentSchema",
            BuiltinKeyword::UniqueItems => "uniqueItems",
            BuiltinKeyword::Properties => "properties",
            BuiltinKeyword::PatternProperties => "patternProperties",
            BuiltinKeyword::AdditionalProperties => "additionalProperties",
            BuiltinKeyword::PropertyNames => "propertyNames",
            BuiltinKeyword::Items => "items",
            BuiltinKeyword::PrefixItems => "prefixItems",
            BuiltinKeyword::AdditionalItems => "additionalItems",
            BuiltinKeyword::Contains => "contains",
            BuiltinKeyword::Dependencies => "dependencies",
            BuiltinKeyword::DependentSchemas => "dependentSchemas",
            BuiltinKeyword::AllOf => "allOf",
            BuiltinKeyword::AnyOf => "anyOf",
            BuiltinKeyword::OneOf => "oneOf",
            BuiltinKeyword::Not => "not",
            BuiltinKeyword::If => "if",
            BuiltinKeyword::UnevaluatedProperties => "unevaluatedProperties",
            BuiltinKeyword::UnevaluatedItems => "unevaluatedItems",
            BuiltinKeyword::Ref => "$ref",
            BuiltinKeyword::RecursiveRef => "$recursiveRef",
            BuiltinKeyword::DynamicRef => "$dynamicRef",
        }
    }

    /// Returns the keyword with this name, or `None` if no draft defines one.
    pub fn named(name: &str) -> Option<BuiltinKeyword>
        ensures found { IfSome result (λ keyword. builtin_text keyword ≡ name.now) }
        ensures absent { IfNone result (row_named name.now ≡ None) }
    {
        for keyword in &BUILTIN_KEYWORDS {
            if keyword.as_str() == name {
                return Some(*keyword);
            }
        }
        None
    }
}
