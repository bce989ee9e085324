//! The meta-schemas of draft 2020-12 and of its vocabularies.

/// The text of the meta-schema.
///
/// It contains the keywords of all its vocabularies. If it referred to the documents of the
/// vocabularies, each order in which dynamic references enter them would be compiled separately.
pub(crate) const SCHEMA: &str = r##"{
  "$schema": "https://json-schema.org/draft/2020-12/schema",
  "$id": "https://json-schema.org/draft/2020-12/schema",
  "$dynamicAnchor": "meta",
  "$vocabulary": {
    "https://json-schema.org/draft/2020-12/vocab/core": true,
    "https://json-schema.org/draft/2020-12/vocab/applicator": true,
    "https://json-schema.org/draft/2020-12/vocab/unevaluated": true,
    "https://json-schema.org/draft/2020-12/vocab/validation": true,
    "https://json-schema.org/draft/2020-12/vocab/meta-data": true,
    "https://json-schema.org/draft/2020-12/vocab/format-annotation": true,
    "https://json-schema.org/draft/2020-12/vocab/content": true
  },
  "type": ["boolean", "object"],
  "properties": {
    "$schema": {"$ref": "#/$defs/uriString"},
    "$id": {"pattern": "^[^#]*#?$", "$ref": "#/$defs/uriReferenceString"},
    "$ref": {"$ref": "#/$defs/uriReferenceString"},
    "$dynamicRef": {"$ref": "#/$defs/uriReferenceString"},
    "$anchor": {"$ref": "#/$defs/anchorString"},
    "$dynamicAnchor": {"$ref": "#/$defs/anchorString"},
    "$vocabulary": {
      "type": "object",
      "propertyNames": {"$ref": "#/$defs/uriString"},
      "additionalProperties": {"type": "boolean"}
    },
    "$comment": {"type": "string"},
    "$defs": {"type": "object", "additionalProperties": {"$dynamicRef": "#meta"}},

    "allOf": {"$ref": "#/$defs/schemaArray"},
    "anyOf": {"$ref": "#/$defs/schemaArray"},
    "oneOf": {"$ref": "#/$defs/schemaArray"},
    "not": {"$dynamicRef": "#meta"},
    "if": {"$dynamicRef": "#meta"},
    "then": {"$dynamicRef": "#meta"},
    "else": {"$dynamicRef": "#meta"},

    "prefixItems": {"$ref": "#/$defs/schemaArray"},
    "items": {"$dynamicRef": "#meta"},
    "contains": {"$dynamicRef": "#meta"},

    "properties": {"$ref": "#/$defs/schemaMap"},
    "patternProperties": {"propertyNames": {"format": "regex"}, "$ref": "#/$defs/schemaMap"},
    "additionalProperties": {"$dynamicRef": "#meta"},
    "propertyNames": {"$dynamicRef": "#meta"},
    "dependentSchemas": {"$ref": "#/$defs/schemaMap"},

    "unevaluatedItems": {"$dynamicRef": "#meta"},
    "unevaluatedProperties": {"$dynamicRef": "#meta"},

    "type": {"anyOf": [
      {"$ref": "#/$defs/simpleTypes"},
      {"type": "array", "minItems": 1, "uniqueItems": true, "items": {"$ref": "#/$defs/simpleTypes"}}
    ]},
    "const": true,
    "enum": {"type": "array", "items": true},

    "maximum": {"type": "number"},
    "exclusiveMaximum": {"type": "number"},
    "minimum": {"type": "number"},
    "exclusiveMinimum": {"type": "number"},
    "multipleOf": {"type": "number", "exclusiveMinimum": 0},

    "maxLength": {"$ref": "#/$defs/nonNegativeInteger"},
    "minLength": {"$ref": "#/$defs/nonNegativeIntegerDefault0"},
    "pattern": {"type": "string", "format": "regex"},

    "maxItems": {"$ref": "#/$defs/nonNegativeInteger"},
    "minItems": {"$ref": "#/$defs/nonNegativeIntegerDefault0"},
    "uniqueItems": {"type": "boolean", "default": false},
    "maxContains": {"$ref": "#/$defs/nonNegativeInteger"},
    "minContains": {"default": 1, "$ref": "#/$defs/nonNegativeInteger"},

    "required": {"$ref": "#/$defs/stringArray"},
    "dependentRequired": {"type": "object", "additionalProperties": {"$ref": "#/$defs/stringArray"}},
    "maxProperties": {"$ref": "#/$defs/nonNegativeInteger"},
    "minProperties": {"$ref": "#/$defs/nonNegativeIntegerDefault0"},

    "title": {"type": "string"},
    "description": {"type": "string"},
    "default": true,
    "examples": {"type": "array", "items": true},
    "deprecated": {"type": "boolean", "default": false},
    "readOnly": {"type": "boolean", "default": false},
    "writeOnly": {"type": "boolean", "default": false},

    "format": {"type": "string"},

    "contentEncoding": {"type": "string"},
    "contentMediaType": {"type": "string"},
    "contentSchema": {"$dynamicRef": "#meta"},

    "definitions": {"type": "object", "deprecated": true, "default": {}, "additionalProperties": {"$dynamicRef": "#meta"}},
    "dependencies": {
      "type": "object",
      "deprecated": true,
      "default": {},
      "additionalProperties": {"anyOf": [
        {"$dynamicRef": "#meta"},
        {"$ref": "#/$defs/stringArray"}
      ]}
    },
    "$recursiveRef": {"deprecated": true, "$ref": "#/$defs/uriReferenceString"},
    "$recursiveAnchor": {"deprecated": true, "$ref": "#/$defs/anchorString"}
  },
  "$defs": {
    "anchorString": {"type": "string", "pattern": "^[A-Za-z_][-._0-9A-Za-z]*$"},
    "uriString": {"type": "string", "format": "uri"},
    "uriReferenceString": {"type": "string", "format": "uri-reference"},
    "schemaArray": {"type": "array", "minItems": 1, "items": {"$dynamicRef": "#meta"}},
    "schemaMap": {"type": "object", "default": {}, "additionalProperties": {"$dynamicRef": "#meta"}},
    "nonNegativeInteger": {"type": "integer", "minimum": 0},
    "nonNegativeIntegerDefault0": {"default": 0, "$ref": "#/$defs/nonNegativeInteger"},
    "simpleTypes": {"enum": ["null", "boolean", "integer", "number", "string", "array", "object"]},
    "stringArray": {"type": "array", "default": [], "uniqueItems": true, "items": {"type": "string"}}
  }
}"##;

/// The meta-schema of the core vocabulary.
pub(crate) const CORE: &str = r##"{
  "$schema": "https://json-schema.org/draft/2020-12/schema",
  "$id": "https://json-schema.org/draft/2020-12/meta/core",
  "$dynamicAnchor": "meta",
  "$vocabulary": {"https://json-schema.org/draft/2020-12/vocab/core": true},
  "type": ["boolean", "object"],
  "properties": {
    "$schema": {"$ref": "#/$defs/uriString"},
    "$id": {"pattern": "^[^#]*#?$", "$ref": "#/$defs/uriReferenceString"},
    "$ref": {"$ref": "#/$defs/uriReferenceString"},
    "$dynamicRef": {"$ref": "#/$defs/uriReferenceString"},
    "$anchor": {"$ref": "#/$defs/anchorString"},
    "$dynamicAnchor": {"$ref": "#/$defs/anchorString"},
    "$vocabulary": {
      "type": "object",
      "propertyNames": {"$ref": "#/$defs/uriString"},
      "additionalProperties": {"type": "boolean"}
    },
    "$comment": {"type": "string"},
    "$defs": {"type": "object", "additionalProperties": {"$dynamicRef": "#meta"}}
  },
  "$defs": {
    "anchorString": {"type": "string", "pattern": "^[A-Za-z_][-._0-9A-Za-z]*$"},
    "uriString": {"type": "string", "format": "uri"},
    "uriReferenceString": {"type": "string", "format": "uri-reference"}
  }
}"##;

/// The meta-schema of the applicator vocabulary.
pub(crate) const APPLICATOR: &str = r##"{
  "$schema": "https://json-schema.org/draft/2020-12/schema",
  "$id": "https://json-schema.org/draft/2020-12/meta/applicator",
  "$dynamicAnchor": "meta",
  "$vocabulary": {"https://json-schema.org/draft/2020-12/vocab/applicator": true},
  "type": ["boolean", "object"],
  "properties": {
    "allOf": {"$ref": "#/$defs/schemaArray"},
    "anyOf": {"$ref": "#/$defs/schemaArray"},
    "oneOf": {"$ref": "#/$defs/schemaArray"},
    "not": {"$dynamicRef": "#meta"},
    "if": {"$dynamicRef": "#meta"},
    "then": {"$dynamicRef": "#meta"},
    "else": {"$dynamicRef": "#meta"},

    "prefixItems": {"$ref": "#/$defs/schemaArray"},
    "items": {"$dynamicRef": "#meta"},
    "contains": {"$dynamicRef": "#meta"},

    "properties": {"$ref": "#/$defs/schemaMap"},
    "patternProperties": {"propertyNames": {"format": "regex"}, "$ref": "#/$defs/schemaMap"},
    "additionalProperties": {"$dynamicRef": "#meta"},
    "propertyNames": {"$dynamicRef": "#meta"},
    "dependentSchemas": {"$ref": "#/$defs/schemaMap"}
  },
  "$defs": {
    "schemaArray": {"type": "array", "minItems": 1, "items": {"$dynamicRef": "#meta"}},
    "schemaMap": {"type": "object", "default": {}, "additionalProperties": {"$dynamicRef": "#meta"}}
  }
}"##;

/// The meta-schema of the unevaluated vocabulary.
pub(crate) const UNEVALUATED: &str = r##"{
  "$schema": "https://json-schema.org/draft/2020-12/schema",
  "$id": "https://json-schema.org/draft/2020-12/meta/unevaluated",
  "$dynamicAnchor": "meta",
  "$vocabulary": {"https://json-schema.org/draft/2020-12/vocab/unevaluated": true},
  "type": ["boolean", "object"],
  "properties": {
    "unevaluatedItems": {"$dynamicRef": "#meta"},
    "unevaluatedProperties": {"$dynamicRef": "#meta"}
  }
}"##;

/// The meta-schema of the validation vocabulary.
pub(crate) const VALIDATION: &str = r##"{
  "$schema": "https://json-schema.org/draft/2020-12/schema",
  "$id": "https://json-schema.org/draft/2020-12/meta/validation",
  "$dynamicAnchor": "meta",
  "$vocabulary": {"https://json-schema.org/draft/2020-12/vocab/validation": true},
  "type": ["boolean", "object"],
  "properties": {
    "type": {"anyOf": [
      {"$ref": "#/$defs/simpleTypes"},
      {"type": "array", "minItems": 1, "uniqueItems": true, "items": {"$ref": "#/$defs/simpleTypes"}}
    ]},
    "const": true,
    "enum": {"type": "array", "items": true},

    "maximum": {"type": "number"},
    "exclusiveMaximum": {"type": "number"},
    "minimum": {"type": "number"},
    "exclusiveMinimum": {"type": "number"},
    "multipleOf": {"type": "number", "exclusiveMinimum": 0},

    "maxLength": {"$ref": "#/$defs/nonNegativeInteger"},
    "minLength": {"$ref": "#/$defs/nonNegativeIntegerDefault0"},
    "pattern": {"type": "string", "format": "regex"},

    "maxItems": {"$ref": "#/$defs/nonNegativeInteger"},
    "minItems": {"$ref": "#/$defs/nonNegativeIntegerDefault0"},
    "uniqueItems": {"type": "boolean", "default": false},
    "maxContains": {"$ref": "#/$defs/nonNegativeInteger"},
    "minContains": {"default": 1, "$ref": "#/$defs/nonNegativeInteger"},

    "required": {"$ref": "#/$defs/stringArray"},
    "dependentRequired": {"type": "object", "additionalProperties": {"$ref": "#/$defs/stringArray"}},
    "maxProperties": {"$ref": "#/$defs/nonNegativeInteger"},
    "minProperties": {"$ref": "#/$defs/nonNegativeIntegerDefault0"}
  },
  "$defs": {
    "nonNegativeInteger": {"type": "integer", "minimum": 0},
    "nonNegativeIntegerDefault0": {"default": 0, "$ref": "#/$defs/nonNegativeInteger"},
    "simpleTypes": {"enum": ["null", "boolean", "integer", "number", "string", "array", "object"]},
    "stringArray": {"type": "array", "default": [], "uniqueItems": true, "items": {"type": "string"}}
  }
}"##;

/// The meta-schema of the meta-data vocabulary.
pub(crate) const META_DATA: &str = r##"{
  "$schema": "https://json-schema.org/draft/2020-12/schema",
  "$id": "https://json-schema.org/draft/2020-12/meta/meta-data",
  "$dynamicAnchor": "meta",
  "$vocabulary": {"https://json-schema.org/draft/2020-12/vocab/meta-data": true},
  "type": ["boolean", "object"],
  "properties": {
    "title": {"type": "string"},
    "description": {"type": "string"},
    "default": true,
    "examples": {"type": "array", "items": true},
    "deprecated": {"type": "boolean", "default": false},
    "readOnly": {"type": "boolean", "default": false},
    "writeOnly": {"type": "boolean", "default": false}
  }
}"##;

/// The meta-schema of the format-annotation vocabulary.
pub(crate) const FORMAT_ANNOTATION: &str = r##"{
  "$schema": "https://json-schema.org/draft/2020-12/schema",
  "$id": "https://json-schema.org/draft/2020-12/meta/format-annotation",
  "$dynamicAnchor": "meta",
  "$vocabulary": {"https://json-schema.org/draft/2020-12/vocab/format-annotation": true},
  "type": ["boolean", "object"],
  "properties": {
    "format": {"type": "string"}
  }
}"##;

/// The meta-schema of the format-assertion vocabulary.
pub(crate) const FORMAT_ASSERTION: &str = r##"{
  "$schema": "https://json-schema.org/draft/2020-12/schema",
  "$id": "https://json-schema.org/draft/2020-12/meta/format-assertion",
  "$dynamicAnchor": "meta",
  "$vocabulary": {"https://json-schema.org/draft/2020-12/vocab/format-assertion": true},
  "type": ["boolean", "object"],
  "properties": {
    "format": {"type": "string"}
  }
}"##;

/// The meta-schema of the content vocabulary.
pub(crate) const CONTENT: &str = r##"{
  "$schema": "https://json-schema.org/draft/2020-12/schema",
  "$id": "https://json-schema.org/draft/2020-12/meta/content",
  "$dynamicAnchor": "meta",
  "$vocabulary": {"https://json-schema.org/draft/2020-12/vocab/content": true},
  "type": ["boolean", "object"],
  "properties": {
    "contentEncoding": {"type": "string"},
    "contentMediaType": {"type": "string"},
    "contentSchema": {"$dynamicRef": "#meta"}
  }
}"##;
