//! The meta-schemas of draft 2019-09 and of its vocabularies.

/// The text of the meta-schema.
///
/// It contains the keywords of all its vocabularies. If it referred to the documents of the
/// vocabularies, each order in which dynamic references enter them would be compiled separately.
pub(crate) const SCHEMA: &str = r##"{
  "$schema": "https://json-schema.org/draft/2019-09/schema",
  "$id": "https://json-schema.org/draft/2019-09/schema",
  "$recursiveAnchor": true,
  "$vocabulary": {
    "https://json-schema.org/draft/2019-09/vocab/core": true,
    "https://json-schema.org/draft/2019-09/vocab/applicator": true,
    "https://json-schema.org/draft/2019-09/vocab/validation": true,
    "https://json-schema.org/draft/2019-09/vocab/meta-data": true,
    "https://json-schema.org/draft/2019-09/vocab/format": false,
    "https://json-schema.org/draft/2019-09/vocab/content": true
  },
  "type": ["boolean", "object"],
  "properties": {
    "$schema": {"type": "string", "format": "uri"},
    "$id": {"type": "string", "format": "uri-reference", "pattern": "^[^#]*#?$"},
    "$ref": {"type": "string", "format": "uri-reference"},
    "$anchor": {"type": "string", "pattern": "^[A-Za-z][-:._0-9A-Za-z]*$"},
    "$recursiveRef": {"type": "string", "format": "uri-reference"},
    "$recursiveAnchor": {"type": "boolean", "default": false},
    "$vocabulary": {
      "type": "object",
      "propertyNames": {"type": "string", "format": "uri"},
      "additionalProperties": {"type": "boolean"}
    },
    "$comment": {"type": "string"},
    "$defs": {"type": "object", "default": {}, "additionalProperties": {"$recursiveRef": "#"}},

    "allOf": {"$ref": "#/$defs/schemaArray"},
    "anyOf": {"$ref": "#/$defs/schemaArray"},
    "oneOf": {"$ref": "#/$defs/schemaArray"},
    "not": {"$recursiveRef": "#"},
    "if": {"$recursiveRef": "#"},
    "then": {"$recursiveRef": "#"},
    "else": {"$recursiveRef": "#"},

    "items": {"anyOf": [{"$recursiveRef": "#"}, {"$ref": "#/$defs/schemaArray"}]},
    "additionalItems": {"$recursiveRef": "#"},
    "unevaluatedItems": {"$recursiveRef": "#"},
    "contains": {"$recursiveRef": "#"},

    "properties": {"$ref": "#/$defs/schemaMap"},
    "patternProperties": {"propertyNames": {"format": "regex"}, "$ref": "#/$defs/schemaMap"},
    "additionalProperties": {"$recursiveRef": "#"},
    "unevaluatedProperties": {"$recursiveRef": "#"},
    "propertyNames": {"$recursiveRef": "#"},
    "dependentSchemas": {"$ref": "#/$defs/schemaMap"},

    "type": {"anyOf": [
      {"$ref": "#/$defs/simpleTypes"},
      {"type": "array", "minItems": 1, "uniqueItems": true, "items": {"$ref": "#/$defs/simpleTypes"}}
    ]},
    "const": true,
    "enum": {"type": "array", "items": true},

    "maximum": {"type": "number"},
    "exclusiveMaximum": {"type": "number"},
    "minimum": {"type": "number"},
    "exclusiveMinimum": {"type": "number"},
    "multipleOf": {"type": "number", "exclusiveMinimum": 0},

    "maxLength": {"$ref": "#/$defs/nonNegativeInteger"},
    "minLength": {"$ref": "#/$defs/nonNegativeIntegerDefault0"},
    "pattern": {"type": "string", "format": "regex"},

    "maxItems": {"$ref": "#/$defs/nonNegativeInteger"},
    "minItems": {"$ref": "#/$defs/nonNegativeIntegerDefault0"},
    "uniqueItems": {"type": "boolean", "default": false},
    "maxContains": {"$ref": "#/$defs/nonNegativeInteger"},
    "minContains": {"default": 1, "$ref": "#/$defs/nonNegativeInteger"},

    "required": {"$ref": "#/$defs/stringArray"},
    "dependentRequired": {"type": "object", "additionalProperties": {"$ref": "#/$defs/stringArray"}},
    "maxProperties": {"$ref": "#/$defs/nonNegativeInteger"},
    "minProperties": {"$ref": "#/$defs/nonNegativeIntegerDefault0"},

    "title": {"type": "string"},
    "description": {"type": "string"},
    "default": true,
    "examples": {"type": "array", "items": true},
    "deprecated": {"type": "boolean", "default": false},
    "readOnly": {"type": "boolean", "default": false},
    "writeOnly": {"type": "boolean", "default": false},

    "format": {"type": "string"},

    "contentEncoding": {"type": "string"},
    "contentMediaType": {"type": "string"},
    "contentSchema": {"$recursiveRef": "#"},

    "definitions": {"type": "object", "default": {}, "additionalProperties": {"$recursiveRef": "#"}},
    "dependencies": {
      "type": "object",
      "additionalProperties": {"anyOf": [
        {"$recursiveRef": "#"},
        {"$ref": "#/$defs/stringArray"}
      ]}
    }
  },
  "$defs": {
    "schemaArray": {"type": "array", "minItems": 1, "items": {"$recursiveRef": "#"}},
    "schemaMap": {"type": "object", "default": {}, "additionalProperties": {"$recursiveRef": "#"}},
    "nonNegativeInteger": {"type": "integer", "minimum": 0},
    "nonNegativeIntegerDefault0": {"default": 0, "$ref": "#/$defs/nonNegativeInteger"},
    "simpleTypes": {"enum": ["null", "boolean", "integer", "number", "string", "array", "object"]},
    "stringArray": {"type": "array", "default": [], "uniqueItems": true, "items": {"type": "string"}}
  }
}"##;

/// The meta-schema of the core vocabulary.
pub(crate) const CORE: &str = r##"{
  "$schema": "https://json-schema.org/draft/2019-09/schema",
  "$id": "https://json-schema.org/draft/2019-09/meta/core",
  "$recursiveAnchor": true,
  "$vocabulary": {"https://json-schema.org/draft/2019-09/vocab/core": true},
  "type": ["boolean", "object"],
  "properties": {
    "$schema": {"type": "string", "format": "uri"},
    "$id": {"type": "string", "format": "uri-reference", "pattern": "^[^#]*#?$"},
    "$ref": {"type": "string", "format": "uri-reference"},
    "$anchor": {"type": "string", "pattern": "^[A-Za-z][-:._0-9A-Za-z]*$"},
    "$recursiveRef": {"type": "string", "format": "uri-reference"},
    "$recursiveAnchor": {"type": "boolean", "default": false},
    "$vocabulary": {
      "type": "object",
      "propertyNames": {"type": "string", "format": "uri"},
      "additionalProperties": {"type": "boolean"}
    },
    "$comment": {"type": "string"},
    "$defs": {"type": "object", "default": {}, "additionalProperties": {"$recursiveRef": "#"}}
  }
}"##;

/// The meta-schema of the applicator vocabulary.
pub(crate) const APPLICATOR: &str = r##"{
  "$schema": "https://json-schema.org/draft/2019-09/schema",
  "$id": "https://json-schema.org/draft/2019-09/meta/applicator",
  "$recursiveAnchor": true,
  "$vocabulary": {"https://json-schema.org/draft/2019-09/vocab/applicator": true},
  "type": ["boolean", "object"],
  "properties": {
    "allOf": {"$ref": "#/$defs/schemaArray"},
    "anyOf": {"$ref": "#/$defs/schemaArray"},
    "oneOf": {"$ref": "#/$defs/schemaArray"},
    "not": {"$recursiveRef": "#"},
    "if": {"$recursiveRef": "#"},
    "then": {"$recursiveRef": "#"},
    "else": {"$recursiveRef": "#"},

    "items": {"anyOf": [{"$recursiveRef": "#"}, {"$ref": "#/$defs/schemaArray"}]},
    "additionalItems": {"$recursiveRef": "#"},
    "unevaluatedItems": {"$recursiveRef": "#"},
    "contains": {"$recursiveRef": "#"},

    "properties": {"$ref": "#/$defs/schemaMap"},
    "patternProperties": {"propertyNames": {"format": "regex"}, "$ref": "#/$defs/schemaMap"},
    "additionalProperties": {"$recursiveRef": "#"},
    "unevaluatedProperties": {"$recursiveRef": "#"},
    "propertyNames": {"$recursiveRef": "#"},
    "dependentSchemas": {"$ref": "#/$defs/schemaMap"}
  },
  "$defs": {
    "schemaArray": {"type": "array", "minItems": 1, "items": {"$recursiveRef": "#"}},
    "schemaMap": {"type": "object", "default": {}, "additionalProperties": {"$recursiveRef": "#"}}
  }
}"##;

/// The meta-schema of the validation vocabulary.
pub(crate) const VALIDATION: &str = r##"{
  "$schema": "https://json-schema.org/draft/2019-09/schema",
  "$id": "https://json-schema.org/draft/2019-09/meta/validation",
  "$recursiveAnchor": true,
  "$vocabulary": {"https://json-schema.org/draft/2019-09/vocab/validation": true},
  "type": ["boolean", "object"],
  "properties": {
    "type": {"anyOf": [
      {"$ref": "#/$defs/simpleTypes"},
      {"type": "array", "minItems": 1, "uniqueItems": true, "items": {"$ref": "#/$defs/simpleTypes"}}
    ]},
    "const": true,
    "enum": {"type": "array", "items": true},

    "maximum": {"type": "number"},
    "exclusiveMaximum": {"type": "number"},
    "minimum": {"type": "number"},
    "exclusiveMinimum": {"type": "number"},
    "multipleOf": {"type": "number", "exclusiveMinimum": 0},

    "maxLength": {"$ref": "#/$defs/nonNegativeInteger"},
    "minLength": {"$ref": "#/$defs/nonNegativeIntegerDefault0"},
    "pattern": {"type": "string", "format": "regex"},

    "maxItems": {"$ref": "#/$defs/nonNegativeInteger"},
    "minItems": {"$ref": "#/$defs/nonNegativeIntegerDefault0"},
    "uniqueItems": {"type": "boolean", "default": false},
    "maxContains": {"$ref": "#/$defs/nonNegativeInteger"},
    "minContains": {"default": 1, "$ref": "#/$defs/nonNegativeInteger"},

    "required": {"$ref": "#/$defs/stringArray"},
    "dependentRequired": {"type": "object", "additionalProperties": {"$ref": "#/$defs/stringArray"}},
    "maxProperties": {"$ref": "#/$defs/nonNegativeInteger"},
    "minProperties": {"$ref": "#/$defs/nonNegativeIntegerDefault0"}
  },
  "$defs": {
    "nonNegativeInteger": {"type": "integer", "minimum": 0},
    "nonNegativeIntegerDefault0": {"default": 0, "$ref": "#/$defs/nonNegativeInteger"},
    "simpleTypes": {"enum": ["null", "boolean", "integer", "number", "string", "array", "object"]},
    "stringArray": {"type": "array", "default": [], "uniqueItems": true, "items": {"type": "string"}}
  }
}"##;

/// The meta-schema of the meta-data vocabulary.
pub(crate) const META_DATA: &str = r##"{
  "$schema": "https://json-schema.org/draft/2019-09/schema",
  "$id": "https://json-schema.org/draft/2019-09/meta/meta-data",
  "$recursiveAnchor": true,
  "$vocabulary": {"https://json-schema.org/draft/2019-09/vocab/meta-data": true},
  "type": ["boolean", "object"],
  "properties": {
    "title": {"type": "string"},
    "description": {"type": "string"},
    "default": true,
    "examples": {"type": "array", "items": true},
    "deprecated": {"type": "boolean", "default": false},
    "readOnly": {"type": "boolean", "default": false},
    "writeOnly": {"type": "boolean", "default": false}
  }
}"##;

/// The meta-schema of the format vocabulary.
pub(crate) const FORMAT: &str = r##"{
  "$schema": "https://json-schema.org/draft/2019-09/schema",
  "$id": "https://json-schema.org/draft/2019-09/meta/format",
  "$recursiveAnchor": true,
  "$vocabulary": {"https://json-schema.org/draft/2019-09/vocab/format": true},
  "type": ["boolean", "object"],
  "properties": {
    "format": {"type": "string"}
  }
}"##;

/// The meta-schema of the content vocabulary.
pub(crate) const CONTENT: &str = r##"{
  "$schema": "https://json-schema.org/draft/2019-09/schema",
  "$id": "https://json-schema.org/draft/2019-09/meta/content",
  "$recursiveAnchor": true,
  "$vocabulary": {"https://json-schema.org/draft/2019-09/vocab/content": true},
  "type": ["boolean", "object"],
  "properties": {
    "contentEncoding": {"type": "string"},
    "contentMediaType": {"type": "string"},
    "contentSchema": {"$recursiveRef": "#"}
  }
}"##;
