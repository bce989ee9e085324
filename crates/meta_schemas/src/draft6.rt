//! The meta-schema of draft 6.

/// The text of the meta-schema.
pub(crate) const TEXT: &str = r##"{
  "$schema": "http://json-schema.org/draft-06/schema#",
  "$id": "http://json-schema.org/draft-06/schema#",
  "type": ["boolean", "object"],
  "default": {},
  "properties": {
    "$schema": {"type": "string", "format": "uri"},
    "$id": {"type": "string", "format": "uri-reference"},
    "$ref": {"type": "string", "format": "uri-reference"},
    "definitions": {"$ref": "#/definitions/schemaMap"},

    "title": {"type": "string"},
    "description": {"type": "string"},
    "default": {},
    "examples": {"type": "array"},
    "format": {"type": "string"},

    "type": {"anyOf": [
      {"$ref": "#/definitions/simpleTypes"},
      {"type": "array", "minItems": 1, "uniqueItems": true, "items": {"$ref": "#/definitions/simpleTypes"}}
    ]},
    "const": {},
    "enum": {"type": "array"},

    "allOf": {"$ref": "#/definitions/schemaArray"},
    "anyOf": {"$ref": "#/definitions/schemaArray"},
    "oneOf": {"$ref": "#/definitions/schemaArray"},
    "not": {"$ref": "#"},

    "maximum": {"type": "number"},
    "exclusiveMaximum": {"type": "number"},
    "minimum": {"type": "number"},
    "exclusiveMinimum": {"type": "number"},
    "multipleOf": {"type": "number", "exclusiveMinimum": 0},

    "maxLength": {"$ref": "#/definitions/nonNegativeInteger"},
    "minLength": {"$ref": "#/definitions/nonNegativeIntegerDefault0"},
    "pattern": {"type": "string", "format": "regex"},

    "items": {"default": {}, "anyOf": [{"$ref": "#"}, {"$ref": "#/definitions/schemaArray"}]},
    "additionalItems": {"$ref": "#"},
    "contains": {"$ref": "#"},
    "maxItems": {"$ref": "#/definitions/nonNegativeInteger"},
    "minItems": {"$ref": "#/definitions/nonNegativeIntegerDefault0"},
    "uniqueItems": {"type": "boolean", "default": false},

    "properties": {"$ref": "#/definitions/schemaMap"},
    "patternProperties": {"propertyNames": {"format": "regex"}, "allOf": [{"$ref": "#/definitions/schemaMap"}]},
    "additionalProperties": {"$ref": "#"},
    "propertyNames": {"$ref": "#"},
    "dependencies": {
      "type": "object",
      "additionalProperties": {"anyOf": [{"$ref": "#"}, {"$ref": "#/definitions/stringArray"}]}
    },
    "required": {"$ref": "#/definitions/stringArray"},
    "maxProperties": {"$ref": "#/definitions/nonNegativeInteger"},
    "minProperties": {"$ref": "#/definitions/nonNegativeIntegerDefault0"}
  },
  "definitions": {
    "nonNegativeInteger": {"type": "integer", "minimum": 0},
    "nonNegativeIntegerDefault0": {"default": 0, "allOf": [{"$ref": "#/definitions/nonNegativeInteger"}]},
    "simpleTypes": {"enum": ["null", "boolean", "integer", "number", "string", "array", "object"]},
    "stringArray": {"type": "array", "default": [], "uniqueItems": true, "items": {"type": "string"}},
    "schemaArray": {"type": "array", "minItems": 1, "items": {"$ref": "#"}},
    "schemaMap": {"type": "object", "default": {}, "additionalProperties": {"$ref": "#"}}
  }
}"##;
