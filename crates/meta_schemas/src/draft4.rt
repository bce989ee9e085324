//! The meta-schema of draft 4.

/// The text of the meta-schema.
pub(crate) const TEXT: &str = r##"{
  "$schema": "http://json-schema.org/draft-04/schema#",
  "id": "http://json-schema.org/draft-04/schema#",
  "type": "object",
  "default": {},
  "properties": {
    "$schema": {"type": "string"},
    "id": {"type": "string"},
    "definitions": {"$ref": "#/definitions/schemaMap"},

    "title": {"type": "string"},
    "description": {"type": "string"},
    "default": {},
    "format": {"type": "string"},

    "type": {"anyOf": [
      {"$ref": "#/definitions/simpleTypes"},
      {"type": "array", "minItems": 1, "uniqueItems": true, "items": {"$ref": "#/definitions/simpleTypes"}}
    ]},
    "enum": {"type": "array", "minItems": 1, "uniqueItems": true},

    "allOf": {"$ref": "#/definitions/schemaArray"},
    "anyOf": {"$ref": "#/definitions/schemaArray"},
    "oneOf": {"$ref": "#/definitions/schemaArray"},
    "not": {"$ref": "#"},

    "maximum": {"type": "number"},
    "exclusiveMaximum": {"$ref": "#/definitions/flag"},
    "minimum": {"type": "number"},
    "exclusiveMinimum": {"$ref": "#/definitions/flag"},
    "multipleOf": {"type": "number", "minimum": 0, "exclusiveMinimum": true},

    "maxLength": {"$ref": "#/definitions/positiveInteger"},
    "minLength": {"$ref": "#/definitions/positiveIntegerDefault0"},
    "pattern": {"type": "string", "format": "regex"},

    "items": {"default": {}, "anyOf": [{"$ref": "#"}, {"$ref": "#/definitions/schemaArray"}]},
    "additionalItems": {"$ref": "#/definitions/schemaOrFlag"},
    "maxItems": {"$ref": "#/definitions/positiveInteger"},
    "minItems": {"$ref": "#/definitions/positiveIntegerDefault0"},
    "uniqueItems": {"$ref": "#/definitions/flag"},

    "properties": {"$ref": "#/definitions/schemaMap"},
    "patternProperties": {"$ref": "#/definitions/schemaMap"},
    "additionalProperties": {"$ref": "#/definitions/schemaOrFlag"},
    "dependencies": {
      "type": "object",
      "additionalProperties": {"anyOf": [{"$ref": "#"}, {"$ref": "#/definitions/stringArray"}]}
    },
    "required": {"$ref": "#/definitions/stringArray"},
    "maxProperties": {"$ref": "#/definitions/positiveInteger"},
    "minProperties": {"$ref": "#/definitions/positiveIntegerDefault0"}
  },
  "dependencies": {
    "exclusiveMaximum": ["maximum"],
    "exclusiveMinimum": ["minimum"]
  },
  "definitions": {
    "flag": {"type": "boolean", "default": false},
    "positiveInteger": {"type": "integer", "minimum": 0},
    "positiveIntegerDefault0": {"default": 0, "allOf": [{"$ref": "#/definitions/positiveInteger"}]},
    "simpleTypes": {"enum": ["null", "boolean", "integer", "number", "string", "array", "object"]},
    "stringArray": {"type": "array", "minItems": 1, "uniqueItems": true, "items": {"type": "string"}},
    "schemaArray": {"type": "array", "minItems": 1, "items": {"$ref": "#"}},
    "schemaMap": {"type": "object", "default": {}, "additionalProperties": {"$ref": "#"}},
    "schemaOrFlag": {"default": {}, "anyOf": [{"$ref": "#"}, {"type": "boolean"}]}
  }
}"##;
