//! The library `jsonschema` as a program uses it.
//!
//! A schema is asked once, a validator is built by the default options and by others, and validators
//! are returned, kept and cloned.
#![tactic(auto)]

use jsonschema::{BuildError, Draft, OutOfMemory, StandardValidator};
use serde_json::Value;
use std::alloc::Global;

const SCHEMA: &str = r##"{
  "properties": {
    "age": {"$ref": "#/$defs/count"},
    "id": {"anyOf": [{"type": "string"}, {"type": "integer"}]}
  },
  "$defs": {"count": {"type": "integer"}}
}"##;

const INSTANCE: &str = r#"{"age": "7", "id": null}"#;

const CONTACT: &str = r#"{"items": {"$ref": "mail"}}"#;

const MAIL: &str = r#"{"type": "string", "format": "email"}"#;

const MAILS: &str = r#"["me@example.com", "none"]"#;

fn main(rt: HostRuntime) -> anyhow::Result<()> {
    let alloc = rt.alloc();
    let schema = Value::from_str(alloc, SCHEMA)?;
    let instance = Value::from_str(alloc, INSTANCE)?;
    let accepted = jsonschema::is_valid(alloc, &schema, &instance)?;
    println!(rt; "accepted: {accepted}")?;
    let validator = jsonschema::validator_for(alloc, &schema)?;
    for error in validator.iter_errors(alloc, &instance)? {
        println!(rt; "{}: {error}", error.instance_path(alloc)?.as_str())?;
    }
    explain(&rt, &validator, &instance)?;
    let kept = keep(alloc, validator, contact(alloc)?)?;
    let mails = Value::from_str(alloc, MAILS)?;
    for validator in &kept.validators {
        let accepted = validator.is_valid(alloc, &mails)?;
        println!(rt; "accepted: {accepted}")?;
    }
    Ok(())
}

/// Prints the causes of each error, and the one that lies deepest in the instance.
fn explain(
    rt: &HostRuntime,
    validator: &StandardValidator,
    instance: &Value,
) -> anyhow::Result<()> {
    let alloc = rt.alloc();
    let evaluation = validator.evaluate(alloc, instance)?;
    for error in validator.iter_errors(alloc, instance)? {
        let causes = jsonschema::causes(alloc, &evaluation, &error)?;
        for cause in &causes {
            let path = cause.unit.evaluation_path.as_str();
            println!(rt; "{path}: {}", cause.error.text)?;
        }
        if let Some(best) = jsonschema::best_match(&causes) {
            println!(rt; "deepest: {}", best.error.text)?;
        }
    }
    Ok(())
}

/// Builds a validator of lists of addresses, in draft 7, which checks formats.
///
/// The schema and the document that it refers to are dropped; the validator owns what it needs.
fn contact(alloc: Global) -> anyhow::Result<StandardValidator> {
    let schema = Value::from_str(alloc, CONTACT)?;
    let mail = Value::from_str(alloc, MAIL)?;
    let validator = by_options(alloc, &schema, &mail);
    drop(mail);
    drop(schema);
    Ok(validator?)
}

fn by_options(
    alloc: Global,
    schema: &Value,
    mail: &Value,
) -> Result<StandardValidator, BuildError> {
    jsonschema::options(alloc)
        .with_draft(Draft::Draft7)
        .with_document("https://example.com/mail", mail)?
        .with_base_uri("https://example.com/contact")?
        .should_validate_formats(true)
        .with_work_limit(1_000_000)
        .build(schema)
}

/// Validators that are built once and asked often.
#[derive(Drop)]
struct Kept {
    validators: Vec<StandardValidator>,
}

/// Keeps a validator, a clone of it, and another one.
fn keep(
    alloc: Global,
    validator: StandardValidator,
    other: StandardValidator,
) -> Result<Kept, OutOfMemory> {
    let mut validators = Vec::new(alloc);
    validators.push(validator.clone(alloc)?)?;
    validators.push(validator)?;
    validators.push(other)?;
    Ok(Kept { validators })
}
