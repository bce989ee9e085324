//! What the arguments request.
ghost use Rattle.std.specs.Prelude.{◌≡◌, IfOk, IfErr, map, option_map, string_bytes};
ghost use Rattle.serde_json.specs.View.{view};
ghost use Rattle.standard_basics.specs.Makers.{texts_of};
ghost use Rattle.schema_traits.specs.Showing.{Shows};
ghost use Rattle.bench_program.specs.ProgramFaults.{FaultStands, Unlisted, Unread};
ghost use Rattle.bench_program.specs.ProgramViews.{texts, words_of};
ghost use Rattle.bench_program.specs.ProgramWords.{Holds, IsListOf, IsTextOf, call_in, call_named, listed, words_in};

use crate::program::faults::{Fault, Word};
use schema_reports::OutOfMemory;
use serde_json::{Category, Value};
use standard_basics::texts_of;
use std::alloc::Global;

/// A call of the engine. MODE names it: `valid`, `first`, `errors` or `list`.
#[derive(Clone, Copy, Debug, PartialEq, Eq)]
pub enum Call {
    IsValid,
    Validate,
    IterErrors,
    Evaluate,
}

/// What the arguments request.
#[derive(Drop)]
pub struct Request {
    pub call: Call,
    pub schema: Value,
    pub instance: Value,
    /// The patterns whose matches stay unfinished.
    pub unfinished: Vec<String>,
}

/// The arguments, each by its role.
#[derive(Drop)]
pub struct Words<'w> {
    pub mode: &'w [u8],
    pub schema: &'w [u8],
    pub instance: &'w [u8],
    pub unfinished: &'w [u8],
}

fn call_named(mode: &[u8]) -> Option<Call>
    ensures named { result ≡ call_named mode.now }
{
    if mode == b"valid".as_slice() {
        Some(Call::IsValid)
    } else if mode == b"first".as_slice() {
        Some(Call::Validate)
    } else if mode == b"errors".as_slice() {
        Some(Call::IterErrors)
    } else if mode == b"list".as_slice() {
        Some(Call::Evaluate)
    } else {
        None
    }
}

/// Returns the arguments, if there are three or four.
///
/// UNFINISHED is `[]` if it is absent.
fn words_in(words: &[Vec<u8>]) -> Option<Words<'_>>
    ensures words { option_map words_of result ≡ words_in (texts words.now) }
{
    match words {
        [mode, schema, instance] => Some(Words {
            mode: mode.as_slice(),
            schema: schema.as_slice(),
            instance: instance.as_slice(),
            unfinished: b"[]",
        }),
        [mode, schema, instance, unfinished] => Some(Words {
            mode: mode.as_slice(),
            schema: schema.as_slice(),
            instance: instance.as_slice(),
            unfinished: unfinished.as_slice(),
        }),
        _ => None,
    }
}

fn json_in(alloc: Global, text: &[u8], word: Word) -> Result<Value, Fault>
    ensures read { IfOk result (λ v. IsTextOf (view v) text.now) }
    ensures fault { IfErr result (λ f. Unread text.now word f) }
{
    match Value::from_slice(alloc, text) {
        Ok(value) => Ok(value),
        Err(error) => match error.classify() {
            Category::Memory => Err(Fault::OutOfMemory),
            _ => Err(Fault::NotJson(word)),
        },
    }
}

/// Returns the texts of a list, if the value is a list of texts.
fn listed(alloc: Global, value: &Value) -> Result<Option<Vec<String>>, OutOfMemory>
    ensures listed { Shows (option_map (λ v. map string_bytes v.items)) result (listed (view value.now)) }
{
    let Value::Array(items) = value else {
        return Ok(None);
    };
    texts_of(alloc, items.as_slice())
}

fn list_in(alloc: Global, text: &[u8]) -> Result<Vec<String>, Fault>
    ensures read { IfOk result (λ found. IsListOf (map string_bytes found.items) text.now) }
    ensures fault { IfErr result (Unlisted text.now) }
{
    let value = json_in(alloc, text, Word::Unfinished)?;
    match listed(alloc, &value)? {
        Some(found) => Ok(found),
        None => Err(Fault::NotJson(Word::Unfinished)),
    }
}

/// Returns what the arguments request.
///
/// # Errors
///
/// The first fault in the arguments, or a lack of memory. The faults, in this order: there are not
/// three or four arguments, or MODE names no call; SCHEMA is not JSON; INSTANCE is not JSON;
/// UNFINISHED is not a list of texts.
pub fn request_in(alloc: Global, words: &[Vec<u8>]) -> Result<Request, Fault>
    ensures holds { IfOk result
        (λ r. Holds (texts words.now) r.call (view r.schema) (view r.instance) (map string_bytes r.unfinished.items)) }
    ensures fault { IfErr result (FaultStands (texts words.now)) }
    ensures usage { call_in (texts words.now) ≡ None → result ≡ Err Fault.Usage }
{
    let Some(given) = words_in(words) else {
        return Err(Fault::Usage);
    };
    let Some(call) = call_named(given.mode) else {
        return Err(Fault::Usage);
    };
    let schema = json_in(alloc, given.schema, Word::Schema)?;
    let instance = json_in(alloc, given.instance, Word::Instance)?;
    let unfinished = list_in(alloc, given.unfinished)?;
    Ok(Request {
        call,
        schema,
        instance,
        unfinished,
    })
}
