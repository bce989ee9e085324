//! A table that refuses the value of each member, with the value's own text.
//!
//! That text shows the digits of fractions. The table makes no keyword, so it is a table for every
//! keyword type.
ghost use Rattle.std.specs.Prelude.{◌≡◌, IfOk, false, string_bytes};
ghost use Rattle.serde_json.specs.Find.{get_member};
ghost use Rattle.serde_json.specs.View.{view};
ghost use Rattle.serde_json.specs.Written.{compact_text, has_float};
ghost use Rattle.test_laws.specs.PrintingTable.{ending_of, refuses_value, IsPrinted, PrintsValue};
ghost use Rattle.schema_traits.specs.Showing.{Shows};
ghost use Rattle.schema_traits.specs.Readings.{fields, value_read};

use schema_drafts::{Draft, VocabularySet};
use schema_reports::{Location, OutOfMemory, OwnedError};
use schema_traits::{KeywordOrigin, KeywordTable, MakerReply, MakerStep, Validate};
use serde_json::{Map, Value};
use std::alloc::Global;

/// The table.
#[derive(Drop)]
pub struct PrintingTable {}

/// A maker, which holds the value that it refuses.
#[derive(Drop)]
pub enum PrintingMaker {
    Refuses(String, Value),
    Nothing,
}

// Returns the error for a value, with this text.
fn located(
    alloc: Global,
    name: &String,
    value: &Value,
    text: String,
) -> Result<OwnedError, OutOfMemory>
    ensures error { IfOk result (IsPrinted (string_bytes name.now) (view value.now)) }
    ensures text { IfOk result (λ e. string_bytes e.text ≡ string_bytes text) }
{
    Ok(OwnedError {
        instance: value.clone()?,
        instance_path: Location::new(alloc),
        schema_path: Location::new(alloc),
        evaluation_path: Location::new(alloc),
        absolute_keyword_location: None,
        keyword: String::from_str(alloc, name.as_str())?,
        text,
    })
}

// Returns the error with the value's text.
fn printed(alloc: Global, name: &String, value: &Value) -> Result<OwnedError, OutOfMemory>
    ensures error { IfOk result (IsPrinted (string_bytes name.now) (view value.now)) }
    ensures text { IfOk result (λ e. has_float (view value.now) ≡ false → string_bytes e.text ≡ compact_text (view value.now)) }
{
    let text = value.to_string(alloc)?;
    located(alloc, name, value, text)
}

// Returns the refusal of a value. Its text is covered if the value contains no fraction.
#[tactic(auto, using(crate::specs::PrintingTable::told_alike))]
fn refusal(alloc: Global, name: &String, value: &Value) -> Result<OwnedError, OutOfMemory>
    ensures refusal { IfOk result (PrintsValue (string_bytes name.now) (view value.now)) }
{
    printed(alloc, name, value)
}

// Returns the value of this name in an object.
fn value_in<'o>(object: &'o Map<String, Value>, name: &str) -> Option<&'o Value>
    ensures value { value_read result ≡ get_member name.now (fields object.now) }
{
    object.get(name)
}

fn maker_with(
    alloc: Global,
    name: &str,
    value: Option<&Value>,
) -> Result<PrintingMaker, OutOfMemory>
    ensures maker { Shows ending_of result (refuses_value name.now (value_read value.entry)) }
{
    match value {
        Some(value) => {
            let name = String::from_str(alloc, name)?;
            Ok(PrintingMaker::Refuses(name, value.clone()?))
        }
        None => Ok(PrintingMaker::Nothing),
    }
}

fn maker_of(
    alloc: Global,
    name: &str,
    object: &Map<String, Value>,
) -> Result<PrintingMaker, OutOfMemory>
    ensures maker { Shows ending_of result (refuses_value name.now (get_member name.now (fields object.now))) }
{
    maker_with(alloc, name, value_in(object, name))
}

impl<K: Validate> KeywordTable<K> for PrintingTable {
    ghost use Rattle.std.specs.Prelude.{true};
    ghost use Rattle.schema_traits.specs.MakerViews.{begun};
    ghost use Rattle.theory_definitions.specs.Making.{then_end};
    ghost use Rattle.test_laws.specs.PrintingTable.{made_of, printing_script, prints_rightly};

    type Maker = PrintingMaker;

    ghost owned = { λ t name. true };

    ghost script = { λ t. printing_script };

    ghost waiting = { λ m. begun (then_end (made_of (ending_of m))) };

    fn owns(&self, _name: &str) -> bool {
        true
    }

    fn begin(
        &self,
        alloc: Global,
        origin: KeywordOrigin<'_>,
        object: &Map<String, Value>,
        _draft: Draft,
        _vocabularies: &VocabularySet,
        _formats: bool,
    ) -> Result<PrintingMaker, OutOfMemory> {
        maker_of(alloc, origin.name(), object)
    }

    fn turn(
        &self,
        alloc: Global,
        maker: &mut PrintingMaker,
        _reply: MakerReply,
    ) -> Result<MakerStep<K>, OutOfMemory> {
        match maker {
            PrintingMaker::Refuses(name, value) => {
                let error = refusal(alloc, name, value)?;
                Ok(MakerStep::Refuse(error))
            }
            PrintingMaker::Nothing => Ok(MakerStep::Nothing),
        }
    }

    ghost right = { λ t. prints_rightly K.absorbed K.is_whole };
}
