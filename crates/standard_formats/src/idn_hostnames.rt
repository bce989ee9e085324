//! Internationalized host names.
//!
//! (RFC 5890, section 2.3.2.3; RFC 5892; UTS #46, section 4)
ghost use Rattle.std.specs.Prelude.{◌≡◌, IfOk, is_some};
ghost use Rattle.std.specs.List.{list_all};
ghost use Rattle.std.specs.Char.{is_ascii};
ghost use Rattle.std.specs.Str.{chars};
ghost use Rattle.idna.specs.Uts46.{to_ascii};
ghost use Rattle.idna.specs.declared.options.DnsLength.TheVariants.{Verify};
ghost use Rattle.unicode_normalization.specs.Forms as Forms;
ghost use Rattle.schema_traits.specs.Showing.{Yields};
ghost use Rattle.standard_formats.specs.IdnCharacters as Characters;
ghost use Rattle.standard_formats.specs.IdnHostnames as spec;

use crate::idn_characters::is_permitted;
use crate::idn_contexts::fits_contexts;
use idna::uts46::{Hyphens, Uts46};
use idna::{AsciiDenyList, Errors, domain_to_ascii_strict};
use schema_reports::OutOfMemory;
use std::alloc::{AllocError, Global};
use unicode_normalization::is_nfc;

fn is_separator(character: char) -> bool
    ensures separator { result ≡ spec.is_separator character }
{
    matches!(u32::from(character), 0x2E | 0x3002 | 0xFF0E | 0xFF61)
}

fn are_ascii(label: &[char]) -> bool
    ensures ascii { result ≡ list_all is_ascii label.now }
{
    label.iter().all(|character| character.is_ascii())
}

fn are_permitted(label: &[char]) -> bool
    ensures permitted { result ≡ list_all Characters.is_permitted label.now }
{
    label.iter().all(|character| is_permitted(*character))
}

fn is_written(label: &[char]) -> bool
    ensures written { result ≡ spec.is_written label.now }
{
    are_ascii(label) || are_permitted(label)
}

fn is_placed(label: &[char]) -> bool
    ensures placed { result ≡ spec.is_placed label.now }
{
    are_permitted(label) && fits_contexts(label)
}

fn are_written(name: &[char]) -> bool
    ensures written { result ≡ list_all spec.is_written (spec.labels name.now) }
{
    name.split(|character| is_separator(*character))
        .all(|label| is_written(label))
}

fn are_placed(name: &[char]) -> bool
    ensures placed { result ≡ list_all spec.is_placed (spec.labels name.now) }
{
    name.split(|character| is_separator(*character))
        .all(|label| is_placed(label))
}

fn characters(alloc: Global, text: &str) -> Result<Vec<char>, OutOfMemory>
    ensures characters { IfOk result (λ found. found.items ≡ chars text.now) }
{
    text.chars().collect(alloc)
}

fn is_normal(alloc: Global, text: &str) -> Result<bool, OutOfMemory>
    ensures normal { Yields result (Forms.is_nfc (chars text.now)) }
{
    is_nfc(alloc, text)
}

/// Returns whether each label of a name is written in ASCII, or normal and of permitted characters.
fn is_written_name(alloc: Global, text: &str) -> Result<bool, OutOfMemory>
    ensures written { Yields result (spec.is_written_name text.now) }
{
    let name = characters(alloc, text)?;
    if are_written(name.as_slice()) {
        is_normal(alloc, text)
    } else {
        Ok(false)
    }
}

/// Returns whether ToASCII succeeds.
fn has_ascii(alloc: Global, text: &str) -> Result<bool, OutOfMemory>
    ensures ascii { Yields result (is_some (to_ascii AsciiDenyList.STD3 Hyphens.Check Verify text.now)) }
{
    match domain_to_ascii_strict(alloc, text) {
        Ok(_) => Ok(true),
        Err(error) => match error {
            Errors::Invalid => Ok(false),
            Errors::OutOfMemory => Err(AllocError {}),
        },
    }
}

/// Returns whether the labels in Unicode have permitted characters alone, in their places.
fn is_placed_in_unicode(alloc: Global, text: &str) -> Result<bool, OutOfMemory>
    ensures placed { Yields result (spec.is_placed_in_unicode text.now) }
{
    let (name, outcome) = Uts46::new().to_unicode(
        alloc,
        text.as_bytes(),
        AsciiDenyList::STD3,
        Hyphens::Check,
    )?;
    match outcome {
        Ok(()) => {
            let found = characters(alloc, name.as_str())?;
            Ok(are_placed(found.as_slice()))
        }
        Err(_) => Ok(false),
    }
}

/// Returns whether a text is an internationalized host name, such as `실례.테스트`.
///
/// # Errors
///
/// Out of memory.
pub fn is_idn_hostname(alloc: Global, text: &str) -> Result<bool, OutOfMemory>
    ensures hostname { Yields result (spec.is_idn_hostname text.now) }
{
    if is_written_name(alloc, text)? && has_ascii(alloc, text)? {
        is_placed_in_unicode(alloc, text)
    } else {
        Ok(false)
    }
}
