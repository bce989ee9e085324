//! The characters that a label of an internationalized host name may have.
//!
//! (RFC 5892, sections 2 and 3)
ghost use Rattle.std.specs.Prelude.{◌≡◌};
ghost use Rattle.idna.specs.Validity.{is_valid_status};
ghost use Rattle.standard_formats.specs.IdnCharacters as spec;

use ucd_category::GeneralCategory;
use ucd_idna_map::IdnaStatus;

/// Returns whether a category is one of letters, marks or digits that labels may have.
fn is_letter_or_digit(category: GeneralCategory) -> bool
    ensures letter_or_digit { result ≡ spec.is_letter_or_digit category }
{
    matches!(
        category,
        GeneralCategory::LowercaseLetter
            | GeneralCategory::UppercaseLetter
            | GeneralCategory::OtherLetter
            | GeneralCategory::DecimalNumber
            | GeneralCategory::ModifierLetter
            | GeneralCategory::NonspacingMark
            | GeneralCategory::SpacingMark
    )
}

/// Returns whether a status is that of characters that UTS #46 leaves as they are.
fn is_unmapped(status: IdnaStatus) -> bool
    ensures valid { result ≡ is_valid_status status }
{
    matches!(status, IdnaStatus::Valid | IdnaStatus::Deviation)
}

fn is_in_ignorable_block(code: u32) -> bool
    ensures ignorable { result ≡ spec.is_in_ignorable_block code }
{
    matches!(code, 0x20D0..=0x20FF | 0x1D100..=0x1D1FF | 0x1D200..=0x1D24F)
}

fn is_ldh(code: u32) -> bool
    ensures ldh { result ≡ spec.is_ldh code }
{
    matches!(code, 45 | 48..=57 | 97..=122)
}

/// Returns whether a character is an Arabic-Indic digit.
pub(crate) fn is_arabic_digit(code: u32) -> bool
    ensures digit { result ≡ spec.is_arabic_digit code }
{
    matches!(code, 0x660..=0x669)
}

/// Returns whether a character is an extended Arabic-Indic digit.
pub(crate) fn is_extended_arabic_digit(code: u32) -> bool
    ensures digit { result ≡ spec.is_extended_arabic_digit code }
{
    matches!(code, 0x6F0..=0x6F9)
}

fn is_valid_exception(code: u32) -> bool
    ensures exception { result ≡ spec.is_valid_exception code }
{
    matches!(code, 0xDF | 0x3C2 | 0x6FD..=0x6FE | 0xF0B | 0x3007)
}

fn is_contextual_exception(code: u32) -> bool
    ensures exception { result ≡ spec.is_contextual_exception code }
{
    matches!(code, 0xB7 | 0x375 | 0x5F3..=0x5F4 | 0x30FB)
        || is_arabic_digit(code)
        || is_extended_arabic_digit(code)
}

fn is_disallowed_exception(code: u32) -> bool
    ensures exception { result ≡ spec.is_disallowed_exception code }
{
    matches!(code, 0x640 | 0x7FA | 0x302E..=0x302F | 0x3031..=0x3035 | 0x303B)
}

fn is_joiner(code: u32) -> bool
    ensures joiner { result ≡ spec.is_joiner code }
{
    matches!(code, 0x200C..=0x200D)
}

fn is_old_jamo(code: u32) -> bool
    ensures jamo { result ≡ spec.is_old_jamo code }
{
    matches!(code, 0x1100..=0x11FF | 0xA960..=0xA97C | 0xD7B0..=0xD7C6 | 0xD7CB..=0xD7FB)
}

fn is_stable_letter(character: char) -> bool
    ensures letter { result ≡ spec.is_stable_letter character }
{
    let code = u32::from(character);
    is_letter_or_digit(GeneralCategory::for_char(character))
        && is_unmapped(IdnaStatus::for_char(character))
        && !is_in_ignorable_block(code)
        && !is_old_jamo(code)
}

/// Returns whether a label may have a character, in some place.
pub(crate) fn is_permitted(character: char) -> bool
    ensures permitted { result ≡ spec.is_permitted character }
{
    let code = u32::from(character);
    is_valid_exception(code)
        || is_contextual_exception(code)
        || !is_disallowed_exception(code)
            && (is_ldh(code) || is_joiner(code) || is_stable_letter(character))
}
