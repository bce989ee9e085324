//! Templates of uniform resource identifiers. (RFC 6570, section 2)
ghost use Rattle.std.specs.Prelude.{◌≡◌};
ghost use Rattle.std.specs.List.{list_all};
ghost use Rattle.text_formats.specs.Cutting as Cutting;
ghost use Rattle.text_formats.specs.Templates as spec;

use crate::characters::are_digits;
use crate::cutting::cut;
use crate::iris::are_of_query;
use crate::parts::Part;
use crate::uris::Class;

// Returns whether no dot is first, last or beside another dot.
fn are_dots_apart(text: &[u8]) -> bool
    ensures apart { result ≡ spec.are_dots_apart text.now }
{
    let mut rest = text;
    loop {
        match rest {
            [] | [b'.', ..] => return false,
            [_] => return true,
            [_, b'.', left @ ..] => rest = left,
            [_, left @ ..] => rest = left,
        }
    }
}

// Returns whether a text is the name of a variable: letters, digits, underscores and
// percent-encoded octets, with single dots between them.
fn is_name(text: &[u8]) -> bool
    ensures name { result ≡ spec.is_name text.now }
{
    Class::Variable.makes(false, text) && are_dots_apart(text)
}

// Returns whether a text is a number from 1 to 9999 without a leading zero.
fn is_max_length(text: &[u8]) -> bool
    ensures length { result ≡ spec.is_max_length text.now }
{
    match text {
        [first, rest @ ..] => matches!(*first, b'1'..=b'9') && rest.len() <= 3 && are_digits(rest),
        [] => false,
    }
}

fn is_exploded(text: &[u8]) -> bool
    ensures exploded { result ≡ spec.is_exploded text.now (Cutting.cut 42 text.now) }
{
    match cut(text, b'*') {
        Some((name, rest)) => is_name(name) && rest.is_empty(),
        None => is_name(text),
    }
}

// Returns whether a text is the name of a variable, with its modifier if it has one.
pub(crate) fn is_variable(text: &[u8]) -> bool
    ensures variable { result ≡ spec.is_variable text.now }
{
    match cut(text, b':') {
        Some((name, length)) => is_name(name) && is_max_length(length),
        None => is_exploded(text),
    }
}

fn is_operator(byte: u8) -> bool
    ensures operator { result ≡ spec.is_operator byte }
{
    b"+#./;?&=,!@|".contains(&byte)
}

fn past_operator(text: &[u8]) -> &[u8]
    ensures past { result.now ≡ spec.past_operator text.now }
{
    match text {
        [first, rest @ ..] if is_operator(*first) => rest,
        _ => text,
    }
}

// Returns whether a text may be between the braces of an expression.
fn are_variables(text: &[u8]) -> bool
    ensures variables { result ≡ spec.are_variables text.now }
{
    Part::Variable.is_each(past_operator(text), b',')
}

// Returns whether a text is the rest of an expression after its opening brace, and then literals.
fn is_after_brace(text: &[u8]) -> bool
    ensures after { result ≡ spec.is_after_brace text.now }
{
    match cut(text, b'}') {
        Some((variables, literals)) => {
            are_variables(variables) && Class::Literal.makes(true, literals)
        }
        None => false,
    }
}

#[tactic(auto, using(crate::proofs::Parting::each_after, crate::proofs::Parting::each_alone))]
fn are_after_braces(text: &[u8]) -> bool
    ensures each { result ≡ list_all spec.is_after_brace (Cutting.parts 123 text.now) }
{
    let mut rest = text;
    while let Some((part, left)) = cut(rest, b'{') {
        if !is_after_brace(part) {
            return false;
        }
        rest = left;
    }
    is_after_brace(rest)
}

fn is_cut_as_template(text: &[u8]) -> bool
    ensures template { result ≡ spec.is_cut_as_template text.now (Cutting.cut 123 text.now) }
{
    match cut(text, b'{') {
        Some((literals, rest)) => Class::Literal.makes(true, literals) && are_after_braces(rest),
        None => Class::Literal.makes(true, text),
    }
}

/// Returns whether a text is a URI template, of any level.
///
/// An example is `http://example.com/~{user}/`.
pub fn is_uri_template(text: &str) -> bool
    ensures template { result ≡ spec.is_template text.now }
{
    is_cut_as_template(text.as_bytes()) && are_of_query(text)
}
