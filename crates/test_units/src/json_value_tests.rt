//! Numbers and equality of JSON values, at their edges.
use json_decimals::is_multiple_of;
use json_values::{
    HeldValue, are_all_distinct, are_all_distinct_by_pairs, compare, is_equal, is_integer_valued,
};
use schema_reports::OutOfMemory;
use serde_json::{Number, Value};
use std::alloc::Global;
use std::cmp::Ordering;
use test_rows::{column, list_at, text_at};

/// Returns the word for an answer.
fn yes_or_no(answer: bool) -> &'static str {
    if answer { "yes" } else { "no" }
}

/// Returns the word for an order.
fn order_word(order: Ordering) -> &'static str {
    match order {
        Ordering::Less => "less",
        Ordering::Equal => "equal",
        Ordering::Greater => "greater",
    }
}

/// Returns the answer to the question of a row about two numbers.
fn of_numbers(question: &str, left: &Number, right: &Number) -> &'static str {
    match question {
        "order" => order_word(compare(left, right)),
        _ => yes_or_no(is_multiple_of(left, right)),
    }
}

/// Returns whether all items are distinct, by both methods.
fn of_items(alloc: Global, items: &[Value]) -> Result<&'static str, OutOfMemory> {
    let distinct = are_all_distinct(alloc, items)?;
    if distinct != are_all_distinct_by_pairs(items) {
        return Ok("two ways differ");
    }
    Ok(yes_or_no(distinct))
}

/// Adds the text of a copy of a held value, and two comparisons.
///
/// They are whether the copy equals the other value, and whether it is the text `x`.
fn push_held(
    alloc: Global,
    value: &Value,
    other: &Value,
    log: &mut String,
) -> Result<(), OutOfMemory> {
    let held = HeldValue::of(alloc, value)?.clone()?;
    let text = held.text(alloc)?;
    let equal = yes_or_no(held.equals(other));
    let is_x = yes_or_no(held.equals_text("x"));
    drop(held);
    write!(log, "{text} {equal} {is_x}")
}

/// Adds the answer for a row.
///
/// Column 1 is the question, and columns 2 and 3 are its arguments.
pub(crate) fn tell_values(alloc: Global, row: &Value, log: &mut String) -> Result<(), OutOfMemory> {
    let (left, right) = (column(row, 2), column(row, 3));
    match text_at(row, 1) {
        "whole" => log.push_str(yes_or_no(is_integer_valued(left))),
        "equal" => log.push_str(yes_or_no(is_equal(left, right))),
        "distinct" => log.push_str(of_items(alloc, list_at(row, 2))?),
        "held" => push_held(alloc, left, right, log),
        question => match (left.as_number(), right.as_number()) {
            (Some(left), Some(right)) => log.push_str(of_numbers(question, left, right)),
            _ => log.push_str("no numbers"),
        },
    }
}

// The answer, the question, and one value or two. `multiple` has the rows of the official test
// suite's `multipleOf.json` and `float-overflow.json` too.
pub(crate) const VALUES: &str = r##"[
["greater", "order", 9007199254740993, 9007199254740992.0],
["less", "order", 9007199254740991, 9007199254740992.0],
["equal", "order", 9007199254740992, 9007199254740992.0],
["less", "order", -9007199254740993, -9007199254740992.0],
["less", "order", 18446744073709551615, 18446744073709551616.0],
["less", "order", 18446744073709551615, 1e300],
["equal", "order", -9223372036854775808, -9223372036854775808.0],
["greater", "order", -9223372036854775808, -1e300],
["equal", "order", 0, -0.0],
["less", "order", 0, 5e-324],
["less", "order", -1, -5e-324],
["less", "order", -1, 18446744073709551615],
["greater", "order", 3, 2.5],
["less", "order", -3, -2.5],
["less", "order", 1.5, 2],
["greater", "order", -2.5, -3],
["less", "order", 0.1, 0.2],
["yes", "whole", 1],
["yes", "whole", -7],
["yes", "whole", 18446744073709551615],
["yes", "whole", 1.0],
["yes", "whole", -0.0],
["yes", "whole", 1e300],
["yes", "whole", 9007199254740992.0],
["no", "whole", 1.5],
["no", "whole", -0.5],
["no", "whole", 5e-324],
["no", "whole", 4503599627370495.5],
["no", "whole", "1"],
["yes", "multiple", 10, 2],
["no", "multiple", 7, 2],
["yes", "multiple", -10, 5],
["yes", "multiple", 4.5, 1.5],
["no", "multiple", 35, 1.5],
["yes", "multiple", 0, 1.5],
["yes", "multiple", 1e308, 0.5],
["no", "multiple", 1e308, 0.123456789],
["yes", "multiple", 9007199254740993, 3],
["no", "multiple", 9007199254740993, 9007199254740992.0],
["yes", "multiple", 18446744073709551615, 2.5],
["no", "multiple", 18446744073709551614, 2.5],
["yes", "multiple", 1e300, 1125899906842624],
["no", "multiple", 2.0, 4],
["yes", "multiple", 5e-324, 5e-324],
["yes", "multiple", 1, 5e-324],
["no", "multiple", 5e-324, 1],
["no", "multiple", 3, 0],
["yes", "multiple", 19.99, 0.01],
["yes", "multiple", 0.0075, 0.0001],
["yes", "multiple", 4.35, 0.01],
["no", "multiple", 0.30000000000000004, 0.1],
["no", "multiple", 1e18, 7],
["no", "multiple", 5e-324, 2],
["yes", "multiple", 1e300, 1e-300],
["no", "multiple", 1e-300, 1e300],
["yes", "multiple", 2.2250738585072014e-308, 2.2250738585072014e-308],
["no", "multiple", 2.2250738585072014e-308, 2.2250738585072011e-308],
["yes", "multiple", 123456789.012345, 0.000001],
["no", "multiple", 0.00751, 0.0001],
["yes", "multiple", 12391239123, 1e-8],
["yes", "equal", 1, 1.0],
["no", "equal", 1, true],
["no", "equal", 0, false],
["no", "equal", 9007199254740993, 9007199254740992.0],
["yes", "equal", [1, 2], [1.0, 2.0]],
["no", "equal", [1, 2], [2, 1]],
["no", "equal", [1, 2], [1, 2, 3]],
["yes", "equal", {"a": 1, "b": [null]}, {"b": [null], "a": 1.0}],
["no", "equal", {"a": 1}, {"a": 1, "b": 2}],
["no", "equal", {"a": 1, "b": 2}, {"a": 1}],
["no", "equal", {"a": 1}, {"b": 1}],
["yes", "equal", "a", "a"],
["no", "equal", null, false],
["yes", "distinct", []],
["yes", "distinct", [1, 2, true]],
["no", "distinct", [1, 2, 1.0]],
["no", "distinct", [{"a": 1}, {"a": 1.00}]],
["yes", "distinct", [[1], [2], [1, 2]]],
["yes", "distinct", [0, 1, 2, 3, 4, 5, 6, 7, 8, 0.5]],
["no", "distinct", [0, 1, 2, 3, 4, 5, 6, 7, 8, 4.0]],
["yes", "distinct", ["a", "b", "c", "d", "e", "f", "g", "h", "i"]],
["no", "distinct", ["a", "b", "c", "d", "e", "f", "g", "h", "a"]],
["no", "distinct", [0, 1, 2, 3, 4, 5, 6, 7, 8, "0", [9], [9.0]]],
["{\"a\":null,\"b\":[1,\"x\"]} yes no", "held", {"b": [1, "x"], "a": null}, {"a": null, "b": [1.0, "x"]}],
["\"x\" no yes", "held", "x", "y"],
["\"y\" yes no", "held", "y", "y"]
]"##;
