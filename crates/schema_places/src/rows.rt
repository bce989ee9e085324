//! A table with one row for each place.
//!
//! The row of a place holds the number of the last place at or below it, and the places one step
//! below it.
ghost use Rattle.std.specs.Prelude.{◌≡◌, ◌<◌, ◌≤◌, ◌-◌, ◌+◌, ◌++◌, ◌∷◌, [], OnErr, OnOk};
ghost use Rattle.std.specs.Prelude.{bytes_eq, length, slice_range, slice_set};
ghost use Rattle.schema_reports.specs.Showing.{Yields};
ghost use Rattle.std.specs.Cmp.Lexicographic.{slice_cmp};
ghost use Rattle.std.specs.Ordering.{nat_cmp};
ghost use Rattle.schema_reports.specs.InstanceViews.{step_of};
ghost use Rattle.schema_places.specs.Rows.{Rising, RisesBelow, Walks, items_below, laid, last_in, leads_of, leads_to_items};
ghost use Rattle.schema_places.specs.Rows.{leads_to_names, led_by, members_below, named_by, nothing};
ghost use Rattle.schema_places.specs.Rows.{number_of_name, numbers_from, own_name, row_in};
ghost use Rattle.schema_places.specs.RowViews.{AllSmall, last_at, text_at};

use schema_reports::{InstanceStep, OutOfMemory};
use std::alloc::Global;
use std::cmp::Ordering;
use std::marker::Model;

/// The places one step below a place: none, items, or names and members.
///
/// The two indices bound the numbers of the items, or of the names, in the table's list of numbers.
/// A member has the number after its name's. Nothing is below a name, and its row holds the name.
#[derive(Clone, Copy)]
enum Below<'i> {
    Nothing,
    Items(usize, usize),
    Members(usize, usize),
    Name(&'i str),
}

/// What the table holds for a place.
///
/// `last` is the number of the last place at or below it, and `below` has the places one step
/// below.
#[derive(Clone, Copy)]
struct Row<'i> {
    last: usize,
    below: Below<'i>,
}

/// The rows of places, in the order of the places' numbers.
///
/// `numbers` holds the numbers of the items of all arrays and of the names of all objects, one
/// array or object after another; the names of an object are ordered by their bytes. Contracts see
/// the content of each row.
#[derive(Drop)]
pub(crate) struct Table<'i> {
    rows: Vec<Row<'i>>,
    numbers: Vec<usize>,
}

impl<'i> Model for Table<'i> {
    ghost use Rattle.std.specs.Prelude.{List};
    ghost use Rattle.schema_places.specs.Rows.{Laid};

    ghost Value = { List Laid };

    ghost use Rattle.schema_places.specs.RowViews.{AreRows, rows_of};

    ghost view = { λ t. rows_of t.numbers.items t.rows.items };

    ghost invariant = { λ t. AreRows t.numbers.items t.rows.items };
}

// Up to this many names are searched one by one. More are searched by bisection.
const FEW_NAMES: usize = 8;

// A name of up to this many bytes is compared byte by byte. A longer one is compared by words.
const SHORT_NAME: usize = 7;

fn numbers_between(numbers: &[usize], from: usize, to: usize) -> &[usize]
    requires order { from ≤ to }
    requires end { to ≤ length numbers.now }
    ensures part { result.now ≡ slice_range numbers.now from to }
{
    &numbers[from..to]
}

fn child_of_items(numbers: &[usize], step: InstanceStep<'_>) -> Option<usize>
    ensures child { result ≡ led_by (step_of step.entry) (leads_to_items 0 numbers.now) }
{
    match step {
        InstanceStep::Item(index) => numbers.get(index).copied(),
        InstanceStep::Member(_) => None,
        InstanceStep::NameOf(_) => None,
    }
}

fn child_of_members(rows: &[Row<'_>], numbers: &[usize], step: InstanceStep<'_>) -> Option<usize>
    requires rising { Rising (named_by (text_at rows.now) numbers.now) }
    requires small { AllSmall numbers.now }
    ensures child { result ≡ led_by (step_of step.entry) (leads_to_names (named_by (text_at rows.now) numbers.now)) }
{
    match step {
        InstanceStep::Item(_) => None,
        InstanceStep::Member(name) => match number_of(rows, numbers, name) {
            Some(number) => Some(number + 1),
            None => None,
        },
        InstanceStep::NameOf(name) => number_of(rows, numbers, name),
    }
}

// Returns the name in the row with a number, or an empty one if the row holds no name.
fn name_in<'i>(rows: &[Row<'i>], number: usize) -> &'i str
    ensures name { result.now ≡ text_at rows.now number }
{
    match rows.get(number) {
        Some(row) => match row.below {
            Below::Name(name) => name,
            _ => "",
        },
        None => "",
    }
}

// Compares two short names byte by byte.
fn is_same(one: &str, other: &str) -> bool
    ensures same { result ≡ bytes_eq one.now other.now }
{
    one.len() == other.len() && are_same_bytes(one.as_bytes(), other.as_bytes())
}

fn are_same_bytes(one: &[u8], other: &[u8]) -> bool
    requires long { length one.now ≡ length other.now }
    ensures same { result ≡ bytes_eq one.now other.now }
{
    for index in 0..one.len() {
        if one[index] != other[index] {
            return false;
        }
    }
    true
}

#[inline(always)]
fn number_of(rows: &[Row<'_>], numbers: &[usize], name: &str) -> Option<usize>
    requires rising { Rising (named_by (text_at rows.now) numbers.now) }
    ensures number { result ≡ number_of_name name.now (named_by (text_at rows.now) numbers.now) }
{
    if numbers.len() > FEW_NAMES {
        return number_by_halves(rows, numbers, name);
    }
    if name.len() > SHORT_NAME {
        return number_by_turns(rows, numbers, name);
    }
    for number in numbers {
        if is_same(name, name_in(rows, *number)) {
            return Some(*number);
        }
    }
    None
}

// Like `number_of`, for a long name. Not inlined, so that a short one does not pay for its stack
// frame.
#[inline(never)]
fn number_by_turns(rows: &[Row<'_>], numbers: &[usize], name: &str) -> Option<usize>
    ensures number { result ≡ number_of_name name.now (named_by (text_at rows.now) numbers.now) }
{
    for number in numbers {
        if name == name_in(rows, *number) {
            return Some(*number);
        }
    }
    None
}

// Like `number_of`, by bisection.
#[inline(never)]
fn number_by_halves(rows: &[Row<'_>], numbers: &[usize], name: &str) -> Option<usize>
    requires rising { Rising (named_by (text_at rows.now) numbers.now) }
    ensures number { result ≡ number_of_name name.now (named_by (text_at rows.now) numbers.now) }
{
    let found = numbers.binary_search_by(
        |number: &usize| -> Ordering
            ensures { result ≡ slice_cmp nat_cmp (text_at rows.entry.now number.now) name.entry.now }
        { name_in(rows, *number).cmp(name) },
    );
    match found {
        Ok(index) => Some(numbers[index]),
        Err(_) => None,
    }
}

// Adds the numbers of `count` places that follow one another below a place, beginning with `first`.
// The gap is 0 for items. It is 1 for names, because each is followed by its member.
fn push_numbers(
    rows: &[Row<'_>],
    numbers: &mut Vec<usize>,
    first: usize,
    count: usize,
    gap: usize,
) -> Result<(), OutOfMemory>
    requires walk { Walks (last_at rows.now) (length rows.now) gap first count }
    requires small { length rows.now < 9223372036854775808 }
    ensures pushed { OnOk result (numbers.new.items ≡ numbers.old.items ++ numbers_from (last_at rows.now) gap first count) }
    ensures unchanged { OnErr result (numbers.new.items ≡ numbers.old.items) }
{
    numbers.reserve(count)?;
    let mut number = first;
    for _ in 0..count {
        numbers.push_reserved(number);
        number = rows[number + gap].last + 1;
    }
    Ok(())
}

impl<'i> Table<'i> {
    /// Returns a table without rows, with room for this many rows and numbers.
    pub(crate) fn with_room(
        alloc: Global,
        rows: usize,
        numbers: usize,
    ) -> Result<Table<'i>, OutOfMemory>
        ensures empty { Yields result [] }
    {
        let numbers = Vec::with_capacity(alloc, numbers)?;
        let rows = Vec::with_capacity(alloc, rows)?;
        Ok(Table { rows, numbers })
    }

    /// Returns the number of rows.
    pub(crate) fn len(&self) -> usize
        ensures count { result ≡ length self.now }
        ensures small { result < 9223372036854775808 }
    {
        self.rows.len()
    }

    /// Returns the number of the last place at or below the one with this number.
    pub(crate) fn last(&self, place: usize) -> usize
        requires known { place < length self.now }
        ensures last { result ≡ (row_in self.now place).last }
    {
        self.rows[place].last
    }

    /// Returns the number of the place that the step leads to, if it exists.
    #[inline(always)]
    pub(crate) fn child(&self, place: usize, step: InstanceStep<'_>) -> Option<usize>
        requires known { place < length self.now }
        requires rising { RisesBelow self.now (row_in self.now place).below }
        ensures child { result ≡ led_by (step_of step.entry) (leads_of self.now (row_in self.now place).below) }
    {
        match self.rows[place].below {
            Below::Nothing => None,
            Below::Items(from, to) => {
                child_of_items(numbers_between(self.numbers.as_slice(), from, to), step)
            }
            Below::Members(from, to) => child_of_members(
                self.rows.as_slice(),
                numbers_between(self.numbers.as_slice(), from, to),
                step,
            ),
            Below::Name(_) => None,
        }
    }

    /// Makes room for this many more rows.
    pub(crate) fn reserve(&mut self, rows: usize) -> Result<(), OutOfMemory>
        ensures same { self.new ≡ self.old }
    {
        self.rows.reserve(rows)?;
        Ok(())
    }

    /// Adds the row of a place with nothing below it.
    pub(crate) fn push_row(&mut self) -> Result<(), OutOfMemory>
        ensures pushed { OnOk result (self.new ≡ self.old ++ laid (length self.old) nothing ∷ []) }
    {
        let number = self.rows.len();
        self.rows.push(Row {
            last: number,
            below: Below::Nothing,
        })?;
        Ok(())
    }

    /// Adds the row of a name.
    pub(crate) fn push_name(&mut self, name: &'i str) -> Result<(), OutOfMemory>
        ensures pushed { OnOk result (self.new ≡ self.old ++ laid (length self.old) (own_name name.now) ∷ []) }
    {
        let number = self.rows.len();
        self.rows.push(Row {
            last: number,
            below: Below::Name(name),
        })?;
        Ok(())
    }

    /// Fills the row of an array with `count` items.
    ///
    /// All rows after it belong to places below it.
    pub(crate) fn put_items(&mut self, place: usize, count: usize) -> Result<(), OutOfMemory>
        requires known { place < length self.old }
        requires walk { Walks (last_in self.old) (length self.old) 0 (place + 1) count }
        ensures put { OnOk result (self.new ≡ slice_set self.old place
            (laid (length self.old - 1) (items_below (numbers_from (last_in self.old) 0 (place + 1) count)))) }
    {
        let from = self.numbers.len();
        push_numbers(self.rows.as_slice(), &mut self.numbers, place + 1, count, 0)?;
        let below = Below::Items(from, self.numbers.len());
        let last_item = self.rows.len() - 1;
        self.rows[place] = Row {
            last: last_item,
            below,
        };
        Ok(())
    }

    /// Fills the row of an object with `count` members.
    ///
    /// All rows after it belong to places below it.
    pub(crate) fn put_members(&mut self, place: usize, count: usize) -> Result<(), OutOfMemory>
        requires known { place < length self.old }
        requires walk { Walks (last_in self.old) (length self.old) 1 (place + 1) count }
        ensures put { OnOk result (self.new ≡ slice_set self.old place
            (laid (length self.old - 1) (members_below (numbers_from (last_in self.old) 1 (place + 1) count)))) }
    {
        let first_name = self.numbers.len();
        push_numbers(self.rows.as_slice(), &mut self.numbers, place + 1, count, 1)?;
        let below = Below::Members(first_name, self.numbers.len());
        let last = self.rows.len() - 1;
        self.rows[place] = Row { last, below };
        Ok(())
    }
}
