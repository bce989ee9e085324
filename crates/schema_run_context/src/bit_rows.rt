//! Rows of bits, one for each node number.
ghost use Rattle.std.specs.Prelude.{◌≡◌, ◌<◌, ◌+◌, ◌*◌, ◌/◌, ◌==◌, [], ℕ, OnErr, OnOk, false, if◌then◌else◌, length, slice_index_or};
ghost use Rattle.std.specs.Int.{bit_at};
ghost use Rattle.std.specs.Vec.{vec_len};
ghost use Rattle.schema_run_context.specs.Progress.{row_words};
ghost use Rattle.schema_run_context.specs.RowViews.{rows_of};
ghost use Rattle.schema_run_context.specs.Rows.{MakesRow, PutsBit, SameRows, has_bit, has_words, row_in, verdict_in};

use schema_reports::OutOfMemory;
use std::alloc::Global;
use std::marker::Model;

/// Rows of bits by the numbers of nodes, in words of 64 bits.
///
/// A number without a row is stored as a row of no words: below the greatest number that has a row,
/// each such number takes the memory of three words. Contracts see the list of the rows.
#[derive(Drop)]
pub struct Rows {
    rows: Vec<Vec<u64>>,
}

impl Model for Rows {
    ghost use Rattle.std.specs.Prelude.{List, ℕ};
    ghost use Rattle.schema_run_context.specs.RowViews.{rows_of};

    ghost Value = { List (List ℕ) };

    ghost view = { λ r. rows_of r.rows.items };
}

/// Returns the number of words in a row with one bit for each place.
pub fn row_words(places: usize) -> usize
    ensures words { result ≡ row_words places }
{
    places.div_ceil(64)
}

// Returns a bit of the word at an index. Past the end of the row every bit is clear.
fn bit_in(words: &[u64], at: usize, bit: usize) -> bool
    requires within { bit < 64 }
    ensures bit { result ≡ (bit_at (slice_index_or words.now at 0) bit == 1) }
{
    match words.get(at) {
        Some(word) => (*word >> bit) & 1 == 1,
        None => false,
    }
}

// Returns the verdict at a place. The first half of the row has the places whose verdict is known,
// and the second half has the verdicts.
fn verdict_of_row(words: &[u64], place: usize) -> Option<bool>
    ensures verdict { result ≡ verdict_in words.now place }
{
    if bit_in(words, place / 64, place % 64) {
        Some(bit_in(words, words.len() / 2 + place / 64, place % 64))
    } else {
        None
    }
}

// Adds empty rows, so that all numbers up to this one have one. On `Err` nothing has changed.
fn make_room(alloc: Global, rows: &mut Vec<Vec<u64>>, node: usize) -> Result<(), OutOfMemory>
    ensures room { OnOk result (node < vec_len rows.new) }
    ensures same { OnOk result (SameRows (rows_of rows.old.items) (rows_of rows.new.items)) }
    ensures unchanged { OnErr result (rows.new.items ≡ rows.old.items) }
{
    if node < rows.len() {
        return Ok(());
    }
    rows.resize_with(
        node.saturating_add(1),
        || -> Vec<u64>
            ensures { result.items ≡ [] }
        { Vec::new(alloc) },
    )?;
    Ok(())
}

fn with_bit(word: u64, bit: usize, on: bool) -> u64
    requires within { bit < 64 }
    ensures bits { (k : ℕ) → k < 64 → (bit_at result k == 1) ≡ (if bit == k then on else bit_at word k == 1) }
{
    let mask = 1u64 << bit;
    if on { word | mask } else { word & !mask }
}

impl Rows {
    /// Returns an empty list of rows. Allocates nothing.
    pub fn new(alloc: Global) -> Rows
        ensures empty { result ≡ [] }
    {
        Rows {
            rows: Vec::new(alloc),
        }
    }

    /// Removes all rows. Allocates nothing.
    pub fn clear(&mut self)
        ensures empty { self.new ≡ [] }
    {
        self.rows.clear();
    }

    /// Returns the bit of a place in the row of a number. Allocates nothing.
    ///
    /// If the number has no row, the bit is clear.
    pub fn has_bit(&self, node: usize, place: usize) -> bool
        ensures bit { result ≡ has_bit (row_in self.now node) place }
    {
        match self.rows.get(node) {
            Some(words) => bit_in(words.as_slice(), place / 64, place % 64),
            None => false,
        }
    }

    /// Returns the verdict at a place in the row of a number, if it is known.
    ///
    /// The first half of the row has the places whose verdict is known, and the second half has the
    /// verdicts. Allocates nothing.
    pub fn verdict_in(&self, node: usize, place: usize) -> Option<bool>
        ensures verdict { result ≡ verdict_in (row_in self.now node) place }
    {
        match self.rows.get(node) {
            Some(words) => verdict_of_row(words.as_slice(), place),
            None => None,
        }
    }

    fn has_row(&self, node: usize) -> bool
        ensures row { result ≡ has_words (row_in self.now node) }
    {
        match self.rows.get(node) {
            Some(words) => !words.is_empty(),
            None => false,
        }
    }

    /// Adds a row of this many words for a number, unless it has a row.
    ///
    /// # Errors
    ///
    /// Out of memory. Then nothing has changed.
    #[inline(always)]
    pub fn make_row(&mut self, alloc: Global, node: usize, words: usize) -> Result<(), OutOfMemory>
        requires some { 0 < words }
        ensures made { OnOk result (MakesRow node words self.old self.new) }
        ensures unchanged { OnErr result (self.new ≡ self.old) }
    {
        if self.has_row(node) {
            return Ok(());
        }
        self.add_row(alloc, node, words)
    }

    // Adds a row for a number that has none. Not inlined, so that a number that has a row costs no
    // call.
    #[inline(never)]
    fn add_row(&mut self, alloc: Global, node: usize, words: usize) -> Result<(), OutOfMemory>
        requires some { 0 < words }
        requires none { has_words (row_in self.old node) ≡ false }
        ensures made { OnOk result (MakesRow node words self.old self.new) }
        ensures unchanged { OnErr result (self.new ≡ self.old) }
    {
        let row = Vec::from_elem(alloc, 0u64, words)?;
        make_room(alloc, &mut self.rows, node)?;
        self.rows[node] = row;
        Ok(())
    }

    /// Sets or clears the bit of a place in the row of a number.
    ///
    /// The bits of the places begin at the word `from` of the row. Allocates nothing.
    pub fn put_bit(&mut self, node: usize, from: usize, place: usize, on: bool)
        requires there { from + place / 64 < length (row_in self.old node) }
        ensures put { PutsBit node (64 * from + place) on self.old self.new }
    {
        if let Some(words) = self.rows.get_mut(node) {
            let at = from + place / 64;
            let word = with_bit(words[at], place % 64, on);
            words[at] = word;
        }
    }
}
