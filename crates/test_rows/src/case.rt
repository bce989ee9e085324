//! The members of a case.
ghost use Rattle.std.specs.Prelude.{◌≡◌, ◌≤◌, IfNone, IfSome, None, Some, codes, option_and_then, option_map, unwrap_or};
ghost use Rattle.serde_json.specs.Find.{as_bool, as_str, get};
ghost use Rattle.serde_json.specs.View.{items_view, view};
ghost use Rattle.test_rows.specs.Calls.{call_in};
ghost use Rattle.test_rows.specs.Cases.{IsNoCase, case_in, is_asked_by, table_in, table_named, table_of};
ghost use Rattle.test_rows.specs.Members.{count_in, draft_in, draft_numbered, list_of, number_of, runs_in};

use crate::call::Call;
use schema_drafts::Draft;
use serde_json::Value;

/// A keyword table.
#[derive(Clone, Copy, PartialEq, Eq)]
pub enum Table {
    /// The table of `bench_parts`.
    Bench,
    /// The table of `example_fused_keywords`, where `items` absorbs two others.
    Fused,
    /// The table of `x-items` in `test_laws`.
    Items,
    /// The table of `example_keywords`.
    ///
    /// It has `x-suffix`, `x-both` and `x-contains-between`. For all other names it is the table of
    /// `bench_parts`.
    Strings,
    /// The table of `standard_keywords`, which makes the standard's keywords.
    Standard,
}

impl Table {
    /// Returns the table of this name, if there is one. Does not allocate.
    pub fn named(name: &str) -> Option<Table>
        ensures named { result ≡ table_named name.now }
    {
        match name {
            "bench" => Some(Table::Bench),
            "fused" => Some(Table::Fused),
            "items" => Some(Table::Items),
            "strings" => Some(Table::Strings),
            "standard" => Some(Table::Standard),
            _ => None,
        }
    }
}

/// A case. Its values are borrowed.
#[derive(Clone, Copy)]
pub struct Case<'c> {
    pub call: Call,
    pub table: Table,
    pub schema: &'c Value,
    /// The schema again, if the case has no instance.
    pub instance: &'c Value,
    /// The object that the case was read from.
    pub members: &'c Value,
}

impl<'c> Case<'c> {
    /// Reads an object as a case, or returns `None` if it is not a case.
    ///
    /// It is not a case if it has no schema, if its member `call` does not name a call, if it has a
    /// member `table` that does not name a table, or if it requests clones with a table other than
    /// that of `bench_parts`. Does not allocate.
    pub fn read(members: &'c Value) -> Option<Case<'c>>
        ensures schema { IfSome result (λ c. get (codes "schema") (view members.now) ≡ Some (view c.schema.now)) }
        ensures instance { IfSome result (λ c. view c.instance.now
            ≡ unwrap_or (get (codes "instance") (view members.now)) (view c.schema.now)) }
        ensures call { IfSome result (λ c. call_in (view members.now) ≡ Some c.call) }
        ensures table { IfSome result (λ c. table_in (view members.now) ≡ Some c.table) }
        ensures case { option_map (λ c. c.call) result ≡ case_in (view members.now) }
        ensures members { IfSome result (λ c. view c.members.now ≡ view members.now) }
        ensures wrong { IfNone result (IsNoCase (view members.now)) }
        ensures lacking { IsNoCase (view members.now) → result ≡ None }
    {
        let schema = members.get("schema")?;
        let instance = members.get("instance").unwrap_or(schema);
        let call = Call::named(members.get("call").and_then(Value::as_str)?)?;
        let table = table_of(members.get("table"))?;
        if !is_asked_by(call, table) {
            return None;
        }
        Some(Case {
            call,
            table,
            schema,
            instance,
            members,
        })
    }

    /// Returns the text of the member with this name.
    pub fn text(&self, name: &str) -> Option<&'c str>
        ensures text { option_map (λ t. t.now) result ≡ option_and_then as_str (get name.now (view self.now.members.now)) }
    {
        self.members.get(name).and_then(Value::as_str)
    }

    /// Returns the boolean of the member with this name.
    pub fn truth(&self, name: &str) -> Option<bool>
        ensures truth { result ≡ option_and_then as_bool (get name.now (view self.now.members.now)) }
    {
        self.members.get(name).and_then(Value::as_bool)
    }

    /// Returns the whole number, from 0, of the member with this name.
    pub fn count(&self, name: &str) -> Option<usize>
        ensures count { result ≡ count_in (get name.now (view self.now.members.now)) }
    {
        let number = self.members.get(name).and_then(Value::as_u64)?;
        usize::try_from(number).ok()
    }

    /// Returns the number of runs of the member with this name.
    ///
    /// It is a whole number from 1, of at most 32 bits.
    pub fn runs(&self, name: &str) -> Option<u32>
        ensures runs { result ≡ runs_in (get name.now (view self.now.members.now)) }
        ensures some { IfSome result (λ n. 1 ≤ n) }
    {
        let number = self.members.get(name).and_then(Value::as_u64)?;
        let runs = u32::try_from(number).ok()?;
        if runs == 0 {
            return None;
        }
        Some(runs)
    }

    /// Returns the draft whose number is the member with this name.
    pub fn draft(&self, name: &str) -> Option<Draft>
        ensures draft { result ≡ draft_in (get name.now (view self.now.members.now)) }
    {
        draft_numbered(self.members.get(name).and_then(Value::as_u64)?)
    }

    /// Returns the items of the list of the member with this name, or nothing.
    pub fn list(&self, name: &str) -> &'c [Value]
        ensures list { items_view result.now ≡ list_of (get name.now (view self.now.members.now)) }
    {
        match self.members.get(name).and_then(Value::as_array) {
            Some(items) => items.as_slice(),
            None => &[],
        }
    }
}

// Returns whether a table supports a call. Only that of `bench_parts` supports clones; every table
// supports all other calls.
fn is_asked_by(call: Call, table: Table) -> bool
    ensures asked { result ≡ is_asked_by call table }
{
    match call {
        Call::Clones(_) => table == Table::Bench,
        _ => true,
    }
}

// Returns the table that a member names, or that of `bench_parts` if there is no member.
fn table_of(name: Option<&Value>) -> Option<Table>
    ensures table { result ≡ table_of (option_map (λ v. view v.now) name.entry) }
{
    match name {
        None => Some(Table::Bench),
        Some(name) => Table::named(name.as_str()?),
    }
}

fn draft_numbered(number: u64) -> Option<Draft>
    ensures draft { result ≡ draft_numbered number }
{
    match number {
        4 => Some(Draft::Draft4),
        6 => Some(Draft::Draft6),
        7 => Some(Draft::Draft7),
        2019 => Some(Draft::Draft201909),
        2020 => Some(Draft::Draft202012),
        _ => None,
    }
}

/// Returns the number of a draft, or 0 for an unknown one.
pub fn number_of(draft: Draft) -> u64
    ensures number { result ≡ number_of draft }
{
    match draft {
        Draft::Draft4 => 4,
        Draft::Draft6 => 6,
        Draft::Draft7 => 7,
        Draft::Draft201909 => 2019,
        Draft::Draft202012 => 2020,
        Draft::Unknown => 0,
    }
}
