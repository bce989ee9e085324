//! Entries of keywords, in order of priority; those of one priority keep their order.
ghost use Rattle.std.specs.Prelude.{◌≡◌, ◌≤◌, IfOk, None, map, length, option_map, string_bytes, OnOk};
ghost use Rattle.schema_traits.specs.MakerViews.{name_of};
ghost use Rattle.schema_traits.specs.Showing.{Shows, Yields};
ghost use Rattle.schema_node_table.specs.NodeViews.{entry_of, form_of, plan_of};
ghost use Rattle.schema_compiler.specs.Heads.{IsPlaceFor, IsPlaced, part_with};
ghost use Rattle.schema_compiler.specs.Steps.{alone};

use crate::compiler::compilation::PlannedNode;
use schema_node_table::{Entry, EntryForm, KeywordName, NodeForm};
use schema_reports::OutOfMemory;
use schema_traits::KeywordOrigin;
use std::alloc::Global;

/// What is known of an entry before its keyword is made.
#[derive(Clone, Copy)]
pub(crate) struct EntryHead<'n> {
    pub(crate) origin: KeywordOrigin<'n>,
    /// The keyword's name, as the schema has it.
    pub(crate) name: &'n String,
    pub(crate) priority: u8,
    pub(crate) is_leaf: bool,
}

// The index after the leading keywords with this priority or a lower one.
fn place_for<K>(entries: &[Entry<K>], priority: u8) -> usize
    ensures within { result ≤ length entries.now }
    ensures place { IsPlaceFor priority (map entry_of entries.now) result }
{
    entries
        .iter()
        .position(|entry| entry.priority > priority)
        .unwrap_or(entries.len())
}

/// Inserts a keyword at its place.
pub(crate) fn insert_by_priority<K: Drop>(
    entries: &mut Vec<Entry<K>>,
    entry: Entry<K>,
) -> Result<(), OutOfMemory>
    ensures placed { OnOk result (IsPlaced entry entries.old.items entries.new.items) }
{
    let place = place_for(entries.as_slice(), entry.priority);
    entries.insert(place, entry)?;
    Ok(())
}

// The name of a keyword. It is not copied if the keyword is one of the standard.
fn name_for(origin: KeywordOrigin<'_>, name: &String) -> Result<KeywordName, OutOfMemory>
    requires named { name_of origin ≡ string_bytes name.now }
    ensures name { Yields result (string_bytes name.now) }
{
    match origin {
        KeywordOrigin::Own(_) => KeywordName::copied(name),
        KeywordOrigin::Builtin(entry) => Ok(KeywordName::known(entry.keyword)),
    }
}

/// Returns the entry with this head and form.
pub(crate) fn entry_named<K: Drop>(
    head: EntryHead<'_>,
    form: EntryForm<K>,
) -> Result<Entry<K>, OutOfMemory>
    requires named { name_of head.origin ≡ string_bytes head.name.now }
    ensures entry { Shows entry_of result (part_with head.entry (form_of form)) }
{
    Ok(Entry {
        name: name_for(head.origin, head.name)?,
        priority: head.priority,
        is_leaf: head.is_leaf,
        form,
    })
}

/// Returns the plan of a node with one keyword.
///
/// Without a keyword, the node accepts everything.
pub(crate) fn node_alone<K: Drop>(
    alloc: Global,
    entry: Option<Entry<K>>,
) -> Result<PlannedNode<K>, OutOfMemory>
    ensures plan { IfOk result (λ n. plan_of n.form ≡ alone (option_map entry_of entry)) }
    ensures annotations { IfOk result (λ n. n.annotations ≡ None) }
{
    let form = match entry {
        Some(entry) => {
            let mut entries = Vec::new(alloc);
            entries.push(entry)?;
            NodeForm::Keywords(entries)
        }
        None => NodeForm::Always,
    };
    Ok(PlannedNode {
        form,
        annotations: None,
    })
}
