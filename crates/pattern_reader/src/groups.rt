//! Which groups a text has, and their names.
ghost use Rattle.std.specs.Prelude.{◌≡◌, ◌==◌, ◌||◌, ◌++◌, IfOk, OnOk, option_map, false, map};
ghost use Rattle.pattern_characters.specs.Characters.{starts};
ghost use Rattle.pattern_trees.specs.Nodes.{Nothing, node_of};
ghost use Rattle.pattern_characters.specs.Names as names_spec;
ghost use Rattle.pattern_reader.specs.Groups as spec;
ghost use Rattle.pattern_reader.specs.Groups.{names_of, name_of};

use pattern_characters::{after, name};
use pattern_trees::Tree;
use std::alloc::{AllocError, Global};

/// The name of a group, if it has one.
#[derive(Drop)]
pub(crate) struct GroupName {
    pub(crate) name: Option<Vec<u32>>,
}

// Reads the name of a group, without what follows it.
fn name_only(alloc: Global, text: &[char]) -> Result<GroupName, AllocError>
    ensures name { IfOk result (λ n. name_of n ≡ option_map (λ p. p.0) (names_spec.name text.now)) }
{
    match name(alloc, text)? {
        Some((name, _)) => Ok(GroupName { name: Some(name) }),
        None => Ok(GroupName { name: None }),
    }
}

// Returns whether one of the signs of a lookbehind follows.
fn is_lookbehind(text: &[char]) -> bool
    ensures is { result ≡ starts (λ c. (c == 61) || (c == 33)) text.now }
{
    matches!(text, ['=' | '!', ..])
}

// Pushes the name of a group, if one follows.
fn push_named(
    alloc: Global,
    out: &mut Vec<GroupName>,
    text: Option<&[char]>,
) -> Result<(), AllocError>
    ensures named { OnOk result (names_of out.new.items ≡ names_of out.old.items ++ spec.named_group (option_map (λ t. t.now) text.entry)) }
{
    let Some(text) = text else {
        return Ok(());
    };
    if is_lookbehind(text) {
        return Ok(());
    }
    let name = name_only(alloc, text)?;
    out.push(name)?;
    Ok(())
}

// Pushes the group that begins after an opening bracket, if it captures.
fn push_group(
    alloc: Global,
    extended: bool,
    out: &mut Vec<GroupName>,
    text: &[char],
) -> Result<(), AllocError>
    ensures group { OnOk result (names_of out.new.items ≡ names_of out.old.items ++ spec.group_after extended text.now) }
{
    match text {
        ['?', 'P', rest @ ..] if extended => push_named(alloc, out, after('<', rest))?,
        ['?', rest @ ..] => push_named(alloc, out, after('<', rest))?,
        _ => out.push(GroupName { name: None })?,
    }
    Ok(())
}

// Pushes the group that begins after a character, if it is an opening bracket.
fn push_if(
    alloc: Global,
    extended: bool,
    begins: bool,
    out: &mut Vec<GroupName>,
    text: &[char],
) -> Result<(), AllocError>
    ensures group { OnOk result (names_of out.new.items ≡ names_of out.old.items ++ spec.group_if extended begins text.now) }
{
    if begins {
        push_group(alloc, extended, out, text)?;
    }
    Ok(())
}

/// Where brackets begin groups.
#[derive(Clone, Copy)]
pub(crate) struct Place {
    /// Whether a backslash stands before.
    pub(crate) escaped: bool,
    /// Whether it is in a class.
    pub(crate) in_class: bool,
}

// Returns the place after a character.
fn next_place(p: Place, c: char) -> Place
    ensures next { result ≡ spec.next_place p c }
{
    if p.escaped {
        return Place {
            escaped: false,
            in_class: p.in_class,
        };
    }
    let in_class = if p.in_class { c != ']' } else { c == '[' };
    Place {
        escaped: c == '\\',
        in_class,
    }
}

// Returns whether a character is a bracket that begins a group.
fn opens(p: Place, c: char) -> bool
    ensures opens { result ≡ spec.opens p c }
{
    !p.escaped && !p.in_class && c == '('
}

// Returns the names of the groups that a text has.
#[tactic(auto, unfolding(crate::specs::Groups::groups_from, crate::specs::Groups::groups_of))]
pub(crate) fn groups_of(
    alloc: Global,
    extended: bool,
    text: &[char],
) -> Result<Vec<GroupName>, AllocError>
    ensures groups { IfOk result (λ v. names_of v.items ≡ spec.groups_of extended text.now) }
{
    let mut out = Vec::new(alloc);
    let mut place = Place {
        escaped: false,
        in_class: false,
    };
    let mut rest = text;
    loop {
        let [c, left @ ..] = rest else {
            return Ok(out);
        };
        push_if(alloc, extended, opens(place, *c), &mut out, left)?;
        place = next_place(place, *c);
        rest = left;
    }
}

// Returns whether two texts are the same.
#[tactic(auto, unfolding(crate::specs::Groups::same_text))]
fn same_text(one: &[u32], other: &[u32]) -> bool
    ensures same { result ≡ spec.same_text one.now other.now }
{
    let mut one = one;
    let mut other = other;
    loop {
        let [c, left @ ..] = one else {
            return other.is_empty();
        };
        match other {
            [d, more @ ..] if *c == *d => {
                one = left;
                other = more;
            }
            _ => return false,
        }
    }
}

// Returns whether a group has this name.
pub(crate) fn is_named(wanted: &[u32], group: &GroupName) -> bool
    ensures named { result ≡ spec.is_named wanted.now (name_of group.now) }
{
    match &group.name {
        Some(name) => same_text(wanted, name.as_slice()),
        None => false,
    }
}

// Returns whether some group has a name.
#[tactic(auto, unfolding(crate::specs::Groups::has_names))]
pub(crate) fn has_names(names: &[GroupName]) -> bool
    ensures has { result ≡ spec.has_names (names_of names.now) }
{
    let mut rest = names;
    loop {
        let [group, left @ ..] = rest else {
            return false;
        };
        if group.name.is_some() {
            return true;
        }
        rest = left;
    }
}

// Returns whether some group has this name.
#[tactic(auto, unfolding(crate::specs::Groups::has_name))]
pub(crate) fn has_name(wanted: &[u32], names: &[GroupName]) -> bool
    ensures has { result ≡ spec.has_name wanted.now (names_of names.now) }
{
    let mut rest = names;
    loop {
        let [group, left @ ..] = rest else {
            return false;
        };
        if is_named(wanted, group) {
            return true;
        }
        rest = left;
    }
}

// Returns the references so far, with one to a group if it has the name.
fn with_reference(alloc: Global, named: bool, tree: Tree, k: u32) -> Result<Tree, AllocError>
    ensures reference { IfOk result (λ t. node_of t ≡ spec.with_reference named (node_of tree) k) }
{
    if !named {
        return Ok(tree);
    }
    let tree = Box::new(alloc, tree)?;
    let reference = Box::new(alloc, Tree::Reference(k as usize))?;
    Ok(Tree::Pair(tree, reference))
}

// Returns references to the groups of a name, one after the other.
#[tactic(auto, unfolding(crate::specs::Groups::references))]
pub(crate) fn references(
    alloc: Global,
    wanted: &[u32],
    names: &[GroupName],
) -> Result<Tree, AllocError>
    ensures references { IfOk result (λ t. node_of t ≡ spec.references wanted.now 0 Nothing (names_of names.now)) }
{
    let mut tree = Tree::Nothing;
    let mut k = 0u32;
    let mut rest = names;
    loop {
        let [group, left @ ..] = rest else {
            return Ok(tree);
        };
        tree = with_reference(alloc, is_named(wanted, group), tree, k)?;
        k = k.saturating_add(1);
        rest = left;
    }
}
