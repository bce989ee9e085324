//! What stands while a pattern is read.
ghost use Rattle.std.specs.Prelude.{◌≡◌, ◌<◌, [], ◌∷◌, true, false, length, nat_le, vec_len, IfOk, IfSome, IfNone, option_map};
ghost use Rattle.pattern_trees.specs.Nodes.{node_of};
ghost use Rattle.pattern_reader.specs.States as spec;
ghost use Rattle.pattern_reader.specs.Reading.{with_flags};
ghost use Rattle.pattern_reader.specs.Views.{part_of, parts_of, term_of, level_of, levels_of, state_of};
ghost use Rattle.pattern_characters.specs.Telling.{Tells};

use crate::edges::edge_tree;
use crate::parts::Wrap;
use pattern_characters::{Count, Fault, Flags, Grammar, Stop, in_order};
use pattern_trees::{Edge, Tree, Turns};
use std::alloc::{AllocError, Global};

/// A tree to be joined to others, with its rank.
#[derive(Drop)]
pub(crate) struct Part {
    pub(crate) rank: u32,
    pub(crate) tree: Tree,
}

/// The term that was read last.
#[derive(Drop)]
pub(crate) struct Term {
    pub(crate) tree: Tree,
    pub(crate) before: u32,
    pub(crate) repeatable: bool,
}

/// A group that is open, or the pattern itself.
#[derive(Drop)]
pub(crate) struct Level {
    pub(crate) wrap: Wrap,
    pub(crate) before: u32,
    pub(crate) flags: Flags,
    pub(crate) others: Vec<Part>,
    pub(crate) terms: Vec<Part>,
    pub(crate) last: Option<Term>,
}

/// The innermost group that is open, those around it, and the number of groups so far.
#[derive(Drop)]
pub(crate) struct State {
    pub(crate) top: Level,
    pub(crate) around: Vec<Level>,
    pub(crate) groups: u32,
}

// Joins two trees, one after the other or one beside the other.
fn join(alloc: Global, beside: bool, a: Tree, b: Tree) -> Result<Tree, AllocError>
    ensures join { IfOk result (λ t. node_of t ≡ spec.join beside (node_of a) (node_of b)) }
{
    let a = Box::new(alloc, a)?;
    let b = Box::new(alloc, b)?;
    if beside {
        return Ok(Tree::Choice(a, b));
    }
    Ok(Tree::Pair(a, b))
}

// Takes the last tree away.
#[tactic(auto, using(crate::proofs::Lasts::parts_more, crate::proofs::Lasts::parts_empty))]
fn pop_part(parts: &mut Vec<Part>) -> Option<Part>
    ensures some { IfSome result (λ p. parts_of parts.old.items ≡ part_of p ∷ parts_of parts.new.items) }
    ensures none { IfNone result (parts_of parts.old.items ≡ []) }
    ensures fewer { IfSome result (λ _. vec_len parts.new < vec_len parts.old) }
{
    parts.pop()
}

// Puts a tree at the end.
#[tactic(auto, using(crate::proofs::Lasts::parts_more))]
fn push_part(parts: Vec<Part>, part: Part) -> Result<Vec<Part>, AllocError>
    ensures pushed { IfOk result (λ v. parts_of v.items ≡ part_of part ∷ parts_of parts.items) }
{
    let mut parts = parts;
    parts.push(part)?;
    Ok(parts)
}

// Returns no trees.
#[tactic(auto, using(crate::proofs::Lasts::parts_none))]
fn no_parts(alloc: Global) -> Vec<Part>
    ensures none { parts_of result.items ≡ [] }
{
    Vec::new(alloc)
}

// Adds a tree behind those that stand there.
#[tactic(auto, unfolding(crate::specs::States::added))]
fn added(
    alloc: Global,
    beside: bool,
    rank: u32,
    tree: Tree,
    parts: Vec<Part>,
) -> Result<Vec<Part>, AllocError>
    ensures added { IfOk result (λ v. parts_of v.items ≡ spec.added beside rank (node_of tree) (parts_of parts.items)) }
{
    let mut parts = parts;
    let Some(last) = pop_part(&mut parts) else {
        return Ok(push_part(no_parts(alloc), Part { rank, tree })?);
    };
    if last.rank != rank {
        let parts = push_part(parts, last)?;
        return Ok(push_part(parts, Part { rank, tree })?);
    }
    let tree = join(alloc, beside, last.tree, tree)?;
    added(alloc, beside, rank.saturating_add(1), tree, parts)
}

// Joins a tree to all that stand before it.
#[tactic(auto, unfolding(crate::specs::States::joined_to))]
fn joined_to(alloc: Global, beside: bool, tree: Tree, parts: Vec<Part>) -> Result<Tree, AllocError>
    ensures joined { IfOk result (λ t. node_of t ≡ spec.joined_to beside (node_of tree) (parts_of parts.items)) }
{
    let mut parts = parts;
    let Some(last) = pop_part(&mut parts) else {
        return Ok(tree);
    };
    let tree = join(alloc, beside, last.tree, tree)?;
    joined_to(alloc, beside, tree, parts)
}

// Joins all trees.
fn joined(alloc: Global, beside: bool, parts: Vec<Part>) -> Result<Tree, AllocError>
    ensures joined { IfOk result (λ t. node_of t ≡ spec.joined beside (parts_of parts.items)) }
{
    let mut parts = parts;
    let Some(last) = pop_part(&mut parts) else {
        return Ok(Tree::Nothing);
    };
    Ok(joined_to(alloc, beside, last.tree, parts)?)
}

// Returns a level that has nothing yet.
fn new_level(alloc: Global, wrap: Wrap, before: u32, flags: Flags) -> Level
    ensures level { level_of result ≡ spec.level wrap before flags }
{
    Level {
        wrap,
        before,
        flags,
        others: no_parts(alloc),
        terms: no_parts(alloc),
        last: None,
    }
}

// Returns the state in which reading starts.
#[tactic(auto, using(crate::proofs::Lasts::levels_none))]
pub(crate) fn start(alloc: Global, flags: Flags) -> State
    ensures start { state_of result ≡ spec.start flags }
{
    State {
        top: new_level(alloc, Wrap::Plain, 0, flags),
        around: Vec::new(alloc),
        groups: 0,
    }
}

// Returns the terms with the last one.
fn all_terms(alloc: Global, terms: Vec<Part>, last: Option<Term>) -> Result<Vec<Part>, AllocError>
    ensures terms { IfOk result (λ v. parts_of v.items ≡ spec.all_terms (parts_of terms.items) (option_map term_of last)) }
{
    match last {
        Some(term) => Ok(added(alloc, false, 0, term.tree, terms)?),
        None => Ok(terms),
    }
}

// Returns the terms of an alternative, one after the other.
fn alternative(alloc: Global, terms: Vec<Part>, last: Option<Term>) -> Result<Tree, AllocError>
    ensures terms { IfOk result (λ t. node_of t ≡ spec.joined false (spec.all_terms (parts_of terms.items) (option_map term_of last))) }
{
    let terms = all_terms(alloc, terms, last)?;
    Ok(joined(alloc, false, terms)?)
}

// Begins the next alternative.
pub(crate) fn next_alternative(alloc: Global, level: Level) -> Result<Level, AllocError>
    ensures next { IfOk result (λ l. level_of l ≡ spec.next_alternative (level_of level)) }
{
    let Level {
        wrap,
        before,
        flags,
        others,
        terms,
        last,
    } = level;
    let tree = alternative(alloc, terms, last)?;
    let others = added(alloc, true, 0, tree, others)?;
    Ok(Level {
        wrap,
        before,
        flags,
        others,
        terms: no_parts(alloc),
        last: None,
    })
}

// Returns the alternatives of a level, one beside the other.
pub(crate) fn body(alloc: Global, level: Level) -> Result<Tree, AllocError>
    ensures body { IfOk result (λ t. node_of t ≡ spec.body (level_of level)) }
{
    let Level {
        wrap: _,
        before: _,
        flags: _,
        others,
        terms,
        last,
    } = level;
    let tree = alternative(alloc, terms, last)?;
    let others = added(alloc, true, 0, tree, others)?;
    Ok(joined(alloc, true, others)?)
}

// Adds a term.
fn with_term(alloc: Global, level: Level, term: Term) -> Result<Level, AllocError>
    ensures term { IfOk result (λ l. level_of l ≡ spec.with_term (node_of term.tree) term.before term.repeatable (level_of level)) }
{
    let Level {
        wrap,
        before,
        flags,
        others,
        terms,
        last,
    } = level;
    let terms = all_terms(alloc, terms, last)?;
    Ok(Level {
        wrap,
        before,
        flags,
        others,
        terms,
        last: Some(term),
    })
}

// Takes the last level away.
#[tactic(auto, using(crate::proofs::Lasts::levels_more, crate::proofs::Lasts::levels_empty))]
fn pop_level(levels: &mut Vec<Level>) -> Option<Level>
    ensures some { IfSome result (λ l. levels_of levels.old.items ≡ level_of l ∷ levels_of levels.new.items) }
    ensures none { IfNone result (levels_of levels.old.items ≡ []) }
{
    levels.pop()
}

// Puts a level at the end.
#[tactic(auto, using(crate::proofs::Lasts::levels_more))]
fn push_level(levels: Vec<Level>, level: Level) -> Result<Vec<Level>, AllocError>
    ensures pushed { IfOk result (λ v. levels_of v.items ≡ level_of level ∷ levels_of levels.items) }
{
    let mut levels = levels;
    levels.push(level)?;
    Ok(levels)
}

// Adds an atom that is no group.
pub(crate) fn with_atom(alloc: Global, state: State, tree: Tree) -> Result<State, AllocError>
    ensures atom { IfOk result (λ s. state_of s ≡ spec.with_atom (node_of tree) (state_of state)) }
{
    let State {
        top,
        around,
        groups,
    } = state;
    let term = Term {
        tree,
        before: groups,
        repeatable: true,
    };
    let top = with_term(alloc, top, term)?;
    Ok(State {
        top,
        around,
        groups,
    })
}

// Adds an assertion.
pub(crate) fn with_edge(
    alloc: Global,
    grammar: Grammar,
    edge: Edge,
    state: State,
) -> Result<State, AllocError>
    ensures edge { IfOk result (λ s. state_of s ≡ spec.with_edge grammar edge (state_of state)) }
{
    let State {
        top,
        around,
        groups,
    } = state;
    let tree = edge_tree(alloc, top.flags, edge)?;
    let term = Term {
        tree,
        before: groups,
        repeatable: grammar.extended,
    };
    let top = with_term(alloc, top, term)?;
    Ok(State {
        top,
        around,
        groups,
    })
}

// Begins the next alternative of the innermost group.
pub(crate) fn with_bar(alloc: Global, state: State) -> Result<State, AllocError>
    ensures bar { IfOk result (λ s. state_of s ≡ spec.with_top (spec.next_alternative (state_of state).top) (state_of state)) }
{
    let State {
        top,
        around,
        groups,
    } = state;
    let top = next_alternative(alloc, top)?;
    Ok(State {
        top,
        around,
        groups,
    })
}

// Returns whether too many groups are open.
#[tactic(auto, using(crate::proofs::Lasts::levels_length))]
fn is_deep(around: &Vec<Level>) -> bool
    ensures deep { result ≡ nat_le 250 (length (levels_of around.now.items)) }
{
    around.len() >= 250
}

// Returns the number of groups with one more, if it captures and there may be more.
fn with_group(captures: bool, groups: u32) -> Option<u32>
    ensures groups { result ≡ spec.with_group captures groups }
{
    if !captures {
        return Some(groups);
    }
    if groups >= 65535 {
        return None;
    }
    Some(groups + 1)
}

// Opens a group.
#[tactic(auto, unfolding(crate::specs::States::opened))]
pub(crate) fn opened(
    alloc: Global,
    wrap: Wrap,
    captures: bool,
    flags: Flags,
    state: State,
) -> Result<State, Stop>
    ensures opened { Tells state_of result (spec.opened wrap captures flags (state_of state)) }
{
    let State {
        top,
        around,
        groups,
    } = state;
    if is_deep(&around) {
        return Err(Stop::Refused(Fault::TooDeep));
    }
    let Some(more) = with_group(captures, groups) else {
        return Err(Stop::Refused(Fault::TooManyGroups));
    };
    let around = push_level(around, top)?;
    Ok(State {
        top: new_level(alloc, wrap, groups, flags),
        around,
        groups: more,
    })
}

// Returns what the body of a group becomes.
fn wrapped(alloc: Global, wrap: Wrap, tree: Tree) -> Result<Tree, AllocError>
    ensures wrapped { IfOk result (λ t. node_of t ≡ spec.wrapped wrap (node_of tree)) }
{
    match wrap {
        Wrap::Plain => Ok(tree),
        Wrap::Capture(number) => {
            let tree = Box::new(alloc, tree)?;
            Ok(Tree::Group(number as usize, tree))
        }
        Wrap::Around(look) => {
            let tree = Box::new(alloc, tree)?;
            Ok(Tree::Around(look, tree))
        }
    }
}

// Returns whether a group may be repeated.
fn is_repeatable(grammar: Grammar, wrap: Wrap) -> bool
    ensures is { result ≡ spec.is_repeatable grammar wrap }
{
    match wrap {
        Wrap::Plain => true,
        Wrap::Capture(_) => true,
        Wrap::Around(look) => grammar.extended || (!grammar.strict && look.ahead),
    }
}

// Returns the term of a group that is closed.
fn closed_term(alloc: Global, grammar: Grammar, level: Level) -> Result<Term, AllocError>
    ensures node { IfOk result (λ t. node_of t.tree ≡ spec.wrapped level.wrap (spec.body (level_of level))) }
    ensures before { IfOk result (λ t. t.before ≡ level.before) }
    ensures repeatable { IfOk result (λ t. t.repeatable ≡ spec.is_repeatable grammar level.wrap) }
{
    let wrap = level.wrap;
    let before = level.before;
    let tree = body(alloc, level)?;
    let tree = wrapped(alloc, wrap, tree)?;
    Ok(Term {
        tree,
        before,
        repeatable: is_repeatable(grammar, wrap),
    })
}

// Closes the innermost group.
#[tactic(auto, unfolding(crate::specs::States::closed))]
pub(crate) fn closed(alloc: Global, grammar: Grammar, state: State) -> Result<State, Stop>
    ensures closed { Tells state_of result (spec.closed grammar (state_of state)) }
{
    let State {
        top,
        around,
        groups,
    } = state;
    let mut around = around;
    let Some(level) = pop_level(&mut around) else {
        return Err(Stop::Refused(Fault::NoGroupToClose));
    };
    let term = closed_term(alloc, grammar, top)?;
    let top = with_term(alloc, level, term)?;
    Ok(State {
        top,
        around,
        groups,
    })
}

// Repeats a term.
fn repeated_term(
    alloc: Global,
    count: Count,
    greedy: bool,
    groups: u32,
    term: Term,
) -> Result<Term, AllocError>
    ensures term { IfOk result (λ t. term_of t ≡ spec.repeated_term count greedy groups (term_of term)) }
{
    let turns = Turns {
        min: count.min,
        max: count.max,
        greedy,
        groups_before: term.before,
        group_count: groups.saturating_sub(term.before),
    };
    let before = term.before;
    let tree = Box::new(alloc, term.tree)?;
    Ok(Term {
        tree: Tree::Times(turns, tree),
        before,
        repeatable: false,
    })
}

// Repeats the last term.
#[tactic(auto, unfolding(crate::specs::States::repeated))]
pub(crate) fn repeated(
    alloc: Global,
    count: Count,
    greedy: bool,
    state: State,
) -> Result<State, Stop>
    ensures repeated { Tells state_of result (spec.repeated count greedy (state_of state)) }
{
    let State {
        top,
        around,
        groups,
    } = state;
    let Level {
        wrap,
        before,
        flags,
        others,
        terms,
        last,
    } = top;
    let Some(term) = last else {
        return Err(Stop::Refused(Fault::NothingToRepeat));
    };
    if !term.repeatable {
        return Err(Stop::Refused(Fault::NothingToRepeat));
    }
    if !in_order(count) {
        return Err(Stop::Refused(Fault::NumbersOutOfOrder));
    }
    let term = repeated_term(alloc, count, greedy, groups, term)?;
    Ok(State {
        top: Level {
            wrap,
            before,
            flags,
            others,
            terms,
            last: Some(term),
        },
        around,
        groups,
    })
}

// Returns the state with other flags in the innermost group, whose last term is not repeated any more.
pub(crate) fn with_flags(flags: Flags, state: State) -> State
    ensures flags { state_of result ≡ with_flags flags (state_of state) }
{
    let mut state = state;
    state.top.flags = flags;
    if let Some(term) = &mut state.top.last {
        term.repeatable = false;
    }
    state
}
