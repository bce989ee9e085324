//! Where a pattern leads, where the positions of the text fit into one word.
ghost use Rattle.std.specs.Prelude.{◌≡◌, ◌<◌, ◌≤◌, ◌+◌, ◌-◌, ◌==◌, ◌&&◌, ◌||◌, ℕ, Some, None, MatchOption, length, true, false, nat_le};
ghost use Rattle.pattern_trees.specs.Nodes.{node_of};
ghost use Rattle.pattern_trees.specs.Patterns.{Either, IsFound, Iterates, Look, One, Repeat};
ghost use Rattle.pattern_trees.specs.Trees.{pattern_of};
ghost use Rattle.pattern_sets.specs.Images.{IsImage, IsOne, Joined, Reaches, Spreads, Steps, in_word, leads};

use crate::turns::{any_of, more_turns, one_of};
use crate::word_steps::{
    all, is_only, keep_edges, next, run_back, run_reaches, step_back, step_on, step_reaches,
    times_on, times_then,
};
use pattern_rows::{both, either, without};
use pattern_trees::{CharSet, Tree};

/// Returns where a pattern leads in a text of at most 63 characters.
#[cycle(word_walk)]
pub fn word_walk(tree: &Tree, text: &[char], forward: bool, from: u64) -> u64
    requires short { length text.now < 64 }
    ensures walks { IsImage (leads forward (pattern_of (node_of tree.now)) text.now) (in_word from) (in_word result) }
{
    if from == 0 {
        0
    } else {
        word_lead(tree, text, forward, from)
    }
}

// Returns the same, of a set that is likely not empty.
#[cycle(word_walk)]
fn word_lead(tree: &Tree, text: &[char], forward: bool, from: u64) -> u64
    requires short { length text.now < 64 }
    ensures walks { IsImage (leads forward (pattern_of (node_of tree.now)) text.now) (in_word from) (in_word result) }
{
    match tree {
        Tree::Nothing => from,
        Tree::OneOf(set) => {
            if forward {
                step_on(set, text, from)
            } else {
                step_back(set, text, from)
            }
        }
        Tree::Pair(a, b) => {
            if forward {
                word_row(a, b, text, from)
            } else {
                word_both(b, a, text, forward, from)
            }
        }
        Tree::Choice(a, b) => word_choice(a, b, text, forward, from),
        Tree::Times(turns, body) => word_times(
            turns.min,
            more_turns(turns),
            body,
            text,
            forward,
            from,
        ),
        Tree::At(edge) => keep_edges(*edge, text, forward, from),
        Tree::Reference(_) => 0,
        Tree::Group(_, body) => word_walk(body, text, forward, from),
        Tree::Around(look, body) => word_look(look.ahead, look.wanted, body, text, forward, from),
    }
}

// Returns where one pattern leads, and then another.
#[cycle(word_walk)]
fn word_both(a: &Tree, b: &Tree, text: &[char], forward: bool, from: u64) -> u64
    requires short { length text.now < 64 }
    ensures leaves { IsImage (Joined (leads forward (pattern_of (node_of a.now)) text.now) (leads forward (pattern_of (node_of b.now)) text.now)) (in_word from) (in_word result) }
{
    let mid = word_first(a, text, forward, from);
    word_walk(b, text, forward, mid)
}

// Returns where a first pattern leads, on, and then the others of a row.
#[cycle(word_walk)]
fn word_row(first: &Tree, rest: &Tree, text: &[char], from: u64) -> u64
    requires short { length text.now < 64 }
    ensures leaves { IsImage (Joined (leads true (pattern_of (node_of first.now)) text.now) (leads true (pattern_of (node_of rest.now)) text.now)) (in_word from) (in_word result) }
{
    match first {
        Tree::Times(turns, body) => {
            word_times_row(turns.min, more_turns(turns), body, rest, text, from)
        }
        _ => {
            let at = word_first(first, text, true, from);
            word_on(rest, text, at)
        }
    }
}

// Returns where a repetition leads, on, and then the others of a row.
#[cycle(word_walk)]
fn word_times_row(
    least: u32,
    more: Option<u32>,
    body: &Tree,
    rest: &Tree,
    text: &[char],
    from: u64,
) -> u64
    requires short { length text.now < 64 }
    ensures leaves { IsImage (Joined (leads true (Repeat least more (pattern_of (node_of body.now))) text.now) (leads true (pattern_of (node_of rest.now)) text.now)) (in_word from) (in_word result) }
{
    match body {
        Tree::OneOf(run) if more.is_none() => word_run_row(run, least, more, rest, text, from),
        _ => {
            let at = word_times(least, more, body, text, true, from);
            word_on(rest, text, at)
        }
    }
}

// Returns where a run of characters of one set leads, on, and then the others of a row.
#[cycle(word_walk)]
fn word_run_row(
    run: &CharSet,
    least: u32,
    more: Option<u32>,
    rest: &Tree,
    text: &[char],
    from: u64,
) -> u64
    requires short { length text.now < 64 }
    ensures leaves { IsImage (Joined (leads true (Repeat least more (One run.now.spans.items)) text.now) (leads true (pattern_of (node_of rest.now)) text.now)) (in_word from) (in_word result) }
{
    match rest {
        Tree::OneOf(last) => times_then(run, last, text, least, more, from),
        Tree::Pair(a, b) => word_run_pair(run, least, more, a, b, text, from),
        _ => {
            let at = times_on(run, text, least, more, from);
            word_on(rest, text, at)
        }
    }
}

// Returns the same, where the others are two or more.
//
// One character after the run is looked for with it.
#[cycle(word_walk)]
fn word_run_pair(
    run: &CharSet,
    least: u32,
    more: Option<u32>,
    first: &Tree,
    rest: &Tree,
    text: &[char],
    from: u64,
) -> u64
    requires short { length text.now < 64 }
    ensures leaves { IsImage (Joined (leads true (Repeat least more (One run.now.spans.items)) text.now) (Joined (leads true (pattern_of (node_of first.now)) text.now) (leads true (pattern_of (node_of rest.now)) text.now))) (in_word from) (in_word result) }
{
    match first {
        Tree::OneOf(last) => {
            let at = times_then(run, last, text, least, more, from);
            word_on(rest, text, at)
        }
        _ => {
            let at = times_on(run, text, least, more, from);
            word_row(first, rest, text, at)
        }
    }
}

// Returns where a pattern leads, on, that is likely a row.
#[inline(always)]
#[cycle(word_walk)]
fn word_on(tree: &Tree, text: &[char], from: u64) -> u64
    requires short { length text.now < 64 }
    ensures walks { IsImage (leads true (pattern_of (node_of tree.now)) text.now) (in_word from) (in_word result) }
{
    if from == 0 {
        return 0;
    }
    match tree {
        Tree::Pair(a, b) => word_row(a, b, text, from),
        _ => word_first(tree, text, true, from),
    }
}

// Returns where the first of two patterns leads.
//
// Many are one character, an assertion, a repetition or a lookaround, which take no further call.
#[inline(always)]
#[cycle(word_walk)]
fn word_first(tree: &Tree, text: &[char], forward: bool, from: u64) -> u64
    requires short { length text.now < 64 }
    ensures walks { IsImage (leads forward (pattern_of (node_of tree.now)) text.now) (in_word from) (in_word result) }
{
    match tree {
        Tree::OneOf(set) if forward => step_on(set, text, from),
        Tree::At(edge) => keep_edges(*edge, text, forward, from),
        Tree::Times(turns, body) => word_times(
            turns.min,
            more_turns(turns),
            body,
            text,
            forward,
            from,
        ),
        Tree::Choice(a, b) => word_choice(a, b, text, forward, from),
        Tree::Around(look, inner) => word_look(look.ahead, look.wanted, inner, text, forward, from),
        _ => word_walk(tree, text, forward, from),
    }
}

// Returns where one of two patterns leads.
#[cycle(word_walk)]
fn word_choice(a: &Tree, b: &Tree, text: &[char], forward: bool, from: u64) -> u64
    requires short { length text.now < 64 }
    ensures walks { IsImage (leads forward (Either (pattern_of (node_of a.now)) (pattern_of (node_of b.now))) text.now) (in_word from) (in_word result) }
{
    if forward {
        return word_choice_on(a, b, text, from);
    }
    let left = word_walk(a, text, forward, from);
    let right = word_walk(b, text, forward, from);
    either(left, right)
}

// Returns where one of two patterns leads, on.
#[cycle(word_walk)]
fn word_choice_on(a: &Tree, b: &Tree, text: &[char], from: u64) -> u64
    requires short { length text.now < 64 }
    ensures walks { IsImage (leads true (Either (pattern_of (node_of a.now)) (pattern_of (node_of b.now))) text.now) (in_word from) (in_word result) }
{
    let left = word_branch(a, text, from);
    let right = word_branch(b, text, from);
    either(left, right)
}

// Returns where one of several patterns leads, on.
//
// Many are a row or a choice, which takes no further call.
#[inline(always)]
#[cycle(word_walk)]
fn word_branch(tree: &Tree, text: &[char], from: u64) -> u64
    requires short { length text.now < 64 }
    ensures walks { IsImage (leads true (pattern_of (node_of tree.now)) text.now) (in_word from) (in_word result) }
{
    match tree {
        Tree::Pair(a, b) => word_branch_row(a, b, text, from),
        Tree::Choice(a, b) => word_choice_on(a, b, text, from),
        _ => word_walk(tree, text, true, from),
    }
}

// Returns where one of several rows leads, on.
//
// One that begins with a character which does not follow takes no further call.
#[inline(always)]
#[cycle(word_walk)]
fn word_branch_row(first: &Tree, rest: &Tree, text: &[char], from: u64) -> u64
    requires short { length text.now < 64 }
    ensures leaves { IsImage (Joined (leads true (pattern_of (node_of first.now)) text.now) (leads true (pattern_of (node_of rest.now)) text.now)) (in_word from) (in_word result) }
{
    match first {
        Tree::OneOf(set) => {
            let at = step_on(set, text, from);
            word_on(rest, text, at)
        }
        _ => word_row(first, rest, text, from),
    }
}

// Returns whether a word has at most one position.
fn is_one(word: u64) -> bool
    ensures one { result ≡ true → IsOne (in_word word) }
{
    match next(word, 0) {
        None => true,
        Some(m) => is_only(word, m),
    }
}

// Returns the one position of a word, if a lookaround holds there.
//
// Its body is walked from there, the way that it looks.
#[cycle(word_walk)]
fn word_peek(ahead: bool, wanted: bool, body: &Tree, text: &[char], forward: bool, from: u64) -> u64
    requires short { length text.now < 64 }
    ensures walks { IsOne (in_word from) → IsImage (leads forward (Look ahead wanted (pattern_of (node_of body.now))) text.now) (in_word from) (in_word result) }
{
    if word_reaches(body, text, ahead, from) {
        if wanted { from } else { 0 }
    } else {
        if wanted { 0 } else { from }
    }
}

// Returns whether a pattern leads anywhere within the text.
//
// It does not look for each position that the last character leads to.
#[cycle(word_walk)]
fn word_reaches(tree: &Tree, text: &[char], forward: bool, from: u64) -> bool
    requires short { length text.now < 64 }
    ensures reaches { Reaches (leads forward (pattern_of (node_of tree.now)) text.now) (length text.now) (in_word from) result }
{
    match tree {
        Tree::OneOf(set) if forward => step_reaches(set, text, from),
        Tree::Pair(a, b) => {
            if forward {
                both_reach(a, b, text, forward, from)
            } else {
                walk_reaches(tree, text, forward, from)
            }
        }
        Tree::Group(_, body) => word_reaches(body, text, forward, from),
        _ => walk_reaches(tree, text, forward, from),
    }
}

// Returns whether one pattern leads to where another leads on.
#[cycle(word_walk)]
fn both_reach(a: &Tree, b: &Tree, text: &[char], forward: bool, from: u64) -> bool
    requires short { length text.now < 64 }
    ensures reaches { Reaches (Joined (leads forward (pattern_of (node_of a.now)) text.now) (leads forward (pattern_of (node_of b.now)) text.now)) (length text.now) (in_word from) result }
{
    if forward {
        if let Some(run) = any_of(a) {
            if let Some(last) = one_of(b) {
                return run_reaches(run, last, text, from);
            }
        }
    }
    let mid = word_walk(a, text, forward, from);
    word_reaches(b, text, forward, mid)
}

// Returns whether a pattern leads anywhere within the text, by all positions that it leads to.
#[cycle(word_walk)]
fn walk_reaches(tree: &Tree, text: &[char], forward: bool, from: u64) -> bool
    requires short { length text.now < 64 }
    ensures reaches { Reaches (leads forward (pattern_of (node_of tree.now)) text.now) (length text.now) (in_word from) result }
{
    let led = word_walk(tree, text, forward, from);
    let near = both(led, all(text.len()));
    near != 0
}

// Returns the positions where a lookaround holds.
#[cycle(word_walk)]
fn word_look(ahead: bool, wanted: bool, body: &Tree, text: &[char], forward: bool, from: u64) -> u64
    requires short { length text.now < 64 }
    ensures walks { IsImage (leads forward (Look ahead wanted (pattern_of (node_of body.now))) text.now) (in_word from) (in_word result) }
{
    if is_one(from) {
        return word_peek(ahead, wanted, body, text, forward, from);
    }
    let found = word_walk(body, text, !ahead, all(text.len()));
    if wanted {
        both(from, found)
    } else {
        without(from, found)
    }
}

// Returns where a repetition leads.
#[cycle(word_walk)]
fn word_times(
    least: u32,
    more: Option<u32>,
    body: &Tree,
    text: &[char],
    forward: bool,
    from: u64,
) -> u64
    requires short { length text.now < 64 }
    ensures walks { IsImage (leads forward (Repeat least more (pattern_of (node_of body.now))) text.now) (in_word from) (in_word result) }
{
    match body {
        Tree::OneOf(set) if forward => times_on(set, text, least, more, from),
        _ => word_turns(least, more, body, text, forward, from),
    }
}

// Returns the same, turn by turn.
#[cycle(word_walk)]
fn word_turns(
    least: u32,
    more: Option<u32>,
    body: &Tree,
    text: &[char],
    forward: bool,
    from: u64,
) -> u64
    requires short { length text.now < 64 }
    ensures walks { IsImage (leads forward (Repeat least more (pattern_of (node_of body.now))) text.now) (in_word from) (in_word result) }
{
    let after = word_exactly(least, body, text, forward, from);
    match more {
        None => word_any(body, text, forward, after),
        Some(most) => word_at_most(most, body, text, forward, after),
    }
}

// Returns where so many steps lead.
//
// A set that leads to itself is where all further steps lead.
#[cycle(word_walk)]
fn word_exactly(count: u32, body: &Tree, text: &[char], forward: bool, from: u64) -> u64
    requires short { length text.now < 64 }
    ensures leaves { IsImage (Iterates (leads forward (pattern_of (node_of body.now)) text.now) count) (in_word from) (in_word result) }
{
    let mut at = from;
    'rounds: for _round in 0..count {
        let led = word_walk(body, text, forward, at);
        if led == at {
            return at;
        }
        at = led;
    }
    at
}

// Returns the positions that one round of a search adds.
#[cycle(word_walk)]
fn word_spread(body: &Tree, text: &[char], forward: bool, reached: u64, fresh: u64) -> u64
    requires short { length text.now < 64 }
    ensures spreads { Spreads (leads forward (pattern_of (node_of body.now)) text.now) (in_word reached) (in_word fresh) (λ k. in_word reached k || in_word result k) (in_word result) }
{
    let led = word_walk(body, text, forward, fresh);
    without(led, reached)
}

// Returns where any number of steps lead.
#[cycle(word_walk)]
fn word_any(body: &Tree, text: &[char], forward: bool, from: u64) -> u64
    requires short { length text.now < 64 }
    ensures leaves { IsImage (Steps None (leads forward (pattern_of (node_of body.now)) text.now)) (in_word from) (in_word result) }
{
    if !forward {
        if let Tree::OneOf(set) = body {
            return run_back(set, text, from);
        }
    }
    let mut fresh = from;
    let mut reached = from;
    'rounds: loop {
        let more = word_spread(body, text, forward, reached, fresh);
        if more == 0 {
            return reached;
        }
        reached = either(reached, more);
        fresh = more;
    }
}

// Returns where at most so many steps lead.
#[cycle(word_walk)]
fn word_at_most(most: u32, body: &Tree, text: &[char], forward: bool, from: u64) -> u64
    requires short { length text.now < 64 }
    ensures leaves { IsImage (Steps (Some most) (leads forward (pattern_of (node_of body.now)) text.now)) (in_word from) (in_word result) }
{
    let mut fresh = from;
    let mut reached = from;
    'rounds: for _round in 0..most {
        let more = word_spread(body, text, forward, reached, fresh);
        if more == 0 {
            return reached;
        }
        reached = either(reached, more);
        fresh = more;
    }
    reached
}

/// Returns whether a pattern matches somewhere in a text of at most 63 characters.
///
/// It allocates nothing.
pub fn word_matches(tree: &Tree, text: &[char]) -> bool
    requires short { length text.now < 64 }
    ensures yes { result ≡ true → IsFound (pattern_of (node_of tree.now)) text.now }
    ensures no { result ≡ false → ¬ (IsFound (pattern_of (node_of tree.now)) text.now) }
{
    let found = word_on(tree, text, all(text.len()));
    found != 0
}
