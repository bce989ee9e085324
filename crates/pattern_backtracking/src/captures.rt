//! What groups captured.
ghost use Rattle.std.specs.Prelude.{◌≡◌, Some, None, slice_set, slice_index_or};
ghost use Rattle.pattern_trees.specs.Matching.{cleared};

use pattern_trees::Span;

/// Returns what a group captured last.
pub fn captured(captures: &[Option<Span>], group: usize) -> Option<Span>
    ensures captured { result ≡ slice_index_or captures.now group None }
{
    match captures.get(group) {
        Some(span) => *span,
        None => None,
    }
}

/// Notes what a group captured.
pub fn capture(captures: &mut Vec<Option<Span>>, group: usize, span: Span)
    ensures captured { captures.new.items ≡ slice_set captures.old.items group (Some span) }
{
    if group < captures.len() {
        captures[group] = Some(span);
    }
}

// Notes that a group captured nothing.
fn forget(captures: &mut Vec<Option<Span>>, group: usize)
    ensures forgotten { captures.new.items ≡ slice_set captures.old.items group None }
{
    if group < captures.len() {
        captures[group] = None;
    }
}

/// Notes that so many groups from one on captured nothing.
pub fn clear(captures: &mut Vec<Option<Span>>, first: u32, count: u32)
    ensures cleared { captures.new.items ≡ cleared count first captures.old.items }
{
    for k in 0..count {
        forget(captures, first as usize + k as usize);
    }
}
