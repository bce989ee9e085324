//! Paths, and the dots in them (RFC 3986, sections 5.2.3 and 5.2.4).
ghost use Rattle.std.specs.Prelude.{◌≡◌, ◌++◌, IfOk, string_bytes};
ghost use Rattle.uri_references.specs.Paths as spec;
ghost use Rattle.uri_references.specs.Views.{walk_of};

use std::alloc::{AllocError, Global};

// The output so far of a walk through the segments of a path.
#[derive(Drop)]
struct Walk {
    pieces: Vec<String>,
    begun: bool,
    open_end: bool,
}

impl Walk {
    // Processes the next segment.
    fn take(&mut self, alloc: Global, segment: &str) -> Result<(), AllocError>
        ensures taken { IfOk result (λ _. walk_of self.new ≡ spec.after_segment (walk_of self.old) segment.now) }
    {
        if segment == "." {
            self.open_end = self.begun;
            return Ok(());
        }
        if segment == ".." {
            let _ = self.pieces.pop();
            self.open_end = self.begun;
            return Ok(());
        }
        let piece = piece(alloc, self.begun, segment)?;
        self.pieces.push(piece)?;
        self.begun = true;
        self.open_end = false;
        Ok(())
    }

    // Returns the path of the segments that were kept.
    fn text(&self, alloc: Global) -> Result<String, AllocError>
        ensures text { IfOk result (λ s. string_bytes s ≡ spec.walk_text (walk_of self.now)) }
    {
        let mut text = String::new(alloc);
        for piece in self.pieces.as_slice() {
            text.push_str(piece.as_str())?;
        }
        if self.open_end {
            text.push('/')?;
        }
        Ok(text)
    }
}

// Returns a segment as it is kept: all but the first have a slash before them.
fn piece(alloc: Global, begun: bool, segment: &str) -> Result<String, AllocError>
    ensures piece { IfOk result (λ s. string_bytes s ≡ spec.piece begun segment.now) }
{
    let mut text = String::new(alloc);
    if begun {
        text.push('/')?;
    }
    text.push_str(segment)?;
    Ok(text)
}

/// Removes the segments `.` and `..` from a path.
///
/// # Errors
///
/// Out of memory.
pub fn without_dots(alloc: Global, path: &str) -> Result<String, AllocError>
    ensures path { IfOk result (λ s. string_bytes s ≡ spec.without_dots path.now) }
{
    let mut walk = Walk {
        pieces: Vec::new(alloc),
        begun: false,
        open_end: false,
    };
    for segment in path.split('/') {
        walk.take(alloc, segment)?;
    }
    walk.text(alloc)
}

/// Returns a path up to and including its last slash.
pub fn through_last_slash(path: &str) -> &str
    ensures front { result.now ≡ spec.through_last_slash path.now }
{
    let bytes = path.as_bytes();
    let mut end = bytes.len();
    while end > 0 && bytes[end - 1] != b'/' {
        end -= 1;
    }
    &path[..end]
}
