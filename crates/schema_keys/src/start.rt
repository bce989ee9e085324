//! The part of a pointer that lies outside the resource of its target.
//!
//! It is computed from the depth of the target's resource root, which the resolver's state knows.
//! It does not depend on a draft or on a list of subresources, because these would make it read a
//! draft 4 document by `$id`.
ghost use Rattle.std.specs.Prelude.{◌≡◌};
ghost use Rattle.theory_definitions.specs.Plan.{lies_in, resource_depth, segment_count, segments_length, start_of};
ghost use Rattle.schema_traits.specs.ResolverViews.{found_of, place_of};
ghost use Rattle.schema_keys.specs.Here.{parts_here};
ghost use Rattle.schema_traits.specs.Showing.{Yields};

use crate::context::Context;
use schema_reports::{Location, OutOfMemory};
use schema_traits::{Resolver, SchemaPlace, Target};

// The number of segments of a pointer.
fn segment_count(location: &str) -> usize
    ensures count { result ≡ segment_count location.now }
{
    location.as_bytes().iter().filter(|x| **x == b'/').count()
}

// The length of the pointer's first segments.
fn segments_length(count: usize, location: &str) -> usize
    ensures length { result ≡ segments_length count location.now }
{
    let mut left = count;
    let mut size = 0usize;
    for x in location.as_bytes() {
        if *x == b'/' {
            if left == 0 {
                return size;
            }
            left -= 1;
        }
        size += 1;
    }
    size
}

// Returns whether a place is at or below another.
fn lies_in(place: &SchemaPlace, outer: &SchemaPlace) -> bool
    ensures lies { result ≡ lies_in (place_of place.now) (place_of outer.now) }
{
    place.document == outer.document && outer.path.is_prefix_of(&place.path)
}

impl<'p, 'c, R: Resolver> Context<'p, 'c, R> {
    // How many steps the root of the target's resource lies below the place where a pointer with
    // this many segments starts; 0 if the target is not in that resource.
    fn resource_depth(
        &self,
        target: &Target<R::State>,
        segments: usize,
    ) -> Result<usize, OutOfMemory>
        ensures depth { Yields result (resource_depth (parts_here R.Resolver self.now) (found_of R.point target.now) segments) }
    {
        let root = self.resolver.resource_root(self.alloc, &target.state)?;
        if !lies_in(&target.place, &root) {
            return Ok(0);
        }
        let from = target.place.path.len().saturating_sub(segments);
        Ok(root.path.len().saturating_sub(from))
    }

    /// Returns the length of the pointer's part outside the target's resource.
    pub(crate) fn start_of_target(
        &self,
        target: &Target<R::State>,
        location: &Location,
    ) -> Result<usize, OutOfMemory>
        ensures start { Yields result (start_of (parts_here R.Resolver self.now) (found_of R.point target.now) location.now) }
    {
        let depth = self.resource_depth(target, segment_count(location.as_str()))?;
        Ok(segments_length(depth, location.as_str()))
    }
}
