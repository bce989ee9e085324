//! Facts that no clause states and that a check computes.
//!
//! They are the sizes of the values that a run moves, and the two marks that say whether a keyword
//! accepts `null`. An evaluation, an error and a unit are each in a box of their own, so that an
//! answer, a reply and a keyword's request are a few words long in every mode.

use schema_drafts::{NotNullable, Nullability, Nullable};
use schema_reports::OutOfMemory;
use schema_traits::{Answer, Reply, Step};
use std::mem::size_of;

const _: () = prove!(size_of::<Answer<'static>>() <= 32);

const _: () = prove!(size_of::<Reply<'static>>() <= 32);

// (an enum has a tag of its own, so the result of a reply is one word longer)
const _: () = prove!(size_of::<Result<Reply<'static>, OutOfMemory>>() <= 40);

// (the largest request of a step is a match at a spot: the part that the keyword owns, the subject,
// and a step below the spot by the instance's own name, which takes three of the seven words; so no
// turn allocates the place of its question)
const _: () = prove!(size_of::<Step<'static>>() <= 56);

// (the result of a turn is one word longer, too)
const _: () = prove!(size_of::<Result<Step<'static>, OutOfMemory>>() <= 64);

const _: () = prove!(Nullable::ACCEPTS_NULL);

const _: () = prove!(!NotNullable::ACCEPTS_NULL);
