//! A lack of memory.

use std::alloc::AllocError;

/// A lack of memory.
///
/// A function returns it only if the allocator refused a request.
pub type OutOfMemory = AllocError;
