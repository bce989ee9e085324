//! The fixed input of a compilation.
//!
//! The input (`Compiler`) and what is filled (`Compilation`) are two values, so each contract of
//! the compiler's functions is about a task and a table. One clause states both what a function
//! returns and why it refuses, because each clause is proved at each return.
pub use schema_keys::CompileOptions;
use std::alloc::Global;

/// The fixed input of a compilation.
///
/// `nested_limit` is how many targets of `$ref` and `$dynamicRef` may be open one inside another; a
/// further one is compiled later. The functions of the compiler are methods of this type, and fill
/// a `Compilation`.
#[derive_where(Clone, Copy)]
pub struct Compiler<'p, R, T> {
    pub alloc: Global,
    pub resolver: &'p R,
    pub table: &'p T,
    pub options: &'p CompileOptions,
    pub nested_limit: usize,
}
