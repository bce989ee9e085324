use std::fmt::Debug;

/// Whether a keyword for one type also accepts `null`.
pub trait Nullability: Debug {
    const ACCEPTS_NULL: bool;
}

/// Accepts `null` too.
#[derive(Clone, Copy, Debug, PartialEq, Eq)]
pub struct Nullable;

/// Accepts `null` only if `null` is of the keyword's type.
#[derive(Clone, Copy, Debug, PartialEq, Eq)]
pub struct NotNullable;

impl Nullability for Nullable {
    const ACCEPTS_NULL: bool = true;
}

impl Nullability for NotNullable {
    const ACCEPTS_NULL: bool = false;
}
