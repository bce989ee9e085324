//! The options of a compilation.

/// The options that a compilation reads.
#[derive(Drop)]
pub struct CompileOptions {
    /// Whether formats are validated.
    ///
    /// `None` leaves that to the draft and the vocabularies.
    pub formats: Option<bool>,
    /// The URIs of the custom vocabularies that a schema may require.
    pub declared: Vec<String>,
    /// The maximum number of keys. A schema that reaches more is refused.
    pub node_limit: usize,
}
