//! An argument that was written.

/// A text that was written, and the name of its argument. It may be a key or a PIN, and so has no
/// `Debug`.
#[derive(Clone, Copy)]
pub struct Entry<'a> {
    /// The name of the argument: of an option without its hyphens.
    pub name: &'static str,
    /// The text; of a flag `true`.
    pub text: &'a str,
}
