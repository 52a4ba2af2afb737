//! What whole texts are.

/// What a whole text is.
#[derive(Clone, Copy)]
pub enum Kind {
    /// An expression.
    Expression,
    /// An expression that is a statement.
    Statement,
    /// Another statement.
    Other,
    /// Statements as a body.
    Body,
    /// A document or a script file.
    File,
}
