//! What is found.

/// What a name in code finds.
#[derive(Clone, Copy, Debug)]
pub enum Found {
    /// An object of the document, by its id.
    Id(usize),
    /// A function, by the row of its member and the object that declares it.
    Function {
        document: usize,
        object: usize,
        row: usize,
    },
    /// A method of a built-in type.
    Method,
    /// Another member.
    Member,
}
