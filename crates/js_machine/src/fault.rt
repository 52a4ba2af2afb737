//! Why tokens are not read.

use qml_base::Place;

/// Why an expression, a statement or a body is not read.
#[derive(Clone, Copy, Debug, PartialEq, Eq)]
pub enum ParseFault {
    /// No tree reads the tokens before the first one with which no read prefix goes on; this is that one's place.
    Syntax { place: Place },
    /// There is a tree, and a node of it stands deeper than 100; this is the first token of the first such node.
    TooDeep { place: Place },
    /// There was no memory.
    NoMemory,
}
