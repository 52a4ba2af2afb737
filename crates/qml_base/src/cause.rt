//! Why an evaluation or an action throws.

/// Why an evaluation or an action throws. The trace prints a cause by the word that stands in brackets here.
#[derive(Clone, Copy, Debug, PartialEq, Eq)]
pub enum Cause {
    /// Nothing has the name, or a property that is written is missing (`name`).
    Name,
    /// A member of null or undefined is asked for (`null`).
    Null,
    /// A value is of another kind than is asked for (`kind`).
    Kind,
    /// A division by zero (`zero`).
    Zero,
    /// A quotient that is no whole number (`inexact`).
    Inexact,
    /// A place outside a text, a list or rows (`range`).
    Range,
    /// A value that weighs too much or is nested too deep (`size`).
    Size,
    /// More nodes than one evaluation may begin (`nodes`).
    Nodes,
    /// More calls open than one evaluation may have (`depth`).
    Depth,
    /// What is called can't be called (`call`).
    Call,
    /// What is written can only be read (`readonly`).
    Readonly,
    /// An object is to be destroyed that wasn't made by a call (`static`).
    Static,
    /// An object is condemned or gone (`gone`).
    Gone,
    /// A host failed (`host`).
    Host,
    /// There is no host (`nohost`).
    Nohost,
}
