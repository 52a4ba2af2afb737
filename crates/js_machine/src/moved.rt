//! What a token has done to the nodes and frames.

use crate::open::Now;

/// What is left to do where the tokens end, so that the nodes are those of the tree that was read.
#[derive(Clone, Copy, Debug, PartialEq, Eq)]
pub enum Rest {
    /// An expression is to be closed that binds as tightly as this, and may be assigned to or not.
    Closing(u8, bool),
    /// A statement is to be ended.
    Ended,
    /// A statement is to come.
    Begun,
    /// There is no tree.
    Nothing,
}

/// Where a token leads.
#[derive(Clone, Copy, Debug, PartialEq, Eq)]
pub enum Moved {
    /// It has been read.
    To(Now),
    /// No read prefix goes on with it.
    Stuck(Rest),
}
