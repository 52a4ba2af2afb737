//! Why a call on texts gives no answer.

ghost use Rattle.std.specs.Prelude.{◌≡◌};
ghost use Rattle.qml_text.specs.declared.fault.TextFault.TheVariants as fault;

use std::alloc::{AllocError, AllocFailed};
use thiserror::Error;

/// There was no memory.
#[derive(Clone, Copy, Debug, PartialEq, Eq, Error)]
#[error("there was no memory")]
pub struct NoMemory;

impl From<AllocError> for NoMemory {
    fn from(_error: AllocError) -> NoMemory {
        NoMemory
    }
}

impl<T: Drop> From<AllocFailed<T>> for NoMemory {
    fn from(_error: AllocFailed<T>) -> NoMemory {
        NoMemory
    }
}

/// Why bytes are not read as a text.
#[derive(Clone, Copy, Debug, PartialEq, Eq, Error)]
pub enum TextFault {
    /// The bytes aren't UTF-8; `at` is the length of their longest prefix that is.
    #[error("the bytes aren't UTF-8 from byte {at} on")]
    BadByte { at: usize },
    /// There was no memory.
    #[error("there was no memory")]
    NoMemory,
}

impl From<NoMemory> for TextFault {
    ghost from_gives = { λ _ e. e ≡ fault.NoMemory };

    fn from(_error: NoMemory) -> TextFault {
        TextFault::NoMemory
    }
}
