//! Reads that failed, by the names of their files.
ghost use Rattle.std.specs.Prelude.{◌≡◌, ◌≤◌, [], Err};

use crate::ReadFault;
use std::alloc::{AllocError, Global};

/// The names of the files whose reading failed, oldest first, and how many these are.
#[derive(Drop)]
pub struct Failures {
    names: Vec<String>,
    count: u64,
}

impl Failures {
    ghost use Rattle.qml_outside.specs.Failures.{names_in, count_in};
    ghost use Rattle.qml_outside.specs.Causes.{CountsRead, NamesFailed};

    /// No read failed yet.
    pub fn new(alloc: Global) -> Failures
        ensures names { names_in result ≡ [] }
        ensures count { count_in result ≡ 0 }
    {
        Failures {
            names: Vec::new(alloc),
            count: 0,
        }
    }

    /// Keeps the name of a file whose reading failed. NoMemory says that it was not kept.
    pub fn keep(&mut self, alloc: Global, name: &str) -> ReadFault
        ensures later { count_in self.old ≤ count_in self.new }
        ensures cause { CountsRead {T = Unit} (count_in self.old) (count_in self.new) (Err result) }
        ensures named { NamesFailed {T = Unit} (names_in self.old) (names_in self.new) name.now (Err result) }
    {
        let own = match String::from_str(alloc, name) {
            Ok(own) => own,
            Err(_) => return ReadFault::NoMemory,
        };
        match self.names.push(own) {
            Ok(()) => {
                self.count = self.count.saturating_add(1);
                ReadFault::Failed
            }
            Err(_) => ReadFault::NoMemory,
        }
    }
}
