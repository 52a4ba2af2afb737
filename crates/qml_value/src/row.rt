//! What lists and fields are kept in.

ghost use Rattle.std.specs.Prelude.{◌≡◌, ◌<◌, [], ◌∷◌, ◌++◌, length, slice_set, OnOk, OnErr};

use std::alloc::AllocFailed;
use std::marker::Model;

/// Parts in order, which contracts see as the list of them. Only this crate makes one: a list by `List::from_vec`, fields
/// by `Fields::put`.
#[derive(Debug, Drop)]
pub struct Row<T> {
    parts: Vec<T>,
}

impl<T> Model for Row<T> {
    ghost use Rattle.std.specs.Prelude.{List};
    ghost use Rattle.std.specs.Coded.{coded_list};

    ghost Value = { List T };

    ghost coded = { coded_list T.code };

    ghost view = { λ row. row.parts.items };
}

impl<T> Row<T> {
    /// A row of these parts.
    pub(crate) fn of_vec(parts: Vec<T>) -> Row<T>
        ensures { result ≡ parts.items }
    {
        Row { parts }
    }

    /// Its parts, in order.
    pub fn parts(&self) -> &[T]
        ensures { result.now ≡ self.now }
    {
        self.parts.as_slice()
    }

    /// How many parts it has.
    pub fn len(&self) -> usize
        ensures { result ≡ length self.now }
    {
        self.parts.len()
    }

    /// Its parts by themselves.
    pub fn into_vec(self) -> Vec<T>
        ensures { result.items ≡ self }
    {
        let Row { parts } = self;
        parts
    }
}

impl<T: Drop> Row<T> {
    /// Puts a part in the place of another.
    pub(crate) fn set(&mut self, at: usize, part: T)
        requires { at < length self.old }
        ensures { self.new ≡ slice_set self.old at part }
    {
        self.parts[at] = part;
    }

    /// Adds a part at the end. On an error the row stays as it was.
    pub(crate) fn push(&mut self, part: T) -> Result<(), AllocFailed<T>>
        ensures ok { OnOk result (self.new ≡ self.old ++ part ∷ []) }
        ensures err { OnErr result (self.new ≡ self.old) }
    {
        self.parts.push(part)
    }
}
