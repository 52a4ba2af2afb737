//! What documents and script files have beside tokens: words that are names elsewhere, how a version is written, and what
//! stands before `property`.

ghost use Rattle.std.specs.Prelude.{◌≡◌, IfOk};
ghost use Rattle.qml_syntax.specs.Spelling.{contextual_name};

use qml_base::NoMemory;
use qml_text::Text;
use std::alloc::Global;

/// What stands before the word `property` (Qt 5.15, "QML Object Attributes", "Property Attributes").
#[derive(Clone, Copy, Debug, PartialEq, Eq)]
pub enum Adjective {
    /// Nothing.
    Ordinary,
    /// `default`
    Default,
    /// `readonly`
    ReadOnly,
}

/// The version of a module that is imported (Qt 5.15, "Import Statements").
#[derive(Clone, Copy, Debug, PartialEq, Eq)]
pub enum Version {
    /// None is written.
    Absent,
    /// Two numbers with a dot between them.
    Full,
    /// One number.
    Number(u64),
}

/// A word of documents that is a name elsewhere.
#[derive(Clone, Copy, Debug, PartialEq, Eq)]
pub enum Contextual {
    As,
    List,
    Id,
    Property,
    ReadOnly,
    Alias,
    Signal,
    Pragma,
    Library,
}

impl Contextual {
    /// The characters that it is written with.
    fn letters(self) -> &'static [u8]
        ensures { result.now ≡ contextual_name self }
    {
        match self {
            Contextual::As => b"as",
            Contextual::List => b"list",
            Contextual::Id => b"id",
            Contextual::Property => b"property",
            Contextual::ReadOnly => b"readonly",
            Contextual::Alias => b"alias",
            Contextual::Signal => b"signal",
            Contextual::Pragma => b"pragma",
            Contextual::Library => b"library",
        }
    }

    /// The name that it is written as.
    pub(crate) fn name(self, alloc: Global) -> Result<Text, NoMemory>
        ensures { IfOk result (λ t. t ≡ contextual_name self) }
    {
        match Text::from_latin1(alloc, self.letters()) {
            Ok(name) => Ok(name),
            Err(_) => Err(NoMemory),
        }
    }
}
