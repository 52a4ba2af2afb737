//! Literals and declarations that are written as a reserved word.

ghost use Rattle.std.specs.Prelude.{◌≡◌};
ghost use Rattle.qml_syntax.specs.Spelling.{literal_word, declaration_word};

use crate::word::Word;

/// A literal that is a reserved word (ECMA-262, 12.9.1 and 12.9.2).
#[derive(Clone, Copy, Debug, PartialEq, Eq)]
pub enum Literal {
    /// `true`
    True,
    /// `false`
    False,
    /// `null`
    Null,
}

impl Literal {
    /// The word that it is written as.
    pub fn word(self) -> Word
        ensures { result ≡ literal_word self }
    {
        match self {
            Literal::True => Word::True,
            Literal::False => Word::False,
            Literal::Null => Word::Null,
        }
    }
}

/// What a declaration of locals begins with (ECMA-262, 14.3 Declarations and the Variable Statement).
#[derive(Clone, Copy, Debug, PartialEq, Eq)]
pub enum Declaration {
    /// `var`
    Var,
    /// `let`
    Let,
    /// `const`
    Const,
}

impl Declaration {
    /// The word that it is written as.
    pub fn word(self) -> Word
        ensures { result ≡ declaration_word self }
    {
        match self {
            Declaration::Var => Word::Var,
            Declaration::Let => Word::Let,
            Declaration::Const => Word::Const,
        }
    }
}
