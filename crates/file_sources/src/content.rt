//! The content of a file's bytes.

ghost use Rattle.std.specs.Prelude.{◌≡◌, [], ◌∷◌, ◌++◌, true, false, IfOk, List, Some};
ghost use Rattle.qml_syntax.specs.declared.token.Token.{Token};
ghost use Rattle.qml_syntax.specs.declared.token.TokenKind.TheVariants.{End};
ghost use Rattle.file_sources.specs.Contents.{IsReadContent, IsContent};

use js_machine::ParseFault;
use qml_base::{FILE_LIMIT, LoadCause, NoMemory, Place};
use qml_lexer::{LexFault, lex};
use qml_parser::{parse_document, parse_functions};
use qml_syntax::{Token, Tree};
use std::alloc::Global;

/// What a file is.
#[derive(Debug, Drop)]
pub enum Content {
    /// There is no such file.
    Missing,
    /// It has more than 4 MiB.
    TooLarge,
    /// It isn't read, with the place and the cause.
    Unread { at: Place, cause: LoadCause },
    /// A document.
    Document(Tree),
    /// A script file.
    Script(Tree),
}

/// The content of a document's tokens.
fn document_of(alloc: Global, tokens: &[Token]) -> Result<Content, NoMemory>
    ensures { (before : List Token) (e : Token) → tokens.now ≡ before ++ e ∷ [] → e.what ≡ End →
        IfOk result (λ content. IsReadContent false before e content) }
{
    match parse_document(alloc, tokens) {
        Ok(tree) => Ok(Content::Document(tree)),
        Err(ParseFault::Syntax { place }) => Ok(Content::Unread {
            at: place,
            cause: LoadCause::Syntax,
        }),
        Err(ParseFault::TooDeep { place }) => Ok(Content::Unread {
            at: place,
            cause: LoadCause::TooDeep,
        }),
        Err(ParseFault::NoMemory) => Err(NoMemory),
    }
}

/// The content of a script file's tokens.
fn script_of(alloc: Global, tokens: &[Token]) -> Result<Content, NoMemory>
    ensures { (before : List Token) (e : Token) → tokens.now ≡ before ++ e ∷ [] → e.what ≡ End →
        IfOk result (λ content. IsReadContent true before e content) }
{
    match parse_functions(alloc, tokens) {
        Ok(tree) => Ok(Content::Script(tree)),
        Err(ParseFault::Syntax { place }) => Ok(Content::Unread {
            at: place,
            cause: LoadCause::Syntax,
        }),
        Err(ParseFault::TooDeep { place }) => Ok(Content::Unread {
            at: place,
            cause: LoadCause::TooDeep,
        }),
        Err(ParseFault::NoMemory) => Err(NoMemory),
    }
}

/// What a file of these bytes is, as a script or as a document: too large past 4 MiB, then its first lexical fault, then the
/// first token with which no read prefix goes on, then the first node that stands too deep, and else its one tree.
pub fn content_of(alloc: Global, is_script: bool, bytes: &[u8]) -> Result<Content, NoMemory>
    ensures { IfOk result (λ content. IsContent is_script (Some bytes.now) content) }
{
    if bytes.len() > FILE_LIMIT {
        return Ok(Content::TooLarge);
    }
    match lex(alloc, bytes) {
        Ok(tokens) => {
            if is_script {
                script_of(alloc, &tokens)
            } else {
                document_of(alloc, &tokens)
            }
        }
        Err(LexFault::Bad { place, cause: _ }) => Ok(Content::Unread {
            at: place,
            cause: LoadCause::Syntax,
        }),
        Err(LexFault::NoMemory) => Err(NoMemory),
    }
}
