//! Bodies behind the word of a line.

ghost use Rattle.std.specs.Prelude.{◌≡◌, ◌≤◌, ◌<◌, length, MatchBool, IfOk};
ghost use Rattle.js_machine.specs.Front.{AreWhole};
ghost use Rattle.event_script.specs.Script.{IsBody, IsRead};

use js_machine::ParseFault;
use js_parser::parse_body;
use qml_base::NoMemory;
use qml_lexer::{LexFault, lex};
use qml_syntax::Token;
use std::alloc::Global;

/// Whether a list of statements reads all of these tokens but the last, which is the end.
#[tactic(auto, using(crate::proofs::BodyLemmas::reads_all, crate::proofs::BodyLemmas::ends_early, crate::proofs::BodyLemmas::reads_nothing, crate::proofs::BodyLemmas::too_deep))]
fn reads_all(alloc: Global, tokens: &[Token]) -> Result<bool, NoMemory>
    requires { AreWhole tokens.now }
    ensures { IfOk result (λ good. MatchBool good (IsRead tokens.now) (IsRead tokens.now → ⊥)) }
{
    match parse_body(alloc, tokens, 0) {
        Ok((_, end)) => {
            if end + 1 == tokens.len() {
                Ok(true)
            } else {
                Ok(false)
            }
        }
        Err(ParseFault::NoMemory) => Err(NoMemory),
        Err(ParseFault::Syntax { .. }) => Ok(false),
        Err(ParseFault::TooDeep { .. }) => Ok(false),
    }
}

/// Whether a list of statements stands there and nothing else (ECMA-262, 14.2 Block, StatementList), no node of it deeper than 100.
#[tactic(auto, using(crate::proofs::BodyLemmas::lexed_ends, crate::proofs::BodyLemmas::by_tokens, crate::proofs::BodyLemmas::unread))]
pub fn is_body(alloc: Global, text: &[u8]) -> Result<bool, NoMemory>
    requires { length text.now ≤ 4194304 }
    ensures { IfOk result (λ good. MatchBool good (IsBody text.now) (IsBody text.now → ⊥)) }
{
    match lex(alloc, text) {
        Ok(tokens) => {
            let good = reads_all(alloc, tokens.as_slice())?;
            Ok(good)
        }
        Err(LexFault::NoMemory) => Err(NoMemory),
        Err(LexFault::Bad { .. }) => Ok(false),
    }
}
