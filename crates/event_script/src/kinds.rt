//! What a line asks for.

ghost use Rattle.std.specs.Prelude.{◌≡◌, ◌≢◌, ◌≤◌, codes, length, IfOk, MatchOption};
ghost use Rattle.std.specs.Str.{chars};
ghost use Rattle.event_script.specs.Script.{Asks};
ghost use Rattle.event_script.specs.Verbs.{spelling};
ghost use Rattle.event_script.specs.declared.kinds.Verb.{Verb};
ghost use Rattle.event_script.specs.declared.script.LineKind.{LineKind};

use crate::bodies::is_body;
use crate::numbers::time;
use crate::paths::is_path;
use crate::script::LineKind;
use qml_base::NoMemory;
use std::alloc::Global;

/// The word that a line begins with.
#[derive(Clone, Copy)]
enum Verb {
    Do,
    Advance,
    Tick,
    Print,
}

/// The verb that is written so.
#[tactic(auto, using(crate::proofs::VerbLemmas::spells, crate::proofs::VerbLemmas::spells_none))]
fn find_verb(word: &str) -> Option<Verb>
    ensures { MatchOption result ((v : Verb) → chars word.now ≢ spelling v) (λ v. chars word.now ≡ spelling v) }
{
    if word == "do" {
        return Some(Verb::Do);
    }
    if word == "print" {
        return Some(Verb::Print);
    }
    if word == "advance" {
        return Some(Verb::Advance);
    }
    if word == "tick" {
        return Some(Verb::Tick);
    }
    None
}

/// What `do` asks for.
#[tactic(auto, using(crate::proofs::VerbLemmas::does, crate::proofs::VerbLemmas::does_nothing))]
fn done(alloc: Global, rest: &str) -> Result<Option<LineKind>, NoMemory>
    requires { length rest.now ≤ 4194304 }
    ensures { IfOk result (λ asked. MatchOption asked ((kind : LineKind) → Asks (codes "do") (chars rest.now) kind → ⊥) (λ kind. Asks (codes "do") (chars rest.now) kind)) }
{
    if is_body(alloc, rest.as_bytes())? {
        Ok(Some(LineKind::Do))
    } else {
        Ok(None)
    }
}

/// What `advance` asks for.
#[tactic(auto, using(crate::proofs::VerbLemmas::advances_nothing))]
fn advanced(rest: &str) -> Option<LineKind>
    ensures { MatchOption result ((kind : LineKind) → Asks (codes "advance") (chars rest.now) kind → ⊥) (λ kind. Asks (codes "advance") (chars rest.now) kind) }
{
    match time(rest) {
        Some(milliseconds) => Some(LineKind::Advance(milliseconds)),
        None => None,
    }
}

/// What `tick` asks for.
#[tactic(auto, using(crate::proofs::VerbLemmas::ticks_nothing, crate::proofs::WordLemmas::no_chars, crate::proofs::WordLemmas::some_chars))]
fn ticked(rest: &str) -> Option<LineKind>
    ensures { MatchOption result ((kind : LineKind) → Asks (codes "tick") (chars rest.now) kind → ⊥) (λ kind. Asks (codes "tick") (chars rest.now) kind) }
{
    if rest.is_empty() {
        Some(LineKind::Tick)
    } else {
        None
    }
}

/// What `print` asks for.
#[tactic(auto, using(crate::proofs::VerbLemmas::prints_nothing, crate::proofs::WordLemmas::no_chars, crate::proofs::WordLemmas::some_chars))]
fn printed(rest: &str) -> Option<LineKind>
    ensures { MatchOption result ((kind : LineKind) → Asks (codes "print") (chars rest.now) kind → ⊥) (λ kind. Asks (codes "print") (chars rest.now) kind) }
{
    if rest.is_empty() {
        return Some(LineKind::Print);
    }
    if is_path(rest) {
        Some(LineKind::PrintPath)
    } else {
        None
    }
}

/// What a word asks for with what stands behind it; None where it asks for nothing.
#[tactic(auto, using(crate::proofs::VerbLemmas::no_verb))]
pub fn asked(alloc: Global, word: &str, rest: &str) -> Result<Option<LineKind>, NoMemory>
    requires { length rest.now ≤ 4194304 }
    ensures { IfOk result (λ asked. MatchOption asked ((kind : LineKind) → Asks (chars word.now) (chars rest.now) kind → ⊥) (λ kind. Asks (chars word.now) (chars rest.now) kind)) }
{
    match find_verb(word) {
        Some(Verb::Do) => done(alloc, rest),
        Some(Verb::Advance) => Ok(advanced(rest)),
        Some(Verb::Tick) => Ok(ticked(rest)),
        Some(Verb::Print) => Ok(printed(rest)),
        None => Ok(None),
    }
}
