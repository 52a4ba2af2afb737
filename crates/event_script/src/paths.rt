//! Paths: names joined by dots.

ghost use Rattle.std.specs.Prelude.{◌≡◌, true, false};
ghost use Rattle.std.specs.Str.{chars};
ghost use Rattle.qml_lexer.specs.Characters.{run, behind};
ghost use Rattle.event_script.specs.Script.{IsPath, is_no_dot};

use qml_lexer::{Class, behind_run, is_name, split_first_char, split_run};

/// The characters that are no dots.
struct NoDot;

impl Class for NoDot {
    ghost holds = { is_no_dot };

    fn has(&self, character: char) -> bool {
        character != '.'
    }
}

/// What stands before the first dot.
fn front_name(text: &str) -> &str
    ensures { chars result.now ≡ run is_no_dot (chars text.now) }
{
    split_run(text, &NoDot).0
}

/// The first dot and what stands behind it.
fn behind_name(text: &str) -> &str
    ensures { chars result.now ≡ behind is_no_dot (chars text.now) }
{
    behind_run(text, &NoDot)
}

/// Whether the text is names joined by dots.
#[tactic(auto, using(crate::proofs::PathLemmas::no_name))]
pub fn is_path(text: &str) -> bool
    ensures yes { result ≡ true → IsPath (chars text.now) }
    ensures no { result ≡ false → IsPath (chars text.now) → ⊥ }
{
    if !is_name(front_name(text)) {
        return false;
    }
    let mut left = behind_name(text);
    'names: while let Some((_, rest)) = split_first_char(left) {
        if !is_name(front_name(rest)) {
            return false;
        }
        left = behind_name(rest);
    }
    true
}
