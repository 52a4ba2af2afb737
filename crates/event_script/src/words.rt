//! The words of a line.

ghost use Rattle.std.specs.Prelude.{◌≡◌, ◌≤◌, length};
ghost use Rattle.std.specs.Str.{chars};
ghost use Rattle.qml_lexer.specs.Characters.{is_blank, behind};
ghost use Rattle.event_script.specs.Lines.{end_blanks, is_ink, rest_of, trimmed, without_end, word_of};

use qml_lexer::{Blanks, Class, behind_run, is_blank, split_run};

/// The characters that are no blanks.
struct Ink;

impl Class for Ink {
    ghost holds = { is_ink };

    fn has(&self, character: char) -> bool {
        !is_blank(character)
    }
}

/// The blanks at the end.
#[tactic(auto, using(crate::proofs::WordLemmas::all_at_the_end, crate::proofs::WordLemmas::behind_a_word))]
fn end_blanks(text: &str) -> &str
    ensures { chars result.now ≡ end_blanks (chars text.now) }
{
    let mut blanks = behind_run(text, &Ink);
    let mut rest = behind_run(blanks, &Blanks);
    'words: while !rest.is_empty() {
        blanks = behind_run(rest, &Ink);
        rest = behind_run(blanks, &Blanks);
    }
    blanks
}

/// What stands before the blanks at the end.
fn without_end(text: &str) -> &str
    ensures value { chars result.now ≡ without_end (chars text.now) }
    ensures short { length result.now ≤ length text.now }
{
    let blanks = end_blanks(text);
    &text[..text.len() - blanks.len()]
}

/// A line without its outer blanks.
#[tactic(auto, using(crate::proofs::WordLemmas::run_short))]
pub fn trimmed(text: &str) -> &str
    ensures value { chars result.now ≡ trimmed (chars text.now) }
    ensures short { length result.now ≤ length text.now }
{
    without_end(behind_run(text, &Blanks))
}

/// The first word of a trimmed line, and what stands behind the blanks that follow it.
#[tactic(auto, using(crate::proofs::WordLemmas::run_short))]
pub fn split_word(text: &str) -> (&str, &str)
    ensures word { chars result.0.now ≡ word_of (chars text.now) }
    ensures rest { chars result.1.now ≡ rest_of (chars text.now) }
    ensures short { length result.1.now ≤ length text.now }
{
    let (word, behind) = split_run(text, &Ink);
    (word, behind_run(behind, &Blanks))
}
