//! Laws of the definitions: what is read is spelled so, and what is spelled so is read.
ghost use Rattle.std.specs.Prelude.{◌≡◌, ℕ, List, Some, Ok, Err};
ghost use Rattle.first_form.specs.Document.{program_of};
ghost use Rattle.first_form.specs.DocumentForm.{IsDocument};
ghost use Rattle.first_form.specs.Forms.{IsNumber};
ghost use Rattle.first_form.specs.Numbers.{number_of};
ghost use Rattle.first_form.specs.Script.{script_of};
ghost use Rattle.first_form.specs.ScriptForm.{IsScript, IsFirstBad};
ghost use Rattle.first_form.specs.declared.members.Member.{Member};
ghost use Rattle.qml_model.specs.declared.text.ScriptLine.{ScriptLine};

/// A number is read exactly where its decimal digits stand.
pub fn numbers_are_decimal_digits()
    ensures found { (n : ℕ) (bytes : List ℕ) → number_of bytes ≡ Some n → IsNumber n bytes }
    ensures only { (n : ℕ) (bytes : List ℕ) → IsNumber n bytes → number_of bytes ≡ Some n }
{}

/// Members are read from bytes exactly where the bytes are a document with these members, so at most one list of members is read.
pub fn documents_are_read_as_spelled()
    ensures found { (bytes : List ℕ) (members : List Member) → program_of bytes ≡ Some members → IsDocument members bytes }
    ensures only { (bytes : List ℕ) (members : List Member) → IsDocument members bytes → program_of bytes ≡ Some members }
{}

/// A script is read to these lines exactly where the bytes are a script that asks for them.
pub fn scripts_are_read_as_spelled()
    ensures found { (names : List (List ℕ)) (bytes : List ℕ) (read : List ScriptLine) → script_of names bytes ≡ Ok read → IsScript names read bytes }
    ensures only { (names : List (List ℕ)) (bytes : List ℕ) (read : List ScriptLine) → IsScript names read bytes → script_of names bytes ≡ Ok read }
{}

/// A script is refused at a line exactly where this is the first line that is neither left out nor of the form, or 0 where the script is too large.
pub fn first_bad_line_is_told()
    ensures found { (names : List (List ℕ)) (bytes : List ℕ) (n : ℕ) → script_of names bytes ≡ Err n → IsFirstBad names n bytes }
    ensures only { (names : List (List ℕ)) (bytes : List ℕ) (n : ℕ) → IsFirstBad names n bytes → script_of names bytes ≡ Err n }
{}
