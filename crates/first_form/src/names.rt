//! Names of properties.
ghost use Rattle.std.specs.Prelude.{◌≡◌};
ghost use Rattle.std.specs.Char.{is_ascii_alphanumeric};
ghost use Rattle.std.specs.List.{list_any, list_all};
ghost use Rattle.std.specs.Str.{bytes_eq};
ghost use Rattle.first_form.specs.Names.{begins_lowercase, is_spelled, is_kept, is_name};

/// What no property may be called: the reserved words of ECMA-262 (12.7.2 Keywords and Reserved Words), and words that QML gives a meaning.
pub const RESERVED: [&str; 47] = [
    "break",
    "case",
    "catch",
    "class",
    "const",
    "continue",
    "debugger",
    "default",
    "delete",
    "do",
    "else",
    "enum",
    "export",
    "extends",
    "false",
    "finally",
    "for",
    "function",
    "if",
    "import",
    "in",
    "instanceof",
    "let",
    "new",
    "null",
    "return",
    "super",
    "switch",
    "this",
    "throw",
    "true",
    "try",
    "typeof",
    "var",
    "void",
    "while",
    "with",
    "yield",
    "id",
    "property",
    "signal",
    "readonly",
    "alias",
    "list",
    "as",
    "objectName",
    "destroy",
];

fn begins_with_lowercase(word: &[u8]) -> bool
    ensures { result ≡ begins_lowercase word.now }
{
    match word.first() {
        Some(b) => b.is_ascii_lowercase(),
        None => false,
    }
}

fn is_among(word: &[u8], words: &[&str]) -> bool
    ensures { result ≡ list_any (λ r. bytes_eq r.now word.now) words.now }
{
    words.iter().any(|r| r.as_bytes() == word)
}

fn only_letters_and_digits(word: &[u8]) -> bool
    ensures { result ≡ list_all is_ascii_alphanumeric word.now }
{
    word.iter().all(|b| b.is_ascii_alphanumeric())
}

fn is_spelled_so(word: &[u8]) -> bool
    ensures { result ≡ is_spelled word.now }
{
    begins_with_lowercase(word) && only_letters_and_digits(word)
}

fn has_meaning(word: &[u8]) -> bool
    ensures { result ≡ is_kept word.now }
{
    is_among(word, &RESERVED) || word.ends_with(b"Changed")
}

/// Whether a word may be the name of a property.
#[tactic(auto, unfolding(crate::specs::Names::is_name))]
pub fn may_be_name(word: &[u8]) -> bool
    ensures { result ≡ is_name word.now }
{
    is_spelled_so(word) && !has_meaning(word)
}
