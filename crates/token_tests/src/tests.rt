//! The table of tokens, from the definitions of marks, words, escapes and line ends that QML and ECMA-262 give.

use qml_lexer::{LexFault, lex};
use qml_syntax::{Token, TokenKind};
use std::alloc::Global;
use std::test::Fail;

/// Each mark with its name.
const MARKS: [(&str, &str); 50] = [
    ("{", "LeftBrace"),
    ("}", "RightBrace"),
    ("(", "LeftParen"),
    (")", "RightParen"),
    ("[", "LeftBracket"),
    ("]", "RightBracket"),
    (";", "Semicolon"),
    (",", "Comma"),
    (".", "Dot"),
    (":", "Colon"),
    ("?", "Question"),
    ("??", "Coalesce"),
    ("+", "Plus"),
    ("-", "Minus"),
    ("*", "Star"),
    ("/", "Slash"),
    ("%", "Percent"),
    ("++", "Increment"),
    ("--", "Decrement"),
    ("=", "Assign"),
    ("+=", "PlusAssign"),
    ("-=", "MinusAssign"),
    ("*=", "StarAssign"),
    ("/=", "SlashAssign"),
    ("%=", "PercentAssign"),
    ("==", "Equal"),
    ("!=", "NotEqual"),
    ("===", "StrictEqual"),
    ("!==", "StrictNotEqual"),
    ("<", "Less"),
    (">", "Greater"),
    ("<=", "LessEqual"),
    (">=", "GreaterEqual"),
    ("&&", "And"),
    ("||", "Or"),
    ("!", "Not"),
    ("&", "BitAnd"),
    ("|", "BitOr"),
    ("^", "BitXor"),
    ("~", "BitNot"),
    ("<<", "ShiftLeft"),
    (">>", "ShiftRight"),
    (">>>", "ShiftRightUnsigned"),
    ("&=", "BitAndAssign"),
    ("|=", "BitOrAssign"),
    ("^=", "BitXorAssign"),
    ("<<=", "ShiftLeftAssign"),
    (">>=", "ShiftRightAssign"),
    (">>>=", "ShiftRightUnsignedAssign"),
    ("=>", "Arrow"),
];

/// The reserved words, with a blank between two.
const WORDS: &str = "break case catch class const continue debugger default delete do else \
    enum export extends false finally for function if import in instanceof \
    let new null return super switch this throw true try typeof var void \
    while with yield";

/// Each escape with the unit that it stands for.
const ESCAPES: [(&str, u16); 13] = [
    ("\\n", 0x0a),
    ("\\r", 0x0d),
    ("\\t", 0x09),
    ("\\b", 0x08),
    ("\\f", 0x0c),
    ("\\v", 0x0b),
    ("\\0", 0x00),
    ("\\\\", 0x5c),
    ("\\'", 0x27),
    ("\\\"", 0x22),
    ("\\x7E", 0x7e),
    ("\\u00fF", 0xff),
    ("\\uD800", 0xd800),
];

/// A token of each kind.
const KINDS: [&str; 9] = [
    "name", "12", "0xf", "1.5", "'t'", ">>>=", "while", "// c", "/* c */",
];

/// The tokens of a text.
fn tokens(alloc: Global, source: &str) -> Result<Vec<Token>, Fail> {
    if source.len() > 4_194_304 {
        return Ok(Vec::new(alloc));
    }
    Ok(lex(alloc, source.as_bytes())?)
}

/// How bytes are refused: place and cause, or `read`.
fn refusal(alloc: Global, source: &[u8]) -> Result<String, Fail> {
    if source.len() > 4_194_304 {
        return Ok(String::new(alloc));
    }
    match lex(alloc, source) {
        Ok(_) => Ok(String::from_str(alloc, "read")?),
        Err(LexFault::NoMemory) => Ok(String::from_str(alloc, "no memory")?),
        Err(LexFault::Bad { place, cause }) => {
            let line = place.line;
            let column = place.column;
            Ok(format!(in alloc; "{line}:{column} {cause:?}")?)
        }
    }
}

#[test]
fn reads_every_mark(rt: HostRuntime) -> Result<(), Fail> {
    for (spelling, name) in &MARKS {
        let found = tokens(rt.alloc(), spelling)?;
        assert_eq!(rt; found.len(), 2);
        let shown = match &found[0].what {
            TokenKind::Mark(mark) => format!(in rt.alloc(); "{mark:?}")?,
            _ => String::new(rt.alloc()),
        };
        assert_eq!(rt; shown.as_str(), *name);
    }
    Ok(())
}

#[test]
fn reads_every_word(rt: HostRuntime) -> Result<(), Fail> {
    for spelling in WORDS.split(' ') {
        let found = tokens(rt.alloc(), spelling)?;
        assert_eq!(rt; found.len(), 2);
        let mut shown = match &found[0].what {
            TokenKind::Word(word) => format!(in rt.alloc(); "{word:?}")?,
            _ => String::new(rt.alloc()),
        };
        shown.make_ascii_lowercase();
        assert_eq!(rt; shown.as_str(), spelling);
    }
    Ok(())
}

#[test]
fn reads_every_escape(rt: HostRuntime) -> Result<(), Fail> {
    for (spelling, unit) in &ESCAPES {
        let source = format!(in rt.alloc(); "\"a{spelling}b\"")?;
        let found = tokens(rt.alloc(), source.as_str())?;
        assert_eq!(rt; found.len(), 2);
        let units = match &found[0].what {
            TokenKind::Text(text) => text.copy(rt.alloc())?,
            _ => return Err(Fail::from("no text")),
        };
        assert_eq!(rt; units.units(), [0x61, *unit, 0x62].as_slice());
    }
    Ok(())
}

#[test]
fn ends_lines_in_three_ways(rt: HostRuntime) -> Result<(), Fail> {
    for line_end in ["\n", "\r\n", "\r"] {
        for kind in &KINDS {
            let source = format!(in rt.alloc(); "{kind}{line_end}  end")?;
            let found = tokens(rt.alloc(), source.as_str())?;
            assert!(rt; found.len() >= 2);
            let last = &found[found.len() - 2];
            assert_eq!(rt; last.place.line, 2);
            assert_eq!(rt; last.place.column, 3);
            assert!(rt; last.after_line);
        }
    }
    Ok(())
}

#[test]
fn says_what_is_wrong(rt: HostRuntime) -> Result<(), Fail> {
    let alloc = rt.alloc();
    match lex(alloc, b"a\n 08") {
        Err(fault) => {
            let said = format!(in alloc; "{fault}")?;
            assert_eq!(rt;
                said.as_str(),
                "line 2, column 2: these digits are no number"
            );
        }
        Ok(_) => return Err(Fail::from("read")),
    }
    Ok(())
}

#[test]
fn refuses_bad_input(rt: HostRuntime) -> Result<(), Fail> {
    let alloc = rt.alloc();
    assert_eq!(rt; refusal(alloc, b"ab\xe2\x82")?.as_str(), "1:3 NotUtf8");
    assert_eq!(rt; refusal(alloc, b"\n\xed\xa0\x80")?.as_str(), "2:1 NotUtf8");
    assert_eq!(rt; refusal(alloc, b"a\xc0\x80")?.as_str(), "1:2 NotUtf8");
    assert_eq!(rt; refusal(alloc, b"9007199254740992")?.as_str(), "read");
    assert_eq!(rt; refusal(alloc, b"9007199254740993")?.as_str(), "1:1 Number");
    assert_eq!(rt; refusal(alloc, b"1_0")?.as_str(), "1:1 Number");
    assert_eq!(rt; refusal(alloc, b"1e3")?.as_str(), "1:1 Number");
    assert_eq!(rt; refusal(alloc, b"1.5.2")?.as_str(), "read");
    assert_eq!(rt; refusal(alloc, b"x = 'a\n'")?.as_str(), "1:5 OpenText");
    assert_eq!(rt; refusal(alloc, b"\"\\x4\"")?.as_str(), "1:1 Escape");
    Ok(())
}
