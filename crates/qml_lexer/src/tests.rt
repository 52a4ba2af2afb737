//! Tokens of examples, and each cause of a refusal at its place.

use crate::{LexFault, lex};
use qml_syntax::{Token, TokenKind};
use std::alloc::Global;
use std::mem::size_of;
use std::test::Fail;

/// The tokens in a short form: the kind and the place of each, with `/` before it where a line begins before it.
fn shown(alloc: Global, bytes: &[u8]) -> Result<String, Fail> {
    let mut out = String::new(alloc);
    if bytes.len() > 4_194_304 {
        return Ok(out);
    }
    match lex(alloc, bytes) {
        Ok(tokens) => {
            for token in &tokens {
                if token.after_line {
                    out.push('/')?;
                }
                let kind = match &token.what {
                    TokenKind::Name(_) => "name",
                    TokenKind::Number(_) => "number",
                    TokenKind::Version => "version",
                    TokenKind::Text(_) => "text",
                    TokenKind::Mark(_) => "mark",
                    TokenKind::Word(_) => "word",
                    TokenKind::End => "end",
                };
                let line = token.place.line;
                let column = token.place.column;
                out.push_str(kind)?;
                out.push_str(&format!(in alloc; " {line}:{column} ")?)?;
            }
        }
        Err(LexFault::Bad { place, cause }) => {
            let line = place.line;
            let column = place.column;
            out.push_str(&format!(in alloc; "Bad {line}:{column} {cause:?}")?)?;
        }
        Err(LexFault::NoMemory) => out.push_str("NoMemory")?,
    }
    Ok(out)
}

#[test]
fn refuses_with_place_and_cause(rt: HostRuntime) -> Result<(), Fail> {
    let alloc = rt.alloc();
    assert_eq!(rt; shown(alloc, b"08")?.as_str(), "Bad 1:1 Number");
    assert_eq!(rt;
        shown(alloc, b"9007199254740993")?.as_str(),
        "Bad 1:1 Number"
    );
    assert_eq!(rt; shown(alloc, b"'ab")?.as_str(), "Bad 1:1 OpenText");
    assert_eq!(rt; shown(alloc, b"\"\\q\"")?.as_str(), "Bad 1:1 Escape");
    assert_eq!(rt; shown(alloc, b"/* x")?.as_str(), "Bad 1:1 OpenComment");
    assert_eq!(rt; shown(alloc, b"#")?.as_str(), "Bad 1:1 Character");
    assert_eq!(rt; shown(alloc, b"a\r\n b\xff")?.as_str(), "Bad 2:3 NotUtf8");
    assert_eq!(rt; shown(alloc, b"a\n 0x")?.as_str(), "Bad 2:2 Number");
    Ok(())
}

#[test]
fn reads_kinds_and_places(rt: HostRuntime) -> Result<(), Fail> {
    let alloc = rt.alloc();
    assert_eq!(rt;
        shown(alloc, b"a /* x \n */ + if")?.as_str(),
        "name 1:1 /mark 2:5 word 2:7 end 2:9 "
    );
    assert_eq!(rt;
        shown(alloc, b"\xef\xbb\xbfx\r\n0X1f\r'\\u00e9'\n1.5a")?.as_str(),
        "name 1:1 /number 2:1 /text 3:1 /version 4:1 name 4:4 end 4:5 "
    );
    assert_eq!(rt;
        shown(alloc, b"\xc3\xa9 $ // t\n>>>=")?.as_str(),
        "name 1:1 name 1:4 /mark 2:1 end 2:5 "
    );
    Ok(())
}

#[test]
fn tokens_take_forty_bytes(rt: HostRuntime) {
    assert_eq!(rt; size_of::<Token>(), 40);
}
