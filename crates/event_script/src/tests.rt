use super::*;
use std::test::Fail;

/// What the lines of a script are, a letter and the number each.
fn shown(rt: &HostRuntime, script: &[u8]) -> Result<String, Fail> {
    let mut out = String::new(rt.alloc());
    match read_script(rt.alloc(), script) {
        Ok(lines) => {
            for line in &lines {
                let kind = match line.what {
                    LineKind::Do => "do",
                    LineKind::Advance(_) => "advance",
                    LineKind::Tick => "tick",
                    LineKind::Print => "print",
                    LineKind::PrintPath => "path",
                };
                out.push_str(kind)?;
                out.push_str(":")?;
                out.push_str(line.number.to_string(rt.alloc())?.as_str())?;
                out.push_str(" ")?;
            }
        }
        Err(ScriptFault::BadLine { line }) => {
            out.push_str("bad ")?;
            out.push_str(line.to_string(rt.alloc())?.as_str())?;
        }
        Err(ScriptFault::TooLarge) => out.push_str("too large")?,
        Err(ScriptFault::NoMemory) => out.push_str("no memory")?,
    }
    Ok(out)
}

/// Scripts, and what is read of them.
const ROWS: [(&[u8], &str); 30] = [
    (b"", ""),
    (b"do a = 1", "do:1 "),
    (
        b"do a = 1\ndo b = 2\r\ndo c = 3\rprint",
        "do:1 do:2 do:3 print:4 ",
    ),
    (b"do", "do:1 "),
    (b"  do \t a = 1; b()  ", "do:1 "),
    (b"\xef\xbb\xbfprint\n", "print:1 "),
    (b"\xc2\xa0tick\xef\xbb\xbf", "tick:1 "),
    (b"# nothing\n\n \t\nprint a", "path:4 "),
    (b" # is no comment", "bad 1"),
    (b"print a.b.c", "path:1 "),
    (b"print Math", "path:1 "),
    (b"print a.", "bad 1"),
    (b"print a . b", "bad 1"),
    (b"print a b", "bad 1"),
    (b"print if", "bad 1"),
    (b"print a.1", "bad 1"),
    (b"tick 1", "bad 1"),
    (b"jump", "bad 1"),
    (b"print\njump", "bad 2"),
    (b"advance 0", "advance:1 "),
    (b"advance 1000000000000", "advance:1 "),
    (b"advance 1000000000001", "bad 1"),
    (b"advance 99999999999999999999999999", "bad 1"),
    (b"advance 01", "bad 1"),
    (b"advance -1", "bad 1"),
    (b"advance", "bad 1"),
    (b"do a = ", "bad 1"),
    (b"do a }", "bad 1"),
    (b"do 'open", "bad 1"),
    (b"print\n\xff", "bad 2"),
];

#[test]
fn reads_each_kind_of_line(rt: HostRuntime) -> Result<(), Fail> {
    for (script, wanted) in &ROWS {
        let found = shown(&rt, script)?;
        assert_eq!(rt; found.as_str(), *wanted);
    }
    Ok(())
}

#[test]
fn keeps_what_is_shown_and_how_far_time_goes(rt: HostRuntime) -> Result<(), Fail> {
    let lines = read_script(rt.alloc(), b"  advance  250 \n")?;
    let line = lines.first().ok_or("a line")?;
    assert!(rt; line.what == LineKind::Advance(250));
    assert_eq!(rt;
        line.text.to_utf8(rt.alloc())?.as_slice(),
        b"advance  250".as_slice()
    );
    Ok(())
}

#[test]
fn refuses_more_than_four_mebibytes(rt: HostRuntime) -> Result<(), Fail> {
    let mut script = Vec::new(rt.alloc());
    script.resize(4_194_304, b'#')?;
    assert_eq!(rt; shown(&rt, script.as_slice())?.as_str(), "");
    script.push(b'#')?;
    assert_eq!(rt; shown(&rt, script.as_slice())?.as_str(), "too large");
    Ok(())
}
