//! Spaces, line ends, and the words that stand between spaces.
ghost use Rattle.std.specs.Prelude.{◌≡◌, ◌≤◌, length, IfSome};
ghost use Rattle.std.specs.Option.{option_map};
ghost use Rattle.first_form.specs.Blanks.{is_spaces, after_spaces, word_of, behind_word, lone_word, begins_with_line_feed, begins_with_line_end, after_gap, without_return, after_front};

/// Whether there are spaces alone.
pub fn only_spaces(bytes: &[u8]) -> bool
    ensures { result ≡ is_spaces bytes.now }
{
    bytes.iter().all(|b| *b == b' ')
}

/// What follows the spaces at the front.
pub fn behind_spaces(bytes: &[u8]) -> &[u8]
    ensures { result.now ≡ after_spaces bytes.now }
{
    let mut rest = bytes;
    'spaces: while let Some((b, after)) = rest.split_first() {
        if *b != b' ' {
            return rest;
        }
        rest = after;
    }
    rest
}

/// What stands before the first space, and the rest.
pub fn split_word(bytes: &[u8]) -> (&[u8], &[u8])
    ensures word { result.0.now ≡ word_of bytes.now }
    ensures rest { result.1.now ≡ behind_word bytes.now }
{
    'bytes: for (i, b) in bytes.iter().enumerate() {
        if *b == b' ' {
            return bytes.split_at(i);
        }
    }
    bytes.split_at(bytes.len())
}

/// The word that stands between spaces, with nothing else.
pub fn alone(bytes: &[u8]) -> Option<&[u8]>
    ensures { option_map (λ word. word.now) result ≡ lone_word bytes.now }
{
    let (word, rest) = split_word(behind_spaces(bytes));
    if only_spaces(rest) { Some(word) } else { None }
}

fn starts_with_line_feed(bytes: &[u8]) -> bool
    ensures { result ≡ begins_with_line_feed bytes.now }
{
    match bytes.first() {
        Some(b) => *b == b'\n',
        None => false,
    }
}

/// Whether a line end stands at the front.
pub fn starts_with_line_end(bytes: &[u8]) -> bool
    ensures { result ≡ begins_with_line_end bytes.now }
{
    match bytes.split_first() {
        Some((b, after)) => *b == b'\n' || *b == b'\r' && starts_with_line_feed(after),
        None => false,
    }
}

/// What follows the spaces and line ends at the front.
pub fn behind_gap(bytes: &[u8]) -> &[u8]
    ensures exact { result.now ≡ after_gap bytes.now }
    ensures few { length result.now ≤ length bytes.now }
{
    let mut rest = bytes;
    'blanks: while let Some((b, after)) = rest.split_first() {
        if *b != b' ' && !starts_with_line_end(rest) {
            return rest;
        }
        rest = after;
    }
    rest
}

/// The line without a carriage return at its end.
pub fn line_alone(line: &[u8]) -> &[u8]
    ensures { result.now ≡ without_return line.now }
{
    if line.ends_with(b"\r") {
        &line[..line.len() - 1]
    } else {
        line
    }
}

/// What follows this front.
pub fn behind_front<'a>(bytes: &'a [u8], front: &[u8]) -> Option<&'a [u8]>
    ensures exact { option_map (λ rest. rest.now) result ≡ after_front front.now bytes.now }
    ensures few { IfSome result (λ rest. length rest.now ≤ length bytes.now) }
{
    if bytes.starts_with(front) {
        Some(&bytes[front.len()..])
    } else {
        None
    }
}
