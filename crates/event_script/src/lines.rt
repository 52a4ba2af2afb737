//! The lines of bytes.

ghost use Rattle.std.specs.Prelude.{◌≡◌, ◌<◌, ◌≤◌, [], ◌∷◌, true, get_or, length, take, drop, IfSome, MatchOption};
ghost use Rattle.event_script.specs.Lines.{ends_line, lines_of};

/// Whether the byte ends a line, alone or with another.
fn ends_line(byte: u8) -> bool
    ensures { result ≡ ends_line byte }
{
    byte == b'\n' || byte == b'\r'
}

/// What stands behind the end of a line, of which the first byte stands before `rest`: CR LF is one end.
#[tactic(auto, using(crate::proofs::LineLemmas::return_and_feed, crate::proofs::LineLemmas::another_end))]
fn behind_end(first: u8, rest: &[u8]) -> &[u8]
    requires { ends_line first ≡ true }
    ensures lines { lines_of (first ∷ rest.now) ≡ [] ∷ lines_of result.now }
    ensures short { length result.now ≤ length rest.now }
{
    match rest.split_first() {
        Some((next, more)) => {
            if first == b'\r' && *next == b'\n' {
                more
            } else {
                rest
            }
        }
        None => rest,
    }
}

/// The line that ends with the byte at a place, and what stands behind its end.
fn line_at(bytes: &[u8], i: usize) -> (&[u8], &[u8])
    requires within { i < length bytes.now }
    requires ends { ends_line (get_or bytes.now i 0) ≡ true }
    ensures front { result.0.now ≡ take i bytes.now }
    ensures lines { lines_of (drop i bytes.now) ≡ [] ∷ lines_of result.1.now }
    ensures shorter { length result.1.now < length bytes.now }
{
    let (line, end) = bytes.split_at(i);
    match end.split_first() {
        Some((first, rest)) => (line, behind_end(*first, rest)),
        None => (line, end),
    }
}

/// The first line and what stands behind its end; None where the bytes are one line.
pub fn split_line(bytes: &[u8]) -> Option<(&[u8], &[u8])>
    ensures lines { MatchOption result (lines_of bytes.now ≡ bytes.now ∷ []) (λ p. lines_of bytes.now ≡ p.0.now ∷ lines_of p.1.now) }
    ensures shorter { IfSome result (λ p. length p.1.now < length bytes.now) }
    ensures short { IfSome result (λ p. length p.0.now ≤ length bytes.now) }
{
    'bytes: for i in 0..bytes.len() {
        if ends_line(bytes[i]) {
            let (line, rest) = line_at(bytes, i);
            return Some((line, rest));
        }
    }
    None
}
