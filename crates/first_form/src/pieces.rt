//! Bytes cut at marks.
ghost use Rattle.std.specs.Prelude.{◌≡◌, ◌<◌, ◌+◌, length, IfSome, MatchOption};
ghost use Rattle.std.specs.Option.{option_map};
ghost use Rattle.first_form.specs.Pieces.{cut_of, pieces_of, last, piece};

/// The first of some marks, with what stands before and after it.
#[derive(Clone, Copy)]
pub struct Cut<'a> {
    pub before: &'a [u8],
    pub mark: u8,
    pub after: &'a [u8],
}

/// Cuts at the first of the marks.
pub fn cut_at<'a>(bytes: &'a [u8], marks: &[u8]) -> Option<Cut<'a>>
    ensures exact { option_map (λ c. record { before = c.before.now; mark = c.mark; after = c.after.now }) result ≡ cut_of marks.now bytes.now }
    ensures pieces { MatchOption result (pieces_of marks.now bytes.now ≡ last bytes.now) (λ c. pieces_of marks.now bytes.now ≡ piece c.before.now c.mark (pieces_of marks.now c.after.now)) }
    ensures shorter { IfSome result (λ c. length c.before.now + length c.after.now + 1 ≡ length bytes.now) }
{
    for (i, b) in bytes.iter().enumerate() {
        if marks.contains(b) {
            return Some(Cut {
                before: &bytes[..i],
                mark: *b,
                after: &bytes[i + 1..],
            });
        }
    }
    None
}
