//! Lines and places.

ghost use Rattle.std.specs.Prelude.{◌≡◌, ◌≤◌, ◌<◌, ◌+◌, ◌-◌, length};
ghost use Rattle.qml_lexer.specs.Places as s;
ghost use Rattle.qml_lexer.specs.Places.{IsLineAt};

use qml_base::{FILE_LIMIT, Place};

/// The most bytes that are read.
pub const MOST_BYTES: usize = FILE_LIMIT;

/// A line: its number from 1 on, and how many bytes stand before it.
#[derive(Clone, Copy, Debug, PartialEq, Eq)]
pub struct Line {
    pub number: u32,
    pub start: usize,
}

impl Line {
    /// The place of the byte `at` on this line.
    pub fn place(self, at: usize) -> Place
        requires start { self.start ≤ at }
        requires bound { at ≤ MOST_BYTES }
        ensures { result ≡ record { line = self.number; column = 1 + (at - self.start) } }
    {
        Place {
            line: self.number,
            column: (1 + (at - self.start)) as u32,
        }
    }
}

/// Whether a line ends with the byte `at`: at LF, and at CR where no LF follows.
fn ends_line(bytes: &[u8], at: usize) -> bool
    requires { at < length bytes.now }
    ensures { result ≡ s.ends_line bytes.now at }
{
    bytes[at] == b'\n' || (bytes[at] == b'\r' && !(at + 1 < bytes.len() && bytes[at + 1] == b'\n'))
}

/// The line on which the byte `to` stands, where `line` is that of the byte `from`.
pub fn line_of(bytes: &[u8], line: Line, from: usize, to: usize) -> Line
    requires ordered { from ≤ to }
    requires within { to ≤ length bytes.now }
    requires bound { length bytes.now ≤ MOST_BYTES }
    requires line { IsLineAt bytes.now from line }
    ensures { IsLineAt bytes.now to result }
{
    let mut now = line;
    for at in from..to {
        if ends_line(bytes, at) {
            now = Line {
                number: now.number + 1,
                start: at + 1,
            };
        }
    }
    now
}
