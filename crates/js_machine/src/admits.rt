//! What may stand in a frame.

ghost use Rattle.std.specs.Prelude.{◌≡◌, ◌∷◌};
ghost use Rattle.qml_syntax.specs.Levels as l;
ghost use Rattle.js_machine.specs.Moves.{Open, admits};

use crate::open::Frame;
use qml_syntax::Prefix;

/// Whether an expression that binds as tightly as this may stand in a frame.
pub fn frame_admits(frame: Frame, tight: u8) -> bool
    ensures { (fs : Open) → result ≡ admits (frame ∷ fs) tight }
{
    match frame {
        Frame::Sign(_, prefix, _) => {
            if is_bump(prefix) {
                15 <= tight
            } else {
                14 <= tight
            }
        }
        Frame::Chain(_, operator, _) => operator.operand() <= tight,
        Frame::Else => tight != 1,
        Frame::Assign => 1 <= tight,
        Frame::One
        | Frame::List
        | Frame::When(_)
        | Frame::Either(_)
        | Frame::Loop(_)
        | Frame::For(_)
        | Frame::Block(_)
        | Frame::Function(_) => false,
        _ => true,
    }
}

/// Whether a prefix is `++` or `--`, which take what may be assigned to (ECMA-262, 13.4 Update Expressions).
pub fn is_bump(prefix: Prefix) -> bool
    ensures { result ≡ l.is_bump prefix }
{
    match prefix {
        Prefix::Increment | Prefix::Decrement => true,
        Prefix::Not | Prefix::Minus | Prefix::Plus | Prefix::BitNot | Prefix::TypeOf => false,
    }
}
