//! What a body sees.

ghost use Rattle.std.specs.Prelude.{◌≡◌};
ghost use Rattle.js_meaning.specs.Resuming.{Sight};
ghost use Rattle.js_acting.specs.Acting.{is_gone};

use evaluation::View;
use qml_base::ObjNo;

/// What a body sees: cells and names, and which objects are condemned.
pub trait Watch: View {
    ghost sight: { Self → Sight };

    /// Whether the object is condemned.
    fn is_condemned(&self, object: ObjNo) -> bool
        ensures { result ≡ (sight self.now).is_condemned object };
}

/// Whether a body of this author may call nothing of an object.
pub(crate) fn is_gone<V: Watch>(view: &V, author: ObjNo, object: ObjNo) -> bool
    ensures { result ≡ is_gone (V.sight view.now) author object }
{
    if view.is_condemned(object) {
        !view.is_condemned(author)
    } else {
        false
    }
}
