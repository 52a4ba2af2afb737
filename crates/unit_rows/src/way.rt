//! A way to an object.

ghost use Rattle.std.specs.Prelude.{◌≡◌};

use std::marker::Model;

/// A way from an instance of a component to an object: the number of an object as it is written in the component's document, and
/// then, hop by hop, a document of its type with the number of an object that is written there.
#[derive(Drop)]
pub struct Way {
    base: u32,
    hops: Vec<(u32, u32)>,
}

impl Model for Way {
    ghost use Rattle.program_names.specs.PathMeanings.{Way as AWay};

    ghost Value = { AWay };

    ghost view = { λ w. record { base = w.base; hops = w.hops.items } };
}

impl Way {
    /// The way to a base and on by these hops. It takes no memory.
    pub fn new(base: u32, hops: Vec<(u32, u32)>) -> Way
        ensures base { result.base ≡ base }
        ensures hops { result.hops ≡ hops.items }
    {
        Way { base, hops }
    }

    /// The object as written at which it begins.
    pub fn base(&self) -> u32
        ensures { result ≡ self.now.base }
    {
        self.base
    }

    /// Its hops: a document, and the number of an object written there.
    pub fn hops(&self) -> &[(u32, u32)]
        ensures { result.now ≡ self.now.hops }
    {
        self.hops.as_slice()
    }
}
