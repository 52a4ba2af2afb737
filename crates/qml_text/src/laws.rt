//! Laws of the definitions, each as the contract of a call that does nothing.

ghost use Rattle.std.specs.Prelude.{◌≡◌, ℕ, List, ◌∷◌};
ghost use Rattle.qml_text.specs.Parts.{IsSplit, join_of};

/// A text is cut at a separator in one way.
pub fn one_way_to_cut()
    ensures { (by text : List ℕ) (parts others : List (List ℕ)) →
        IsSplit by text parts → IsSplit by text others → parts ≡ others }
{}

/// The parts of a text that was cut at a separator, joined by it, are the text.
pub fn joins_what_it_cuts()
    ensures { (by text : List ℕ) (parts : List (List ℕ)) → IsSplit by text parts → join_of by parts ≡ text }
{}
