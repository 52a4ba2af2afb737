//! The law of what a body does next, as the contract of a call that does nothing.

ghost use Rattle.std.specs.Prelude.{◌≡◌};
ghost use Rattle.evaluation.specs.Ask.{Ask};
ghost use Rattle.js_meaning.specs.Resuming.{Sight, next_action};
ghost use Rattle.js_frames.specs.Telling.{tells};
ghost use Rattle.js_frames.specs.Meant.{World};
ghost use Rattle.js_acting.specs.Acting.{Sees, action_of};

/// What is told of code by what it sees, gone on with behind the questions that are left, is what it does next.
#[tactic(auto, using(crate::proofs::ActingLemmas::told_acts))]
pub fn what_is_told_is_done_next()
    ensures { (w : World) (s : Sight) → Sees w s → (ask : Ask) → action_of s (tells w.names w.view ask).outcome ≡ next_action s ask }
{}
