//! Laws of the moves, each as the contract of a call that does nothing.

ghost use Rattle.std.specs.Prelude.{◌≡◌, ℕ};
ghost use Rattle.qml_value.specs.declared.value.Value.{Value};
ghost use Rattle.js_frames.specs.declared.frames.Frame.{Frame};
ghost use Rattle.js_frames.specs.declared.frames.Next.{Next as Upcoming};
ghost use Rattle.js_frames.specs.declared.frames.Before.{Before as Stands};
ghost use Rattle.js_frames.specs.declared.frames.Callee.{Callee as Called};
ghost use Rattle.qml_syntax.specs.declared.operators.Prefix.{Prefix as Sign};
ghost use Rattle.qml_syntax.specs.Opened.{node_of};
ghost use Rattle.js_locals.specs.Laid.{Laid};
ghost use Rattle.js_frames.specs.Standing.{Standing, with_frame};
ghost use Rattle.js_frames.specs.Meant.{Where, World, told};
ghost use Rattle.js_frames.specs.Moves.{BeginsCounted, Resumes, Steps, Signs, Args};
ghost use Rattle.js_frames.specs.declared.frames.Spot.{Spot as Place};
ghost use Rattle.js_frames.specs.Spots.{TargetsAt, SpotAt, FoundFor, Assigns};
ghost use Rattle.js_frames.specs.Statements.{Takes, RunsAt, Rests, Declares, GoesOn, Gives, Stops, GoesAgain};
ghost use Rattle.qml_syntax.specs.declared.literal.Declaration.{Declaration as Kept};

use crate::frames::Next;

/// What is heard in all is the same before and behind each move.
pub fn moves_keep_what_is_heard()
    ensures begun { (w : World) (c : Laid) (x : Where) (at : ℕ) (old new : Standing) (y : Upcoming) → BeginsCounted w c x.home at old new y → told w c x new y ≡ told w c x old (Next.Begin at) }
    ensures resumed { (w : World) (c : Laid) (x : Where) (f : Frame) (v : Value) (old new : Standing) (y : Upcoming) → Resumes w c f v old new y → told w c x new y ≡ told w c x (with_frame f old) (Next.Back v) }
    ensures stepped { (w : World) (c : Laid) (x : Where) (b : Stands) (p : ℕ) (old new : Standing) (y : Upcoming) → Steps w c x.home b p old new y → told w c x new y ≡ told w c x old (Next.Step b p) }
    ensures signs { (w : World) (c : Laid) (x : Where) (g : Sign) (p : ℕ) (old new : Standing) (y : Upcoming) → Signs w c x.home g (node_of (c.item p)) p old new y → told w c x new y ≡ told w c x old (Next.Signs g p) }
    ensures taken { (w : World) (c : Laid) (x : Where) (f : Frame) (v : Value) (old new : Standing) (y : Upcoming) → Takes c f v old new y → told w c x new y ≡ told w c x (with_frame f old) (Next.Back v) }
    ensures run { (w : World) (c : Laid) (x : Where) (at : ℕ) (old new : Standing) (y : Upcoming) → RunsAt c at old new y → told w c x new y ≡ told w c x old (Next.Run at) }
    ensures rested { (w : World) (c : Laid) (x : Where) (p : ℕ) (old new : Standing) (y : Upcoming) → Rests c p old new y → told w c x new y ≡ told w c x old (Next.Rest p) }
    ensures declared { (w : World) (c : Laid) (x : Where) (k : Kept) (p : ℕ) (old new : Standing) (y : Upcoming) → Declares c k p old new y → told w c x new y ≡ told w c x old (Next.Vars k p) }
    ensures gone_on { (w : World) (c : Laid) (x : Where) (f : Frame) (old new : Standing) (y : Upcoming) → GoesOn c f old new y → told w c x new y ≡ told w c x (with_frame f old) Next.Done }
    ensures given { (w : World) (c : Laid) (x : Where) (f : Frame) (v : Value) (old new : Standing) (y : Upcoming) → Gives c f v old new y → told w c x new y ≡ told w c x (with_frame f old) (Next.Give v) }
    ensures stopped { (w : World) (c : Laid) (x : Where) (f : Frame) (old new : Standing) (y : Upcoming) → Stops c f old new y → told w c x new y ≡ told w c x (with_frame f old) Next.Stop }
    ensures repeated { (w : World) (c : Laid) (x : Where) (f : Frame) (old new : Standing) (y : Upcoming) → GoesAgain c f old new y → told w c x new y ≡ told w c x (with_frame f old) Next.Again }
    ensures arguments { (w : World) (c : Laid) (x : Where) (f : Called) (q : ℕ) (old new : Standing) (y : Upcoming) → Args w c f q old new y → told w c x new y ≡ told w c x old (Next.Args f q) }
    ensures targets { (w : World) (c : Laid) (x : Where) (at : ℕ) (old new : Standing) (y : Upcoming) → TargetsAt c at old new y → told w c x new y ≡ told w c x old (Next.Targets at) }
    ensures spots { (w : World) (c : Laid) (x : Where) (at : ℕ) (old new : Standing) (y : Upcoming) → SpotAt w c x.home at old new y → told w c x new y ≡ told w c x old (Next.Spot at) }
    ensures found { (w : World) (c : Laid) (x : Where) (f : Frame) (there : Place) (old new : Standing) (y : Upcoming) → FoundFor w c x.home f there old new y → told w c x new y ≡ told w c x (with_frame f old) (Next.Found there) }
    ensures assigned { (w : World) (c : Laid) (x : Where) (f : Frame) (v : Value) (old new : Standing) (y : Upcoming) → Assigns c f v old new y → told w c x new y ≡ told w c x (with_frame f old) (Next.Back v) }
{}
