//! The law of the moves, as the contract of a call that does nothing.

ghost use Rattle.std.specs.Prelude.{◌≡◌, ℕ};
ghost use Rattle.qml_base.specs.declared.names.Home.{Home};
ghost use Rattle.qml_base.specs.declared.numbers.ExprNo.{ExprNo};
ghost use Rattle.qml_value.specs.declared.value.Value.{Value};
ghost use Rattle.js_frames.specs.declared.frames.Frame.{Frame};
ghost use Rattle.js_frames.specs.declared.frames.Next.{Next as Upcoming};
ghost use Rattle.js_frames.specs.declared.frames.Next.TheVariants as next;
ghost use Rattle.js_frames.specs.declared.frames.Before.{Before as Stands};
ghost use Rattle.js_frames.specs.declared.frames.Callee.{Callee as Called};
ghost use Rattle.js_frames.specs.declared.frames.Spot.{Spot as Place};
ghost use Rattle.qml_syntax.specs.declared.operators.Prefix.{Prefix as Sign};
ghost use Rattle.qml_syntax.specs.declared.literal.Declaration.{Declaration as Kept};
ghost use Rattle.qml_syntax.specs.Opened.{node_of};
ghost use Rattle.js_locals.specs.Laid.{Laid};
ghost use Rattle.js_frames.specs.Standing.{Standing, with_frame};
ghost use Rattle.js_frames.specs.Meant.{World};
ghost use Rattle.js_frames.specs.Moves.{BeginsCounted, Resumes, Steps, Signs, Args};
ghost use Rattle.js_frames.specs.Spots.{TargetsAt, SpotAt, FoundFor, Assigns};
ghost use Rattle.js_frames.specs.Statements.{Takes, RunsAt, Rests, Declares, GoesOn, Gives, Stops, GoesAgain};
ghost use Rattle.js_progress.specs.Work.{Falls};

/// Each move begins a node, or leaves less to be done before the next one is begun.
pub fn moves_come_to_the_next_node()
    ensures begun { (w : World) (c : Laid) (t : ExprNo → Laid) (h : Home) (at : ℕ) (old new : Standing) (y : Upcoming) → BeginsCounted w c h at old new y → Falls c t old (next.Begin at) new y }
    ensures resumed { (w : World) (c : Laid) (t : ExprNo → Laid) (f : Frame) (v : Value) (old new : Standing) (y : Upcoming) → Resumes w c f v old new y → Falls c t (with_frame f old) (next.Back v) new y }
    ensures stepped { (w : World) (c : Laid) (t : ExprNo → Laid) (h : Home) (b : Stands) (p : ℕ) (old new : Standing) (y : Upcoming) → Steps w c h b p old new y → Falls c t old (next.Step b p) new y }
    ensures signs { (w : World) (c : Laid) (t : ExprNo → Laid) (h : Home) (g : Sign) (p : ℕ) (old new : Standing) (y : Upcoming) → Signs w c h g (node_of (c.item p)) p old new y → Falls c t old (next.Signs g p) new y }
    ensures arguments { (w : World) (c : Laid) (t : ExprNo → Laid) (f : Called) (q : ℕ) (old new : Standing) (y : Upcoming) → Args w c f q old new y → Falls c t old (next.Args f q) new y }
    ensures taken { (c : Laid) (t : ExprNo → Laid) (f : Frame) (v : Value) (old new : Standing) (y : Upcoming) → Takes c f v old new y → Falls c t (with_frame f old) (next.Back v) new y }
    ensures run { (c : Laid) (t : ExprNo → Laid) (at : ℕ) (old new : Standing) (y : Upcoming) → RunsAt c at old new y → Falls c t old (next.Run at) new y }
    ensures rested { (c : Laid) (t : ExprNo → Laid) (p : ℕ) (old new : Standing) (y : Upcoming) → Rests c p old new y → Falls c t old (next.Rest p) new y }
    ensures declared { (c : Laid) (t : ExprNo → Laid) (k : Kept) (p : ℕ) (old new : Standing) (y : Upcoming) → Declares c k p old new y → Falls c t old (next.Vars k p) new y }
    ensures gone_on { (c : Laid) (t : ExprNo → Laid) (f : Frame) (old new : Standing) (y : Upcoming) → GoesOn c f old new y → Falls c t (with_frame f old) next.Done new y }
    ensures given { (c : Laid) (t : ExprNo → Laid) (f : Frame) (v : Value) (old new : Standing) (y : Upcoming) → Gives c f v old new y → Falls c t (with_frame f old) (next.Give v) new y }
    ensures stopped { (c : Laid) (t : ExprNo → Laid) (f : Frame) (old new : Standing) (y : Upcoming) → Stops c f old new y → Falls c t (with_frame f old) next.Stop new y }
    ensures repeated { (c : Laid) (t : ExprNo → Laid) (f : Frame) (old new : Standing) (y : Upcoming) → GoesAgain c f old new y → Falls c t (with_frame f old) next.Again new y }
    ensures targets { (c : Laid) (t : ExprNo → Laid) (at : ℕ) (old new : Standing) (y : Upcoming) → TargetsAt c at old new y → Falls c t old (next.Targets at) new y }
    ensures spots { (w : World) (c : Laid) (t : ExprNo → Laid) (h : Home) (at : ℕ) (old new : Standing) (y : Upcoming) → SpotAt w c h at old new y → Falls c t old (next.Spot at) new y }
    ensures found { (w : World) (c : Laid) (t : ExprNo → Laid) (h : Home) (f : Frame) (there : Place) (old new : Standing) (y : Upcoming) → FoundFor w c h f there old new y → Falls c t (with_frame f old) (next.Found there) new y }
    ensures assigned { (c : Laid) (t : ExprNo → Laid) (f : Frame) (v : Value) (old new : Standing) (y : Upcoming) → Assigns c f v old new y → Falls c t (with_frame f old) (next.Back v) new y }
{}
