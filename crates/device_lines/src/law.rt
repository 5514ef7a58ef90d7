//! What the definitions of lines promise: laws over them, in functions that do nothing.
ghost use Rattle.std.specs.Prelude.{◌≡◌, ℕ, List, IfSome, Option, Result};
ghost use Rattle.queue_types.specs.Event.{Event};
ghost use Rattle.queue_types.specs.declared.event.Report.{Report};
ghost use Rattle.queue_core.specs.Limits.{IsEvent};
ghost use Rattle.queue_core.specs.Runs.{after};
ghost use Rattle.queue_core.specs.World.{World};
ghost use Rattle.device_lines.specs.Lines.{Reads};
ghost use Rattle.device_lines.specs.Reports.{IsReported, Tells};
ghost use Rattle.device_lines.specs.declared.line.LineFault.{LineFault};

/// A line has one reading.
pub fn one_line_reading()
    ensures { (line : List ℕ) (one other : Result Report LineFault) → Reads line one → Reads line other → one ≡ other }
{}

/// What a line asks of the machine is one event within the machine's limits, or nothing; and the answer to a line says what that event comes to.
pub fn lines_are_events()
    ensures one { (line : List ℕ) (one other : Option Event) → Tells line one → Tells line other → one ≡ other }
    ensures within { (line : List ℕ) (e : Option Event) → Tells line e → IfSome e IsEvent }
    ensures done { (now : ℕ) (w u : World) (line out : List ℕ) → IsReported w now line u out → (e : Option Event) × Tells line e × (u ≡ after w now e) }
{}
