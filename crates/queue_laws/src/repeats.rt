//! What repeats doesn't count.
ghost use Rattle.std.specs.Prelude.{◌≡◌, ℕ, List, [], ◌∷◌, ◌++◌, true};
ghost use Rattle.queue_types.specs.Event.{Call, ask, tell, grant};
ghost use Rattle.queue_core.specs.Runs.{Place, run};
ghost use Rattle.queue_core.specs.Sound.{IsSound};
ghost use Rattle.queue_core.specs.World.{World};
ghost use Rattle.queue_types.specs.declared.event.GrantRow.{GrantRow};
ghost use Rattle.queue_types.specs.declared.event.Report.{Report};
ghost use Rattle.queue_laws.specs.Alike.{ArePlaces, place_of, idle};
ghost use Rattle.queue_laws.specs.Before.{WasAccepted, WasGranted, HasNewRows};
ghost use Rattle.queue_laws.specs.Replies.{refuses};
ghost use Rattle.queue_laws.specs.Steps.{answer};
ghost use Rattle.queue_laws.specs.Thin.{thin, AnswerAgain};

use queue_core::run_keeps;

/// Repeats don't count. A run, and the run without each report and each row of an account file that equals one
/// accepted before it, end in one world; and each report that equals one accepted before it is answered as that was.
pub fn run_thin()
    ensures world { (w : World) (ps : List Place) → IsSound w → ArePlaces ps → run w (thin w ps) ≡ run w ps }
    ensures answers { (w : World) (ps : List Place) → IsSound w → ArePlaces ps → AnswerAgain [] w ps }
{
    run_keeps();
}

/// A run without repeats has none: no report that is left in it was accepted before in it, nor was a row of an account
/// file, and no account file that is accepted in it has a row twice.
pub fn thin_runs_have_no_repeats()
    ensures reports { (w : World) (ps front back : List Place) (now : ℕ) (r : Report) → IsSound w → ArePlaces ps → thin w ps ≡ front ++ place_of now (tell r) ∷ back → WasAccepted w front (tell r) → ⊥ }
    ensures rows { (w : World) (ps front back : List Place) (now : ℕ) (before behind : List GrantRow) (g : GrantRow) → IsSound w → ArePlaces ps → thin w ps ≡ front ++ place_of now (grant (before ++ g ∷ behind)) ∷ back → WasGranted w front g → ⊥ }
    ensures twice { (w : World) (ps front back : List Place) (now : ℕ) (before between behind : List GrantRow) (g : GrantRow) → IsSound w → ArePlaces ps → thin w ps ≡ front ++ place_of now (grant (before ++ g ∷ (between ++ g ∷ behind))) ∷ back → refuses (answer (run w front) now (grant (before ++ g ∷ (between ++ g ∷ behind)))) ≡ true }
{
    run_keeps();
}

/// Nothing but repeats is left out. As a run goes on by a place, so does the run without repeats, unless that place is
/// a report that was accepted before in the run. Of an account file those rows stay that were not granted before in the run.
pub fn repeats_alone_are_left_out()
    ensures idle { (w : World) (ps : List Place) (now : ℕ) → thin w (ps ++ idle now ∷ []) ≡ thin w ps ++ idle now ∷ [] }
    ensures requests { (w : World) (ps : List Place) (now : ℕ) (caller : List ℕ) (call : Call) → thin w (ps ++ place_of now (ask caller call) ∷ []) ≡ thin w ps ++ place_of now (ask caller call) ∷ [] }
    ensures new_reports { (w : World) (ps : List Place) (now : ℕ) (r : Report) → (WasAccepted w ps (tell r) → ⊥) → thin w (ps ++ place_of now (tell r) ∷ []) ≡ thin w ps ++ place_of now (tell r) ∷ [] }
    ensures repeated_reports { (w : World) (ps : List Place) (now : ℕ) (r : Report) → WasAccepted w ps (tell r) → thin w (ps ++ place_of now (tell r) ∷ []) ≡ thin w ps }
    ensures files { (w : World) (ps : List Place) (now : ℕ) (file : List GrantRow) → (left : List GrantRow) × (thin w (ps ++ place_of now (grant file) ∷ []) ≡ thin w ps ++ place_of now (grant left) ∷ []) × HasNewRows w ps file left }
{}
