//! What others ask is nothing to a caller.
ghost use Rattle.std.specs.Prelude.{ℕ, ◌≡◌, List, bytes_eq, filter, true, false};
ghost use Rattle.queue_types.specs.Event.{Event, Call, ask};
ghost use Rattle.queue_core.specs.Runs.{Place};
ghost use Rattle.queue_core.specs.Shown.{sheet_of, pending_jobs, document_at};
ghost use Rattle.queue_core.specs.Sound.{IsSound};
ghost use Rattle.queue_core.specs.World.{World, rows};
ghost use Rattle.queue_laws.specs.Alike.{IsAlikePlace, IsOthersPrint, AreAlikeRuns, place_of, idle, own_along, told_along};
ghost use Rattle.queue_laws.specs.Calls.{draws_number};
ghost use Rattle.queue_laws.specs.Jobs.{is_owned_by, has_job};
ghost use Rattle.queue_laws.specs.Operating.{IsNoOperator};
ghost use Rattle.queue_laws.specs.Own.{own};
ghost use Rattle.queue_laws.specs.Replies.{refuses};
ghost use Rattle.queue_laws.specs.Steps.{answer};

use crate::refusals::refusals_change_nothing;
use queue_core::run_keeps;

/// Others don't matter. Let u be a caller that is no operator. Two lists of places are alike for u if they differ only in what
/// callers ask that are neither u nor operators, and if, wherever others than u ask, a job number is drawn in both runs or in
/// neither. From one sound world both leave what is u's own the same after every place, and at every place tell u, the device of
/// u's jobs and the office the same, the replies to Get-Printer-Attributes aside.
pub fn run_two()
    ensures own { (u : List ℕ) (w : World) (ps qs : List Place) → AreAlikeRuns u w ps qs → own_along u w ps ≡ own_along u w qs }
    ensures told { (u : List ℕ) (w : World) (ps qs : List Place) → AreAlikeRuns u w ps qs → told_along u w ps ≡ told_along u w qs }
{
    run_keeps();
}

/// Pairs of places that are alike for u: two Print-Jobs of callers that are neither u nor operators, neither of which is refused,
/// whatever their jobs; and, against a place at which nothing happens, a request of such a caller that is refused, or one that
/// asks no new job: any but Print-Job and Create-Job.
pub fn others_requests_are_alike()
    ensures printed { (u : List ℕ) (w v : World) (now : ℕ) (event other : Event) → IsOthersPrint u w now event → IsOthersPrint u v now other → IsAlikePlace u w v (place_of now event) (place_of now other) }
    ensures refused { (u bob : List ℕ) (w v : World) (now : ℕ) (call : Call) → bytes_eq bob u ≡ false → IsNoOperator bob w → refuses (answer w now (ask bob call)) ≡ true → IsAlikePlace u w v (place_of now (ask bob call)) (idle now) }
    ensures undrawn { (u bob : List ℕ) (w v : World) (now : ℕ) (call : Call) → bytes_eq bob u ≡ false → IsNoOperator bob w → draws_number call ≡ false → IsAlikePlace u w v (place_of now (ask bob call)) (idle now) }
{
    refusals_change_nothing();
}

/// What is u's own is all of u that is shown. Two queues in which it is the same give the office the same sheet of u's
/// account, and the device the same jobs of u's to start, with the same documents.
pub fn own_is_what_is_shown()
    ensures account { (u : List ℕ) (w v : World) → own u w ≡ own u v → sheet_of w u ≡ sheet_of v u }
    ensures pending { (u : List ℕ) (w v : World) → own u w ≡ own u v → filter (is_owned_by u) (pending_jobs w) ≡ filter (is_owned_by u) (pending_jobs v) }
    ensures documents { (u : List ℕ) (w v : World) (n i : ℕ) → IsSound w → IsSound v → own u w ≡ own u v → has_job u n (rows w) ≡ true → document_at w n i ≡ document_at v n i }
{}
