//! What an operation on jobs of the caller's own does (RFC 8011, section 4.3; PWG 5100.11).
ghost use Rattle.std.specs.Prelude.{ℕ, ℤ, pos, ◌≡◌, ◌≢◌, ◌<◌, ◌≤◌, ◌≤ℤ◌, ◌<ℤ◌, ◌+ℤ◌, ◌-ℤ◌, ◌⊎◌, List, length, Some, None, Bool, true, false, sum_by};
ghost use Rattle.std.specs.FinMap.{get};
ghost use Rattle.queue_types.specs.Event.{ask, hold_job, release_job, cancel_job, cancel_my_jobs};
ghost use Rattle.queue_types.specs.Job.{state, estimate, owed};
ghost use Rattle.queue_core.specs.Machine.{step};
ghost use Rattle.queue_core.specs.World.{World, Entry, rows};
ghost use Rattle.queue_core.specs.Sound.{IsSound};
ghost use Rattle.queue_types.specs.declared.document.Document.{Document};
ghost use Rattle.queue_types.specs.declared.event.Reply.TheVariants.{Refused, Done};
ghost use Rattle.queue_laws.specs.Calls.{sends, cancels};
ghost use Rattle.queue_laws.specs.Doing.{HasOwn, HasHeld, IsDone, IsOpenFor, IsSent, IsSameAt, AreCancelable, canceled_by_user, documents_with, sent_to, is_among, waiting_among};
ghost use Rattle.queue_laws.specs.Jobs.{Waits, IsAtDevice, HasEnded, has_job, has_jobs, waiting_of};
ghost use Rattle.queue_laws.specs.Operating.{IsNoOperator};
ghost use Rattle.queue_laws.specs.Steps.{after, answer, unchanged, not_possible, IfAccepted, MovesFree};
ghost use Rattle.queue_types.specs.declared.job.Why.{Why};
ghost use Rattle.queue_types.specs.declared.job.Why.TheVariants.{ByUser};

/// Hold-Job, where the job waits: it is held, and nothing else of it or of its documents changes. Where the device has
/// it, or it ended, client-error-not-possible, and nothing changes.
pub fn waiting_jobs_are_held()
    ensures held { (w : World) (now n : ℕ) (u : List ℕ) (e : Entry) → HasOwn u n e w → Waits e.row → IsDone n e (record e.row { hold = true }) (step w now (ask u (hold_job n))) }
    ensures begun { (w : World) (now n : ℕ) (u : List ℕ) (e : Entry) → HasOwn u n e w → 5 ≤ state e.row → step w now (ask u (hold_job n)) ≡ not_possible w }
{}

/// Release-Job, where the job waits and is held: with as many free pages in the caller's account as the job is estimated
/// to print it is held no more, and nothing else of it or of its documents changes; with fewer or without an account,
/// client-error-not-possible. Where it is not held, or the device has it, there is nothing to do, and where it ended,
/// client-error-not-possible. In each case but the first nothing changes.
pub fn held_jobs_are_released()
    ensures released { (w : World) (now n : ℕ) (u : List ℕ) (e : Entry) (f : ℤ) → HasHeld u n e w → get w.free u ≡ Some f → pos (estimate e.row) ≤ℤ f → IsDone n e (record e.row { hold = false }) (step w now (ask u (release_job n))) }
    ensures fewer { (w : World) (now n : ℕ) (u : List ℕ) (e : Entry) (f : ℤ) → HasHeld u n e w → get w.free u ≡ Some f → f <ℤ pos (estimate e.row) → step w now (ask u (release_job n)) ≡ not_possible w }
    ensures none { (w : World) (now n : ℕ) (u : List ℕ) (e : Entry) → HasHeld u n e w → get w.free u ≡ None → step w now (ask u (release_job n)) ≡ not_possible w }
    ensures ready { (w : World) (now n : ℕ) (u : List ℕ) (e : Entry) → HasOwn u n e w → Waits e.row → e.row.hold ≡ false → step w now (ask u (release_job n)) ≡ unchanged w Done }
    ensures begun { (w : World) (now n : ℕ) (u : List ℕ) (e : Entry) → HasOwn u n e w → IsAtDevice e.row → step w now (ask u (release_job n)) ≡ unchanged w Done }
    ensures ended { (w : World) (now n : ℕ) (u : List ℕ) (e : Entry) → HasOwn u n e w → HasEnded e.row → step w now (ask u (release_job n)) ≡ not_possible w }
{}

/// Cancel-Job, where the job waits: it is canceled by its user at this moment, and neither held nor open for documents
/// any more. Where the device has it, it is asked to stop, once. Nothing else of it or of its documents changes. Where
/// it was asked to stop before, by whomever, or ended, client-error-not-possible, and nothing changes.
pub fn jobs_are_canceled()
    ensures canceled { (w : World) (now n : ℕ) (u : List ℕ) (e : Entry) → HasOwn u n e w → Waits e.row → IsDone n e (canceled_by_user now e.row) (step w now (ask u (cancel_job n))) }
    ensures stopping { (w : World) (now n : ℕ) (u : List ℕ) (e : Entry) → HasOwn u n e w → IsAtDevice e.row → e.row.stopping ≡ None → IsDone n e (record e.row { stopping = Some ByUser }) (step w now (ask u (cancel_job n))) }
    ensures again { (w : World) (now n : ℕ) (u : List ℕ) (e : Entry) (why : Why) → HasOwn u n e w → IsAtDevice e.row → e.row.stopping ≡ Some why → step w now (ask u (cancel_job n)) ≡ not_possible w }
    ensures ended { (w : World) (now n : ℕ) (u : List ℕ) (e : Entry) → HasOwn u n e w → HasEnded e.row → step w now (ask u (cancel_job n)) ≡ not_possible w }
{}

/// Send-Document, where the job is open for documents and has at most 16 with this one: the payload comes as its last
/// document, an empty payload as none; after the last one the job is open no more; and the caller is told of the job.
/// Where the job isn't open, as in each state but 4, or would have more than 16, client-error-not-possible, and nothing
/// changes.
pub fn documents_are_added()
    ensures added { (w : World) (now n : ℕ) (u : List ℕ) (e : Entry) (d : Document) (last : Bool) → HasOwn u n e w → IsSound w → IsOpenFor e d → IsSent n (sent_to e d last) (step w now (sends u n d last)) }
    ensures closed { (w : World) (now n : ℕ) (u : List ℕ) (e : Entry) (d : Document) (last : Bool) → HasOwn u n e w → e.row.incoming ≡ false → step w now (sends u n d last) ≡ not_possible w }
    ensures elsewhere { (w : World) (now n : ℕ) (u : List ℕ) (e : Entry) (d : Document) (last : Bool) → HasOwn u n e w → IsSound w → state e.row ≢ 4 → step w now (sends u n d last) ≡ not_possible w }
    ensures full { (w : World) (now n : ℕ) (u : List ℕ) (e : Entry) (d : Document) (last : Bool) → HasOwn u n e w → IsSound w → 16 < length (documents_with e d) → step w now (sends u n d last) ≡ not_possible w }
{}

/// Cancel-My-Jobs without job numbers is done, and does to the job of each number what Cancel-Job of that number does; for an
/// operator, who may cancel others' jobs by Cancel-Job alone, to each job of its own.
pub fn own_jobs_are_canceled()
    ensures all { (w : World) (now n : ℕ) (u : List ℕ) → IsSound w → IsNoOperator u w ⊎ (has_job u n (rows w) ≡ true) → IsSameAt n (after w now (ask u (cancel_my_jobs None))) (after w now (ask u (cancel_job n))) }
    ensures done { (w : World) (now : ℕ) (u : List ℕ) → answer w now (ask u (cancel_my_jobs None)) ≡ Done }
{}

/// Cancel-My-Jobs with job numbers: where Cancel-Job of each of them would be done, and for an operator all are its own jobs,
/// it is done, and does to each of these jobs what Cancel-Job does. A job whose number is not among them stays as it is,
/// whatever the answer. Where all are jobs of the caller's own, and Cancel-Job of one would have client-error-not-possible,
/// so has this, and nothing changes.
pub fn named_jobs_are_canceled()
    ensures each { (w : World) (now n : ℕ) (u numbers : List ℕ) → IsSound w → IsNoOperator u w ⊎ (has_jobs u numbers (rows w) ≡ true) → AreCancelable w now u numbers → is_among numbers n ≡ true → IsSameAt n (after w now (cancels u numbers)) (after w now (ask u (cancel_job n))) }
    ensures done { (w : World) (now : ℕ) (u numbers : List ℕ) → IsSound w → IsNoOperator u w ⊎ (has_jobs u numbers (rows w) ≡ true) → AreCancelable w now u numbers → answer w now (cancels u numbers) ≡ Done }
    ensures others { (w : World) (now n : ℕ) (u numbers : List ℕ) → is_among numbers n ≡ false → IsSameAt n (after w now (cancels u numbers)) w }
    ensures refused { (w : World) (now n : ℕ) (u numbers : List ℕ) → IsNoOperator u w ⊎ IsSound w → has_jobs u numbers (rows w) ≡ true → is_among numbers n ≡ true → answer w now (ask u (cancel_job n)) ≡ Refused 0x0404 → step w now (cancels u numbers) ≡ not_possible w }
{}

/// The free pages of the caller's account move with the job. Hold-Job and Cancel-Job of a job that waits give back what
/// is set aside for it; Release-Job of a held one takes its estimate; Cancel-Job of a job that the device has, and
/// Send-Document, move none. Cancel-My-Jobs gives back what is set aside for those of the caller's jobs that wait; with
/// job numbers, for those of them that are named.
pub fn pages_are_set_aside()
    ensures held { (w : World) (now n : ℕ) (u : List ℕ) (e : Entry) (f : ℤ) → HasOwn u n e w → Waits e.row → MovesFree w u f (f +ℤ pos (owed e.row)) (step w now (ask u (hold_job n))) }
    ensures released { (w : World) (now n : ℕ) (u : List ℕ) (e : Entry) (f : ℤ) → HasHeld u n e w → IsSound w → pos (estimate e.row) ≤ℤ f → MovesFree w u f (f -ℤ pos (estimate e.row)) (step w now (ask u (release_job n))) }
    ensures canceled { (w : World) (now n : ℕ) (u : List ℕ) (e : Entry) (f : ℤ) → HasOwn u n e w → Waits e.row → MovesFree w u f (f +ℤ pos (owed e.row)) (step w now (ask u (cancel_job n))) }
    ensures stopping { (w : World) (now n : ℕ) (u : List ℕ) (e : Entry) (f : ℤ) → HasOwn u n e w → IsAtDevice e.row → e.row.stopping ≡ None → MovesFree w u f f (step w now (ask u (cancel_job n))) }
    ensures sent { (w : World) (now n : ℕ) (u : List ℕ) (e : Entry) (f : ℤ) (d : Document) (last : Bool) → HasOwn u n e w → IsSound w → IsOpenFor e d → MovesFree w u f f (step w now (sends u n d last)) }
    ensures all { (w : World) (now : ℕ) (u : List ℕ) (f : ℤ) → IsSound w → MovesFree w u f (f +ℤ pos (sum_by owed (waiting_of u (rows w)))) (step w now (ask u (cancel_my_jobs None))) }
    ensures named { (w : World) (now : ℕ) (u numbers : List ℕ) (f : ℤ) → IsSound w → IfAccepted w now (cancels u numbers) (MovesFree w u f (f +ℤ pos (sum_by owed (waiting_among numbers u (rows w))))) }
{}
