//! How new jobs enter (RFC 8011, sections 4.2.1, 4.2.3 and 4.2.4).
ghost use Rattle.std.specs.Prelude.{ℕ, ◌≡◌, List, [], true, false};
ghost use Rattle.queue_types.specs.Event.{NewJob, ask, create_job, validate_job};
ghost use Rattle.queue_core.specs.Sound.{IsSound};
ghost use Rattle.queue_core.specs.World.{World};
ghost use Rattle.queue_types.specs.declared.document.Document.{Document};
ghost use Rattle.queue_types.specs.declared.event.Reply.TheVariants.{Done};
ghost use Rattle.queue_laws.specs.Calls.{prints};
ghost use Rattle.queue_laws.specs.Entering.{Enters, documents_of};
ghost use Rattle.queue_laws.specs.Replies.{refuses};
ghost use Rattle.queue_laws.specs.Steps.{after, answer, IfAccepted};

/// A Print-Job that is not refused makes one job of the caller's own: the last one, under the next number, held,
/// in state 4, with its document. A Create-Job makes one without a document, open for more.
pub fn new_jobs_enter_held()
    ensures printed { (w : World) (now : ℕ) (u : List ℕ) (new : NewJob) (d : Document) → IsSound w → IfAccepted w now (prints u new d) (Enters w now u new false (documents_of d.format d.bytes)) }
    ensures created { (w : World) (now : ℕ) (u : List ℕ) (new : NewJob) → IsSound w → IfAccepted w now (ask u (create_job new)) (Enters w now u new true []) }
{}

/// Validate-Job changes nothing. It is refused as Print-Job would be, and with the same code.
pub fn validated_jobs_would_print()
    ensures kept { (w : World) (now : ℕ) (u : List ℕ) (new : NewJob) → after w now (ask u (validate_job new)) ≡ w }
    ensures refused { (w : World) (now : ℕ) (u : List ℕ) (new : NewJob) (d : Document) → refuses (answer w now (prints u new d)) ≡ true → answer w now (ask u (validate_job new)) ≡ answer w now (prints u new d) }
    ensures taken { (w : World) (now : ℕ) (u : List ℕ) (new : NewJob) (d : Document) → refuses (answer w now (prints u new d)) ≡ false → answer w now (ask u (validate_job new)) ≡ Done }
{}
