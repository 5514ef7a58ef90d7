//! What becomes of the documents that are sent.
ghost use Rattle.std.specs.Prelude.{ℕ, ◌≡◌, ◌≢◌, ◌+◌, ◌⊎◌, ◌++◌, List, [], ◌∷◌, Some, Bool, length};
ghost use Rattle.queue_types.specs.Event.{Event, NewJob};
ghost use Rattle.queue_core.specs.Runs.{Place, run};
ghost use Rattle.queue_core.specs.Sound.{IsSound};
ghost use Rattle.queue_core.specs.World.{World, Entry};
ghost use Rattle.queue_types.specs.declared.document.Document.{Document};
ghost use Rattle.queue_types.specs.declared.event.Reply.TheVariants.{Jobs};
ghost use Rattle.queue_types.specs.declared.job.Job.{Job};
ghost use Rattle.queue_laws.specs.Calls.{prints, sends};
ghost use Rattle.queue_laws.specs.Documents.{HasFirst, IsFetchedAs, documents_at, sent_in};
ghost use Rattle.queue_laws.specs.Doing.{entry_at};
ghost use Rattle.queue_laws.specs.Steps.{after, LeadsTo, IfAccepted};

/// Whatever is asked, reported or granted, and however often: a job that is there stays there, with the documents that
/// it has, each at its place; others may come behind them.
pub fn documents_stay()
    ensures step { (w : World) (now n : ℕ) (event : Event) (e : Entry) → entry_at n w.jobs ≡ Some e → HasFirst n e.documents (after w now event).jobs }
    ensures runs { (w : World) (places : List Place) (n : ℕ) (e : Entry) → entry_at n w.jobs ≡ Some e → HasFirst n e.documents (run w places).jobs }
{}

/// No document comes to a job but what is sent to it: by an event its documents stay as they are, or get behind them the
/// one that the event sends, a Send-Document of its number or the Print-Job by which it enters.
pub fn only_sent_documents_come()
    ensures { (w : World) (now n : ℕ) (event : Event) → (documents_at n (after w now event).jobs ≡ documents_at n w.jobs) ⊎ (documents_at n (after w now event).jobs ≡ documents_at n w.jobs ++ sent_in w.next n event) }
{}

/// What the device fetches of a job is what was sent. Whatever comes after a Print-Job that is not refused: under the
/// number that the caller was told, the first document is the payload, in the request's format, where it can be fetched at all.
/// So it is after a Send-Document for the document behind those that the job had. A payload that is empty is none.
pub fn sent_documents_are_fetched()
    ensures printed { (w v : World) (now : ℕ) (u : List ℕ) (new : NewJob) (d : Document) (j : Job) → IsSound w → d.bytes ≢ [] → LeadsTo w now (prints u new d) v (Jobs (j ∷ [])) → IsFetchedAs v j.number 1 d }
    ensures sent { (w : World) (now n : ℕ) (u : List ℕ) (e : Entry) (d : Document) (last : Bool) → entry_at n w.jobs ≡ Some e → d.bytes ≢ [] → IfAccepted w now (sends u n d last) (λ s. IsFetchedAs s.world n (length e.documents + 1) d) }
{}
