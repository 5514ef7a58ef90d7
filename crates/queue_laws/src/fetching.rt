//! What the device is shown: its queue, and the documents of its jobs (docs/device.md).
ghost use Rattle.std.specs.Prelude.{ℕ, ◌≡◌, ◌<◌, ◌+◌, ◌==◌, ◌&&◌, ◌⊎◌, List, ◌∷◌, ◌++◌, Bool, Some, None, true, false, length, count_by};
ghost use Rattle.queue_types.specs.Job.{state};
ghost use Rattle.queue_core.specs.Order.{AreRising};
ghost use Rattle.queue_core.specs.Shown.{pending_jobs, document_at};
ghost use Rattle.queue_core.specs.Sound.{IsSound};
ghost use Rattle.queue_core.specs.World.{World, Entry, rows};
ghost use Rattle.queue_types.specs.declared.document.Document.{Document};
ghost use Rattle.queue_types.specs.declared.job.Job.{Job};
ghost use Rattle.queue_laws.specs.Doing.{entry_at};
ghost use Rattle.queue_laws.specs.Jobs.{is_for_device};

/// The device's queue has each job in state 3, once, and no other, and their numbers rise.
pub fn startable_jobs_are_shown()
    ensures each { (w : World) (p : Job → Bool) → count_by p (pending_jobs w) ≡ count_by (λ j. state j == 3 && p j) (rows w) }
    ensures in_order { (w : World) → IsSound w → AreRising (pending_jobs w) }
{}

/// The device may fetch each document of a job in state 3, 5 or 6, by the job's number and the document's place, from 1.
/// There is none to fetch of a job in another state, under a number that no job has, or at any other place.
pub fn documents_are_fetched()
    ensures fetched { (w : World) (n : ℕ) (e : Entry) (before rest : List Document) (d : Document) → entry_at n w.jobs ≡ Some e → is_for_device e.row ≡ true → e.documents ≡ before ++ d ∷ rest → document_at w n (length before + 1) ≡ Some d }
    ensures elsewhere { (w : World) (n place : ℕ) (e : Entry) → entry_at n w.jobs ≡ Some e → is_for_device e.row ≡ false → document_at w n place ≡ None }
    ensures no_document { (w : World) (n place : ℕ) (e : Entry) → entry_at n w.jobs ≡ Some e → (place ≡ 0) ⊎ (length e.documents < place) → document_at w n place ≡ None }
    ensures no_job { (w : World) (n place : ℕ) → entry_at n w.jobs ≡ None → document_at w n place ≡ None }
{}
