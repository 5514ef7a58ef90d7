//! How long a job is held.
ghost use Rattle.std.specs.Prelude.{ℕ, ◌≡◌, ◌≤◌, true, false};
ghost use Rattle.queue_types.specs.Event.{Event, ask, release_job};
ghost use Rattle.queue_types.specs.Job.{state};
ghost use Rattle.queue_core.specs.Sound.{IsSound};
ghost use Rattle.queue_core.specs.World.{World};
ghost use Rattle.queue_types.specs.declared.job.Job.{Job};
ghost use Rattle.queue_laws.specs.Steps.{Turns};

/// A job is held until its owner releases it. Whatever is asked, reported, granted or swept: where a job was held and is held
/// no more, and did not end, the event is Release-Job of its number, asked by its owner. No other makes a held job one
/// that the device may start.
pub fn jobs_are_held_until_released()
    ensures released { (w : World) (now n : ℕ) (event : Event) (j k : Job) → IsSound w → Turns w now event n j k → j.hold ≡ true → k.hold ≡ false → state k ≤ 6 → event ≡ ask j.owner (release_job n) }
    ensures startable { (w : World) (now n : ℕ) (event : Event) (j k : Job) → IsSound w → Turns w now event n j k → j.hold ≡ true → state k ≡ 3 → event ≡ ask j.owner (release_job n) }
{}
