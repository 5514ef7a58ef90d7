//! What a refusal leaves.
ghost use Rattle.std.specs.Prelude.{ℕ, ◌≡◌, true};
ghost use Rattle.queue_types.specs.Event.{Event};
ghost use Rattle.queue_core.specs.World.{World};
ghost use Rattle.queue_laws.specs.Replies.{refuses};
ghost use Rattle.queue_laws.specs.Steps.{after, answer};

/// A request, a report or an account file that is refused changes nothing.
pub fn refusals_change_nothing()
    ensures { (w : World) (now : ℕ) (event : Event) → refuses (answer w now event) ≡ true → after w now event ≡ w }
{}
