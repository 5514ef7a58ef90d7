//! What replays are to the machine: a law over the definitions, in a function that does nothing.
ghost use Rattle.std.specs.Prelude.{ℕ, List, Option};
ghost use Rattle.queue_core.specs.Limits.{IsMoment};
ghost use Rattle.queue_core.specs.Runs.{MovesAlong};
ghost use Rattle.queue_core.specs.Sound.{Balances, IsSound};
ghost use Rattle.queue_core.specs.World.{empty_queue};
ghost use Rattle.replay.specs.Places.{IsRunOf};
ghost use Rattle.replay.specs.Replay.{Replays, Taken, TakesNext, settings};
ghost use Rattle.replay.specs.Session.{State};

use device_lines::lines_are_events;
use grants_csv::files_are_events;
use ipp_ops::calls_are_events;
use queue_core::{empty_is_sound, run_keeps};

/// What a replay makes of a queue is a run of the machine: each line is a place of the run, at the moment that was set last, with the event that the
/// line asks for; or with nothing, where it sets the moment, is refused before the machine is asked, is a `grant` line that is refused, or is answered by a fault. So from a sound queue on, as an empty one with the
/// settings of a replay is, each line moves jobs along the allowed pairs of states alone, and before and behind each, in every account the pages
/// granted are those that are free, reserved and printed.
pub fn replays_are_runs()
    ensures runs { (input : Option (List ℕ)) (begin last : State) (status : ℕ) (text : List ℕ) → IsMoment begin.now
        → (r : Replays input begin status text last) → IsRunOf r }
    ensures moves { (input : Option (List ℕ)) (begin old new : State) → IsMoment begin.now → IsSound begin.queue
        → TakesNext input begin old new → MovesAlong old.queue new.queue }
    ensures balances { (input left : Option (List ℕ)) (begin last : State) (count : ℕ) (text : List ℕ)
        → IsMoment begin.now → IsSound begin.queue → Taken input begin count text left last → Balances last.queue }
    ensures empty { IsSound (empty_queue settings) }
{
    calls_are_events();
    lines_are_events();
    files_are_events();
    run_keeps();
    empty_is_sound();
}
