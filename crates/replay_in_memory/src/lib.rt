//! A replay over an empty queue in memory.
#![tactic(auto)]

ghost use Rattle.std.specs.Prelude.{◌≤◌, ℕ, List, IfOk};
ghost use Rattle.std.specs.Io.KnownBytes.{Appends};
ghost use Rattle.queue_core.specs.World.{empty_queue};
ghost use Rattle.queue_store.specs.Kept.{StandsFor};
ghost use Rattle.replay.specs.Replay.{Replays, first, settings};
ghost use Rattle.replay.specs.Session.{State};
ghost use Rattle.sqlite.specs.Steps.{over_memory};

use queue_core::BookFault;
use queue_store::TableBook;
use queue_types::settings::Settings;
use replay::{Fault, replay_over, replay_settings};
use sqlite::MemStore;
use std::alloc::Global;
use std::io::{Read, Write};

/// An empty queue with these settings, in the tables of a store in memory.
fn new_book(alloc: Global, printer: Settings) -> Result<TableBook<MemStore>, Fault>
    ensures { IfOk result (λ book. StandsFor over_memory book (empty_queue printer)) }
{
    match TableBook::in_memory(alloc, printer) {
        Ok(book) => Ok(book),
        Err(BookFault::Memory) => Err(Fault::Memory),
        Err(BookFault::Disk) => Err(Fault::Disk),
        Err(BookFault::Damaged) => unreachable!("a new store has no tables"),
    }
}

/// Answers the lines of an input over an empty queue with these settings, in the tables of a store in memory.
fn replay_with<R: Read, W: Write>(
    alloc: Global,
    input: &mut R,
    output: &mut W,
    printer: &Settings,
) -> Result<u8, Fault>
    ensures status { IfOk result (λ status. status ≤ 1) }
    ensures answered { IfOk result (λ status. (last : State) × (text : List ℕ)
        × Replays (R.remaining input.old) (first (empty_queue printer.now)) status text last
        × Appends (W.contents output.old) (W.contents output.new) text) }
{
    let mut book = new_book(alloc, printer.try_clone()?)?;
    replay_over(alloc, input, output, &mut book, printer)
}

/// Answers the lines of an input over an empty queue in the tables of a store in memory, as [`replay_over`] does. The store is new, so none of
/// its tables can be damaged, and no fault says so.
pub fn replay<R: Read, W: Write>(alloc: Global, input: &mut R, output: &mut W) -> Result<u8, Fault>
    ensures status { IfOk result (λ status. status ≤ 1) }
    ensures answered { IfOk result (λ status. (last : State) × (text : List ℕ)
        × Replays (R.remaining input.old) (first (empty_queue settings)) status text last
        × Appends (W.contents output.old) (W.contents output.new) text) }
{
    let settings = replay_settings(alloc)?;
    replay_with(alloc, input, output, &settings)
}
