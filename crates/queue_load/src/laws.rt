//! What the tables of a queue are, as laws: each is a contract on a body that does nothing.
ghost use Rattle.std.specs.Prelude.{◌≡◌};
ghost use Rattle.sqlite.specs.Effect.{Database};
ghost use Rattle.queue_core.specs.World.{World};
ghost use Rattle.queue_load.specs.Content.{HaveRows};
ghost use Rattle.queue_load.specs.Keyed.{HasKeyedTables};
ghost use Rattle.queue_load.specs.Queues.{HasQueue, IsQueueIn};
ghost use Rattle.queue_load.specs.Store.{AreTables, IsLoadable};
ghost use Rattle.queue_rows.specs.Rows.{bytes_of, rows_of, StandForSoundWorlds, Tables};

use queue_rows::laws::{numbers_tell_names, sound_queues_have_sound_rows};

/// What the tables of a world hold are its rows, one by one, and the bytes of its pieces.
pub fn tables_have_rows()
    ensures { HaveRows }
{}

/// Tables that hold a sound queue have the forms that are read.
pub fn queues_are_loadable()
    ensures { (w : World) (d : Database) → IsQueueIn w d → IsLoadable d }
{
    sound_queues_have_sound_rows();
}

/// Typed rows that are the tables of a sound queue are its rows, one by one.
pub fn tables_give_their_queue()
    ensures { (w : World) (d : Database) (t : Tables) (q : IsQueueIn w d) → AreTables t d → t ≡ rows_of q.version w }
{
    numbers_tell_names();
    sound_queues_have_sound_rows();
}

/// Tables hold a sound queue where their rows stand for such ones, and the accounts and operators have rowids of their own.
pub fn sound_rows_are_a_queue()
    ensures { (t : Tables) (d : Database) → AreTables t d → HasKeyedTables d → StandForSoundWorlds t → HasQueue t d }
{}

/// The rows of a sound queue are the typed rows of the tables that hold it, and two sound queues that the same tables hold have the
/// same bytes in their pieces.
pub fn queues_have_their_tables()
    ensures tables { (w : World) (d : Database) (q : IsQueueIn w d) → AreTables (rows_of q.version w) d }
    ensures bytes { (v w : World) (d : Database) → IsQueueIn v d → IsQueueIn w d → bytes_of v ≡ bytes_of w }
{
    sound_queues_have_sound_rows();
}
