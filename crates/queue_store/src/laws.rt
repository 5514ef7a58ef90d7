//! What the tables of a book tell, as laws: each is a contract on a body that does nothing.
ghost use Rattle.std.specs.Prelude.{◌≡◌};
ghost use Rattle.sqlite.specs.Effect.{Database};
ghost use Rattle.sqlite_catalog.specs.Listing.{IsSound};
ghost use Rattle.sqlite_schema.specs.declared.schema.Schema.{Schema};
ghost use Rattle.sqlite_trees.specs.Tree.{Trees};
ghost use Rattle.queue_core.specs.World.{World};
ghost use Rattle.sqlite_wal.specs.Recovery.{Image};
ghost use Rattle.queue_load.specs.Queues.{IsQueueIn};
ghost use Rattle.queue_store.specs.Closed.{IsKeptAlone};
ghost use Rattle.queue_store.specs.Crash.{IsKept};
ghost use Rattle.queue_rows.specs.Versions.{Version};
ghost use Rattle.queue_tables.specs.Tables.{schema_of};

use queue_load::laws::{queues_have_their_tables, tables_give_their_queue};
use queue_rows::laws::rows_tell_the_queue;

/// Two sound queues that the same tables hold are one: nothing of a queue stands beside its tables.
pub fn tables_hold_one_queue()
    ensures { (v w : World) (d : Database) → IsQueueIn v d → IsQueueIn w d → v ≡ w }
{
    queues_have_their_tables();
    tables_give_their_queue();
    rows_tell_the_queue();
}

/// Trees that list the tables and indexes of a book, of one version, list no other schema.
pub fn trees_list_one_schema()
    ensures { (n : Version) (schema : Schema) (db : Trees) → IsSound (schema_of n) db → IsSound schema db → schema ≡ schema_of n }
{}

/// What the database file keeps without its log, it keeps with it.
pub fn kept_alone_is_kept()
    ensures { (image : Image) (w : World) → IsKeptAlone image w → IsKept image w }
{}
