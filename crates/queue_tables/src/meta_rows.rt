//! The statements on the one row of the book itself.
ghost use Rattle.std.specs.Prelude.{◌≡◌, OnOk, ⊤};
ghost use Rattle.sqlite.specs.State.{HasCleanDisk};
ghost use Rattle.sqlite.specs.Held.{state};
ghost use Rattle.queue_core.specs.World.{World};
ghost use Rattle.queue_rows.specs.Versions.{Version};
ghost use Rattle.queue_tables.specs.Making.{MakesQueue};
ghost use Rattle.queue_tables.specs.Content.{Content, Holds, content_of, numbered_content};
ghost use Rattle.queue_tables.specs.Leaving.{StaysInside};
ghost use Rattle.queue_tables.specs.Steps.{with_meta_row, with_next, with_policy_row};
ghost use Rattle.queue_tables.specs.Values.{meta_values, policy_values};

use crate::fault::Fault;
use crate::run::write;
use queue_rows::rows::{MetaRow, PolicyRow, SCHEMA};
use sqlite::{Alter, Transaction, params};

/// Adds the row of the book itself.
pub fn insert_meta<S: Alter>(tx: &mut Transaction<'_, S>, meta: &MetaRow) -> Result<(), Fault>
    ensures same_reference { tx.new.conn.ghost_name ≡ tx.old.conn.ghost_name }
    ensures stays { StaysInside (state S.Store tx.old.conn.now) (state S.Store tx.new.conn.now) result }
    ensures done { HasCleanDisk (state S.Store tx.new.conn.now) → OnOk result ((c : Content) → Holds c (state S.Store tx.old.conn.now) → Holds (with_meta_row (meta_values meta.now) c) (state S.Store tx.new.conn.now)) }
{
    write(
        tx,
        "INSERT INTO meta (one, schema, uri, name, estimate, epoch, next_number) VALUES (?1, ?2, ?3, ?4, ?5, ?6, ?7)",
        params![
            meta.one,
            meta.schema,
            meta.uri.as_str(),
            meta.name.as_str(),
            meta.estimate,
            &meta.epoch,
            meta.next_number
        ],
    )
}

/// Adds the row that says for how long a held job is kept.
pub fn insert_policy<S: Alter>(tx: &mut Transaction<'_, S>, policy: &PolicyRow) -> Result<(), Fault>
    ensures same_reference { tx.new.conn.ghost_name ≡ tx.old.conn.ghost_name }
    ensures stays { StaysInside (state S.Store tx.old.conn.now) (state S.Store tx.new.conn.now) result }
    ensures done { HasCleanDisk (state S.Store tx.new.conn.now) → OnOk result ((c : Content) → Holds c (state S.Store tx.old.conn.now) → Holds (with_policy_row (policy_values policy.now) c) (state S.Store tx.new.conn.now)) }
{
    write(
        tx,
        "INSERT INTO policy (one, keep) VALUES (?1, ?2)",
        params![policy.one, policy.keep],
    )
}

/// Puts the number of the schema that `create` makes.
pub fn update_schema<S: Alter>(tx: &mut Transaction<'_, S>) -> Result<(), Fault>
    ensures same_reference { tx.new.conn.ghost_name ≡ tx.old.conn.ghost_name }
    ensures stays { StaysInside (state S.Store tx.old.conn.now) (state S.Store tx.new.conn.now) result }
    ensures done { HasCleanDisk (state S.Store tx.new.conn.now) → OnOk result ((n : Version) (w : World) → Holds (numbered_content n w) (state S.Store tx.old.conn.now) → Holds (content_of w) (state S.Store tx.new.conn.now)) }
{
    write(
        tx,
        "UPDATE meta SET schema = ?1 WHERE one = 1",
        params![SCHEMA],
    )
}

/// Puts the number of the next new job.
pub(crate) fn update_next<S: Alter>(tx: &mut Transaction<'_, S>, next: u32) -> Result<(), Fault>
    ensures same_reference { tx.new.conn.ghost_name ≡ tx.old.conn.ghost_name }
    ensures made { MakesQueue (state S.Store tx.old.conn.now) (state S.Store tx.new.conn.now) result (λ w. ⊤) (with_next next) }
{
    write(
        tx,
        "UPDATE meta SET next_number = ?1 WHERE one = 1",
        params![next],
    )
}
