//! The statements on grants.
ghost use Rattle.std.specs.Prelude.{◌≡◌, filter, []};
ghost use Rattle.sqlite.specs.Held.{state};
ghost use Rattle.queue_tables.specs.Making.{MakesQueue, MakesRows};
ghost use Rattle.queue_tables.specs.Steps.{CanGrant, with_grant_row, with_grants, is_granted, is_named};
ghost use Rattle.queue_tables.specs.Values.{grant_values};
ghost use Rattle.queue_tables.specs.Kept.{HasOne};

use crate::fault::Fault;
use crate::run::insert;
use queue_types::event::GrantRow;
use sqlite::{Alter, Transaction, params};

/// Adds a grant.
fn insert_grant<S: Alter>(tx: &mut Transaction<'_, S>, grant: &GrantRow) -> Result<(), Fault>
    ensures same_reference { tx.new.conn.ghost_name ≡ tx.old.conn.ghost_name }
    ensures made { MakesRows (state S.Store tx.old.conn.now) (state S.Store tx.new.conn.now) result (λ c. HasOne (is_named grant.now.account) c.accounts × (filter (is_granted grant.now.batch grant.now.account) c.grants ≡ [])) (with_grant_row (grant_values grant.now)) }
{
    insert(
        tx,
        "INSERT INTO grants (batch, account, pages) VALUES (?1, ?2, ?3)",
        params![grant.batch.as_str(), grant.account.as_str(), grant.pages],
    )
}

/// Adds grants in turn.
pub(crate) fn insert_grants<S: Alter>(
    tx: &mut Transaction<'_, S>,
    grants: &[GrantRow],
) -> Result<(), Fault>
    ensures same_reference { tx.new.conn.ghost_name ≡ tx.old.conn.ghost_name }
    ensures made { MakesQueue (state S.Store tx.old.conn.now) (state S.Store tx.new.conn.now) result (CanGrant grants.now) (with_grants grants.now) }
{
    for grant in grants {
        insert_grant(tx, grant)?;
    }
    Ok(())
}
