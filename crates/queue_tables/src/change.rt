//! The tables after a decision.
ghost use Rattle.std.specs.Prelude.{◌≡◌, IfSome, option_map, unwrap_or, ⊤};
ghost use Rattle.sqlite.specs.Held.{state};
ghost use Rattle.queue_core.specs.Book.{IsDecisionOn};
ghost use Rattle.queue_types.specs.Event.{change_of, decision_of, document_of};
ghost use Rattle.queue_core.specs.Sound.{IsSound};
ghost use Rattle.queue_core.specs.World.{made_on};
ghost use Rattle.queue_tables.specs.Making.{MakesQueue};
ghost use Rattle.queue_tables.specs.Steps.{CanKeep, CanTake, with_added, with_kept, with_next};

use crate::account_rows::put_frees;
use crate::document_rows::put_document;
use crate::fault::Fault;
use crate::grant_rows::insert_grants;
use crate::meta_rows::update_next;
use crate::put::put_jobs;
use crate::report_rows::insert_report;
use queue_core::decisions_are_sound;
use queue_types::event::{Decision, KeptReport, NewDocument};
use sqlite::{Alter, Transaction};
use std::alloc::Global;

/// Adds the document, where there is one.
fn put_any_document<S: Alter>(
    tx: &mut Transaction<'_, S>,
    document: &Option<NewDocument<'_>>,
) -> Result<(), Fault>
    ensures same_reference { tx.new.conn.ghost_name ≡ tx.old.conn.ghost_name }
    ensures made { MakesQueue (state S.Store tx.old.conn.now) (state S.Store tx.new.conn.now) result (λ w. IfSome (option_map document_of document.now) (λ d. CanTake d w)) (with_added (option_map document_of document.now)) }
{
    match document {
        Some(d) => put_document(tx, d),
        None => Ok(()),
    }
}

/// Adds the report, where there is one.
fn put_any_report<S: Alter>(
    tx: &mut Transaction<'_, S>,
    report: Option<KeptReport>,
) -> Result<(), Fault>
    ensures same_reference { tx.new.conn.ghost_name ≡ tx.old.conn.ghost_name }
    ensures made { MakesQueue (state S.Store tx.old.conn.now) (state S.Store tx.new.conn.now) result (λ w. IfSome report (λ k. CanKeep k w)) (with_kept report) }
{
    match report {
        Some(kept) => insert_report(tx, &kept),
        None => Ok(()),
    }
}

/// Puts the number of the next new job, where there is one.
fn put_any_next<S: Alter>(tx: &mut Transaction<'_, S>, next: Option<u32>) -> Result<(), Fault>
    ensures same_reference { tx.new.conn.ghost_name ≡ tx.old.conn.ghost_name }
    ensures made { MakesQueue (state S.Store tx.old.conn.now) (state S.Store tx.new.conn.now) result (λ w. ⊤) (λ w. with_next (unwrap_or next w.next) w) }
{
    match next {
        Some(n) => update_next(tx, n),
        None => Ok(()),
    }
}

/// Puts what a decision makes of the rows, within a transaction. It commits nothing.
pub(crate) fn write_change<S: Alter>(
    alloc: Global,
    tx: &mut Transaction<'_, S>,
    decision: &Decision<'_>,
) -> Result<(), Fault>
    ensures same_reference { tx.new.conn.ghost_name ≡ tx.old.conn.ghost_name }
    ensures made { MakesQueue (state S.Store tx.old.conn.now) (state S.Store tx.new.conn.now) result (λ w. IsSound w × IsDecisionOn w (decision_of decision.now)) (made_on (change_of decision.now.change)) }
{
    decisions_are_sound();
    put_frees(tx, decision.change.free.as_slice())?;
    put_jobs(alloc, tx, decision.change.jobs.as_slice())?;
    put_any_document(tx, &decision.change.document)?;
    insert_grants(tx, decision.change.grants.as_slice())?;
    put_any_report(tx, decision.change.report)?;
    put_any_next(tx, decision.change.next)
}
