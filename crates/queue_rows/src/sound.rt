//! Whether the rows of all tables are those of a sound queue.
ghost use Rattle.std.specs.Prelude.{◌≡◌, ◌↔◌, List, IfOk, IsTrue, false};
ghost use Rattle.queue_rows.specs.Rows.{tables_in, StandForSoundWorlds, StandForNoSoundWorld};
ghost use Rattle.queue_rows.specs.Sound.{HaveSoundJobs, HaveSoundGrants, HaveSoundReports, HaveSoundOwners, HaveSoundTables, AreSoundRows};
ghost use Rattle.queue_rows.specs.Totals.{AreGranted};

use crate::accounts::{accounts_have_grants, grants_have_accounts};
use crate::amounts::{granted_totals, name_totals};
use crate::balances::accounts_are_balanced;
use crate::documents::{documents_follow, documents_have_sizes};
use crate::grants::{grants_are_sound, grants_are_within};
use crate::jobs::{jobs_are_sound, numbers_rise};
use crate::meta::is_sound_meta;
use crate::order::are_in_order;
use crate::owners::{live_jobs_fit, others_are_idle};
use crate::pieces::pieces_follow;
use crate::reports::{counts_are_greatest, reports_are_sound, reports_have_jobs};
use crate::rows::{AccountRow, DocumentRow, PieceRow, Rows};
use queue_types::event::{GrantRow, KeptReport};
use queue_types::job::Job;
use queue_types::limits::LAST_JOB_NUMBER;
use std::alloc::{AllocError, Global};
use std::collections::BTreeMap;

/// The jobs with their documents and pieces.
fn have_sound_jobs(jobs: &[Job], documents: &[DocumentRow], pieces: &[PieceRow], next: u32) -> bool
    ensures { IsTrue result ↔ HaveSoundJobs jobs.now documents.now pieces.now next }
{
    if !numbers_rise(jobs, next) {
        return false;
    }
    if next > LAST_JOB_NUMBER + 1 {
        return false;
    }
    if !jobs_are_sound(jobs) {
        return false;
    }
    if !documents_follow(jobs, documents) {
        return false;
    }
    if !documents_have_sizes(documents) {
        return false;
    }
    pieces_follow(documents, pieces)
}

/// The grants with their accounts.
fn have_sound_grants(
    alloc: Global,
    grants: &[GrantRow],
    accounts: &[AccountRow],
    granted: &BTreeMap<&str, u128>,
) -> Result<bool, AllocError>
    requires { AreGranted granted.now grants.now }
    ensures { IfOk result (λ b. IsTrue b ↔ HaveSoundGrants grants.now accounts.now) }
{
    if !grants_are_sound(grants) {
        return Ok(false);
    }
    if !are_in_order(grants) || !are_in_order(accounts) {
        return Ok(false);
    }
    if !grants_are_within(granted) {
        return Ok(false);
    }
    if !accounts_have_grants(accounts, granted) {
        return Ok(false);
    }
    let names = name_totals(alloc, accounts)?;
    Ok(grants_have_accounts(grants, &names))
}

/// The reports with the counts of the jobs.
fn have_sound_reports(
    alloc: Global,
    reports: &[KeptReport],
    jobs: &[Job],
) -> Result<bool, AllocError>
    ensures { IfOk result (λ b. IsTrue b ↔ HaveSoundReports reports.now jobs.now) }
{
    if !reports_are_sound(reports) {
        return Ok(false);
    }
    if !are_in_order(reports) {
        return Ok(false);
    }
    if !reports_have_jobs(alloc, reports, jobs)? {
        return Ok(false);
    }
    counts_are_greatest(alloc, jobs, reports)
}

/// The jobs by their owners, and what is stored of the accounts.
fn have_sound_owners(
    alloc: Global,
    jobs: &[Job],
    accounts: &[AccountRow],
    granted: &BTreeMap<&str, u128>,
) -> Result<bool, AllocError>
    ensures { IfOk result (λ b. (gs : List GrantRow) → AreGranted granted.now gs → IsTrue b ↔ HaveSoundOwners jobs.now gs accounts.now) }
{
    if !live_jobs_fit(alloc, jobs)? {
        return Ok(false);
    }
    if !others_are_idle(jobs, granted) {
        return Ok(false);
    }
    accounts_are_balanced(alloc, accounts, granted, jobs)
}

/// The tables beside `meta`.
fn have_sound_tables(alloc: Global, rows: &Rows, next: u32) -> Result<bool, AllocError>
    ensures { IfOk result (λ b. IsTrue b ↔ HaveSoundTables (tables_in rows.now) next) }
{
    let jobs = rows.jobs.as_slice();
    let grants = rows.grants.as_slice();
    let accounts = rows.accounts.as_slice();
    if !have_sound_jobs(
        jobs,
        rows.documents.as_slice(),
        rows.pieces.as_slice(),
        next,
    ) {
        return Ok(false);
    }
    if !have_sound_reports(alloc, rows.reports.as_slice(), jobs)? {
        return Ok(false);
    }
    let granted = granted_totals(alloc, grants)?;
    if !have_sound_grants(alloc, grants, accounts, &granted)? {
        return Ok(false);
    }
    have_sound_owners(alloc, jobs, accounts, &granted)
}

/// Each clause over the rows is kept.
// a function of its own, since what `are_sound_rows` promises of worlds then follows once, and not at each way out
fn keep_each_clause(alloc: Global, rows: &Rows) -> Result<bool, AllocError>
    ensures { IfOk result (λ b. IsTrue b ↔ AreSoundRows (tables_in rows.now)) }
{
    let [meta] = rows.meta.as_slice() else {
        return Ok(false);
    };
    if !is_sound_meta(alloc, meta, &rows.policy, &rows.operators)? {
        return Ok(false);
    }
    have_sound_tables(alloc, rows, meta.next_number)
}

/// Whether the rows of all tables are those of a sound queue. If so, there is one for any bytes of the
/// pieces that have their lengths; if not, no sound queue has these rows. The one error is want of memory.
pub fn are_sound_rows(alloc: Global, rows: &Rows) -> Result<bool, AllocError>
    ensures sound { IfOk result (λ b. IsTrue b → StandForSoundWorlds (tables_in rows.now)) }
    ensures damaged { IfOk result (λ b. b ≡ false → StandForNoSoundWorld (tables_in rows.now)) }
{
    keep_each_clause(alloc, rows)
}
