//! The lists and tables of the book, and how a change is written to them.
ghost use Rattle.std.specs.Prelude.{ℕ, List, ◌≡◌, ◌≢◌, ◌≤◌, ◌<◌, ◌+◌, ◌^◌, ◌++◌, ◌∷◌, [], fold, IfOk, OnOk, ◌==◌, option_map, IfNone, IfSome, IsSome, slice_set, slice_index_or, length, vec_len, vec_capacity};
ghost use Rattle.std.specs.Bool.{OnFalse, OnTrue};
ghost use Rattle.queue_types.specs.Event.{change_of, document_of};
ghost use Rattle.std.specs.HashMap.{spare};
ghost use Rattle.queue_core.specs.Order.{AreRising};
ghost use Rattle.queue_core.specs.Grants.{pages_to};
ghost use Rattle.queue_core.specs.World.{made_on, job_at, numbered, put_free, with_report};
ghost use Rattle.list_book.specs.Lists.{put_by, put_row, put_rows, kept_of, with_kept, reports_map, HaveSameItems, HasRoom, world_of, IsTidy};
ghost use Rattle.list_book.specs.Tables.{HaveAccounts, free_map, total_of};

use crate::accounts::{Accounts, put_free_rows, reserve_accounts};
use crate::grants::{Grants, put_grants, reserve_grants};
use queue_types::document::{Bytes, Document};
use queue_types::event::{Change, KeptReport, NewDocument};
use queue_types::job::Job;
use queue_types::settings::Settings;
use std::alloc::{AllocError, Global};
use std::collections::HashMap;

/// The reports that were accepted, by job and sequence number.
pub(crate) type Reports = HashMap<(u32, u32), KeptReport>;

/// A document with the number of its job.
#[derive(Drop)]
pub(crate) struct KeptDocument {
    pub(crate) job: u32,
    pub(crate) document: Document,
}

/// What the book holds: jobs in the order of their numbers, and their documents in the order in
/// which they came; accounts, grants and reports in tables, which find a key in a few steps.
#[derive(Drop)]
pub(crate) struct Lists {
    pub(crate) settings: Settings,
    pub(crate) jobs: Vec<Job>,
    pub(crate) documents: Vec<KeptDocument>,
    pub(crate) next: u32,
    pub(crate) accounts: Accounts,
    pub(crate) grants: Grants,
    pub(crate) reports: Reports,
}

/// How many jobs have a smaller number, by binary search.
fn smaller_than(jobs: &[Job], number: u32) -> usize
    requires { AreRising jobs.now }
    ensures within { result ≤ length jobs.now }
    ensures before { (k : ℕ) (d : Job) → k < result → (slice_index_or jobs.now k d).number < number }
    ensures behind { (k : ℕ) (d : Job) → result ≤ k → k < length jobs.now → number ≤ (slice_index_or jobs.now k d).number }
{
    jobs.partition_point(|j| j.number < number)
}

/// The job at that place is there and has the number.
fn is_at(jobs: &[Job], i: usize, number: u32) -> bool
    ensures yes { OnTrue result ((i < length jobs.now) × ((d : Job) → (slice_index_or jobs.now i d).number ≡ number)) }
    ensures no { OnFalse result ((d : Job) → i < length jobs.now → (slice_index_or jobs.now i d).number ≢ number) }
{
    i < jobs.len() && jobs[i].number == number
}

/// Where the job of that number stands, by binary search.
pub(crate) fn place_of(jobs: &[Job], number: u32) -> Option<usize>
    requires { AreRising jobs.now }
    ensures within { IfSome result (λ i. i < length jobs.now) }
    ensures some { IfSome result (λ i. (x : Job) → put_by (λ y. y.number == number) x jobs.now ≡ slice_set jobs.now i x) }
    ensures none { IfNone result ((x : Job) → put_by (λ y. y.number == number) x jobs.now ≡ jobs.now ++ x ∷ []) }
    ensures there { IfSome result (λ i. (d : Job) → numbered number jobs.now ≡ slice_index_or jobs.now i d ∷ []) }
    ensures nowhere { IfNone result (numbered number jobs.now ≡ []) }
{
    let i = smaller_than(jobs, number);
    if is_at(jobs, i, number) {
        Some(i)
    } else {
        None
    }
}

fn put_job(jobs: &mut Vec<Job>, job: Job)
    requires room { vec_len jobs.old < vec_capacity jobs.old }
    requires rising { AreRising jobs.old.items }
    ensures put { jobs.new.items ≡ put_row jobs.old.items job }
    ensures len { vec_len jobs.new ≤ vec_len jobs.old + 1 }
    ensures capacity { vec_capacity jobs.new ≡ vec_capacity jobs.old }
{
    match place_of(jobs.as_slice(), job.number) {
        Some(i) => jobs[i] = job,
        None => jobs.push_reserved(job),
    }
}

fn put_jobs(jobs: &mut Vec<Job>, changed: Vec<Job>)
    requires room { vec_len jobs.old + length changed.items ≤ vec_capacity jobs.old }
    requires rising { AreRising (put_rows jobs.old.items changed.items) }
    ensures { jobs.new.items ≡ put_rows jobs.old.items changed.items }
{
    for job in changed {
        put_job(jobs, job);
    }
}

fn put_document(documents: &mut Vec<KeptDocument>, document: Option<KeptDocument>)
    requires room { vec_len documents.old < vec_capacity documents.old }
    ensures { documents.new.items ≡ with_kept documents.old.items document }
{
    if let Some(document) = document {
        documents.push_reserved(document);
    }
}

fn put_report(reports: &mut Reports, report: Option<KeptReport>)
    requires room { 0 < spare reports.old }
    ensures { reports_map reports.new.entries ≡ with_report (reports_map reports.old.entries) report }
{
    if let Some(k) = report {
        match reports.insert((k.report.job, k.report.seq), k) {
            Ok(_) => {}
            Err(_) => unreachable!("there is room for it"),
        }
    }
}

/// A copy of the document that a change brings.
fn kept_document(
    alloc: Global,
    document: &Option<NewDocument<'_>>,
) -> Result<Option<KeptDocument>, AllocError>
    ensures { IfOk result (λ k. k ≡ option_map kept_of (option_map document_of document.now)) }
{
    match document {
        None => Ok(None),
        Some(document) => {
            let bytes = Bytes::copy_of(alloc, document.bytes)?;
            Ok(Some(KeptDocument {
                job: document.job,
                document: Document {
                    format: document.format,
                    bytes,
                },
            }))
        }
    }
}

/// Makes room for a report.
fn reserve_report(reports: &mut Reports) -> Result<(), AllocError>
    ensures same { reports_map reports.new.entries ≡ reports_map reports.old.entries }
    ensures room { OnOk result (1 ≤ spare reports.new) }
{
    reports.reserve(1)?;
    Ok(())
}

/// Makes room for so many jobs, accounts and grants, and for a document and a report.
fn reserve(lists: &mut Lists, jobs: usize, accounts: usize, grants: usize) -> Result<(), AllocError>
    ensures same { HaveSameItems lists.old lists.new }
    ensures room { OnOk result (HasRoom lists.new jobs accounts grants) }
{
    lists.jobs.reserve(jobs)?;
    lists.documents.reserve(1)?;
    reserve_accounts(&mut lists.accounts, accounts)?;
    reserve_grants(&mut lists.grants, grants)?;
    reserve_report(&mut lists.reports)?;
    Ok(())
}

/// Makes room for all that a change brings, and gives a copy of its document, so that writing it needs no memory.
pub(crate) fn prepare(
    alloc: Global,
    lists: &mut Lists,
    change: &Change<'_>,
) -> Result<Option<KeptDocument>, AllocError>
    ensures document { IfOk result (λ d. d ≡ option_map kept_of (change_of change.now).document) }
    ensures same { HaveSameItems lists.old lists.new }
    ensures room { OnOk result (HasRoom lists.new (length (change_of change.now).jobs) (length (change_of change.now).free) (length (change_of change.now).grants)) }
{
    let document = kept_document(alloc, &change.document)?;
    reserve(
        lists,
        change.jobs.as_slice().len(),
        change.free.as_slice().len(),
        change.grants.as_slice().len(),
    )?;
    Ok(document)
}

/// Writes a change, with the copy of its document, into the room that was made for it. It needs no memory.
pub(crate) fn write(lists: &mut Lists, change: Change<'_>, document: Option<KeptDocument>)
    requires room { HasRoom lists.old (length (change_of change).jobs) (length (change_of change).free) (length (change_of change).grants) }
    requires tidy { IsTidy lists.old.jobs.items lists.old.documents.items }
    requires rising { AreRising (put_rows lists.old.jobs.items (change_of change).jobs) }
    requires document { document ≡ option_map kept_of (change_of change).document }
    requires there { IfSome document (λ d. IsSome (job_at d.job (put_rows lists.old.jobs.items (change_of change).jobs))) }
    requires accounts { HaveAccounts (fold put_free (free_map lists.old.accounts.entries) (change_of change).free) (change_of change).grants }
    requires most { (a : List ℕ) → total_of lists.old.accounts.entries a + pages_to a (change_of change).grants < 2 ^ 32 }
    ensures made { world_of lists.new ≡ made_on (change_of change.entry) (world_of lists.old) }
    ensures tidy { IsTidy lists.new.jobs.items lists.new.documents.items }
    ensures totals { (a : List ℕ) → total_of lists.new.accounts.entries a ≡ total_of lists.old.accounts.entries a + pages_to a (change_of change.entry).grants }
{
    put_document(&mut lists.documents, document);
    put_jobs(&mut lists.jobs, change.jobs.into_items());
    put_free_rows(&mut lists.accounts, change.free.into_items());
    put_grants(
        &mut lists.grants,
        &mut lists.accounts,
        change.grants.into_items(),
    );
    put_report(&mut lists.reports, change.report);
    lists.next = change.next.unwrap_or(lists.next);
}
