//! What an event needs of the book in lists.
ghost use Rattle.std.specs.Prelude.{ℕ, ◌≡◌, ◌==◌, IfOk, count_by, filter, bytes_eq, ◌&&◌, ◌||◌};
ghost use Rattle.std.specs.BTreeSet.{contains};
ghost use Rattle.std.specs.FinMap.{get};
ghost use Rattle.std.specs.List.{list_any};
ghost use Rattle.std.specs.Ordering.{nat_cmp};
ghost use Rattle.queue_types.specs.Event.{ask, tell, grant, expire, event_of, call_of};
ghost use Rattle.queue_types.specs.Job.{is_live, is_running, is_stopped};
ghost use Rattle.queue_core.specs.Order.{AreRising};
ghost use Rattle.queue_core.specs.Visible.{is_among, visible};
ghost use Rattle.queue_core.specs.World.{cut, owner_row, is_one_of, numbered, jobs_for, free_for, live_for, counts_for, next_for};
ghost use Rattle.list_book.specs.Lists.{AreTotals, reports_map, world_of};
ghost use Rattle.list_book.specs.Tables.{free_map};

use crate::accounts::{Accounts, free_rows_of};
use crate::expiry::{accounts_of_owners, expired_in};
use crate::grants::known_rows;
use crate::lists::{Lists, Reports, place_of};
use crate::shown::{cut_at, ordered};
use queue_core::{
    call_scene, grants_scene, jobs_scene, no_counts, number_set, report_scene, sees_all,
};
use queue_types::event::{
    Call, Event, FreeRow, GrantRow, KeptReport, QueueCounts, Report, Scene, WhichJobs,
};
use queue_types::job::{Job, Phase};
use queue_types::limits::FIRST_JOB_NUMBER;
use queue_types::operators::OperatorNames;
use std::alloc::{AllocError, Global};
use std::collections::BTreeSet;

fn with_number(alloc: Global, jobs: &[Job], number: u32) -> Result<Vec<Job>, AllocError>
    requires { AreRising jobs.now }
    ensures { IfOk result (λ v. v.items ≡ numbered number jobs.now) }
{
    let mut named = Vec::new(alloc);
    if let Some(i) = place_of(jobs, number) {
        named.push(jobs[i].try_clone()?)?;
    }
    Ok(named)
}

/// The job is the caller's and its number is in the set.
fn is_own_of(set: &BTreeSet<u32>, numbers: &[u32], caller: &str, job: &Job) -> bool
    requires { (q : ℕ) → contains nat_cmp set.now q ≡ list_any (λ n. n == q) numbers.now }
    ensures { result ≡ (bytes_eq job.now.owner caller.now && is_one_of numbers.now job.now) }
{
    job.owner.as_str() == caller && set.contains(&job.number)
}

/// The caller's jobs of these numbers.
fn own_of_numbers(
    alloc: Global,
    jobs: &[Job],
    caller: &str,
    numbers: &[u32],
) -> Result<Vec<Job>, AllocError>
    ensures { IfOk result (λ v. v.items ≡ filter (λ j. bytes_eq j.owner caller.now && is_one_of numbers.now j) jobs.now) }
{
    let set = number_set(alloc, numbers)?;
    let mut named = Vec::new(alloc);
    for job in jobs {
        if is_own_of(&set, numbers, caller, job) {
            named.push(job.try_clone()?)?;
        }
    }
    Ok(named)
}

fn is_listed(which: WhichJobs, job: &Job) -> bool
    ensures { result ≡ is_among which job.now }
{
    match which {
        WhichJobs::NotCompleted => job.is_live(),
        WhichJobs::Completed => !job.is_live(),
    }
}

/// The job is of that kind, and the caller's own unless those of all callers are wanted.
fn is_shown(job: &Job, all: bool, caller: &str, which: WhichJobs) -> bool
    ensures { result ≡ ((all || bytes_eq job.now.owner caller.now) && is_among which job.now) }
{
    (all || job.owner.as_str() == caller) && is_listed(which, job)
}

/// The caller's jobs of that kind, or those of all callers.
fn jobs_among(
    alloc: Global,
    jobs: &[Job],
    all: bool,
    caller: &str,
    which: WhichJobs,
) -> Result<Vec<Job>, AllocError>
    ensures { IfOk result (λ v. v.items ≡ filter (λ j. (all || bytes_eq j.owner caller.now) && is_among which j) jobs.now) }
{
    let mut among = Vec::new(alloc);
    for job in jobs {
        if is_shown(job, all, caller, which) {
            among.push(job.try_clone()?)?;
        }
    }
    Ok(among)
}

/// What Get-Jobs shows to the caller.
fn shown_to(
    alloc: Global,
    jobs: &[Job],
    all: bool,
    caller: &str,
    which: WhichJobs,
    limit: Option<u32>,
) -> Result<Vec<Job>, AllocError>
    ensures { IfOk result (λ v. v.items ≡ visible all caller.now which limit jobs.now) }
{
    let among = jobs_among(alloc, jobs, all, caller, which)?;
    let shown = ordered(alloc, which, among.as_slice())?;
    Ok(cut_at(shown, limit))
}

/// The jobs that the caller's call speaks of.
fn concerned(
    alloc: Global,
    operators: &OperatorNames,
    jobs: &[Job],
    caller: &str,
    call: &Call<'_>,
) -> Result<Vec<Job>, AllocError>
    requires { AreRising jobs.now }
    ensures { IfOk result (λ v. v.items ≡ jobs_for operators.now caller.now (call_of call.now) jobs.now) }
{
    if let Some(job) = call.job() {
        return with_number(alloc, jobs, job);
    }
    match call {
        Call::CancelMyJobs {
            jobs: Some(numbers),
        } => own_of_numbers(alloc, jobs, caller, numbers.as_slice()),
        Call::CancelMyJobs { jobs: None } => jobs_among(
            alloc,
            jobs,
            false,
            caller,
            WhichJobs::NotCompleted,
        ),
        Call::GetJobs { which, limit, mine } => {
            let all = sees_all(operators, caller, *mine);
            shown_to(alloc, jobs, all, caller, *which, *limit)
        }
        _ => Ok(Vec::new(alloc)),
    }
}

fn is_live_of(job: &Job, caller: &str) -> bool
    ensures { result ≡ (bytes_eq job.now.owner caller.now && is_live job.now) }
{
    job.owner.as_str() == caller && job.is_live()
}

fn live_of(jobs: &[Job], caller: &str) -> usize
    ensures { result ≡ count_by (λ j. bytes_eq j.owner caller.now && is_live j) jobs.now }
{
    jobs.iter().filter(|j| is_live_of(j, caller)).count()
}

/// How many live jobs the caller has, for a call that asks for a new one.
fn live_for_call(jobs: &[Job], caller: &str, call: &Call<'_>) -> usize
    ensures { result ≡ live_for caller.now (call_of call.now) jobs.now }
{
    match call {
        Call::PrintJob { .. } | Call::ValidateJob { .. } | Call::CreateJob { .. } => {
            live_of(jobs, caller)
        }
        _ => 0,
    }
}

fn is_running_job(job: &Job) -> bool
    ensures { result ≡ is_running job.now }
{
    matches!(job.phase, Phase::Running)
}

fn is_stopped_job(job: &Job) -> bool
    ensures { result ≡ is_stopped job.now }
{
    matches!(job.phase, Phase::Stopped)
}

fn running_in(jobs: &[Job]) -> usize
    ensures { result ≡ count_by is_running jobs.now }
{
    jobs.iter().filter(|j| is_running_job(j)).count()
}

fn stopped_in(jobs: &[Job]) -> usize
    ensures { result ≡ count_by is_stopped jobs.now }
{
    jobs.iter().filter(|j| is_stopped_job(j)).count()
}

fn queued_in(jobs: &[Job]) -> usize
    ensures { result ≡ count_by is_live jobs.now }
{
    jobs.iter().filter(|j| j.is_live()).count()
}

/// The counts of the queue, for a call that needs them.
fn counts(jobs: &[Job], call: &Call<'_>) -> QueueCounts
    ensures { result ≡ counts_for (call_of call.now) jobs.now }
{
    match call {
        Call::GetPrinterAttributes => QueueCounts {
            running: running_in(jobs),
            stopped: stopped_in(jobs),
            queued: queued_in(jobs),
        },
        _ => no_counts(),
    }
}

/// The account of the first job's owner, if there is a job.
fn owner_rows(alloc: Global, accounts: &Accounts, jobs: &[Job]) -> Result<Vec<FreeRow>, AllocError>
    ensures { IfOk result (λ v. v.items ≡ owner_row (free_map accounts.now.entries) jobs.now) }
{
    match jobs {
        [] => Ok(Vec::new(alloc)),
        [job, ..] => free_rows_of(alloc, accounts, job.owner.as_str()),
    }
}

/// The account in which pages may be set aside or come back: for Cancel-Job that of the owner of the first of these jobs, which
/// the call is about, else the caller's.
fn free_for_call(
    alloc: Global,
    accounts: &Accounts,
    caller: &str,
    call: &Call<'_>,
    jobs: &[Job],
) -> Result<Vec<FreeRow>, AllocError>
    ensures { IfOk result (λ v. v.items ≡ free_for caller.now (call_of call.now) jobs.now (free_map accounts.now.entries)) }
{
    match call {
        Call::CancelJob { .. } => owner_rows(alloc, accounts, jobs),
        Call::CancelMyJobs { .. } | Call::HoldJob { .. } | Call::ReleaseJob { .. } => {
            free_rows_of(alloc, accounts, caller)
        }
        _ => Ok(Vec::new(alloc)),
    }
}

/// The next job number, for a call that needs it.
fn next_for_call(next: u32, call: &Call<'_>) -> u32
    ensures { result ≡ next_for (call_of call.now) next }
{
    match call {
        Call::PrintJob { .. }
        | Call::ValidateJob { .. }
        | Call::CreateJob { .. }
        | Call::GetPrinterAttributes => next,
        _ => FIRST_JOB_NUMBER,
    }
}

/// The rows that a caller's call needs.
fn scene_of_call(
    alloc: Global,
    lists: &Lists,
    caller: &str,
    call: &Call<'_>,
) -> Result<Scene, AllocError>
    requires { AreRising lists.now.jobs.items }
    ensures { IfOk result (λ s. (now : ℕ) → s ≡ cut (world_of lists.now) now (ask caller.now (call_of call.now))) }
{
    let jobs = concerned(
        alloc,
        lists.settings.operators(),
        lists.jobs.as_slice(),
        caller,
        call,
    )?;
    let free = free_for_call(alloc, &lists.accounts, caller, call, jobs.as_slice())?;
    let live = live_for_call(lists.jobs.as_slice(), caller, call);
    let counts = counts(lists.jobs.as_slice(), call);
    let next = next_for_call(lists.next, call);
    call_scene(alloc, &lists.settings, jobs, free, live, counts, next)
}

/// The report that is kept of the job under the sequence number.
fn kept_report(reports: &Reports, job: u32, seq: u32) -> Option<KeptReport>
    ensures { result ≡ get (reports_map reports.now.entries) (job, seq) }
{
    reports.get(&(job, seq)).copied()
}

/// The rows that a report needs.
fn scene_of_report(alloc: Global, lists: &Lists, report: &Report) -> Result<Scene, AllocError>
    requires { AreRising lists.now.jobs.items }
    ensures { IfOk result (λ s. (now : ℕ) → s ≡ cut (world_of lists.now) now (tell report.now)) }
{
    let jobs = with_number(alloc, lists.jobs.as_slice(), report.job)?;
    let free = owner_rows(alloc, &lists.accounts, jobs.as_slice())?;
    let kept = kept_report(&lists.reports, report.job, report.seq);
    report_scene(alloc, &lists.settings, jobs, free, kept)
}

/// The rows that an account file needs.
fn scene_of_grants(alloc: Global, lists: &Lists, rows: &[GrantRow]) -> Result<Scene, AllocError>
    requires { AreTotals lists.now }
    ensures { IfOk result (λ s. (now : ℕ) → s ≡ cut (world_of lists.now) now (grant rows.now)) }
{
    let known = known_rows(alloc, &lists.grants, &lists.accounts, rows)?;
    grants_scene(alloc, &lists.settings, known, lists.next)
}

/// The rows that a sweep needs at that moment.
fn scene_of_sweep(alloc: Global, lists: &Lists, now: u32) -> Result<Scene, AllocError>
    ensures { IfOk result (λ s. s ≡ cut (world_of lists.now) now expire) }
{
    let jobs = expired_in(alloc, lists.jobs.as_slice(), lists.settings.keep(), now)?;
    let free = accounts_of_owners(alloc, &lists.accounts, jobs.as_slice())?;
    jobs_scene(alloc, &lists.settings, jobs, free)
}

/// The rows that an event needs at that moment. The one error is want of memory.
pub(crate) fn scene(
    alloc: Global,
    lists: &Lists,
    now: u32,
    event: &Event<'_>,
) -> Result<Scene, AllocError>
    requires totals { AreTotals lists.now }
    requires rising { AreRising lists.now.jobs.items }
    ensures { IfOk result (λ s. s ≡ cut (world_of lists.now) now (event_of event.now)) }
{
    match event {
        Event::Ask { caller, call } => scene_of_call(alloc, lists, caller, call),
        Event::Report(r) => scene_of_report(alloc, lists, r),
        Event::Grants(rows) => scene_of_grants(alloc, lists, rows),
        Event::Expire => scene_of_sweep(alloc, lists, now),
    }
}
