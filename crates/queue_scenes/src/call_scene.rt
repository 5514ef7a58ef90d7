//! The rows that a caller's call needs.
ghost use Rattle.std.specs.Prelude.{◌≡◌, ◌≤◌, ◌<◌, ◌^◌, [], All, length, IfOk, OnOk, IsTrue, IfErr};
ghost use Rattle.std.specs.FinMap.{get};
ghost use Rattle.sqlite.specs.Held.{state};
ghost use Rattle.sqlite.specs.State.{HasCleanDisk};
ghost use Rattle.queue_types.specs.Event.{ask, call_of, cancel_my_jobs, get_jobs};
ghost use Rattle.queue_core.specs.Limits.{IsFair, IsSoundJob};
ghost use Rattle.queue_core.specs.World.{cut, found_row, jobs_for, jobs_scene as scene_of_jobs, new_scene, numbered, owner_row, queue_counts, rows};
ghost use Rattle.queue_core.specs.Visible.{visible};
ghost use Rattle.queue_tables.specs.Telling.{ReadsQueue};

use crate::accounts::{free_rows, owner_rows};
use crate::counts::{all_counts, live_count};
use crate::jobs::only_job;
use crate::meta::next_number;
use crate::own_jobs::{live_jobs, visible_jobs, visible_to_operators};
use crate::own_numbers::numbered_jobs;
use queue_core::{call_scene, jobs_scene, no_counts, sees_all};
use queue_tables::fault::Fault;
use queue_types::event::{Call, NumberList, Scene, WhichJobs};
use queue_types::job::Job;
use queue_types::limits::LAST_JOB_NUMBER;
use queue_types::settings::Settings;
use sqlite::{Alter, Connection};
use std::alloc::Global;

/// What a call that asks for a new job needs: the caller's live jobs and the next number.
fn scene_of_new<S: Alter>(
    alloc: Global,
    conn: &mut Connection<S>,
    settings: &Settings,
    caller: &str,
) -> Result<Scene, Fault>
    ensures reads { ReadsQueue (state S.Store conn.old) (state S.Store conn.new) result (λ w s. settings.now ≡ w.settings → s ≡ new_scene w caller.now) }
    ensures live { HasCleanDisk (state S.Store conn.new) → OnOk result (IsTrue (state S.Store conn.new).is_open) }
    ensures fair { IfOk result IsFair }
{
    let live = live_count(conn, caller)?;
    let next = next_number(conn)?;
    let jobs = Vec::new(alloc);
    let free = Vec::new(alloc);
    let scene = call_scene(alloc, settings, jobs, free, live, no_counts(), next)?;
    Ok(scene)
}

/// What Get-Printer-Attributes needs: the counts of the queue and the next number.
fn scene_of_printer<S: Alter>(
    alloc: Global,
    conn: &mut Connection<S>,
    settings: &Settings,
) -> Result<Scene, Fault>
    ensures reads { ReadsQueue (state S.Store conn.old) (state S.Store conn.new) result (λ w s. settings.now ≡ w.settings → s ≡ record (scene_of_jobs w.settings [] []) { counts = queue_counts (rows w); next = w.next }) }
    ensures live { HasCleanDisk (state S.Store conn.new) → OnOk result (IsTrue (state S.Store conn.new).is_open) }
    ensures fair { IfOk result IsFair }
{
    let counts = all_counts(conn)?;
    let next = next_number(conn)?;
    let jobs = Vec::new(alloc);
    let free = Vec::new(alloc);
    let scene = call_scene(alloc, settings, jobs, free, 0, counts, next)?;
    Ok(scene)
}

/// What a call about one job needs by which no pages move: that job.
fn scene_of_job<S: Alter>(
    alloc: Global,
    conn: &mut Connection<S>,
    settings: &Settings,
    number: u32,
) -> Result<Scene, Fault>
    ensures reads { ReadsQueue (state S.Store conn.old) (state S.Store conn.new) result (λ w s. settings.now ≡ w.settings → s ≡ scene_of_jobs w.settings (numbered number (rows w)) []) }
    ensures live { HasCleanDisk (state S.Store conn.new) → OnOk result (IsTrue (state S.Store conn.new).is_open) }
    ensures fair { IfOk result IsFair }
{
    let jobs = only_job(alloc, conn, number)?;
    let scene = jobs_scene(alloc, settings, jobs, Vec::new(alloc))?;
    Ok(scene)
}

/// What a call about one job needs by which pages may move: that job and the caller's account.
fn scene_of_job_and_account<S: Alter>(
    alloc: Global,
    conn: &mut Connection<S>,
    settings: &Settings,
    caller: &str,
    number: u32,
) -> Result<Scene, Fault>
    ensures reads { ReadsQueue (state S.Store conn.old) (state S.Store conn.new) result (λ w s. settings.now ≡ w.settings → s ≡ scene_of_jobs w.settings (numbered number (rows w)) (found_row caller.now (get w.free caller.now))) }
    ensures live { HasCleanDisk (state S.Store conn.new) → OnOk result (IsTrue (state S.Store conn.new).is_open) }
    ensures fair { IfOk result IsFair }
{
    let free = free_rows(alloc, conn, caller)?;
    let jobs = only_job(alloc, conn, number)?;
    let scene = jobs_scene(alloc, settings, jobs, free)?;
    Ok(scene)
}

/// What Cancel-Job needs: that job and the account of its owner.
fn scene_of_cancel<S: Alter>(
    alloc: Global,
    conn: &mut Connection<S>,
    settings: &Settings,
    number: u32,
) -> Result<Scene, Fault>
    ensures reads { ReadsQueue (state S.Store conn.old) (state S.Store conn.new) result (λ w s. settings.now ≡ w.settings → s ≡ scene_of_jobs w.settings (numbered number (rows w)) (owner_row w.free (numbered number (rows w)))) }
    ensures live { HasCleanDisk (state S.Store conn.new) → OnOk result (IsTrue (state S.Store conn.new).is_open) }
    ensures fair { IfOk result IsFair }
{
    let jobs = only_job(alloc, conn, number)?;
    let free = owner_rows(alloc, conn, jobs.as_slice())?;
    let scene = jobs_scene(alloc, settings, jobs, free)?;
    Ok(scene)
}

/// The jobs as they are. They are damaged where they are more than there are job numbers.
pub(crate) fn no_more_than_numbers(jobs: Vec<Job>) -> Result<Vec<Job>, Fault>
    ensures same { IfOk result (λ v. v.items ≡ jobs.items) }
    ensures few { IfOk result (λ v. length v.items < 2 ^ 31) }
    ensures damaged { IfErr result (λ e. 2 ^ 31 ≤ length jobs.items) }
{
    if jobs.len() > LAST_JOB_NUMBER as usize {
        return Err(Fault::Damaged);
    }
    Ok(jobs)
}

/// The jobs that Cancel-My-Jobs speaks of: those of the numbers, or all that are live.
fn my_jobs<S: Alter>(
    alloc: Global,
    conn: &mut Connection<S>,
    caller: &str,
    numbers: &Option<NumberList>,
) -> Result<Vec<Job>, Fault>
    ensures reads { ReadsQueue (state S.Store conn.old) (state S.Store conn.new) result (λ w v. v.items ≡ jobs_for w.settings.operators caller.now (cancel_my_jobs numbers.now) (rows w)) }
    ensures live { HasCleanDisk (state S.Store conn.new) → IsTrue (state S.Store conn.old).is_open → OnOk result (IsTrue (state S.Store conn.new).is_open) }
    ensures sound { IfOk result (λ v. All IsSoundJob v.items) }
{
    match numbers {
        Some(asked) => numbered_jobs(alloc, conn, caller, asked.as_slice()),
        None => live_jobs(alloc, conn, caller),
    }
}

/// What Cancel-My-Jobs needs: the jobs that it speaks of and the caller's account.
fn scene_of_my_jobs<S: Alter>(
    alloc: Global,
    conn: &mut Connection<S>,
    settings: &Settings,
    caller: &str,
    numbers: &Option<NumberList>,
) -> Result<Scene, Fault>
    ensures reads { ReadsQueue (state S.Store conn.old) (state S.Store conn.new) result (λ w s. settings.now ≡ w.settings → s ≡ cut w 0 (ask caller.now (cancel_my_jobs numbers.now))) }
    ensures live { HasCleanDisk (state S.Store conn.new) → OnOk result (IsTrue (state S.Store conn.new).is_open) }
    ensures fair { IfOk result IsFair }
{
    let free = free_rows(alloc, conn, caller)?;
    let jobs = my_jobs(alloc, conn, caller, numbers)?;
    let jobs = no_more_than_numbers(jobs)?;
    let scene = jobs_scene(alloc, settings, jobs, free)?;
    Ok(scene)
}

/// The jobs that Get-Jobs shows: the caller's, or those of all callers.
fn shown_jobs<S: Alter>(
    alloc: Global,
    conn: &mut Connection<S>,
    all: bool,
    caller: &str,
    which: WhichJobs,
    limit: Option<u32>,
) -> Result<Vec<Job>, Fault>
    ensures reads { ReadsQueue (state S.Store conn.old) (state S.Store conn.new) result (λ w v. v.items ≡ visible all caller.now which limit (rows w)) }
    ensures live { HasCleanDisk (state S.Store conn.new) → OnOk result (IsTrue (state S.Store conn.new).is_open) }
    ensures sound { IfOk result (λ v. All IsSoundJob v.items) }
{
    if all {
        visible_to_operators(alloc, conn, which, limit)
    } else {
        visible_jobs(alloc, conn, caller, which, limit)
    }
}

/// What Get-Jobs needs: the jobs that it shows.
fn scene_of_shown<S: Alter>(
    alloc: Global,
    conn: &mut Connection<S>,
    settings: &Settings,
    caller: &str,
    which: WhichJobs,
    limit: Option<u32>,
    mine: bool,
) -> Result<Scene, Fault>
    ensures reads { ReadsQueue (state S.Store conn.old) (state S.Store conn.new) result (λ w s. settings.now ≡ w.settings → s ≡ cut w 0 (ask caller.now (get_jobs which limit mine))) }
    ensures live { HasCleanDisk (state S.Store conn.new) → OnOk result (IsTrue (state S.Store conn.new).is_open) }
    ensures fair { IfOk result IsFair }
{
    let all = sees_all(settings.operators(), caller, mine);
    let jobs = shown_jobs(alloc, conn, all, caller, which, limit)?;
    let jobs = no_more_than_numbers(jobs)?;
    let scene = jobs_scene(alloc, settings, jobs, Vec::new(alloc))?;
    Ok(scene)
}

/// The rows that a caller's call needs.
pub(crate) fn scene_of_call<S: Alter>(
    alloc: Global,
    conn: &mut Connection<S>,
    settings: &Settings,
    caller: &str,
    call: &Call<'_>,
) -> Result<Scene, Fault>
    ensures reads { ReadsQueue (state S.Store conn.old) (state S.Store conn.new) result (λ w s. settings.now ≡ w.settings → s ≡ cut w 0 (ask caller.now (call_of call.now))) }
    ensures live { HasCleanDisk (state S.Store conn.new) → OnOk result (IsTrue (state S.Store conn.new).is_open) }
    ensures fair { IfOk result IsFair }
{
    match call {
        Call::PrintJob { .. } | Call::ValidateJob { .. } | Call::CreateJob { .. } => {
            scene_of_new(alloc, conn, settings, caller)
        }
        Call::SendDocument { job, .. } | Call::GetJobAttributes { job } => {
            scene_of_job(alloc, conn, settings, *job)
        }
        Call::CancelJob { job } => scene_of_cancel(alloc, conn, settings, *job),
        Call::HoldJob { job } | Call::ReleaseJob { job } => {
            scene_of_job_and_account(alloc, conn, settings, caller, *job)
        }
        Call::CancelMyJobs { jobs } => scene_of_my_jobs(alloc, conn, settings, caller, jobs),
        Call::GetJobs { which, limit, mine } => {
            scene_of_shown(alloc, conn, settings, caller, *which, *limit, *mine)
        }
        Call::GetPrinterAttributes => scene_of_printer(alloc, conn, settings),
    }
}
