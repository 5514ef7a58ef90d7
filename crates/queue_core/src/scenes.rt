//! The scene of an event, put together of what was read for it.
ghost use Rattle.std.specs.Prelude.{◌≡◌, [], IfOk, OnOk};
ghost use Rattle.queue_types.specs.Settings.{AreSettings};
ghost use Rattle.queue_core.specs.World.{jobs_scene as scene_of_jobs, queue_counts, shows_all};

use queue_types::event::{
    FreeList, FreeRow, KeptReport, KnownGrant, KnownList, QueueCounts, Scene,
};
use queue_types::job::{Job, JobList};
use queue_types::limits::FIRST_JOB_NUMBER;
use queue_types::operators::OperatorNames;
use queue_types::settings::Settings;
use std::alloc::{AllocError, Global};

/// The counts for an event that doesn't need them: all 0.
pub fn no_counts() -> QueueCounts
    ensures { result ≡ queue_counts [] }
{
    QueueCounts {
        running: 0,
        stopped: 0,
        queued: 0,
    }
}

/// Get-Jobs shows an operator the jobs of all callers, unless it asks for its own alone.
pub fn sees_all(operators: &OperatorNames, caller: &str, mine: bool) -> bool
    ensures { result ≡ shows_all operators.now caller.now mine }
{
    operators.has(caller) && !mine
}

/// The scene of jobs and accounts alone: all else is as `Scene` has it where an event doesn't need it. The one error is
/// want of memory.
pub fn jobs_scene(
    alloc: Global,
    settings: &Settings,
    jobs: Vec<Job>,
    free: Vec<FreeRow>,
) -> Result<Scene, AllocError>
    ensures scene { IfOk result (λ s. s ≡ scene_of_jobs settings.now jobs.items free.items) }
    ensures settings { OnOk result (AreSettings settings.now) }
{
    Ok(Scene {
        settings: settings.try_clone()?,
        jobs: JobList::from_items(jobs),
        free: FreeList::from_items(free),
        live: 0,
        counts: no_counts(),
        report: None,
        known: KnownList::from_items(Vec::new(alloc)),
        next: FIRST_JOB_NUMBER,
    })
}

/// The scene of a caller's call: the jobs that it speaks of, the caller's account and live jobs, the counts of the queue
/// and the next job number, each as `Scene` has it where the call doesn't need it. The one error is want of memory.
pub fn call_scene(
    alloc: Global,
    settings: &Settings,
    jobs: Vec<Job>,
    free: Vec<FreeRow>,
    live: usize,
    counts: QueueCounts,
    next: u32,
) -> Result<Scene, AllocError>
    ensures scene { IfOk result (λ s. s ≡ record (scene_of_jobs settings.now jobs.items free.items) { live = live; counts = counts; next = next }) }
    ensures settings { OnOk result (AreSettings settings.now) }
{
    let mut scene = jobs_scene(alloc, settings, jobs, free)?;
    scene.live = live;
    scene.counts = counts;
    scene.next = next;
    Ok(scene)
}

/// The scene of a report: the job that it speaks of, its owner's account and the report that is kept under its number.
/// The one error is want of memory.
pub fn report_scene(
    alloc: Global,
    settings: &Settings,
    jobs: Vec<Job>,
    free: Vec<FreeRow>,
    report: Option<KeptReport>,
) -> Result<Scene, AllocError>
    ensures scene { IfOk result (λ s. s ≡ record (scene_of_jobs settings.now jobs.items free.items) { report = report }) }
    ensures settings { OnOk result (AreSettings settings.now) }
{
    let mut scene = jobs_scene(alloc, settings, jobs, free)?;
    scene.report = report;
    Ok(scene)
}

/// The scene of an account file: what is known of its rows, row by row, and the next job number. The one error is want
/// of memory.
pub fn grants_scene(
    alloc: Global,
    settings: &Settings,
    known: Vec<KnownGrant>,
    next: u32,
) -> Result<Scene, AllocError>
    ensures scene { IfOk result (λ s. s ≡ record (scene_of_jobs settings.now [] []) { known = known.items; next = next }) }
    ensures settings { OnOk result (AreSettings settings.now) }
{
    let mut scene = jobs_scene(alloc, settings, Vec::new(alloc), Vec::new(alloc))?;
    scene.known = KnownList::from_items(known);
    scene.next = next;
    Ok(scene)
}
