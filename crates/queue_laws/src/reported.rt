//! What each kind of report does (docs/device.md).
ghost use Rattle.std.specs.Prelude.{ℕ, ◌≡◌, ◌≢◌, ◌⊎◌, Some, None};
ghost use Rattle.queue_types.specs.Event.{tell};
ghost use Rattle.queue_types.specs.Job.{job_state, state};
ghost use Rattle.queue_core.specs.Machine.{step};
ghost use Rattle.queue_core.specs.Sound.{IsSound};
ghost use Rattle.queue_core.specs.World.{World, rows, job_at};
ghost use Rattle.queue_types.specs.declared.event.KeptReport.{KeptReport};
ghost use Rattle.queue_types.specs.declared.event.Kind.TheVariants.{Start, Stop, Resume, Count, Done as DoneReport, Fail, Halt};
ghost use Rattle.queue_types.specs.declared.event.Report.{Report};
ghost use Rattle.queue_types.specs.declared.event.ReportRefusal.TheVariants.{NoJob, State, Conflict};
ghost use Rattle.queue_types.specs.declared.event.Reply.TheVariants.{Told, NotTold};
ghost use Rattle.queue_types.specs.declared.job.Job.{Job};
ghost use Rattle.queue_types.specs.declared.job.Phase.TheVariants.{Running, Stopped, Canceled, Aborted, Completed};
ghost use Rattle.queue_types.specs.declared.job.Why.{Why};
ghost use Rattle.queue_types.specs.declared.job.Why.TheVariants.{AtDevice};
ghost use Rattle.queue_types.specs.declared.states.JobState.TheVariants.{Processing, ProcessingStopped, Canceled as CanceledState, Aborted as AbortedState, Completed as CompletedState};
ghost use Rattle.queue_laws.specs.Jobs.{Waits, IsAtDevice, HasEnded};
ghost use Rattle.queue_laws.specs.Reporting.{Becomes, IsFirst, IsLater, ended_by};
ghost use Rattle.queue_laws.specs.Steps.{answer, unchanged};

/// What a report makes of its job, where no report of the job and its sequence number was accepted before. Start, in
/// state 3: the job is processing, in state 5, and began at this moment. Stop, in state 5: it is stopped, in state 6.
/// Resume, in state 6: it is processing again, in state 5. Count, once the job began: its state stays. Done, in state 5:
/// it is completed at this moment, in state 9. Fail, in states 5 and 6: it is aborted at this moment, in state 8. Halt, in
/// states 5 and 6: it is canceled at this moment, in state 7, by whoever asked it to stop, its owner or an operator, and else
/// at the device. In each case its count is the greater of the two, nothing else of it changes, and the device is told its
/// state and count. In states 5 and 6 a job has begun.
pub fn jobs_are_reported()
    ensures started { (w : World) (now : ℕ) (r : Report) (j : Job) → IsFirst Start r j w → state j ≡ 3 → Becomes r Processing (record j { phase = Running; begun = Some now }) (step w now (tell r)) }
    ensures stopped { (w : World) (now : ℕ) (r : Report) (j : Job) → IsFirst Stop r j w → state j ≡ 5 → Becomes r ProcessingStopped (record j { phase = Stopped }) (step w now (tell r)) }
    ensures resumed { (w : World) (now : ℕ) (r : Report) (j : Job) → IsFirst Resume r j w → state j ≡ 6 → Becomes r Processing (record j { phase = Running }) (step w now (tell r)) }
    ensures counted { (w : World) (now : ℕ) (r : Report) (j : Job) → IsFirst Count r j w → j.begun ≢ None → Becomes r (job_state j) j (step w now (tell r)) }
    ensures done { (w : World) (now : ℕ) (r : Report) (j : Job) → IsFirst DoneReport r j w → state j ≡ 5 → Becomes r CompletedState (ended_by Completed now j) (step w now (tell r)) }
    ensures failed { (w : World) (now : ℕ) (r : Report) (j : Job) → IsFirst Fail r j w → IsAtDevice j → Becomes r AbortedState (ended_by Aborted now j) (step w now (tell r)) }
    ensures halted_for_asker { (w : World) (now : ℕ) (r : Report) (j : Job) (why : Why) → IsFirst Halt r j w → IsAtDevice j → j.stopping ≡ Some why → Becomes r CanceledState (ended_by (Canceled why) now j) (step w now (tell r)) }
    ensures halted_at_device { (w : World) (now : ℕ) (r : Report) (j : Job) → IsFirst Halt r j w → IsAtDevice j → j.stopping ≡ None → Becomes r CanceledState (ended_by (Canceled AtDevice) now j) (step w now (tell r)) }
    ensures begun { (w : World) (n : ℕ) (j : Job) → IsSound w → job_at n (rows w) ≡ Some j → IsAtDevice j → j.begun ≢ None }
{}

/// In every other state the report is refused for the job's state, and nothing changes: Start but in state 3, Stop and
/// Done but in state 5, Resume but in state 6, Fail and Halt but in states 5 and 6, and Count of a job that never began.
/// In states 3 and 4 no job has begun.
pub fn reports_are_out_of_state()
    ensures unstarted { (w : World) (now : ℕ) (r : Report) (j : Job) → IsFirst Start r j w → state j ≢ 3 → step w now (tell r) ≡ unchanged w (NotTold State) }
    ensures unstopped { (w : World) (now : ℕ) (r : Report) (j : Job) → IsFirst Stop r j w → state j ≢ 5 → step w now (tell r) ≡ unchanged w (NotTold State) }
    ensures unresumed { (w : World) (now : ℕ) (r : Report) (j : Job) → IsFirst Resume r j w → state j ≢ 6 → step w now (tell r) ≡ unchanged w (NotTold State) }
    ensures uncounted { (w : World) (now : ℕ) (r : Report) (j : Job) → IsFirst Count r j w → j.begun ≡ None → step w now (tell r) ≡ unchanged w (NotTold State) }
    ensures undone { (w : World) (now : ℕ) (r : Report) (j : Job) → IsFirst DoneReport r j w → state j ≢ 5 → step w now (tell r) ≡ unchanged w (NotTold State) }
    ensures unfailed { (w : World) (now : ℕ) (r : Report) (j : Job) → IsFirst Fail r j w → Waits j ⊎ HasEnded j → step w now (tell r) ≡ unchanged w (NotTold State) }
    ensures unhalted { (w : World) (now : ℕ) (r : Report) (j : Job) → IsFirst Halt r j w → Waits j ⊎ HasEnded j → step w now (tell r) ≡ unchanged w (NotTold State) }
    ensures waiting { (w : World) (n : ℕ) (j : Job) → IsSound w → job_at n (rows w) ≡ Some j → Waits j → j.begun ≡ None }
{}

/// A report of a number that no job has is refused for that, and nothing changes; of a number that a job has it never
/// is. Where a report of the job and the same sequence number was accepted before, one of another kind or with another
/// count is a conflict, and nothing changes; the same one is told what was told then, and nothing changes.
pub fn reports_are_compared()
    ensures no_job { (w : World) (now : ℕ) (r : Report) → job_at r.job (rows w) ≡ None → step w now (tell r) ≡ unchanged w (NotTold NoJob) }
    ensures job { (w : World) (now : ℕ) (r : Report) (j : Job) → job_at r.job (rows w) ≡ Some j → answer w now (tell r) ≢ NotTold NoJob }
    ensures other_kind { (w : World) (now : ℕ) (r : Report) (j : Job) (kept : KeptReport) → IsLater kept r j w → r.kind ≢ kept.report.kind → step w now (tell r) ≡ unchanged w (NotTold Conflict) }
    ensures other_count { (w : World) (now : ℕ) (r : Report) (j : Job) (kept : KeptReport) → IsLater kept r j w → r.count ≢ kept.report.count → step w now (tell r) ≡ unchanged w (NotTold Conflict) }
    ensures same { (w : World) (now : ℕ) (r : Report) (j : Job) (kept : KeptReport) → IsLater kept r j w → r.kind ≡ kept.report.kind → r.count ≡ kept.report.count → step w now (tell r) ≡ unchanged w (Told kept.state kept.total) }
{}
