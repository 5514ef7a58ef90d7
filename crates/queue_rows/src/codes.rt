//! The numbers that stand for phases, states, kinds of reports and truth values in the columns of the tables.
ghost use Rattle.std.specs.Prelude.{◌≡◌, pos, MatchOption, Bool, Option};
ghost use Rattle.queue_types.specs.declared.event.Kind.{Kind};
ghost use Rattle.queue_types.specs.declared.job.Phase.{Phase};
ghost use Rattle.queue_types.specs.declared.job.Why.{Why};
ghost use Rattle.queue_types.specs.declared.states.JobState.{JobState};
ghost use Rattle.queue_rows.specs.Codes.{AreCourse, cause_number, cause_of, phase_number, stopping_number, why_number, kind_number, flag_number, job_state_number};

use queue_types::event::Kind;
use queue_types::job::{Phase, Why};
use queue_types::states::JobState;

/// The column `phase`: 0 waiting, 1 running, 2 stopped, 7 canceled, 8 aborted, 9 completed.
pub fn phase_number_of(phase: Phase) -> u32
    ensures { result ≡ phase_number phase }
{
    match phase {
        Phase::Waiting => 0,
        Phase::Running => 1,
        Phase::Stopped => 2,
        Phase::Canceled(_) => 7,
        Phase::Aborted => 8,
        Phase::Completed => 9,
    }
}

/// The number of who cancels a job: 1 its user, 2 the device, 3 an operator; 0 where nobody does.
fn cause_number_of(cause: Option<Why>) -> u32
    ensures { result ≡ cause_number cause }
{
    match cause {
        None => 0,
        Some(Why::ByUser) => 1,
        Some(Why::AtDevice) => 2,
        Some(Why::ByOperator) => 3,
    }
}

/// The column `why`: who canceled the job or stops it.
pub fn why_number_of(phase: Phase, stopping: Option<Why>) -> u32
    ensures { result ≡ why_number phase stopping }
{
    match phase {
        Phase::Canceled(why) => cause_number_of(Some(why)),
        Phase::Waiting | Phase::Running | Phase::Stopped | Phase::Aborted | Phase::Completed => {
            cause_number_of(stopping)
        }
    }
}

/// Who cancels a job, by the number for it; None where it is none.
fn cause_with(why: i64) -> Option<Option<Why>>
    ensures { MatchOption result ((c : Option Why) → ¬ (why ≡ pos (cause_number c))) (λ c. why ≡ pos (cause_number c)) }
{
    match why {
        0 => Some(None),
        1 => Some(Some(Why::ByUser)),
        2 => Some(Some(Why::AtDevice)),
        3 => Some(Some(Why::ByOperator)),
        _ => None,
    }
}

/// The phase that has this number; of a canceled job, by this cause.
fn phase_by(phase: i64, cause: Option<Why>) -> Option<Phase>
    ensures { MatchOption result ((p : Phase) → phase ≡ pos (phase_number p) → ¬ ((s : Option Why) × (cause_of p s ≡ cause))) (λ p. (phase ≡ pos (phase_number p)) × ((s : Option Why) × (cause_of p s ≡ cause))) }
{
    match (phase, cause) {
        (0, _) => Some(Phase::Waiting),
        (1, _) => Some(Phase::Running),
        (2, _) => Some(Phase::Stopped),
        (7, Some(why)) => Some(Phase::Canceled(why)),
        (8, _) => Some(Phase::Aborted),
        (9, _) => Some(Phase::Completed),
        _ => None,
    }
}

/// Who stops a job of this phase, by the column `stopping`, where the column `why` has this cause; None where it is no such number.
fn stopping_by(phase: Phase, cause: Option<Why>, stopping: i64) -> Option<Option<Why>>
    requires { (s : Option Why) × (cause_of phase s ≡ cause) }
    ensures { MatchOption result ((s : Option Why) → cause_of phase s ≡ cause → ¬ (stopping ≡ pos (stopping_number phase s))) (λ s. (cause_of phase s ≡ cause) × (stopping ≡ pos (stopping_number phase s))) }
{
    match (phase, cause, stopping) {
        (Phase::Canceled(_), _, _) => cause_with(stopping),
        (_, None, 0) => Some(None),
        (_, Some(why), 1) => Some(Some(why)),
        _ => None,
    }
}

/// The column `stopping`: 1 where a job is stopping, else 0.
pub fn stopping_number_of(phase: Phase, stopping: Option<Why>) -> u32
    ensures { result ≡ stopping_number phase stopping }
{
    match phase {
        Phase::Canceled(_) => cause_number_of(stopping),
        Phase::Waiting | Phase::Running | Phase::Stopped | Phase::Aborted | Phase::Completed => {
            u32::from(stopping.is_some())
        }
    }
}

/// The phase that stands in the columns `phase`, `why` and `stopping`, and who stops the job; None where none does.
pub fn course_of(phase: i64, why: i64, stopping: i64) -> Option<(Phase, Option<Why>)>
    ensures { MatchOption result ((p : Phase) (s : Option Why) → ¬ AreCourse phase why stopping p s) (λ c. AreCourse phase why stopping c.0 c.1) }
{
    let cause = cause_with(why)?;
    let phase = phase_by(phase, cause)?;
    Some((phase, stopping_by(phase, cause, stopping)?))
}

/// The kind whose number stands in the column `kind`, 1 to 7; None where none does.
pub fn kind_of(kind: i64) -> Option<Kind>
    ensures { MatchOption result ((k : Kind) → ¬ (kind ≡ pos (kind_number k))) (λ k. kind ≡ pos (kind_number k)) }
{
    match kind {
        1 => Some(Kind::Start),
        2 => Some(Kind::Stop),
        3 => Some(Kind::Resume),
        4 => Some(Kind::Count),
        5 => Some(Kind::Done),
        6 => Some(Kind::Fail),
        7 => Some(Kind::Halt),
        _ => None,
    }
}

/// The state whose number stands in the column `state`, 3 to 9; None where none does.
pub fn job_state_of(state: i64) -> Option<JobState>
    ensures { MatchOption result ((s : JobState) → ¬ (state ≡ pos (job_state_number s))) (λ s. state ≡ pos (job_state_number s)) }
{
    let number = u8::try_from(state).ok()?;
    JobState::from_number(number)
}

/// The truth value that stands in a column: 0 false, 1 true, else None.
pub fn flag_of(flag: i64) -> Option<bool>
    ensures { MatchOption result ((b : Bool) → ¬ (flag ≡ pos (flag_number b))) (λ b. flag ≡ pos (flag_number b)) }
{
    match flag {
        0 => Some(false),
        1 => Some(true),
        _ => None,
    }
}
