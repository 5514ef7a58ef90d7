//! The states of a job and of the printer, with their numbers.
ghost use Rattle.std.specs.Prelude.{◌≡◌, ◌≢◌, MatchOption};
ghost use Rattle.queue_types.specs.States.{job_state_number, printer_state_number};
ghost use Rattle.queue_types.specs.declared.states.JobState.{JobState as StateOfJob};

/// A job's state by the value of job-state (RFC 8011, section 5.3.7).
#[derive(Clone, Copy, Debug, PartialEq, Eq)]
pub enum JobState {
    /// It waits to be printed.
    Pending = 3,
    /// It is held, or still takes documents.
    PendingHeld = 4,
    /// The device prints it.
    Processing = 5,
    /// The device stands still in it.
    ProcessingStopped = 6,
    /// It was ended by its user or at the device.
    Canceled = 7,
    /// The device could not print it.
    Aborted = 8,
    /// It is printed.
    Completed = 9,
}

impl JobState {
    /// The value of job-state, 3 to 9.
    pub fn number(self) -> u8
        ensures { result ≡ job_state_number self }
    {
        self as u8
    }

    /// The state of that value, where there is one.
    pub fn from_number(number: u8) -> Option<JobState>
        ensures { MatchOption result ((s : StateOfJob) → number ≢ job_state_number s) (λ s. number ≡ job_state_number s) }
    {
        match number {
            3 => Some(JobState::Pending),
            4 => Some(JobState::PendingHeld),
            5 => Some(JobState::Processing),
            6 => Some(JobState::ProcessingStopped),
            7 => Some(JobState::Canceled),
            8 => Some(JobState::Aborted),
            9 => Some(JobState::Completed),
            _ => None,
        }
    }
}

/// The printer's state by the value of printer-state (RFC 8011, section 5.4.11).
#[derive(Clone, Copy, Debug, PartialEq, Eq)]
pub enum PrinterState {
    /// The device has no job.
    Idle = 3,
    /// The device prints.
    Processing = 4,
    /// The device stands still in a job, and prints no other.
    Stopped = 5,
}

impl PrinterState {
    /// The value of printer-state, 3 to 5.
    pub fn number(self) -> u8
        ensures { result ≡ printer_state_number self }
    {
        self as u8
    }
}
