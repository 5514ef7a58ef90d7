//! Requests of print operations over IPP: the checks that refuse one, the call that it makes, and
//! [`answer`], which goes from its bytes to those of its reply over any book of a print queue.
#![tactic(auto)]

mod answering;
mod asking;
mod check;
mod law;
mod new_job;
mod outcome;
mod verdict;

pub use answering::answer;
pub use asking::ask;
pub use law::{
    callers_are_named_first, calls_are_events, calls_name_jobs, job_paths, one_verdict,
    validations_are_answered_as_prints, whole_tables,
};
pub use outcome::{Answer, TooShort};
pub use verdict::Ask;
