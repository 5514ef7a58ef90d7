//! The print queue as a machine: jobs, accounts and their balance, the step that an event takes, and
//! the trait of the books that keep a queue. It knows nothing of messages, lines or tables.
#![tactic(auto)]

mod balance;
mod book;
mod decision;
mod expiry;
mod grants;
mod laws;
mod machine;
mod my_jobs;
mod names;
mod own_job;
mod reports;
mod scenes;
mod sweeping;
mod totals;
mod writing;

pub use balance::numbered_job;
pub use book::{BookFault, QueueBook, SendCause, SendFault};
pub use laws::{
    cut_is_fair, decisions_are_sound, empty_is_sound, get_jobs_in_order, new_grants_add_up,
    run_keeps,
};
pub use machine::decide;
pub use my_jobs::number_set;
pub use names::{are_batch_bytes, has_no_zero, is_batch, is_job_name};
pub use queue_types::names::{has_no_control, is_owner};
pub use scenes::{call_scene, grants_scene, jobs_scene, no_counts, report_scene, sees_all};
pub use sweeping::sweep;
pub use writing::{Unwritten, put_whole};
