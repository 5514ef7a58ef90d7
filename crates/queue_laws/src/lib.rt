//! Laws of the print queue in the words of those who use it. Each is a contract on a function that no program calls:
//! it speaks of `step`, the answer to an event and the queue after it, or of a queue's jobs, accounts, grants and
//! reports alone, and of nothing by which the step is made, except a job's state, its estimate and the pages set aside for
//! it, the pages granted to an account, set aside and printed in it, whether a caller is an operator, the number of a report's
//! kind, and the order in [`own_jobs_are_shown`] and [`all_jobs_are_shown`], which is the machine's; [`own_jobs_are_in_order`]
//! says what that order is.
//!
//! In the clauses `w`, `v` and `x` are queues, `now` is a moment, `u` the caller, `n` a job's number, `e` a job with its documents,
//! `j` and `k` are jobs without them, `d` is a document, or a payload with its format, `r` a report, `b` a batch, `a` an account,
//! `mine` is whether Get-Jobs is asked with `my-jobs`, `ps` are places of a run, and `f` and `g` free pages; in what account files
//! do, `g` is a row, and `gs` and `hs` are lists of rows.
//! Most words that they use are defined in `specs`, in a line or two: those of all laws in `Steps` (what an event leaves
//! and what it is answered) and `Jobs` (states and owners). The others are those of `queue_core/specs`: a queue (`World`) and a
//! sound one (`Sound`), runs (`Runs`), what is within the limits (`Limits`), rising numbers and the order of jobs that did
//! not end (`Order`), sheets and what the device sees (`Shown`); and of `queue_types` the job that a call is about (`on_job`).
//! Where a clause asks `IsSound w` the text doesn't repeat it: a run from a sound queue has no other (`run_keeps`).
#![tactic(auto)]

mod accounting;
mod accounts;
mod alone;
mod charges;
mod device;
mod documents;
mod doing;
mod entering;
mod expiring;
mod fetching;
mod held;
mod limits;
mod operating;
mod others;
mod refusals;
mod repeats;
mod reported;
mod showing;
mod single;
mod sums;

pub use accounting::sheets_are_balanced;
pub use accounts::{
    account_files_change_accounts, files_are_taken_in_order, grants_count_once, one_row_is_taken,
    repeated_files_change_nothing,
};
pub use alone::{
    begun_jobs_are_left_alone, others_are_left_alone, records_are_left_alone, work_is_left_alone,
};
pub use charges::{reports_move_what_is_owed, reports_take_what_passes, requests_leave_no_debt};
pub use device::{
    accepted_reports_are_kept, repeated_reports_are_answered_again, reports_change_their_job,
};
pub use documents::{documents_stay, only_sent_documents_come, sent_documents_are_fetched};
pub use doing::{
    documents_are_added, held_jobs_are_released, jobs_are_canceled, named_jobs_are_canceled,
    own_jobs_are_canceled, pages_are_set_aside, waiting_jobs_are_held,
};
pub use entering::{new_jobs_enter_held, validated_jobs_would_print};
pub use expiring::held_jobs_expire;
pub use fetching::{documents_are_fetched, startable_jobs_are_shown};
pub use held::jobs_are_held_until_released;
pub use limits::hundred_own_jobs_are_most;
pub use operating::{all_jobs_are_shown, operators_cancel};
pub use others::{others_requests_are_alike, own_is_what_is_shown, run_two};
pub use refusals::refusals_change_nothing;
pub use repeats::{repeats_alone_are_left_out, run_thin, thin_runs_have_no_repeats};
pub use reported::{jobs_are_reported, reports_are_compared, reports_are_out_of_state};
pub use showing::{own_job_is_shown, own_jobs_are_in_order, own_jobs_are_shown, printer_is_shown};
pub use single::{other_jobs_are_left_alone, others_jobs_are_none};
pub use sums::sums_are_bounded;
