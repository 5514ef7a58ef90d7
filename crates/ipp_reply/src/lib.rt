//! What the printer answers over IPP: its operations by their ids, the tables of the job attributes and the
//! printer attributes, and [`reply_message`], which makes a reply a message. It knows nothing of requests.
#![tactic(auto)]

mod content;
mod job_reply;
mod operation;
mod printer_reply;
mod reply;
mod selection;
mod unsupported;
mod wanted;

pub use job_reply::{JOB_TABLE, JobAttribute, select_of_job};
pub use operation::{OPERATIONS, Operation};
pub use printer_reply::{PRINTER_TABLE, PrinterAttribute, select_of_printer};
pub use reply::reply_message;
pub use unsupported::{Unsupported, is_filled};
pub use wanted::Wanted;
