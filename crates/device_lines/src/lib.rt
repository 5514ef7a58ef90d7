//! The device's side of a print queue: the lines in which it reports what it prints, their answers over any
//! book, and its queue as text.
#![tactic(auto)]

mod law;
mod line;
mod queue;
mod report_answer;
mod reporting;

pub use law::{lines_are_events, one_line_reading};
pub use line::{LineFault, read_report};
pub use queue::queue_text;
pub use report_answer::ReportAnswer;
pub use reporting::report;
