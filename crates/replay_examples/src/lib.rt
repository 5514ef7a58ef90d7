//! Worked examples of replays, each run over empty queues of its own in lists and in tables, and what is written compared with
//! what is wanted.
//!
//! In a text of examples a case is a line `# NAME`, the lines of a replay, a line `=`, the lines that are to answer them and a
//! line `status N`. A case that is answered so is a line `ok NAME`. Of one that is not, the first line that differs is told, as
//! it was wanted and as it came over which book.
#![tactic(auto)]

mod case;
mod run;

pub use run::run_cases;
