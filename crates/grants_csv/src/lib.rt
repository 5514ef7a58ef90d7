//! Account files: the office grants pages by a file of comma-separated rows, and a book takes all of
//! them or none.
#![tactic(auto)]

mod fault;
mod importing;
mod law;
mod reading;
mod row;

pub use fault::{ImportCause, ImportFault};
pub use importing::{Imported, import};
pub use law::{files_are_events, grants_have_rows};
pub use reading::{MOST_FILE_BYTES, read_grants};
