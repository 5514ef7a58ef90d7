//! What a request of a print operation says: its head, its attributes by the tables, its caller, its target and the format of its document,
//! and what of it is unsupported. What refuses is told here of its head, of how its first group begins, and of what is unsupported; the
//! other checks stand in `ipp_ops`.
#![tactic(auto)]

pub mod attribute;
pub mod format;
mod head;
mod law;
mod request;
pub mod target;
pub mod unsupported;
pub mod value;

pub use head::head_check;
pub use law::names_with_languages;
pub use request::{Request, named};
