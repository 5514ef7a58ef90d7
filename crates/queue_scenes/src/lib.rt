//! The rows that an event needs, the jobs that the device may start, and the sheet of an account, by SELECTs that each go by
//! a key or an index.
#![tactic(auto)]

mod accounts;
mod call_scene;
mod counts;
mod event_scene;
mod expiry_scene;
mod grants;
mod jobs;
mod meta;
mod own_jobs;
mod own_numbers;
mod pending_jobs;
mod reports;
mod sheets;

pub use event_scene::scene;
pub use pending_jobs::pending;
pub use sheets::sheet;
