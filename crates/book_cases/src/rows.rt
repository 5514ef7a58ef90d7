//! Rows of steps, each in an empty queue of its own, over every book: in lists, in tables in memory, in tables that are
//! closed and adopted before every step, and in tables in a file.

mod accounts;
mod device;
mod expiry;
mod files;
mod job_numbers;
mod lists_of_jobs;
mod messages;
mod names;
mod operators;
mod stops;
mod two_accounts;
