//! What each request of a connection is answered with.

use queue_types::settings::Settings;
use std::alloc::Global;

/// What each request of a connection is answered with, beside its own bytes and the book.
#[derive(Clone, Copy)]
pub(crate) struct Context<'a> {
    /// Where memory is taken.
    pub alloc: Global,
    /// The settings of the book's queue.
    pub settings: &'a Settings,
    /// The moment of the connection, from 1 to 2,147,483,647.
    pub now: u32,
}
