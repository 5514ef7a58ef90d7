//! An HTTP/1.1 front for a print queue: the requests of one connection, answered one after another over any book of a queue.
//!
//! [`serve`] runs a connection to its end, at most 32 requests (`connection`). A turn (`turn`) takes the head and the body of one
//! request from the reader, by `http_head` and `http_wire`, and has it answered (`reply`): an IPP message by `ipp_ops`, a line of
//! the device by `device_lines`, the device's queue and its documents by the book itself. `outcome` has what each of these
//! comes to.
//!
//! A message or a line that acted has its answer in hand when the book is changed, and writing it takes no memory.
#![tactic(auto)]

mod connection;
mod context;
mod law;
mod outcome;
mod reply;
mod turn;

pub use connection::serve;
pub use http_head::end::End;
pub use law::{connections_are_runs, connections_grant_nothing, one_conversation};
pub use outcome::{ServeCause, ServeFault, Served};
