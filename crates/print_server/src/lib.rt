//! A print queue served over HTTP on the loopback interface: connections one after another, over any book of the queue.
//!
//! [`listen`] opens a port (`listening`), [`tell_listening`] says so, and a [`Service`] takes its connections in turn, and ends the jobs that have
//! expired before each (`serving`). All that is not a socket
//! is a function over values, or over a reader and a writer: the moment of a connection (`moment`), what a connection comes to
//! (`connection`) and the lines that are printed (`lines`).
//!
//! A client that goes away, resets or stays silent ends its own connection alone, and none keeps the others from their turn for longer than
//! 61 timeouts and 11 seconds, its requests' own work aside. A book that can't be read any more ends the server, which may find it whole
//! when it is started again.
#![tactic(auto)]

mod connection;
mod fault;
mod law;
mod lines;
mod listening;
mod moment;
mod serving;
mod timed;

pub use fault::ServerFault;
pub use law::{served_queues_are_runs, servers_grant_nothing};
pub use lines::tell_listening;
pub use listening::listen;
pub use moment::present_moment;
pub use serving::{Service, Standing};
