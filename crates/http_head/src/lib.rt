//! Request heads of HTTP/1.1 (RFC 9112, section 3) for the server of a print queue, without any queue.
//!
//! [`receive::take_head`] reads a request head from a connection, an [`input::Input`] (`head`, `buffer`), finds the request
//! target's route (`target`, `routes`; [`routes_are_these`] names paths that have one,
//! and [`documents_are_numbered`] the path of each document), the framing of the request's body (`framing`) and the first check that applies
//! (`checks`), and answers a [`plan::Plan`] or why there is none ([`fault::HeadFault`]). [`end::Finish`] is how a connection ends, with the refusal that ends it.
//!
//! No pass reads a byte once as many have come as a head may have.
#![tactic(auto)]

pub mod buffer;
mod checks;
pub mod end;
pub mod fault;
mod fields;
pub mod framing;
mod head;
pub mod input;
mod law;
pub mod limits;
pub mod plan;
pub mod receive;
pub mod routes;
pub mod target;

pub use law::{documents_are_numbered, routes_are_these};
