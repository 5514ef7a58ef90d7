//! The bodies of requests and the responses of HTTP/1.1 (RFC 9110, RFC 9112) for the server of a print queue, without any
//! queue; the heads of requests are in `http_head`.
//!
//! [`framed::take_framed`] takes the body that a plan tells of, once its client was told to send it ([`respond::Invited`]): by its length
//! (`body`), or by chunks (`chunk`, `trailers`, `chunked`); [`fault::BodyFault`] is why it isn't there. `respond` writes responses, by `put`.
//!
//! No pass reads a byte once as many have come as the part that it looks for may have.
#![tactic(auto)]

mod body;
mod chunk;
mod chunked;
pub mod fault;
pub mod framed;
mod law;
mod put;
pub mod respond;
mod trailers;

pub use law::one_reading;
