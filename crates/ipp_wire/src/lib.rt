//! The bytes of an IPP message (RFC 8010, section 3): [`read`] gives views of them, and [`write`] makes
//! them of a [`Message`]. Numbers are big-endian, names and values have at most 32,767 bytes, and
//! collections are kept as the records in which they come, at most eight deep.
#![tactic(auto)]

mod bare;
mod fault;
mod law;
mod message;
mod reading;
pub mod tags;
mod view;

pub use bare::{BARE_OCTETS, is_known_version, put_fault, reply_head};
pub use law::{one_spelling, plain_attribute};
pub use message::{Message, write};
pub use reading::{head, read};
/// Want of memory: the only refusal of the calls that build and write a message.
pub use std::alloc::AllocError as Memory;
pub use view::{AttrView, GroupView, Head, ValueView, View, WireFault};
