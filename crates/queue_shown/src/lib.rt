//! What the tables show to the device: the head and the bytes of a document.
#![tactic(auto)]

mod head;
mod send;

pub use head::document_head;
pub use send::send_document;
