//! What a request asks, as it is handed on.
use ipp_reply::{Unsupported, Wanted};
use queue_types::event::Call;

/// What a request asks.
#[derive(Drop)]
pub enum Ask<'a> {
    /// A call by a caller, with the rows that its reply is to have, and what is unsupported.
    Call {
        caller: &'a str,
        call: Call<'a>,
        wanted: Wanted,
        unsupported: Unsupported<'a>,
    },
    /// The status code of the check that refuses the request, and what is unsupported where that is the
    /// reason.
    Refused {
        code: u16,
        unsupported: Unsupported<'a>,
    },
}
