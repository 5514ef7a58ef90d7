//! How a connection ends.
ghost use Rattle.std.specs.Prelude.{◌≡◌};
ghost use Rattle.http_head.specs.Ends as spec;

/// How serving a connection ended.
#[derive(Clone, Copy, Debug, PartialEq, Eq)]
pub enum End {
    /// The input ended between two requests.
    Closed,
    /// The input ended inside a request, which is not answered.
    Cut,
    /// The connection's last request was answered: the last that it may have, one by HTTP/1.0, or one with `Connection: close`
    /// (RFC 9112, sections 9.3 and 9.6).
    Done,
    /// A request was refused with this status code.
    Refused(u16),
}

/// A refusal (RFC 9110, section 15; RFC 6585, section 5). It ends the connection.
#[derive(Clone, Copy, Debug)]
pub enum Refusal {
    /// 400
    BadRequest,
    /// 404
    NotFound,
    /// 405, for a target that allows POST alone
    OnlyPostAllowed,
    /// 405, for a target that allows GET alone
    OnlyGetAllowed,
    /// 411
    LengthRequired,
    /// 413
    ContentTooLarge,
    /// 415
    UnsupportedMediaType,
    /// 431
    HeaderFieldsTooLarge,
    /// 503: a fault of the server's own
    ServiceUnavailable,
}

/// How a connection ends where no further request is answered, with the refusal itself.
#[derive(Clone, Copy, Debug)]
pub enum Finish {
    /// As [`End::Closed`].
    Closed,
    /// As [`End::Cut`].
    Cut,
    /// A request was refused so.
    Refused(Refusal),
}

impl Refusal {
    /// The status code.
    pub fn code(self) -> u16
        ensures { result ≡ spec.code_of self }
    {
        match self {
            Refusal::BadRequest => 400,
            Refusal::NotFound => 404,
            Refusal::OnlyPostAllowed | Refusal::OnlyGetAllowed => 405,
            Refusal::LengthRequired => 411,
            Refusal::ContentTooLarge => 413,
            Refusal::UnsupportedMediaType => 415,
            Refusal::HeaderFieldsTooLarge => 431,
            Refusal::ServiceUnavailable => 503,
        }
    }
}

impl Finish {
    /// The same with the status code alone.
    pub fn end(self) -> End
        ensures { result ≡ spec.end_of self }
    {
        match self {
            Finish::Closed => End::Closed,
            Finish::Cut => End::Cut,
            Finish::Refused(refusal) => End::Refused(refusal.code()),
        }
    }

    /// It is a fault of the server's own.
    pub fn is_unavailable(self) -> bool
        ensures { result ≡ spec.is_unavailable self }
    {
        matches!(self, Finish::Refused(Refusal::ServiceUnavailable))
    }
}
