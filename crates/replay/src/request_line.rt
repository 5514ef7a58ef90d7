//! What a line of a replay asks for.

ghost use Rattle.std.specs.Prelude.{◌≡◌, ◌≢◌, ◌++◌, ℕ, IfSome, IfNone, codes};
ghost use Rattle.std.specs.Fmt.{decimal};
ghost use Rattle.queue_core.specs.Limits.{IsMoment};
ghost use Rattle.replay.specs.RequestLine.{Says};
ghost use Rattle.replay.specs.declared.request_line.RequestLine.{RequestLine};

use queue_types::limits::LAST_MOMENT;

/// A line of a replay that is of one of the forms.
pub(crate) enum RequestLine<'a> {
    /// `now N`: requests come at this moment from here on. N is 1 to [`LAST_MOMENT`] in decimal,
    /// without leading zeros.
    Now(u32),
    /// `ipp HEX`: a message of the Internet Printing Protocol, with what stands for its digits.
    Ipp(&'a [u8]),
    /// `dev LINE`: a line of the device, without its line feed.
    Dev(&'a [u8]),
    /// `grant B,A,P`: the one row of an account file, without its line feed.
    Grant(&'a [u8]),
    /// `expire`: held and open jobs that have expired end.
    Expire,
}

impl<'a> RequestLine<'a> {
    /// What the line says, and none where it is of no form.
    pub fn read(line: &'a [u8]) -> Option<RequestLine<'a>>
        ensures said { IfSome result (Says line.now) }
        ensures bad { IfNone result ((request : RequestLine) → Says line.now request → ⊥) }
    {
        if let Some(digits) = line.strip_prefix(b"ipp ".as_slice()) {
            return Some(RequestLine::Ipp(digits));
        }
        if let Some(text) = line.strip_prefix(b"dev ".as_slice()) {
            return Some(RequestLine::Dev(text));
        }
        if let Some(row) = line.strip_prefix(b"grant ".as_slice()) {
            return Some(RequestLine::Grant(row));
        }
        if line == b"expire".as_slice() {
            return Some(RequestLine::Expire);
        }
        let moment = read_now(line)?;
        Some(RequestLine::Now(moment))
    }
}

/// The moment of a line `now N`.
fn read_now(line: &[u8]) -> Option<u32>
    ensures moment { IfSome result (λ n. IsMoment n × (line.now ≡ codes "now " ++ decimal n)) }
    ensures none { IfNone result ((n : ℕ) → IsMoment n → line.now ≢ codes "now " ++ decimal n) }
{
    let digits = line.strip_prefix(b"now ".as_slice())?;
    read_moment(digits)
}

/// The moment that stands there in decimal digits, without leading zeros.
fn read_moment(digits: &[u8]) -> Option<u32>
    ensures moment { IfSome result (λ n. IsMoment n × (digits.now ≡ decimal n)) }
    ensures none { IfNone result ((n : ℕ) → IsMoment n → digits.now ≢ decimal n) }
{
    let first = *digits.first()?;
    if first == b'0' || first == b'+' {
        return None;
    }
    let moment = str::from_utf8(digits).ok()?.parse::<u32>().ok()?;
    (moment <= LAST_MOMENT).then_some(moment)
}
