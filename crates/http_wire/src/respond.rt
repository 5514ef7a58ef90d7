//! Responses (RFC 9112, section 4). A head is put together in a fixed array, so that no memory is taken.
ghost use Rattle.std.specs.Prelude.{◌≡◌, ◌+◌, ◌≤◌, ◌++◌, length, IfOk, OnOk, OnErr, unwrap_or, []};
ghost use Rattle.std.specs.Io.KnownBytes.{Appends};
ghost use Rattle.arrayvec.specs.ArrayVec.{array_vec_len};
ghost use Rattle.http.specs.StatusCode.{reason_phrase};
ghost use Rattle.http_head.specs.Ends.{code_of};
ghost use Rattle.http_wire.specs.Responses as spec;
ghost use Rattle.http_wire.specs.Responses.{WritesFront};

use crate::fault::WriteFault;
use crate::put::{put, put_both};
use arrayvec::ArrayVec;
use http::StatusCode;
use http_head::end::{Finish, Refusal};
use http_head::framing::Framing;
use http_head::plan::Plan;
use std::io::Write;
use std::marker::Model;

/// The room for a head, in bytes.
const HEAD_CAPACITY: usize = 256;

/// Adds a text that fits.
fn add(to: &mut ArrayVec<u8, HEAD_CAPACITY>, text: &[u8])
    requires { array_vec_len to.old + length text.now ≤ 256 }
    ensures { to.new.items ≡ to.old.items ++ text.now }
{
    let _fits = to.try_extend_from_slice(text);
}

/// The field line that ends a connection (RFC 9112, section 9.6), or none.
fn close_line(closes: bool) -> &'static str
    ensures value { result.now ≡ spec.close_line closes }
    ensures short { length result.now ≤ 19 }
{
    if closes { "Connection: close\r\n" } else { "" }
}

/// The head of a success: the media type of the content, its length in bytes, and whether the connection ends.
fn success_head(media_type: &str, size: u64, closes: bool) -> ArrayVec<u8, HEAD_CAPACITY>
    requires { length media_type.now ≤ 64 }
    ensures { result.items ≡ spec.success_head media_type.now size closes }
{
    let mut head = ArrayVec::new();
    let mut digits = itoa::Buffer::new();
    add(&mut head, b"HTTP/1.1 200 OK\r\nContent-Type: ");
    add(&mut head, media_type.as_bytes());
    add(&mut head, b"\r\nContent-Length: ");
    add(&mut head, digits.format(size).as_bytes());
    add(&mut head, b"\r\n");
    add(&mut head, close_line(closes).as_bytes());
    add(&mut head, b"\r\n");
    head
}

/// The field line of a refused method (RFC 9110, section 15.5.6), or none.
fn allow_line(refusal: Refusal) -> &'static str
    ensures value { result.now ≡ spec.allow_line refusal }
    ensures short { length result.now ≤ 40 }
{
    match refusal {
        Refusal::OnlyPostAllowed => "Allow: POST\r\n",
        Refusal::OnlyGetAllowed => "Allow: GET\r\n",
        Refusal::BadRequest
        | Refusal::NotFound
        | Refusal::LengthRequired
        | Refusal::ContentTooLarge
        | Refusal::UnsupportedMediaType
        | Refusal::HeaderFieldsTooLarge
        | Refusal::ServiceUnavailable => "",
    }
}

/// The reason phrase of a refusal's status.
// phrase_text with what follows from its value: that it fits a head
fn phrase_of(refusal: Refusal) -> &'static str
    ensures value { result.now ≡ unwrap_or (reason_phrase (code_of refusal)) [] }
    ensures short { length result.now ≤ 40 }
{
    phrase_text(refusal)
}

fn phrase_text(refusal: Refusal) -> &'static str
    ensures { result.now ≡ unwrap_or (reason_phrase (code_of refusal)) [] }
{
    match StatusCode::from_u16(refusal.code()) {
        Ok(status) => status.canonical_reason().unwrap_or(""),
        Err(_) => unreachable!("the code of a refusal is from 100 to 999"),
    }
}

/// The whole response of a refusal.
fn refusal_response(refusal: Refusal) -> ArrayVec<u8, HEAD_CAPACITY>
    ensures { result.items ≡ spec.refusal_response refusal }
{
    let mut response = ArrayVec::new();
    let mut digits = itoa::Buffer::new();
    let phrase = phrase_of(refusal);
    add(&mut response, b"HTTP/1.1 ");
    add(&mut response, digits.format(refusal.code()).as_bytes());
    add(&mut response, b" ");
    add(&mut response, phrase.as_bytes());
    add(&mut response, b"\r\n");
    add(&mut response, allow_line(refusal).as_bytes());
    add(
        &mut response,
        b"Content-Length: 0\r\nConnection: close\r\n\r\n",
    );
    response
}

fn interim_response(plan: Plan) -> &'static [u8]
    ensures { result.now ≡ spec.interim_response plan }
{
    if plan.expects() {
        b"HTTP/1.1 100 Continue\r\n\r\n"
    } else {
        b""
    }
}

/// The leave to take the body of a request, whose client has been told to send it, where it waits for that. Only [`send_continue`] makes one.
/// Contracts see it as the framing of that body.
#[derive(Drop)]
pub struct Invited {
    framing: Framing,
}

impl Model for Invited {
    ghost use Rattle.http_head.specs.declared.framing.Framing.{Framing};

    ghost Value = { Framing };

    ghost view = { λ i. i.framing };
}

impl Invited {
    /// How the body is framed.
    pub(crate) fn framing(self) -> Framing
        ensures { result ≡ self }
    {
        self.framing
    }
}

/// Writes `100 Continue` (RFC 9110, section 15.2.1) where the request expects it. What it answers is the leave to take the body of this plan.
pub fn send_continue<W: Write>(writer: &mut W, plan: Plan) -> Result<Invited, WriteFault>
    ensures ok { OnOk result (Appends (W.contents writer.old) (W.contents writer.new) (spec.interim_response plan)) }
    ensures err { OnErr result (WritesFront (W.contents writer.old) (W.contents writer.new) (spec.interim_response plan)) }
    ensures leave { IfOk result (λ invited. invited ≡ plan.framing) }
{
    put(writer, interim_response(plan))?;
    Ok(Invited {
        framing: plan.framing(),
    })
}

/// Writes the head of a success, behind which its content of so many bytes is to follow. Its media type has at most 64 bytes.
pub fn send_head<W: Write>(
    writer: &mut W,
    media_type: &str,
    size: u64,
    closes: bool,
) -> Result<(), WriteFault>
    requires { length media_type.now ≤ 64 }
    ensures ok { OnOk result (Appends (W.contents writer.old) (W.contents writer.new) (spec.success_head media_type.now size closes)) }
    ensures err { OnErr result (WritesFront (W.contents writer.old) (W.contents writer.new) (spec.success_head media_type.now size closes)) }
{
    put(writer, success_head(media_type, size, closes).as_slice())
}

/// Writes a success with its content. Its media type has at most 64 bytes.
pub fn send_success<W: Write>(
    writer: &mut W,
    media_type: &str,
    content: &[u8],
    closes: bool,
) -> Result<(), WriteFault>
    requires { length media_type.now ≤ 64 }
    ensures ok { OnOk result (Appends (W.contents writer.old) (W.contents writer.new) (spec.success_response media_type.now content.now closes)) }
    ensures err { OnErr result (WritesFront (W.contents writer.old) (W.contents writer.new) (spec.success_response media_type.now content.now closes)) }
{
    let head = success_head(media_type, content.len() as u64, closes);
    put_both(writer, head.as_slice(), content)
}

/// Writes the response that an end has: a refusal's, and else none.
pub fn send_end<W: Write>(writer: &mut W, end: Finish) -> Result<(), WriteFault>
    ensures ok { OnOk result (Appends (W.contents writer.old) (W.contents writer.new) (spec.last_response end)) }
    ensures err { OnErr result (WritesFront (W.contents writer.old) (W.contents writer.new) (spec.last_response end)) }
{
    match end {
        Finish::Refused(refusal) => put(writer, refusal_response(refusal).as_slice()),
        Finish::Closed | Finish::Cut => Ok(()),
    }
}
