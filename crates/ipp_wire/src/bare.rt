//! The bare reply: a code and nothing more, written without memory.

ghost use Rattle.std.specs.Prelude.{◌≡◌};
ghost use Rattle.ipp_wire.specs.Message.{Spells};
ghost use Rattle.ipp_wire.specs.Bare.{bare, bare_head, is_known_version};

use crate::message::head_array;
use crate::view::Head;

/// The octets of a bare reply.
pub const BARE_OCTETS: usize = 72;

/// The operation group with charset and natural language, and the end of the groups.
const GROUPS: [u8; 64] =
    *b"\x01\x47\x00\x12attributes-charset\x00\x05utf-8\x48\x00\x1battributes-natural-language\x00\x02en\x03";

/// Writes the bare reply of a status code to a request with this head, and says how many bytes it
/// has, which is always [`BARE_OCTETS`]: the request's version, or 1.1 where its major version isn't 1 or 2, the
/// code, the request-id and an operation group with the charset utf-8 and the language en (RFC 8011,
/// section 4.1.4.2). It takes no memory.
pub fn put_fault(out: &mut [u8; BARE_OCTETS], head: Head, code: u16) -> usize
    ensures size { result ≡ 72 }
    ensures spelled { Spells (bare head code) out.new }
{
    out[..8].copy_from_slice(&head_array(reply_head(head, code)));
    out[8..].copy_from_slice(&GROUPS);
    BARE_OCTETS
}

/// The major version is one whose replies are known, 1 or 2. It takes no memory.
pub fn is_known_version(head: Head) -> bool
    ensures { result ≡ is_known_version head }
{
    head.major == 1 || head.major == 2
}

/// The head of a reply with this status code to a request with this head: the request's version, or 1.1
/// where its major version isn't 1 or 2, and its request-id. It takes no memory. (RFC 8011, section 4.1.8,
/// would have the closest version that is supported.)
pub fn reply_head(head: Head, code: u16) -> Head
    ensures { result ≡ bare_head head code }
{
    let (major, minor) = if is_known_version(head) {
        (head.major, head.minor)
    } else {
        (1, 1)
    };
    Head {
        major,
        minor,
        code,
        request_id: head.request_id,
    }
}
