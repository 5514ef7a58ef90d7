//! The names of users and accounts, and the bytes that they may have.
ghost use Rattle.std.specs.Prelude.{◌≡◌, ◌↔◌, IsTrue};
ghost use Rattle.std.specs.List.{list_all};
ghost use Rattle.queue_types.specs.Names as names;

use crate::limits::MOST_NAME_OCTETS;

/// The name of a caller that gives none.
pub const ANONYMOUS: &str = "anonymous";

/// No byte is a control character of ASCII, as in the names of users and accounts.
pub fn has_no_control(text: &[u8]) -> bool
    ensures { result ≡ list_all names.is_no_control text.now }
{
    text.iter().all(|b| 0x20 <= *b && *b != 0x7f)
}

/// The name of a user or an account: 1 to 255 octets without control characters.
pub fn is_owner(text: &str) -> bool
    ensures { IsTrue result ↔ names.IsOwner text.now }
{
    !text.is_empty() && text.len() <= MOST_NAME_OCTETS && has_no_control(text.as_bytes())
}
