//! Messages as hexadecimal text, as the lines of a replay have them.

ghost use Rattle.std.specs.Prelude.{◌≡◌, ◌<◌, ◌≤◌, ◌↔◌, length, vec_len, is_ok, IfOk, IsErr, IsOkAnd, IsErrOf, OnOk, if◌then◌else◌};
ghost use Rattle.std.specs.List.{list_all};
ghost use Rattle.std.specs.Char.{is_ascii_hexdigit};
ghost use Rattle.std.specs.Io.KnownBytes.{Appends};
ghost use Rattle.hex.specs.Hex.{decode_of, encode_lower};

use std::alloc::Global;
use std::io;
use std::io::Write;
use thiserror::Error;

/// The most bytes that a message may have.
pub const MOST_MESSAGE_BYTES: usize = 16_777_216;

/// How many bytes are turned into text at a time.
const PIECE: usize = 512;

/// Why a text stands for no message, by its number.
#[derive(Debug, Clone, Copy, PartialEq, Eq, Error)]
pub enum HexFault {
    /// It isn't an even number of hexadecimal digits.
    #[error("the text is not an even number of hexadecimal digits")]
    NotOfTheForm = 1,
    /// It stands for more bytes than [`MOST_MESSAGE_BYTES`].
    #[error("the message is too long")]
    TooLong = 2,
    /// There was no memory for its bytes.
    #[error("there is no memory")]
    Memory = 3,
}

/// The bytes that a text of hexadecimal digits stands for, two digits a byte, in either case. A text of another form is
/// refused for that, whatever its length; one of the form for more than [`MOST_MESSAGE_BYTES`] bytes; and last for want of
/// memory, which is taken only for a text that is short enough.
pub fn read_hex(alloc: Global, text: &[u8]) -> Result<Vec<u8>, HexFault>
    ensures value { IfOk result (λ bytes. decode_of text.now ≡ Ok bytes.items) }
    ensures fits { IfOk result (λ bytes. vec_len bytes ≤ 16777216) }
    ensures form { IsErrOf result HexFault.NotOfTheForm ↔ IsErr (decode_of text.now) }
    ensures long { IsErrOf result HexFault.TooLong
        ↔ IsOkAnd (decode_of text.now) (λ bytes. 16777216 < length bytes) }
{
    // the form is looked at only where a text is refused, so that one that is taken is gone over once
    if text.len() / 2 > MOST_MESSAGE_BYTES {
        return Err(refusal_of(text, HexFault::TooLong));
    }
    hex::decode(alloc, text).map_err(|_| refusal_of(text, HexFault::Memory))
}

/// Why a text is refused: for its form if it isn't hexadecimal, else for the other reason.
fn refusal_of(text: &[u8], other: HexFault) -> HexFault
    ensures { result ≡ (if is_ok (decode_of text.now) then other else HexFault.NotOfTheForm) }
{
    if is_hexadecimal(text) {
        other
    } else {
        HexFault::NotOfTheForm
    }
}

/// Whether a text is an even number of hexadecimal digits.
fn is_hexadecimal(text: &[u8]) -> bool
    ensures { result ≡ is_ok (decode_of text.now) }
{
    text.len() % 2 == 0 && has_only_digits(text)
}

fn has_only_digits(text: &[u8]) -> bool
    ensures { result ≡ list_all is_ascii_hexdigit text.now }
{
    text.iter().all(|digit| digit.is_ascii_hexdigit())
}

/// Writes bytes as lower-case hexadecimal text, two digits a byte. It takes no memory, and fails
/// only where the writer does.
pub fn put_hex<W: Write>(writer: &mut W, bytes: &[u8]) -> io::Result<()>
    ensures { OnOk result (Appends (W.contents writer.old) (W.contents writer.new)
        (encode_lower bytes.now)) }
{
    for piece in bytes.chunks(PIECE) {
        put_piece(writer, piece)?;
    }
    Ok(())
}

/// Writes at most [`PIECE`] bytes as text.
fn put_piece<W: Write>(writer: &mut W, piece: &[u8]) -> io::Result<()>
    requires { length piece.now ≤ 512 }
    ensures { OnOk result (Appends (W.contents writer.old) (W.contents writer.new)
        (encode_lower piece.now)) }
{
    let mut text = [0; 2 * PIECE];
    let digits = &mut text[..2 * piece.len()];
    hex::encode_to_slice(piece, digits).unwrap();
    writer.write_all(digits)
}
