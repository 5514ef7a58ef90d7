//! Answers that refuse.

use crate::desk::connection::Wanted;
use crate::desk::connection::Wanted::{Refusal, Success};
use crate::desk::requests::TEXT;

pub(crate) const BAD: Wanted<'static> = Refusal("400 Bad Request");

pub(crate) const NOT_FOUND: Wanted<'static> = Refusal("404 Not Found");

pub(crate) const POST_ALLOWED: Wanted<'static> = Refusal("405 Method Not Allowed\r\nAllow: POST");

pub(crate) const GET_ALLOWED: Wanted<'static> = Refusal("405 Method Not Allowed\r\nAllow: GET");

pub(crate) const NO_LENGTH: Wanted<'static> = Refusal("411 Length Required");

pub(crate) const TOO_LARGE: Wanted<'static> = Refusal("413 Payload Too Large");

pub(crate) const OTHER_TYPE: Wanted<'static> = Refusal("415 Unsupported Media Type");

pub(crate) const HEAD_TOO_LARGE: Wanted<'static> = Refusal("431 Request Header Fields Too Large");

/// The answer to a body that is no line of the device.
pub(crate) const NO_LINE: Wanted<'static> = Success(TEXT, b"refused 1 syntax\n");
