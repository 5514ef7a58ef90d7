//! What a request target names (RFC 9110, section 7.1; RFC 9112, section 3.2).
ghost use Rattle.std.specs.Prelude.{◌≡◌, drop, length};
ghost use Rattle.http_head.specs.Routes.{routes};
ghost use Rattle.http_head.specs.Targets as spec;

use crate::fields::{after, before, number_in, place_of, utf8_text};
use crate::routes::{Route, route_of};
use matchit::Router;

/// What stands before the numbers in the path of a document.
const DOCUMENT_PREFIX: &[u8] = b"/device/document/";

/// What a request is about.
#[derive(Clone, Copy)]
pub enum Target {
    /// An IPP message to the printer or to a job.
    Ipp,
    /// A line of the device.
    Report,
    /// The device's queue.
    Queue,
    /// Document n of a job, by the job's number and n; `None` where the path has no such numbers.
    Document(Option<(u32, u32)>),
}

impl Target {
    /// It takes POST; else GET.
    pub(crate) fn is_posted(self) -> bool
        ensures { result ≡ spec.is_posted self }
    {
        match self {
            Target::Ipp | Target::Report => true,
            Target::Queue | Target::Document(_) => false,
        }
    }

    /// The one method that it allows.
    pub(crate) fn method(self) -> &'static [u8]
        ensures { result.now ≡ spec.method_of self }
    {
        if self.is_posted() { b"POST" } else { b"GET" }
    }

    /// The media type of the content that it takes.
    pub(crate) fn media_type(self) -> &'static [u8]
        ensures { result.now ≡ spec.media_type_of self }
    {
        match self {
            Target::Ipp => b"application/ipp",
            Target::Report => b"text/plain",
            Target::Queue | Target::Document(_) => b"",
        }
    }
}

fn from_slash(text: &[u8]) -> &[u8]
    ensures { result.now ≡ spec.from_slash text.now }
{
    match place_of(b'/', text) {
        Some(i) => &text[i..],
        None => &[],
    }
}

fn origin_form(target: &[u8]) -> &[u8]
    ensures { result.now ≡ spec.origin_form target.now }
{
    match target.strip_prefix(b"http://") {
        Some(rest) => from_slash(rest),
        None => target,
    }
}

/// The path of a request target: without a query, and without an absolute form's scheme and authority.
pub(crate) fn path_of(target: &[u8]) -> &[u8]
    ensures { result.now ≡ spec.path_of target.now }
{
    origin_form(before(b'?', target))
}

fn behind_document(path: &[u8]) -> &[u8]
    ensures { result.now ≡ drop (length spec.document_prefix) path.now }
{
    path.get(DOCUMENT_PREFIX.len()..).unwrap_or(&[])
}

fn numbers_in(text: &[u8]) -> Option<(u32, u32)>
    ensures { result ≡ spec.numbers_in text.now }
{
    let job = number_in(before(b'/', text))?;
    let n = number_in(after(b'/', text))?;
    Some((job, n))
}

fn target_of(path: &[u8], route: Route) -> Target
    ensures { result ≡ spec.target_of path.now route }
{
    match route {
        Route::Print => Target::Ipp,
        Route::Report => Target::Report,
        Route::Queue => Target::Queue,
        Route::Document => Target::Document(numbers_in(behind_document(path))),
    }
}

/// What a path names, where it has a route.
pub(crate) fn routed(router: &Router<Route>, path: &[u8]) -> Option<Target>
    requires { router.now ≡ routes }
    ensures { result ≡ spec.routed path.now }
{
    let text = utf8_text(path)?;
    let route = route_of(router, text)?;
    Some(target_of(path, route))
}
