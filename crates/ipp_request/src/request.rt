//! A request by its parts, and what it says of them: the attributes that its operation knows, and its caller.
ghost use Rattle.std.specs.Prelude.{◌≡◌, ◌==◌, [], Err, IfErr, IfOk, Ok, find};
ghost use Rattle.std.specs.Option.{option_copied, option_map};
ghost use Rattle.ipp_wire.specs.Viewed.{attribute_of, attributes_of, group_of, groups_of, message_of, value_of as value_in};
ghost use Rattle.ipp_request.specs.Attributes.{is_on_job, makes_job};
ghost use Rattle.ipp_request.specs.Reading as reading;
ghost use Rattle.ipp_request.specs.Reading.{request_in};
ghost use Rattle.ipp_request.specs.Request as spec;
ghost use Rattle.ipp_request.specs.Request.{request_for, request_of};

use crate::attribute::{OF_JOB, OF_NEW_JOB, OperationAttribute, is_one_of, knows};
use crate::head::operation_in;
use crate::value::{first_value, is_tagged, text};
use ipp_reply::Operation;
use ipp_wire::tags::{JOB_ATTRIBUTES, OPERATION_ATTRIBUTES};
use ipp_wire::{AttrView, GroupView, ValueView, View};
use queue_types::status::CLIENT_ERROR_BAD_REQUEST;
use queue_types::text::utf8_text;

/// What a request has.
#[derive(Clone, Copy)]
pub struct Request<'v, 'a> {
    /// The operation that its head asks for.
    pub operation: Operation,
    /// The attributes of the operation group.
    pub attributes: &'v [AttrView<'a>],
    /// The attributes of the job group.
    pub job_attributes: &'v [AttrView<'a>],
    pub payload: &'a [u8],
}

fn nothing<'v, T>() -> &'v [T]
    ensures { result.now ≡ [] }
{
    &[]
}

fn first_group<'v, 'a>(tag: u8, groups: &'v [GroupView<'a>]) -> Option<&'v GroupView<'a>>
    ensures { option_map group_of (option_copied result) ≡ find (λ g. g.tag == tag) (groups_of groups.entry.now) }
{
    groups.iter().find(|g| g.tag == tag)
}

/// The attributes of the first group of that tag.
fn group_attributes<'v, 'a: 'v>(tag: u8, groups: &'v [GroupView<'a>]) -> &'v [AttrView<'a>]
    ensures { attributes_of result.now ≡ spec.attributes_in tag (groups_of groups.entry.now) }
{
    let Some(g) = first_group(tag, groups) else {
        return nothing();
    };
    g.attrs.as_slice()
}

/// The first attribute of that name.
pub fn named<'v, 'a>(name: &[u8], attrs: &'v [AttrView<'a>]) -> Option<&'v AttrView<'a>>
    ensures { option_map attribute_of (option_copied result) ≡ spec.named name.now (attributes_of attrs.entry.now) }
{
    attrs.iter().find(|a| a.name == name)
}

/// It has the row's name and one value, with a tag of its syntax.
fn is_lone(attribute: OperationAttribute, found: &AttrView<'_>) -> bool
    ensures { result ≡ reading.is_lone attribute (attribute_of found.now) }
{
    let row = attribute.row();
    found.name == row.name.as_bytes()
        && match found.values.as_slice() {
            [v] => is_tagged(row.syntax, *v),
            _ => false,
        }
}

fn attributes_begin(attrs: &[AttrView<'_>]) -> bool
    ensures { result ≡ reading.attributes_begin (attributes_of attrs.now) }
{
    match attrs {
        [charset, language, ..] => {
            is_lone(OperationAttribute::AttributesCharset, charset)
                && is_lone(OperationAttribute::AttributesNaturalLanguage, language)
        }
        _ => false,
    }
}

/// The first group is that of the operation, and begins with charset and language.
fn groups_begin(groups: &[GroupView<'_>]) -> bool
    ensures { result ≡ reading.groups_begin (groups_of groups.now) }
{
    match groups {
        [g, ..] => g.tag == OPERATION_ATTRIBUTES && attributes_begin(g.attrs.as_slice()),
        [] => false,
    }
}

/// The text, where it is not empty.
fn filled(bytes: &[u8]) -> Option<&str>
    ensures { option_copied result ≡ spec.filled bytes.now }
{
    if bytes.is_empty() {
        return None;
    }
    utf8_text(bytes)
}

impl<'v, 'a: 'v> Request<'v, 'a> {
    /// A request for this operation.
    fn new(operation: Operation, view: &'v View<'a>) -> Self
        ensures { request_of result ≡ request_for operation (message_of view.entry.now) }
    {
        let groups = view.groups.as_slice();
        Request {
            operation,
            attributes: group_attributes(OPERATION_ATTRIBUTES, groups),
            job_attributes: group_attributes(JOB_ATTRIBUTES, groups),
            payload: view.payload,
        }
    }

    /// The request that a message is, or the status code that refuses its head or how its first group begins.
    pub fn read(view: &'v View<'a>) -> Result<Self, u16>
        ensures ok { IfOk result (λ r. request_in (message_of view.entry.now) ≡ Ok (request_of r)) }
        ensures err { IfErr result (λ code. request_in (message_of view.entry.now) ≡ Err code) }
    {
        let operation = operation_in(view.head)?;
        if !groups_begin(view.groups.as_slice()) {
            return Err(CLIENT_ERROR_BAD_REQUEST);
        }
        Ok(Request::new(operation, view))
    }

    /// It is about a job.
    pub(crate) fn is_on_job(self) -> bool
        ensures { result ≡ is_on_job (request_of self.entry).operation }
    {
        is_one_of(&OF_JOB, self.operation)
    }

    /// It makes a job, or asks whether one would be made: its job group is looked at.
    pub(crate) fn makes_job(self) -> bool
        ensures { result ≡ makes_job (request_of self.entry).operation }
    {
        is_one_of(&OF_NEW_JOB, self.operation)
    }

    /// The first attribute of that name, where the operation knows it.
    pub fn known(self, attribute: OperationAttribute) -> Option<&'v AttrView<'a>>
        ensures { option_map attribute_of (option_copied result) ≡ spec.known (request_of self.entry) attribute }
    {
        if knows(self.operation, attribute) {
            named(attribute.row().name.as_bytes(), self.attributes)
        } else {
            None
        }
    }

    /// The first value of a known attribute.
    fn value_of(self, attribute: OperationAttribute) -> Option<ValueView<'a>>
        ensures { option_map value_in result ≡ spec.value_of (request_of self.entry) attribute }
    {
        first_value(self.known(attribute)?.values.as_slice())
    }

    /// The bytes of its first value, or none where there is no such attribute.
    pub fn bytes_of(self, attribute: OperationAttribute) -> &'a [u8]
        ensures { result.now ≡ spec.bytes_of (request_of self.entry) attribute }
    {
        match self.value_of(attribute) {
            Some(v) => v.bytes,
            None => &[],
        }
    }

    /// Its first value is the byte 1, which is a boolean that is true (RFC 8010, section 3.9).
    pub fn is_true(self, attribute: OperationAttribute) -> bool
        ensures { result ≡ spec.is_true (request_of self.entry) attribute }
    {
        self.bytes_of(attribute) == [1].as_slice()
    }

    /// There is such an attribute, and the operation knows it.
    pub fn has(self, attribute: OperationAttribute) -> bool
        ensures { result ≡ spec.has (request_of self.entry) attribute }
    {
        self.known(attribute).is_some()
    }

    /// The text of a known attribute, where there is one that is not empty.
    pub fn text_in(self, attribute: OperationAttribute) -> Option<&'a str>
        ensures { option_copied result ≡ spec.text_in (request_of self.entry) attribute }
    {
        filled(text(self.value_of(attribute)?)?)
    }

    /// The name of the caller.
    pub fn caller(self) -> &'a str
        ensures { result.now ≡ spec.caller (request_of self.entry) }
    {
        self.text_in(OperationAttribute::RequestingUserName)
            .unwrap_or("anonymous")
    }
}
