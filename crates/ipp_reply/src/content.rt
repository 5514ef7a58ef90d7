//! The values of a reply's attribute, before they are put into a message.
ghost use Rattle.std.specs.Prelude.{◌≡◌, ◌<◌, IfOk, OnOk, length, map};
ghost use Rattle.std.specs.Int.{w32, to_be_bytes};
ghost use Rattle.ipp_wire.specs.Viewed.{value_of, values_of};
ghost use Rattle.ipp_reply.specs.Operations.{id, operations};
ghost use Rattle.ipp_wire.specs.Message.{IsAttribute};
ghost use Rattle.ipp_wire.specs.Owned.{add_attribute};
ghost use Rattle.ipp_reply.specs.Content.{values_in};
ghost use Rattle.queue_types.specs.Formats.{format_name, formats};
ghost use Rattle.ipp_reply.specs.JobReply as spec;
ghost use Rattle.ipp_reply.specs.PrinterReply.{operation_ids};

use crate::operation::{OPERATIONS, Operation};
use ipp_wire::tags::{BOOLEAN, ENUM, INTEGER, KEYWORD, MIME_MEDIA_TYPE, NO_VALUE};
use ipp_wire::{Message, ValueView};
use queue_types::document::FORMATS;
use queue_types::job::{Reason, Reasons};
use std::alloc::{AllocError, Global};

/// The charset of each reply, the only one that is supported.
pub(crate) const UTF_8: &str = "utf-8";

/// The natural language of each reply, English.
pub(crate) const ENGLISH: &str = "en";

/// What an attribute of a reply says.
#[derive(Drop)]
pub(crate) enum Content<'a> {
    Integer(u32),
    Enum(u32),
    /// A text under its value tag.
    Text(u8, &'a str),
    /// A text that was made for this reply, under its value tag.
    Made(u8, String),
    /// A moment, or no-value.
    Moment(Option<u32>),
    Reasons(Reasons),
    Boolean(bool),
    /// Several texts under one value tag.
    Texts(u8, &'static [&'static str]),
    /// The ids of the operations, each an enum.
    OperationIds,
    /// The names of the document formats, each a mimeMediaType.
    FormatNames,
}

fn reason_word(reason: Reason) -> &'static str
    ensures { result.now ≡ spec.reason_word reason }
{
    match reason {
        Reason::NoReason => "none",
        Reason::JobIncoming => "job-incoming",
        Reason::JobHoldUntilSpecified => "job-hold-until-specified",
        Reason::JobPrinting => "job-printing",
        Reason::PrinterStopped => "printer-stopped",
        Reason::ProcessingToStopPoint => "processing-to-stop-point",
        Reason::JobCanceledByUser => "job-canceled-by-user",
        Reason::JobCanceledAtDevice => "job-canceled-at-device",
        Reason::JobCanceledByOperator => "job-canceled-by-operator",
        Reason::AbortedBySystem => "aborted-by-system",
        Reason::JobCompletedSuccessfully => "job-completed-successfully",
    }
}

fn text_view(tag: u8, text: &str) -> ValueView<'_>
    ensures { value_of result ≡ record { tag = tag; bytes = text.entry.now } }
{
    ValueView {
        tag,
        bytes: text.as_bytes(),
    }
}

fn keyword(reason: Reason) -> ValueView<'static>
    ensures { value_of result ≡ record { tag = 0x44; bytes = spec.reason_word reason } }
{
    text_view(KEYWORD, reason_word(reason))
}

fn text_views<'a>(
    alloc: Global,
    tag: u8,
    texts: &[&'a str],
) -> Result<Vec<ValueView<'a>>, AllocError>
    ensures { IfOk result (λ v. values_of v.items ≡ spec.texts tag (map (λ t. t.now) texts.now)) }
{
    let mut views = Vec::with_capacity(alloc, texts.len())?;
    for text in texts {
        views.push_reserved(text_view(tag, text));
    }
    Ok(views)
}

fn format_names(alloc: Global) -> Result<Vec<&'static str>, AllocError>
    ensures { IfOk result (λ v. map (λ t. t.now) v.items ≡ map format_name formats) }
{
    let mut names = Vec::with_capacity(alloc, FORMATS.len())?;
    for format in &FORMATS {
        names.push_reserved(format.name());
    }
    Ok(names)
}

fn id_bytes(operation: Operation) -> [u8; 4]
    ensures { result ≡ to_be_bytes w32 (id operation) }
{
    u32::from(operation.id()).to_be_bytes()
}

fn operation_ids(alloc: Global) -> Result<Vec<[u8; 4]>, AllocError>
    ensures { IfOk result (λ v. v.items ≡ map (λ o. to_be_bytes w32 (id o)) operations) }
{
    let mut ids = Vec::with_capacity(alloc, OPERATIONS.len())?;
    for operation in &OPERATIONS {
        ids.push_reserved(id_bytes(*operation));
    }
    Ok(ids)
}

fn enum_views<'a>(alloc: Global, ids: &'a [[u8; 4]]) -> Result<Vec<ValueView<'a>>, AllocError>
    ensures { IfOk result (λ v. values_of v.items ≡ map (λ id. record { tag = 0x23; bytes = id }) ids.entry.now) }
{
    let mut views = Vec::with_capacity(alloc, ids.len())?;
    for id in ids {
        views.push_reserved(ValueView {
            tag: ENUM,
            bytes: id,
        });
    }
    Ok(views)
}

/// Adds an attribute with one value at the end of the last group.
fn put_one(message: &mut Message, name: &str, tag: u8, bytes: &[u8]) -> Result<(), AllocError>
    requires begun { 0 < length message.old.groups }
    requires fits { IsAttribute (record { name = name.now; values = spec.text tag bytes.now }) }
    ensures { OnOk result (message.new ≡ record message.old { groups = add_attribute (record { name = name.now; values = spec.text tag bytes.now }) message.old.groups }) }
{
    message.attribute(name.as_bytes(), &[ValueView { tag, bytes }])
}

/// Adds an attribute with these texts, each under the tag.
fn put_texts(
    alloc: Global,
    message: &mut Message,
    name: &str,
    tag: u8,
    texts: &[&str],
) -> Result<(), AllocError>
    requires begun { 0 < length message.old.groups }
    requires fits { IsAttribute (record { name = name.now; values = spec.texts tag (map (λ t. t.now) texts.now) }) }
    ensures { OnOk result (message.new ≡ record message.old { groups = add_attribute (record { name = name.now; values = spec.texts tag (map (λ t. t.now) texts.now) }) message.old.groups }) }
{
    let values = text_views(alloc, tag, texts)?;
    message.attribute(name.as_bytes(), values.as_slice())
}

/// Adds an attribute with the names of the document formats.
fn put_format_names(alloc: Global, message: &mut Message, name: &str) -> Result<(), AllocError>
    requires begun { 0 < length message.old.groups }
    requires fits { IsAttribute (record { name = name.now; values = spec.texts 0x49 (map format_name formats) }) }
    ensures { OnOk result (message.new ≡ record message.old { groups = add_attribute (record { name = name.now; values = spec.texts 0x49 (map format_name formats) }) message.old.groups }) }
{
    let names = format_names(alloc)?;
    put_texts(alloc, message, name, MIME_MEDIA_TYPE, names.as_slice())
}

/// Adds an attribute with the ids of the operations.
fn put_operation_ids(alloc: Global, message: &mut Message, name: &str) -> Result<(), AllocError>
    requires begun { 0 < length message.old.groups }
    requires fits { IsAttribute (record { name = name.now; values = operation_ids }) }
    ensures { OnOk result (message.new ≡ record message.old { groups = add_attribute (record { name = name.now; values = operation_ids }) message.old.groups }) }
{
    let ids = operation_ids(alloc)?;
    let values = enum_views(alloc, ids.as_slice())?;
    message.attribute(name.as_bytes(), values.as_slice())
}

/// Adds an attribute with one reason or two.
fn put_reasons(message: &mut Message, name: &str, reasons: &Reasons) -> Result<(), AllocError>
    requires begun { 0 < length message.old.groups }
    requires fits { IsAttribute (record { name = name.now; values = spec.texts 0x44 (spec.reason_words reasons.now) }) }
    ensures { OnOk result (message.new ≡ record message.old { groups = add_attribute (record { name = name.now; values = spec.texts 0x44 (spec.reason_words reasons.now) }) message.old.groups }) }
{
    let first = keyword(reasons.first);
    match reasons.second {
        None => message.attribute(name.as_bytes(), &[first]),
        Some(second) => message.attribute(name.as_bytes(), &[first, keyword(second)]),
    }
}

/// Adds an attribute with this content at the end of the last group.
pub(crate) fn put(
    alloc: Global,
    message: &mut Message,
    name: &str,
    content: &Content<'_>,
) -> Result<(), AllocError>
    requires begun { 0 < length message.old.groups }
    requires fits { IsAttribute (record { name = name.now; values = values_in content.now }) }
    ensures { OnOk result (message.new ≡ record message.old { groups = add_attribute (record { name = name.now; values = values_in content.now }) message.old.groups }) }
{
    match content {
        Content::Integer(n) => put_one(message, name, INTEGER, &n.to_be_bytes()),
        Content::Enum(n) => put_one(message, name, ENUM, &n.to_be_bytes()),
        Content::Text(tag, text) => put_one(message, name, *tag, text.as_bytes()),
        Content::Made(tag, text) => put_one(message, name, *tag, text.as_bytes()),
        Content::Moment(None) => put_one(message, name, NO_VALUE, b""),
        Content::Moment(Some(n)) => put_one(message, name, INTEGER, &n.to_be_bytes()),
        Content::Boolean(b) => put_one(message, name, BOOLEAN, &[u8::from(*b)]),
        Content::Texts(tag, texts) => put_texts(alloc, message, name, *tag, texts),
        Content::FormatNames => put_format_names(alloc, message, name),
        Content::OperationIds => put_operation_ids(alloc, message, name),
        Content::Reasons(r) => put_reasons(message, name, r),
    }
}
