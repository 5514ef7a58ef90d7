//! The reply to a request as a message.
ghost use Rattle.std.specs.Prelude.{◌≡◌, ◌<◌, IfOk, OnOk, fold, length};
ghost use Rattle.std.specs.List.{AllByRecursion};
ghost use Rattle.ipp_wire.specs.Bare.{bare};
ghost use Rattle.ipp_wire.specs.Message.{IsAttribute};
ghost use Rattle.ipp_wire.specs.Owned.{add_attribute};
ghost use Rattle.ipp_wire.specs.Viewed.{attributes_of};
ghost use Rattle.queue_core.specs.Limits.{IsSoundReply};
ghost use Rattle.ipp_reply.specs.Reply.{refusal, reply_of, success, unsupported_groups, with_groups};
ghost use Rattle.ipp_reply.specs.Unsupported.{CanList, unsupported_of};
ghost use Rattle.ipp_reply.specs.Wanted.{rows_of};

use crate::content::{ENGLISH, UTF_8};
use crate::job_reply::{JobView, put_jobs};
use crate::printer_reply::{PrinterView, put_printer};
use crate::unsupported::Unsupported;
use crate::wanted::Wanted;
use ipp_wire::tags::{CHARSET, NATURAL_LANGUAGE, OPERATION_ATTRIBUTES, UNSUPPORTED_ATTRIBUTES};
use ipp_wire::{AttrView, Head, Message, ValueView, reply_head};
use queue_types::event::Reply;
use queue_types::settings::Settings;
use queue_types::status::{
    CLIENT_ERROR_ATTRIBUTES_OR_VALUES_NOT_SUPPORTED, SUCCESSFUL_OK,
    SUCCESSFUL_OK_IGNORED_OR_SUBSTITUTED_ATTRIBUTES,
};
use std::alloc::{AllocError, Global};

/// A reply with charset and natural language alone.
fn bare_message(alloc: Global, head: Head, code: u16) -> Result<Message, AllocError>
    ensures { IfOk result (λ m. m ≡ bare head code) }
{
    let mut message = Message::new(alloc, reply_head(head, code));
    message.group(OPERATION_ATTRIBUTES)?;
    message.attribute(
        b"attributes-charset",
        &[ValueView {
            tag: CHARSET,
            bytes: UTF_8.as_bytes(),
        }],
    )?;
    message.attribute(
        b"attributes-natural-language",
        &[ValueView {
            tag: NATURAL_LANGUAGE,
            bytes: ENGLISH.as_bytes(),
        }],
    )?;
    Ok(message)
}

fn put_attributes(message: &mut Message, attrs: &[AttrView<'_>]) -> Result<(), AllocError>
    requires begun { 0 < length message.old.groups }
    requires fits { AllByRecursion IsAttribute (attributes_of attrs.now) }
    ensures ok { OnOk result (message.new ≡ record message.old { groups = fold (λ gs a. add_attribute a gs) message.old.groups (attributes_of attrs.now) }) }
    ensures still_begun { 0 < length message.new.groups }
{
    for attribute in attrs {
        message.attribute(attribute.name, attribute.values.as_slice())?;
    }
    Ok(())
}

/// Adds the group of what is unsupported, where something is.
fn put_unsupported(message: &mut Message, unsupported: &Unsupported<'_>) -> Result<(), AllocError>
    requires { CanList (unsupported_of unsupported.now) }
    ensures { OnOk result (message.new ≡ with_groups message.old (unsupported_groups (unsupported_of unsupported.now))) }
{
    if !unsupported.is_listed() {
        return Ok(());
    }
    message.group(UNSUPPORTED_ATTRIBUTES)?;
    put_attributes(message, unsupported.operation.as_slice())?;
    put_attributes(message, unsupported.job.as_slice())
}

fn refusal_message(
    alloc: Global,
    head: Head,
    code: u16,
    unsupported: &Unsupported<'_>,
) -> Result<Message, AllocError>
    requires { CanList (unsupported_of unsupported.now) }
    ensures { IfOk result (λ m. m ≡ refusal head code (unsupported_of unsupported.now)) }
{
    let mut message = bare_message(alloc, head, code)?;
    if code != CLIENT_ERROR_ATTRIBUTES_OR_VALUES_NOT_SUPPORTED {
        return Ok(message);
    }
    put_unsupported(&mut message, unsupported)?;
    Ok(message)
}

fn success_message(
    alloc: Global,
    head: Head,
    unsupported: &Unsupported<'_>,
) -> Result<Message, AllocError>
    requires { CanList (unsupported_of unsupported.now) }
    ensures { IfOk result (λ m. m ≡ with_groups (bare head (success (unsupported_of unsupported.now))) (unsupported_groups (unsupported_of unsupported.now))) }
{
    let code = if unsupported.is_listed() {
        SUCCESSFUL_OK_IGNORED_OR_SUBSTITUTED_ATTRIBUTES
    } else {
        SUCCESSFUL_OK
    };
    let mut message = bare_message(alloc, head, code)?;
    put_unsupported(&mut message, unsupported)?;
    Ok(message)
}

/// The reply to a request with this head as a message: its version and request-id, the status code, the
/// charset utf-8 and the language en, a group of what is unsupported, and a group for each job, or for
/// the printer, with the wanted attributes (RFC 8011, section 4.1). The reply is one that answers a request, and its jobs
/// are within their limits; what is unsupported fits in a message. The one error is want of memory.
pub fn reply_message(
    alloc: Global,
    reply: &Reply,
    head: Head,
    wanted: &Wanted,
    unsupported: &Unsupported<'_>,
    settings: &Settings,
    now: u32,
) -> Result<Message, AllocError>
    requires sound { IsSoundReply reply.now }
    requires listed { CanList (unsupported_of unsupported.now) }
    ensures { IfOk result (λ m. m ≡ reply_of reply.now head (rows_of wanted.now) (unsupported_of unsupported.now) settings.now now) }
{
    let uri = settings.uri();
    match reply {
        Reply::Refused(code) => refusal_message(alloc, head, *code, unsupported),
        Reply::Done => success_message(alloc, head, unsupported),
        Reply::Printer {
            state,
            queued,
            accepting,
        } => {
            let printer = PrinterView {
                settings,
                now,
                state: *state,
                queued: *queued,
                accepting: *accepting,
            };
            let mut message = success_message(alloc, head, unsupported)?;
            put_printer(alloc, &mut message, printer, wanted.printer_rows())?;
            Ok(message)
        }
        Reply::Jobs(jobs) => {
            let mut message = success_message(alloc, head, unsupported)?;
            let view = JobView {
                uri,
                now,
                rows: wanted.job_rows(),
            };
            put_jobs(alloc, &mut message, view, jobs.as_slice())?;
            Ok(message)
        }
        Reply::Told { .. }
        | Reply::NotTold(_)
        | Reply::Added { .. }
        | Reply::NotAdded { .. }
        | Reply::Expired(_) => { unreachable!("these answer reports, account files and sweeps") }
    }
}
