//! The attributes of a request that the printer doesn't take as they stand (RFC 8011, section 4.1.7).
ghost use Rattle.std.specs.Prelude.{◌≡◌, ◌++◌, IfOk, OnOk, bytes_eq, find, option_map};
ghost use Rattle.std.specs.List.{list_any};
ghost use Rattle.std.specs.Option.{option_to_list};
ghost use Rattle.ipp_wire.specs.Viewed.{attribute_of, attribute_with, attributes_of};
ghost use Rattle.ipp_request.specs.Attributes.{job_group_name, job_group_table, support_of};
ghost use Rattle.ipp_request.specs.Unsupported.{is_refused_for};
ghost use Rattle.ipp_request.specs.Request.{request_of};
ghost use Rattle.ipp_request.specs.Unsupported as spec;
ghost use Rattle.ipp_reply.specs.Unsupported.{unsupported_of};

use crate::attribute::{
    JOB_GROUP_TABLE, JobGroupAttribute, OPERATION_ATTRIBUTE_TABLE, OperationAttribute, Support,
    knows,
};
use crate::request::Request;
use crate::value::are_supported;
use ipp_reply::{Operation, Unsupported, is_filled};
use ipp_wire::tags::UNSUPPORTED;
use ipp_wire::{AttrView, ValueView};
use std::alloc::{AllocError, Global};
use std::collections::BTreeSet;

/// The group whose attributes are looked at.
#[derive(Clone, Copy, Debug)]
pub enum Source {
    /// The operation group of a request for this operation.
    OperationGroup(Operation),
    JobGroup,
}

/// The attribute of that name that the operation knows.
fn attribute_named(operation: Operation, name: &[u8]) -> Option<OperationAttribute>
    ensures { result ≡ spec.attribute_named operation name.now }
{
    OPERATION_ATTRIBUTE_TABLE.iter().copied().find(|k| k.row().name.as_bytes() == name
        && knows(operation, *k))
}

fn job_group_attribute(name: &[u8]) -> Option<JobGroupAttribute>
    ensures { result ≡ find (λ k. bytes_eq (job_group_name k) name.now) job_group_table }
{
    JOB_GROUP_TABLE
        .iter()
        .copied()
        .find(|k| k.name().as_bytes() == name)
}

impl Source {
    /// What is supported of an attribute of that name, where it is known.
    fn support_for(self, name: &[u8]) -> Option<Support>
        ensures { option_map support_of result ≡ spec.support_for self name.now }
    {
        match self {
            Source::OperationGroup(operation) => {
                let attribute = attribute_named(operation, name)?;
                Some(attribute.row().support)
            }
            Source::JobGroup => {
                let attribute = job_group_attribute(name)?;
                Some(attribute.support())
            }
        }
    }
}

fn with_values<'a>(
    alloc: Global,
    name: &'a [u8],
    values: &[ValueView<'a>],
) -> Result<AttrView<'a>, AllocError>
    ensures { IfOk result (λ a. attribute_of a ≡ attribute_with name.entry.now values.now) }
{
    let values = Vec::from_slice(alloc, values)?;
    Ok(AttrView { name, values })
}

/// The attribute as it is listed, where it is.
fn listed<'a>(
    alloc: Global,
    source: Source,
    attribute: &AttrView<'a>,
) -> Result<Option<AttrView<'a>>, AllocError>
    ensures { IfOk result (λ l. option_map attribute_of l ≡ spec.listed source (attribute_of attribute.now)) }
{
    match source.support_for(attribute.name) {
        None => {
            let unsupported = ValueView {
                tag: UNSUPPORTED,
                bytes: b"",
            };
            Ok(Some(with_values(alloc, attribute.name, &[unsupported])?))
        }
        Some(support) if are_supported(support, attribute.values.as_slice()) => Ok(None),
        Some(_) => Ok(Some(with_values(alloc, attribute.name, attribute.values.as_slice())?)),
    }
}

fn push_listed<'a>(
    alloc: Global,
    out: &mut Vec<AttrView<'a>>,
    source: Source,
    attribute: &AttrView<'a>,
) -> Result<(), AllocError>
    ensures { OnOk result (attributes_of out.new.items ≡ attributes_of out.old.items ++ option_to_list (spec.listed source (attribute_of attribute.now))) }
{
    if let Some(l) = listed(alloc, source, attribute)? {
        out.push(l)?;
    }
    Ok(())
}

/// What of these attributes is listed. A set of the names that were seen tells which are the first.
fn listed_in<'a>(
    alloc: Global,
    source: Source,
    attrs: &[AttrView<'a>],
) -> Result<Vec<AttrView<'a>>, AllocError>
    ensures { IfOk result (λ v. attributes_of v.items ≡ spec.listed_in source (attributes_of attrs.now)) }
{
    let mut out = Vec::new(alloc);
    let mut seen = BTreeSet::new(alloc);
    for attribute in attrs {
        if !seen.insert(attribute.name)? {
            continue;
        }
        push_listed(alloc, &mut out, source, attribute)?;
    }
    Ok(out)
}

/// What is unsupported in a request.
pub fn unsupported_in<'a>(
    alloc: Global,
    request: Request<'_, 'a>,
) -> Result<Unsupported<'a>, AllocError>
    ensures { IfOk result (λ u. unsupported_of u ≡ spec.unsupported (request_of request.entry)) }
{
    let operation = listed_in(
        alloc,
        Source::OperationGroup(request.operation),
        request.attributes,
    )?;
    let job = if request.makes_job() {
        listed_in(alloc, Source::JobGroup, request.job_attributes)?
    } else {
        Vec::new(alloc)
    };
    Ok(Unsupported { operation, job })
}

fn lists_known(operation: Operation, attrs: &[AttrView<'_>]) -> bool
    ensures { result ≡ list_any (λ a. spec.is_known operation a.name) (attributes_of attrs.now) }
{
    attrs
        .iter()
        .any(|a| attribute_named(operation, a.name).is_some())
}

/// The request is refused for what of it is unsupported: an attribute that the operation knows, or one of
/// the job group that may not be ignored.
pub fn is_refused_for(request: Request<'_, '_>, unsupported: &Unsupported<'_>) -> bool
    ensures { result ≡ is_refused_for (request_of request.entry) (unsupported_of unsupported.now) }
{
    lists_known(request.operation, unsupported.operation.as_slice())
        || (request.is_true(OperationAttribute::IppAttributeFidelity)
            && is_filled(unsupported.job.as_slice()))
}
