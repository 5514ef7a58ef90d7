//! The owned message: how it is built, and its bytes.

ghost use Rattle.std.specs.Prelude.{◌≡◌, ◌+◌, ◌<◌, ◌++◌, ◌∷◌, [], OnOk, OnErr, IfOk, ◌^◌, List, length, map};
ghost use Rattle.ipp_wire.specs.Message.{Group, IsDelimiter, IsAttribute, IsGroup, IsValue, Spells, attribute_bytes, group_bytes, head_bytes, record_bytes, text_bytes};
ghost use Rattle.std.specs.List.{AllByRecursion, flat_map};
ghost use Rattle.ipp_wire.specs.Viewed.{values_of, attribute_with};
ghost use Rattle.ipp_wire.specs.Owned.{add_attribute, owned_attribute, owned_group, owned_value};

use crate::Memory;
use crate::tags::END_OF_ATTRIBUTES;
use crate::view::{Head, ValueView};
use byteorder::{BigEndian, ByteOrder};
use std::alloc::Global;
use std::marker::Model;

#[derive(Drop)]
struct OwnedValue {
    tag: u8,
    bytes: Vec<u8>,
}

#[derive(Drop)]
struct OwnedAttribute {
    name: Vec<u8>,
    values: Vec<OwnedValue>,
}

#[derive(Drop)]
struct OwnedGroup {
    tag: u8,
    attributes: Vec<OwnedAttribute>,
}

/// A message without payload, whose head, groups and attributes keep the rules of RFC 8010,
/// section 3.1: it always has a spelling.
#[derive(Drop)]
pub struct Message {
    alloc: Global,
    head: Head,
    groups: Vec<OwnedGroup>,
}

impl Model for Message {
    ghost use Rattle.ipp_wire.specs.Message.{Message as Whole, IsMessage};

    ghost Value = { Whole };

    ghost use Rattle.ipp_wire.specs.Owned.{message_of_fields};

    ghost view = { λ m. message_of_fields m };

    ghost invariant = { λ m. IsMessage (message_of_fields m) };
}

impl Message {
    /// The message of a head, without groups. It takes no memory.
    pub fn new(alloc: Global, head: Head) -> Message
        ensures { result ≡ record { head = head; groups = []; payload = [] } }
    {
        Message {
            alloc,
            head,
            groups: Vec::new(alloc),
        }
    }

    /// Begins a group at the end, by its delimiter tag: 0x01, 0x02 or 0x04 to 0x0f (RFC 8010,
    /// section 3.5.1). Want of memory leaves the message as it was.
    pub fn group(&mut self, tag: u8) -> Result<(), Memory>
        requires { IsDelimiter tag }
        ensures ok { OnOk result (self.new
            ≡ record self.old { groups = self.old.groups ++ record { tag = tag; attributes = [] } ∷ [] }) }
        ensures one_more { OnOk result (length self.new.groups ≡ length self.old.groups + 1) }
        ensures memory { OnErr result (self.new ≡ self.old) }
    {
        let attributes = Vec::new(self.alloc);
        self.groups.push(OwnedGroup { tag, attributes })?;
        Ok(())
    }

    /// Adds an attribute at the end of the last group: its name, of 1 to 32,767 bytes, and its
    /// values, at least one, with the records of collections in a row (RFC 8010, sections 3.1.4 to
    /// 3.1.6). An attribute of a [`crate::View`] may be added, and by [`crate::plain_attribute`] each
    /// without collections. Want of memory leaves the message as it was.
    pub fn attribute(&mut self, name: &[u8], values: &[ValueView<'_>]) -> Result<(), Memory>
        requires begun { 0 < length self.old.groups }
        requires fits { IsAttribute (attribute_with name.now values.now) }
        ensures ok { OnOk result (self.new
            ≡ record self.old { groups = add_attribute (attribute_with name.now values.now) self.old.groups }) }

        // What `ok` says of the last group and of those before it.
        ensures in_the_last { OnOk result ((gs : List Group) (g : Group)
            → self.old.groups ≡ gs ++ g ∷ []
            → self.new.groups
            ≡ gs ++ record g { attributes = g.attributes ++ attribute_with name.now values.now ∷ [] } ∷ []) }
        ensures memory { OnErr result (self.new ≡ self.old) }
        ensures still_begun { length self.new.groups ≡ length self.old.groups }
    {
        let name = Vec::from_slice(self.alloc, name)?;
        let values = owned_values(self.alloc, values)?;
        add_to_last(&mut self.groups, OwnedAttribute { name, values })?;
        Ok(())
    }
}

/// The bytes that spell the message (RFC 8010, section 3.1.1), which has no payload. The one refusal
/// is want of memory.
pub fn write(message: &Message) -> Result<Vec<u8>, Memory>
    ensures spelled { IfOk result (λ b. Spells message.now b.items) }
    ensures no_payload { message.now.payload ≡ [] }
{
    let mut out = Vec::new(message.alloc);
    put_head(&mut out, message.head)?;
    put_groups(&mut out, &message.groups)?;
    out.push(END_OF_ATTRIBUTES)?;
    Ok(out)
}

fn owned_values(alloc: Global, values: &[ValueView<'_>]) -> Result<Vec<OwnedValue>, Memory>
    ensures { IfOk result (λ v. map owned_value v.items ≡ values_of values.now) }
{
    let mut owned = Vec::with_capacity(alloc, values.len())?;
    for value in values {
        let bytes = Vec::from_slice(alloc, value.bytes)?;
        owned.push(OwnedValue {
            tag: value.tag,
            bytes,
        })?;
    }
    Ok(owned)
}

fn add_to_last(groups: &mut Vec<OwnedGroup>, attribute: OwnedAttribute) -> Result<(), Memory>
    requires { 0 < length groups.old.items }
    ensures ok { OnOk result (map owned_group groups.new.items
        ≡ add_attribute (owned_attribute attribute) (map owned_group groups.old.items)) }
    ensures memory { OnErr result (map owned_group groups.new.items
        ≡ map owned_group groups.old.items) }
{
    let last = groups.len() - 1;
    groups[last].attributes.push(attribute)?;
    Ok(())
}

fn put_head(out: &mut Vec<u8>, head: Head) -> Result<(), Memory>
    ensures { OnOk result (out.new.items ≡ out.old.items ++ head_bytes head) }
{
    out.extend_from_slice(&head_array(head))?;
    Ok(())
}

/// The eight bytes of a head.
pub(crate) fn head_array(head: Head) -> [u8; 8]
    ensures { result ≡ head_bytes head }
{
    let mut bytes = [head.major, head.minor, 0, 0, 0, 0, 0, 0];
    BigEndian::write_u16(&mut bytes[2..], head.code);
    BigEndian::write_u32(&mut bytes[4..], head.request_id);
    bytes
}

#[tactic(auto, using(crate::proofs::Lists::at_index, crate::proofs::Lists::one_more))]
fn put_groups(out: &mut Vec<u8>, groups: &[OwnedGroup]) -> Result<(), Memory>
    requires { AllByRecursion IsGroup (map owned_group groups.now) }
    ensures { OnOk result (out.new.items
        ≡ out.old.items ++ flat_map group_bytes (map owned_group groups.now)) }
{
    for group in groups {
        out.push(group.tag)?;
        put_attributes(out, &group.attributes)?;
    }
    Ok(())
}

#[tactic(auto, using(crate::proofs::Lists::at_index, crate::proofs::Lists::one_more))]
fn put_attributes(out: &mut Vec<u8>, attributes: &[OwnedAttribute]) -> Result<(), Memory>
    requires { AllByRecursion IsAttribute (map owned_attribute attributes.now) }
    ensures { OnOk result (out.new.items
        ≡ out.old.items ++ flat_map attribute_bytes (map owned_attribute attributes.now)) }
{
    for attribute in attributes {
        put_attribute(out, attribute)?;
    }
    Ok(())
}

fn put_attribute(out: &mut Vec<u8>, attribute: &OwnedAttribute) -> Result<(), Memory>
    requires { IsAttribute (owned_attribute attribute.now) }
    ensures { OnOk result (out.new.items
        ≡ out.old.items ++ attribute_bytes (owned_attribute attribute.now)) }
{
    let [first, further @ ..] = attribute.values.as_slice() else {
        return Ok(());
    };
    put_record(out, &attribute.name, first)?;
    put_further(out, further)
}

#[tactic(auto, using(crate::proofs::Lists::at_index, crate::proofs::Lists::one_more))]
fn put_further(out: &mut Vec<u8>, values: &[OwnedValue]) -> Result<(), Memory>
    requires { AllByRecursion IsValue (map owned_value values.now) }
    ensures { OnOk result (out.new.items
        ≡ out.old.items ++ flat_map (record_bytes []) (map owned_value values.now)) }
{
    for value in values {
        put_record(out, &[], value)?;
    }
    Ok(())
}

fn put_record(out: &mut Vec<u8>, name: &[u8], value: &OwnedValue) -> Result<(), Memory>
    requires short { length name.now < 2 ^ 15 }
    requires value { IsValue (owned_value value.now) }
    ensures { OnOk result (out.new.items
        ≡ out.old.items ++ record_bytes name.now (owned_value value.now)) }
{
    out.push(value.tag)?;
    put_text(out, name)?;
    put_text(out, &value.bytes)?;
    Ok(())
}

fn put_text(out: &mut Vec<u8>, bytes: &[u8]) -> Result<(), Memory>
    requires { length bytes.now < 2 ^ 15 }
    ensures { OnOk result (out.new.items ≡ out.old.items ++ text_bytes bytes.now) }
{
    let mut length = [0; 2];
    BigEndian::write_u16(&mut length, bytes.len() as u16);
    out.extend_from_slice(&length)?;
    out.extend_from_slice(bytes)?;
    Ok(())
}
