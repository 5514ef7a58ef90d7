//! From bytes to views of them. Each reader of a part takes the bytes from where the part begins to the
//! end of the input, and gives the part with the bytes after it. A reader that can't go on hands up
//! how many bytes are left, and [`read`] makes the offset of that.

ghost use Rattle.std.specs.Prelude.{◌≡◌, ◌≢◌, ◌<◌, ◌≤◌, ◌^◌, ◌+◌, ◌++◌, ◌↔◌, List, ℕ, [], ◌∷◌, length, drop, IfSome, IfNone, IfOk, IfErr, IsSome, OnSome, MatchOption};
ghost use Rattle.std.specs.List.{flat_map, AllByRecursion};
ghost use Rattle.ipp_wire.specs.Message.{IsHead, IsGroup, Spells, head_of, head_bytes, group_bytes, text_bytes};
ghost use Rattle.ipp_wire.specs.Viewed.{value_of, attribute_of, attributes_of, groups_of, message_of};
ghost use Rattle.ipp_wire.specs.Reading.{IsNestedAt, depth_past, NoRecord, ReadRecord, NoFurther, NoNamed, inside, grouped, place_in, ReadAttribute, ReadAttributes, AttributeStuck, AttributesStuck, GroupsStuck, OnStuck};
ghost use Rattle.ipp_wire.specs.declared.view.WireFault.TheVariants.{Short};
ghost use Rattle.ipp_wire.specs.Fault.{IsFaultOf};
ghost use Rattle.ipp_wire.specs.Places.{byte_add, end_of, AttributeStands, AttributesStand, GroupsStand, ViewStands};

use crate::fault::ReadFault;
use crate::tags::{BEGIN_COLLECTION, END_COLLECTION, END_OF_ATTRIBUTES, FIRST_VALUE_TAG};
use crate::view::{AttrView, GroupView, Head, ValueView, View, WireFault};
use std::alloc::Global;

/// How many collections may be open at once.
const MOST_DEPTH: u8 = 8;

/// The most bytes of a name or a value.
const MOST_TEXT_OCTETS: usize = 0x7fff;

/// What of the input is not read yet. A loop that holds it in a struct can say where it stands.
#[derive(Clone, Copy)]
struct Rest<'a> {
    bytes: &'a [u8],
}

/// A value with its name, which is empty for a further value, and the bytes after it (RFC 8010,
/// sections 3.1.4 and 3.1.5).
#[derive(Clone, Copy)]
struct Record<'a> {
    name: &'a [u8],
    value: ValueView<'a>,
    rest: &'a [u8],
}

/// The head at the front of a message (RFC 8010, section 3.4), and none under 8 bytes. It takes no
/// memory.
pub fn head(bytes: &[u8]) -> Option<Head>
    ensures fields { IfSome result (λ h. h ≡ head_of bytes.now) }
    ensures spelled { IfSome result (λ h. bytes.now ≡ head_bytes h ++ drop 8 bytes.now) }
    ensures fits { IfSome result IsHead }
    ensures long_enough { IsSome result ↔ (8 ≤ length bytes.now) }
{
    let [major, minor, c0, c1, r0, r1, r2, r3, ..] = bytes else {
        return None;
    };
    Some(Head {
        major: *major,
        minor: *minor,
        code: u16::from_be_bytes([*c0, *c1]),
        request_id: u32::from_be_bytes([*r0, *r1, *r2, *r3]),
    })
}

/// Two bytes of length, and that many bytes: these, and the bytes after them.
fn text_at(bytes: &[u8]) -> Option<(&[u8], &[u8])>
    ensures some { IfSome result (λ x. bytes.now ≡ text_bytes x.0.now ++ x.1.now) }
    ensures short { IfSome result (λ x. length x.0.now < 2 ^ 15) }
    ensures none { IfNone result ((t rest : List ℕ) → length t < 2 ^ 15
        → bytes.now ≢ text_bytes t ++ rest) }
    ensures shorter { IfSome result (λ x. length x.1.now < length bytes.now) }
    ensures place { IfSome result (λ x. x.0.ref_ptr ≡ byte_add bytes.entry.ref_ptr 2) }
    ensures end { IfSome result (λ x. end_of x.1 ≡ end_of bytes.entry) }
{
    let [high, low, rest @ ..] = bytes else {
        return None;
    };
    let len = u16::from_be_bytes([*high, *low]) as usize;
    if MOST_TEXT_OCTETS < len || rest.len() < len {
        return None;
    }
    Some((&rest[..len], &rest[len..]))
}

/// The record at the front.
fn record_at(bytes: &[u8]) -> Option<Record<'_>>
    ensures some { IfSome result (λ r.
        ReadRecord bytes.now r.name.now (value_of r.value) r.rest.now) }
    ensures none { IfNone result (NoRecord bytes.now) }
    ensures shorter { IfSome result (λ r. length r.rest.now < length bytes.now) }
    ensures name_place { IfSome result (λ r. r.name.ref_ptr ≡ byte_add bytes.entry.ref_ptr 3) }
    ensures value_place { IfSome result (λ r.
        r.value.bytes.ref_ptr ≡ byte_add bytes.entry.ref_ptr (5 + length r.name.now)) }
    ensures end { IfSome result (λ r. end_of r.rest ≡ end_of bytes.entry) }
{
    let [tag, after @ ..] = bytes else {
        return None;
    };
    let tag = *tag;
    if tag < FIRST_VALUE_TAG {
        return None;
    }
    let (name, after) = text_at(after)?;
    let (value, rest) = text_at(after)?;
    let value = ValueView { tag, bytes: value };
    Some(Record { name, value, rest })
}

/// How many collections are open after the value, where it may stand.
fn depth_after(depth: u8, value: ValueView<'_>) -> Option<u8>
    requires { depth ≤ 8 }
    ensures some { IfSome result (λ d. d ≡ depth_past depth (value_of value.entry)) }
    ensures nested { OnSome result (IsNestedAt depth (value_of value.entry)) }
    ensures deepest { IfSome result (λ d. d ≤ 8) }
    ensures none { IfNone result (IsNestedAt depth (value_of value.entry) → ⊥) }
{
    match value.tag {
        BEGIN_COLLECTION => (depth < MOST_DEPTH).then_some(depth + 1),
        END_COLLECTION => depth.checked_sub(1),
        _ => Some(depth),
    }
}

/// The further value at the front, and how many collections are open after it.
fn further_at(bytes: &[u8], depth: u8) -> Option<(Record<'_>, u8)>
    requires { depth ≤ 8 }
    ensures some { IfSome result (λ x. ReadRecord bytes.now [] (value_of x.0.value) x.0.rest.now) }
    ensures nested { IfSome result (λ x. IsNestedAt depth (value_of x.0.value)) }
    ensures depth { IfSome result (λ x. x.1 ≡ depth_past depth (value_of x.0.value)) }
    ensures deepest { IfSome result (λ x. x.1 ≤ 8) }
    ensures none { IfNone result (NoFurther (inside depth) bytes.now) }
    ensures shorter { IfSome result (λ x. length x.0.rest.now < length bytes.now) }
    ensures value_place { IfSome result (λ x.
        x.0.value.bytes.ref_ptr ≡ byte_add bytes.entry.ref_ptr 5) }
    ensures end { IfSome result (λ x. end_of x.0.rest ≡ end_of bytes.entry) }
{
    let record = record_at(bytes)?;
    if !record.name.is_empty() {
        return None;
    }
    let depth = depth_after(depth, record.value)?;
    Some((record, depth))
}

/// The value under a name at the front, and how many collections are open after it.
fn named_at(bytes: &[u8]) -> Option<(Record<'_>, u8)>
    ensures some { IfSome result (λ x.
        ReadRecord bytes.now x.0.name.now (value_of x.0.value) x.0.rest.now) }
    ensures named { IfSome result (λ x. 0 < length x.0.name.now) }
    ensures nested { IfSome result (λ x. IsNestedAt 0 (value_of x.0.value)) }
    ensures depth { IfSome result (λ x. x.1 ≡ depth_past 0 (value_of x.0.value)) }
    ensures deepest { IfSome result (λ x. x.1 ≤ 8) }
    ensures none { IfNone result (NoNamed grouped bytes.now) }
    ensures shorter { IfSome result (λ x. length x.0.rest.now < length bytes.now) }
    ensures name_place { IfSome result (λ x. x.0.name.ref_ptr ≡ byte_add bytes.entry.ref_ptr 3) }
    ensures value_place { IfSome result (λ x.
        x.0.value.bytes.ref_ptr ≡ byte_add bytes.entry.ref_ptr (5 + length x.0.name.now)) }
    ensures end { IfSome result (λ x. end_of x.0.rest ≡ end_of bytes.entry) }
{
    let record = record_at(bytes)?;
    if record.name.is_empty() {
        return None;
    }
    let depth = depth_after(0, record.value)?;
    Some((record, depth))
}

/// The attribute at the front, where a named record stands there, with all the further values that
/// may follow it.
fn attribute_at<'a>(
    alloc: Global,
    bytes: &'a [u8],
) -> Result<Option<(AttrView<'a>, &'a [u8])>, ReadFault>
    ensures ok { IfOk result (λ o. MatchOption o (NoNamed grouped bytes.now)
        (λ x. ReadAttribute bytes.now (attribute_of x.0) x.1.now)) }
    ensures shorter { IfOk result (λ o. IfSome o (λ x. length x.1.now < length bytes.now)) }
    ensures stuck { IfErr result (λ e. OnStuck e (AttributeStuck bytes.now)) }
    ensures places { IfOk result (λ o. IfSome o (λ x. AttributeStands bytes.entry.ref_ptr x.0)) }
    ensures end { IfOk result (λ o. IfSome o (λ x. end_of x.1 ≡ end_of bytes.entry)) }
{
    let Some((first, mut depth)) = named_at(bytes) else {
        return Ok(None);
    };
    let name = first.name;
    // Nearly every attribute has one value.
    let mut values = Vec::with_capacity(alloc, 1)?;
    values.push_reserved(first.value);
    let mut rest = Rest { bytes: first.rest };
    'values: while let Some((further, deeper)) = further_at(rest.bytes, depth) {
        values.push(further.value)?;
        depth = deeper;
        rest = Rest {
            bytes: further.rest,
        };
    }
    if 0 < depth {
        return Err(ReadFault::Stuck(rest.bytes.len()));
    }
    Ok(Some((AttrView { name, values }, rest.bytes)))
}

/// The attributes at the front, as many as can be read.
#[tactic(auto, using(crate::proofs::Pieces::attributes_fault))]
fn attributes_at<'a>(
    alloc: Global,
    bytes: &'a [u8],
) -> Result<(Vec<AttrView<'a>>, &'a [u8]), ReadFault>
    ensures ok { IfOk result (λ x. ReadAttributes bytes.now (attributes_of x.0.items) x.1.now) }
    ensures no_more { IfOk result (λ x.
        NoNamed (place_in grouped (attributes_of x.0.items)) x.1.now) }
    ensures no_longer { IfOk result (λ x. length x.1.now ≤ length bytes.now) }
    ensures stuck { IfErr result (λ e. OnStuck e (AttributesStuck bytes.now)) }
    ensures places { IfOk result (λ x. AttributesStand bytes.entry.ref_ptr x.0.items) }
    ensures end { IfOk result (λ x. end_of x.1 ≡ end_of bytes.entry) }
{
    let mut attrs = Vec::new(alloc);
    let mut rest = Rest { bytes };
    'attributes: while let Some((attr, after)) = attribute_at(alloc, rest.bytes)? {
        attrs.push(attr)?;
        rest = Rest { bytes: after };
    }
    Ok((attrs, rest.bytes))
}

/// The groups at the front, up to the byte that ends them, and the payload behind it.
fn groups_at<'a>(
    alloc: Global,
    bytes: &'a [u8],
) -> Result<(Vec<GroupView<'a>>, &'a [u8]), ReadFault>
    ensures fits { IfOk result (λ x. AllByRecursion IsGroup (groups_of x.0.items)) }
    ensures parts { IfOk result (λ x.
        bytes.now ≡ flat_map group_bytes (groups_of x.0.items) ++ 3 ∷ x.1.now) }
    ensures left { IfErr result (λ e. OnStuck e (λ left. left ≤ length bytes.now)) }
    ensures stuck { IfErr result (λ e. OnStuck e (GroupsStuck bytes.now)) }
    ensures places { IfOk result (λ x. GroupsStand bytes.entry.ref_ptr x.0.items) }
    ensures end { IfOk result (λ x. end_of x.1 ≡ end_of bytes.entry) }
{
    let mut groups = Vec::new(alloc);
    let mut rest = Rest { bytes };
    'groups: loop {
        let [tag, after @ ..] = rest.bytes else {
            return Err(ReadFault::Stuck(0));
        };
        let tag = *tag;
        if tag == END_OF_ATTRIBUTES {
            return Ok((groups, after));
        }
        if tag == 0 || FIRST_VALUE_TAG <= tag {
            return Err(ReadFault::Stuck(rest.bytes.len()));
        }
        let (attrs, after) = attributes_at(alloc, after)?;
        groups.push(GroupView { tag, attrs })?;
        rest = Rest { bytes: after };
    }
}

/// The message that the bytes spell (RFC 8010, section 3.1). Each name, value and payload is the slice
/// of the input in which the spelling has it, and nothing is copied. No value's size is checked
/// against its tag. The refusals are [`WireFault`]'s.
pub fn read<'a>(alloc: Global, bytes: &'a [u8]) -> Result<View<'a>, WireFault>
    ensures found { IfOk result (λ v. Spells (message_of v) bytes.now) }
    ensures head { IfOk result (λ v. v.head ≡ head_of bytes.now) }
    ensures places { IfOk result (λ v. ViewStands bytes.entry.ref_ptr v) }
    ensures fault { IfErr result (IsFaultOf bytes.now) }
    ensures short { length bytes.now < 8 → result ≡ Err Short }
{
    let Some(head) = head(bytes) else {
        return Err(WireFault::Short);
    };
    match groups_at(alloc, &bytes[8..]) {
        Ok((groups, payload)) => Ok(View {
            head,
            groups,
            payload,
        }),
        Err(ReadFault::Memory) => Err(WireFault::Memory),
        Err(ReadFault::Stuck(left)) => Err(WireFault::Malformed {
            at: bytes.len() - left,
        }),
    }
}
