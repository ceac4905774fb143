//! Writes templates.

ghost use Rattle.std.specs.Prelude.{◌≡◌, ◌+◌, ◌≤◌, [], ◌∷◌, ◌++◌, length};
ghost use Rattle.fcp_template.specs.TagParts.{tag_byte};
ghost use Rattle.card_model.specs.TemplateGrammar.{object_text, objects_text};
ghost use Rattle.card_model.specs.FileControl.{IsKind, IsShort};
ghost use Rattle.card_model.specs.Templates.{IsInFull, data_object, in_two_bytes, short_value, descriptor_value};
ghost use Rattle.card_model.specs.Templates.{kind_objects, fcp_objects, fcp_text};

use crate::descriptor::{
    DATA_CODING, SHAREABLE_CYCLIC, SHAREABLE_DF, SHAREABLE_LINEAR, SHAREABLE_TRANSPARENT,
};
use crate::object::BODY_LIMIT;
use crate::tag::{TEMPLATE, Tag};
use arrayvec::ArrayVec;
use card_model::limits::MOST_ANSWER_DATA;
use card_model::{Fcp, FileKind, Records, ShortIdentifier};

/// The bytes of a template's objects.
type Body = ArrayVec<u8, BODY_LIMIT>;

/// Writes file control parameters, as in an answer, into an empty buffer.
pub fn write(fcp: &Fcp<'_>, out: &mut ArrayVec<u8, MOST_ANSWER_DATA>)
    requires empty { out.old.items ≡ [] }
    requires full { IsInFull fcp.now }
    ensures { out.new.items ≡ fcp_text fcp.now }
{
    let mut body = Body::new();
    put_objects(fcp, &mut body);
    out.push(TEMPLATE);
    out.push(body.len() as u8);
    out.try_extend_from_slice(&body).unwrap();
}

/// Writes the objects into an empty buffer.
fn put_objects(fcp: &Fcp<'_>, body: &mut Body)
    requires empty { body.old.items ≡ [] }
    requires full { IsInFull fcp.now }
    ensures { body.new.items ≡ objects_text (fcp_objects fcp.now) }
{
    put_descriptor(&fcp.kind, body);
    put(body, Tag::FileIdentifier, &in_two_bytes(fcp.identifier));
    put_kind(&fcp.kind, body);
    put(body, Tag::LifeCycleStatus, &[fcp.life_cycle.to_byte()]);
    put(body, Tag::CompactRule, fcp.rule.as_bytes());
}

/// Appends object 82.
fn put_descriptor(kind: &FileKind<'_>, body: &mut Body)
    requires room { length body.old.items + 7 ≤ 127 }
    ensures written { body.new.items ≡ body.old.items ++ object_text (data_object 0x82 (descriptor_value kind.now)) }
    ensures room { length body.new.items ≤ length body.old.items + 7 }
{
    match kind {
        FileKind::Df { .. } => put(body, Tag::FileDescriptor, &[SHAREABLE_DF, DATA_CODING]),
        FileKind::Transparent { .. } => put(
            body,
            Tag::FileDescriptor,
            &[SHAREABLE_TRANSPARENT, DATA_CODING],
        ),
        FileKind::Linear { records, .. } => put_record_descriptor(SHAREABLE_LINEAR, records, body),
        FileKind::Cyclic { records, .. } => put_record_descriptor(SHAREABLE_CYCLIC, records, body),
    }
}

/// Appends object 82 of a record file.
fn put_record_descriptor(byte: u8, records: &Records, body: &mut Body)
    requires room { length body.old.items + 7 ≤ 127 }
    ensures { body.new.items ≡ body.old.items ++ object_text
        (data_object 0x82 (byte ∷ 0x21 ∷ in_two_bytes records.now.record_length ++ records.now.existing ∷ [])) }
{
    let [high, low] = in_two_bytes(u16::from(records.record_length));
    put(
        body,
        Tag::FileDescriptor,
        &[byte, DATA_CODING, high, low, records.existing],
    );
}

/// Appends objects 84, 88 and 80, as the kind has them.
fn put_kind(kind: &FileKind<'_>, body: &mut Body)
    requires room { length body.old.items + 18 ≤ 127 }
    requires ranges { IsKind kind.now }
    ensures written { body.new.items ≡ body.old.items ++ objects_text (kind_objects kind.now) }
    ensures room { length body.new.items ≤ length body.old.items + 18 }
{
    match kind {
        FileKind::Df { name: None } => {}
        FileKind::Df { name: Some(name) } => put(body, Tag::Name, name.as_bytes()),
        FileKind::Transparent { short, size } => put_short_and_size(*short, *size, body),
        FileKind::Linear { short, records } | FileKind::Cyclic { short, records } => {
            put_short_and_size(*short, records.size, body);
        }
    }
}

/// Appends objects 88 and 80 of an elementary file.
fn put_short_and_size(short: ShortIdentifier, size: u16, body: &mut Body)
    requires room { length body.old.items + 7 ≤ 127 }
    requires ranges { IsShort short }
    ensures { body.new.items ≡ body.old.items ++ objects_text
        (data_object 0x88 (short_value short) ∷ data_object 0x80 (in_two_bytes size) ∷ []) }
{
    match short {
        ShortIdentifier::Given(number) => put(body, Tag::ShortFileIdentifier, &[number * 8]),
        ShortIdentifier::Absent | ShortIdentifier::Empty => put(
            body,
            Tag::ShortFileIdentifier,
            &[],
        ),
    }
    put(body, Tag::DataBytes, &in_two_bytes(size));
}

/// Appends a data object.
fn put(body: &mut Body, tag: Tag, value: &[u8])
    requires { length body.old.items + 2 + length value.now ≤ 127 }
    ensures written { body.new.items ≡ body.old.items ++ object_text (data_object (tag_byte tag) value.now) }
    ensures room { length body.new.items ≡ length body.old.items + 2 + length value.now }
{
    body.push(tag.byte());
    body.push(value.len() as u8);
    body.try_extend_from_slice(value).unwrap();
}

/// Returns a number in two bytes, big-endian.
fn in_two_bytes(number: u16) -> [u8; 2]
    ensures { result ≡ in_two_bytes number }
{
    number.to_be_bytes()
}
