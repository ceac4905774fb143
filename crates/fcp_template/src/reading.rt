//! Reads templates.

ghost use Rattle.std.specs.Prelude.{◌≡◌, ◌≢◌, ◌%◌, ◌==◌, ◌&&◌, ◌||◌, Result, IfOk, IfSome, is_some};
ghost use Rattle.std.specs.Prelude.{nat_le, not};
ghost use Rattle.std.specs.Option.{option_copied};
ghost use Rattle.card_model.specs.declared.fault.FcpFault.{FcpFault};
ghost use Rattle.card_model.specs.declared.fcp.Fcp.{Fcp};
ghost use Rattle.fcp_template.specs.ObjectParts.{BodyReads};
ghost use Rattle.fcp_template.specs.TagParts.{tag_byte};
ghost use Rattle.card_model.specs.TemplateGrammar.{is_tag, identifier_of, name_read, short_read, number_read, size_of};
ghost use Rattle.card_model.specs.TemplateGrammar.{records_read, life_cycle_of, rule_read, descriptor_of, has};
ghost use Rattle.card_model.specs.TemplateGrammar.{value_at};
ghost use Rattle.card_model.specs.TemplateGrammar.{data_bytes, is_df_descriptor, tells_of_df};
ghost use Rattle.card_model.specs.TemplateGrammar.{is_missing, is_twice, has_unknown, df_of, transparent_of};
ghost use Rattle.card_model.specs.TemplateGrammar.{◌>>=◌ as and_then, record_file_of, kind_read, fcp_of, meaning};
ghost use Rattle.card_model.specs.TemplateGrammar.{FcpReads, fcp_read};
ghost use Rattle.card_model.specs.FileControl.{IsShort, IsSize, IsDfName, IsRecords, IsKind, IsCreatable};
ghost use Rattle.card_model.specs.declared.life_cycle.LifeCycle.TheVariants.{Terminated};

use crate::descriptor::{DF, SHAREABLE_DF, descriptor_of};
use crate::object::{Object, Objects, body_of};
use crate::tag::{Tag, is_tag};
use card_model::identifiers::{CURRENT_FILE, MASTER_FILE, RESERVED};
use card_model::limits::{MOST_BYTES, MOST_RECORD_BYTES, MOST_RECORDS, MOST_SHORT};
use card_model::{
    Compact, Descriptor, DfName, Fcp, FcpFault, FileKind, LifeCycle, Records, ShortIdentifier,
    Structure,
};

/// Returns the file control parameters of a text.
/// Its objects may have any order.
///
/// # Errors
///
/// The first of these faults. `Shape`: it is no template. `Missing`: a mandatory object is absent.
/// `Twice`: a tag of the table occurs twice. `Value`: a tag, a length or a value isn't in the table.
pub fn parse(text: &[u8]) -> Result<Fcp<'_>, FcpFault>
    ensures reads { FcpReads text.now result }

    // The parameters are in their ranges.
    ensures ranges { IfOk result IsCreatable }

    // The text reads as nothing else.
    ensures only { (other : Result Fcp FcpFault) → FcpReads text.now other → other ≡ result }

    // The same, as a function of the definitions.
    ensures value { result ≡ fcp_read text.now }
{
    match body_of(text) {
        Some(body) => parse_body(body),
        None => Err(FcpFault::Shape),
    }
}

/// Returns what the objects in bytes read as.
fn parse_body(body: &[u8]) -> Result<Fcp<'_>, FcpFault>
    ensures reads { BodyReads body.now result }
    ensures ranges { IfOk result IsCreatable }
{
    match Objects::parse(body) {
        Some(objects) => meaning(&objects),
        None => Err(FcpFault::Shape),
    }
}

/// Returns what a template of these objects reads as.
fn meaning<'a>(objects: &Objects<'a>) -> Result<Fcp<'a>, FcpFault>
    ensures value { result ≡ meaning objects.now }
    ensures ranges { IfOk result IsCreatable }
{
    if is_missing(objects) {
        return Err(FcpFault::Missing);
    }
    if is_twice(objects) {
        return Err(FcpFault::Twice);
    }
    fcp_of(objects).ok_or(FcpFault::Value)
}

/// Returns true if an object has this tag.
fn has(objects: &Objects<'_>, tag: Tag) -> bool
    ensures { result ≡ has objects.now (tag_byte tag) }
{
    has_byte(objects, tag.byte())
}

/// Returns true if an object has this byte as its tag.
fn has_byte(objects: &Objects<'_>, tag: u8) -> bool
    ensures { result ≡ has objects.now tag }
{
    objects.iter().any(|object| object.tag() == tag)
}

/// Returns the value of the first object that has this tag.
fn value_at<'a>(objects: &Objects<'a>, tag: Tag) -> Option<&'a [u8]>
    ensures { option_copied result ≡ value_at objects.now (tag_byte tag) }
{
    match objects.iter().find(|object| object.tag() == tag.byte()) {
        Some(object) => Some(object.value()),
        None => None,
    }
}

/// Returns true for a file descriptor with a DF byte.
fn is_df_descriptor(object: &Object<'_>) -> bool
    ensures { result ≡ is_df_descriptor object.now }
{
    object.tag() == Tag::FileDescriptor.byte() && matches!(object.value(), [DF | SHAREABLE_DF, ..])
}

/// Returns true if an object is the file descriptor of a DF.
fn tells_of_df(objects: &Objects<'_>) -> bool
    ensures { result ≡ tells_of_df objects.now }
{
    objects.iter().any(|object| is_df_descriptor(&object))
}

/// Returns true if a mandatory object is missing.
fn is_missing(objects: &Objects<'_>) -> bool
    ensures { result ≡ is_missing objects.now }
{
    !has(objects, Tag::FileDescriptor)
        || !has(objects, Tag::FileIdentifier)
        || !has(objects, Tag::CompactRule)
        || !has(objects, Tag::DataBytes) && !tells_of_df(objects)
}

/// Returns true if a tag of the table occurs twice.
fn is_twice(objects: &Objects<'_>) -> bool
    ensures { result ≡ is_twice objects.now }
{
    let mut rest = objects.iter();
    while let Some(object) = rest.next() {
        if comes_again(&rest, &object) {
            return true;
        }
    }
    false
}

/// Returns true if the object has a tag of the table, and a later one has it too.
fn comes_again(later: &Objects<'_>, object: &Object<'_>) -> bool
    ensures { result ≡ (is_tag object.now.tag && has later.now object.now.tag) }
{
    is_known(object) && has_byte(later, object.tag())
}

/// Returns true if the object has a tag of the table.
fn is_known(object: &Object<'_>) -> bool
    ensures { result ≡ is_tag object.now.tag }
{
    is_tag(object.tag())
}

/// Returns true if an object has a tag outside the table.
fn has_unknown(objects: &Objects<'_>) -> bool
    ensures { result ≡ has_unknown objects.now }
{
    objects.iter().any(|object| !is_known(&object))
}

/// Returns the parameters of the objects, if all are valid.
#[tactic(auto, unfolding(card_model::specs::TemplateGrammar::fcp_of))]
fn fcp_of<'a>(objects: &Objects<'a>) -> Option<Fcp<'a>>
    ensures value { result ≡ fcp_of objects.now }
    ensures ranges { IfSome result IsCreatable }
{
    let (Some(descriptor), Some(identifier)) = (descriptor_at(objects), identifier_at(objects))
    else {
        return None;
    };
    let kind = kind_of(descriptor, objects)?;
    let life_cycle = life_cycle_of(value_at(objects, Tag::LifeCycleStatus))?;
    let rule = rule_at(objects)?;
    if has_unknown(objects) {
        return None;
    }
    Some(Fcp {
        identifier,
        life_cycle,
        rule,
        kind,
    })
}

/// Returns the descriptor in object 82.
fn descriptor_at(objects: &Objects<'_>) -> Option<Descriptor>
    ensures { result ≡ and_then (value_at objects.now 0x82) descriptor_of }
{
    descriptor_of(value_at(objects, Tag::FileDescriptor)?)
}

/// Returns the identifier in object 83.
fn identifier_at(objects: &Objects<'_>) -> Option<u16>
    ensures value { result ≡ and_then (value_at objects.now 0x83) identifier_of }
    ensures below_mf { IfSome result (λ n. n ≢ 0x3F00) }
    ensures current_df { IfSome result (λ n. n ≢ 0x3FFF) }
    ensures reserved { IfSome result (λ n. n ≢ 0xFFFF) }
{
    identifier_of(value_at(objects, Tag::FileIdentifier)?)
}

/// Returns the access rule in object 8C.
fn rule_at(objects: &Objects<'_>) -> Option<Compact>
    ensures value { result ≡ and_then (value_at objects.now 0x8C) rule_read }
{
    Compact::parse(value_at(objects, Tag::CompactRule)?)
}

/// Returns the kind of a file, from its descriptor and its objects.
fn kind_of<'a>(descriptor: Descriptor, objects: &Objects<'a>) -> Option<FileKind<'a>>
    ensures value { result ≡ kind_read descriptor objects.now }
    ensures ranges { IfSome result IsKind }
{
    match descriptor {
        Descriptor::Df => df_of(objects),
        Descriptor::Transparent => transparent_of(objects),
        Descriptor::Records {
            structure,
            record_length,
            existing,
        } => record_file_of(structure, record_length, existing, objects),
    }
}

/// Returns a DF, with its name if it has one.
/// Of the objects of an elementary file, it may have the number of data bytes only.
#[tactic(auto, unfolding(card_model::specs::TemplateGrammar::df_of))]
fn df_of<'a>(objects: &Objects<'a>) -> Option<FileKind<'a>>
    ensures value { result ≡ df_of objects.now }
    ensures ranges { IfSome result IsKind }
{
    let name = name_of(value_at(objects, Tag::Name))?;
    if has_no_place_in_a_df(objects) {
        return None;
    }
    Some(FileKind::Df { name })
}

/// Returns true if an object can't belong to a DF.
/// This is a short identifier, or a number of data bytes of a wrong length.
fn has_no_place_in_a_df(objects: &Objects<'_>) -> bool
    ensures { result ≡ (has objects.now 0x88 || has objects.now 0x80 && not (is_some (data_bytes objects.now))) }
{
    has(objects, Tag::ShortFileIdentifier)
        || has(objects, Tag::DataBytes) && data_bytes(objects).is_none()
}

/// Returns a transparent file, from its size; it must have no name.
#[tactic(auto, unfolding(card_model::specs::TemplateGrammar::transparent_of))]
fn transparent_of<'a>(objects: &Objects<'a>) -> Option<FileKind<'a>>
    ensures value { result ≡ transparent_of objects.now }
    ensures ranges { IfSome result IsKind }
{
    let short = short_of(value_at(objects, Tag::ShortFileIdentifier));
    match (short, size_of(data_bytes(objects))) {
        (Some(short), Some(size)) if !has(objects, Tag::Name) => {
            Some(FileKind::Transparent { short, size })
        }
        _ => None,
    }
}

/// Returns a record file whose records fill its size.
/// It must have no name.
#[tactic(auto, unfolding(card_model::specs::TemplateGrammar::record_file_of))]
fn record_file_of<'a>(
    structure: Structure,
    record_length: u16,
    existing: Option<u8>,
    objects: &Objects<'a>,
) -> Option<FileKind<'a>>
    ensures value { result ≡ record_file_of structure record_length existing objects.now }
    ensures ranges { IfSome result IsKind }
{
    let short = short_of(value_at(objects, Tag::ShortFileIdentifier));
    let (Some(short), Some(size)) = (short, size_of(data_bytes(objects))) else {
        return None;
    };
    let records = records_of(record_length, existing, size)?;
    if has(objects, Tag::Name) {
        return None;
    }
    match structure {
        Structure::Linear => Some(FileKind::Linear { short, records }),
        Structure::Cyclic => Some(FileKind::Cyclic { short, records }),
    }
}

/// Returns the identifier in the value of object 83.
/// It has two bytes, and isn't 3F00 (the MF), 3FFF (the current DF) or FFFF.
fn identifier_of(value: &[u8]) -> Option<u16>
    ensures value { result ≡ identifier_of value.now }
    ensures below_mf { IfSome result (λ n. n ≢ 0x3F00) }
    ensures current_df { IfSome result (λ n. n ≢ 0x3FFF) }
    ensures reserved { IfSome result (λ n. n ≢ 0xFFFF) }
{
    match *value {
        [high, low] => match u16::from_be_bytes([high, low]) {
            MASTER_FILE | CURRENT_FILE | RESERVED => None,
            identifier => Some(identifier),
        },
        _ => None,
    }
}

/// Returns the name in object 84, 1 to 16 bytes.
fn name_of<'a>(value: Option<&'a [u8]>) -> Option<Option<DfName<'a>>>
    ensures value { result ≡ name_read (option_copied value.entry) }
    ensures ranges { IfSome result IsDfName }
{
    match value {
        None => Some(None),
        Some(bytes) => Some(Some(DfName::new(bytes)?)),
    }
}

/// Returns the short identifier in object 88, if present.
/// It is 1 to 30, in the upper five bits of its byte.
fn short_of(value: Option<&[u8]>) -> Option<ShortIdentifier>
    ensures value { result ≡ short_read (option_copied value.entry) }
    ensures ranges { IfSome result IsShort }
{
    match value {
        None => Some(ShortIdentifier::Absent),
        Some([]) => Some(ShortIdentifier::Empty),
        Some([byte]) => {
            let number = *byte / 8;
            if *byte % 8 == 0 && (1..=MOST_SHORT).contains(&number) {
                Some(ShortIdentifier::Given(number))
            } else {
                None
            }
        }
        Some([_, _, ..]) => None,
    }
}

/// Returns the number of data bytes in object 80.
fn data_bytes(objects: &Objects<'_>) -> Option<u32>
    ensures { result ≡ data_bytes objects.now }
{
    number_of(value_at(objects, Tag::DataBytes)?)
}

/// Returns a big-endian number of two to four bytes.
fn number_of(value: &[u8]) -> Option<u32>
    ensures { result ≡ number_read value.now }
{
    match *value {
        [a, b] => Some(u32::from_be_bytes([0, 0, a, b])),
        [a, b, c] => Some(u32::from_be_bytes([0, a, b, c])),
        [a, b, c, d] => Some(u32::from_be_bytes([a, b, c, d])),
        _ => None,
    }
}

/// Returns the size of a file, 1 to 32,767 bytes.
fn size_of(number: Option<u32>) -> Option<u16>
    ensures value { result ≡ size_of number }
    ensures ranges { IfSome result IsSize }
{
    match u16::try_from(number?) {
        Ok(size @ 1..=MOST_BYTES) => Some(size),
        _ => None,
    }
}

/// Returns the records of a file, if they fill its size.
/// There are 1 to 254 records of 1 to 255 bytes. The descriptor gives how many exist, by default all.
fn records_of(record_length: u16, existing: Option<u8>, size: u16) -> Option<Records>
    requires { IsSize size }
    ensures value { result ≡ records_read record_length existing size }
    ensures ranges { IfSome result IsRecords }
{
    if !is_filled(size, record_length) {
        return None;
    }
    let capacity = size / record_length;
    let number = match existing {
        Some(number) => u16::from(number),
        None => capacity,
    };
    if !can_exist(number, capacity) {
        return None;
    }
    Some(Records {
        size,
        record_length: record_length as u8,
        existing: number as u8,
    })
}

/// Returns true if records of this length fill the size.
/// A record has 1 to 255 bytes.
fn is_filled(size: u16, record_length: u16) -> bool
    ensures { result ≡ (nat_le 1 record_length && nat_le record_length 255 && (size % record_length == 0)) }
{
    (1..=MOST_RECORD_BYTES).contains(&record_length) && size % record_length == 0
}

/// Returns true if a file of `capacity` can have `number` records.
/// The capacity is 1 to 254.
fn can_exist(number: u16, capacity: u16) -> bool
    ensures { result ≡ (nat_le 1 capacity && nat_le capacity 254 && nat_le number capacity) }
{
    (1..=MOST_RECORDS).contains(&capacity) && number <= capacity
}

/// Returns the life cycle status in object 8A, by default activated.
fn life_cycle_of(value: Option<&[u8]>) -> Option<LifeCycle>
    ensures value { result ≡ life_cycle_of (option_copied value.entry) }
    ensures live { IfSome result (λ state. state ≢ Terminated) }
{
    match value {
        None => Some(LifeCycle::Activated),
        Some([byte]) => match *byte {
            0x01 => Some(LifeCycle::Creation),
            0x03 => Some(LifeCycle::Initialisation),
            0x05 | 0x07 => Some(LifeCycle::Activated),
            0x04 | 0x06 => Some(LifeCycle::Deactivated),
            _ => None,
        },
        Some(_) => None,
    }
}
