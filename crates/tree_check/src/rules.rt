//! The rules on a single entry.

ghost use Rattle.std.specs.Prelude.{◌↔◌, IsTrue, All};
ghost use Rattle.file_tree.specs.Table.{IsTransparentBody, IsRecordBody, HasShort, HasName, HasRule, HasBody};
ghost use Rattle.file_tree.specs.Table.{IsFileEntry, IsEntry};

use card_model::identifiers::{CURRENT_FILE, RESERVED};
use card_model::limits::{MOST_BYTES, MOST_RECORD_BYTES, MOST_RECORDS, MOST_SHORT};
use card_model::{Compact, LifeCycle};
use file_tree::{Entry, EntryKind};

/// Returns true for the body of a transparent EF. It has 1 to 32,767 bytes and no records.
fn is_transparent_body(entry: &Entry) -> bool
    ensures { IsTrue result ↔ IsTransparentBody entry.now }
{
    (1..=MOST_BYTES).contains(&entry.size)
        && entry.record_length == 0
        && entry.records == 0
        && entry.start == 0
}

/// Returns true for the body of a record EF. It has 1 to 254 slots of 1 to 255 bytes, 32,767 bytes at most. In a
/// linear EF record 1 is in the first slot.
fn is_record_body(entry: &Entry) -> bool
    ensures { IsTrue result ↔ IsRecordBody entry.now }
{
    let length = entry.record_length;
    if !(1..=MOST_RECORD_BYTES).contains(&length)
        || entry.size > MOST_BYTES
        || entry.size % length != 0
    {
        return false;
    }
    let capacity = entry.size / length;
    (1..=MOST_RECORDS).contains(&capacity)
        && entry.records <= capacity
        && entry.start < capacity
        && (!entry.has_kind(EntryKind::Linear) || entry.start == 0)
}

/// Returns true if the body fits the entry's kind.
fn has_body(entry: &Entry) -> bool
    ensures { IsTrue result ↔ HasBody entry.now }
{
    match entry.kind() {
        Some(EntryKind::Transparent) => is_transparent_body(entry),
        Some(EntryKind::Linear | EntryKind::Cyclic) => is_record_body(entry),
        Some(EntryKind::Free | EntryKind::Dedicated) | None => true,
    }
}

/// Returns true if the short identifier is valid. It is at most 30, and 0 for a DF.
fn has_short(entry: &Entry) -> bool
    ensures { IsTrue result ↔ HasShort entry.now }
{
    entry.short <= MOST_SHORT && (!entry.has_kind(EntryKind::Dedicated) || entry.short == 0)
}

/// Returns true if the name is valid. It has at most 16 bytes, and none for an EF.
fn has_name(entry: &Entry) -> bool
    ensures { IsTrue result ↔ HasName entry.now }
{
    usize::from(entry.name_length) <= entry.name.len()
        && (entry.has_kind(EntryKind::Dedicated) || entry.name_length == 0)
}

/// Returns true if the access rule is valid. It has at most 8 bytes.
fn has_rule(entry: &Entry) -> bool
    ensures { IsTrue result ↔ HasRule entry.now }
{
    usize::from(entry.rule_length) <= entry.rule.len() && Compact::parse(entry.rule()).is_some()
}

/// Returns true if a used entry satisfies the rules.
fn is_file_entry(entry: &Entry) -> bool
    ensures { IsTrue result ↔ IsFileEntry entry.now }
{
    entry.kind().is_some()
        && LifeCycle::from_byte(entry.life).is_some()
        && entry.identifier != CURRENT_FILE
        && entry.identifier != RESERVED
        && has_short(entry)
        && has_name(entry)
        && has_rule(entry)
        && has_body(entry)
}

/// Returns true if the entry is free or valid.
pub(crate) fn is_entry(entry: &Entry) -> bool
    ensures { IsTrue result ↔ IsEntry entry.now }
{
    if entry.is_used() {
        is_file_entry(entry)
    } else {
        entry.life == 0 && entry.identifier == 0
    }
}

/// Returns true if each entry is free or valid.
pub(crate) fn are_entries(entries: &[Entry]) -> bool
    ensures { IsTrue result ↔ All IsEntry entries.now }
{
    entries.iter().all(is_entry)
}
