//! The rules on a table of entries that was read. They touch no store.

ghost use Rattle.std.specs.Prelude.{◌≡◌, ◌↔◌, ◌<◌, ◌≤◌, [], length, IsTrue};
ghost use Rattle.file_tree.specs.Table.{entry_in, ancestor, extents, free_entries, IsMasterFile, IsBelowMaster};
ghost use Rattle.file_tree.specs.Table.{HaveIdentifiers, IsTable};
ghost use Rattle.file_tree.specs.TreeParts.{BearOneName, ShareShort, HasOwnShort, HasOwnName};
ghost use Rattle.file_tree.specs.TreeParts.{AreBelow, AreUnlike};
ghost use Rattle.tree_check.specs.SurveyParts.{CanBeIndexed};
ghost use Rattle.tree_check.specs.SumParts.{next_sum, name_sum, short_sum, HaveOwnShorts, HaveOwnNames};

use crate::rules::are_entries;
use card_model::identifiers::MASTER_FILE;
use file_tree::{DEEPEST, Entry, EntryKind, EntryNumber, ExtentList};

/// The number of sums of names and of short identifiers.
const SUMS: usize = 256;

/// The factor of a sum.
const SUM_FACTOR: u8 = 31;

/// Returns the parent of an entry's file. Past the table it is the MF.
fn parent_of(entries: &[Entry], e: EntryNumber) -> EntryNumber
    ensures { result ≡ (entry_in entries.now e).parent }
{
    match entries.get(usize::from(e.get())) {
        Some(entry) => EntryNumber::new(entry.parent),
        None => EntryNumber::master(),
    }
}

/// Returns the entry after `steps` steps to parents. The MF is its own parent, so the walk stays there.
#[tactic(auto, using(file_tree::specs::laws::Levels::levels))]
fn ancestor(entries: &[Entry], steps: u8, e: EntryNumber) -> EntryNumber
    ensures { result ≡ ancestor entries.now steps e }
{
    let mut at = e;
    for _step in 0..steps {
        let parent = parent_of(entries, at);
        if parent == at {
            return at;
        }
        at = parent;
    }
    at
}

/// Returns true if entry 0 is a valid one of the MF.
fn is_master_file(entry: &Entry) -> bool
    ensures { IsTrue result ↔ IsMasterFile entry.now }
{
    entry.has_kind(EntryKind::Dedicated) && entry.identifier == MASTER_FILE && entry.parent == 0
}

/// Returns true if a file is below the MF. Its parent is a DF, and the MF at most seven steps away.
fn is_below_master(entries: &[Entry], e: EntryNumber) -> bool
    requires { e < length entries.now }
    ensures { IsTrue result ↔ IsBelowMaster entries.now e }
{
    let entry = &entries[usize::from(e.get())];
    match entries.get(usize::from(entry.parent)) {
        Some(parent) => parent.has_kind(EntryKind::Dedicated)
            && entry.identifier != MASTER_FILE
            && ancestor(entries, DEEPEST, e).is_master(),
        None => false,
    }
}

/// Returns true if each file but the MF is so.
fn are_below_master(entries: &[Entry]) -> bool
    requires { length entries.now ≤ 64 }
    ensures { IsTrue result ↔ AreBelow entries.now }
{
    for e in 1..entries.len() {
        if entries[e].is_used() && !is_below_master(entries, EntryNumber::new(e as u8)) {
            return false;
        }
    }
    true
}

/// Returns true if two entries have the same non-empty name.
fn bear_one_name(one: &Entry, other: &Entry) -> bool
    ensures { IsTrue result ↔ BearOneName one.now other.now }
{
    !one.name().is_empty() && one.name() == other.name()
}

/// Returns true if two entries are children of one DF with the same short identifier. `e` is the number of the first;
/// the MF is no child.
fn share_short(e: usize, one: &Entry, other: &Entry) -> bool
    ensures { IsTrue result ↔ ShareShort e one.now other.now }
{
    one.short != 0 && one.short == other.short && e > 0 && one.parent == other.parent
}

/// Returns true if no later used entry of the same DF has the same short identifier.
/// A file without one isn't compared.
fn has_own_short(entries: &[Entry], e: usize) -> bool
    requires { e < length entries.now }
    ensures { IsTrue result ↔ HasOwnShort entries.now e }
{
    let one = &entries[e];
    if one.short == 0 {
        return true;
    }
    for f in e + 1..entries.len() {
        let other = &entries[f];
        if share_short(e, one, other) && other.is_used() {
            return false;
        }
    }
    true
}

/// Returns true if no later used entry has the same name. A file without one isn't compared.
fn has_own_name(entries: &[Entry], e: usize) -> bool
    requires { e < length entries.now }
    ensures { IsTrue result ↔ HasOwnName entries.now e }
{
    let one = &entries[e];
    if one.name_length == 0 {
        return true;
    }
    for f in e + 1..entries.len() {
        let other = &entries[f];
        if bear_one_name(one, other) && other.is_used() {
            return false;
        }
    }
    true
}

/// Returns a sum with one more byte.
fn next_sum(sum: u8, byte: u8) -> u8
    ensures { result ≡ next_sum sum byte }
{
    sum.wrapping_mul(SUM_FACTOR).wrapping_add(byte)
}

/// Returns the sum of a name. Names that differ in their last byte alone have different sums.
fn name_sum(name: &[u8]) -> u8
    ensures { result ≡ name_sum name.now }
{
    name.iter().fold(0, |sum, byte| next_sum(sum, *byte))
}

/// Returns the sum of a child's short identifier and its DF.
fn short_sum(entry: &Entry) -> u8
    ensures { result ≡ short_sum entry.now }
{
    next_sum(entry.parent, entry.short)
}

/// Returns true if no two used entries are children of one DF with the same short identifier. It compares an entry
/// with others only if a later one has the same sum.
fn have_own_shorts(entries: &[Entry]) -> bool
    ensures { IsTrue result ↔ HaveOwnShorts entries.now }
{
    let mut met = [false; SUMS];
    let mut e = entries.len();
    while e > 0 {
        e -= 1;
        let one = &entries[e];
        if one.is_used() && one.short != 0 {
            let sum = usize::from(short_sum(one));
            if met[sum] && !has_own_short(entries, e) {
                return false;
            }
            met[sum] = true;
        }
    }
    true
}

/// Returns true if no two used entries have the same name. It compares an entry with others only if a later one has
/// the same sum.
fn have_own_names(entries: &[Entry]) -> bool
    ensures { IsTrue result ↔ HaveOwnNames entries.now }
{
    let mut met = [false; SUMS];
    let mut e = entries.len();
    while e > 0 {
        e -= 1;
        let one = &entries[e];
        if one.is_used() && one.name_length != 0 {
            let sum = usize::from(name_sum(one.name()));
            if met[sum] && !has_own_name(entries, e) {
                return false;
            }
            met[sum] = true;
        }
    }
    true
}

/// Returns true if no two used entries conflict. Identifiers are checked elsewhere.
fn are_apart(entries: &[Entry]) -> bool
    ensures { IsTrue result ↔ AreUnlike entries.now }
{
    have_own_shorts(entries) && have_own_names(entries)
}

/// Returns true if the entries satisfy the rules of a tree. The caller's index has already shown that children of one
/// DF have different identifiers.
pub(crate) fn is_table(entries: &[Entry]) -> bool
    requires { CanBeIndexed entries.now }
    ensures { IsTrue result ↔ IsTable entries.now }
{
    is_master_file(&entries[0])
        && are_entries(entries)
        && are_below_master(entries)
        && are_apart(entries)
}

/// Fills an empty list with the extents of the EFs, in the order of their entries.
#[tactic(auto, using(file_tree::specs::laws::Tables::extents_pushed))]
pub(crate) fn list_extents(entries: &[Entry], list: &mut ExtentList)
    requires size { length entries.now ≤ 64 }
    requires empty { list.old.items ≡ [] }
    ensures { list.new.items ≡ extents entries.now }
{
    for entry in entries {
        if let Some(extent) = entry.extent() {
            list.push(extent);
        }
    }
}

/// Returns the number of free entries.
pub(crate) fn count_free(entries: &[Entry]) -> u16
    requires { length entries.now ≤ 64 }
    ensures free { result ≡ free_entries entries.now }
    ensures few { result ≤ length entries.now }
{
    let mut free = 0;
    for entry in entries {
        if entry.has_kind(EntryKind::Free) {
            free += 1;
        }
    }
    free
}
