//! The index: each file by parent and identifier, in working memory. A lookup reads no store.

ghost use Rattle.std.specs.Prelude.{◌≡◌, ◌<◌, ◌≤◌, ℕ, List, [], length, filter, option_map};
ghost use Rattle.std.specs.Prelude.{slice_index};
ghost use Rattle.file_tree.specs.declared.entry.Entry.{Entry};
ghost use Rattle.file_tree.specs.Table.{table, entry_in, path_of, IsUsed, IsTable};
ghost use Rattle.file_tree.specs.Trees.{tree_of, TreeStands};
ghost use Rattle.file_tree.specs.TreeChanges.{Deletes};
ghost use Rattle.file_tree.specs.Indexes.{AddsEntry, AreSorted, IsBlankIndex, IsFreeIn, IsIndex, TellsChild};
ghost use Rattle.file_tree.specs.Indexes.{TellsIndex};
ghost use Rattle.file_tree.specs.Indexes.{child_by_identifier};
ghost use Rattle.file_tree.specs.IndexParts.{TellsPut, parent_by, is_outside};

use crate::entry::Entry;
use crate::entry_number::EntryNumber;
use crate::parents::is_within;
use crate::steps::{Key, Place};
use arrayvec::ArrayVec;

/// The result of a lookup: the entry's number, or `None`.
pub type Reached = Option<EntryNumber>;

/// The greatest number of places: one per entry but the MF's.
const MOST_PLACES: usize = 63;

/// Places in ascending order of their keys.
type PlaceList = ArrayVec<Place, MOST_PLACES>;

/// The places of all files but the MF, by ascending keys.
#[derive(Drop)]
pub struct Index {
    pub(crate) places: PlaceList,
}

/// Returns the parent of an entry's file, for the MF its own.
fn parent_of(places: &[Place], entry: EntryNumber) -> EntryNumber
    ensures { result ≡ parent_by places.now entry }
{
    for place in places {
        if place.entry == entry {
            return place.key.parent();
        }
    }
    EntryNumber::master()
}

/// The parent of each entry by its place, so that a step to a parent is no search among the places.
fn parents_of(places: &[Place]) -> [u8; 256]
    ensures { (e : ℕ) → e < 256 → slice_index result e ≡ parent_by places.now e }
{
    let mut parents = [0; 256];
    let mut left = places.len();
    // Of two places of one entry the first counts, so it is written last.
    while left > 0 {
        left -= 1;
        let place = &places[left];
        parents[usize::from(place.entry.get())] = place.key.parent().get();
    }
    parents
}

/// The places of all files but that of an entry and those below it.
fn places_outside(places: &[Place], top: EntryNumber) -> PlaceList
    requires { length places.now ≤ 63 }
    ensures { result.items ≡ filter (is_outside places.now top) places.now }
{
    let parents = parents_of(places);
    let mut outside = PlaceList::new();
    for place in places {
        let parent_of = |e: EntryNumber| EntryNumber::new(parents[usize::from(e.get())]);
        if !is_within(parent_of, top, place.entry) {
            outside.push(*place);
        }
    }
    outside
}

impl Index {
    /// Returns an index of no file.
    pub fn new() -> Index
        ensures { IsBlankIndex result }
    {
        Index {
            places: PlaceList::new(),
        }
    }

    /// Returns a second index of the same files.
    pub fn twin(&self) -> Index
        ensures { result ≡ self.now }
    {
        let mut places = PlaceList::new();
        places
            .try_extend_from_slice(self.places.as_slice())
            .unwrap();
        Index { places }
    }

    /// Fills an empty index from a table of entries, in place, since it is long.
    /// It returns false if two children of one DF have the same identifier.
    pub fn fill(&mut self, entries: &[Entry]) -> bool
        requires empty { IsBlankIndex self.old }
        requires size { length entries.now ≤ 64 }
        ensures { TellsIndex entries.now result self.new }
    {
        for e in 1..entries.len() {
            let entry = &entries[e];
            if entry.is_used() {
                let place = Place {
                    key: Key::new(EntryNumber::new(entry.parent), entry.identifier),
                    entry: EntryNumber::new(e as u8),
                };
                if !self.put(place) {
                    return false;
                }
            }
        }
        true
    }

    /// Returns the entry of a DF's child by identifier, if any.
    pub fn child(&self, parent: EntryNumber, identifier: u16) -> Reached
        ensures { (m : List ℕ) → IsIndex (table m) self.now → TellsChild (table m) parent identifier result }
    {
        let (child, _) = self.find(parent, identifier);
        child
    }

    /// Returns the parent of a used entry, for the MF its own.
    pub fn parent(&self, entry: EntryNumber) -> EntryNumber
        ensures { (m : List ℕ) → IsTable (table m) → IsUsed (table m) entry → IsIndex (table m) self.now
            → result ≡ (entry_in (table m) entry).parent }
    {
        parent_of(self.places.as_slice(), entry)
    }

    /// Adds a created file. It has this entry, and this identifier below its parent.
    pub fn with(&mut self, parent: EntryNumber, identifier: u16, entry: EntryNumber)
        requires free { IsFreeIn self.old entry }
        ensures added { (t after : List Entry) → IsTable after
            → AddsEntry t parent identifier entry after → IsIndex t self.old
            → IsIndex after self.new }
    {
        let place = Place {
            key: Key::new(parent, identifier),
            entry,
        };
        self.put(place);
    }

    /// Removes a deleted file and all files below it.
    pub fn without(&mut self, entry: EntryNumber)
        ensures deleted { (m after : List ℕ) → TreeStands m → 0 < entry → IsUsed (table m) entry → Deletes m entry after
            → IsIndex (table m) self.old → IsIndex (table after) self.new }
    {
        self.places = places_outside(self.places.as_slice(), entry);
    }
}
