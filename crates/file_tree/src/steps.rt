//! Places by ascending keys, their search, and the count of key comparisons. Keys are compared here alone. Other files
//! reach a comparison only through `Index::find`, which tells the count, and `Index::put`, which keeps the order.

ghost use Rattle.std.specs.Prelude.{◌≡◌, ◌<◌, ◌≤◌, ◌+◌, ◌↔◌, ℕ, List, All, IsTrue, length, option_map};
ghost use Rattle.std.specs.List.Sorted.{IsSearchInRange};
ghost use Rattle.std.specs.Ordering.{MatchOrdering};
ghost use Rattle.file_tree.specs.Keys.{key_for, IsBefore};
ghost use Rattle.file_tree.specs.Table.{table, path_of, IsUsed};
ghost use Rattle.file_tree.specs.Trees.{tree_of, TreeStands};
ghost use Rattle.file_tree.specs.Indexes.{AreSorted, IsIndex, TellsChild, child_by_identifier};
ghost use Rattle.file_tree.specs.IndexParts.{TellsPut, TellsSearch};

use crate::entry_number::EntryNumber;
use crate::index::{Index, Reached};
use std::cmp::Ordering;
use std::marker::Model;

/// The key of a file: its parent's entry and its identifier. The fields are private, so that only `Steps::compare`
/// compares keys.
#[derive(Clone, Copy, Default)]
pub(crate) struct Key {
    parent: EntryNumber,
    identifier: u16,
}

impl Key {
    /// Returns the key of a file by its parent and its identifier.
    pub(crate) fn new(parent: EntryNumber, identifier: u16) -> Key
        ensures { result ≡ key_for parent identifier }
    {
        Key { parent, identifier }
    }

    /// Returns the entry of the parent.
    pub(crate) fn parent(&self) -> EntryNumber
        ensures { result ≡ self.now.parent }
    {
        self.parent
    }
}

/// The place of a file: its key and its entry.
#[derive(Clone, Copy, Default)]
pub(crate) struct Place {
    pub(crate) key: Key,
    pub(crate) entry: EntryNumber,
}

/// The number of key comparisons of a search.
#[derive(Clone, Copy)]
pub struct Steps {
    count: u8,
}

impl Model for Steps {
    ghost use Rattle.std.specs.Prelude.{ℕ};

    ghost Value = { ℕ };

    ghost view = { λ s. s.count };

    ghost inverse = { λ n. record { count = n } };
}

impl Steps {
    /// Returns a count of 0.
    fn new() -> Steps
        ensures { result ≡ 0 }
    {
        Steps { count: 0 }
    }

    /// Returns the number of comparisons.
    pub fn count(self) -> u8
        ensures { result ≡ self }
    {
        let Steps { count } = self;
        count
    }

    /// Compares and counts two keys. The parents come first, then the identifiers.
    fn compare(&mut self, one: &Key, other: &Key) -> Ordering
        requires { self.old < 255 }
        ensures order { MatchOrdering result (IsBefore one.now other.now) (one.now ≡ other.now)
            (IsBefore other.now one.now) }
        ensures counted { self.new ≡ self.old + 1 }
    {
        self.count += 1;
        match one.parent.get().cmp(&other.parent.get()) {
            Ordering::Less => Ordering::Less,
            Ordering::Equal => one.identifier.cmp(&other.identifier),
            Ordering::Greater => Ordering::Greater,
        }
    }
}

/// Searches a key among places in ascending order, by bisection. It returns the index of the key, or else the one
/// where it belongs, and the comparisons made.
fn search(places: &[Place], key: &Key) -> (Result<usize, usize>, Steps)
    requires few { length places.now ≤ 63 }
    ensures within { IsSearchInRange result.0 (length places.now) }
    ensures found { AreSorted places.now → TellsSearch places.now key.now result.0 }
    ensures steps { result.1 ≤ 6 }
{
    let mut steps = Steps::new();
    let mut low = 0;
    let mut high = places.len();
    while low < high {
        let middle = low + (high - low) / 2;
        match steps.compare(&places[middle].key, key) {
            Ordering::Less => low = middle + 1,
            Ordering::Equal => return (Ok(middle), steps),
            Ordering::Greater => high = middle,
        }
    }
    (Err(low), steps)
}

/// Returns true if a key is greater than those of all places.
fn is_greatest(places: &[Place], key: &Key) -> bool
    ensures { AreSorted places.now → (IsTrue result ↔ All (λ place. IsBefore place.key key.now) places.now) }
{
    let end = places.len();
    if end == 0 {
        return true;
    }
    let mut steps = Steps::new();
    match steps.compare(&places[end - 1].key, key) {
        Ordering::Less => true,
        Ordering::Equal | Ordering::Greater => false,
    }
}

impl Index {
    /// Returns the child of a DF by identifier, with the comparisons made. The child is an entry number, or `None`.
    pub fn find(&self, parent: EntryNumber, identifier: u16) -> (Reached, Steps)
        ensures found { (m : List ℕ) → IsIndex (table m) self.now → TellsChild (table m) parent identifier result.0 }
        ensures path { (m : List ℕ) → TreeStands m → IsUsed (table m) parent → IsIndex (table m) self.now
            → option_map (path_of (table m)) result.0
            ≡ child_by_identifier (tree_of m) (path_of (table m) parent) identifier }
        ensures steps { result.1 ≤ 6 }
    {
        let places = self.places.as_slice();
        let (found, steps) = search(places, &Key::new(parent, identifier));
        match found {
            Ok(at) => (Some(places[at].entry), steps),
            Err(_) => (None, steps),
        }
    }

    /// Inserts a place in order, unless its key is in use. It returns true if it did. Most files are created by
    /// ascending identifiers, so it tries the end first.
    pub(crate) fn put(&mut self, place: Place) -> bool
        requires { length self.old.places.items < 63 }
        ensures { AreSorted self.old.places.items → TellsPut self.old.places.items place self.new.places.items result }
    {
        if is_greatest(self.places.as_slice(), &place.key) {
            self.places.push(place);
            return true;
        }
        let (found, _) = search(self.places.as_slice(), &place.key);
        match found {
            Ok(_) => false,
            Err(at) => {
                self.places.insert(at, place);
                true
            }
        }
    }
}
