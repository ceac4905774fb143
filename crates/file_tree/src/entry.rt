//! File entries, as stored in their pages.

ghost use Rattle.std.specs.Prelude.{◌≡◌, ◌≢◌, ◌↔◌, ◌<◌, ◌++◌, take, IfSome, IsNone, IsTrue};
ghost use Rattle.card_model.specs.LifeCycle.{life_cycle_byte};
ghost use Rattle.block_chain.specs.BlockWords.{word_bytes};
ghost use Rattle.file_tree.specs.Kinds.{kind_byte};
ghost use Rattle.file_tree.specs.declared.kinds.EntryKind.TheVariants.{Free, Dedicated};
ghost use Rattle.file_tree.specs.Entries.{high, low, free_entry, entry_of, head_of, head_told, life_told, state_told};
ghost use Rattle.file_tree.specs.Entries.{name_of, rule_of, extent_of};

use crate::kinds::EntryKind;
use crate::layout::{ENTRIES, ENTRY_WORDS, RECORDS_WORD};
use crate::space::blocks_for;
use arrayvec::ArrayVec;
use block_chain::{Chain, Extent};
use card_model::LifeCycle;

/// A file entry: words 0 to 10 of its page. Any words are an entry; the rules on entries say which tables are a tree.
#[derive(Clone, Copy, Default)]
pub struct Entry {
    /// The kind as a byte.
    pub kind: u8,
    /// The life cycle status byte (ISO/IEC 7816-4, 7.4.10).
    pub life: u8,
    /// The file identifier.
    pub identifier: u16,
    /// The number of the parent's entry, for the MF its own (0).
    pub parent: u8,
    /// The short identifier, or 0 for none.
    pub short: u8,
    /// The length of a DF's name in `name`, 0 for none.
    pub name_length: u8,
    /// The length of the access rule in `rule`.
    pub rule_length: u8,
    /// The access rule in compact format, then unused bytes.
    pub rule: [u8; 8],
    /// The name, then unused bytes.
    pub name: [u8; 16],
    /// The bytes that are reserved for the content.
    pub size: u16,
    /// The record length in bytes, 0 for a transparent EF.
    pub record_length: u16,
    /// The page of the content's first block.
    pub first: u16,
    /// The page of the content's last block.
    pub last: u16,
    /// The number of records that exist.
    pub records: u16,
    /// The slot of record 1 of a cyclic EF, 0 for others.
    pub start: u16,
}

/// What the first two words of an entry tell of the file: a step to a parent and the search for a short identifier or a
/// name need no more.
#[derive(Clone, Copy)]
pub struct EntryHead {
    /// The kind as a byte.
    pub kind: u8,
    /// The life cycle status byte (ISO/IEC 7816-4, 7.4.10).
    pub life: u8,
    /// The number of the parent's entry, for the MF its own (0).
    pub parent: u8,
    /// The short identifier; 0 where there is none.
    pub short: u8,
    /// The bytes of the name; 0 where there is none.
    pub name_length: u8,
}

/// The capacity of a list with at most one element per entry.
pub const TABLE_ROOM: usize = ENTRIES as usize;

/// All file entries of a memory, by number.
pub type Table = ArrayVec<Entry, TABLE_ROOM>;

/// The extents of EFs.
pub type ExtentList = ArrayVec<Extent, TABLE_ROOM>;

impl Entry {
    /// Returns a free entry.
    pub fn free() -> Entry
        ensures { result ≡ free_entry }
    {
        Entry::default()
    }

    /// Returns the entry that the first words of a page encode.
    pub fn from_words(words: &[u32; ENTRY_WORDS]) -> Entry
        ensures { result ≡ entry_of words.now }
    {
        if words[0] == 0 {
            return Entry::free();
        }
        let [kind, life, _, _] = words[0].to_be_bytes();
        let [parent, short, name_length, rule_length] = words[1].to_be_bytes();
        Entry {
            kind,
            life,
            identifier: low(words[0]),
            parent,
            short,
            name_length,
            rule_length,
            rule: two_words(words[2], words[3]),
            name: four_words(words[4], words[5], words[6], words[7]),
            size: high(words[8]),
            record_length: low(words[8]),
            first: high(words[9]),
            last: low(words[9]),
            records: high(words[RECORDS_WORD as usize]),
            start: low(words[RECORDS_WORD as usize]),
        }
    }

    /// Returns the head of the entry.
    pub fn head(&self) -> EntryHead
        ensures { result ≡ head_of self.now }
    {
        EntryHead {
            kind: self.kind,
            life: self.life,
            parent: self.parent,
            short: self.short,
            name_length: self.name_length,
        }
    }

    /// Returns the kind, or `None` for an invalid byte. An entry of a tree always has a valid one.
    pub fn kind(&self) -> Option<EntryKind>
        ensures some { IfSome result (λ kind. self.now.kind ≡ kind_byte kind) }
        ensures none { IsNone result → 4 < self.now.kind }
    {
        EntryKind::from_byte(self.kind)
    }

    /// Returns true if the entry has this kind.
    pub fn has_kind(&self, kind: EntryKind) -> bool
        ensures { IsTrue result ↔ (self.now.kind ≡ kind_byte kind) }
    {
        self.kind == kind.to_byte()
    }

    /// Returns true if the entry has a file.
    pub fn is_used(&self) -> bool
        ensures { IsTrue result ↔ (self.now.kind ≢ kind_byte Free) }
    {
        !self.has_kind(EntryKind::Free)
    }

    /// Returns the life cycle state of the file.
    pub fn life_cycle(&self) -> LifeCycle
        ensures { result ≡ life_told self.now }
    {
        state_of(self.life)
    }

    /// Returns true if the file is in this life cycle state.
    pub fn has_life_cycle(&self, state: LifeCycle) -> bool
        ensures { IsTrue result ↔ (self.now.life ≡ life_cycle_byte state) }
    {
        self.life == state.to_byte()
    }

    /// Returns the name of a DF, empty without one.
    pub fn name(&self) -> &[u8]
        ensures { result.now ≡ name_of self.now }
    {
        first_bytes(&self.name, self.name_length)
    }

    /// Returns the access rule.
    pub fn rule(&self) -> &[u8]
        ensures { result.now ≡ rule_of self.now }
    {
        first_bytes(&self.rule, self.rule_length)
    }

    /// Returns the blocks of an EF, `None` for other entries. Their number follows from the size; the entry names the
    /// chain.
    #[tactic(auto, unfolding(crate::specs::Entries::extent_of))]
    pub fn extent(&self) -> Option<Extent>
        ensures { result ≡ extent_of self.now }
    {
        if let Some(EntryKind::Free | EntryKind::Dedicated) = self.kind() {
            return None;
        }
        let chain = Chain {
            first: self.first,
            last: self.last,
        };
        let blocks = blocks_for(self.size);
        Some(Extent { chain, blocks })
    }
}

impl EntryHead {
    /// Returns the head of the entry that begins with these words.
    pub fn from_words(first: u32, second: u32) -> EntryHead
        ensures { result ≡ head_told first second }
    {
        if first == 0 {
            return Entry::free().head();
        }
        let [kind, life, _, _] = first.to_be_bytes();
        let [parent, short, name_length, _] = second.to_be_bytes();
        EntryHead {
            kind,
            life,
            parent,
            short,
            name_length,
        }
    }

    /// Whether a file has the entry.
    pub fn is_used(self) -> bool
        ensures { IsTrue result ↔ (self.kind ≢ kind_byte Free) }
    {
        self.kind != EntryKind::Free.to_byte()
    }

    /// Returns true for the entry of a DF.
    pub fn is_dedicated(self) -> bool
        ensures { IsTrue result ↔ (self.kind ≡ kind_byte Dedicated) }
    {
        self.kind == EntryKind::Dedicated.to_byte()
    }

    /// Returns the life cycle state of the entry's file.
    pub fn life_cycle(self) -> LifeCycle
        ensures { result ≡ state_told self.life }
    {
        state_of(self.life)
    }
}

/// Returns the state that a life cycle status byte encodes. An entry of a tree always has a valid byte.
fn state_of(life: u8) -> LifeCycle
    ensures { result ≡ state_told life }
{
    LifeCycle::from_byte(life).unwrap_or(LifeCycle::Activated)
}

/// Returns the first `length` bytes, or all if there are fewer.
fn first_bytes(bytes: &[u8], length: u8) -> &[u8]
    ensures { result.now ≡ take length bytes.now }
{
    let length = usize::from(length).min(bytes.len());
    &bytes[..length]
}

/// Returns the first two bytes of a word.
fn high(word: u32) -> u16
    ensures { result ≡ high word }
{
    (word >> 16) as u16
}

/// Returns the last two bytes of a word.
fn low(word: u32) -> u16
    ensures { result ≡ low word }
{
    (word % 0x1_0000) as u16
}

/// Returns the bytes of two words. They are built from one number, so that they are stored in one piece.
fn two_words(first: u32, second: u32) -> [u8; 8]
    ensures { result ≡ word_bytes first ++ word_bytes second }
{
    (u64::from(first) * 0x1_0000_0000 + u64::from(second)).to_be_bytes()
}

/// Returns the bytes of four words.
fn four_words(first: u32, second: u32, third: u32, fourth: u32) -> [u8; 16]
    ensures { result ≡ word_bytes first ++ word_bytes second ++ word_bytes third ++ word_bytes fourth }
{
    let a = two_words(first, second);
    let b = two_words(third, fourth);
    [
        a[0], a[1], a[2], a[3], a[4], a[5], a[6], a[7], b[0], b[1], b[2], b[3], b[4], b[5], b[6],
        b[7],
    ]
}
