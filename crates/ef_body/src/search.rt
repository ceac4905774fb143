//! Searching records for a string.
ghost use Rattle.std.specs.Prelude.{◌≡◌, ◌≤◌, ◌<◌, ◌+◌, ◌-◌, ◌++◌, ◌∷◌, [], ℕ, cond, drop, false, nat_eq, length, OnOk};
ghost use Rattle.std.specs.Prelude.{slice_index};
ghost use Rattle.std.specs.List.{starts_with};
ghost use Rattle.undo_journal.specs.Memory.{committed};
ghost use Rattle.undo_journal.specs.StoreCalls.{Learns};
ghost use Rattle.card_model.specs.RecordLists.{record_of, stands_in, numbers_on, records_found};
ghost use Rattle.ef_body.specs.Bodies.{cyclic_body_records};
ghost use Rattle.ef_body.specs.StoredBodies.{HasRecords};
ghost use Rattle.ef_contents.specs.BodyCalls.{ReadsInto};
ghost use Rattle.ef_body.specs.ReadParts.{IsBlockOf, IsRecordNumber};

use crate::chain_block::ChainBlock;
use crate::cyclic::Cyclic;
use crate::layout::MOST_RECORD_BYTES;
use crate::slot::RecordSlot;
use arrayvec::ArrayVec;
use card_model::Direction;
use memchr::memchr;
use undo_journal::{Board, Store, StoreErr};

/// Returns the first place, `from` or a later one, where a text may begin: one with its first byte, or else the end.
fn next_candidate(text: &[u8], bytes: &[u8], from: usize) -> usize
    requires { from ≤ length bytes.now }
    ensures from { from ≤ result }
    ensures within { result ≤ length bytes.now }
    ensures passed { (k : ℕ) → from ≤ k → k < result
        → starts_with nat_eq (drop k bytes.now) text.now ≡ false }
{
    let Some(first) = text.first() else {
        return from;
    };
    // (where the text may begin at once, a search by memchr would cost more than it passes over)
    if from < bytes.len() && bytes[from] == *first {
        return from;
    }
    match memchr(*first, &bytes[from..]) {
        Some(place) => from + place,
        None => bytes.len(),
    }
}

/// Returns true if a text begins at a place of a record.
fn begins_at(text: &[u8], bytes: &[u8], at: usize) -> bool
    requires { at < length bytes.now }
    ensures { result ≡ starts_with nat_eq (drop at bytes.now) text.now }
{
    bytes[at..].starts_with(text)
}

/// Returns true if the string occurs anywhere in a record.
fn stands(text: &[u8], bytes: &[u8]) -> bool
    ensures { result ≡ stands_in text.now bytes.now }
{
    let mut at = next_candidate(text, bytes, 0);
    while at < bytes.len() {
        if begins_at(text, bytes, at) {
            return true;
        }
        at = next_candidate(text, bytes, at + 1);
    }
    false
}

/// Returns true if the record of a number contains the string. `block` is a block of the chain, and becomes the one in
/// which the record begins.
fn record_holds<B: Board>(
    body: Cyclic,
    store: &mut Store<B>,
    number: u16,
    text: &[u8],
    block: &mut ChainBlock,
) -> Result<bool, StoreErr>
    requires body { HasRecords store.old body }
    requires first { 1 ≤ number }
    requires last { number ≤ body.records }
    requires block { IsBlockOf (committed store.old) body.chain block.old }
    ensures block { OnOk result (IsBlockOf (committed store.old) body.chain block.new) }
    ensures holds { Learns store.old store.new result (λ holds. holds
        ≡ stands_in text.now (record_of (cyclic_body_records (committed store.old) body) number)) }
{
    let mut bytes = ArrayVec::<u8, MOST_RECORD_BYTES>::new();
    let slot = RecordSlot { ring: body, number };
    slot.read_from(store, block, &mut bytes)?;
    Ok(stands(text, &bytes))
}

/// Returns the number of records that a search reads.
fn steps_of(direction: Direction, first: u16, records: u16) -> u16
    requires { IsRecordNumber first records }
    ensures { result ≡ length (numbers_on direction first records) }
{
    match direction {
        Direction::Forward => records + 1 - first,
        Direction::Backward => first,
    }
}

/// Returns the number of the record at a step of the search.
fn number_at(direction: Direction, first: u16, records: u16, step: u16) -> u16
    requires first { IsRecordNumber first records }
    requires step { step < length (numbers_on direction first records) }
    ensures number { result ≡ slice_index (numbers_on direction first records) step }
    ensures from { 1 ≤ result }
    ensures most { result ≤ records }
{
    match direction {
        Direction::Forward => first + step,
        Direction::Backward => first - step,
    }
}

/// Appends a number if its record contains the string.
fn note<const N: usize>(numbers: &mut ArrayVec<u8, N>, number: u16, holds: bool)
    requires room { length numbers.old.items < N }
    requires small { number < 256 }
    ensures { numbers.new.items ≡ numbers.old.items ++ cond holds (number ∷ []) [] }
{
    if holds {
        numbers.push(number as u8);
    }
}

impl RecordSlot {
    /// Puts the numbers of matching records into the buffer, replacing its content. These are the records that
    /// contain the string, from this record up to the last one or down to record 1. The search doesn't wrap around
    /// (SEARCH RECORD, ISO/IEC 7816-4, 11.4.7).
    ///
    /// # Errors
    /// The store's failure: then the buffer may have the first of the numbers. It refuses nothing.
    pub fn search<B: Board, const N: usize>(
        self,
        store: &mut Store<B>,
        direction: Direction,
        text: &[u8],
        numbers: &mut ArrayVec<u8, N>,
    ) -> Result<(), StoreErr>
        requires body { HasRecords store.old self.ring }
        requires room { self.ring.records ≤ N }
        ensures { ReadsInto (records_found direction self.number text.now (cyclic_body_records
            (committed store.old) self.ring))
            store.old store.new numbers.new.items result }
    {
        numbers.clear();
        let mut block = ChainBlock::first_of(self.ring.chain);
        let steps = steps_of(direction, self.number, self.ring.records);
        for step in 0..steps {
            let number = number_at(direction, self.number, self.ring.records, step);
            let holds = record_holds(self.ring, store, number, text, &mut block)?;
            note(numbers, number, holds);
        }
        Ok(())
    }
}
