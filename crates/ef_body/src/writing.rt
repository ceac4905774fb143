//! Writing the bodies of EFs, each time in one transaction.
ghost use Rattle.std.specs.Prelude.{◌≡◌, ◌≤◌, ◌<◌, ◌+◌, ◌*◌, ◌-◌, ◌++◌, ◌∷◌, [], length, slice_set, OnOk};
ghost use Rattle.std.specs.Result.{result_err};
ghost use Rattle.undo_journal.specs.Memory.{committed, current, CountsCommit, InRuns};
ghost use Rattle.undo_journal.specs.StoreCalls.{SetsIn};
ghost use Rattle.undo_journal.specs.Lent.{memory_of};
ghost use Rattle.undo_journal.specs.declared.layout.TheConstants.{GATE};
ghost use Rattle.block_chain.specs.ChainChanges.{touched_blocks, touched_words};
ghost use Rattle.chain_bytes.specs.Writes.{put_writes};
ghost use Rattle.ef_body.specs.declared.layout.TheConstants.{RECORD_WRITES, UPDATE_WRITES};
ghost use Rattle.card_model.specs.RecordLists.{front};
ghost use Rattle.ef_body.specs.Bodies.{counts_word, cyclic_body_records};
ghost use Rattle.ef_body.specs.StoredBodies.{TakesRecord, TakesFront};
ghost use Rattle.chain_bytes.specs.Updates.{TakesBytes};
ghost use Rattle.ef_body.specs.BodyChanges.{record_put_writes, slot_offset};
ghost use Rattle.ef_body.specs.BodyChanges.{CyclicBecomes, PutsRecord, RecordsBecome};
ghost use Rattle.ef_contents.specs.BodyCalls.{Commits};
ghost use Rattle.undo_journal.specs.Rooms.{HasRoom};
ghost use Rattle.block_links.specs.StoredBlocks.{LieIn};

use crate::cyclic::Cyclic;
use crate::slot::{FreeSlot, RecordSlot, offset_of, slot_of};
use block_chain::Chain;
use chain_bytes::{put_bytes, set_bytes};
use undo_journal::{Board, Store, StoreErr, Txn};

/// Returns the entry's word for its records. It has their number and the slot of record 1.
fn counts(number: u16, start: u16) -> u32
    ensures { result ≡ counts_word number start }
{
    0x10000 * u32::from(number) + u32::from(start)
}

/// Writes a record's bytes, then the entry's word. It takes one transaction.
fn put_record<B: Board>(
    store: &mut Store<B>,
    chain: Chain,
    offset: u16,
    bytes: &[u8],
    counts_at: u16,
    new_counts: u32,
) -> Result<(), StoreErr>
    requires bytes { TakesBytes store.old chain offset (length bytes.now) }
    requires entry { counts_at < GATE }
    ensures commits { Commits (PutsRecord (committed store.old) chain offset bytes.now counts_at new_counts)
        RECORD_WRITES store.old store.new result }
    ensures counted { OnOk result (store.new.facts.writes
        ≡ store.old.facts.writes + record_put_writes offset (length bytes.now)) }
{
    let mut txn = store.begin();
    let work = set_record(&mut txn, chain, offset, bytes, counts_at, new_counts);
    txn.end(work)
}

/// Sets a record's bytes, then the word of the entry.
fn set_record<B: Board>(
    txn: &mut Txn<'_, B>,
    chain: Chain,
    offset: u16,
    bytes: &[u8],
    counts_at: u16,
    new_counts: u32,
) -> Result<(), StoreErr>
    requires room { HasRoom (memory_of txn.old) (touched_words offset (length bytes.now) + 1) }
    requires lie { LieIn (current (memory_of txn.old)) chain offset (length bytes.now) }
    requires entry { counts_at < GATE }
    ensures done { OnOk result (PutsRecord (current (memory_of txn.old)) chain offset bytes.now counts_at new_counts
        (current (memory_of txn.new))) }
    ensures store { SetsIn (touched_words offset (length bytes.now) + 1) txn.old txn.new (result_err result) }
    ensures runs { InRuns (touched_blocks offset (length bytes.now) + 1) (memory_of txn.old) (memory_of txn.new) }
    ensures counted { OnOk result (CountsCommit (record_put_writes offset (length bytes.now)) (memory_of txn.old)
        (memory_of txn.new)) }
{
    set_bytes(txn, chain, offset, bytes)?;
    txn.set(counts_at, new_counts)
}

/// Puts a record in front of a cyclic EF, in one transaction. Its bytes go into the slot before that of record 1. The
/// entry's word then names that slot and the new number of records.
pub(crate) fn put_front<B: Board>(
    body: Cyclic,
    store: &mut Store<B>,
    bytes: &[u8],
    records: u16,
) -> Result<(), StoreErr>
    requires { TakesFront store.old body bytes.now records }
    ensures commits { Commits (CyclicBecomes (committed store.old) body (front records bytes.now (cyclic_body_records
        (committed store.old) body))) RECORD_WRITES store.old store.new result }
    ensures counted { OnOk result (store.new.facts.writes ≡ store.old.facts.writes
        + record_put_writes (slot_offset body body.capacity) (length bytes.now)) }
{
    let start = slot_of(body, body.capacity);
    let offset = offset_of(body, start);
    let new_counts = counts(records, start);
    put_record(store, body.chain, offset, bytes, body.counts_at, new_counts)
}

impl RecordSlot {
    /// Replaces this record, in one transaction (UPDATE RECORD, ISO/IEC 7816-4, 11.4.5).
    /// The number of device writes follows from its slot and its length.
    ///
    /// # Errors
    /// The store's failure: then the record is the old one or the new one. It refuses nothing.
    pub fn replace<B: Board>(self, store: &mut Store<B>, bytes: &[u8]) -> Result<(), StoreErr>
        requires body { TakesRecord store.old self.ring bytes.now }
        ensures commits { Commits (RecordsBecome (committed store.old) self.ring (slice_set
            (cyclic_body_records (committed store.old) self.ring) (self.number - 1) bytes.now)) UPDATE_WRITES store.old
            store.new result }
        ensures counted { OnOk result (store.new.facts.writes ≡ store.old.facts.writes
            + put_writes (slot_offset self.ring self.number) (length bytes.now)) }
    {
        let offset = offset_of(self.ring, slot_of(self.ring, self.number));
        put_bytes(store, self.ring.chain, offset, bytes)
    }

    /// Puts a record in front and drops the oldest one. It takes one transaction, and the number of records doesn't
    /// change (UPDATE RECORD, PREVIOUS, and INCREASE, ETSI TS 102 221, 11.1.6 and 11.1.8). Any record will do as
    /// `self`, since it only shows that there is one.
    ///
    /// # Errors
    /// The store's failure: then the records are as before, or with the new one. It refuses nothing.
    pub fn replace_oldest<B: Board>(
        self,
        store: &mut Store<B>,
        bytes: &[u8],
    ) -> Result<(), StoreErr>
        requires body { TakesRecord store.old self.ring bytes.now }
        ensures commits { Commits (CyclicBecomes (committed store.old) self.ring (front (length (cyclic_body_records
            (committed store.old) self.ring)) bytes.now (cyclic_body_records (committed store.old) self.ring)))
            RECORD_WRITES store.old store.new result }
        ensures counted { OnOk result (store.new.facts.writes ≡ store.old.facts.writes
            + record_put_writes (slot_offset self.ring self.ring.capacity) (length bytes.now)) }
    {
        put_front(self.ring, store, bytes, self.ring.records)
    }
}

impl FreeSlot {
    /// Adds a record behind the last one, in one transaction. It sets the bytes, then the number of records (APPEND
    /// RECORD, ISO/IEC 7816-4, 11.4.6).
    ///
    /// # Errors
    /// The store's failure: then the records are as before, or with the new one. It refuses nothing.
    pub fn append<B: Board>(self, store: &mut Store<B>, bytes: &[u8]) -> Result<(), StoreErr>
        requires body { TakesRecord store.old self.ring bytes.now }
        ensures commits { Commits (RecordsBecome (committed store.old) self.ring (cyclic_body_records
            (committed store.old) self.ring ++ bytes.now ∷ [])) RECORD_WRITES store.old store.new result }
        ensures counted { OnOk result (store.new.facts.writes ≡ store.old.facts.writes
            + record_put_writes (slot_offset self.ring (self.ring.records + 1)) (length bytes.now)) }
    {
        let ring = self.ring;
        let offset = offset_of(ring, slot_of(ring, ring.records + 1));
        let new_counts = counts(ring.records + 1, ring.start);
        put_record(store, ring.chain, offset, bytes, ring.counts_at, new_counts)
    }
}
