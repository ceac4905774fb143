//! Cyclic EFs: records of one length, the newest first (ETSI TS 102 221, 8.2.2.3).
ghost use Rattle.std.specs.Prelude.{◌≡◌, ◌≤◌, ◌<◌, ◌⊎◌, ◌↔◌, ◌+◌, min, length, None, Some, IsTrue, IfOk, OnOk};
ghost use Rattle.std.specs.Prelude.{nat_le, if◌then◌else◌};
ghost use Rattle.std.specs.Result.{result_err};
ghost use Rattle.undo_journal.specs.Commits.{CommitsByGate};
ghost use Rattle.undo_journal.specs.Memory.{committed};
ghost use Rattle.undo_journal.specs.StoreCalls.{OnlyReads, Reads, Changes};
ghost use Rattle.ef_body.specs.declared.layout.TheConstants.{RECORD_WRITES};
ghost use Rattle.card_model.specs.declared.status.Sw.{Sw};
ghost use Rattle.card_model.specs.declared.status.TheConstants.Sw.{NO_ROOM};
ghost use Rattle.card_model.specs.RecordLists.{front};
ghost use Rattle.ef_contents.specs.Refusals.{missing_record, unraised, why_failed};
ghost use Rattle.ef_body.specs.Bodies.{cyclic_body_records, IsCyclic};
ghost use Rattle.ef_body.specs.StoredBodies.{CanIncrease, TakesRecord};
ghost use Rattle.ef_body.specs.BodyChanges.{record_put_writes, slot_offset, CyclicBecomes, Increases};
ghost use Rattle.ef_contents.specs.BodyCalls.{Commits, CommitsUnlessRefused};
ghost use Rattle.ef_body.specs.RingCalls.{FindsRecord, ReceivesSum};

use crate::number::add_number;
use crate::slot::{FreeSlot, RecordSlot};
use crate::writing::put_front;
use arrayvec::ArrayVec;
use block_chain::Chain;
use card_model::Sw;
use ef_contents::{BodyErr, from_store};
use undo_journal::{Board, Store, StoreErr};

/// The body of a cyclic EF. It has the chain of its blocks, the record length in bytes (1 to 255), and the capacity
/// in records (1 to 254). It also has the number of records and the slot of record 1, and the address of the entry's
/// word for these two.
#[derive(Clone, Copy)]
pub struct Cyclic {
    pub chain: Chain,
    pub record_length: u16,
    pub capacity: u16,
    pub records: u16,
    pub start: u16,
    pub counts_at: u16,
}

impl Cyclic {
    /// Returns the record of a number. Record 1 is the newest.
    ///
    /// # Errors
    /// 6A83 exactly if there is no such record.
    pub fn find(self, number: u16) -> Result<RecordSlot, Sw>
        ensures { FindsRecord self number result }
    {
        if !self.has_record(number) {
            return Err(Sw::RECORD_NOT_FOUND);
        }
        Ok(RecordSlot { ring: self, number })
    }

    /// Returns true if there is a record of this number. Record 1 is the newest.
    fn has_record(self, number: u16) -> bool
        ensures { IsTrue result ↔ ((1 ≤ number) × (number ≤ self.records)) }
    {
        (1..=self.records).contains(&number)
    }

    /// Returns a free slot behind the last record, for a linear EF.
    ///
    /// # Errors
    /// 6A84 exactly if all slots have records.
    pub fn find_behind(self) -> Result<FreeSlot, Sw>
        ensures found { IfOk result (λ slot. slot.ring ≡ self) }
        ensures refusal { result_err result ≡ (if nat_le self.capacity self.records then Some NO_ROOM else None) }
    {
        if self.capacity <= self.records {
            return Err(Sw::NO_ROOM);
        }
        Ok(FreeSlot { ring: self })
    }

    /// Puts a record in front and drops the oldest one. It takes one transaction, and the number of records doesn't
    /// change (UPDATE RECORD, PREVIOUS, ETSI TS 102 221, 11.1.6).
    ///
    /// # Errors
    /// 6A83 if there is no record. The store's failure: then the records are as before, or with the new one.
    pub fn update_oldest<B: Board>(self, store: &mut Store<B>, bytes: &[u8]) -> Result<(), BodyErr>
        requires body { TakesRecord store.old self bytes.now }
        ensures { CommitsUnlessRefused (missing_record (cyclic_body_records (committed store.old) self) 1)
            (CyclicBecomes (committed store.old) self (front (length (cyclic_body_records (committed store.old) self))
            bytes.now (cyclic_body_records (committed store.old) self))) RECORD_WRITES store.old store.new result }
    {
        let newest_slot = self.find(1)?;
        from_store(newest_slot.replace_oldest(store, bytes))
    }

    /// Adds a record in front, in one transaction. If the EF is full, it drops the oldest one (APPEND RECORD, ISO/IEC
    /// 7816-4, 11.4.6).
    ///
    /// # Errors
    /// The store's failure: then the records are as before, or with the new one. It refuses nothing.
    pub fn append<B: Board>(self, store: &mut Store<B>, bytes: &[u8]) -> Result<(), BodyErr>
        requires body { TakesRecord store.old self bytes.now }
        ensures { CommitsUnlessRefused None (CyclicBecomes (committed store.old) self
            (front self.capacity bytes.now (cyclic_body_records (committed store.old) self))) RECORD_WRITES store.old
            store.new result }
    {
        from_store(self.push_front(store, bytes))
    }

    /// Adds a record in front, with the store's error type.
    ///
    /// # Errors
    /// The store's failure: then the records are as before, or with the new one.
    pub fn push_front<B: Board>(self, store: &mut Store<B>, bytes: &[u8]) -> Result<(), StoreErr>
        requires body { TakesRecord store.old self bytes.now }
        ensures commits { Commits (CyclicBecomes (committed store.old) self
            (front self.capacity bytes.now (cyclic_body_records (committed store.old) self))) RECORD_WRITES store.old
            store.new result }
        ensures counted { OnOk result (store.new.facts.writes ≡ store.old.facts.writes
            + record_put_writes (slot_offset self self.capacity) (length bytes.now)) }
    {
        put_front(self, store, bytes, self.appended())
    }

    /// Returns the number of records with one more, at most the capacity.
    fn appended(self) -> u16
        requires few { self.capacity ≤ 254 }
        requires room { self.records ≤ self.capacity }
        ensures { result ≡ min (self.records + 1) self.capacity }
    {
        self.capacity.min(self.records + 1)
    }

    /// Computes the record that INCREASE stores, and returns record 1 as found. The buffer gets record 1 as a number
    /// plus the sent number, in the record length. Nothing is written. `RecordSlot::replace_oldest` then stores the
    /// sum, and refuses nothing.
    ///
    /// # Errors
    /// 6A83 if there is no record, 9850 if the sum doesn't fit in a record: then the buffer is empty. The store's
    /// failure: then the buffer has a first part of record 1.
    pub fn raise<B: Board, const N: usize>(
        self,
        store: &mut Store<B>,
        sent: &[u8],
        bytes: &mut ArrayVec<u8, N>,
    ) -> Result<RecordSlot, BodyErr>
        requires { CanIncrease store.old self (length sent.now) N }
        ensures found { IfOk result (λ slot. (slot.ring ≡ self) × (slot.number ≡ 1)) }
        ensures sum { ReceivesSum self.record_length (cyclic_body_records (committed store.old) self) sent.now
            bytes.new.items result }
        ensures store { Reads store.old store.new (why_failed (result_err result)) }
    {
        bytes.clear();
        let newest = self.find(1)?;
        from_store(newest.read(store, bytes))?;
        if add_number(bytes, sent) {
            bytes.clear();
            return Err(BodyErr::Refused(Sw::MAXIMUM_REACHED));
        }
        Ok(newest)
    }

    /// Stores the sum of record 1 and the sent number in front. It takes one transaction, drops the oldest record,
    /// and puts the new one into the buffer (INCREASE, ETSI TS 102 221, 11.1.8).
    ///
    /// # Errors
    /// 6A83 if there is no record, 9850 if the sum doesn't fit in a record: then the buffer is empty. The store's
    /// failure: then the records are as before, or with the new one. The buffer then has the new record, or a first
    /// part of record 1.
    pub fn increase<B: Board, const N: usize>(
        self,
        store: &mut Store<B>,
        sent: &[u8],
        bytes: &mut ArrayVec<u8, N>,
    ) -> Result<(), BodyErr>
        requires { CanIncrease store.old self (length sent.now) N }
        ensures sum { ReceivesSum self.record_length (cyclic_body_records (committed store.old) self) sent.now
            bytes.new.items result }
        ensures any_exit { (committed store.new ≡ committed store.old)
            ⊎ Increases (committed store.old) self sent.now (committed store.new) }
        ensures done { OnOk result (Increases (committed store.old) self sent.now (committed store.new)) }
        ensures refused { (status : Sw) → unraised self.record_length (cyclic_body_records (committed store.old) self)
            sent.now ≡ Some status → OnlyReads store.old store.new }
        ensures by_gate { CommitsByGate store.old store.new }
        ensures store { Changes RECORD_WRITES store.old store.new (why_failed (result_err result)) }
    {
        let newest = self.raise(store, sent, bytes)?;
        from_store(newest.replace_oldest(store, bytes))
    }
}
