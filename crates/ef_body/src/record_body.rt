//! Lookup, reading and search of records by number, the same for linear and cyclic EFs.
ghost use Rattle.std.specs.Prelude.{◌≡◌, ◌≤◌, ℕ, List, refl};
ghost use Rattle.undo_journal.specs.Memory.{committed, IsReady};
ghost use Rattle.ef_body.specs.declared.cyclic.Cyclic.{Cyclic};
ghost use Rattle.card_model.specs.RecordLists.{record_of, records_found};
ghost use Rattle.ef_contents.specs.Refusals.{missing_record};
ghost use Rattle.ef_body.specs.Bodies.{cyclic_body_records, IsCyclic};
ghost use Rattle.ef_contents.specs.BodyCalls.{ReadsUnlessRefused};
ghost use Rattle.ef_body.specs.RingCalls.{FindsRecord};

use crate::cyclic::Cyclic;
use crate::slot::RecordSlot;
use arrayvec::ArrayVec;
use card_model::{Direction, Sw};
use ef_contents::{BodyErr, from_store};
use undo_journal::{Board, Store};

/// A body of records, in the slots of a ring. Record 1 is the first of a linear EF, the newest of a cyclic one.
pub trait RecordBody: Copy {
    /// The words of a memory describe this body.
    ghost is_body: { List ℕ → Self → Type 0 };

    /// Its records in these words, by number.
    ghost records_in: { List ℕ → Self → List (List ℕ) };

    /// The ring of its slots.
    ghost ring_of: { Self → Cyclic };

    /// Returns the same body as a cyclic one.
    fn ring(self) -> Cyclic
        ensures { result ≡ ring_of self };

    /// Returns the record of a number. Record 1 is the first of a linear EF, the newest of a cyclic one.
    ///
    /// # Errors
    /// 6A83 exactly if there is no such record.
    final fn find(self, number: u16) -> Result<RecordSlot, Sw>
        ensures { FindsRecord (ring_of self) number result }
    {
        self.ring().find(number)
    }

    /// Reads the record of a number. It replaces the content of the buffer (READ RECORD, ISO/IEC 7816-4, 11.4.3).
    ///
    /// # Errors
    /// 6A83 if there is no such record: then the buffer is empty. The store's failure: then the buffer may have a
    /// first part of the record.
    final fn read<B: Board, const N: usize>(
        self,
        store: &mut Store<B>,
        number: u16,
        bytes: &mut ArrayVec<u8, N>,
    ) -> Result<(), BodyErr>
        requires ready { IsReady store.old }
        requires body { is_body (committed store.old) self }
        requires room { (ring_of self).record_length ≤ N }
        ensures { ReadsUnlessRefused (missing_record (records_in (committed store.old) self) number)
            (record_of (records_in (committed store.old) self) number) store.old store.new bytes.new.items result }
    {
        bytes.clear();
        let slot = self.find(number)?;
        from_store(slot.read(store, bytes))
    }

    /// Puts the numbers of matching records into the buffer, replacing its content. These are the records that
    /// contain the string, from the record `first` up to the last one or down to record 1. The search doesn't wrap
    /// around (SEARCH RECORD, ISO/IEC 7816-4, 11.4.7).
    ///
    /// # Errors
    /// 6A83 if there is no record of that number: then the buffer is empty. The store's failure: then the buffer may
    /// have the first of the numbers.
    final fn search<B: Board, const N: usize>(
        self,
        store: &mut Store<B>,
        direction: Direction,
        first: u16,
        text: &[u8],
        numbers: &mut ArrayVec<u8, N>,
    ) -> Result<(), BodyErr>
        requires ready { IsReady store.old }
        requires body { is_body (committed store.old) self }
        requires room { (ring_of self).records ≤ N }
        ensures { ReadsUnlessRefused (missing_record (records_in (committed store.old) self) first)
            (records_found direction first text.now (records_in (committed store.old) self)) store.old store.new
            numbers.new.items result }
    {
        numbers.clear();
        let slot = self.find(first)?;
        from_store(slot.search(store, direction, text, numbers))
    }

    /// The ring is a valid cyclic body in the same words.
    ghost ring_is: { (m : List ℕ) (body : Self) → is_body m body → IsCyclic m (ring_of body) };

    /// The ring has the same records.
    ghost ring_records: { (m : List ℕ) (body : Self) → is_body m body
        → cyclic_body_records m (ring_of body) ≡ records_in m body };
}

impl RecordBody for Cyclic {
    ghost is_body = { IsCyclic };

    ghost records_in = { cyclic_body_records };

    ghost ring_of = { λ body. body };

    fn ring(self) -> Cyclic {
        self
    }

    ghost ring_is = { λ m body is. is };

    ghost ring_records = { λ m body is. refl };
}
