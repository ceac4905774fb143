//! Linear EFs: records of one length, in number order (ETSI TS 102 221, 8.2.2.2).
ghost use Rattle.std.specs.Prelude.{◌≡◌, ◌-◌, ◌++◌, ◌∷◌, [], length, slice_set};
ghost use Rattle.std.specs.Prelude.{ℕ, List, IfOk};
ghost use Rattle.std.specs.Result.{result_err};
ghost use Rattle.undo_journal.specs.Memory.{committed};
ghost use Rattle.ef_body.specs.declared.layout.TheConstants.{UPDATE_WRITES, RECORD_WRITES};
ghost use Rattle.ef_contents.specs.Refusals.{missing_record, full};
ghost use Rattle.ef_body.specs.LinearBodies.{linear_body_records, ring_of, IsLinear, LinearBecomes, TakesLinear};
ghost use Rattle.ef_contents.specs.BodyCalls.{CommitsUnlessRefused};
ghost use Rattle.ef_body.specs.laws.Linears.{ring_is, ring_records};

use crate::cyclic::Cyclic;
use crate::record_body::RecordBody;
use crate::slot::FreeSlot;
use block_chain::Chain;
use card_model::Sw;
use ef_contents::{BodyErr, from_store};
use undo_journal::{Board, Store};

/// The body of a linear EF. It has the chain of its blocks, the record length in bytes (1 to 255), and the capacity
/// in records (1 to 254). It also has the number of records, and the address of the entry's word for it.
#[derive(Clone, Copy)]
pub struct Linear {
    pub chain: Chain,
    pub record_length: u16,
    pub capacity: u16,
    pub records: u16,
    pub counts_at: u16,
}

impl RecordBody for Linear {
    ghost is_body = { IsLinear };

    ghost records_in = { linear_body_records };

    ghost ring_of = { ring_of };

    /// Record 1 is in slot 0, so the slots never wrap around.
    fn ring(self) -> Cyclic {
        Cyclic {
            chain: self.chain,
            record_length: self.record_length,
            capacity: self.capacity,
            records: self.records,
            start: 0,
            counts_at: self.counts_at,
        }
    }

    ghost ring_is = { ring_is };

    ghost ring_records = { ring_records };
}

impl Linear {
    /// Returns a free slot behind the last record.
    ///
    /// # Errors
    /// 6A84 exactly if there are as many records as the capacity.
    pub fn find_room(self) -> Result<FreeSlot, Sw>
        ensures found { IfOk result (λ slot. slot.ring ≡ ring_of self) }
        ensures refusal { (records : List (List ℕ)) → length records ≡ self.records
            → full self.capacity records ≡ result_err result }
    {
        self.ring().find_behind()
    }

    /// Replaces the record of a number. It takes one transaction (UPDATE RECORD, ISO/IEC 7816-4, 11.4.5).
    ///
    /// # Errors
    /// 6A83 if there is no such record. The store's failure: then the record is the old one or the new one.
    pub fn update<B: Board>(
        self,
        store: &mut Store<B>,
        number: u16,
        bytes: &[u8],
    ) -> Result<(), BodyErr>
        requires body { TakesLinear store.old self bytes.now }
        ensures { CommitsUnlessRefused (missing_record (linear_body_records (committed store.old) self) number)
            (LinearBecomes (committed store.old) self (slice_set (linear_body_records (committed store.old) self)
            (number - 1) bytes.now)) UPDATE_WRITES store.old store.new result }
    {
        let slot = self.find(number)?;
        from_store(slot.replace(store, bytes))
    }

    /// Adds a record behind the last one, in one transaction. It sets the bytes, then the number of records (APPEND
    /// RECORD, ISO/IEC 7816-4, 11.4.6).
    ///
    /// # Errors
    /// 6A84 if the EF is full. The store's failure: then the records are as before, or with the new one.
    pub fn append<B: Board>(self, store: &mut Store<B>, bytes: &[u8]) -> Result<(), BodyErr>
        requires body { TakesLinear store.old self bytes.now }
        ensures { CommitsUnlessRefused (full self.capacity (linear_body_records (committed store.old) self))
            (LinearBecomes (committed store.old) self (linear_body_records (committed store.old) self ++ bytes.now
            ∷ []))
            RECORD_WRITES store.old store.new result }
    {
        let slot = self.find_room()?;
        from_store(slot.append(store, bytes))
    }
}
