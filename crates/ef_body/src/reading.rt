//! Reading records.
ghost use Rattle.std.specs.Prelude.{◌≤◌, OnOk};
ghost use Rattle.undo_journal.specs.Memory.{committed};
ghost use Rattle.card_model.specs.RecordLists.{record_of};
ghost use Rattle.ef_body.specs.Bodies.{cyclic_body_records};
ghost use Rattle.ef_body.specs.StoredBodies.{HasRecords};
ghost use Rattle.ef_contents.specs.BodyCalls.{ReadsInto};
ghost use Rattle.ef_body.specs.ReadParts.{IsBlockOf};

use crate::chain_block::ChainBlock;
use crate::slot::{RecordSlot, offset_of, slot_of};
use arrayvec::ArrayVec;
use block_chain::{BLOCK_BYTES, Chain};
use chain_bytes::read_bytes;
use undo_journal::{Board, Store, StoreErr};

impl RecordSlot {
    /// Reads the record. It replaces the content of the buffer (READ RECORD, ISO/IEC 7816-4, 11.4.3).
    ///
    /// # Errors
    /// The store's failure: then the buffer may have a first part of the record. It refuses nothing.
    pub fn read<B: Board, const N: usize>(
        self,
        store: &mut Store<B>,
        bytes: &mut ArrayVec<u8, N>,
    ) -> Result<(), StoreErr>
        requires body { HasRecords store.old self.ring }
        requires room { self.ring.record_length ≤ N }
        ensures { ReadsInto (record_of (cyclic_body_records (committed store.old) self.ring) self.number) store.old
            store.new bytes.new.items result }
    {
        let mut block = ChainBlock::first_of(self.ring.chain);
        self.read_from(store, &mut block, bytes)
    }

    /// Reads the record, as `read` does.
    /// `block` is a block of the chain, and becomes the one in which the record begins.
    /// So the next read need not follow the links from the first block again.
    ///
    /// # Errors
    /// The store's failure: then the buffer may have a first part of the record.
    pub(crate) fn read_from<B: Board, const N: usize>(
        self,
        store: &mut Store<B>,
        block: &mut ChainBlock,
        bytes: &mut ArrayVec<u8, N>,
    ) -> Result<(), StoreErr>
        requires body { HasRecords store.old self.ring }
        requires room { self.ring.record_length ≤ N }
        requires block { IsBlockOf (committed store.old) self.ring.chain block.old }
        ensures block { OnOk result (IsBlockOf (committed store.old) self.ring.chain block.new) }
        ensures record { ReadsInto (record_of (cyclic_body_records (committed store.old) self.ring) self.number)
            store.old store.new bytes.new.items result }
    {
        bytes.clear();
        let offset = offset_of(self.ring, slot_of(self.ring, self.number));
        *block = block.go_to(store, self.ring.chain, offset / BLOCK_BYTES)?;
        let rest = Chain {
            first: block.page,
            last: self.ring.chain.last,
        };
        read_bytes(
            store,
            rest,
            offset % BLOCK_BYTES,
            self.ring.record_length,
            bytes,
        )
    }
}
