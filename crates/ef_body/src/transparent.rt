//! Transparent EFs: bytes (ISO/IEC 7816-4, 7.3.2 and 11.3).
ghost use Rattle.std.specs.Prelude.{◌≡◌, ◌≤◌, ◌<◌, ◌+◌, ◌↔◌, min, length, take, drop, IsTrue, OnOk};
ghost use Rattle.undo_journal.specs.Memory.{committed};
ghost use Rattle.undo_journal.specs.Spending.{transaction_writes, WritesAtMost};
ghost use Rattle.card_model.specs.FileTrees.{overwrite};
ghost use Rattle.block_chain.specs.ChainChanges.{touched_blocks, touched_words};
ghost use Rattle.chain_bytes.specs.Writes.{put_writes};
ghost use Rattle.ef_contents.specs.Refusals.{past_end, overlong};
ghost use Rattle.ef_body.specs.TransparentBodies.{transparent_bytes, HasBytes, TransparentBecomes};
ghost use Rattle.ef_contents.specs.UpdateWrites.{update_writes};
ghost use Rattle.ef_contents.specs.BodyCalls.{CommitsUnlessRefused, ReadsUnlessRefused};

use arrayvec::ArrayVec;
use block_chain::Chain;
use card_model::Sw;
use chain_bytes::{put_bytes, read_bytes};
use ef_contents::{BodyErr, from_store};
use undo_journal::{Board, Store};

/// The body of a transparent EF. It has a chain, and a size of 1 to 32,767 bytes.
#[derive(Clone, Copy)]
pub struct Transparent {
    pub chain: Chain,
    pub size: u16,
}

impl Transparent {
    /// Returns true if an offset is at the end or past it.
    fn ends_at(self, offset: u16) -> bool
        ensures { IsTrue result ↔ (self.size ≤ offset) }
    {
        self.size <= offset
    }

    /// Returns true if `count` bytes would extend past the end. The offset itself is before the end.
    fn ends_before(self, offset: u16, count: usize) -> bool
        requires { offset < self.size }
        ensures { IsTrue result ↔ (self.size < offset + count) }
    {
        count > usize::from(self.size - offset)
    }

    /// Reads bytes from an offset on into the buffer, replacing its content. It reads `most` bytes, or all that are
    /// left if they are fewer (READ BINARY, ISO/IEC 7816-4, 11.3.3).
    ///
    /// # Errors
    /// 6B00 if the offset is at the end or past it: then the buffer is empty. The store's failure: then the buffer
    /// may have the first of the bytes.
    pub fn read<B: Board, const N: usize>(
        self,
        store: &mut Store<B>,
        offset: u16,
        most: u16,
        bytes: &mut ArrayVec<u8, N>,
    ) -> Result<(), BodyErr>
        requires body { HasBytes store.old self }
        requires room { most ≤ N }
        ensures { ReadsUnlessRefused (past_end (transparent_bytes (committed store.old) self) offset)
            (take most (drop offset (transparent_bytes (committed store.old) self))) store.old store.new
            bytes.new.items result }
    {
        bytes.clear();
        if self.ends_at(offset) {
            return Err(BodyErr::Refused(Sw::WRONG_OFFSET));
        }
        let count = smaller(most, self.size - offset);
        from_store(read_bytes(store, self.chain, offset, count, bytes))
    }

    /// Writes at most 255 bytes from an offset on, in one transaction. The number of device writes follows from the
    /// offset and the number of bytes (UPDATE BINARY, ISO/IEC 7816-4, 11.3.5).
    ///
    /// # Errors
    /// 6B00 if the offset is at the end or past it, 6A84 if the bytes would extend past the end. The store's failure:
    /// then all of the bytes are old, or all are new.
    pub fn update<B: Board>(
        self,
        store: &mut Store<B>,
        offset: u16,
        bytes: &[u8],
    ) -> Result<(), BodyErr>
        requires body { HasBytes store.old self }
        requires few { length bytes.now ≤ 255 }
        ensures commits { CommitsUnlessRefused (overlong (transparent_bytes (committed store.old) self) offset
            bytes.now) (TransparentBecomes (committed store.old) self (overwrite (transparent_bytes
            (committed store.old) self) offset bytes.now)) (transaction_writes (touched_words offset
            (length bytes.now)) (touched_blocks offset (length bytes.now))) store.old store.new result }
        ensures counted { OnOk result (store.new.facts.writes
            ≡ store.old.facts.writes + put_writes offset (length bytes.now)) }
        ensures writes { WritesAtMost (update_writes (length bytes.now)) store.old.facts store.new.facts }
    {
        if self.ends_at(offset) {
            return Err(BodyErr::Refused(Sw::WRONG_OFFSET));
        }
        if self.ends_before(offset, bytes.len()) {
            return Err(BodyErr::Refused(Sw::NO_ROOM));
        }
        from_store(put_bytes(store, self.chain, offset, bytes))
    }
}

/// Returns the smaller of two numbers.
fn smaller(first: u16, second: u16) -> u16
    ensures { result ≡ min first second }
{
    first.min(second)
}
