//! A device write on its way to the device.
ghost use Rattle.std.specs.Prelude.{◌≡◌, ◌≤◌, ◌+◌, ◌*◌, ◌↔◌, IsTrue, length};
ghost use Rattle.nvm_board.specs.declared.board.TheConstants.{MOST_PAGES, PAGE_WORDS};

use arrayvec::ArrayVec;
use nvm_board::PAGE_WORDS;

/// The bytes of a word.
pub const WORD_BYTES: usize = 4;

/// The most bytes of a device write.
pub const WRITE_BYTES: usize = 64;

/// The words of one device write, as it left them, and the address of the first.
#[derive(Clone, Copy, Drop)]
pub struct Write {
    at: u32,
    size: u16,
    words: [u32; PAGE_WORDS as usize],
    ghost fits: { size ≤ PAGE_WORDS },
}

impl Write {
    ghost use Rattle.card_boards.specs.Images.{image_bytes};
    ghost use Rattle.card_calls.specs.Devices.{run_of};
    ghost use Rattle.card_calls.specs.declared.write.TheConstants.{WORD_BYTES};

    /// Returns a write of these words, from this address on.
    pub fn new(at: usize, words: &[u32]) -> Write
        requires size { length words.now ≤ PAGE_WORDS }
        requires within { at + length words.now ≤ PAGE_WORDS * MOST_PAGES }
        ensures { run_of result ≡ record { at = at; words = words.now } }
    {
        let mut own = [0; PAGE_WORDS as usize];
        own[..words.len()].copy_from_slice(words);
        Write {
            at: at as u32,
            size: words.len() as u16,
            words: own,
        }
    }

    /// Returns true if another write is of the same words and at the same address.
    #[tactic(auto, using(crate::proofs::AnnouncedLaws::differ_at, crate::proofs::AnnouncedLaws::same_at))]
    pub fn is_same(&self, other: &Write) -> bool
        ensures { IsTrue result ↔ run_of self.now ≡ run_of other.now }
    {
        if self.at != other.at {
            return false;
        }
        self.words[..usize::from(self.size)] == other.words[..usize::from(other.size)]
    }

    /// Returns the offset of the first byte in the image.
    pub fn offset(&self) -> usize
        ensures { result ≡ WORD_BYTES * (run_of self.now).at }
    {
        WORD_BYTES * self.at as usize
    }

    /// Returns the bytes in the image, the most significant of each word first.
    pub fn bytes(&self) -> ArrayVec<u8, WRITE_BYTES>
        ensures { result.items ≡ image_bytes (run_of self.now).words }
    {
        let mut bytes = ArrayVec::new();
        for i in 0..usize::from(self.size) {
            bytes
                .try_extend_from_slice(&self.words[i].to_be_bytes())
                .unwrap();
        }
        bytes
    }
}
