//! The words of a memory in the bytes of its image.
ghost use Rattle.std.specs.Prelude.{◌≡◌, ◌≢◌, ◌+◌, ◌%◌, ◌^◌, ◌≤◌, ◌<◌, ℕ, length, take, slice_index};
ghost use Rattle.std.specs.Prelude.{IfOk, IfSome, Err};
ghost use Rattle.std.specs.Int.{w32, to_be_bytes};
ghost use Rattle.nvm_board.specs.Facts.{AreWords};
ghost use Rattle.card_boards.specs.Images.{image_bytes};
ghost use Rattle.card_files.specs.ImageParts.{AreWordsIn};

use nvm_board::PAGE_WORDS;
use std::alloc::{AllocError, Global};
use std::io::{self, ErrorKind, Read};

/// The bytes of a word.
pub const WORD_BYTES: usize = 4;

/// The bytes of a page.
pub const PAGE_BYTES: usize = WORD_BYTES * PAGE_WORDS as usize;

/// Why a reader's bytes are not taken as words.
#[derive(Debug, Drop)]
pub enum WordsFault {
    /// The reader fails.
    Read(io::Error),
    /// The bytes are no whole words.
    Parts,
    /// There is too little memory.
    Memory,
}

/// Returns the words in the next bytes of a reader, at most `size`, the most significant byte of each first.
pub fn words_in<R: Read>(alloc: Global, reader: &mut R, size: u64) -> Result<Vec<u32>, WordsFault>
    ensures fit { IfOk result (λ words. AreWords words.items) }
    ensures words { IfOk result (λ words. AreWordsIn (R.remaining reader.old) size words.items) }
    ensures parts { result ≡ Err WordsFault.Parts → IfSome (R.remaining reader.old)
        (λ bytes. length (take size bytes) % WORD_BYTES ≢ 0) }
{
    let mut bytes = Vec::new(alloc);
    match reader.take(size).read_to_end(&mut bytes) {
        Ok(_) => {}
        Err(error) if error.kind() == ErrorKind::OutOfMemory => return Err(WordsFault::Memory),
        Err(error) => return Err(WordsFault::Read(error)),
    }
    if bytes.len() % WORD_BYTES != 0 {
        return Err(WordsFault::Parts);
    }
    match words_from_bytes(alloc, &bytes) {
        Ok(words) => Ok(words),
        Err(_) => Err(WordsFault::Memory),
    }
}

/// Returns the words in bytes.
fn words_from_bytes(alloc: Global, bytes: &[u8]) -> Result<Vec<u32>, AllocError>
    requires { length bytes.now % WORD_BYTES ≡ 0 }
    ensures fit { IfOk result (λ words. AreWords words.items) }
    ensures image { IfOk result (λ words. image_bytes words.items ≡ bytes.now) }
{
    let mut words = Vec::new(alloc);
    for i in 0..bytes.len() / WORD_BYTES {
        if words.push(word_at(bytes, WORD_BYTES * i)).is_err() {
            return Err(AllocError);
        }
    }
    Ok(words)
}

/// Returns the word in four bytes, from an index on.
fn word_at(bytes: &[u8], at: usize) -> u32
    requires { at + WORD_BYTES ≤ length bytes.now }
    ensures fit { result < 2 ^ 32 }
    ensures bytes { (place : ℕ) → place < WORD_BYTES
        → slice_index (to_be_bytes w32 result) place ≡ slice_index bytes.now (at + place) }
{
    u32::from_be_bytes([bytes[at], bytes[at + 1], bytes[at + 2], bytes[at + 3]])
}
