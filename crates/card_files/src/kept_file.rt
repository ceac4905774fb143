//! A file with the words of a board.
ghost use Rattle.std.specs.Prelude.{◌≡◌, ◌≤◌, ◌↔◌, ◌+◌, ◌*◌, false, length, IsTrue};
ghost use Rattle.card_boards.specs.Images.{image_bytes};
ghost use Rattle.card_files.specs.declared.image_words.TheConstants.{WORD_BYTES};
ghost use Rattle.nvm_board.specs.declared.board.TheConstants.{PAGE_WORDS};
ghost use Rattle.simulated_flashes.specs.declared.flash_follower.TheConstants.{MOST_FLASH_WORDS};

use crate::image_words::{PAGE_BYTES, WORD_BYTES};
use arrayvec::ArrayVec;
use nvm_board::PAGE_WORDS;
use simulated_boards::{Follower, KeptBoard};
use simulated_flashes::FlashFollower;
use std::fs::File;
use std::io;
use std::os::unix::fs::{FileExt, MetadataExt};

/// The most words of one write.
const PART: usize = PAGE_WORDS as usize;

/// What shows that a file is as it was left: its size, the number of its names, and when it was last written.
#[derive(Clone, Copy)]
pub struct Stamp {
    size: u64,
    names: u64,
    seconds: i64,
    nanoseconds: i64,
}

impl Stamp {
    /// Returns the stamp of an open file.
    pub(crate) fn of(file: &File) -> io::Result<Stamp> {
        let it = file.metadata()?;
        Ok(Stamp {
            size: it.len(),
            names: it.nlink(),
            seconds: it.mtime(),
            nanoseconds: it.mtime_nsec(),
        })
    }

    /// Returns true if nobody removed, linked or truncated the file between two stamps.
    fn has_place_of(&self, earlier: &Stamp) -> bool
        ensures { IsTrue result ↔ ((self.now.size ≡ earlier.now.size) × (self.now.names ≡ earlier.now.names)) }
    {
        self.size == earlier.size && self.names == earlier.names
    }

    /// Returns true if nobody wrote the file either.
    fn is_that_of(&self, earlier: &Stamp) -> bool
        ensures { IsTrue result ↔ (self.now ≡ earlier.now) }
    {
        self.has_place_of(earlier)
            && self.seconds == earlier.seconds
            && self.nanoseconds == earlier.nanoseconds
    }
}

/// An open file with a board's words, the most significant byte of each first.
#[derive(Drop)]
pub struct KeptFile {
    file: File,
    /// The file as its last write left it.
    stamp: Stamp,
    sync: bool,
    /// True if the last write failed.
    behind: bool,
}

impl KeptFile {
    ghost use Rattle.std.specs.Prelude.{◌≡◌, true, not};

    /// Returns the follower of a file that has the words already, and was left as the stamp says.
    /// With `sync` each write waits until the disk has it.
    pub fn new(file: File, stamp: Stamp, sync: bool) -> KeptFile
        ensures file { result.file ≡ file }
        ensures sync { result.sync ≡ sync }
        ensures up { result.behind ≡ false }
    {
        KeptFile {
            file,
            stamp,
            sync,
            behind: false,
        }
    }

    /// Returns true if the file is as the last write left it. Another program may have replaced or changed it.
    fn is_as_left(&self) -> bool {
        matches!(Stamp::of(&self.file), Ok(now) if now.is_that_of(&self.stamp))
    }

    /// Writes the words, and returns true if the file took them all.
    fn write(&self, at: usize, words: &[u32]) -> bool
        requires size { length words.now ≤ PAGE_WORDS }
        requires within { at + length words.now ≤ MOST_FLASH_WORDS }
    {
        let bytes = big_endian_bytes(words);
        let wrote = self.file.write_at(&bytes, file_offset(at));
        matches!(wrote, Ok(count) if count == bytes.len())
    }

    /// Writes more words, a page's number of them at a time, and returns true if the file took them all.
    fn write_all(&self, at: usize, words: &[u32]) -> bool
        requires { at + length words.now ≤ MOST_FLASH_WORDS }
    {
        for i in 0..(words.len() + PART - 1) / PART {
            let end = words.len().min(PART * i + PART);
            if !self.write(at + PART * i, &words[PART * i..end]) {
                return false;
            }
        }
        true
    }

    /// Writes words unless an earlier write failed, and returns true if the file took them all.
    fn keep(&mut self, at: usize, words: &[u32]) -> bool
        requires { at + length words.now ≤ MOST_FLASH_WORDS }
        ensures told { result ≡ not (self.new.behind) }
        ensures never { self.old.behind ≡ true → self.new ≡ self.old }
    {
        if self.behind {
            return false;
        }
        let took = self.is_as_left()
            && self.write_all(at, words)
            && self.stamp_again()
            && (!self.sync || self.file.sync_data().is_ok());
        self.behind = !took;
        took
    }

    /// Keeps the stamp after a write, and returns true if the file is still there.
    fn stamp_again(&mut self) -> bool {
        match Stamp::of(&self.file) {
            Ok(now) if now.has_place_of(&self.stamp) => {
                self.stamp = now;
                true
            }
            Ok(_) | Err(_) => false,
        }
    }
}

/// The board of a card in a file, or of one in memory alone.
// Both have one type, since the compiler would copy all code that runs a script for a second one.
pub type CardBoard = KeptBoard<KeptFile>;

impl Follower for KeptFile {
    ghost behind = { λ f. f.behind };

    fn take(&mut self, at: usize, words: &[u32]) -> bool {
        self.keep(at, words)
    }
}

impl FlashFollower for KeptFile {
    ghost behind = { λ f. f.behind };

    fn take_run(&mut self, at: usize, words: &[u32]) -> bool {
        self.keep(at, words)
    }
}

/// Returns the offset of a word's first byte in the image.
fn file_offset(at: usize) -> u64
    requires { at ≤ MOST_FLASH_WORDS }
    ensures { result ≡ WORD_BYTES * at }
{
    (WORD_BYTES * at) as u64
}

/// Returns the bytes of words in the image, the most significant of each word first.
fn big_endian_bytes(words: &[u32]) -> ArrayVec<u8, PAGE_BYTES>
    requires { length words.now ≤ PAGE_WORDS }
    ensures bytes { result.items ≡ image_bytes words.now }
    ensures size { length result.items ≡ WORD_BYTES * length words.now }
{
    let mut bytes = ArrayVec::new();
    for i in 0..words.len() {
        bytes
            .try_extend_from_slice(&words[i].to_be_bytes())
            .unwrap();
    }
    bytes
}
