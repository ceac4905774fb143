//! The options of the command line.
ghost use Rattle.std.specs.Prelude.{◌≡◌, ◌≤◌, map, take};
ghost use Rattle.std.specs.String.{string_bytes};
ghost use Rattle.std.specs.Vec.Iter.{into_iter_items, into_iter_len};
ghost use Rattle.card_files.specs.CommandLines.{GivenOptions, IsAskedBy, TakesWords};
ghost use Rattle.card_files.specs.CommandLines.{new_card_pages, no_options, pages_number};
ghost use Rattle.nvm_board.specs.declared.board.TheConstants.{LEAST_PAGES, MOST_PAGES};

use crate::page_count::PageCount;
use nvm_board::{LEAST_PAGES, MOST_PAGES};
use std::vec::IntoIter;

/// A card in a file.
#[derive(Drop)]
pub struct CardOptions {
    pub path: String,
    /// The number of pages, if it is given. A new card has 1,024 otherwise, and any other card those of its file.
    pub pages: Option<PageCount>,
    /// True if each device write waits until the disk has it.
    pub sync: bool,
}

impl CardOptions {
    /// Returns the number of pages of a new card.
    pub fn new_pages(&self) -> u16
        ensures number { result ≡ new_card_pages (pages_number self.now.pages) }
        ensures least { LEAST_PAGES ≤ result }
        ensures most { result ≤ MOST_PAGES }
    {
        match &self.pages {
            Some(pages) => pages.number(),
            None => LEAST_PAGES,
        }
    }
}

/// What a command line asks for.
#[derive(Drop)]
pub enum Asked {
    /// The factory card, which is gone at the end. No word is `--card`.
    Factory,
    /// A card in a file.
    Card(CardOptions),
    /// Words that don't go together with `--card`.
    Unknown,
}

/// The role of the next word.
#[derive(Clone, Copy)]
enum WordRole {
    Option,
    Path,
    Pages,
}

/// The words that were read so far.
#[derive(Drop)]
struct Reading {
    path: Option<String>,
    pages: Option<PageCount>,
    sync: bool,
    is_known: bool,
    next: WordRole,
}

impl Reading {
    ghost use Rattle.std.specs.Prelude.{◌≡◌};
    ghost use Rattle.std.specs.String.{string_bytes};
    ghost use Rattle.card_files.specs.CommandLines.{options_read, no_options, IsAskedBy, TakesOption, TakesRole};

    /// Returns that no word was read.
    fn new() -> Reading
        ensures { options_read result ≡ no_options }
    {
        Reading {
            path: None,
            pages: None,
            sync: false,
            is_known: true,
            next: WordRole::Option,
        }
    }

    /// Takes the next word.
    fn take(&mut self, word: String)
        ensures { TakesRole self.old.next (options_read self.old) (string_bytes word) (options_read self.new) }
    {
        match self.next {
            WordRole::Path => {
                self.path = Some(word);
                self.next = WordRole::Option;
            }
            WordRole::Pages => {
                self.pages = PageCount::parse(word.as_str());
                self.is_known = self.is_known && self.pages.is_some();
                self.next = WordRole::Option;
            }
            WordRole::Option => self.take_option(word.as_bytes()),
        }
    }

    /// Takes a word that names an option.
    fn take_option(&mut self, word: &[u8])
        ensures { TakesOption (options_read self.old) word.now (options_read self.new) }
    {
        if word == b"--card".as_slice() {
            self.next = WordRole::Path;
        } else if word == b"--pages".as_slice() {
            self.next = WordRole::Pages;
        } else if word == b"--sync".as_slice() {
            self.sync = true;
        } else {
            self.is_known = false;
        }
    }

    /// Returns what the words ask for.
    fn asked(self) -> Asked
        ensures { IsAskedBy (options_read self) result }
    {
        let Reading {
            path,
            pages,
            sync,
            is_known,
            next,
        } = self;
        match (path, next) {
            (Some(path), WordRole::Option) if is_known => {
                Asked::Card(CardOptions { path, pages, sync })
            }
            (None, WordRole::Option | WordRole::Pages) => Asked::Factory,
            _ => Asked::Unknown,
        }
    }
}

/// Reads the words after the program's name.
pub fn parse_bench_options(words: IntoIter<String>) -> Asked
    ensures { (given : GivenOptions)
        × TakesWords no_options (map string_bytes (take (into_iter_len words) (into_iter_items words))) given
        × IsAskedBy given result }
{
    let mut reading = Reading::new();
    for word in words {
        reading.take(word);
    }
    reading.asked()
}
