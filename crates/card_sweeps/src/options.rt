//! The options of the command line.
ghost use Rattle.std.specs.Prelude.{map, take};
ghost use Rattle.std.specs.String.{string_bytes};
ghost use Rattle.std.specs.Vec.Iter.{into_iter_items, into_iter_len};
ghost use Rattle.card_sweeps.specs.SweepOptions.{AsksForSweep, GivenSweep, IsWholeSweep};

use crate::parts::SweepPart;
use std::vec::IntoIter;

/// What a command line asks for.
#[derive(Drop)]
pub struct Options {
    /// The file with the card. The factory card is swept if there is none.
    pub card: Option<String>,
    /// The part of the sweep.
    pub part: SweepPart,
}

/// The words that were read so far.
#[derive(Drop)]
struct Reading {
    card: Option<String>,
    part: SweepPart,
    /// Whether the next word is the path of a card.
    is_path: bool,
}

impl Reading {
    ghost use Rattle.std.specs.Prelude.{IfNone, IfSome};
    ghost use Rattle.std.specs.String.{string_bytes};
    ghost use Rattle.card_sweeps.specs.SweepOptions.{sweep_given, EndsSweepWords, IsUnknownWord, IsWholeSweep};
    ghost use Rattle.card_sweeps.specs.SweepOptions.{TakesSweepWord};

    /// Returns that no word was read.
    fn new() -> Reading
        ensures { IsWholeSweep (sweep_given result) }
    {
        Reading {
            card: None,
            part: SweepPart::whole(),
            is_path: false,
        }
    }

    /// Takes the next word. Returns `None` if it is unknown.
    fn take(&mut self, word: String) -> Option<()>
        ensures taken { IfSome result (λ _. TakesSweepWord (sweep_given self.old) (string_bytes word)
            (sweep_given self.new)) }
        ensures unknown { IfNone result (IsUnknownWord (sweep_given self.old) (string_bytes word)) }
    {
        if self.is_path {
            self.card = Some(word);
            self.is_path = false;
        } else if word.as_bytes() == b"--card".as_slice() {
            self.is_path = true;
        } else {
            self.part = SweepPart::parse(word.as_str())?;
        }
        Some(())
    }

    /// Returns what the words ask for, or `None` if a path is missing.
    fn asked(self) -> Option<Options>
        ensures { EndsSweepWords (sweep_given self) result }
    {
        let Reading {
            card,
            part,
            is_path,
        } = self;
        if is_path {
            return None;
        }
        Some(Options { card, part })
    }
}

/// Reads the words after the program's name.
/// Returns `None` if one is unknown, or a path is missing.
pub fn parse_sweep_options(words: IntoIter<String>) -> Option<Options>
    ensures { (first : GivenSweep) × IsWholeSweep first
        × AsksForSweep first (map string_bytes (take (into_iter_len words) (into_iter_items words))) result }
{
    let mut reading = Reading::new();
    for word in words {
        reading.take(word)?;
    }
    reading.asked()
}
