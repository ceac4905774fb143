//! Turns at a bench, and the result of each.
ghost use Rattle.std.specs.Prelude.{◌≡◌, ◌↔◌, IsTrue};

use t1_link::BlockBytes;

/// A turn at the bench.
#[derive(Clone, Copy)]
pub enum Turn<'a> {
    /// Power off if it is on, and then power on.
    On,
    /// Power off.
    Off,
    /// Sends these bytes to the card's end of the link.
    Block(&'a [u8]),
}

/// The result of a turn, with its block.
#[derive(Drop)]
pub enum Item {
    /// The card booted, and gave its answer to reset.
    Atr,
    /// Power is off, as requested.
    Quiet,
    /// No answer: power is off, or power-on fails.
    Mute,
    /// Power was lost, and is off.
    Dark,
    /// The block that the card's end sent.
    Reply(BlockBytes),
}

impl Item {
    /// Returns true if both results are the same.
    pub fn is_same(&self, other: &Item) -> bool
        ensures { IsTrue result ↔ (self.now ≡ other.now) }
    {
        match (self, other) {
            (Item::Atr, Item::Atr)
            | (Item::Quiet, Item::Quiet)
            | (Item::Mute, Item::Mute)
            | (Item::Dark, Item::Dark) => true,
            (Item::Reply(left), Item::Reply(right)) => left.as_slice() == right.as_slice(),
            _ => false,
        }
    }
}
