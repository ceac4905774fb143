//! Bytes sent in a chain of I-blocks.

ghost use Rattle.std.specs.Prelude.{◌≡◌, ◌≤◌, ◌==◌, length, not};
ghost use Rattle.t1_link.specs.CutParts.{cut, last_piece, loaded, no_pieces};
ghost use Rattle.t1_link.specs.SequenceNumbers.{other_number, same};
ghost use Rattle.t1_link.specs.SpokenParts.{block_of};

use crate::block::{Block, Piece};
use crate::sequence_number::SequenceNumber;
use arrayvec::ArrayVec;
use std::marker::Model;

/// The most bytes of a command: header, Lc, 255 bytes, Le.
/// It also bounds what an end sends, as an answer has fewer bytes.
pub const LONGEST_COMMAND: usize = 261;

/// Bytes to send in I-blocks: next number, last piece, and rest.
#[derive(Drop)]
pub(crate) struct Outgoing {
    number: SequenceNumber,
    bytes: ArrayVec<u8, LONGEST_COMMAND>,
    start: usize,
    end: usize,
}

impl Model for Outgoing {
    ghost use Rattle.std.specs.Prelude.{◌≤◌, length, slice_range, drop};
    ghost use Rattle.t1_link.specs.CutParts.{Pieces, IsPlaced};

    ghost Value = { Pieces };

    ghost view = { λ o. record {
      number = o.number;
      field = slice_range o.bytes.items o.start o.end;
      rest = drop o.end o.bytes.items;
    } };

    ghost invariant = { λ o. IsPlaced o.bytes.items o.start o.end };
}

impl Outgoing {
    /// Returns an empty buffer, as after power-on.
    pub(crate) fn new() -> Outgoing
        ensures { result ≡ no_pieces }
    {
        Outgoing {
            number: SequenceNumber::Zero,
            bytes: ArrayVec::new(),
            start: 0,
            end: 0,
        }
    }

    /// Returns a second buffer in the same state.
    pub(crate) fn twin(&self) -> Outgoing
        ensures { result ≡ self.now }
    {
        let mut bytes = ArrayVec::new();
        bytes.try_extend_from_slice(self.bytes.as_slice()).unwrap();
        Outgoing {
            number: self.number,
            bytes,
            start: self.start,
            end: self.end,
        }
    }

    /// Loads new bytes to send. The sequence number continues.
    pub(crate) fn load(&mut self, bytes: &[u8])
        requires { length bytes.now ≤ LONGEST_COMMAND }
        ensures { self.new ≡ loaded self.old bytes.now }
    {
        self.start = 0;
        self.end = 0;
        self.bytes.clear();
        self.bytes.try_extend_from_slice(bytes).unwrap();
    }

    /// Takes the next piece, at most `size` bytes, for an I-block.
    pub(crate) fn cut(&mut self, size: usize)
        ensures after { self.new ≡ cut self.old size }
        ensures bound { length self.new.field ≤ size }
    {
        self.start = self.end;
        self.end += size.min(self.bytes.len() - self.end);
        self.number = self.number.other();
    }

    /// Returns the I-block with the last piece.
    pub(crate) fn last_block(&self) -> Block<'_>
        ensures { block_of result ≡ last_piece self.now }
    {
        Block::Information(Piece {
            number: self.number.other(),
            more: self.has_more(),
            field: &self.bytes.as_slice()[self.start..self.end],
        })
    }

    /// Returns true if the I-block of the last piece has this number.
    pub(crate) fn is_last(&self, number: SequenceNumber) -> bool
        ensures { result ≡ same number (other_number self.now.number) }
    {
        number != self.number
    }

    /// Returns true if bytes remain to be sent.
    pub(crate) fn has_more(&self) -> bool
        ensures { result ≡ not (length self.now.rest == 0) }
    {
        self.end < self.bytes.len()
    }
}
