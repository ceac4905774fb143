//! The reader's end of T=1.

ghost use Rattle.std.specs.Prelude.{◌≡◌, ◌≢◌, ◌≤◌, ◌++◌, ◌<◌, ◌↔◌, ◌+◌, ◌&&◌, IsTrue, if◌then◌else◌, length};
ghost use Rattle.std.specs.Prelude.{nat_lt, not, Ok};
ghost use Rattle.t1_link.specs.Blocks.{field_of};
ghost use Rattle.t1_link.specs.ReaderTable.{reader_step, advancing, asking, failing, fresh_reader, last_block};
ghost use Rattle.t1_link.specs.ReaderTable.{reader_sends, reader_times_out};
ghost use Rattle.t1_link.specs.ReaderTable.{requesting, requesting_again, sends, trying, turns_answer, turns_block};
ghost use Rattle.t1_link.specs.ReaderTable.{turns_information, turns_receive_ready, turns_resynch};
ghost use Rattle.t1_link.specs.ReaderFields.{HasAnswer, IsSend, left_in, next_of};
ghost use Rattle.t1_link.specs.EndParts.{Says, Turns};
ghost use Rattle.t1_link.specs.SpokenParts.{block_of, spoken};

use crate::block::{Block, BlockBytes, ErrorKind, FIELD_LIMIT, Fault, Piece};
use crate::card_end::{AnswerBytes, LONGEST_ANSWER};
use crate::outgoing::{LONGEST_COMMAND, Outgoing};
use crate::sequence_number::SequenceNumber;
use arrayvec::ArrayVec;
use std::marker::Model;

/// The number of tries before a RESYNCH request.
const TRIES: u8 = 3;

/// The number of RESYNCH requests before the link is given up.
const RESYNCHS: u8 = 3;

/// The fewest bytes of an answer: a status word.
const SHORTEST_ANSWER: usize = 2;

/// The state of the reader's end: idle, busy or dead.
#[derive(Clone, Copy)]
pub enum Phase {
    /// No command is in progress.
    Idle,
    /// A command is in progress, and a block is under way.
    Busy,
    /// The link is given up until the next power-on.
    Dead,
}

/// Why a command failed.
#[derive(Clone, Copy)]
pub enum Failure {
    /// The card no longer answers.
    LinkLost,
    /// The card's answer is longer than 258 or shorter than 2 bytes.
    BadAnswer,
}

/// What the caller does next.
/// A block goes with `Send`, in the buffer, and an answer with `Done`, in the reader's end.
#[derive(Clone, Copy)]
pub enum Next {
    /// Send the block in the buffer.
    Send,
    /// The command ran, and `ReaderEnd::answer` returns its answer.
    Done,
    /// The link was resynchronised; it is unknown whether the command ran.
    Unknown,
    /// No answer will come.
    Failed(Failure),
}

/// The reader's end of T=1: numbers, chain to send, received answer.
#[derive(Drop)]
pub struct ReaderEnd {
    expected: SequenceNumber,
    tries: u8,
    resynchs: u8,
    command: Outgoing,
    answer: AnswerBytes,
    phase: Phase,
}

impl Model for ReaderEnd {
    ghost use Rattle.t1_link.specs.ReaderTable.{Reader};

    ghost Value = { Reader };

    ghost use Rattle.t1_link.specs.ReaderFields.{reader_of, IsSendable};

    ghost view = { reader_of };

    ghost invariant = { IsSendable };
}

impl ReaderEnd {
    /// Returns the reader's end after power-on.
    pub fn new() -> ReaderEnd
        ensures { result ≡ fresh_reader }
    {
        ReaderEnd {
            expected: SequenceNumber::Zero,
            tries: 0,
            resynchs: 0,
            command: Outgoing::new(),
            answer: ArrayVec::new(),
            phase: Phase::Idle,
        }
    }

    /// Returns a second end in the same state.
    pub fn twin(&self) -> ReaderEnd
        ensures { result ≡ self.now }
    {
        let mut answer = ArrayVec::new();
        answer
            .try_extend_from_slice(self.answer.as_slice())
            .unwrap();
        ReaderEnd {
            expected: self.expected,
            tries: self.tries,
            resynchs: self.resynchs,
            command: self.command.twin(),
            answer,
            phase: self.phase,
        }
    }

    /// Returns true while a command is in progress.
    /// That is after `Send`, until `Done`, `Unknown` or `Failed`.
    pub fn busy(&self) -> bool
        ensures { IsTrue result ↔ (self.now.phase ≡ Phase.Busy) }
    {
        match self.phase {
            Phase::Busy => true,
            Phase::Idle | Phase::Dead => false,
        }
    }

    /// Resets to the state after power-on.
    pub fn reset(&mut self)
        ensures { self.new ≡ fresh_reader }
    {
        *self = ReaderEnd::new();
    }

    /// Returns the bytes of the answer received so far.
    /// After `Done` it is the whole answer, until the next command or `reset`.
    pub fn answer(&self) -> &[u8]
        ensures bytes { result.now ≡ self.now.answer }
        ensures fits { length result.now ≤ LONGEST_ANSWER }
    {
        self.answer.as_slice()
    }

    /// Sends a command of 1 to 261 bytes: writes its first block.
    pub fn send(&mut self, command: &[u8], out: &mut BlockBytes) -> Next
        requires idle { self.old.phase ≢ Phase.Busy }
        requires some { 1 ≤ length command.now }
        requires size { length command.now ≤ LONGEST_COMMAND }
        ensures state { self.new ≡ (reader_sends self.old command.now).reader }
        ensures next { result ≡ next_of (reader_sends self.old command.now).outcome }
        ensures out { out.new ≡ left_in (reader_sends self.old command.now).outcome out.old }

        // A command is in progress if and only if a block is to be sent.
        ensures busy { IsSend result ↔ (self.new.phase ≡ Phase.Busy) }
    {
        if let Phase::Dead = self.phase {
            return Next::Failed(Failure::LinkLost);
        }
        self.phase = Phase::Busy;
        self.answer.clear();
        self.command.load(command);
        self.advance(out)
    }

    /// Takes a block of any bytes, and writes the block to send.
    /// If no block is to be sent, the buffer stays unchanged.
    #[tactic(auto, unfolding(crate::specs::ReaderTable::turns_block))]
    pub fn got(&mut self, got: &[u8], out: &mut BlockBytes) -> Next
        requires { self.old.phase ≡ Phase.Busy }
        ensures state { self.new ≡ (reader_step self.old got.now).reader }
        ensures next { result ≡ next_of (reader_step self.old got.now).outcome }
        ensures out { out.new ≡ left_in (reader_step self.old got.now).outcome out.old }

        // After `Done` the reader's end stores the answer.
        ensures answer { HasAnswer (reader_step self.old got.now).outcome self.new }

        // The command stays in progress if and only if a block is to be sent.
        ensures busy { IsSend result ↔ (self.new.phase ≡ Phase.Busy) }
    {
        let heard = Block::parse(got);
        if self.resynchs > 0 {
            return self.take_resynch(heard, out);
        }
        match heard {
            Err(fault) => self.ask(fault.error_kind(), out),
            Ok(block) => self.take_block(block, out),
        }
    }

    /// Reacts to a timeout, and writes the block to send.
    /// If no block is to be sent, the buffer stays unchanged.
    pub fn timed_out(&mut self, out: &mut BlockBytes) -> Next
        requires { self.old.phase ≡ Phase.Busy }
        ensures state { self.new ≡ (reader_times_out self.old).reader }
        ensures next { result ≡ next_of (reader_times_out self.old).outcome }
        ensures out { out.new ≡ left_in (reader_times_out self.old).outcome out.old }

        // The command stays in progress if and only if a block is to be sent.
        ensures busy { IsSend result ↔ (self.new.phase ≡ Phase.Busy) }
    {
        if self.resynchs > 0 {
            return self.request_again(out);
        }
        self.ask(ErrorKind::OtherError, out)
    }

    /// Reacts to a valid block while the answer is awaited.
    #[tactic(auto, unfolding(crate::specs::ReaderTable::turns_block))]
    fn take_block(&mut self, block: Block<'_>, out: &mut BlockBytes) -> Next
        requires { self.old.resynchs ≡ 0 }
        ensures { Turns (turns_block self.old (Ok (block_of block.entry))) self.new result out.old out.new }
    {
        match block {
            Block::ReceiveReady { number, .. } => self.take_receive_ready(number, out),
            Block::Information(piece) => self.take_information(piece, out),
            _ => self.ask(ErrorKind::OtherError, out),
        }
    }

    /// Reacts to a received block after a request for RESYNCH.
    #[tactic(auto, unfolding(crate::specs::ReaderTable::turns_resynch))]
    fn take_resynch(&mut self, heard: Result<Block<'_>, Fault>, out: &mut BlockBytes) -> Next
        ensures { Turns (turns_resynch self.old (spoken heard.entry)) self.new result out.old out.new }
    {
        if let Ok(Block::ResynchResponse) = heard {
            self.reset();
            return Next::Unknown;
        }
        self.request_again(out)
    }

    /// Reacts to an R-block.
    fn take_receive_ready(&mut self, number: SequenceNumber, out: &mut BlockBytes) -> Next
        requires { self.old.resynchs ≡ 0 }
        ensures { Turns (turns_receive_ready self.old number) self.new result out.old out.new }
    {
        if self.command.is_last(number) {
            self.send_again(out)
        } else if self.command.has_more() {
            self.advance(out)
        } else {
            self.ask(ErrorKind::OtherError, out)
        }
    }

    /// Reacts to an I-block.
    fn take_information(&mut self, piece: Piece<'_>, out: &mut BlockBytes) -> Next
        requires { self.old.resynchs ≡ 0 }
        ensures { Turns (turns_information self.old piece.entry.number piece.entry.more piece.entry.field.now)
            self.new result out.old out.new }
    {
        if self.command.has_more() || piece.number != self.expected {
            return self.ask(ErrorKind::OtherError, out);
        }
        self.take_answer(piece.more, piece.field, out)
    }

    /// Appends the bytes of an I-block to the answer.
    fn take_answer(&mut self, more: bool, field: &[u8], out: &mut BlockBytes) -> Next
        ensures { Turns (turns_answer self.old more (self.old.answer ++ field.now)) self.new result out.old out.new }
    {
        let size = self.answer.len() + field.len();
        if is_too_short(size, more) || size > self.answer.capacity() {
            return self.fail(Failure::BadAnswer);
        }
        self.answer.try_extend_from_slice(field).unwrap();
        self.expected = self.expected.other();
        if more {
            self.tries = 0;
            return sent(
                Block::ReceiveReady {
                    number: self.expected,
                    error: ErrorKind::ErrorFree,
                },
                out,
            );
        }
        self.phase = Phase::Idle;
        Next::Done
    }

    /// Sends the next I-block of the command.
    fn advance(&mut self, out: &mut BlockBytes) -> Next
        ensures { Turns (advancing self.old self.old.rest) self.new result out.old out.new }
    {
        self.command.cut(FIELD_LIMIT);
        self.tries = 0;
        self.last_block(out)
    }

    /// Writes the last I-block into the buffer.
    fn last_block(&self, out: &mut BlockBytes) -> Next
        ensures { Says (sends (last_block self.now)) result out.old out.new }
    {
        sent(self.command.last_block(), out)
    }

    /// Sends the last I-block again, which counts as a try.
    fn send_again(&mut self, out: &mut BlockBytes) -> Next
        requires { self.old.resynchs ≡ 0 }
        ensures { Turns (trying self.old (last_block self.old)) self.new result out.old out.new }
    {
        if self.counts_try() {
            self.last_block(out)
        } else {
            self.request(out)
        }
    }

    /// Sends an R-block with the expected number, which counts as a try.
    fn ask(&mut self, error: ErrorKind, out: &mut BlockBytes) -> Next
        requires { self.old.resynchs ≡ 0 }
        ensures { Turns (asking self.old error) self.new result out.old out.new }
    {
        if self.counts_try() {
            sent(
                Block::ReceiveReady {
                    number: self.expected,
                    error,
                },
                out,
            )
        } else {
            self.request(out)
        }
    }

    /// Counts a try, and returns false if none is left.
    fn counts_try(&mut self) -> bool
        ensures left { result ≡ nat_lt self.old.tries 3 }
        ensures state { self.new ≡ (if result then record self.old { tries = self.old.tries + 1 } else self.old) }
    {
        if self.tries < TRIES {
            self.tries += 1;
            true
        } else {
            false
        }
    }

    /// Sends a request for RESYNCH.
    fn request(&mut self, out: &mut BlockBytes) -> Next
        requires { self.old.resynchs < 3 }
        ensures { Turns (requesting self.old) self.new result out.old out.new }
    {
        self.resynchs += 1;
        sent(Block::ResynchRequest, out)
    }

    /// Requests RESYNCH again, or gives up the link after three requests.
    fn request_again(&mut self, out: &mut BlockBytes) -> Next
        ensures { Turns (requesting_again self.old) self.new result out.old out.new }
    {
        if self.resynchs < RESYNCHS {
            self.request(out)
        } else {
            self.fail(Failure::LinkLost)
        }
    }

    /// Gives up the link.
    fn fail(&mut self, failure: Failure) -> Next
        ensures state { self.new ≡ (failing self.old failure).reader }
        ensures next { result ≡ next_of (failing self.old failure).outcome }
    {
        self.phase = Phase::Dead;
        Next::Failed(failure)
    }
}

/// Returns true if an answer ends with fewer than 2 bytes.
fn is_too_short(size: usize, more: bool) -> bool
    ensures { result ≡ (not more && nat_lt size 2) }
{
    !more && size < SHORTEST_ANSWER
}

/// Writes a block to send into the buffer.
fn sent(block: Block<'_>, out: &mut BlockBytes) -> Next
    requires { length (field_of (block_of block)) ≤ 254 }
    ensures { Says (sends (block_of block.entry)) result out.old out.new }
{
    block.write(out);
    Next::Send
}
