//! The card's end of T=1.

ghost use Rattle.std.specs.Prelude.{◌≡◌, ◌++◌, ◌&&◌, not, None, IsSome, IsTrue, ◌↔◌, Some, take, Ok};
ghost use Rattle.t1_link.specs.Blocks.{IsSpellable, receive_ready};
ghost use Rattle.t1_link.specs.CardTable.{CardLink, link_step, action_of, after, answers, reply_bytes};
ghost use Rattle.t1_link.specs.CardTable.{card_takes, fresh};
ghost use Rattle.t1_link.specs.CardTable.{sending, sent_block, sent_more, takes_information, takes_receive_ready};
ghost use Rattle.t1_link.specs.EndParts.{RepliesUnchanged, TakesByTable};
ghost use Rattle.t1_link.specs.SequenceNumbers.{same};
ghost use Rattle.t1_link.specs.SpokenParts.{block_of};

use crate::block::{Block, BlockBytes, ErrorKind, Piece};
use crate::outgoing::{LONGEST_COMMAND, Outgoing};
use crate::sequence_number::SequenceNumber;
use arrayvec::ArrayVec;
use std::marker::Model;

/// The most bytes of an answer: 256 data bytes, a status word.
pub const LONGEST_ANSWER: usize = 258;

/// The bytes of an answer.
/// The card fills this plain buffer. It isn't a type of this crate, as the card doesn't depend on the link.
pub type AnswerBytes = ArrayVec<u8, LONGEST_ANSWER>;

/// The most stored bytes of a command: one more than allowed.
/// That is enough to refuse the command.
const KEPT_COMMAND: usize = LONGEST_COMMAND + 1;

/// The information field size that a reader takes after power-on, in bytes.
const FIRST_IFSD: u8 = 32;

/// What the caller does after a block.
#[derive(Clone, Copy)]
pub enum Action {
    /// Send the block in the buffer.
    Reply,
    /// Run the whole command.
    Run,
}

/// The card's end of T=1: numbers, chain to send, received command.
#[derive(Drop)]
pub struct CardEnd {
    expected: SequenceNumber,
    ifsd: u8,
    has_sent: bool,
    answer: Outgoing,
    command: ArrayVec<u8, KEPT_COMMAND>,
    waits: bool,
}

impl Model for CardEnd {
    ghost use Rattle.t1_link.specs.CardTable.{CardLink};

    ghost Value = { CardLink };

    ghost use Rattle.t1_link.specs.CardFields.{card_link, IsFitting};

    ghost view = { card_link };

    ghost invariant = { IsFitting };
}

impl CardEnd {
    /// Returns the card's end after power-on.
    pub fn new() -> CardEnd
        ensures { result ≡ record { link = fresh; waiting = None } }
    {
        CardEnd {
            expected: SequenceNumber::Zero,
            ifsd: FIRST_IFSD,
            has_sent: false,
            answer: Outgoing::new(),
            command: ArrayVec::new(),
            waits: false,
        }
    }

    /// Returns a second end in the same state.
    pub fn twin(&self) -> CardEnd
        ensures { result ≡ self.now }
    {
        let mut command = ArrayVec::new();
        command
            .try_extend_from_slice(self.command.as_slice())
            .unwrap();
        CardEnd {
            expected: self.expected,
            ifsd: self.ifsd,
            has_sent: self.has_sent,
            answer: self.answer.twin(),
            command,
            waits: self.waits,
        }
    }

    /// Returns true if a command waits for its answer.
    pub fn waiting(&self) -> bool
        ensures { IsTrue result ↔ IsSome self.now.waiting }
    {
        self.waits
    }

    /// Returns the bytes of the command that waits for its answer.
    pub fn command(&self) -> &[u8]
        requires { IsSome self.now.waiting }
        ensures { self.now.waiting ≡ Some result.now }
    {
        self.command.as_slice()
    }

    /// Takes a block of any bytes, and writes the reply.
    /// If a whole command has arrived, the buffer is empty and the caller runs the command.
    #[tactic(auto, unfolding(crate::specs::CardTable::card_takes))]
    pub fn take(&mut self, got: &[u8], out: &mut BlockBytes) -> Action
        requires { self.old.waiting ≡ None }
        ensures state { self.new ≡ after (link_step self.old.link got.now) }
        ensures action { result ≡ action_of (link_step self.old.link got.now).reaction }
        ensures block { out.new ≡ reply_bytes (link_step self.old.link got.now).reaction }

        // The two cases for the command that waits.
        ensures replied { result ≡ Action.Reply → self.new.waiting ≡ None }
        ensures waits { result ≡ Action.Run → IsSome self.new.waiting }
    {
        match Block::parse(got) {
            Err(fault) => self.receive_ready(fault.error_kind(), out),
            Ok(block) => self.take_block(block, out),
        }
    }

    /// Takes the answer of the command, and writes its first I-block.
    pub fn answer(&mut self, answer: &AnswerBytes, out: &mut BlockBytes)
        requires { IsSome self.old.waiting }
        ensures state { self.new ≡ after (answers self.old.link answer.now.items) }
        ensures block { out.new ≡ reply_bytes (answers self.old.link answer.now.items).reaction }
    {
        self.waits = false;
        self.command.clear();
        self.answer.load(answer.as_slice());
        // The action is always `Reply`, by the contract of `send_next`.
        let _ = self.send_next(out);
    }

    /// Reacts to a valid block.
    #[tactic(auto, unfolding(crate::specs::CardTable::card_takes))]
    fn take_block(&mut self, block: Block<'_>, out: &mut BlockBytes) -> Action
        requires idle { self.old.waiting ≡ None }
        requires spellable { IsSpellable (block_of block) }
        ensures { TakesByTable (card_takes self.old.link (Ok (block_of block.entry))) self.new result out.new }
    {
        match block {
            Block::ResynchRequest => {
                *self = CardEnd::new();
                Block::ResynchResponse.write(out);
                Action::Reply
            }
            Block::IfsRequest(size) => {
                self.ifsd = size;
                Block::IfsResponse(size).write(out);
                Action::Reply
            }
            Block::ResynchResponse | Block::IfsResponse(_) => {
                self.receive_ready(ErrorKind::OtherError, out)
            }
            Block::ReceiveReady { number, .. } => self.take_receive_ready(number, out),
            Block::Information(piece) => self.take_information(piece, out),
        }
    }

    /// Reacts to an I-block.
    fn take_information(&mut self, piece: Piece<'_>, out: &mut BlockBytes) -> Action
        requires { self.old.waiting ≡ None }
        ensures { TakesByTable (takes_information self.old.link piece.entry.number piece.entry.more
            piece.entry.field.now)
            self.new result out.new }
    {
        if !self.expects(piece.number) {
            return self.receive_ready(ErrorKind::OtherError, out);
        }
        keep(&mut self.command, piece.field);
        self.expected = self.expected.other();
        if piece.more {
            return self.receive_ready(ErrorKind::ErrorFree, out);
        }
        self.waits = true;
        out.clear();
        Action::Run
    }

    /// Returns true if an I-block with this number continues a command.
    /// It is false while a part of an answer remains to be sent.
    fn expects(&self, number: SequenceNumber) -> bool
        ensures { result ≡ (not (sent_more self.now.link) && same number self.now.link.nr) }
    {
        !self.answer.has_more() && number == self.expected
    }

    /// Reacts to an R-block.
    fn take_receive_ready(&mut self, number: SequenceNumber, out: &mut BlockBytes) -> Action
        requires { self.old.waiting ≡ None }
        ensures { TakesByTable (takes_receive_ready self.old.link number) self.new result out.new }
    {
        if self.has_sent && self.answer.is_last(number) {
            self.send_again(out)
        } else if self.answer.has_more() {
            self.send_next(out)
        } else {
            self.receive_ready(ErrorKind::ErrorFree, out)
        }
    }

    /// Replies with an R-block that has the expected number.
    fn receive_ready(&self, error: ErrorKind, out: &mut BlockBytes) -> Action
        ensures { RepliesUnchanged (receive_ready self.now.link.nr error) result out.new }
    {
        Block::ReceiveReady {
            number: self.expected,
            error,
        }
        .write(out);
        Action::Reply
    }

    /// Replies with the last I-block again.
    fn send_again(&self, out: &mut BlockBytes) -> Action
        requires { IsSome self.now.link.sent }
        ensures { RepliesUnchanged (sent_block self.now.link) result out.new }
    {
        self.answer.last_block().write(out);
        Action::Reply
    }

    /// Replies with the next I-block of the answer.
    fn send_next(&mut self, out: &mut BlockBytes) -> Action
        requires { self.old.waiting ≡ None }
        ensures { TakesByTable (sending self.old.link self.old.link.rest) self.new result out.new }
    {
        self.answer.cut(usize::from(self.ifsd));
        self.has_sent = true;
        self.send_again(out)
    }
}

/// Appends a field to the command, and drops the bytes past 262.
fn keep(command: &mut ArrayVec<u8, KEPT_COMMAND>, field: &[u8])
    ensures { command.new.items ≡ take 262 (command.old.items ++ field.now) }
{
    let kept = command.remaining_capacity().min(field.len());
    command.try_extend_from_slice(&field[..kept]).unwrap();
}
