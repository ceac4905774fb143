//! A card at its desk.
ghost use Rattle.std.specs.Prelude.{◌≡◌, ◌↔◌, None, IfOk, IsTrue, is_some, true};
ghost use Rattle.bench_lines.specs.Orders.{IsOrderSized};
ghost use Rattle.bench_lines.specs.OrderViews.{order_with};
ghost use Rattle.bench_turns.specs.BenchStates.{bench_facts};
ghost use Rattle.command_base.specs.Finding.{HasCard};
ghost use Rattle.card_bench.specs.Charges.{MayCompare};
ghost use Rattle.card_bench.specs.Prints.{desk_of};
ghost use Rattle.simulated_boards.specs.Cut.{cut_facts};
ghost use Rattle.card_calls.specs.FirstWrites.{HasNoCharge, RunsAhead, TellsFirst};
ghost use Rattle.card_calls.specs.SessionStates.{begun_at, session_facts};
ghost use Rattle.card_calls.specs.Telling.{BeginsOrder, CopiesWords, IsAnnounced, TellsResult, cleared};
ghost use Rattle.card_calls.specs.Telling.{outcome_number, state_bits};
ghost use Rattle.card_calls.specs.WriteCalls.{TakesNext, device_number};

use card_bench::{ALL_WORDS, Desk, Order, cuts_next, may_compare};
use card_calls::{
    Announced, CallOutcome, DeviceBoard, NextWrite, OrderResult, Write, bit, copy_if_fits,
    first_write, followed, forget, has_device, is_of_bytes, is_stored, next_write, renewed,
    stored_after, twin_board, unfollowed,
};
use card_turns::Bench;
use core::mem::{replace, replace_with};
use nvm_board::has_no_fault;
use simulated_boards::CutBoard;
use std::alloc::{AllocError, Global};
use std::marker::Model;

/// A card at its desk. Its memory always has a card state after recovery, and its board never has a fault.
#[derive(Drop)]
pub struct Session {
    desk: Desk<Bench<DeviceBoard>>,
    /// True if the card's device didn't take a write.
    behind: bool,
    /// The writes that the device has of all that the board made, modulo 2^64.
    stored: u64,
    /// The order whose first write was handed out last, until an order runs.
    announced: Option<Announced>,
    /// The number of the device.
    device: Option<i32>,
    /// The board of a second card, which tells the first write of an order. Only a card with a device has one.
    second: Option<DeviceBoard>,
}

impl Model for Session {
    ghost use Rattle.std.specs.Coded.{codes};
    ghost use Rattle.card_model.specs.Sessions.{session_code};
    ghost use Rattle.bench_turns.specs.BenchStates.{bench_facts};
    ghost use Rattle.bench_turns.specs.Plays.{IsGood};
    ghost use Rattle.std.specs.Prelude.{option_map};
    ghost use Rattle.card_calls.specs.FirstWrites.{IsTold, announcement};
    ghost use Rattle.card_calls.specs.Devices.{HasTwin};
    ghost use Rattle.card_calls.specs.InStep.{IsInStep};
    ghost use Rattle.card_calls.specs.SessionStates.{SessionState};

    ghost Value = { SessionState };

    ghost coded = { Prim.hlevel (codes, session_code) };

    ghost view = { λ s. record {
      desk = s.desk.desk;
      behind = s.behind;
      stored = s.stored;
      announced = option_map announcement s.announced;
      device = s.device;
    } };

    ghost invariant = { λ s. IsGood s.desk.desk.bench × IsInStep s.desk.desk
        × IsTold (option_map announcement s.announced) s.desk.desk
        × HasTwin s.second (bench_facts s.desk.desk.bench) };
}

impl Session {
    /// Returns a session with this board, with power off. The device of this number has the board's words already.
    ///
    /// # Errors
    /// There is too little memory for the log of a device, or for the board of a second card.
    #[tactic(auto, using(card_calls::proofs::InStepLaws::step_none, card_calls::proofs::TwinLaws::twin_begins))]
    pub fn new(alloc: Global, board: CutBoard, device: Option<i32>) -> Result<Session, AllocError>
        requires { HasCard (cut_facts board).words }
        ensures { IfOk result (λ session. session ≡ begun_at (cut_facts board) device) }
    {
        let (board, second) = match device {
            Some(_) => {
                let board = followed(alloc, board)?;
                let second = twin_board(alloc, &board)?;
                (board, Some(second))
            }
            None => (unfollowed(board), None),
        };
        has_no_fault(&board);
        Ok(Session {
            desk: Desk::new(board),
            behind: false,
            stored: 0,
            announced: None,
            device,
            second,
        })
    }

    /// Runs an order, and returns its result. A buffer with room for any answer has its bytes then. The writes of a
    /// card with a device are then to be stored, before anybody sees the result. Of an order with a charge the device
    /// has the first write already.
    ///
    /// # Errors
    /// `Unstored` if the card's device didn't take a write, or lacks one of an earlier order, or if the order has a
    /// charge that wasn't announced. Then no order runs. Also if the order began with another write than the announced
    /// one. Then the device is behind.
    #[tactic(auto, using(card_calls::proofs::OrderLaws::held_back, card_calls::proofs::TwinLaws::twin_stays))]
    pub fn perform(
        &mut self,
        order: Order,
        given: &[u8],
        out: &mut [u8],
    ) -> Result<OrderResult, CallOutcome>
        requires { IsOrderSized (order_with order given.now) }
        ensures { TellsResult (order_with order given.now) self.old self.new out.old out.new result }
    {
        let is_charged = self.begin(order, given)?;
        is_of_bytes(order, given);
        let came = self.desk.perform(order, given);
        let board = self.desk.board();
        let after = stored_after(board, self.stored, is_charged, &self.announced);
        forget(&mut self.announced);
        let Some(stored) = after else {
            self.fall_behind();
            return Err(CallOutcome::Unstored);
        };
        self.stored = stored;
        let size = copy_if_fits(self.desk.bytes(came), out);
        Ok(OrderResult { came, size })
    }

    /// Returns whether an order has a charge. Then its first write was announced.
    ///
    /// # Errors
    /// `Unstored`: the order may not run.
    #[tactic(auto, using(card_calls::proofs::OrderLaws::begins_order))]
    fn begin(&self, order: Order, given: &[u8]) -> Result<bool, CallOutcome>
        ensures { BeginsOrder (order_with order given.now) self.now result }
    {
        if self.behind || !is_stored(self.desk.board(), self.stored) {
            return Err(CallOutcome::Unstored);
        }
        let is_charged = self.has_charge(order, given);
        if is_charged && !self.is_announced(order, given) {
            return Err(CallOutcome::Unstored);
        }
        Ok(is_charged)
    }

    /// Returns true if the first write of this order was announced.
    #[tactic(auto, using(card_calls::proofs::OrderLaws::announced_of, card_calls::proofs::OrderLaws::of_announced, card_calls::proofs::OrderLaws::none_announced))]
    fn is_announced(&self, order: Order, given: &[u8]) -> bool
        ensures { IsTrue result ↔ IsAnnounced (order_with order given.now) self.now }
    {
        match &self.announced {
            Some(announced) => announced.is_of(order, given),
            None => false,
        }
    }

    /// Returns the first device write of an order that can compare a PIN: the charge, which its device has before the
    /// order runs. The order is announced with it.
    #[tactic(auto, using(card_calls::proofs::FirstWriteLaws::tells_none))]
    pub fn first_write(&mut self, order: Order, given: &[u8]) -> Option<Write>
        requires { IsOrderSized (order_with order given.now) }
        ensures { TellsFirst (order_with order given.now) self.old self.new result }
    {
        if self.has_charge(order, given) {
            self.announce(order, given)
        } else {
            None
        }
    }

    /// Returns the first device write of an order that can compare a PIN, and announces the order with it. This is a
    /// function of its own, so that where an order has no charge, the usual case, no place for it is blanked.
    #[tactic(auto, using(card_calls::proofs::FirstWriteLaws::tells_announced))]
    #[inline(never)]
    fn announce(&mut self, order: Order, given: &[u8]) -> Option<Write>
        requires sized { IsOrderSized (order_with order given.now) }
        requires compares { MayCompare (order_with order given.now) }
        requires logged { is_some (session_facts self.old).log ≡ true }
        ensures { TellsFirst (order_with order given.now) self.old self.new result }
    {
        let first = self.run_ahead(order, given);
        self.announced = Some(Announced::new(order, given, first));
        first
    }

    /// Returns the first device write of an order. A second card, which loses power in that write, tells it. Its board
    /// was made with this card, so no memory is wanted.
    fn run_ahead(&mut self, order: Order, given: &[u8]) -> Option<Write>
        requires sized { IsOrderSized (order_with order given.now) }
        requires compares { MayCompare (order_with order given.now) }
        requires logged { is_some (session_facts self.old).log ≡ true }
        ensures first { RunsAhead (order_with order given.now) self.old result }
        ensures same { self.new ≡ self.old }
    {
        let board = renewed(replace(&mut self.second, None).unwrap(), self.desk.board());
        let mut second = self.desk.twin(board);
        let cut = Order::Cut {
            number: 1,
            mask: ALL_WORDS,
        };
        second.perform(cut, &[]);
        second.perform(order, given);
        let first = first_write(second.board());
        self.second = Some(second.into_board());
        first
    }

    /// Returns false if an order has no charge.
    #[tactic(auto, using(card_calls::proofs::FirstWriteLaws::charge_there))]
    fn has_charge(&self, order: Order, given: &[u8]) -> bool
        ensures compares { IsTrue result → MayCompare (order_with order given.now) }
        ensures charge { IsTrue result → ¬ HasNoCharge (order_with order given.now) self.now }
        ensures none { ¬ IsTrue result → HasNoCharge (order_with order given.now) self.now }
        ensures logged { IsTrue result → is_some (session_facts self.now).log ≡ true }
    {
        let board = self.desk.board();
        may_compare(order, given)
            && has_device(board)
            && !self.behind
            && !cuts_next(board.arm_pending())
    }

    /// Returns the next write that the device lacks. From then on it counts as stored.
    ///
    /// # Errors
    /// `Unstored` if the device didn't take a write, or the log has lost this one.
    pub fn take_write(&mut self) -> Result<Option<Write>, CallOutcome>
        ensures { TakesNext self.old self.new result }
    {
        if self.behind {
            return Err(CallOutcome::Unstored);
        }
        match next_write(self.desk.board(), self.stored) {
            NextWrite::Nothing => Ok(None),
            NextWrite::Write(write) => {
                self.stored = self.stored.wrapping_add(1);
                Ok(Some(write))
            }
            NextWrite::Lost => {
                self.fall_behind();
                Err(CallOutcome::Unstored)
            }
        }
    }

    /// Takes note that the device didn't take a write.
    pub fn fall_behind(&mut self)
        ensures { self.new ≡ record self.old { behind = true } }
    {
        self.behind = true;
    }

    /// Returns the number of the device, or 0.
    pub fn device(&self) -> i32
        ensures { result ≡ device_number self.now.device }
    {
        match self.device {
            Some(device) => device,
            None => 0,
        }
    }

    /// Returns what the card is in, as a number.
    pub fn state(&self) -> u32
        ensures { result ≡ state_bits self.now }
    {
        let line = self.desk.line();
        bit(self.desk.is_on(), 1)
            + bit(has_device(self.desk.board()), 2)
            + bit(self.desk.board().pending(), 4)
            + bit(line.loses(), 8)
            + bit(line.garbles(), 16)
            + bit(self.behind, 32)
    }

    /// Takes back the cut, the loss and the garbling that are to come, and switches power off.
    #[tactic(auto, using(card_calls::proofs::InStepLaws::step_none, card_calls::proofs::TwinLaws::twin_cleared))]
    pub fn clear_faults(&mut self)
        ensures { self.new ≡ cleared self.old }
    {
        self.announced = None; // (it was told of the desk with power)
        replace_with(&mut self.desk, (), cleared_desk);
    }

    /// Copies the memory's words to the start of a buffer that has room for them all. Returns their number.
    pub fn copy_words(&self, out: &mut [u32]) -> (CallOutcome, usize)
        ensures { CopiesWords (bench_facts self.now.desk.bench).words out.old out.new result.1
            (outcome_number result.0) }
    {
        let words = self.desk.board().words();
        if out.len() < words.len() {
            return (CallOutcome::Size, words.len());
        }
        out[..words.len()].copy_from_slice(words);
        (CallOutcome::Done, words.len())
    }
}

/// Returns the desk with a perfect line, power off, and no cut to come.
fn cleared_desk(desk: Desk<Bench<DeviceBoard>>, _: ()) -> (Desk<Bench<DeviceBoard>>, ())
    ensures { result.0.desk ≡ desk_of (record (bench_facts desk.desk.bench) { due = 0; pending = None }) }
{
    let mut board = desk.into_board();
    board.disarm();
    (Desk::new(board), ())
}
