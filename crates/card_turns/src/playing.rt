//! A bench that plays turns: power on, power off, and blocks to the card's end of the link.
ghost use Rattle.std.specs.Prelude.{◌≡◌, ◌≤◌, ◌↔◌, ℕ, List, length, true, IsTrue};
ghost use Rattle.nvm_board.specs.Aims.{due_of};
ghost use Rattle.bench_turns.specs.BenchStates.{off, bench_facts, BenchHasCard, IsOn, IsWell, TellsFree, IsArmed};
ghost use Rattle.bench_turns.specs.BenchStates.{with_facts};
ghost use Rattle.card_turns.specs.BenchViews.{power_state, IsPowerKept};
ghost use Rattle.bench_turns.specs.FaultTurns.{IsTraceWithFaults};
ghost use Rattle.bench_turns.specs.Guessing.{GuessesFew};
ghost use Rattle.bench_turns.specs.Plays.{Plays, PlaysBlock, BringsNoFault, TellsItem};
ghost use Rattle.bench_turns.specs.Turns.{CountsLosses, IsTrace, Runs, darks};

use crate::powered::Powered;
use bench_turns::{Item, Turn, TurnPlayer, TurnResult, Twinned};
use card_core::FreeSpace;
use card_start::StartFault;
use core::mem::replace_with;
use nvm_board::{Armed, Faultless, Socket, has_no_fault};
use std::marker::Model;
use t1_link::BlockBytes;

/// The board with power off, or the powered card.
#[derive(Drop)]
enum Power<B: Socket> {
    Off(B),
    On(Powered<B>),
}

/// A bench: its board, and with power on session and link.
#[derive(Drop)]
pub struct Bench<B: Socket> {
    power: Power<B>,
}

impl<B: Socket> Model for Bench<B> {
    ghost use Rattle.std.specs.Coded.{codes};
    ghost use Rattle.card_model.specs.Sessions.{session_code};
    ghost use Rattle.bench_turns.specs.BenchStates.{BenchState};

    ghost Value = { BenchState };

    ghost coded = { Prim.hlevel (codes, session_code) };

    ghost use Rattle.card_turns.specs.BenchViews.{power_state, IsPowerKept};

    ghost view = { λ b. power_state B.facts b.power };

    ghost invariant = { λ b. IsPowerKept B.facts b.power };
}

impl<B: Socket> Bench<B> {
    /// Returns a bench with this board, with power off.
    pub fn new(board: B) -> Bench<B>
        ensures { result ≡ off (record (B.facts board) { dark = true }) }
    {
        let mut board = board;
        board.power_off();
        Bench {
            power: Power::Off(board),
        }
    }

    /// Plays turns in order. Item i of the trace becomes the result of turn i.
    pub fn play(&mut self, turns: &[Turn<'_>], trace: &mut [Item])
        requires { length turns.now ≡ length trace.old }
        // Whatever is cut or fails: if the memory had a card state after recovery, it has one at the end.
        ensures has_card { BenchHasCard self.old → BenchHasCard self.new }

        // The board counts one more cut for each Dark in the trace, and at most that many due cuts are used up.
        ensures counts { CountsLosses (darks trace.new) (bench_facts self.old) (bench_facts self.new) }

        // The guess law, whatever is cut or fails. Comparisons of a PIN are at most its tries before, minus those
        // after, plus 3 for each match of its value or its unblocking value. Comparisons of the unblocking value are
        // at most its tries before, minus those after, plus 10 for each of its own matches.
        ensures guesses { GuessesFew self.old self.new }

        // The headline. The memory has a card state after recovery, and the device reports no fault in the run, nor
        // since the power-on before it. Then the trace is the tree machine's, from that card state to the one after.
        ensures runs { BringsNoFault self.old self.new
            → IsWell self.new × (BenchHasCard self.old → IsTrace self.old turns.now trace.new self.new) }

        // Each turn of it also keeps to its counts, to the guess law and to the board's log. From the first device
        // write of a turn on, after each of its writes, the memory pays for all that the turn compares.
        ensures costs { BenchHasCard self.old → BringsNoFault self.old self.new
            → Runs self.old turns.now trace.new self.new }

        // The same of a device that fails. A command with a fault is answered by 6581, and so is each one after it,
        // until the next power-on. After that command nothing of the card changes. A power-on with a fault is mute, and
        // leaves the card.
        ensures faulty { BenchHasCard self.old → IsTraceWithFaults self.old turns.now trace.new self.new }
    {
        for i in 0..turns.len() {
            trace[i] = self.item(turns[i]);
        }
    }

    /// Plays a turn, and returns its result with the block.
    fn item(&mut self, turn: Turn<'_>) -> Item
        ensures { Plays self.old turn.entry result self.new }
    {
        let mut reply = BlockBytes::new();
        match self.turn(turn, &mut reply) {
            TurnResult::Atr => Item::Atr,
            TurnResult::Quiet => Item::Quiet,
            TurnResult::Mute => Item::Mute,
            TurnResult::Dark => Item::Dark,
            TurnResult::Reply => Item::Reply(reply),
        }
    }

    /// Plays a turn, and writes a returned block into the buffer.
    // Inlined into its callers, like `turn_well` and `send`, so that a known turn needs no branch at run time.
    #[inline(always)]
    fn turn(&mut self, turn: Turn<'_>, reply: &mut BlockBytes) -> TurnResult
        ensures { TellsItem result reply.new (λ item. Plays self.old turn.entry item self.new) }
    {
        match turn {
            Turn::On => self.turn_on(),
            Turn::Off => {
                self.turn_off();
                TurnResult::Quiet
            }
            Turn::Block(block) => self.send(block, reply),
        }
    }

    /// Powers the card on, after power off if it is on. No block returns.
    fn turn_on(&mut self) -> TurnResult
        ensures { (reply : List ℕ) → TellsItem result reply (λ item. Plays self.old Turn.On item self.new) }
    {
        replace_with(&mut self.power, (), Power::start)
    }

    /// Switches power off.
    fn turn_off(&mut self)
        ensures { Plays self.old Turn.Off Item.Quiet self.new }
    {
        replace_with(&mut self.power, (), Power::darken);
    }

    /// Sends a block to the card's end of the link.
    #[inline(always)]
    fn send(&mut self, block: &[u8], reply: &mut BlockBytes) -> TurnResult
        ensures { TellsItem result reply.new (λ item. PlaysBlock self.old block.now item self.new) }
    {
        match &mut self.power {
            Power::Off(_) => TurnResult::Mute,
            Power::On(powered) => match powered.block(block, reply) {
                Ok(()) => TurnResult::Reply,
                Err(_) => {
                    replace_with(&mut self.power, (), Power::darken);
                    TurnResult::Dark
                }
            },
        }
    }

    /// Returns the free space of the card, with power on.
    /// It is valid as long as the memory hasn't failed.
    pub fn free(&self) -> Option<FreeSpace>
        ensures { TellsFree self.now result }
    {
        match &self.power {
            Power::Off(_) => None,
            Power::On(powered) => Some(powered.free()),
        }
    }

    /// Returns true if power is on.
    pub fn is_on(&self) -> bool
        ensures { IsTrue result ↔ IsOn self.now }
    {
        matches!(&self.power, Power::On(_))
    }

    /// The board, as it is.
    pub fn board(&self) -> &B
        ensures { B.facts result.now ≡ bench_facts self.now }
    {
        match &self.power {
            Power::Off(board) => board,
            Power::On(powered) => powered.board(),
        }
    }

    /// Returns a second bench in the same state, on a board that differs in its log at most.
    pub fn twin(&self, board: B) -> Bench<B>
        requires { B.facts board ≡ record (bench_facts self.now) { log = (B.facts board).log } }
        ensures { result ≡ with_facts self.now (B.facts board) }
    {
        Bench {
            power: match &self.power {
                Power::Off(_) => Power::Off(board),
                Power::On(powered) => Power::On(powered.twin(board)),
            },
        }
    }

    /// The board, power off.
    pub fn into_board(self) -> B
        ensures { B.facts result ≡ record (bench_facts self) { dark = true } }
    {
        let Bench { power } = self;
        power.into_dark_board()
    }
}

impl<B: Armed> Bench<B> {
    /// Sets a power cut for a later write (`Armed::arm`).
    pub fn arm(&mut self, k: u32, mask: u16)
        requires { 1 ≤ k }
        ensures { IsArmed k mask self.old self.new }
    {
        match &mut self.power {
            Power::Off(board) => board.arm(k, mask),
            Power::On(powered) => powered.arm(k, mask),
        }
    }
}

impl<B: Socket + Faultless> Bench<B> {
    /// Proves that the board has no fault, and set cuts are due.
    fn has_no_fault(&self)
        ensures faults { (bench_facts self.now).faults ≡ 0 }
        ensures due { (bench_facts self.now).due ≡ due_of (bench_facts self.now).pending }
    {
        match &self.power {
            Power::Off(board) => has_no_fault(board),
            Power::On(powered) => powered.has_no_fault(),
        }
    }
}

impl<B: Armed + Faultless> TurnPlayer for Bench<B> {
    type Board = B;

    ghost state = { λ bench. bench };

    fn new(board: B) -> Bench<B> {
        Bench::new(board)
    }

    fn play_well(&mut self, turns: &[Turn<'_>], trace: &mut [Item]) {
        self.play(turns, trace);
        self.has_no_fault();
    }

    #[inline(always)]
    fn turn_well(&mut self, turn: Turn<'_>, reply: &mut BlockBytes) -> TurnResult {
        let turned = self.turn(turn, reply);
        self.has_no_fault();
        turned
    }

    fn arm_well(&mut self, k: u32, mask: u16) {
        self.arm(k, mask);
        self.has_no_fault();
    }

    fn free(&self) -> Option<FreeSpace> {
        Bench::free(self)
    }

    fn is_on(&self) -> bool {
        Bench::is_on(self)
    }

    fn board(&self) -> &B {
        Bench::board(self)
    }

    fn into_board(self) -> B {
        Bench::into_board(self)
    }
}

impl<B: Armed + Faultless> Twinned for Bench<B> {
    fn twin(&self, board: B) -> Bench<B> {
        Bench::twin(self, board)
    }
}

impl<B: Socket> Power<B> {
    /// Returns the board, with power off.
    fn into_dark_board(self) -> B
        ensures { B.facts result ≡ record (bench_facts (power_state B.facts self)) { dark = true } }
    {
        let mut board = match self {
            Power::Off(board) => board,
            Power::On(powered) => powered.into_board(),
        };
        board.power_off();
        board
    }

    /// Switches power off.
    fn darken(self, _: ()) -> (Power<B>, ())
        ensures off { power_state B.facts result.0
            ≡ off (record (bench_facts (power_state B.facts self)) { dark = true }) }
        ensures kept { IsPowerKept B.facts result.0 }
    {
        (Power::Off(self.into_dark_board()), ())
    }

    /// Powers the card on, after power off if it is on.
    fn start(self, _: ()) -> (Power<B>, TurnResult)
        ensures plays { (reply : List ℕ) → TellsItem result.1 reply
            (λ item. Plays (power_state B.facts self) Turn.On item (power_state B.facts result.0)) }
        ensures kept { IsPowerKept B.facts result.0 }
    {
        let mut board = self.into_dark_board();
        let Ok(()) = board.light() else {
            return (Power::Off(board), TurnResult::Mute);
        };
        match Powered::start(board) {
            Ok(powered) => (Power::On(powered), TurnResult::Atr),
            Err((mut board, fault)) => {
                board.power_off();
                let turned = match fault {
                    StartFault::PowerLost => TurnResult::Dark,
                    StartFault::Fault | StartFault::BadJournal | StartFault::Damaged =>
                        TurnResult::Mute,
                };
                (Power::Off(board), turned)
            }
        }
    }
}
