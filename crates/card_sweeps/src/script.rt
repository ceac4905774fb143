//! A sweep script: the preparation, the command that is cut, and the probe.
ghost use Rattle.std.specs.Prelude.{◌≡◌, ◌≢◌, ◌≤◌, ◌++◌, ◌∷◌, [], length, None, Some, Ok};
ghost use Rattle.std.specs.Prelude.{IfErr, IfOk, MatchResult, OnOk};
ghost use Rattle.bench_lines.specs.OrderViews.{order_with};
ghost use Rattle.bench_lines.specs.Orders.{IsOrderSized};
ghost use Rattle.card_sweeps.specs.Asking.{IsRead, Refuses, adds, asked_of, begins_command, begins_probe};
ghost use Rattle.card_sweeps.specs.Asking.{missing_at_end, sends, sets_depth, take_line, takes, unasked};
ghost use Rattle.card_sweeps.specs.SweepEndings.{ReadingStopsBy};

use crate::fault::{LineError, LineStop, SweepFault};
use crate::frames::{push_command, push_exchange, push_look};
use crate::steps::{OwnBlock, Step, push_block};
use bench_lines::{GivenBytes, LineBytes, LineEnd, LineFault, Order, read_line};
use std::alloc::{AllocError, Global};
use std::io::BufRead;

/// A section of the script.
#[derive(Clone, Copy)]
pub enum Section {
    /// The lines before the mark of the command. They prepare the card.
    Prepare,
    /// The lines after the mark of the command, up to the command.
    Command,
    /// The lines after the command.
    AfterCommand,
    /// The lines after the mark of the probe. They look at the card.
    Probe,
}

/// What a sweep script asks for.
#[derive(Drop)]
pub struct SweepScript {
    /// The section of the next line.
    section: Section,
    /// The steps before the last block of the command.
    pub prepare: Vec<Step>,
    /// The last block of the command. With it the card carries the command out.
    pub command: OwnBlock,
    /// The steps after the power-on for which the sweep sets no cut.
    pub probe: Vec<Step>,
    /// The number of these steps for each line of the probe.
    pub looks: Vec<usize>,
    /// The number of power-ons to cut after each cut of the command.
    pub depth: u8,
}

impl SweepScript {
    /// Returns the script before its first line.
    fn new(alloc: Global) -> Result<SweepScript, AllocError>
        ensures { IfOk result (λ script. asked_of script ≡ unasked) }
    {
        Ok(SweepScript {
            section: Section::Prepare,
            prepare: Vec::new(alloc),
            command: OwnBlock::new(alloc, &[])?,
            probe: Vec::new(alloc),
            looks: Vec::new(alloc),
            depth: 1,
        })
    }

    /// Takes a line, or returns its fault.
    #[tactic(auto, unfolding(crate::specs::Asking::take_line))]
    fn take_line(
        &mut self,
        alloc: Global,
        line: &[u8],
        given: &mut GivenBytes,
    ) -> Result<(), LineStop>
        ensures { MatchResult result
            (λ _. take_line (asked_of self.old) line.now ≡ Ok (asked_of self.new))
            (λ stop. Refuses stop (take_line (asked_of self.old) line.now)) }
    {
        // First, since a line that is too long is no mark.
        let Some(order) = Order::parse(line, given) else {
            return Err(LineStop::Bad(LineError::NoLine));
        };
        if line == b"# command".as_slice() {
            return self.begin_command();
        }
        if line == b"# probe".as_slice() {
            return self.begin_probe();
        }
        if let Some(digits) = line.strip_prefix(b"# depth ") {
            return self.set_depth(digits);
        }
        self.take_order(alloc, order, given.as_slice())
    }

    /// Begins the section of the command.
    fn begin_command(&mut self) -> Result<(), LineStop>
        ensures taken { MatchResult result
            (λ _. begins_command (asked_of self.old) self.old.section ≡ Ok (asked_of self.new))
            (λ stop. Refuses stop (begins_command (asked_of self.old) self.old.section)) }
        ensures light { IfErr result (λ stop. stop ≢ LineStop.Memory) }
    {
        match self.section {
            Section::Prepare => {
                self.section = Section::Command;
                Ok(())
            }
            Section::Command | Section::AfterCommand | Section::Probe => {
                Err(LineStop::Bad(LineError::WrongMark))
            }
        }
    }

    /// Begins the section of the probe.
    fn begin_probe(&mut self) -> Result<(), LineStop>
        ensures taken { MatchResult result
            (λ _. begins_probe (asked_of self.old) self.old.section ≡ Ok (asked_of self.new))
            (λ stop. Refuses stop (begins_probe (asked_of self.old) self.old.section)) }
        ensures light { IfErr result (λ stop. stop ≢ LineStop.Memory) }
    {
        match self.section {
            Section::AfterCommand => {
                self.section = Section::Probe;
                Ok(())
            }
            Section::Command => Err(LineStop::Bad(LineError::NoCommand)),
            Section::Prepare | Section::Probe => Err(LineStop::Bad(LineError::WrongMark)),
        }
    }

    /// Sets the number of power-ons to cut.
    fn set_depth(&mut self, digits: &[u8]) -> Result<(), LineStop>
        ensures taken { MatchResult result
            (λ _. sets_depth (asked_of self.old) digits.now ≡ Ok (asked_of self.new))
            (λ stop. Refuses stop (sets_depth (asked_of self.old) digits.now)) }
        ensures light { IfErr result (λ stop. stop ≢ LineStop.Memory) }
    {
        match digits {
            [digit] if b'0' <= *digit && *digit <= b'3' => {
                self.depth = *digit - b'0';
                Ok(())
            }
            _ => Err(LineStop::Bad(LineError::NoDepth)),
        }
    }

    /// Takes an order; `given` has the bytes of its line.
    #[tactic(auto, using(crate::proofs::Stopped::memory_refuses))]
    fn take_order(&mut self, alloc: Global, order: Order, given: &[u8]) -> Result<(), LineStop>
        requires { IsOrderSized (order_with order given.now) }
        ensures { MatchResult result
            (λ _. takes (asked_of self.old) (Some (order_with order given.now)) ≡ Ok (asked_of self.new))
            (λ stop. Refuses stop (takes (asked_of self.old) (Some (order_with order given.now)))) }
    {
        match order {
            Order::Nothing | Order::Free => Ok(()),
            Order::Cut { .. } | Order::Lose(_) | Order::Garble(_) => {
                Err(LineStop::Bad(LineError::SetsFault))
            }
            Order::On => self.add(Step::On),
            Order::Off => self.add(Step::Off),
            Order::Block => {
                let block = OwnBlock::new(alloc, given)?;
                self.add(Step::Block(block))
            }
            Order::Apdu => self.send(alloc, given),
        }
    }

    /// Appends a step to the preparation or the probe.
    #[tactic(auto, using(crate::proofs::Stopped::memory_refuses))]
    fn add(&mut self, step: Step) -> Result<(), LineStop>
        ensures { MatchResult result
            (λ _. adds (asked_of self.old) self.old.section (step ∷ []) ≡ Ok (asked_of self.new))
            (λ stop. Refuses stop (adds (asked_of self.old) self.old.section (step ∷ []))) }
    {
        match self.section {
            Section::Prepare => self.prepare.push(step)?,
            Section::Probe => {
                self.probe.push(step)?;
                self.looks.push(1)?;
            }
            Section::Command | Section::AfterCommand => return Err(LineStop::Bad(
                LineError::NoCommand,
            )),
        }
        Ok(())
    }

    /// Takes a command. Between the marks it is the one that is cut.
    #[tactic(auto, using(crate::proofs::Stopped::memory_refuses))]
    fn send(&mut self, alloc: Global, command: &[u8]) -> Result<(), LineStop>
        requires { IsOrderSized (order_with Order.Apdu command.now) }
        ensures { MatchResult result
            (λ _. sends (asked_of self.old) self.old.section command.now ≡ Ok (asked_of self.new))
            (λ stop. Refuses stop (sends (asked_of self.old) self.old.section command.now)) }
    {
        match self.section {
            Section::Prepare => push_exchange(alloc, command, &mut self.prepare)?,
            Section::Probe => push_look(alloc, command, &mut self.probe, &mut self.looks)?,
            Section::Command => {
                self.command = push_command(alloc, command, &mut self.prepare)?;
                self.section = Section::AfterCommand;
            }
            Section::AfterCommand => return Err(LineStop::Bad(LineError::NoCommand)),
        }
        Ok(())
    }

    /// Returns what is missing at the end of the script.
    fn missing(&self) -> Option<LineError>
        ensures { result ≡ missing_at_end self.now.section self.now.probe.items }
    {
        match self.section {
            Section::Prepare | Section::Command => Some(LineError::NoCommand),
            Section::AfterCommand => Some(LineError::NoProbe),
            Section::Probe => {
                if self.probe.is_empty() {
                    Some(LineError::NoProbe)
                } else {
                    None
                }
            }
        }
    }
}

/// Reads a sweep script to its end.
///
/// # Errors
/// `BadLine` at the first bad line, or at the last line if something is missing; `Read` if the reader fails, or the
/// script has more than 16,777,216 bytes; `Memory`.
pub fn read_script<R: BufRead>(alloc: Global, reader: &mut R) -> Result<SweepScript, SweepFault>
    ensures read { IfOk result (λ script. IsRead (R.remaining reader.old) (R.remaining reader.new) (asked_of script)) }
    ensures stopped { IfErr result (λ fault.
        ReadingStopsBy fault (R.remaining reader.old) (R.remaining reader.new)) }
{
    let mut script = SweepScript::new(alloc)?;
    let mut line = LineBytes::new();
    let mut given = GivenBytes::new();
    let mut taken = 0;
    let mut number = 1;
    loop {
        let end = match read_line(reader, &mut taken, &mut line) {
            Ok(end) => end,
            Err(LineFault::Read) => return Err(SweepFault::Read),
            Err(LineFault::TooMuch) => return Err(SweepFault::Read),
            Err(LineFault::TooLong) => return Err(SweepFault::BadLine(number, LineError::NoLine)),
        };
        match script.take_line(alloc, line.as_slice(), &mut given) {
            Ok(()) => {}
            Err(LineStop::Bad(error)) => return Err(SweepFault::BadLine(number, error)),
            Err(LineStop::Memory) => return Err(SweepFault::Memory),
        }
        match end {
            // A line feed takes a byte, so the number of lines is limited too.
            LineEnd::LineFeed => number += 1,
            LineEnd::EndOfScript => return finished(script, number),
        }
    }
}

/// Returns the script, if nothing is missing at its end.
fn finished(script: SweepScript, number: u32) -> Result<SweepScript, SweepFault>
    ensures whole { IfOk result (λ whole. (asked_of whole ≡ asked_of script)
        × (missing_at_end whole.section whole.probe.items ≡ None)) }
    ensures missing { IfErr result (λ fault. (error : LineError) × (fault ≡ SweepFault.BadLine number error)
        × (missing_at_end script.section script.probe.items ≡ Some error)) }
{
    match script.missing() {
        Some(error) => Err(SweepFault::BadLine(number, error)),
        None => Ok(script),
    }
}
