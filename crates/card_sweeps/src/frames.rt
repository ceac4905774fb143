//! How a command goes to the card: as the blocks that the reader's end sends after RESYNCH.
ghost use Rattle.std.specs.Prelude.{◌≡◌, ◌≤◌, ◌<◌, ◌++◌, ◌∷◌, [], length, IfOk, OnOk};
ghost use Rattle.t1_link.specs.declared.outgoing.TheConstants.{LONGEST_COMMAND};
ghost use Rattle.card_sweeps.specs.Framing.{exchange, first_sent, last_command_block, second_sent, steps_before};

use crate::steps::{OwnBlock, Step, push_block};
use std::alloc::{AllocError, Global};
use t1_link::{BlockBytes, FIELD_LIMIT, Next, ReaderEnd};

/// RESYNCH. Both ends begin anew, so the blocks after it don't depend on those before it.
const RESYNCH: [u8; 4] = [0x00, 0xC0, 0x00, 0xC0];

/// The card may send information fields of 254 bytes, so no answer has more than two blocks.
const FIELD_SIZE: [u8; 5] = [0x00, 0xC1, 0x01, 0xFE, 0x3E];

/// R(1) asks for the I-block after one with number 0.
const READY: [u8; 4] = [0x00, 0x90, 0x00, 0x90];

/// Appends the steps that send all blocks of a command but the last, and returns the last.
///
/// # Errors
/// There is too little memory.
pub fn push_command(
    alloc: Global,
    command: &[u8],
    steps: &mut Vec<Step>,
) -> Result<OwnBlock, AllocError>
    requires some { 1 ≤ length command.now }
    requires size { length command.now ≤ LONGEST_COMMAND }
    ensures steps { OnOk result (steps.new.items ≡ steps.old.items ++ steps_before command.now) }
    ensures last { IfOk result (λ last. last ≡ last_command_block command.now) }
{
    push_block(alloc, &RESYNCH, steps)?;
    push_block(alloc, &FIELD_SIZE, steps)?;
    let mut reader = ReaderEnd::new();
    let mut block = BlockBytes::new();
    if let Next::Send = reader.send(command, &mut block) {
        if command.len() > FIELD_LIMIT {
            push_block(alloc, &block, steps)?;
            let _ = reader.got(&READY, &mut block);
        }
    }
    OwnBlock::new(alloc, &block)
}

/// Appends the steps that carry out a command of the probe, and their number.
///
/// # Errors
/// There is too little memory.
pub fn push_look(
    alloc: Global,
    command: &[u8],
    steps: &mut Vec<Step>,
    looks: &mut Vec<usize>,
) -> Result<(), AllocError>
    requires some { 1 ≤ length command.now }
    requires size { length command.now ≤ LONGEST_COMMAND }
    ensures steps { OnOk result (steps.new.items ≡ steps.old.items ++ exchange command.now) }
    ensures looks { OnOk result (looks.new.items ≡ looks.old.items ++ length (exchange command.now) ∷ []) }
{
    let before = steps.len();
    push_exchange(alloc, command, steps)?;
    looks.push(steps.len() - before)?;
    Ok(())
}

/// Appends the steps that carry out a command and fetch its whole answer.
///
/// # Errors
/// There is too little memory.
pub fn push_exchange(alloc: Global, command: &[u8], steps: &mut Vec<Step>) -> Result<(), AllocError>
    requires some { 1 ≤ length command.now }
    requires size { length command.now ≤ LONGEST_COMMAND }
    ensures { OnOk result (steps.new.items ≡ steps.old.items ++ exchange command.now) }
{
    let last = push_command(alloc, command, steps)?;
    steps.push(Step::Block(last))?;
    push_block(alloc, &READY, steps)
}
