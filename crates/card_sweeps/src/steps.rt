//! Turns at the bench that own their blocks.
ghost use Rattle.std.specs.Prelude.{◌≡◌, ◌++◌, ◌∷◌, [], IfOk, OnOk};
ghost use Rattle.card_sweeps.specs.Turning.{AreTurns, IsTurn};

use bench_turns::Turn;
use std::alloc::{AllocError, Global};
use std::marker::Model;

/// A block to send, of any bytes.
#[derive(Drop)]
pub struct OwnBlock {
    bytes: Vec<u8>,
}

impl Model for OwnBlock {
    ghost use Rattle.std.specs.Prelude.{ℕ, List};

    ghost Value = { List ℕ };

    ghost view = { λ b. b.bytes.items };
}

impl OwnBlock {
    /// Returns a block of these bytes.
    ///
    /// # Errors
    /// There is too little memory.
    pub fn new(alloc: Global, bytes: &[u8]) -> Result<OwnBlock, AllocError>
        ensures { IfOk result (λ block. block ≡ bytes.now) }
    {
        let bytes = Vec::from_slice(alloc, bytes)?;
        Ok(OwnBlock { bytes })
    }

    /// Returns its bytes.
    pub fn as_slice(&self) -> &[u8]
        ensures { result.now ≡ self.now }
    {
        &self.bytes
    }
}

/// A turn at the bench that owns its block.
#[derive(Drop)]
pub enum Step {
    /// Power goes off if it is on, and then on.
    On,
    /// Power goes off.
    Off,
    /// These bytes go to the card's end of the link.
    Block(OwnBlock),
}

/// Appends a step that sends this block.
///
/// # Errors
/// There is too little memory.
pub fn push_block(alloc: Global, block: &[u8], steps: &mut Vec<Step>) -> Result<(), AllocError>
    ensures { OnOk result (steps.new.items ≡ steps.old.items ++ Step.Block block.now ∷ []) }
{
    let block = OwnBlock::new(alloc, block)?;
    steps.push(Step::Block(block))?;
    Ok(())
}

/// Returns the turns of these steps.
///
/// # Errors
/// There is too little memory.
pub fn turns_of(alloc: Global, steps: &[Step]) -> Result<Vec<Turn<'_>>, AllocError>
    ensures { IfOk result (λ turns. AreTurns steps.now turns.items) }
{
    let mut turns = Vec::new(alloc);
    for step in steps {
        turns.push(turn_of(step))?;
    }
    Ok(turns)
}

/// Returns the turn of a step.
fn turn_of(step: &Step) -> Turn<'_>
    ensures { IsTurn step.now result }
{
    match step {
        Step::On => Turn::On,
        Step::Off => Turn::Off,
        Step::Block(block) => Turn::Block(block.as_slice()),
    }
}
