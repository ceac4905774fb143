//! The line between the two ends, which may lose or garble a block.
ghost use Rattle.std.specs.Prelude.{◌≡◌, ◌≤◌, ◌-◌, false, None, Some, is_some, if◌then◌else◌};
ghost use Rattle.card_bench.specs.Lines.{arriving, is_due, line_after, pending_after, perfect_line};

use t1_link::BlockBytes;

/// A line, and its pending faults.
#[derive(Clone, Copy)]
pub struct Line {
    /// The number of blocks before the one to lose.
    lose: Option<u32>,
    /// The number of blocks before the one to garble.
    garble: Option<u32>,
}

impl Line {
    /// Returns a line without pending faults.
    pub fn new() -> Line
        ensures { result ≡ perfect_line }
    {
        Line {
            lose: None,
            garble: None,
        }
    }

    /// Sets the block to lose: number 1 is the next one. It replaces an earlier setting.
    pub fn lose(&mut self, number: u32)
        requires { 1 ≤ number }
        ensures { self.new ≡ record self.old { lose = Some (number - 1) } }
    {
        self.lose = Some(number - 1);
    }

    /// Sets the block to garble: number 1 is the next one. It replaces an earlier setting.
    pub fn garble(&mut self, number: u32)
        requires { 1 ≤ number }
        ensures { self.new ≡ record self.old { garble = Some (number - 1) } }
    {
        self.garble = Some(number - 1);
    }

    /// Returns true if a later block is to be lost.
    pub fn loses(&self) -> bool
        ensures { result ≡ is_some self.now.lose }
    {
        self.lose.is_some()
    }

    /// Returns true if a later block is to be garbled.
    pub fn garbles(&self) -> bool
        ensures { result ≡ is_some self.now.garble }
    {
        self.garble.is_some()
    }

    /// Passes the block in the buffer; returns true if it arrives.
    /// The buffer then contains the block as it arrives.
    pub fn put(&mut self, block: &mut BlockBytes) -> bool
        ensures after { self.new ≡ line_after 1 self.old }
        ensures arrives { (if result then Some block.new else None) ≡ arriving self.old 0 block.old }
        ensures lost { result ≡ false → block.new ≡ block.old }
    {
        let is_lost = falls_due(&mut self.lose);
        let is_garbled = falls_due(&mut self.garble);
        if is_lost {
            return false;
        }
        if is_garbled {
            block.garble();
        }
        true
    }
}

/// Returns true if the fault hits the next block.
/// It clears the fault then.
/// Otherwise the fault comes nearer by one block.
fn falls_due(pending: &mut Option<u32>) -> bool
    ensures due { result ≡ is_due pending.old 0 }
    ensures after { pending.new ≡ pending_after 1 pending.old }
{
    match *pending {
        None => false,
        Some(0) => {
            *pending = None;
            true
        }
        Some(before) => {
            *pending = Some(before - 1);
            false
        }
    }
}
