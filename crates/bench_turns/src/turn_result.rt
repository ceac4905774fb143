//! The result of a turn at the bench.
ghost use Rattle.std.specs.Prelude.{◌≡◌};

/// The result of a turn. A returned block is in a buffer, not in this value.
#[derive(Clone, Copy)]
pub enum TurnResult {
    /// The card booted, and gave its answer to reset.
    Atr,
    /// Power is off, as requested.
    Quiet,
    /// No answer: power is off, or power-on fails.
    Mute,
    /// Power was lost, and is off.
    Dark,
    /// The card's end sent a block, which is in its buffer.
    Reply,
}

impl TurnResult {
    ghost use Rattle.bench_turns.specs.TurnResults.{is_started};

    /// Returns true if it is a successful power-on.
    pub fn is_started(&self) -> bool
        ensures { result ≡ is_started self.now }
    {
        matches!(self, TurnResult::Atr)
    }
}
