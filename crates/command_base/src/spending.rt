//! The most that a command may cost.

/// The most device writes of a command.
pub const COMMAND_WRITES: u16 = 700;
