//! The state of a powered card.

/// The state of a powered card.
#[derive(Clone, Copy, Debug, PartialEq, Eq)]
pub enum CardState {
    /// It carries out commands.
    Working,
    /// The memory failed: each command is answered 6581 until power-on.
    Failed,
    /// Power was lost: there is no answer until the next power-on.
    Dark,
}
