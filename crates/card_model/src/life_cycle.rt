//! The life cycle of a file.

ghost use Rattle.std.specs.Prelude.{◌≡◌, Some};
ghost use Rattle.card_model.specs.LifeCycle.{life_cycle_at, life_cycle_byte, state_after};

/// The life cycle status of a file (ISO/IEC 7816-4, 7.4.10).
#[derive(Clone, Copy)]
pub enum LifeCycle {
    /// The file is being created. No access rule applies yet.
    Creation,
    /// The file is being filled. No access rule applies yet.
    Initialisation,
    /// The file is out of use until a command activates it.
    Deactivated,
    /// The file is in use.
    Activated,
    /// The file is permanently out of use.
    Terminated,
}

/// A command that changes the life cycle of a file (ISO/IEC 7816-9).
#[derive(Clone, Copy)]
pub enum LifeCycleCommand {
    /// ACTIVATE FILE.
    Activate,
    /// DEACTIVATE FILE.
    Deactivate,
    /// TERMINATE DF and TERMINATE EF.
    Terminate,
}

impl LifeCycle {
    /// Returns the state of a life cycle status byte.
    /// Valid bytes are 01, 03, 04, 05 and 0C.
    pub const fn from_byte(byte: u8) -> Option<LifeCycle>
        ensures { result ≡ life_cycle_at byte }
    {
        match byte {
            0x01 => Some(LifeCycle::Creation),
            0x03 => Some(LifeCycle::Initialisation),
            0x04 => Some(LifeCycle::Deactivated),
            0x05 => Some(LifeCycle::Activated),
            0x0C => Some(LifeCycle::Terminated),
            _ => None,
        }
    }

    /// Returns the life cycle status byte of this state. `from_byte` is its inverse.
    pub const fn to_byte(self) -> u8
        ensures value { result ≡ life_cycle_byte self }
        ensures read_again { life_cycle_at result ≡ Some self }
    {
        match self {
            LifeCycle::Creation => 0x01,
            LifeCycle::Initialisation => 0x03,
            LifeCycle::Deactivated => 0x04,
            LifeCycle::Activated => 0x05,
            LifeCycle::Terminated => 0x0C,
        }
    }

    /// Returns the state of a file after a command in `state`.
    /// `None` means that the command is refused, as its conditions of use aren't satisfied.
    /// Activating an activated file or deactivating a deactivated one changes nothing.
    pub const fn next_state(command: LifeCycleCommand, state: LifeCycle) -> Option<LifeCycle>
        ensures { result ≡ state_after command state }
    {
        match (command, state) {
            (_, LifeCycle::Terminated) => None,
            (LifeCycleCommand::Activate, _) => Some(LifeCycle::Activated),
            (LifeCycleCommand::Deactivate, LifeCycle::Deactivated | LifeCycle::Activated) => {
                Some(LifeCycle::Deactivated)
            }
            (LifeCycleCommand::Deactivate, _) => None,
            (LifeCycleCommand::Terminate, _) => Some(LifeCycle::Terminated),
        }
    }
}
