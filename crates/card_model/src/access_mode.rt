//! The access mode byte of a rule, and the operation of each of its bits.

ghost use Rattle.std.specs.Prelude.{⊤, ◌≡◌, ◌-◌, [], ◌∷◌, codes, count_ones, nat_lt, option_map, Some, None};
ghost use Rattle.std.specs.Prelude.{if◌then◌else◌};
ghost use Rattle.card_model.specs.Access.{bit_number, flag_of, is_set, set_down_to, mode_byte};

use bitflags::{Flag, Flags, bitflag_items};

/// The operation that a bit of the access mode byte controls.
/// Bits 1 to 3 mean one operation in a DF's rule and another in an EF's rule.
#[derive(Clone, Copy, Debug)]
pub enum AccessBit {
    /// Bit 7: DELETE FILE of the file itself.
    DeleteSelf,
    /// Bit 6: TERMINATE DF or EF; of the MF TERMINATE CARD USAGE.
    Terminate,
    /// Bit 5: ACTIVATE FILE.
    Activate,
    /// Bit 4: DEACTIVATE FILE.
    Deactivate,
    /// Bit 3 of a DF: CREATE FILE of a DF in it.
    CreateDf,
    /// Bit 3 of an EF: APPEND RECORD.
    Append,
    /// Bit 2 of a DF: CREATE FILE of an EF in it.
    CreateEf,
    /// Bit 2 of an EF: UPDATE BINARY, UPDATE RECORD and INCREASE.
    Update,
    /// Bit 1 of a DF: DELETE FILE of a file in it.
    DeleteChild,
    /// Bit 1 of an EF: READ BINARY, READ RECORD and SEARCH RECORD.
    Read,
}

/// The access mode byte: the operations with a condition.
#[derive(Clone, Copy, PartialEq, Eq)]
pub struct AccessMode(u8);

bitflag_items! {
    impl AccessMode: u8 {
        const DELETE_SELF = 0x40;
        const TERMINATE = 0x20;
        const ACTIVATE = 0x10;
        const DEACTIVATE = 0x08;
        const CREATE_DF = 0x04;
        const APPEND = 0x04;
        const CREATE_EF = 0x02;
        const UPDATE = 0x02;
        const DELETE_CHILD = 0x01;
        const READ = 0x01;
    }
}

impl Flags for AccessMode {
    type Bits = u8;

    ghost exact = { ⊤ };

    ghost table = { (codes "DELETE_SELF", 0x40) ∷ (codes "TERMINATE", 0x20) ∷ (codes "ACTIVATE", 0x10)
        ∷ (codes "DEACTIVATE", 0x08) ∷ (codes "CREATE_DF", 0x04) ∷ (codes "APPEND", 0x04)
        ∷ (codes "CREATE_EF", 0x02) ∷ (codes "UPDATE", 0x02) ∷ (codes "DELETE_CHILD", 0x01)
        ∷ (codes "READ", 0x01) ∷ [] };

    ghost set_of = { mode_byte };

    fn flags<'a>() -> &'a [Flag<AccessMode>] {
        AccessMode::FLAGS
    }

    fn bits(&self) -> u8 {
        self.0
    }

    fn from_bits_retain(bits: u8) -> AccessMode {
        AccessMode(bits)
    }
}

impl AccessBit {
    /// Returns the number of the bit, 1 (the least) to 7.
    pub const fn number(self) -> u8
        ensures { result ≡ bit_number self }
    {
        match self {
            AccessBit::DeleteSelf => 7,
            AccessBit::Terminate => 6,
            AccessBit::Activate => 5,
            AccessBit::Deactivate => 4,
            AccessBit::CreateDf | AccessBit::Append => 3,
            AccessBit::CreateEf | AccessBit::Update => 2,
            AccessBit::DeleteChild | AccessBit::Read => 1,
        }
    }

    /// Returns the access mode byte in which this bit alone is set.
    pub fn flag(self) -> AccessMode
        ensures { mode_byte result ≡ flag_of self }
    {
        match self {
            AccessBit::DeleteSelf => AccessMode::DELETE_SELF,
            AccessBit::Terminate => AccessMode::TERMINATE,
            AccessBit::Activate => AccessMode::ACTIVATE,
            AccessBit::Deactivate => AccessMode::DEACTIVATE,
            AccessBit::CreateDf => AccessMode::CREATE_DF,
            AccessBit::Append => AccessMode::APPEND,
            AccessBit::CreateEf => AccessMode::CREATE_EF,
            AccessBit::Update => AccessMode::UPDATE,
            AccessBit::DeleteChild => AccessMode::DELETE_CHILD,
            AccessBit::Read => AccessMode::READ,
        }
    }
}

impl AccessMode {
    /// Returns the access mode of a byte with bit 8 clear.
    pub fn from_byte(byte: u8) -> Option<AccessMode>
        ensures { option_map mode_byte result ≡ (if nat_lt byte 0x80 then Some byte else None) }
    {
        AccessMode::from_bits(byte)
    }

    /// Returns true if the bit is set.
    pub fn has(self, bit: AccessBit) -> bool
        ensures { result ≡ is_set (mode_byte self) bit }
    {
        self.contains(bit.flag())
    }

    /// Returns the number of bits that are set.
    pub(crate) fn count(self) -> usize
        ensures { result ≡ count_ones (mode_byte self) }
    {
        self.0.count_ones() as usize
    }

    /// Returns the number of set bits from the highest down to this.
    pub(crate) fn set_down_to(self, bit: AccessBit) -> usize
        ensures { result ≡ set_down_to (mode_byte self) bit }
    {
        (self.0 >> (bit.number() - 1)).count_ones() as usize
    }
}
