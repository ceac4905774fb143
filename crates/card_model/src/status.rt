//! Status words (ISO/IEC 7816-4, 5.1.3).

ghost use Rattle.std.specs.Prelude.{◌≡◌, ◌/◌, ◌%◌, ◌∷◌, []};
ghost use Rattle.card_model.specs.StatusWords.{length_status, tries_status};

/// The status word that ends each answer (ISO/IEC 7816-4, 5.1.3).
/// SW1 is its upper byte, SW2 its lower byte.
#[derive(Clone, Copy, Debug, PartialEq, Eq)]
pub struct Sw(pub u16);

impl Sw {
    /// Carried out.
    pub const DONE: Sw = Sw(0x9000);
    /// Carried out; fewer than Le bytes exist, or no record matches.
    pub const END_REACHED: Sw = Sw(0x6282);
    /// Carried out; the selected file is deactivated.
    pub const SELECTED_DEACTIVATED: Sw = Sw(0x6283);
    /// Carried out; the selected file is terminated.
    pub const SELECTED_TERMINATED: Sw = Sw(0x6285);
    /// The memory failed.
    pub const MEMORY_FAILURE: Sw = Sw(0x6581);
    /// Lc or Le is wrong, or the command has no valid form.
    pub const WRONG_LENGTH: Sw = Sw(0x6700);
    /// The command doesn't fit the structure of the file.
    pub const WRONG_STRUCTURE: Sw = Sw(0x6981);
    /// The access rule doesn't allow the command.
    pub const ACCESS_DENIED: Sw = Sw(0x6982);
    /// The PIN is blocked: no tries are left.
    pub const METHOD_BLOCKED: Sw = Sw(0x6983);
    /// The reference data isn't usable: the PIN is disabled.
    pub const REFERENCE_DATA_NOT_USABLE: Sw = Sw(0x6984);
    /// The conditions of use aren't satisfied.
    pub const CONDITIONS_NOT_SATISFIED: Sw = Sw(0x6985);
    /// There is no current elementary file.
    pub const NO_CURRENT_EF: Sw = Sw(0x6986);
    /// The data field of the command is wrong.
    pub const WRONG_DATA: Sw = Sw(0x6A80);
    /// The file isn't found.
    pub const FILE_NOT_FOUND: Sw = Sw(0x6A82);
    /// The record isn't found.
    pub const RECORD_NOT_FOUND: Sw = Sw(0x6A83);
    /// The memory has not enough free space.
    pub const NO_ROOM: Sw = Sw(0x6A84);
    /// P1 or P2 is wrong.
    pub const WRONG_PARAMETERS: Sw = Sw(0x6A86);
    /// A file of this identifier exists.
    pub const FILE_EXISTS: Sw = Sw(0x6A89);
    /// A dedicated file of this name exists.
    pub const NAME_EXISTS: Sw = Sw(0x6A8A);
    /// The offset is at or past the end.
    pub const WRONG_OFFSET: Sw = Sw(0x6B00);
    /// The instruction isn't known.
    pub const UNKNOWN_INSTRUCTION: Sw = Sw(0x6D00);
    /// The class isn't known.
    pub const UNKNOWN_CLASS: Sw = Sw(0x6E00);
    /// The sum doesn't fit the record (ETSI TS 102 221).
    /// ISO/IEC 7816-4 doesn't have this status word.
    pub const MAXIMUM_REACHED: Sw = Sw(0x9850);

    /// Returns 63CX: X is the number of tries left, up to 15.
    pub fn tries_left(left: u8) -> Sw
        ensures { result ≡ tries_status left }
    {
        Sw(0x63C0 + u16::from(left))
    }

    /// Returns 6CXX, the refusal of an Le that is too small: XX is the length of the data. 6C00 means 256 bytes.
    pub fn right_length(length: usize) -> Sw
        ensures { result ≡ length_status length }
    {
        Sw(0x6C00 + (length % 256) as u16)
    }

    /// Returns SW1 and SW2, in the order of transmission.
    pub const fn to_bytes(self) -> [u8; 2]
        ensures { result ≡ self.0 / 256 ∷ self.0 % 256 ∷ [] }
    {
        [(self.0 >> 8) as u8, (self.0 & 0xFF) as u8]
    }
}
