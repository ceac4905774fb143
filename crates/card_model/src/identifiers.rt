//! Reserved file identifiers (ISO/IEC 7816-4, 7.4.1).

/// The identifier of the master file.
pub const MASTER_FILE: u16 = 0x3F00;

/// The identifier that means the current dedicated file in a path. No file has it.
pub const CURRENT_FILE: u16 = 0x3FFF;

/// The identifier reserved for future use. No file has it.
pub const RESERVED: u16 = 0xFFFF;
