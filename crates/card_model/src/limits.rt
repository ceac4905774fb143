//! Limits of files (ISO/IEC 7816-4, 7.4.1 and 7.4.3), of answers (5.1), and of a card.

/// The most bytes of a file.
pub const MOST_BYTES: u16 = 32_767;

/// The most bytes of a record.
pub const MOST_RECORD_BYTES: u16 = 255;

/// The most records of a file.
pub const MOST_RECORDS: u16 = 254;

/// The highest short identifier of a file.
pub const MOST_SHORT: u8 = 30;

/// The most bytes of the name of a dedicated file.
pub const MOST_NAME_BYTES: usize = 16;

/// The most bytes of data in an answer.
/// A one-byte Le can't request more.
pub const MOST_ANSWER_DATA: usize = 256;

/// The number of file entries of a card, one for the MF.
pub const ENTRIES: u16 = 64;

/// The tries of a PIN value after a match.
pub const TRIES: u8 = 3;

/// The tries of an unblocking value after a match.
pub const UNBLOCKING_TRIES: u8 = 10;
