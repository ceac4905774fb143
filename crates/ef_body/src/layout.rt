//! Limits of records.
use card_model::limits;

/// The greatest record length in bytes, as a length.
pub const MOST_RECORD_BYTES: usize = limits::MOST_RECORD_BYTES as usize;

/// The greatest number of device writes of a transaction on 255 bytes. It is the bound of a transaction of 65 sets,
/// as many words as the bytes may touch, in six runs, one per block.
pub const UPDATE_WRITES: u16 = 33;

/// The greatest number of device writes with the entry's word. That set is one more run, since the word lies
/// elsewhere.
pub const RECORD_WRITES: u16 = UPDATE_WRITES + 1;
