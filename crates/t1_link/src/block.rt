//! Blocks of T=1, and their bytes (ISO/IEC 7816-3, 11.3).

ghost use Rattle.std.specs.Prelude.{◌≡◌, ◌≤◌, ◌+◌, ◌++◌, [], false, length, slice_index, Ok};
ghost use Rattle.std.specs.Option.{ok_or};
ghost use Rattle.arrayvec.specs.ArrayVec.{array_vec_len};
ghost use Rattle.t1_link.specs.Blocks.{at_byte, bare, control_byte, error_code, exclusive_or, field_of, frame};
ghost use Rattle.t1_link.specs.Blocks.{has_wrong_length, heard, information, kinds, receive_ready, size_told, told_as};
ghost use Rattle.t1_link.specs.Garbled.{last_bit_turned};
ghost use Rattle.t1_link.specs.SpokenParts.{block_of, spoken};

use crate::sequence_number::SequenceNumber;
use arrayvec::ArrayVec;
use std::marker::Model;
use std::ops::DerefSlice;

/// The most bytes of an information field (11.4.2).
pub const FIELD_LIMIT: usize = 254;

/// The bytes of a block besides its information field.
/// They are node address, control byte, length byte and check byte.
const OVERHEAD: usize = 4;

/// The most bytes of a block.
const LONGEST_BLOCK: usize = FIELD_LIMIT + OVERHEAD;

/// The node address of every block.
const NODE_ADDRESS: u8 = 0x00;

/// The bit of an I-block's control byte that is its number, N(S).
const NUMBER_SENT: u8 = 0x40;

/// The bit M of an I-block's control byte: more blocks follow.
const MORE: u8 = 0x20;

/// The bit N(R) of an R-block's control byte: the expected number.
const NUMBER_EXPECTED: u8 = 0x10;

/// The control byte of an I-block with number 0, without M.
const INFORMATION_0: u8 = 0x00;

/// The control byte of an I-block with number 0 and M.
const INFORMATION_0_MORE: u8 = INFORMATION_0 | MORE;

/// The control byte of an I-block with number 1, without M.
const INFORMATION_1: u8 = INFORMATION_0 | NUMBER_SENT;

/// The control byte of an I-block with number 1 and M.
const INFORMATION_1_MORE: u8 = INFORMATION_1 | MORE;

/// The bit of an R-block's control byte for a wrong check byte.
const REDUNDANCY: u8 = 0x01;

/// The bit of an R-block's control byte for any other error.
const OTHER: u8 = 0x02;

/// The control byte of an R-block that expects number 0, without error.
const READY_0: u8 = 0x80;

/// The control byte of an R-block: expects 0, wrong check byte.
const READY_0_REDUNDANCY: u8 = READY_0 | REDUNDANCY;

/// The control byte of an R-block: expects 0, another error.
const READY_0_OTHER: u8 = READY_0 | OTHER;

/// The control byte of an R-block that expects number 1, without error.
const READY_1: u8 = READY_0 | NUMBER_EXPECTED;

/// The control byte of an R-block: expects 1, wrong check byte.
const READY_1_REDUNDANCY: u8 = READY_0_REDUNDANCY | NUMBER_EXPECTED;

/// The control byte of an R-block: expects 1, another error.
const READY_1_OTHER: u8 = READY_0_OTHER | NUMBER_EXPECTED;

/// The control byte of an S-block that requests RESYNCH.
const RESYNCH_REQUEST: u8 = 0xC0;

/// The control byte of the S-block that responds to RESYNCH.
const RESYNCH_RESPONSE: u8 = 0xE0;

/// The control byte of an S-block with an information field size.
const IFS_REQUEST: u8 = 0xC1;

/// The control byte of the S-block that responds with the same size.
const IFS_RESPONSE: u8 = 0xE1;

/// The bytes of a block: prologue, information field and check byte.
/// It is empty or contains a block that an end of the link wrote, whole or garbled. Received bytes are a slice instead.
/// It is a type of its own, so that nobody sends an answer (`AnswerBytes`), which can be as long, as a block.
#[derive(Drop)]
pub struct BlockBytes {
    bytes: ArrayVec<u8, LONGEST_BLOCK>,
}

impl Model for BlockBytes {
    ghost use Rattle.std.specs.Prelude.{ℕ, List};

    ghost Value = { List ℕ };

    ghost view = { λ b. b.bytes.items };
}

impl BlockBytes {
    /// Returns an empty buffer.
    pub fn new() -> BlockBytes
        ensures { result ≡ [] }
    {
        BlockBytes {
            bytes: ArrayVec::new(),
        }
    }

    /// Returns the bytes of the block.
    pub fn as_slice(&self) -> &[u8]
        ensures bytes { result.now ≡ self.now }
        ensures fits { length result.now ≤ LONGEST_BLOCK }
    {
        self.bytes.as_slice()
    }

    /// Empties it.
    pub fn clear(&mut self)
        ensures { self.new ≡ [] }
    {
        self.bytes.clear();
    }

    /// Garbles the block: inverts bit 1 of its last byte.
    pub fn garble(&mut self)
        ensures { self.new ≡ last_bit_turned self.old }
    {
        turn_last_bit(&mut self.bytes);
    }
}

impl DerefSlice for BlockBytes {
    ghost use Rattle.t1_link.specs.declared.block.TheConstants.{LONGEST_BLOCK};

    type Elem = u8;

    ghost deref_gives = { λ block bytes. (bytes ≡ block) × (length bytes ≤ LONGEST_BLOCK) };

    fn deref(&self) -> &[u8] {
        self.as_slice()
    }
}

/// The error that an R-block reports.
#[derive(Clone, Copy)]
pub enum ErrorKind {
    ErrorFree,
    /// The check byte was wrong.
    RedundancyError,
    OtherError,
}

impl ErrorKind {
    /// Returns the bits of this kind in a control byte.
    fn code(self) -> u8
        ensures value { result ≡ error_code self }
        ensures low { result ≤ OTHER }
    {
        match self {
            ErrorKind::ErrorFree => 0,
            ErrorKind::RedundancyError => REDUNDANCY,
            ErrorKind::OtherError => OTHER,
        }
    }
}

/// Why bytes are no valid block.
#[derive(Clone, Copy)]
pub enum Fault {
    /// Fewer than 4 bytes, or a length byte that doesn't fit.
    WrongLength,
    /// The exclusive-or of all bytes isn't 00.
    WrongCheck,
    /// Another node address than 00, or an unknown kind of block.
    UnknownBlock,
}

impl Fault {
    /// Returns the kind of error for an R-block after this fault.
    pub(crate) fn error_kind(self) -> ErrorKind
        ensures { result ≡ told_as self }
    {
        match self {
            Fault::WrongLength | Fault::UnknownBlock => ErrorKind::OtherError,
            Fault::WrongCheck => ErrorKind::RedundancyError,
        }
    }
}

/// The contents of an I-block: N(S), M, and the information field.
#[derive(Clone, Copy)]
pub(crate) struct Piece<'a> {
    pub number: SequenceNumber,
    pub more: bool,
    pub field: &'a [u8],
}

/// A block, with a borrowed information field (ISO/IEC 7816-3, 11.3).
#[derive(Clone, Copy)]
pub(crate) enum Block<'a> {
    Information(Piece<'a>),
    ReceiveReady {
        number: SequenceNumber,
        error: ErrorKind,
    },
    ResynchRequest,
    ResynchResponse,
    IfsRequest(u8),
    IfsResponse(u8),
}

impl<'a> Block<'a> {
    /// Returns the block of these bytes, or the first fault in them.
    // Inlining this and `of_kind` saves 36 instructions a block: the block isn't built in memory.
    #[inline(always)]
    #[tactic(auto, unfolding(crate::specs::Blocks::heard))]
    pub(crate) fn parse(bytes: &'a [u8]) -> Result<Block<'a>, Fault>
        ensures { spoken result ≡ heard bytes.now }
    {
        if has_wrong_length(bytes) {
            return Err(Fault::WrongLength);
        }
        if exclusive_or(bytes) != 0 {
            return Err(Fault::WrongCheck);
        }
        if bytes[0] != NODE_ADDRESS {
            return Err(Fault::UnknownBlock);
        }
        Block::of_kind(bytes[1], &bytes[3..3 + usize::from(bytes[2])])
    }

    /// Returns the block of a control byte and an information field.
    #[inline(always)]
    fn of_kind(control: u8, field: &'a [u8]) -> Result<Block<'a>, Fault>
        ensures { spoken result ≡ ok_or (at_byte control (kinds field.now)) Fault.UnknownBlock }
    {
        match control {
            INFORMATION_0 => information(SequenceNumber::Zero, false, field),
            INFORMATION_0_MORE => information(SequenceNumber::Zero, true, field),
            INFORMATION_1 => information(SequenceNumber::One, false, field),
            INFORMATION_1_MORE => information(SequenceNumber::One, true, field),
            READY_0 => ready(SequenceNumber::Zero, ErrorKind::ErrorFree, field),
            READY_0_REDUNDANCY => ready(SequenceNumber::Zero, ErrorKind::RedundancyError, field),
            READY_0_OTHER => ready(SequenceNumber::Zero, ErrorKind::OtherError, field),
            READY_1 => ready(SequenceNumber::One, ErrorKind::ErrorFree, field),
            READY_1_REDUNDANCY => ready(SequenceNumber::One, ErrorKind::RedundancyError, field),
            READY_1_OTHER => ready(SequenceNumber::One, ErrorKind::OtherError, field),
            RESYNCH_REQUEST => bare(field, Block::ResynchRequest),
            RESYNCH_RESPONSE => bare(field, Block::ResynchResponse),
            IFS_REQUEST => Ok(Block::IfsRequest(size_told(field).ok_or(Fault::UnknownBlock)?)),
            IFS_RESPONSE => Ok(Block::IfsResponse(size_told(field).ok_or(Fault::UnknownBlock)?)),
            _ => Err(Fault::UnknownBlock),
        }
    }

    /// Writes the bytes of the block into the buffer, replacing its contents.
    pub(crate) fn write(self, out: &mut BlockBytes)
        requires { length (field_of (block_of self)) ≤ 254 }
        ensures { out.new ≡ frame (block_of self.entry) }
    {
        let bytes = &mut out.bytes;
        bytes.clear();
        bytes.push(NODE_ADDRESS);
        bytes.push(self.control_byte());
        bytes.push(self.field_length());
        self.push_field(bytes);
        bytes.push(exclusive_or(bytes.as_slice()));
    }

    /// Returns the control byte.
    fn control_byte(self) -> u8
        ensures { result ≡ control_byte (block_of self.entry) }
    {
        match self {
            Block::Information(piece) => {
                INFORMATION_0
                    + piece.number.at_bit(NUMBER_SENT)
                    + (if piece.more { MORE } else { 0 })
            }
            Block::ReceiveReady { number, error } => {
                READY_0 + number.at_bit(NUMBER_EXPECTED) + error.code()
            }
            Block::ResynchRequest => RESYNCH_REQUEST,
            Block::ResynchResponse => RESYNCH_RESPONSE,
            Block::IfsRequest(_) => IFS_REQUEST,
            Block::IfsResponse(_) => IFS_RESPONSE,
        }
    }

    /// Returns the length byte.
    fn field_length(self) -> u8
        requires { length (field_of (block_of self)) ≤ 254 }
        ensures { result ≡ length (field_of (block_of self.entry)) }
    {
        match self {
            Block::Information(piece) => piece.field.len() as u8,
            Block::IfsRequest(_) | Block::IfsResponse(_) => 1,
            Block::ReceiveReady { .. } | Block::ResynchRequest | Block::ResynchResponse => 0,
        }
    }

    /// Appends the information field.
    fn push_field(self, out: &mut ArrayVec<u8, LONGEST_BLOCK>)
        requires field { length (field_of (block_of self)) ≤ 254 }
        requires room { array_vec_len out.old ≤ 3 }
        ensures { out.new.items ≡ out.old.items ++ field_of (block_of self.entry) }
    {
        match self {
            Block::Information(piece) => out.try_extend_from_slice(piece.field).unwrap(),
            Block::IfsRequest(size) | Block::IfsResponse(size) => out.push(size),
            Block::ReceiveReady { .. } | Block::ResynchRequest | Block::ResynchResponse => {}
        }
    }
}

/// Returns true if there are fewer than 4 bytes, or the length byte is FF or doesn't fit their number.
fn has_wrong_length(bytes: &[u8]) -> bool
    ensures wrong { result ≡ has_wrong_length bytes.now }
    ensures right { result ≡ false → length bytes.now ≡ slice_index bytes.now 2 + 4 }
{
    if bytes.len() < OVERHEAD {
        return true;
    }
    let size = usize::from(bytes[2]);
    size > FIELD_LIMIT || bytes.len() != size + OVERHEAD
}

/// Returns an I-block.
fn information(number: SequenceNumber, more: bool, field: &[u8]) -> Result<Block<'_>, Fault>
    ensures { spoken result ≡ Ok (information number more field.now) }
{
    Ok(Block::Information(Piece {
        number,
        more,
        field,
    }))
}

/// Returns an R-block, which has no information field.
fn ready<'a>(number: SequenceNumber, error: ErrorKind, field: &[u8]) -> Result<Block<'a>, Fault>
    ensures { spoken result ≡ ok_or (bare field.now (receive_ready number error)) Fault.UnknownBlock }
{
    bare(field, Block::ReceiveReady { number, error })
}

/// Returns a block of a kind that has no information field.
fn bare<'a>(field: &[u8], block: Block<'a>) -> Result<Block<'a>, Fault>
    ensures { spoken result ≡ ok_or (bare field.now (block_of block.entry)) Fault.UnknownBlock }
{
    if field.is_empty() {
        Ok(block)
    } else {
        Err(Fault::UnknownBlock)
    }
}

/// Returns the information field size in the field of an S-block.
fn size_told(field: &[u8]) -> Option<u8>
    ensures { result ≡ size_told field.now }
{
    match field {
        [size] if (1..=FIELD_LIMIT).contains(&usize::from(*size)) => Some(*size),
        _ => None,
    }
}

/// Returns the exclusive-or of all bytes.
fn exclusive_or(bytes: &[u8]) -> u8
    ensures { result ≡ exclusive_or bytes.now }
{
    bytes.iter().fold(0, |check, byte| check ^ *byte)
}

/// Inverts bit 1 of the last byte.
#[tactic(auto, using(crate::proofs::Garbled::last_bit_turned_at))]
fn turn_last_bit(bytes: &mut [u8])
    ensures { bytes.new ≡ last_bit_turned bytes.old }
{
    let size = bytes.len();
    if size > 0 {
        bytes[size - 1] ^= 1;
    }
}
