//! READ BINARY and UPDATE BINARY (ISO/IEC 7816-4, 11.3).
ghost use Rattle.std.specs.Prelude.{◌≡◌, ◌≤◌, Some, None, if◌then◌else◌, IfSome};
ghost use Rattle.card_model.specs.CommandTable.{read_binary_row, update_binary_row, is_place, named_target};
ghost use Rattle.card_model.specs.CommandTable.{named_offset};
ghost use Rattle.apdu_core.specs.Parsing.{Parses};
ghost use Rattle.card_model.specs.Requests.{IsTarget};

use crate::commands::{Command, Parsed};
use crate::form::{CommandBody, Operands};
use byteorder::{BigEndian, ByteOrder};
use card_model::{Sw, Target};

/// An elementary file, and an offset of 0 to 32,767 bytes.
#[derive(Clone, Copy)]
pub struct BinaryPlace {
    pub target: Target,
    pub offset: u16,
}

impl BinaryPlace {
    /// Returns the place that P1 and P2 name, if they name one.
    fn of(p1: u8, p2: u8) -> Option<BinaryPlace>
        ensures named { result ≡ (if is_place p1 p2 then Some (record {
          target = named_target p1;
          offset =
              named_offset p1 p2;
        }) else None) }
        ensures ranges { IfSome result (λ place. IsTarget place.target × (place.offset ≤ 32767)) }
    {
        match p1 {
            0x00..=0x7F => Some(BinaryPlace {
                target: Target::Current,
                offset: BigEndian::read_u16(&[p1, p2]),
            }),
            // Bit 8 set, bits 7 and 6 clear: bits 5 to 1 are a short identifier, of which 0 and 31 are invalid.
            0x81..=0x9E => Some(BinaryPlace {
                target: Target::Short(p1 - 0x80),
                offset: u16::from(p2),
            }),
            _ => None,
        }
    }
}

/// Parses READ BINARY after its instruction.
///
/// # Errors
/// 6A86 if P1 and P2 name no place; 6700 with data, or without Le.
pub(crate) fn parse_read_binary(operands: Operands<'_>) -> Parsed<'_>
    ensures { Parses (Some read_binary_row) operands.entry result }
{
    let place = BinaryPlace::of(operands.p1, operands.p2).ok_or(Sw::WRONG_PARAMETERS)?;
    let expected = CommandBody::parse(operands.rest)?.le_alone()?;
    Ok(Command::ReadBinary { place, expected })
}

/// Parses UPDATE BINARY after its instruction.
///
/// # Errors
/// 6A86 if P1 and P2 name no place; 6700 without data, or with Le.
pub(crate) fn parse_update_binary(operands: Operands<'_>) -> Parsed<'_>
    ensures { Parses (Some update_binary_row) operands.entry result }
{
    let place = BinaryPlace::of(operands.p1, operands.p2).ok_or(Sw::WRONG_PARAMETERS)?;
    let bytes = CommandBody::parse(operands.rest)?.text_alone()?;
    Ok(Command::UpdateBinary { place, bytes })
}
