//! SELECT (ISO/IEC 7816-4, 11.2.2).
ghost use Rattle.std.specs.Prelude.{◌≡◌, Some, IfSome, length};
ghost use Rattle.apdu_core.specs.ParsedCommands.{selection_of, IsSelector};
ghost use Rattle.card_model.specs.CommandTable.{select_row, is_way, is_returned, returned_by, names_file, named_file};
ghost use Rattle.apdu_core.specs.Parsing.{Parses, NamesWhere};
ghost use Rattle.apdu_core.specs.WayParts.{way_byte};
ghost use Rattle.apdu_core.specs.declared.select.Way.TheVariants.{ByIdentifier};

use crate::commands::{Command, Parsed};
use crate::form::{CommandBody, Operands};
use crate::path::FilePath;
use byteorder::{BigEndian, ByteOrder};
use card_model::limits::MOST_NAME_BYTES;
use card_model::{Returned, Sw};

/// How SELECT names a file (ISO/IEC 7816-4, 11.2.2).
#[derive(Clone, Copy)]
pub enum Selector<'a> {
    /// The master file.
    MasterFile,
    /// A file with this identifier: a child of the current DF, a DF beside it, its parent, itself, or the MF.
    Identifier(u16),
    /// The parent of the current dedicated file.
    Parent,
    /// The dedicated file with this name, 1 to 16 bytes.
    Name(&'a [u8]),
    /// The file at the end of this path from the master file. Each identifier names a child.
    PathFromMaster(FilePath<'a>),
    /// The file at the end of this path from the current DF.
    PathFromCurrent(FilePath<'a>),
}

/// The selection methods of SELECT, one for each P1.
#[derive(Clone, Copy)]
enum Way {
    ByIdentifier,
    ToParent,
    ByName,
    DownFromMaster,
    DownFromCurrent,
}

impl Way {
    /// Returns the selection method of a P1, if valid.
    fn of(p1: u8) -> Option<Way>
        ensures { NamesWhere result (is_way p1) (λ way. way_byte way ≡ p1) }
    {
        match p1 {
            0x00 => Some(Way::ByIdentifier),
            0x03 => Some(Way::ToParent),
            0x04 => Some(Way::ByName),
            0x08 => Some(Way::DownFromMaster),
            0x09 => Some(Way::DownFromCurrent),
            _ => None,
        }
    }
}

/// Returns the response data that P2 of SELECT requests, if valid.
fn returned_of(p2: u8) -> Option<Returned>
    ensures { NamesWhere result (is_returned p2) (λ returned. returned ≡ returned_by p2) }
{
    match p2 {
        0x04 => Some(Returned::Template),
        0x0C => Some(Returned::Nothing),
        _ => None,
    }
}

impl<'a> Selector<'a> {
    /// Returns the file in the data field, if its length fits.
    fn of(way: Way, sent: &'a [u8]) -> Option<Selector<'a>>
        ensures file { NamesWhere result (names_file (way_byte way) (length sent.now)) (λ selector.
            selection_of selector ≡ named_file (way_byte way) sent.now) }
        ensures ranges { IfSome result IsSelector }
    {
        match way {
            Way::ByIdentifier => Selector::by_identifier(sent),
            Way::ToParent if sent.is_empty() => Some(Selector::Parent),
            Way::ByName if (1..=MOST_NAME_BYTES).contains(&sent.len()) => Some(Selector::Name(
                sent,
            )),
            Way::DownFromMaster => Some(Selector::PathFromMaster(FilePath::new(sent)?)),
            Way::DownFromCurrent => Some(Selector::PathFromCurrent(FilePath::new(sent)?)),
            Way::ToParent | Way::ByName => None,
        }
    }

    /// Returns the file that two bytes of identifier name, or the master file for no bytes.
    fn by_identifier(sent: &'a [u8]) -> Option<Selector<'a>>
        ensures file { NamesWhere result (names_file (way_byte ByIdentifier) (length sent.now)) (λ selector.
            selection_of selector ≡ named_file (way_byte ByIdentifier) sent.now) }
        ensures ranges { IfSome result IsSelector }
    {
        match sent {
            [] => Some(Selector::MasterFile),
            [_, _] => Some(Selector::Identifier(BigEndian::read_u16(sent))),
            _ => None,
        }
    }
}

/// Parses SELECT after its instruction.
///
/// # Errors
/// 6A86 if P1 or P2 is unknown; 6700 if the length doesn't fit P1.
pub(crate) fn parse_select(operands: Operands<'_>) -> Parsed<'_>
    ensures { Parses (Some select_row) operands.entry result }
{
    let (Some(way), Some(returned)) = (Way::of(operands.p1), returned_of(operands.p2)) else {
        return Err(Sw::WRONG_PARAMETERS);
    };
    let body = CommandBody::parse(operands.rest)?;
    let selector = Selector::of(way, body.sent).ok_or(Sw::WRONG_LENGTH)?;
    Ok(Command::Select {
        selector,
        returned,
        expected: body.expected,
    })
}
