//! Commands on records (ISO/IEC 7816-4, 11.4), and INCREASE (ETSI TS 102 221, 11.1.8).
ghost use Rattle.std.specs.Prelude.{◌≡◌, ◌&&◌, Some, IfSome};
ghost use Rattle.apdu_core.specs.Parsing.{Parses, NamesWhere};
ghost use Rattle.card_model.specs.Requests.{IsTarget, IsRecordPlace, IsRecordChoice};
ghost use Rattle.card_model.specs.CommandTable.{read_record_row, update_record_row, append_record_row};
ghost use Rattle.card_model.specs.CommandTable.{search_record_row, increase_row, is_record_file, record_file};
ghost use Rattle.card_model.specs.CommandTable.{record_place, is_choice, record_choice, is_direction, direction};

use crate::commands::{Command, Parsed};
use crate::form::{CommandBody, Operands};
use card_model::{Direction, RecordChoice, RecordPlace, Sw, Target};

/// A record of an elementary file, as P1 and P2 name it.
#[derive(Clone, Copy)]
struct RecordName {
    target: Target,
    choice: RecordChoice,
}

/// Returns the file in bits 8 to 4 of P2.
fn file_of(p2: u8) -> Option<Target>
    ensures file { NamesWhere result (is_record_file p2) (λ target. target ≡ record_file p2) }
    ensures ranges { IfSome result IsTarget }
{
    match p2 / 8 {
        0 => Some(Target::Current),
        31 => None,
        short => Some(Target::Short(short)),
    }
}

/// Returns the record place of P1.
fn record_place_of(p1: u8) -> RecordPlace
    ensures named { result ≡ record_place p1 }
    ensures ranges { IsRecordPlace result }
{
    match p1 {
        0 => RecordPlace::CurrentRecord,
        number => RecordPlace::Number(number),
    }
}

/// Returns the record of P1 and the mode in P2, if valid.
fn choice_of(p1: u8, p2: u8) -> Option<RecordChoice>
    ensures choice { NamesWhere result (is_choice p1 p2) (λ choice. choice ≡ record_choice p1 p2) }
    ensures ranges { IfSome result IsRecordChoice }
{
    match p2 % 8 {
        2 if p1 == 0 => Some(RecordChoice::Next),
        3 if p1 == 0 => Some(RecordChoice::Previous),
        4 => Some(RecordChoice::At(record_place_of(p1))),
        _ => None,
    }
}

/// Returns the search direction of the mode in P2, if valid.
fn direction_of(p2: u8) -> Option<Direction>
    ensures { NamesWhere result (is_direction p2) (λ way. way ≡ direction p2) }
{
    match p2 % 8 {
        4 => Some(Direction::Forward),
        5 => Some(Direction::Backward),
        _ => None,
    }
}

impl RecordName {
    /// Returns the record in P1 and P2 of READ or UPDATE RECORD.
    fn of(p1: u8, p2: u8) -> Option<RecordName>
        ensures record_name { NamesWhere result (is_record_file p2 && is_choice p1 p2) (λ name.
            (name.target ≡ record_file p2) × (name.choice ≡ record_choice p1 p2)) }
        ensures ranges { IfSome result (λ name. IsTarget name.target × IsRecordChoice name.choice) }
    {
        let target = file_of(p2)?;
        let choice = choice_of(p1, p2)?;
        Some(RecordName { target, choice })
    }
}

/// Parses READ RECORD (ISO/IEC 7816-4, 11.4.3) after its instruction.
///
/// # Errors
/// 6A86 if P1 and P2 name no record; 6700 with data, or without Le.
pub(crate) fn parse_read_record(operands: Operands<'_>) -> Parsed<'_>
    ensures { Parses (Some read_record_row) operands.entry result }
{
    let name = RecordName::of(operands.p1, operands.p2).ok_or(Sw::WRONG_PARAMETERS)?;
    let expected = CommandBody::parse(operands.rest)?.le_alone()?;
    Ok(Command::ReadRecord {
        target: name.target,
        choice: name.choice,
        expected,
    })
}

/// Parses UPDATE RECORD (ISO/IEC 7816-4, 11.4.5) after its instruction.
///
/// # Errors
/// 6A86 if P1 and P2 name no record; 6700 without data, or with Le.
pub(crate) fn parse_update_record(operands: Operands<'_>) -> Parsed<'_>
    ensures { Parses (Some update_record_row) operands.entry result }
{
    let name = RecordName::of(operands.p1, operands.p2).ok_or(Sw::WRONG_PARAMETERS)?;
    let bytes = CommandBody::parse(operands.rest)?.text_alone()?;
    Ok(Command::UpdateRecord {
        target: name.target,
        choice: name.choice,
        bytes,
    })
}

/// Parses APPEND RECORD (ISO/IEC 7816-4, 11.4.6) after its instruction.
///
/// # Errors
/// 6A86 if P1 isn't 00 or P2 names more than a file; 6700 without data, or with Le.
pub(crate) fn parse_append_record(operands: Operands<'_>) -> Parsed<'_>
    ensures { Parses (Some append_record_row) operands.entry result }
{
    if operands.p1 != 0 || operands.p2 % 8 != 0 {
        return Err(Sw::WRONG_PARAMETERS);
    }
    let target = file_of(operands.p2).ok_or(Sw::WRONG_PARAMETERS)?;
    let bytes = CommandBody::parse(operands.rest)?.text_alone()?;
    Ok(Command::AppendRecord { target, bytes })
}

/// Parses SEARCH RECORD (ISO/IEC 7816-4, 11.4.7) after its instruction.
///
/// # Errors
/// 6A86 if P2 names no file or no direction; 6700 without data.
pub(crate) fn parse_search_record(operands: Operands<'_>) -> Parsed<'_>
    ensures { Parses (Some search_record_row) operands.entry result }
{
    let target = file_of(operands.p2).ok_or(Sw::WRONG_PARAMETERS)?;
    let direction = direction_of(operands.p2).ok_or(Sw::WRONG_PARAMETERS)?;
    let body = CommandBody::parse(operands.rest)?;
    let text = body.text()?;
    Ok(Command::SearchRecord {
        target,
        first: record_place_of(operands.p1),
        direction,
        text,
        expected: body.expected,
    })
}

/// Parses INCREASE after its instruction.
///
/// # Errors
/// 6A86 unless P1 and P2 are 00 00; 6700 without data.
pub(crate) fn parse_increase(operands: Operands<'_>) -> Parsed<'_>
    ensures { Parses (Some increase_row) operands.entry result }
{
    operands.no_parameters()?;
    let body = CommandBody::parse(operands.rest)?;
    let amount = body.text()?;
    Ok(Command::Increase {
        amount,
        expected: body.expected,
    })
}
