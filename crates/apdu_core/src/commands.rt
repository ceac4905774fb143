//! Commands as values, and their parser (ISO/IEC 7816-4, clause 5).
ghost use Rattle.card_model.specs.CommandTable.{asked, row_of};
ghost use Rattle.apdu_core.specs.Parsing.{IsParsed, Parses};

use crate::binary::{BinaryPlace, parse_read_binary, parse_update_binary};
use crate::files::{parse_create_file, parse_delete_file};
use crate::form::Operands;
use crate::life_cycles::{parse_life_cycle_change, parse_terminate_card_usage};
use crate::pins::{
    Replacement, parse_change_reference_data, parse_requirement_change, parse_reset_retry_counter,
    parse_verify,
};
use crate::records::{
    parse_append_record, parse_increase, parse_read_record, parse_search_record,
    parse_update_record,
};
use crate::select::{Selector, parse_select};
use card_model::{
    Direction, LifeCycleChange, PinNumber, RecordChoice, RecordPlace, RequirementChange, Returned,
    Subject, Sw, Target,
};

/// A command as a value.
/// `expected` is its Le byte: the number of bytes requested, where 0 means all.
#[derive(Clone, Copy)]
pub enum Command<'a> {
    /// SELECT (ISO/IEC 7816-4, 11.2.2), which returns a template or no data.
    Select {
        selector: Selector<'a>,
        returned: Returned,
        expected: Option<u8>,
    },
    /// READ BINARY (ISO/IEC 7816-4, 11.3.3), from this place on.
    ReadBinary {
        place: BinaryPlace,
        expected: u8,
    },
    /// UPDATE BINARY (ISO/IEC 7816-4, 11.3.5) with 1 to 255 bytes.
    UpdateBinary {
        place: BinaryPlace,
        bytes: &'a [u8],
    },
    /// CREATE FILE (ISO/IEC 7816-9).
    /// The template of the new file's control parameters has 1 to 255 bytes.
    CreateFile {
        template: &'a [u8],
    },
    /// DELETE FILE (ISO/IEC 7816-9).
    DeleteFile {
        subject: Subject,
    },
    /// READ RECORD (ISO/IEC 7816-4, 11.4.3).
    ReadRecord {
        target: Target,
        choice: RecordChoice,
        expected: u8,
    },
    /// UPDATE RECORD (ISO/IEC 7816-4, 11.4.5), with 1 to 255 bytes.
    UpdateRecord {
        target: Target,
        choice: RecordChoice,
        bytes: &'a [u8],
    },
    /// APPEND RECORD (ISO/IEC 7816-4, 11.4.6), of 1 to 255 bytes.
    AppendRecord {
        target: Target,
        bytes: &'a [u8],
    },
    /// SEARCH RECORD (ISO/IEC 7816-4, 11.4.7) from a record on.
    /// The text has 1 to 255 bytes.
    SearchRecord {
        target: Target,
        first: RecordPlace,
        direction: Direction,
        text: &'a [u8],
        expected: Option<u8>,
    },
    /// INCREASE (ETSI TS 102 221, 11.1.8).
    /// The number has 1 to 255 bytes, big-endian.
    Increase {
        amount: &'a [u8],
        expected: Option<u8>,
    },
    /// DEACTIVATE FILE, ACTIVATE FILE, TERMINATE DF or TERMINATE EF (ISO/IEC 7816-9).
    ChangeLifeCycle {
        change: LifeCycleChange,
        subject: Subject,
    },
    /// TERMINATE CARD USAGE (ISO/IEC 7816-9).
    TerminateCardUsage,
    /// VERIFY (ISO/IEC 7816-4, 11.5.6) of PIN 1 to 8.
    /// Without a value it asks for the remaining tries.
    Verify {
        pin: PinNumber,
        shown: Option<&'a [u8; 8]>,
    },
    /// CHANGE REFERENCE DATA (ISO/IEC 7816-4, 11.5.7) of PIN 1 to 8.
    ChangeReferenceData {
        pin: PinNumber,
        values: Replacement<'a>,
    },
    /// RESET RETRY COUNTER (ISO/IEC 7816-4, 11.5.10) of PIN 1 to 8.
    /// Without a value it asks for the remaining unblocking tries.
    ResetRetryCounter {
        pin: PinNumber,
        values: Option<Replacement<'a>>,
    },
    /// DISABLE or ENABLE VERIFICATION REQUIREMENT (ISO/IEC 7816-4, 11.5.9 and 11.5.8).
    /// The PIN is 1 to 8, and its value is presented.
    ChangeRequirement {
        change: RequirementChange,
        pin: PinNumber,
        shown: &'a [u8; 8],
    },
}

/// A command, or the status word that refuses it.
pub(crate) type Parsed<'a> = Result<Command<'a>, Sw>;

impl<'a> Command<'a> {
    /// Parses the bytes of a command.
    ///
    /// # Errors
    ///
    /// The status word of the first check that fails: fewer bytes than a header 6700, class 6E00,
    /// instruction 6D00, P1 and P2 6A86, and then lengths 6700.
    pub fn parse(bytes: &'a [u8]) -> Result<Command<'a>, Sw>
        ensures { IsParsed result (asked bytes.now) }
    {
        let [class, instruction, p1, p2, rest @ ..] = bytes else {
            return Err(Sw::WRONG_LENGTH);
        };
        let operands = Operands {
            p1: *p1,
            p2: *p2,
            rest,
        };
        match *class {
            0x00 => parse_standard(*instruction, operands),
            0x80 => parse_proprietary(*instruction, operands),
            _ => Err(Sw::UNKNOWN_CLASS),
        }
    }
}

/// Parses a command of class 00 after its class byte.
fn parse_standard(instruction: u8, operands: Operands<'_>) -> Parsed<'_>
    ensures { Parses (row_of 0x00 instruction) operands.entry result }
{
    match instruction {
        0x04 => parse_life_cycle_change(LifeCycleChange::Deactivate, operands),
        0x20 => parse_verify(operands),
        0x24 => parse_change_reference_data(operands),
        0x26 => parse_requirement_change(RequirementChange::Disable, operands),
        0x28 => parse_requirement_change(RequirementChange::Enable, operands),
        0x2C => parse_reset_retry_counter(operands),
        0x44 => parse_life_cycle_change(LifeCycleChange::Activate, operands),
        0xA2 => parse_search_record(operands),
        0xA4 => parse_select(operands),
        0xB0 => parse_read_binary(operands),
        0xB2 => parse_read_record(operands),
        0xD6 => parse_update_binary(operands),
        0xDC => parse_update_record(operands),
        0xE0 => parse_create_file(operands),
        0xE2 => parse_append_record(operands),
        0xE4 => parse_delete_file(operands),
        0xE6 => parse_life_cycle_change(LifeCycleChange::TerminateDf, operands),
        0xE8 => parse_life_cycle_change(LifeCycleChange::TerminateEf, operands),
        0xFE => parse_terminate_card_usage(operands),
        _ => Err(Sw::UNKNOWN_INSTRUCTION),
    }
}

/// Parses a command of class 80 after its class.
fn parse_proprietary(instruction: u8, operands: Operands<'_>) -> Parsed<'_>
    ensures { Parses (row_of 0x80 instruction) operands.entry result }
{
    match instruction {
        0x32 => parse_increase(operands),
        _ => Err(Sw::UNKNOWN_INSTRUCTION),
    }
}
