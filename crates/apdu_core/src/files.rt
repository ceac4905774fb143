//! CREATE FILE and DELETE FILE (ISO/IEC 7816-9).
ghost use Rattle.std.specs.Prelude.{◌≡◌, ◌==◌, ◌||◌, ◌&&◌, not, Some, is_some, length};
ghost use Rattle.card_model.specs.declared.status.TheConstants.Sw.{WRONG_LENGTH};
ghost use Rattle.card_model.specs.CommandTable.{create_file_row, delete_file_row, subject_named};
ghost use Rattle.apdu_core.specs.Parsing.{Parses, ReadsWhere};

use crate::commands::{Command, Parsed};
use crate::form::{CommandBody, Operands};
use byteorder::{BigEndian, ByteOrder};
use card_model::{Subject, Sw};

/// Returns the file that the data field names.
/// No data names the current file, and two bytes are an identifier.
///
/// # Errors
/// 6700 unless the data field has 0 or 2 bytes and Le is absent.
pub(crate) fn subject_of(body: CommandBody<'_>) -> Result<Subject, Sw>
    ensures { ReadsWhere result (((length body.entry.sent.now == 0) || (length body.entry.sent.now == 2))
        && not (is_some body.entry.expected))
        (λ subject. subject ≡ subject_named body.entry.sent.now) WRONG_LENGTH }
{
    match (body.sent, body.expected) {
        ([], None) => Ok(Subject::Current),
        ([_, _], None) => Ok(Subject::Identifier(BigEndian::read_u16(body.sent))),
        _ => Err(Sw::WRONG_LENGTH),
    }
}

/// Parses CREATE FILE after its instruction.
///
/// # Errors
/// 6A86 unless P1 and P2 are 00 00; 6700 without data, or with Le.
pub(crate) fn parse_create_file(operands: Operands<'_>) -> Parsed<'_>
    ensures { Parses (Some create_file_row) operands.entry result }
{
    operands.no_parameters()?;
    let template = CommandBody::parse(operands.rest)?.text_alone()?;
    Ok(Command::CreateFile { template })
}

/// Parses DELETE FILE after its instruction.
///
/// # Errors
/// 6A86 unless P1 and P2 are 00 00; 6700 for a length other than 0 and 2, or with Le.
pub(crate) fn parse_delete_file(operands: Operands<'_>) -> Parsed<'_>
    ensures { Parses (Some delete_file_row) operands.entry result }
{
    operands.no_parameters()?;
    let subject = subject_of(CommandBody::parse(operands.rest)?)?;
    Ok(Command::DeleteFile { subject })
}
