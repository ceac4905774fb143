//! Commands on PINs (ISO/IEC 7816-4, 11.5).
ghost use Rattle.std.specs.Prelude.{◌≡◌, ◌==◌, Some, length, take, drop};
ghost use Rattle.card_model.specs.declared.status.TheConstants.Sw.{WRONG_PARAMETERS};
ghost use Rattle.card_model.specs.CommandTable.{verify_row, change_reference_data_row, reset_retry_counter_row, is_pin};
ghost use Rattle.card_model.specs.CommandTable.{requirement_row};
ghost use Rattle.apdu_core.specs.Parsing.{Parses, NamesWhere, ReadsWhere};

use crate::commands::{Command, Parsed};
use crate::form::{CommandBody, Operands};
use card_model::{PinNumber, RequirementChange, Sw};

/// The presented value, and the new value of the PIN.
#[derive(Clone, Copy)]
pub struct Replacement<'a> {
    pub shown: &'a [u8; 8],
    pub new: &'a [u8; 8],
}

impl<'a> Replacement<'a> {
    /// Returns the two values of these bytes, if they are 16.
    fn of(sent: &'a [u8]) -> Option<Replacement<'a>>
        ensures { NamesWhere result (length sent.now == 16) (λ values.
            (values.shown.now ≡ take 8 sent.now) × (values.new.now ≡ drop 8 sent.now)) }
    {
        let (shown, rest) = sent.split_first_chunk::<8>()?;
        let new = rest.as_array::<8>()?;
        Some(Replacement { shown, new })
    }
}

/// Returns the PIN that P1 and P2 name.
///
/// # Errors
/// 6A86 if they name none: P1 isn't 00, or P2 isn't 01 to 08.
fn pin_named(p1: u8, p2: u8) -> Result<PinNumber, Sw>
    ensures { ReadsWhere result (is_pin p1 p2) (λ pin. pin ≡ p2) WRONG_PARAMETERS }
{
    match PinNumber::new(p2) {
        Some(pin) if p1 == 0x00 => Ok(pin),
        _ => Err(Sw::WRONG_PARAMETERS),
    }
}

/// Parses VERIFY (ISO/IEC 7816-4, 11.5.6) after its instruction.
///
/// # Errors
/// 6A86 if P1 and P2 name no PIN; 6700 for a length other than 0 and 8, or with Le.
pub(crate) fn parse_verify(operands: Operands<'_>) -> Parsed<'_>
    ensures { Parses (Some verify_row) operands.entry result }
{
    let pin = pin_named(operands.p1, operands.p2)?;
    let body = CommandBody::parse(operands.rest)?;
    let shown = body.sent.as_array::<8>();
    if body.expected.is_some() || shown.is_none() && !body.sent.is_empty() {
        return Err(Sw::WRONG_LENGTH);
    }
    Ok(Command::Verify { pin, shown })
}

/// Parses CHANGE REFERENCE DATA (ISO/IEC 7816-4, 11.5.7) after its instruction.
///
/// # Errors
/// 6A86 if P1 and P2 name no PIN; 6700 for a length other than 16, or with Le.
pub(crate) fn parse_change_reference_data(operands: Operands<'_>) -> Parsed<'_>
    ensures { Parses (Some change_reference_data_row) operands.entry result }
{
    let pin = pin_named(operands.p1, operands.p2)?;
    let body = CommandBody::parse(operands.rest)?;
    match Replacement::of(body.sent) {
        Some(values) if body.expected.is_none() => Ok(Command::ChangeReferenceData { pin, values }),
        _ => Err(Sw::WRONG_LENGTH),
    }
}

/// Parses RESET RETRY COUNTER (ISO/IEC 7816-4, 11.5.10) after its instruction.
///
/// # Errors
/// 6A86 if P1 and P2 name no PIN; 6700 for a length other than 0 and 16, or with Le.
pub(crate) fn parse_reset_retry_counter(operands: Operands<'_>) -> Parsed<'_>
    ensures { Parses (Some reset_retry_counter_row) operands.entry result }
{
    let pin = pin_named(operands.p1, operands.p2)?;
    let body = CommandBody::parse(operands.rest)?;
    let values = Replacement::of(body.sent);
    if body.expected.is_some() || values.is_none() && !body.sent.is_empty() {
        return Err(Sw::WRONG_LENGTH);
    }
    Ok(Command::ResetRetryCounter { pin, values })
}

/// Parses DISABLE or ENABLE VERIFICATION REQUIREMENT (ISO/IEC 7816-4, 11.5) after its instruction.
///
/// # Errors
/// 6A86 if P1 and P2 name no PIN; 6700 for a length other than 8, or with Le.
pub(crate) fn parse_requirement_change(
    change: RequirementChange,
    operands: Operands<'_>,
) -> Parsed<'_>
    ensures { Parses (Some (requirement_row change)) operands.entry result }
{
    let pin = pin_named(operands.p1, operands.p2)?;
    let body = CommandBody::parse(operands.rest)?;
    match body.sent.as_array::<8>() {
        Some(shown) if body.expected.is_none() => Ok(Command::ChangeRequirement {
            change,
            pin,
            shown,
        }),
        _ => Err(Sw::WRONG_LENGTH),
    }
}
