//! The parts of a short command after its instruction: P1, P2 and body (ISO/IEC 7816-4, 5.2).
ghost use Rattle.std.specs.Prelude.{◌≡◌, ◌≢◌, ◌≤◌, ◌∷◌, ◌&&◌, ◌==◌, [], nat_le, not, length, is_some, Some};
ghost use Rattle.card_model.specs.declared.status.TheConstants.Sw.{WRONG_LENGTH, WRONG_PARAMETERS};
ghost use Rattle.card_model.specs.CommandTable.{is_no_parameter};
ghost use Rattle.apdu_core.specs.Parsing.{ReadsWhere, ReadsBody};

use card_model::Sw;

/// P1, P2, and the bytes after the header.
#[derive(Clone, Copy)]
pub(crate) struct Operands<'a> {
    pub p1: u8,
    pub p2: u8,
    pub rest: &'a [u8],
}

impl Operands<'_> {
    /// Checks that P1 and P2 are 00 00.
    ///
    /// # Errors
    /// 6A86 if they aren't.
    pub fn no_parameters(self) -> Result<(), Sw>
        ensures { ReadsWhere result (is_no_parameter self.entry.p1 self.entry.p2) (λ _. Unit {0}) WRONG_PARAMETERS }
    {
        if self.p1 != 0x00 || self.p2 != 0x00 {
            return Err(Sw::WRONG_PARAMETERS);
        }
        Ok(())
    }
}

/// The body of a command: the data field, and Le if present.
#[derive(Clone, Copy)]
pub(crate) struct CommandBody<'a> {
    pub sent: &'a [u8],
    pub expected: Option<u8>,
}

impl<'a> CommandBody<'a> {
    /// Returns the data field, with or without Le.
    ///
    /// # Errors
    /// 6700 if the data field is empty.
    pub fn text(self) -> Result<&'a [u8], Sw>
        requires { length self.sent.now ≤ 255 }
        ensures { ReadsWhere result (nat_le 1 (length self.entry.sent.now) && nat_le (length self.entry.sent.now) 255)
            (λ text. text.now ≡ self.entry.sent.now) WRONG_LENGTH }
    {
        if self.sent.is_empty() {
            return Err(Sw::WRONG_LENGTH);
        }
        Ok(self.sent)
    }

    /// Returns the data field of a command without Le.
    ///
    /// # Errors
    /// 6700 if the data field is empty, or Le is present.
    pub fn text_alone(self) -> Result<&'a [u8], Sw>
        requires { length self.sent.now ≤ 255 }
        ensures { ReadsWhere result (nat_le 1 (length self.entry.sent.now) && nat_le (length self.entry.sent.now) 255
            && not (is_some self.entry.expected)) (λ text. text.now ≡ self.entry.sent.now) WRONG_LENGTH }
    {
        if self.expected.is_some() {
            return Err(Sw::WRONG_LENGTH);
        }
        self.text()
    }

    /// Returns Le of a command without data field.
    ///
    /// # Errors
    /// 6700 if Le is absent, or the data field isn't empty.
    pub fn le_alone(self) -> Result<u8, Sw>
        ensures { ReadsWhere result ((length self.entry.sent.now == 0) && is_some self.entry.expected)
            (λ le. self.entry.expected ≡ Some le) WRONG_LENGTH }
    {
        match self.expected {
            Some(le) if self.sent.is_empty() => Ok(le),
            _ => Err(Sw::WRONG_LENGTH),
        }
    }

    /// Parses the bytes after a header.
    ///
    /// # Errors
    /// 6700 if and only if they have none of the four forms of a short command.
    pub fn parse(bytes: &'a [u8]) -> Result<CommandBody<'a>, Sw>
        ensures { ReadsBody result bytes.now }
    {
        match bytes {
            [] => Ok(CommandBody {
                sent: bytes,
                expected: None,
            }),
            [le] => Ok(CommandBody {
                sent: &[],
                expected: Some(*le),
            }),
            [lc, rest @ ..] => CommandBody::with_data(*lc, rest),
        }
    }

    /// Parses a body that begins with Lc.
    fn with_data(lc: u8, rest: &'a [u8]) -> Result<CommandBody<'a>, Sw>
        requires { rest.now ≢ [] }
        ensures { ReadsBody result (lc ∷ rest.now) }
    {
        let sent_length = usize::from(lc);
        if sent_length == 0 {
            Err(Sw::WRONG_LENGTH)
        } else if rest.len() == sent_length {
            Ok(CommandBody {
                sent: rest,
                expected: None,
            })
        } else if rest.len() == sent_length + 1 {
            Ok(CommandBody {
                sent: &rest[..sent_length],
                expected: Some(rest[sent_length]),
            })
        } else {
            Err(Sw::WRONG_LENGTH)
        }
    }
}
