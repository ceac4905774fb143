//! Sequence numbers N(S) and N(R) (ISO/IEC 7816-3, 11.3.2.2).

ghost use Rattle.std.specs.Prelude.{◌≡◌, ◌≤◌};
ghost use Rattle.t1_link.specs.SequenceNumbers.{at_bit, other_number};

/// The number N(S) or N(R) of an I-block, modulo 2.
#[derive(Clone, Copy, PartialEq, Eq)]
pub(crate) enum SequenceNumber {
    Zero,
    One,
}

impl SequenceNumber {
    /// Returns the other number, both the next and the previous one.
    pub(crate) fn other(self) -> SequenceNumber
        ensures { result ≡ other_number self }
    {
        match self {
            SequenceNumber::Zero => SequenceNumber::One,
            SequenceNumber::One => SequenceNumber::Zero,
        }
    }

    /// Returns the value of the number at `bit` of a control byte.
    pub(crate) fn at_bit(self, bit: u8) -> u8
        ensures value { result ≡ at_bit bit self }
        ensures low { result ≤ bit }
    {
        match self {
            SequenceNumber::Zero => 0,
            SequenceNumber::One => bit,
        }
    }
}
