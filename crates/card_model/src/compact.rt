//! Access rules in compact format (ISO/IEC 7816-4, 9.3.3).

ghost use Rattle.std.specs.Prelude.{◌≡◌, ◌<◌, ◌≤◌, length, Some, None, is_some, IsTrue, if◌then◌else◌};
ghost use Rattle.std.specs.List.{list_all};
ghost use Rattle.card_model.specs.Rule.{condition_of, is_met, is_rule, condition_at, allows};

use crate::access_mode::{AccessBit, AccessMode};
use crate::life_cycle::LifeCycle;
use crate::pins::{PinNumber, PinSet};
use arrayvec::ArrayVec;
use bitflags::Flags;
use std::marker::Model;

/// What a condition byte of a rule requires.
#[derive(Clone, Copy)]
enum Condition {
    Always,
    Never,
    /// The PIN is verified or disabled.
    Verified(PinNumber),
}

impl Condition {
    /// Returns the condition of a byte.
    /// Valid bytes are 00, FF, 11 to 18 and 91 to 98.
    fn from_byte(byte: u8) -> Option<Condition>
        ensures { result ≡ condition_of byte }
    {
        match byte {
            0x00 => Some(Condition::Always),
            0xFF => Some(Condition::Never),
            0x11..=0x18 | 0x91..=0x98 => PinNumber::new(byte % 16).map(Condition::Verified),
            _ => None,
        }
    }

    /// Returns true if these verified and disabled PINs meet the condition.
    fn is_met(self, verified: &PinSet, disabled: &PinSet) -> bool
        ensures { result ≡ is_met verified.now disabled.now self }
    {
        match self {
            Condition::Always => true,
            Condition::Never => false,
            Condition::Verified(pin) => verified.contains(pin) || disabled.contains(pin),
        }
    }
}

/// An access rule in compact format (ISO/IEC 7816-4, 9.3.3).
/// An access mode byte with bit 8 clear comes first. A condition byte for each of its set bits follows, from bit 7
/// down.
#[derive(Drop)]
pub struct Compact {
    bytes: ArrayVec<u8, 8>,
}

impl Model for Compact {
    ghost use Rattle.std.specs.Prelude.{ℕ, List, IsTrue};
    ghost use Rattle.card_model.specs.Rule.{is_rule};

    ghost Value = { List ℕ };

    ghost view = { λ rule. rule.bytes.items };

    ghost invariant = { λ rule. IsTrue (is_rule rule.bytes.items) };
}

impl Compact {
    /// Returns the rule of these bytes, or `None` if invalid.
    pub fn parse(bytes: &[u8]) -> Option<Compact>
        ensures { result ≡ (if is_rule bytes.now then Some bytes.now else None) }
    {
        if !is_rule(bytes) {
            return None;
        }
        let mut rule = ArrayVec::new();
        rule.try_extend_from_slice(bytes).unwrap();
        Some(Compact { bytes: rule })
    }

    /// Returns the bytes of the rule, 1 to 8.
    pub fn as_bytes(&self) -> &[u8]
        ensures bytes { result.now ≡ self.now }
        ensures rule { IsTrue (is_rule self.now) }
        ensures some { 0 < length self.now }
        ensures few { length self.now ≤ 8 }
    {
        self.bytes.as_slice()
    }

    /// Returns true if the rule allows the operation of `bit`.
    /// `state` is the life cycle state of its file.
    /// `verified` and `disabled` are the verified and the disabled PINs.
    pub fn allows(
        &self,
        bit: AccessBit,
        state: LifeCycle,
        verified: &PinSet,
        disabled: &PinSet,
    ) -> bool
        ensures { result ≡ allows self.now bit state verified.now disabled.now }
    {
        allows(self.as_bytes(), bit, state, verified, disabled)
    }
}

/// Returns true if the rule `bytes` allows the operation of `bit`.
/// `state` is the life cycle state of its file.
/// `verified` and `disabled` are the verified and the disabled PINs.
pub fn allows(
    bytes: &[u8],
    bit: AccessBit,
    state: LifeCycle,
    verified: &PinSet,
    disabled: &PinSet,
) -> bool
    ensures { result ≡ allows bytes.now bit state verified.now disabled.now }
{
    match state {
        LifeCycle::Creation | LifeCycle::Initialisation => true,
        LifeCycle::Deactivated | LifeCycle::Activated | LifeCycle::Terminated => {
            match condition_at(bytes, bit) {
                Some(condition) => condition.is_met(verified, disabled),
                None => false,
            }
        }
    }
}

/// Returns the condition of the bit, or `None` if it is clear.
fn condition_at(bytes: &[u8], bit: AccessBit) -> Option<Condition>
    ensures { result ≡ condition_at bytes.now bit }
{
    let mode = AccessMode::from_bits_retain(*bytes.first()?);
    if !mode.has(bit) {
        return None;
    }
    Condition::from_byte(*bytes.get(mode.set_down_to(bit))?)
}

/// Returns true if the bytes are a valid rule.
fn is_rule(bytes: &[u8]) -> bool
    ensures { result ≡ is_rule bytes.now }
{
    let Some((mode, conditions)) = bytes.split_first() else {
        return false;
    };
    match AccessMode::from_byte(*mode) {
        Some(mode) => conditions.len() == mode.count() && are_conditions(conditions),
        None => false,
    }
}

/// Returns true if each byte is a valid condition byte.
fn are_conditions(bytes: &[u8]) -> bool
    ensures { result ≡ list_all (λ b. is_some (condition_of b)) bytes.now }
{
    bytes
        .iter()
        .all(|byte| Condition::from_byte(*byte).is_some())
}
