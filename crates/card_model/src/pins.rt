//! PIN numbers, and sets of PINs, such as the verified or the disabled ones.

ghost use Rattle.std.specs.Prelude.{◌≡◌, ◌<◌, ◌+◌, ◌-◌, ◌↔◌, IsSome, IfSome, List, Bool, length};
ghost use Rattle.card_model.specs.Pins.{IsPinNumber, no_pins, has_pin, with_pin, without_pin};
ghost use Rattle.card_model.specs.declared.pins.TheConstants.{PINS};

use std::marker::Model;

/// The number of PINs of a card. Their numbers are 1 to `PINS`.
pub const PINS: u8 = 8;

/// The number of a PIN, 1 to 8.
#[derive(Clone, Copy)]
pub struct PinNumber {
    number: u8,
}

impl Model for PinNumber {
    ghost use Rattle.std.specs.Prelude.{ℕ};
    ghost use Rattle.card_model.specs.Pins.{IsPinNumber};

    ghost Value = { ℕ };

    ghost view = { λ p. p.number };

    ghost invariant = { λ p. IsPinNumber p.number };

    ghost inverse = { λ n. record { number = n } };
}

impl PinNumber {
    /// Returns the PIN with this number, or `None` outside 1 to 8.
    pub fn new(number: u8) -> Option<PinNumber>
        ensures valid { IsSome result ↔ IsPinNumber number }
        ensures value { IfSome result (λ pin. pin ≡ number) }
    {
        if (1..=PINS).contains(&number) {
            Some(PinNumber { number })
        } else {
            None
        }
    }

    /// Returns PIN 1.
    pub fn first() -> PinNumber
        ensures { result ≡ 1 }
    {
        PinNumber { number: 1 }
    }

    /// Returns the PIN after this one, or `None` after PIN 8.
    pub fn next(self) -> Option<PinNumber>
        ensures valid { IsSome result ↔ self < PINS }
        ensures value { IfSome result (λ pin. pin ≡ self + 1) }
    {
        PinNumber::new(self.get() + 1)
    }

    /// Returns the number, 1 to 8.
    pub fn get(self) -> u8
        ensures value { result ≡ self }
        ensures in_range { IsPinNumber self }
    {
        self.number
    }

    /// Returns the index of the PIN among all PINs, from 0.
    pub fn index(self) -> u8
        ensures value { result ≡ self - 1 }
        ensures in_range { result < PINS }
    {
        self.get() - 1
    }
}

/// A set of PINs, such as the verified or the disabled ones.
/// The verified PINs are the security status (ISO/IEC 7816-4, 11.5). A disabled PIN needs no verification.
#[derive(Clone, Copy)]
pub struct PinSet {
    marks: [bool; PINS as usize],
}

impl Model for PinSet {
    ghost Value = { List Bool };

    ghost view = { λ v. v.marks };

    ghost invariant = { λ v. length v.marks ≡ 8 };

    ghost inverse = { λ pins. record { marks = pins } };
}

impl PinSet {
    /// Returns the empty set.
    pub const fn new() -> PinSet
        ensures { result ≡ no_pins }
    {
        PinSet {
            marks: [false; PINS as usize],
        }
    }

    /// Returns true if the PIN is in the set.
    pub fn contains(&self, pin: PinNumber) -> bool
        ensures { result ≡ has_pin self.now pin }
    {
        let index = usize::from(pin.index());
        self.marks[index]
    }

    /// Adds the PIN to the set.
    pub fn insert(&mut self, pin: PinNumber)
        ensures { self.new ≡ with_pin self.old pin }
    {
        self.marks[usize::from(pin.index())] = true;
    }

    /// Removes the PIN from the set.
    pub fn remove(&mut self, pin: PinNumber)
        ensures { self.new ≡ without_pin self.old pin }
    {
        self.marks[usize::from(pin.index())] = false;
    }
}

impl Default for PinSet {
    ghost is_default = { λ pins. pins ≡ no_pins };

    fn default() -> PinSet {
        PinSet::new()
    }
}
