//! The sizes of program units.
ghost use Rattle.std.specs.Prelude.{◌≡◌, ℕ};
ghost use Rattle.program_units.specs.UnitFrames.{IsUnit};

/// A size of program units.
pub trait UnitSize {
    /// The number of words.
    const WORDS: u32;

    ghost WORDS: { ℕ };

    /// Returns the number of words.
    fn word_count() -> u32
        ensures { result ≡ WORDS };

    ghost fits: { IsUnit WORDS };
}

/// Units of one word.
#[derive(Clone, Copy)]
pub struct One;

impl UnitSize for One {
    ghost use Rattle.std.proofs.Common.{inl, inr, refl};

    const WORDS: u32 = 1;

    ghost WORDS = { 1 };

    fn word_count() -> u32 {
        1
    }

    ghost fits = { record { is = inl (inl refl) } };
}

/// Units of two words.
#[derive(Clone, Copy)]
pub struct Two;

impl UnitSize for Two {
    ghost use Rattle.std.proofs.Common.{inl, inr, refl};

    const WORDS: u32 = 2;

    ghost WORDS = { 2 };

    fn word_count() -> u32 {
        2
    }

    ghost fits = { record { is = inl (inr refl) } };
}

/// Units of four words.
#[derive(Clone, Copy)]
pub struct Four;

impl UnitSize for Four {
    ghost use Rattle.std.proofs.Common.{inl, inr, refl};

    const WORDS: u32 = 4;

    ghost WORDS = { 4 };

    fn word_count() -> u32 {
        4
    }

    ghost fits = { record { is = inr (inl refl) } };
}

/// Units of eight words.
#[derive(Clone, Copy)]
pub struct Eight;

impl UnitSize for Eight {
    ghost use Rattle.std.proofs.Common.{inl, inr, refl};

    const WORDS: u32 = 8;

    ghost WORDS = { 8 };

    fn word_count() -> u32 {
        8
    }

    ghost fits = { record { is = inr (inr refl) } };
}
