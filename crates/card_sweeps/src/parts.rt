//! Which cuts are tried if several runs of the program share a sweep.
ghost use Rattle.std.specs.Prelude.{◌<◌};

/// One of `of` parts of a sweep, counted from 0.
#[derive(Clone, Copy)]
pub struct SweepPart {
    index: u32,
    of: u32,
    ghost below: { index < of },
}

impl SweepPart {
    ghost use Rattle.std.specs.Prelude.{◌≡◌, ◌↔◌, ◌+◌, ℕ, IfNone, IfSome, IsTrue};
    ghost use Rattle.card_sweeps.specs.PartTexts.{IsFirstPart, IsOfPart, IsPartText};

    /// Returns the whole sweep.
    pub fn whole() -> SweepPart
        ensures { (result.index ≡ 0) × (result.of ≡ 1) }
    {
        SweepPart { index: 0, of: 1 }
    }

    /// Returns the part that a word as `2/4` names. It counts from 1.
    pub fn parse(words: &str) -> Option<SweepPart>
        ensures part { IfSome result (λ part. IsPartText words.now (part.index + 1) part.of) }
        ensures none { IfNone result ((number of : ℕ) → IsPartText words.now number of → ⊥) }
    {
        let (number, of) = words.split_once('/')?;
        let number = number.parse::<u32>().ok()?;
        let of = of.parse::<u32>().ok()?;
        if number == 0 || of < number {
            return None;
        }
        Some(SweepPart {
            index: number - 1,
            of,
        })
    }

    /// Returns true for the first part.
    pub fn is_first(self) -> bool
        ensures { IsTrue result ↔ IsFirstPart self }
    {
        self.index == 0
    }

    /// Returns true if a cut is of the part. The cuts are dealt out in turn, by write and mask.
    pub fn has(self, write: u32, i: u8) -> bool
        ensures { IsTrue result ↔ IsOfPart self write i }
    {
        (u64::from(write) + u64::from(i)) % u64::from(self.of) == u64::from(self.index)
    }
}
