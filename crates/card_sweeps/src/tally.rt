//! Counts the runs of a sweep by their findings.
ghost use Rattle.std.specs.Prelude.{◌≡◌, ◌≢◌, false, ◌≤◌, ◌<◌, ◌+◌, ◌-◌, ◌↔◌, ◌^◌, ◌∷◌, [], length, sum_by, All};
ghost use Rattle.std.specs.Prelude.{AllPairs, IsTrue, IfOk, OnOk, IfSome, IfNone, Some};
ghost use Rattle.std.specs.Prelude.{slice_get, slice_set, map, Contains};
ghost use Rattle.card_sweeps.specs.Tallies.{Finding, finding, findings, times_seen, Adds, IsAt, CountsOne};

use bench_turns::Item;
use card_model::FreeSpace;
use std::alloc::{AllocError, Global};

/// The result of each of a list of turns.
pub type Trace = Vec<Item>;

/// A finding, and the number of runs with it.
#[derive(Drop)]
pub struct Seen {
    /// The trace of the probe.
    pub trace: Trace,
    /// The free space before the probe; zero if power-on failed.
    pub free: FreeSpace,
    /// The number of runs with this finding.
    pub count: u32,
}

/// How a sweep ends.
#[derive(Clone, Copy, Drop)]
pub enum SweepEnd {
    /// All runs were counted.
    Whole,
    /// The greatest number of runs was counted, and there are more.
    Full,
    /// Runs of the same turn left memories that don't fit together, so the board is not deterministic.
    Differs,
}

/// The tally of a sweep.
#[derive(Drop)]
pub struct Sweep {
    /// How the sweep ended. The tally is that of the runs up to there.
    pub end: SweepEnd,
    /// The number of runs.
    pub runs: u32,
    /// The different findings, in the order of their first run.
    pub seen: Vec<Seen>,
    ghost sum: { sum_by times_seen seen.items ≡ runs },
    ghost given: { All (λ s. 1 ≤ s.count) seen.items },
    ghost different: { AllPairs (λ a b. a ≢ b) (findings seen.items) },
}

impl Sweep {
    /// Returns an empty tally.
    pub(crate) fn new(alloc: Global) -> Sweep
        ensures { result.seen.items ≡ [] }
    {
        Sweep {
            end: SweepEnd::Whole,
            runs: 0,
            seen: Vec::new(alloc),
        }
    }

    /// Returns true if no further run can be counted.
    pub(crate) fn is_full(&self) -> bool
        ensures full { IsTrue result ↔ (self.now.runs ≡ 2 ^ 32 - 1) }
        ensures spare { result ≡ false → self.now.runs < 2 ^ 32 - 1 }
    {
        self.runs == u32::MAX
    }

    /// Counts a run with this finding.
    pub(crate) fn count(&mut self, trace: Trace, free: FreeSpace) -> Result<(), AllocError>
        requires { self.old.runs < 2 ^ 32 - 1 }
        ensures adds { Adds (λ f. f ≡ record { trace = trace.items; free = free })
            (findings self.old.seen.items) (findings self.new.seen.items) }
        ensures runs { OnOk result (self.new.runs ≡ self.old.runs + 1) }
        ensures counts { OnOk result (CountsOne (record { trace = trace.items; free = free })
            self.old.seen.items self.new.seen.items) }
    {
        if let Some(place) = self.place_of(&trace, free) {
            self.count_again(place);
            return Ok(());
        }
        self.seen.push(Seen {
            trace,
            free,
            count: 1,
        })?;
        self.runs += 1;
        Ok(())
    }

    /// Counts another run with the finding at this index.
    fn count_again(&mut self, place: usize)
        requires place { place < length self.old.seen.items }
        requires spare { self.old.runs < 2 ^ 32 - 1 }
        ensures same { findings self.new.seen.items ≡ findings self.old.seen.items }
        ensures runs { self.new.runs ≡ self.old.runs + 1 }
        ensures again { (s : Seen) → slice_get self.old.seen.items place ≡ Some s
            → self.new.seen.items ≡ slice_set self.old.seen.items place (record s { count = s.count + 1 }) }
    {
        self.seen[place].count += 1;
        self.runs += 1;
    }

    /// Returns the index of this finding.
    fn place_of(&self, trace: &[Item], free: FreeSpace) -> Option<usize>
        ensures found { IfSome result (λ i. i < length self.now.seen.items) }
        ensures same { IfSome result (λ i. IsAt i (record { trace = trace.now; free = free }) self.now.seen.items) }
        ensures new { IfNone result
            (All (λ s. finding s ≢ record { trace = trace.now; free = free }) self.now.seen.items) }
    {
        for i in 0..self.seen.len() {
            if self.seen[i].is_same(trace, free) {
                return Some(i);
            }
        }
        None
    }
}

impl Seen {
    /// Returns true if it is this finding.
    fn is_same(&self, trace: &[Item], free: FreeSpace) -> bool
        ensures { IsTrue result ↔ (finding self.now ≡ record { trace = trace.now; free = free }) }
    {
        self.free == free && is_same_trace(&self.trace, trace)
    }
}

/// Returns true if two traces are the same.
fn is_same_trace(left: &[Item], right: &[Item]) -> bool
    ensures { IsTrue result ↔ (left.now ≡ right.now) }
{
    if left.len() != right.len() {
        return false;
    }
    for i in 0..left.len() {
        if !left[i].is_same(&right[i]) {
            return false;
        }
    }
    true
}

/// Returns a trace for this number of turns, before they are played.
pub(crate) fn blank_trace(alloc: Global, turns: usize) -> Result<Trace, AllocError>
    ensures { IfOk result (λ trace. length trace.items ≡ turns) }
{
    let mut trace = Vec::new(alloc);
    for _ in 0..turns {
        trace.push(Item::Quiet)?;
    }
    Ok(trace)
}
