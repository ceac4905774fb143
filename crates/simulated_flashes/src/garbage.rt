//! What a flash holds where an operation was interrupted, and where one was not.
ghost use Rattle.std.specs.Prelude.{◌≡◌, ◌+◌, ◌≤◌, ◌<◌, length, is_some, false};
ghost use Rattle.nvm_board.specs.Facts.{AreWords};
ghost use Rattle.flash_device.specs.FlashCalls.{SameElsewhere, IsThere, AreFilled};
ghost use Rattle.flash_device.specs.declared.flash.TheConstants.{BLANK};
ghost use Rattle.simulated_flashes.specs.Complements.{AreComplements, IsFirstRandom, random_after};

use flash_device::BLANK;

/// The words of a commit mark.
const MARK: [u32; 2] = [0x436F_6D6D, 0x6974_7321];

/// Puts a run into words.
pub(crate) fn put_run(words: &mut Vec<u32>, at: usize, run: &[u32])
    requires { at + length run.now ≤ length words.old.items }
    ensures size { length words.new.items ≡ length words.old.items }
    ensures there { IsThere words.new.items at run.now }
    ensures elsewhere { SameElsewhere words.old.items at (length run.now) words.new.items }
    ensures fits { AreWords words.old.items → AreWords words.new.items }
{
    for k in 0..run.len() {
        words[at + k] = run[k];
    }
}

/// Makes words blank.
pub(crate) fn blank_run(words: &mut Vec<u32>, at: usize, size: usize)
    requires { at + size ≤ length words.old.items }
    ensures size { length words.new.items ≡ length words.old.items }
    ensures all { AreFilled words.new.items at size BLANK }
    ensures elsewhere { SameElsewhere words.old.items at size words.new.items }
    ensures fits { AreWords words.old.items → AreWords words.new.items }
{
    for k in 0..size {
        words[at + k] = BLANK;
    }
}

/// Returns the next random number.
pub(crate) fn next_random(random: u64) -> u64
    ensures { result ≡ random_after random }
{
    random
        .wrapping_mul(6_364_136_223_846_793_005)
        .wrapping_add(1_442_695_040_888_963_407)
}

/// Returns a word in a place of an area, which was old and was to be new, in one of eight kinds of garbage.
fn garbage(random: u64, kind: u64, place: usize, old: u32, new: u32) -> u32 {
    let noise = (random >> 32) as u32;
    match kind {
        0 => noise,
        1 => old,
        2 => new,
        3 => old & (new | noise),
        4 if noise % 2 == 0 => old,
        4 => new,
        5 => MARK[place % 2],
        6 => BLANK,
        // Whole slots, with other words.
        _ => match place % 20 {
            16 => noise % 1024,
            18 => MARK[0],
            19 => MARK[1],
            _ => noise,
        },
    }
}

/// Leaves garbage in `size` words that were to be those of a run, and blank behind it. The random number chooses its
/// kind. An area has `area` words.
fn garble_run(words: &mut Vec<u32>, at: usize, size: usize, run: &[u32], random: u64, area: usize)
    requires within { at + size ≤ length words.old.items }
    requires area { 0 < area }
    ensures size { length words.new.items ≡ length words.old.items }
    ensures elsewhere { SameElsewhere words.old.items at size words.new.items }
    ensures fits { AreWords words.old.items → AreWords words.new.items }
{
    let kind = (random >> 40) % 8;
    let mut random = random;
    for k in 0..size {
        random = next_random(random);
        let new = if k < run.len() { run[k] } else { BLANK };
        let place = (at + k) % area;
        words[at + k] = garbage(random, kind, place, words[at + k], new);
    }
}

/// Leaves the complement of each of `size` words that were to be those of a run, and blank behind it.
fn complement_run(words: &mut Vec<u32>, at: usize, size: usize, run: &[u32])
    requires { at + size ≤ length words.old.items }
    ensures size { length words.new.items ≡ length words.old.items }
    ensures complements { AreComplements words.new.items at size run.now }
    ensures elsewhere { SameElsewhere words.old.items at size words.new.items }
    ensures fits { AreWords words.old.items → AreWords words.new.items }
{
    for k in 0..size {
        let new = if k < run.len() { run[k] } else { BLANK };
        words[at + k] = !new;
    }
}

/// Leaves what an interrupted operation leaves of `size` words that were to be those of a run, and blank behind it:
/// garbage by a random number, or without one the complement of each word. An area has `area` words.
pub(crate) fn tear_run(
    words: &mut Vec<u32>,
    at: usize,
    size: usize,
    run: &[u32],
    random: Option<u64>,
    area: usize,
)
    requires within { at + size ≤ length words.old.items }
    requires area { 0 < area }
    ensures size { length words.new.items ≡ length words.old.items }
    ensures complements { is_some random ≡ false → AreComplements words.new.items at size run.now }
    ensures elsewhere { SameElsewhere words.old.items at size words.new.items }
    ensures fits { AreWords words.old.items → AreWords words.new.items }
{
    match random {
        Some(random) => garble_run(words, at, size, run, random, area),
        None => complement_run(words, at, size, run),
    }
}

/// Returns the random number that chooses the first garbage of a flash with this seed. Seed 0 has none.
pub(crate) fn first_random(seed: u64) -> Option<u64>
    ensures { IsFirstRandom seed result }
{
    if seed == 0 {
        None
    } else {
        Some(next_random(seed))
    }
}
