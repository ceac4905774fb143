//! Compares the memory that a cut leaves with those before and after the device write.
ghost use Rattle.std.specs.Prelude.{◌≡◌, ◌≢◌, ◌⊎◌, ◌≤◌, ◌<◌, ◌+◌, ◌↔◌, length, slice_index, false, IsTrue};
ghost use Rattle.card_sweeps.specs.WrittenRuns.{IsFirstChange, IsMasked, IsNewWithin, WrittenRun};

/// Returns the lowest address at which two memories differ.
pub fn first_change(left: &[u32], right: &[u32]) -> Option<usize>
    ensures { IsFirstChange left.now right.now result }
{
    for at in 0..left.len().min(right.len()) {
        if left[at] != right[at] {
            return Some(at);
        }
    }
    None
}

/// Returns true if `left` is `after` from address `first` up to before `end`, and `before` at all others.
/// It compares whole slices, since a sweep does so after each cut.
fn is_new_within(first: usize, end: usize, before: &[u32], after: &[u32], left: &[u32]) -> bool
    requires order { first ≤ end }
    requires inside { end ≤ length before.now }
    ensures { IsTrue result ↔ IsNewWithin first end before.now after.now left.now }
{
    if left.len() != before.len() {
        return false;
    }
    if after.len() != before.len() {
        return false;
    }
    if !is_same(&left[..first], &before[..first]) {
        return false;
    }
    if !is_same(&left[end..], &before[end..]) {
        return false;
    }
    is_same(&left[first..end], &after[first..end])
}

/// Returns true if `left` is what a cut with mask number `i` has to leave of a write of `words` words at `at`.
pub fn is_masked(at: usize, words: u8, i: u8, before: &[u32], after: &[u32], left: &[u32]) -> bool
    requires inside { at + words ≤ length before.now }
    requires single { i ≤ words + 1 }
    ensures { IsTrue result ↔ IsMasked (record { at = at; words = words; before = before.now; after = after.now }) i
        left.now }
{
    let (first, end) = match i {
        0 => (at, at),
        1 => (at, at + usize::from(words)),
        _ => (at + usize::from(i - 2), at + usize::from(i - 2) + 1),
    };
    is_new_within(first, end, before, after, left)
}

/// Returns true if `none` and `all` are what cuts with the first two masks have to leave of such a write, and it lies
/// in the memory.
pub fn is_write(at: usize, words: u8, before: &[u32], none: &[u32], all: &[u32]) -> bool
    ensures inside { IsTrue result → at + words ≤ length before.now }
    ensures none { IsTrue result → IsMasked
        (record { at = at; words = words; before = before.now; after = all.now }) 0 none.now }
    ensures all { IsTrue result → IsMasked
        (record { at = at; words = words; before = before.now; after = all.now }) 1 all.now }
    ensures other { result ≡ false → at + words ≤ length before.now
        → (IsMasked (record { at = at; words = words; before = before.now; after = all.now }) 0 none.now → ⊥)
        ⊎ (IsMasked (record { at = at; words = words; before = before.now; after = all.now }) 1 all.now → ⊥) }
{
    at <= before.len()
        && usize::from(words) <= before.len() - at
        && is_masked(at, words, 0, before, all, none)
        && is_masked(at, words, 1, before, all, all)
}

/// Returns true if two memories have the same word at an address, or both have none there.
pub fn is_same_word(at: usize, left: &[u32], right: &[u32]) -> bool
    ensures same { IsTrue result → slice_index left.now at ≡ slice_index right.now at }
    ensures other { result ≡ false → at < length left.now → at < length right.now
        → slice_index left.now at ≢ slice_index right.now at }
{
    if at < left.len().min(right.len()) {
        left[at] == right[at]
    } else {
        left.len() == right.len()
    }
}

/// Returns true if two memories are the same.
pub fn is_same(left: &[u32], right: &[u32]) -> bool
    ensures { IsTrue result ↔ (left.now ≡ right.now) }
{
    left == right
}
