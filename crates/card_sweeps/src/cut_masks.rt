//! The masks with which a torn write is tried.
ghost use Rattle.std.specs.Prelude.{◌≡◌, ◌≤◌, ◌<◌, ◌+◌, ◌-◌, ◌^◌, ℕ};
ghost use Rattle.card_sweeps.specs.Masks.{mask_count_of, words_tried};

/// Returns the number of words to try, at least 1.
/// `told` is the number that the board reports.
pub fn words_to_try(told: u8) -> u8
    requires { told ≤ 16 }
    ensures tried { result ≡ words_tried told }
    ensures some { 1 ≤ result }
    ensures fits { result ≤ 16 }
{
    if told == 0 { 1 } else { told }
}

/// Returns the number of masks for a torn write of `words` words.
/// One word has two masks: none new, and all new. More words also have a mask for each single new word.
pub fn mask_count(words: u8) -> u8
    requires { words ≤ 16 }
    ensures { result ≡ mask_count_of words }
{
    if words < 2 { words + 1 } else { words + 2 }
}

/// Returns mask `i`: none new, all new, then each single word.
pub fn mask_at(words: u8, i: u8) -> u16
    requires words { words ≤ 16 }
    requires place { i < mask_count_of words }
    ensures none { i ≡ 0 → result ≡ 0 }
    ensures all { i ≡ 1 → result + 1 ≡ 2 ^ words }
    ensures single { (bit : ℕ) → i ≡ bit + 2 → result ≡ 2 ^ bit }
{
    match i {
        0 => 0,
        1 => ((1u32 << words) - 1) as u16,
        _ => 1 << (i - 2),
    }
}
