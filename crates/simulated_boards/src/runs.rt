//! Runs of words, written whole or torn.
ghost use Rattle.std.specs.Prelude.{◌≡◌, ◌+◌, ◌≤◌, length};
ghost use Rattle.nvm_board.specs.Facts.{AreWords};
ghost use Rattle.nvm_board.specs.History.{written};
ghost use Rattle.nvm_board.specs.Torn.{IsTornBy};
ghost use Rattle.nvm_board.specs.declared.board.TheConstants.{PAGE_WORDS};

use nvm_board::PAGE_WORDS;

/// Writes the run over the words from index `start` on.
pub(crate) fn put_run(words: &mut [u32], start: usize, run: &[u32])
    requires { start + length run.now ≤ length words.old }
    ensures put { words.new ≡ written words.old start run.now }
    ensures size { length words.new ≡ length words.old }
    ensures fits { AreWords words.old → AreWords words.new }
{
    for (i, word) in run.iter().enumerate() {
        words[start + i] = *word;
    }
}

/// Writes the words of the run whose mask bit is set.
pub(crate) fn put_masked(words: &mut Vec<u32>, start: usize, run: &[u32], mask: u16)
    requires inside { start + length run.now ≤ length words.old.items }
    requires page { length run.now ≤ PAGE_WORDS }
    ensures torn { IsTornBy mask words.old.items start run.now words.new.items }
    ensures fits { AreWords words.old.items → AreWords words.new.items }
{
    for (i, word) in run.iter().enumerate() {
        if mask & 1 << i != 0 {
            words[start + i] = *word;
        }
    }
}
