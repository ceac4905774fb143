//! Followers of the words of a board.
ghost use Rattle.std.specs.Prelude.{◌≡◌, ◌≤◌, ◌<◌, ◌+◌, ◌*◌, ◌%◌, Bool, true, not, IsTrue};
ghost use Rattle.std.specs.Prelude.{Option, None, is_some, length};
ghost use Rattle.nvm_board.specs.declared.board.TheConstants.{MOST_PAGES, PAGE_WORDS};
ghost use Rattle.nvm_board.specs.History.{Log, and_run};

/// Takes the words of a board as they are written, as a file does.
pub trait Follower {
    /// The log of the writes that it took, if one is known: that of a file is not.
    ghost log: { Self → Option Log } = { λ _. None };

    /// True if it didn't get all words of the last write.
    ghost behind: { Self → Bool };

    /// Takes the words of one device write, 1 to 16 of one page, from an address on.
    /// Returns false if it didn't get them all: then it takes nothing more. A follower with a log gets them all.
    fn take(&mut self, at: usize, words: &[u32]) -> bool
        requires some { 0 < length words.now }
        requires page { at % PAGE_WORDS + length words.now ≤ PAGE_WORDS }
        requires within { at + length words.now ≤ PAGE_WORDS * MOST_PAGES }
        ensures logs { log self.new ≡ and_run (log self.old) (record { at = at; words = words.now }) }
        ensures keeps_up { is_some (log self.new) ≡ true → IsTrue result }
        ensures told { result ≡ not (behind self.new) }
        ensures never { behind self.old ≡ true → self.new ≡ self.old };
}
