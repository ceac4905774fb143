//! Followers of the words of a flash.
ghost use Rattle.std.specs.Prelude.{◌≡◌, ◌≤◌, ◌+◌, Bool, true, not, IsTrue, Option, None, is_some, length};
ghost use Rattle.nvm_board.specs.History.{Log, and_run};
ghost use Rattle.simulated_flashes.specs.declared.flash_follower.TheConstants.{MOST_FLASH_WORDS};

/// The number of words of a flash with 65,535 slots in each area. No simulated flash has more.
pub const MOST_FLASH_WORDS: u32 = 2_621_406;

/// Takes the words of a flash as it programs and erases them, as a file does.
pub trait FlashFollower {
    /// The log of what it took, if one is known: that of a file is not.
    ghost log: { Self → Option Log } = { λ _. None };

    /// True if it didn't get all words of the last operation.
    ghost behind: { Self → Bool };

    /// Takes the words of one program or erase, from an address on.
    /// Returns false if it didn't get them all: then it takes nothing more. A follower with a log gets them all.
    fn take_run(&mut self, at: usize, words: &[u32]) -> bool
        requires within { at + length words.now ≤ MOST_FLASH_WORDS }
        ensures logs { log self.new ≡ and_run (log self.old) (record { at = at; words = words.now }) }
        ensures keeps_up { is_some (log self.new) ≡ true → IsTrue result }
        ensures told { result ≡ not (behind self.new) }
        ensures never { behind self.old ≡ true → self.new ≡ self.old };
}
