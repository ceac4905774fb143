//! Laws of the definitions, as contracts of functions that do nothing.
ghost use Rattle.std.specs.Prelude.{◌≡◌, ◌+◌, ◌*◌, ◌≤◌, ◌↔◌, ℕ, List, length};
ghost use Rattle.nvm_board.specs.declared.board.TheConstants.{LEAST_PAGES, MOST_PAGES, PAGE_WORDS, SECRETS, COUNT_END};
ghost use Rattle.nvm_board.specs.Facts.{IsMemory, pages_of};
ghost use Rattle.nvm_board.specs.Torn.{Torn, IsMixture};

/// Proves the numbers of a board. These are its pages, the words of a page and of the least board, its secrets, and
/// the end of a count.
pub fn layout()
    ensures least { LEAST_PAGES ≡ 1024 }
    ensures most { MOST_PAGES ≡ 4096 }
    ensures page_words { PAGE_WORDS ≡ 16 }
    ensures words { PAGE_WORDS * LEAST_PAGES ≡ 16384 }
    ensures secrets { SECRETS ≡ 16 }
    ensures count_end { COUNT_END ≡ 18446744073709551615 }
{}

/// Proves that a memory is 16 words a page. It has 1,024 to 4,096 pages.
#[tactic(auto, using(crate::specs::laws::Sizes::memory_of_pages))]
pub fn memories()
    ensures made { (words : List ℕ) (pages : ℕ) → 1024 ≤ pages → pages ≤ 4096 → length words ≡ 16 * pages
        → IsMemory words × (pages_of words ≡ pages) }
    ensures whole { (words : List ℕ) → IsMemory words → length words ≡ 16 * pages_of words }
    ensures least { (words : List ℕ) → IsMemory words → 1024 ≤ pages_of words }
    ensures most { (words : List ℕ) → IsMemory words → pages_of words ≤ 4096 }
{}

/// Proves that `Torn` and `IsMixture` mean the same. Each word of the run is old or new, independently of the others.
/// All other words are old.
pub fn torn_by_words()
    ensures { (m run after : List ℕ) (at : ℕ) → at + length run ≤ length m
        → (Torn m at run after ↔ IsMixture m at run after) }
{}
