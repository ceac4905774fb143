//! Laws of the file tree in a memory.

ghost use Rattle.nvm_board.specs.Facts.{IsMemory};
ghost use Rattle.std.specs.Prelude.{◌≡◌, ◌≢◌, ◌-◌, ◌&&◌, ℕ, List, ◌∷◌, ◌++◌, length, take, Some, None, false, IsTrue};
ghost use Rattle.std.specs.FinMap.{get};
ghost use Rattle.card_model.specs.declared.identifiers.TheConstants.{MASTER_FILE};
ghost use Rattle.block_chain.specs.Chains.{free_chain};
ghost use Rattle.block_chain.specs.ChainChanges.{OnlyContent};
ghost use Rattle.file_tree.specs.declared.layout.TheConstants.{FIRST_ENTRY_PAGE, DEEPEST, MOST_FILE_BLOCKS};
ghost use Rattle.card_model.specs.declared.limits.TheConstants.{ENTRIES};
ghost use Rattle.file_tree.specs.declared.layout.TheConstants.{CREATE_WRITES, DELETE_WRITES};
ghost use Rattle.file_tree.specs.declared.layout.TheConstants.{STATE_WORD, CARD_TERMINATED, MARK, OLD_MARK};
ghost use Rattle.file_tree.specs.declared.layout.TheConstants.{MARK_WORD, PAGES_WORD};
ghost use Rattle.block_chain.specs.BlockWords.{word};
ghost use Rattle.card_model.specs.FileTrees.{Path, IsTree, master_file, exists, file_at, is_dedicated};
ghost use Rattle.card_model.specs.Selectors.{IsReserved};
ghost use Rattle.file_tree.specs.Formats.{block_count};
ghost use Rattle.card_model.specs.Spaces.{free_space};
ghost use Rattle.file_tree.specs.Table.{free_entries, table, path_of, IsUsed};
ghost use Rattle.file_tree.specs.Trees.{file_in, tree_of, TreeStands};
ghost use Rattle.file_tree.specs.TreeChanges.{KeepsTree, SameTree};

/// Proves the numbers of the layout. Entry 0 is on page 1. There are 64 entries. The MF has the identifier 3F00, and
/// no file is more than seven steps below it. The largest file has 547 blocks. A creation takes at most 556 device
/// writes, a deletion 180. Word 2 of the header is 1 on a terminated card.
pub fn layout()
    ensures first { FIRST_ENTRY_PAGE ≡ 1 }
    ensures entries { ENTRIES ≡ 64 }
    ensures deepest { DEEPEST ≡ 7 }
    ensures master { (MASTER_FILE ≡ 0x3F00) × (master_file ≡ 0x3F00) }
    ensures writes { (MOST_FILE_BLOCKS ≡ 547) × (CREATE_WRITES ≡ 556) × (DELETE_WRITES ≡ 180) }
    ensures state { (STATE_WORD ≡ 2) × (CARD_TERMINATED ≡ 1) }
{}

/// Proves the formats of the header. Word 0 is the mark: 54534332 in format 2, 54534331 in format 1. In format 2,
/// word 3 is the page where the blocks end. Any other memory has the 896 blocks of format 1.
#[tactic(auto, using(crate::specs::laws::Formats::count_new, crate::specs::laws::Formats::count_old))]
pub fn formats()
    ensures marks { (MARK ≡ 0x54534332) × (OLD_MARK ≡ 0x54534331) }
    ensures words { (MARK_WORD ≡ 0) × (PAGES_WORD ≡ 3) }
    ensures new { (m : List ℕ) → word m 0 0 ≡ 0x54534332 → block_count m ≡ word m 0 3 - 128 }
    ensures old { (m : List ℕ) → word m 0 0 ≢ 0x54534332 → block_count m ≡ 896 }
{}

/// Proves that the tree has each used entry's file at its path.
#[tactic(auto, using(crate::specs::laws::Nodes::files))]
pub fn entries_are_files()
    ensures { (m : List ℕ) (e : ℕ) → TreeStands m → IsUsed (table m) e
        → get (tree_of m) (path_of (table m) e) ≡ Some (file_in m e) }
{}

/// Proves that the tree has only files of used entries.
#[tactic(auto, using(crate::specs::laws::Nodes::files))]
pub fn files_are_entries()
    ensures { (m : List ℕ) (path : Path) → TreeStands m
        → ((e : ℕ) → IsUsed (table m) e → path_of (table m) e ≡ path → ⊥) → get (tree_of m) path ≡ None }
{}

/// Proves that two entries never have the same path.
#[tactic(auto, using(crate::specs::laws::Paths::one_path))]
pub fn one_file_a_path()
    ensures { (m : List ℕ) (e f : ℕ) → TreeStands m → IsUsed (table m) e → IsUsed (table m) f
        → path_of (table m) e ≡ path_of (table m) f → e ≡ f }
{}

/// Proves that the files are a valid tree. The MF exists, and the parent of each file is a DF.
#[tactic(auto, using(crate::specs::laws::Standing::stands_tree))]
pub fn files_of_a_card()
    ensures { (m : List ℕ) → TreeStands m → IsTree (tree_of m) }
{}

/// Proves that free space is the free chain and the unused entries.
#[tactic(auto, using(crate::specs::laws::Costs::space_counted))]
pub fn free_space_is_counted()
    ensures { (m : List ℕ) → IsMemory m → TreeStands m
        → free_space (block_count m) (tree_of m)
        ≡ record { blocks = length (free_chain m); entries = free_entries (table m) } }
{}

/// Proves which words the tree depends on. These are the pages of entries and blocks, and the header's words for the
/// first free block and for the format.
pub fn words_elsewhere_keep_the_tree()
    ensures { (m after : List ℕ) → IsMemory m → KeepsTree m after → TreeStands m
        → TreeStands after × (table after ≡ table m) × (tree_of after ≡ tree_of m) × (free_chain after ≡ free_chain m) }
{}

/// Proves that each inner file of an existing path is a DF.
#[tactic(auto, using(crate::specs::laws::Selecting::way_through))]
pub fn paths_lead_through_dedicated_files()
    ensures { (m : List ℕ) (path left : Path) (id : ℕ) → TreeStands m → IsTrue (exists (tree_of m) (path ++ id ∷ left))
        → IsTrue (exists (tree_of m) path && is_dedicated (file_at (tree_of m) path).kind) }
{}

/// Proves that no child has a reserved identifier: 3F00, 3FFF or FFFF.
#[tactic(auto, using(crate::specs::laws::Selecting::way_reserved))]
pub fn no_path_has_a_reserved_identifier()
    ensures { (m : List ℕ) (path left : Path) (id : ℕ) → TreeStands m → IsReserved id
        → exists (tree_of m) (path ++ id ∷ left) ≡ false }
{}

/// Proves that filling free blocks leaves all files unchanged. That holds whatever content they get, so
/// `block_store::fill` may be interrupted at any word.
pub fn filled_blocks_leave_the_tree()
    ensures { (m after : List ℕ) (n : ℕ) → IsMemory m → TreeStands m
        → OnlyContent m (take n (free_chain m)) after → SameTree m after }
{}
