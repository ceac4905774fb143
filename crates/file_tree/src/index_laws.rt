//! Laws of the index.

ghost use Rattle.std.specs.Prelude.{◌≡◌, ℕ, List};
ghost use Rattle.card_model.specs.declared.life_cycle.LifeCycle.{LifeCycle};
ghost use Rattle.file_tree.specs.declared.entry.Entry.{Entry};
ghost use Rattle.file_tree.specs.declared.index.Index.{Index};
ghost use Rattle.file_tree.specs.Table.{table};
ghost use Rattle.file_tree.specs.States.{ChangesLife};
ghost use Rattle.file_tree.specs.Indexes.{IsIndex, KeepsPlaces};

/// Proves that a table of entries has only one index.
pub fn one_index_a_table()
    ensures { (t : List Entry) (one other : Index) → IsIndex t one → IsIndex t other → one ≡ other }
{}

/// Proves that the index depends only on kinds, parents and identifiers.
pub fn kept_places_keep_the_index()
    ensures { (t after : List Entry) (index : Index) → KeepsPlaces t after → IsIndex t index → IsIndex after index }
{}

/// Proves that a change of life cycle state leaves the index unchanged.
pub fn life_cycles_leave_the_index()
    ensures { (m after : List ℕ) (e : ℕ) (state : LifeCycle) (index : Index) → ChangesLife m e state after
        → IsIndex (table m) index → IsIndex (table after) index }
{}
