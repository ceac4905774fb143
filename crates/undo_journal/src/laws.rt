//! Laws of the definitions, as contracts of functions that do nothing.
ghost use Rattle.std.specs.Prelude.{◌≡◌};
ghost use Rattle.undo_journal.specs.declared.layout.TheConstants.{GATE, JOURNAL, JOURNAL_END, PAIRS};

/// Proves the addresses of gate and journal, and the number of pairs.
pub fn layout()
    ensures gate { GATE ≡ 1168 }
    ensures journal { JOURNAL ≡ 1184 }
    ensures end { JOURNAL_END ≡ 2048 }
    ensures pairs { PAIRS ≡ 432 }
{}
