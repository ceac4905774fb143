//! Laws on status words and access rules.

ghost use Rattle.std.specs.Prelude.{◌≡◌, ℕ, List, ◌∷◌, IsTrue, IsSome};
ghost use Rattle.card_model.specs.declared.status.TheConstants.Sw.{DONE, END_REACHED, SELECTED_DEACTIVATED};
ghost use Rattle.card_model.specs.declared.status.TheConstants.Sw.{SELECTED_TERMINATED};
ghost use Rattle.card_model.specs.declared.status.TheConstants.Sw.{MEMORY_FAILURE, MAXIMUM_REACHED};
ghost use Rattle.card_model.specs.declared.status.TheConstants.Sw.{WRONG_LENGTH, WRONG_OFFSET, UNKNOWN_INSTRUCTION};
ghost use Rattle.card_model.specs.declared.status.TheConstants.Sw.{UNKNOWN_CLASS};
ghost use Rattle.card_model.specs.declared.status.TheConstants.Sw.{WRONG_STRUCTURE, ACCESS_DENIED, METHOD_BLOCKED};
ghost use Rattle.card_model.specs.declared.status.TheConstants.Sw.{CONDITIONS_NOT_SATISFIED, NO_CURRENT_EF};
ghost use Rattle.card_model.specs.declared.status.TheConstants.Sw.{REFERENCE_DATA_NOT_USABLE};
ghost use Rattle.card_model.specs.declared.status.TheConstants.Sw.{WRONG_DATA, FILE_NOT_FOUND, RECORD_NOT_FOUND};
ghost use Rattle.card_model.specs.declared.status.TheConstants.Sw.{NO_ROOM, WRONG_PARAMETERS, FILE_EXISTS, NAME_EXISTS};
ghost use Rattle.card_model.specs.declared.access_mode.AccessBit.{AccessBit};
ghost use Rattle.card_model.specs.Access.{is_set};
ghost use Rattle.card_model.specs.Rule.{is_rule, condition_at};

/// Gives the number of each status word (ISO/IEC 7816-4, 5.1.3).
/// `MAXIMUM_REACHED` is a status word of ETSI TS 102 221.
pub fn status_words()
    ensures carried_out { (DONE.0 ≡ 0x9000) × (END_REACHED.0 ≡ 0x6282)
        × (SELECTED_DEACTIVATED.0 ≡ 0x6283) × (SELECTED_TERMINATED.0 ≡ 0x6285) }
    ensures failed { (MEMORY_FAILURE.0 ≡ 0x6581) × (MAXIMUM_REACHED.0 ≡ 0x9850) }
    ensures not_understood { (WRONG_LENGTH.0 ≡ 0x6700) × (WRONG_OFFSET.0 ≡ 0x6B00)
        × (UNKNOWN_INSTRUCTION.0 ≡ 0x6D00) × (UNKNOWN_CLASS.0 ≡ 0x6E00) }
    ensures not_allowed { (WRONG_STRUCTURE.0 ≡ 0x6981) × (ACCESS_DENIED.0 ≡ 0x6982) × (METHOD_BLOCKED.0 ≡ 0x6983)
        × (REFERENCE_DATA_NOT_USABLE.0 ≡ 0x6984) × (CONDITIONS_NOT_SATISFIED.0 ≡ 0x6985) × (NO_CURRENT_EF.0 ≡ 0x6986) }
    ensures wrong_parameters { (WRONG_DATA.0 ≡ 0x6A80) × (FILE_NOT_FOUND.0 ≡ 0x6A82) × (RECORD_NOT_FOUND.0 ≡ 0x6A83)
        × (NO_ROOM.0 ≡ 0x6A84) × (WRONG_PARAMETERS.0 ≡ 0x6A86) × (FILE_EXISTS.0 ≡ 0x6A89) × (NAME_EXISTS.0 ≡ 0x6A8A) }
{}

/// Each set bit of a rule's access mode byte has a condition.
pub fn each_set_bit_has_a_condition()
    ensures { (mode : ℕ) (conditions : List ℕ) (bit : AccessBit) → IsTrue (is_rule (mode ∷ conditions))
        → IsTrue (is_set mode bit) → IsSome (condition_at (mode ∷ conditions) bit) }
{}
