//! Laws of the definitions, as contracts of functions that do nothing.
ghost use Rattle.std.specs.Prelude.{◌≡◌, ◌⊎◌, ◌<◌, ◌≤◌, ℕ, Bool, List, slice_set};
ghost use Rattle.undo_journal.specs.Memory.{Memory, committed};
ghost use Rattle.undo_journal.specs.Spending.{WritesAtMost};
ghost use Rattle.pin_store.specs.declared.layout.TheConstants.{FIRST_PIN_PAGE, PIN_MARK_WORD, PIN_WORDS};
ghost use Rattle.card_model.specs.declared.pins.TheConstants.{PINS};
ghost use Rattle.card_model.specs.declared.limits.TheConstants.{TRIES};
ghost use Rattle.card_model.specs.declared.limits.TheConstants.{UNBLOCKING_TRIES};
ghost use Rattle.card_model.specs.Secrets.{Pin, HasFewTries, changed_pin, marked_pin, reset_pin, verified_pin};
ghost use Rattle.pin_store.specs.Pages.{pins_of, unmarked_pins_of, AreEnabled, AreMarks, ArePinPages};
ghost use Rattle.pin_store.specs.Pages.{KeepsPins, KeepsSecrets, SetsPin};
ghost use Rattle.pin_store.specs.Trials.{pin_in, Charges, ComparesOnce, KeepsPinLaw, SetsByMatch};

/// Proves the numbers of PINs. There are 8 PINs with a page each, from page 65 on. Seven words of it are used; the
/// last is the mark. A PIN has 3 tries and 10 unblocking tries.
pub fn layout()
    ensures pages { (FIRST_PIN_PAGE ≡ 65) × (PINS ≡ 8) × (PIN_WORDS ≡ 7) × (PIN_MARK_WORD ≡ 6) }
    ensures tries { (TRIES ≡ 3) × (UNBLOCKING_TRIES ≡ 10) }
{}

/// Proves that the PINs depend on seven words per page. Their pages are 65 to 72.
pub fn words_elsewhere_keep_the_pins()
    ensures pins { (m after : List ℕ) → KeepsPins m after → pins_of after ≡ pins_of m }
    ensures pages { (m after : List ℕ) → KeepsPins m after → ArePinPages m → ArePinPages after }
    ensures marks { (m after : List ℕ) → KeepsPins m after → AreMarks m → AreMarks after }
{}

/// Proves that PINs without marks are enabled. They depend on six words of each page.
#[tactic(auto, using(crate::specs::laws::AllPins::secrets_kept, crate::specs::laws::AllPins::secrets_pages))]
pub fn pins_without_marks_are_enabled()
    ensures pins { (m after : List ℕ) → KeepsSecrets m after → unmarked_pins_of after ≡ unmarked_pins_of m }
    ensures pages { (m after : List ℕ) → KeepsSecrets m after → ArePinPages m → ArePinPages after }
{}

/// Proves that marking all PINs as enabled leaves them unchanged.
#[tactic(auto, using(crate::specs::laws::AllPins::enabled_unmarked, crate::specs::laws::AllPins::enabled_marks))]
pub fn pins_marked_as_enabled_are_so()
    ensures pins { (m : List ℕ) → AreEnabled m → pins_of m ≡ unmarked_pins_of m }
    ensures marks { (m : List ℕ) → AreEnabled m → AreMarks m }
{}

/// Proves that setting one PIN changes no other. The PIN pages stay valid if the new PIN doesn't have too many tries,
/// and marks stay valid.
pub fn one_pin_is_set()
    ensures pins { (m after : List ℕ) (pin : ℕ) (now : Pin) → pin < PINS → SetsPin m pin now after
        → pins_of after ≡ slice_set (pins_of m) pin now }
    ensures pages { (m after : List ℕ) (pin : ℕ) (now : Pin) → SetsPin m pin now after → HasFewTries now → ArePinPages m
        → ArePinPages after }
    ensures marks { (m after : List ℕ) (pin : ℕ) (now : Pin) → SetsPin m pin now after → AreMarks m → AreMarks after }
{}

/// Proves the PIN law: a comparison permanently uses up a try. It holds from before a charge to each of its exits,
/// and to each exit of the call that consumes the receipt. The premises are what `charge`, `settle`, `change`,
/// `reset_counter` and `set_enabled` ensure by `any_exit`, `store` and `spends`.
pub fn a_comparison_costs_a_try()
    ensures charge { (secret : ℕ) (shown : List ℕ) (a b : Memory) → (committed b ≡ committed a) ⊎ Charges secret a b
        → WritesAtMost 1 a.facts b.facts → KeepsPinLaw secret shown a b }
    ensures settle { (secret : ℕ) (shown : List ℕ) (a b c : Memory) → secret < PINS → Charges secret a b
        → WritesAtMost 1 a.facts b.facts
        → (committed c ≡ committed b) ⊎ SetsByMatch secret shown (verified_pin (pin_in b secret)) b c
        → ComparesOnce 1 secret shown b c → KeepsPinLaw secret shown a c }
    ensures change { (secret : ℕ) (shown new : List ℕ) (a b c : Memory) → secret < PINS → Charges secret a b
        → WritesAtMost 1 a.facts b.facts
        → (committed c ≡ committed b) ⊎ SetsByMatch secret shown (changed_pin new (pin_in b secret)) b c
        → ComparesOnce 5 secret shown b c → KeepsPinLaw secret shown a c }
    ensures reset { (secret : ℕ) (shown new : List ℕ) (a b c : Memory) → PINS ≤ secret → Charges secret a b
        → WritesAtMost 1 a.facts b.facts
        → (committed c ≡ committed b) ⊎ SetsByMatch secret shown (reset_pin new (pin_in b secret)) b c
        → ComparesOnce 4 secret shown b c → KeepsPinLaw secret shown a c }
    ensures mark { (secret : ℕ) (shown : List ℕ) (enabled : Bool) (a b c : Memory) → secret < PINS → Charges secret a b
        → WritesAtMost 1 a.facts b.facts
        → (committed c ≡ committed b) ⊎ SetsByMatch secret shown (marked_pin enabled (pin_in b secret)) b c
        → ComparesOnce 5 secret shown b c → KeepsPinLaw secret shown a c }
{}
