//! Laws on templates of file control parameters.

ghost use Rattle.std.specs.Prelude.{◌≡◌, ◌≢◌, ◌↔◌, ℕ, List, Result, Ok, IsPermutation};
ghost use Rattle.card_model.specs.declared.life_cycle.LifeCycle.TheVariants.{Terminated};
ghost use Rattle.card_model.specs.declared.fcp.Fcp.{Fcp};
ghost use Rattle.card_model.specs.declared.fault.FcpFault.{FcpFault};
ghost use Rattle.card_model.specs.TemplateGrammar.{FcpReads, DataObject, IsTemplate, fcp_read};
ghost use Rattle.card_model.specs.Templates.{IsInFull, fcp_text};

/// Full file control parameters are read as they were written.
/// It excludes the MF and terminated files, which no CREATE FILE can make.
pub fn template_read_again()
    ensures { (fcp : Fcp) → IsInFull fcp → fcp.life_cycle ≢ Terminated → fcp.identifier ≢ 0x3F00
        → FcpReads (fcp_text fcp) (Ok fcp) }
{}

/// A text reads as exactly one result, that of `fcp_read`.
pub fn reading_is_a_function()
    ensures { (text : List ℕ) (read : Result Fcp FcpFault) → FcpReads text read ↔ (read ≡ fcp_read text) }
{}

/// The order of its objects doesn't change what a template reads as.
pub fn objects_in_any_order()
    ensures { (text other : List ℕ) (os ps : List DataObject) (read : Result Fcp FcpFault)
        → IsTemplate text os → IsTemplate other ps → IsPermutation os ps → FcpReads text read → FcpReads other read }
{}
