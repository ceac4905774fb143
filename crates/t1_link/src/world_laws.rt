//! The law of the world of both ends.

ghost use Rattle.std.specs.Prelude.{Bool, IsTrue};
ghost use Rattle.t1_link.specs.TreeMachine.{tree_machine, IsProperState};
ghost use Rattle.t1_link.specs.WorldLaw.{ResynchLaw, WorldLaw};
ghost use Rattle.t1_link.specs.WorldRepairs.{RepairLaw};
ghost use Rattle.t1_link.specs.Worlds.{Answers, Machine};

/// States the law of the world of both ends.
/// The source is ISO/IEC 7816-3, clause 11.6.
/// It holds for every proper card, every initial session, and every list of events:
///
/// - `law`: the commands that ran are those sent, in order, each at most once; those left out weren't reported Done.
///   Done has the model's answer at that point, and no answer is reported as bad. After a request for RESYNCH only such
///   requests are sent until the report.
/// - `resynch`: the response to such a request ends the command as Unknown. Without it the request is sent again, and
///   after the third one the command has Failed.
/// - `repair`: if at most one block was lost or garbled since the command was sent, and no report was Failed before,
///   its report is Done. Without any fault it comes within 20 blocks, whose exact number `Repaired` gives.
pub fn world()
    ensures law { WorldLaw tree_machine IsProperState }
    ensures resynch { ResynchLaw tree_machine IsProperState }
    ensures repair { RepairLaw tree_machine IsProperState }
{}

/// States the same law for any machine with an invariant.
/// Under its invariant the machine answers each command with 2 to 258 bytes. `M` is the type of its states.
pub fn world_of_any_machine<M>()
    ensures law { (machine : Machine M) (holds : M → Bool) → Answers machine (λ m. IsTrue (holds m))
        → WorldLaw machine (λ m. IsTrue (holds m)) }
    ensures resynch { (machine : Machine M) (holds : M → Bool) → Answers machine (λ m. IsTrue (holds m))
        → ResynchLaw machine (λ m. IsTrue (holds m)) }
    ensures repair { (machine : Machine M) (holds : M → Bool) → Answers machine (λ m. IsTrue (holds m))
        → RepairLaw machine (λ m. IsTrue (holds m)) }
{}
