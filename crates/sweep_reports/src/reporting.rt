//! The report of a sweep.
ghost use Rattle.std.specs.Prelude.{◌≡◌, ◌≢◌, ◌++◌, ◌∷◌, [], OnOk, IfOk, IfErr, string_bytes};
ghost use Rattle.command_base.specs.Finding.{HasCard};
ghost use Rattle.sweep_reports.specs.ReportParts.{AddsText, AreRest, sweeping_of};
ghost use Rattle.sweep_reports.specs.Reporting.{HasSections, IsReport, WritesReport};
ghost use Rattle.sweep_reports.specs.ReportEndings.{SweepStopsBy};
ghost use Rattle.card_sweeps.specs.Turning.{AreTurns};

use crate::device_writes::DeviceWrite;
use crate::lines::push_total;
use crate::plan::{ReportPlan, push_first_part, push_stage, push_writes};
use bench_lines::write_line;
use bench_turns::{Turn, TurnPlayer};
use card_sweeps::{
    Step, SweepFault, SweepPart, SweepScript, SweepStop, Sweepable, TurnRuns, read_script, turns_of,
};
use std::alloc::{AllocError, Global};
use std::io::{BufRead, Write};

/// The turns of a script.
#[derive(Drop)]
struct ScriptTurns<'a> {
    /// The turns before the last block of the command.
    prepare: Vec<Turn<'a>>,
    /// The same, and that block.
    whole: Vec<Turn<'a>>,
    /// The turns of the probe.
    probe: Vec<Turn<'a>>,
}

/// Returns the turns up to the end of the command.
fn whole_turns(alloc: Global, script: &SweepScript) -> Result<Vec<Turn<'_>>, AllocError>
    ensures { IfOk result (λ whole.
        AreTurns (script.now.prepare.items ++ Step.Block script.now.command ∷ []) whole.items) }
{
    let mut whole = turns_of(alloc, &script.prepare)?;
    whole.push(Turn::Block(script.command.as_slice()))?;
    Ok(whole)
}

/// Returns the turns of a script.
fn script_turns(alloc: Global, script: &SweepScript) -> Result<ScriptTurns<'_>, AllocError>
    ensures prepare { IfOk result (λ turns. AreTurns script.now.prepare.items turns.prepare.items) }
    ensures whole { IfOk result (λ turns.
        AreTurns (script.now.prepare.items ++ Step.Block script.now.command ∷ []) turns.whole.items) }
    ensures probe { IfOk result (λ turns. AreTurns script.now.probe.items turns.probe.items) }
{
    let prepare = turns_of(alloc, &script.prepare)?;
    let whole = whole_turns(alloc, script)?;
    let probe = turns_of(alloc, &script.probe)?;
    Ok(ScriptTurns {
        prepare,
        whole,
        probe,
    })
}

/// Appends the kinds of the device writes, the text of the cuts, and the number of writes.
fn push_rest<B: Sweepable>(
    plan: &ReportPlan<'_, B>,
    all: &[DeviceWrite],
    cuts: &str,
    text: &mut String,
) -> Result<(), AllocError>
    ensures { OnOk result (AddsText (AreRest (sweeping_of B.facts B.torn plan.now) all.now cuts.now)
        (string_bytes text.old) (string_bytes text.new)) }
{
    push_first_part(plan, all, text)?;
    text.push_str(cuts)?;
    push_total(plan.runs.alloc, text, all.len(), plan.depth)
}

/// Appends what is found without the command and after it, and the cuts of the part.
fn push_sections<P: TurnPlayer + Drop>(
    plan: &ReportPlan<'_, P::Board>,
    whole: &[Turn<'_>],
    progress: &impl Eprint,
    text: &mut String,
) -> Result<(), SweepStop>
where
    P::Board: Sweepable + Drop,
    ensures { OnOk result (HasCard (P.Board.facts plan.now.runs.board.now).words
        → AddsText (HasSections (sweeping_of P.Board.facts P.Board.torn plan.now) whole.now)
        (string_bytes text.old) (string_bytes text.new)) }
{
    let prepared = push_stage::<P>(plan, "before", plan.runs.prepare, text)?;
    let ended = push_stage::<P>(plan, "after", whole, text)?;
    let mut cuts = String::new(plan.runs.alloc);
    let all = push_writes::<P>(plan, prepared, ended.words(), progress, &mut cuts)?;
    push_rest(plan, &all, &cuts, text)?;
    Ok(())
}

/// Returns the report of a sweep.
fn swept<P: TurnPlayer + Drop>(
    alloc: Global,
    board: &P::Board,
    script: &SweepScript,
    part: SweepPart,
    progress: &impl Eprint,
) -> Result<String, SweepStop>
where
    P::Board: Sweepable + Drop,
    requires { HasCard (P.Board.facts board.now).words }
    ensures { IfOk result (λ text. IsReport P.Board.facts P.Board.torn (P.Board.facts board.now) script.now part
        (string_bytes text)) }
{
    let turns = script_turns(alloc, script)?;
    let plan = ReportPlan {
        runs: TurnRuns {
            alloc,
            board,
            prepare: &turns.prepare,
            turn: Turn::Block(script.command.as_slice()),
        },
        probe: &turns.probe,
        looks: &script.looks,
        depth: script.depth,
        part,
    };
    let mut text = String::new(alloc);
    push_sections::<P>(&plan, &turns.whole, progress, &mut text)?;
    Ok(text)
}

/// Reads a sweep script, sweeps on copies of the board, and then writes the report.
///
/// # Errors
/// `BadLine`, `Read`, `Memory` and `Differs` before anything is written, `Write` if the writer fails, or takes nothing.
pub fn report<P: TurnPlayer + Drop, R: BufRead, W: Write>(
    alloc: Global,
    board: &P::Board,
    part: SweepPart,
    reader: &mut R,
    writer: &mut W,
    progress: &impl Eprint,
) -> Result<(), SweepFault>
where
    P::Board: Sweepable + Drop,
    requires { HasCard (P.Board.facts board.now).words }
    // The text is the report of a sweep of the script that was read.
    ensures told { OnOk result (WritesReport P.Board.facts P.Board.torn (P.Board.facts board.now)
        (R.remaining reader.old) (R.remaining reader.new)
        part (W.contents writer.old) (W.contents writer.new)) }
    // A bad line is the first one. `Read` occurs within a line. At `Write` the first bytes of the report are written.
    ensures stopped { IfErr result (λ fault. SweepStopsBy P.Board.facts P.Board.torn (P.Board.facts board.now) part
        fault (R.remaining reader.old) (R.remaining reader.new) (W.contents writer.old) (W.contents writer.new)) }
    ensures unwritten { IfErr result (λ fault. fault ≢ SweepFault.Write
        → W.contents writer.new ≡ W.contents writer.old) }
{
    let script = read_script(alloc, reader)?;
    let text = swept::<P>(alloc, board, &script, part, progress)?;
    match write_line(writer, text.as_bytes()) {
        Ok(()) => Ok(()),
        Err(_) => Err(SweepFault::Write),
    }
}
