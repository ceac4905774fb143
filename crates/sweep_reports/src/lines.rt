//! The lines of a report. Each is a JSON object.
ghost use Rattle.std.specs.Prelude.{◌≡◌, ◌++◌, OnOk, IfOk, flat_map, string_bytes};
ghost use Rattle.sweep_reports.specs.Printing.{answer_text, cut_head, sent_field, field_text, last_item, look_text};
ghost use Rattle.sweep_reports.specs.Printing.{looks_text, reply_text, result_text, results_text, stage_head};
ghost use Rattle.sweep_reports.specs.Printing.{total_text, word_text};

use bench_turns::Item;
use card_sweeps::Seen;
use std::alloc::{AllocError, Global};

/// Appends the word of an item without a block.
fn push_word(text: &mut String, item: &Item) -> Result<(), AllocError>
    ensures { OnOk result (string_bytes text.new ≡ string_bytes text.old ++ word_text item.now) }
{
    match item {
        Item::Atr => text.push_str("atr"),
        Item::Quiet => text.push_str("off"),
        Item::Mute => text.push_str("mute"),
        Item::Dark => text.push_str("dark"),
        Item::Reply(_) => Ok(()),
    }
}

/// Returns the information field of an I-block, and nothing of another block.
fn sent_field(block: &[u8]) -> &[u8]
    ensures { result.now ≡ sent_field block.now }
{
    if block.len() > 3 && block[1] < 128 {
        &block[3..block.len() - 1]
    } else {
        &[]
    }
}

/// Appends the information field of an item, if it is an I-block.
fn push_field(alloc: Global, text: &mut String, item: &Item) -> Result<(), AllocError>
    ensures { OnOk result (string_bytes text.new ≡ string_bytes text.old ++ field_text item.now) }
{
    match item {
        Item::Atr | Item::Quiet | Item::Mute | Item::Dark => Ok(()),
        Item::Reply(block) => {
            let digits = hex::encode_upper(alloc, sent_field(block.as_slice()))?;
            text.push_str(&digits)
        }
    }
}

/// Appends the information fields of items.
fn push_fields(alloc: Global, text: &mut String, items: &[Item]) -> Result<(), AllocError>
    ensures { OnOk result (string_bytes text.new ≡ string_bytes text.old ++ flat_map field_text items.now) }
{
    for item in items {
        push_field(alloc, text, item)?;
    }
    Ok(())
}

/// Appends the answer in the last item.
fn push_last(alloc: Global, text: &mut String, items: &[Item]) -> Result<(), AllocError>
    ensures { OnOk result (string_bytes text.new ≡ string_bytes text.old ++ answer_text (last_item items.now)) }
{
    let Some(last) = items.last() else {
        return Ok(());
    };
    push_word(text, last)?;
    push_field(alloc, text, last)
}

/// Returns how the lines of a stage begin: its name, and the answer of the last turn up to it.
///
/// # Errors
/// There is too little memory.
pub fn stage_head(alloc: Global, stage: &str, trace: &[Item]) -> Result<String, AllocError>
    ensures { IfOk result (λ head. string_bytes head ≡ stage_head stage.now trace.now) }
{
    let mut head = format!(in alloc; "{{\"stage\": \"{stage}\", \"answer\": \"")?;
    push_last(alloc, &mut head, trace)?;
    head.push_str("\", ")?;
    Ok(head)
}

/// Returns how the lines of a cut begin. `i` is the number of the mask from 0.
///
/// # Errors
/// There is too little memory.
pub fn cut_head(alloc: Global, write: u32, i: u8, mask: u16) -> Result<String, AllocError>
    ensures { IfOk result (λ head. string_bytes head ≡ cut_head write i mask) }
{
    format!(in alloc; "{{\"write\": {write}, \"number\": {i}, \"mask\": {mask}, ")
}

/// Appends the bytes of the only block, or the answer in the I-blocks, if the last item is a block.
fn push_reply(
    alloc: Global,
    text: &mut String,
    items: &[Item],
    last: &Item,
) -> Result<(), AllocError>
    ensures { OnOk result (string_bytes text.new ≡ string_bytes text.old ++ reply_text items.now last.now) }
{
    match last {
        Item::Atr | Item::Quiet | Item::Mute | Item::Dark => Ok(()),
        Item::Reply(block) => {
            text.push_str("< ")?;
            if items.len() != 1 {
                return push_fields(alloc, text, items);
            }
            let digits = hex::encode_upper(alloc, block.as_slice())?;
            text.push_str(&digits)
        }
    }
}

/// Appends the answer of a line of the probe. `items` are those of its turns.
fn push_look_answer(alloc: Global, text: &mut String, items: &[Item]) -> Result<(), AllocError>
    ensures { OnOk result (string_bytes text.new ≡ string_bytes text.old ++ look_text items.now (last_item items.now)) }
{
    let Some(last) = items.last() else {
        return Ok(());
    };
    push_word(text, last)?;
    push_reply(alloc, text, items, last)
}

/// Appends the answer of each line of the probe. `looks` has the number of turns of each.
fn push_looks(
    alloc: Global,
    text: &mut String,
    looks: &[usize],
    trace: &[Item],
) -> Result<(), AllocError>
    ensures { OnOk result (string_bytes text.new ≡ string_bytes text.old ++ looks_text looks.now trace.now) }
{
    let mut sizes = looks;
    let mut items = trace;
    while let [size, later @ ..] = sizes {
        let (line, rest) = items.split_at((*size).min(items.len()));
        text.push_str(", \"")?;
        push_look_answer(alloc, text, line)?;
        text.push_str("\"")?;
        sizes = later;
        items = rest;
    }
    Ok(())
}

/// Appends the line of a result.
#[tactic(auto, unfolding(crate::specs::Printing::result_text))]
fn push_result(
    alloc: Global,
    text: &mut String,
    looks: &[usize],
    head: &str,
    seen: &Seen,
) -> Result<(), AllocError>
    ensures { OnOk result (string_bytes text.new ≡ string_bytes text.old ++ result_text looks.now head.now seen.now) }
{
    let runs = seen.count;
    let blocks = seen.free.blocks;
    let entries = seen.free.entries;
    let line = format!(in alloc;
        "{head}\"runs\": {runs}, \"found\": [\"free {blocks} {entries}\""
    )?;
    text.push_str(&line)?;
    push_looks(alloc, text, looks, &seen.trace)?;
    text.push_str("]}\n")
}

/// Appends the lines of results. `looks` has the number of turns of each line of the probe.
///
/// # Errors
/// There is too little memory.
pub fn push_results(
    alloc: Global,
    text: &mut String,
    looks: &[usize],
    head: &str,
    results: &[Seen],
) -> Result<(), AllocError>
    ensures { OnOk result (string_bytes text.new ≡ string_bytes text.old
        ++ results_text looks.now head.now results.now) }
{
    for seen in results {
        push_result(alloc, text, looks, head, seen)?;
    }
    Ok(())
}

/// Appends the last line of a report: the number of device writes, and the depth.
///
/// # Errors
/// There is too little memory.
pub fn push_total(
    alloc: Global,
    text: &mut String,
    writes: usize,
    depth: u8,
) -> Result<(), AllocError>
    ensures { OnOk result (string_bytes text.new ≡ string_bytes text.old ++ total_text writes depth) }
{
    let line = format!(in alloc; "{{\"writes\": {writes}, \"depth\": {depth}}}\n")?;
    text.push_str(&line)
}
