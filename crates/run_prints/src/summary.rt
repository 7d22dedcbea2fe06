// The text of a run that ended well: seven lines.
ghost use Rattle.std.specs.Prelude.{◌≡◌, ◌++◌, ◌-◌, ◌≤◌, string_bytes, OnOk, IfOk};
ghost use Rattle.std.specs.Fmt.{decimal};
ghost use Rattle.run_transcript.specs.Printing.{places_line, edits_line, drains_line, commands_line, events_line, bytes_line, config_line};
ghost use Rattle.run_prints.specs.Totals.{SummaryOf};

use crate::totals::{Totals, totals_of};
use itoa::Buffer;
use run_serving::Served;
use std::alloc::{AllocError, Global};

fn push_number(text: &mut String, n: u128) -> Result<(), AllocError>
    ensures { OnOk result (string_bytes text.new ≡ string_bytes text.old ++ decimal n) }
{
    let mut digits = Buffer::new();
    text.push_str(digits.format(n))?;
    Ok(())
}

// A word, a number and the end of a line.
fn one_number(alloc: Global, before: &str, n: u128, after: &str) -> Result<String, AllocError>
    ensures { IfOk result (λ t. string_bytes t ≡ before.now ++ decimal n ++ after.now) }
{
    let mut text = String::from_str(alloc, before)?;
    push_number(&mut text, n)?;
    text.push_str(after)?;
    Ok(text)
}

// A word, a number, another word, another number and the end of a line.
fn two_numbers(
    alloc: Global,
    before: &str,
    first: u128,
    between: &str,
    second: u128,
    after: &str,
) -> Result<String, AllocError>
    ensures { IfOk result (λ t. string_bytes t ≡ before.now ++ decimal first ++ between.now
        ++ decimal second ++ after.now) }
{
    let mut text = one_number(alloc, before, first, between)?;
    push_number(&mut text, second)?;
    text.push_str(after)?;
    Ok(text)
}

#[tactic(auto, unfolding(run_transcript::specs::Printing::commands_line))]
fn commands(
    alloc: Global,
    submitted: u128,
    executed: u128,
    refused: u128,
) -> Result<String, AllocError>
    ensures { IfOk result (λ t. string_bytes t ≡ commands_line submitted executed refused) }
{
    let mut text = two_numbers(
        alloc,
        "commands ",
        submitted,
        " submitted ",
        executed,
        " executed ",
    )?;
    push_number(&mut text, refused)?;
    text.push_str(" refused\n")?;
    Ok(text)
}

#[tactic(auto, unfolding(run_transcript::specs::Printing::places_line))]
fn places(alloc: Global, n: u32) -> Result<String, AllocError>
    ensures { IfOk result (λ s. string_bytes s ≡ places_line n) }
{
    one_number(alloc, "places ", u128::from(n), "\n")
}

#[tactic(auto, unfolding(run_transcript::specs::Printing::edits_line))]
fn edits(alloc: Global, accepted: u32, refused: u32) -> Result<String, AllocError>
    ensures { IfOk result (λ s. string_bytes s ≡ edits_line accepted refused) }
{
    let (accepted, refused) = (u128::from(accepted), u128::from(refused));
    two_numbers(
        alloc,
        "edits ",
        accepted,
        " accepted ",
        refused,
        " refused\n",
    )
}

#[tactic(auto, unfolding(run_transcript::specs::Printing::drains_line))]
fn drains(alloc: Global, n: u32) -> Result<String, AllocError>
    ensures { IfOk result (λ s. string_bytes s ≡ drains_line n) }
{
    one_number(alloc, "drains ", u128::from(n), "\n")
}

#[tactic(auto, unfolding(run_transcript::specs::Printing::events_line))]
fn events(alloc: Global, events: u128, waiting: u128) -> Result<String, AllocError>
    ensures { IfOk result (λ s. string_bytes s ≡ events_line events (waiting - events)) }
{
    let left = if waiting > events {
        waiting - events
    } else {
        0
    };
    two_numbers(alloc, "events ", events, " answered ", left, " waiting\n")
}

#[tactic(auto, unfolding(run_transcript::specs::Printing::bytes_line))]
fn bytes(alloc: Global, taken: u128, given: u128) -> Result<String, AllocError>
    ensures { IfOk result (λ s. string_bytes s ≡ bytes_line taken given) }
{
    two_numbers(alloc, "bytes ", taken, " in ", given, " out\n")
}

#[tactic(auto, unfolding(run_transcript::specs::Printing::config_line))]
fn config(alloc: Global, passed_over: u64) -> Result<String, AllocError>
    ensures { IfOk result (λ s. string_bytes s ≡ config_line passed_over) }
{
    one_number(alloc, "config ", u128::from(passed_over), " passed over\n")
}

// Adds the lines that are counted over all queues, and the last.
fn push_queue_lines(
    alloc: Global,
    text: &mut String,
    t: &Totals,
    passed_over: u64,
) -> Result<(), AllocError>
    ensures { OnOk result (string_bytes text.new ≡ string_bytes text.old
        ++ commands_line t.now.submitted t.now.executed t.now.refused
        ++ events_line t.now.events (t.now.waiting - t.now.events)
        ++ bytes_line t.now.taken t.now.given ++ config_line passed_over) }
{
    let line = commands(alloc, t.submitted, t.executed, t.refused)?;
    text.push_str(line.as_str())?;
    let line = events(alloc, t.events, t.waiting)?;
    text.push_str(line.as_str())?;
    let line = bytes(alloc, t.taken, t.given)?;
    text.push_str(line.as_str())?;
    let line = config(alloc, passed_over)?;
    text.push_str(line.as_str())?;
    Ok(())
}

/// The seven lines of the summary.
pub fn summary_text(alloc: Global, o: &Served, passed_over: u64) -> Result<String, AllocError>
    ensures { IfOk result (λ s. SummaryOf o.now passed_over (string_bytes s)) }
{
    let totals = totals_of(&o.outputs);
    let mut text = places(alloc, o.places)?;
    let line = edits(alloc, o.accepted, o.refused)?;
    text.push_str(line.as_str())?;
    let line = drains(alloc, o.drains)?;
    text.push_str(line.as_str())?;
    push_queue_lines(alloc, &mut text, &totals, passed_over)?;
    Ok(text)
}
