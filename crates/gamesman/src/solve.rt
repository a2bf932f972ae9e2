//! The report of a build.
ghost use Rattle.std.specs.Prelude.{◌≡◌, ◌++◌, IfOk, OnOk};
ghost use Rattle.gamesman.specs.Solving.{part, report_text as report_text_spec, work_tree, report_for as report_for_spec};
ghost use Rattle.gm_json.specs.Words.{line_of};
ghost use Rattle.serde_json.specs.View.{view};

use gm_build::work::Work;
use gm_game::shown::Line;
use gm_game::text::push_decimal;
use gm_json::words::push_line;
use serde_json::{Value as Json, json};
use std::alloc::{AllocError, Global};

/// Returns the work of a build as a line, of JSON or of words.
pub fn report_for(alloc: Global, work: Work, json: bool) -> Result<Vec<u8>, AllocError>
    ensures { IfOk result (λ v. v.items ≡ report_for_spec json work) }
{
    if json {
        report_json(alloc, work)
    } else {
        report_text(alloc, work)
    }
}

// Returns the work as a line of JSON.
fn report_json(alloc: Global, work: Work) -> Result<Vec<u8>, AllocError>
    ensures { IfOk result (λ v. v.items ≡ line_of (work_tree work)) }
{
    let tree = work_value(alloc, work)?;
    let mut line = Vec::new(alloc);
    push_line(alloc, &mut line, tree)?;
    Ok(line)
}

fn work_value(alloc: Global, work: Work) -> Result<Json, AllocError>
    ensures { IfOk result (λ v. view v ≡ work_tree work) }
{
    let (solved, reused, migrated) = (work.solved as u64, work.reused as u64, work.migrated as u64);
    json!(in alloc; {"byHand": work.by_hand, "deliveries": work.deliveries, "migrated": migrated, "reused": reused, "solved": solved})
}

// Returns the work in words.
fn report_text(alloc: Global, work: Work) -> Result<Vec<u8>, AllocError>
    ensures { IfOk result (λ v. v.items ≡ report_text_spec work) }
{
    let mut line = Vec::new(alloc);
    push_part(&mut line, b"solved ", work.solved as u64)?;
    push_part(&mut line, b" reused ", work.reused as u64)?;
    push_part(&mut line, b" migrated ", work.migrated as u64)?;
    push_part(&mut line, b" deliveries ", work.deliveries)?;
    push_part(&mut line, b" by hand ", work.by_hand)?;
    line.extend_from_slice(b"\n")?;
    Ok(line)
}

// Appends some words and a number.
fn push_part(line: &mut Vec<u8>, words: &[u8], number: u64) -> Result<(), AllocError>
    ensures { OnOk result (line.new.items ≡ line.old.items ++ part words.now number) }
{
    let mut digits = Line::new();
    push_decimal(&mut digits, number);
    line.extend_from_slice(words)?;
    line.extend_from_slice(digits.as_slice())
}
