//! Counts as lines of JSON.
ghost use Rattle.std.specs.Prelude.{◌≡◌, ◌++◌, codes, false, IfOk, OnOk};
ghost use Rattle.std.specs.List.{flat_map};
ghost use Rattle.serde_json.specs.View.{view};
ghost use Rattle.serde_json.specs.Written.{compact_text, has_float};
ghost use Rattle.gm_analyse.specs.Bars.{row_tree, json_row};

use crate::by_tier::TierCount;
use crate::counts::Count;
use gm_play::texts::word_of;
use serde_json::{Value as Json, json};
use std::alloc::{AllocError, Global};

/// Returns the lines of some counts, each of compact JSON.
pub(crate) fn json_rows(alloc: Global, counts: &[TierCount]) -> Result<Vec<u8>, AllocError>
    ensures { IfOk result (λ v. v.items ≡ flat_map json_row counts.now) }
{
    let mut rows = Vec::new(alloc);
    for x in counts {
        let tree = row_value(alloc, x.tier, x.count)?;
        push_line(alloc, &mut rows, tree)?;
    }
    Ok(rows)
}

// Returns a count as a tree.
fn row_value(alloc: Global, tier: Option<u64>, count: Count) -> Result<Json, AllocError>
    ensures { IfOk result (λ v. view v ≡ row_tree tier count) }
{
    let (number, remoteness, value) = (count.number, count.remoteness, word_of(count.value));
    match tier {
        None => { json!(in alloc; {"positions": number, "remoteness": remoteness, "value": value}) }
        Some(tier) => {
            json!(in alloc; {"positions": number, "remoteness": remoteness, "tier": tier, "value": value})
        }
    }
}

// Appends a tree as a line.
fn push_line(alloc: Global, rows: &mut Vec<u8>, tree: Json) -> Result<(), AllocError>
    requires { has_float (view tree) ≡ false }
    ensures { OnOk result (rows.new.items ≡ rows.old.items ++ (compact_text (view tree) ++ codes "\n")) }
{
    let text = tree.to_string(alloc);
    drop(tree);
    let text = text?;
    rows.extend_from_slice(text.as_bytes())?;
    rows.extend_from_slice(b"\n")
}
