//! Trees as lines of a page.
ghost use Rattle.std.specs.Prelude.{◌≡◌, ◌++◌, false, OnOk};
ghost use Rattle.serde_json.specs.View.{view};
ghost use Rattle.serde_json.specs.Written.{has_float};
ghost use Rattle.gm_page.specs.Scripts.{script_line};

use crate::script::push_script;
use serde_json::Value as Json;
use std::alloc::{AllocError, Global};

/// Appends a tree as a line of a page.
pub(crate) fn push_script_line(
    alloc: Global,
    page: &mut Vec<u8>,
    tree: Json,
) -> Result<(), AllocError>
    requires { has_float (view tree) ≡ false }
    ensures { OnOk result (page.new.items ≡ page.old.items ++ script_line (view tree)) }
{
    let text = tree.to_string(alloc);
    drop(tree);
    let mut line = text?;
    line.push('\n')?;
    push_script(page, line.as_bytes())
}
