//! Texts in an element of a page: lines of JSON for a script.
ghost use Rattle.std.specs.Prelude.{◌≡◌, ◌++◌, true, OnOk};
ghost use Rattle.std.specs.List.{list_all};
ghost use Rattle.gm_page.specs.Scripts.{opens_none, script_byte, script_text};

use std::alloc::AllocError;

/// Appends a text in which each `<` is written as `\u003c`. In JSON the two are equal, and in a page the escape can neither end the
/// element nor begin a comment.
#[tactic(auto, unfolding(crate::specs::Scripts::script_text))]
pub fn push_script(page: &mut Vec<u8>, text: &[u8]) -> Result<(), AllocError>
    ensures { OnOk result (page.new.items ≡ page.old.items ++ script_text text.now) }
{
    for byte in text {
        push_script_byte(page, *byte)?;
    }
    Ok(())
}

// Appends a byte of such a text.
fn push_script_byte(page: &mut Vec<u8>, byte: u8) -> Result<(), AllocError>
    ensures { OnOk result (page.new.items ≡ page.old.items ++ script_byte byte) }
{
    match byte {
        b'<' => page.extend_from_slice(b"\\u003c"),
        _ => page.extend_from_slice(&[byte]),
    }
}

/// Has no effect; its contract states that no byte of such a text opens a tag.
pub fn no_tag_is_opened(text: &[u8])
    ensures { list_all opens_none (script_text text.now) ≡ true }
{}
