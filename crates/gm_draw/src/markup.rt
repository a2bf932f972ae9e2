//! Texts in XML and HTML.
ghost use Rattle.std.specs.Prelude.{◌≡◌, ◌++◌, OnOk};
ghost use Rattle.gm_draw.specs.Diagrams.{escaped, escaped_byte};

use std::alloc::AllocError;

/// Appends a text, with `<` and `&` replaced by their character references.
#[tactic(auto, using(crate::proofs::Spreading::flat_next))]
pub fn push_escaped(text: &mut Vec<u8>, plain: &[u8]) -> Result<(), AllocError>
    ensures { OnOk result (text.new.items ≡ text.old.items ++ escaped plain.now) }
{
    for byte in plain {
        push_escaped_byte(text, *byte)?;
    }
    Ok(())
}

// Appends a byte of such a text.
fn push_escaped_byte(text: &mut Vec<u8>, byte: u8) -> Result<(), AllocError>
    ensures { OnOk result (text.new.items ≡ text.old.items ++ escaped_byte byte) }
{
    match byte {
        b'<' => text.extend_from_slice(b"&lt;"),
        b'&' => text.extend_from_slice(b"&amp;"),
        _ => text.extend_from_slice(&[byte]),
    }
}
