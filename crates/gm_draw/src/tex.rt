//! Texts in TeX, and the elements of a TikZ picture.
ghost use Rattle.std.specs.Prelude.{◌≡◌, ◌++◌, OnOk};
ghost use Rattle.gm_draw.specs.Tikz.{is_special as is_special_spec, tex, tex_byte, tikz_at, gray, node};

use crate::svg::push_at;
use std::alloc::AllocError;

/// Appends a text in TeX. Its spaces are kept.
#[tactic(auto, using(crate::proofs::Spreading::flat_next))]
pub(crate) fn push_tex(text: &mut Vec<u8>, plain: &[u8]) -> Result<(), AllocError>
    ensures { OnOk result (text.new.items ≡ text.old.items ++ tex plain.now) }
{
    for byte in plain {
        push_tex_byte(text, *byte)?;
    }
    Ok(())
}

// Tests whether TeX takes a byte as itself after a `\`.
fn is_special(byte: u8) -> bool
    ensures { result ≡ is_special_spec byte }
{
    matches!(byte, b'#' | b'$' | b'%' | b'&' | b'_' | b'{' | b'}')
}

// Appends a byte of such a text.
fn push_tex_byte(text: &mut Vec<u8>, byte: u8) -> Result<(), AllocError>
    ensures { OnOk result (text.new.items ≡ text.old.items ++ tex_byte byte) }
{
    if is_special(byte) {
        return text.extend_from_slice(&[b'\\', byte]);
    }
    match byte {
        b' ' => text.extend_from_slice(b"~"),
        b'\\' => text.extend_from_slice(b"\\textbackslash{}"),
        b'^' => text.extend_from_slice(b"\\^{}"),
        b'~' => text.extend_from_slice(b"\\~{}"),
        b'<' => text.extend_from_slice(b"\\textless{}"),
        b'>' => text.extend_from_slice(b"\\textgreater{}"),
        b'|' => text.extend_from_slice(b"\\textbar{}"),
        _ => text.extend_from_slice(&[byte]),
    }
}

/// Appends the coordinates of a point, with the texts before and after them.
pub(crate) fn push_tikz(
    text: &mut Vec<u8>,
    front: &[u8],
    x: u64,
    y: u64,
    back: &[u8],
) -> Result<(), AllocError>
    ensures { OnOk result (text.new.items ≡ text.old.items ++ tikz_at front.now x y back.now) }
{
    push_at(text, front, x, b",", y, back)
}

/// Appends a gray stroke.
pub(crate) fn push_gray(text: &mut Vec<u8>, x: u64, y: u64, back: &[u8]) -> Result<(), AllocError>
    ensures { OnOk result (text.new.items ≡ text.old.items ++ gray x y back.now) }
{
    push_tikz(text, b"\\draw[gray] (", x, y, back)
}

/// Appends words at a point, after their look.
pub(crate) fn push_node(
    text: &mut Vec<u8>,
    look: &[u8],
    x: u64,
    y: u64,
    plain: &[u8],
) -> Result<(), AllocError>
    ensures { OnOk result (text.new.items ≡ text.old.items ++ node look.now x y plain.now) }
{
    push_tikz(text, look, x, y, b") {")?;
    push_tex(text, plain)?;
    text.extend_from_slice(b"};\n")
}
