//! Texts of moves.
ghost use Rattle.std.specs.Prelude.{◌≡◌, ◌<◌, ◌≤◌, [], length, slice_index_or};
ghost use Rattle.gm_draw.specs.Pictures.{texts};
ghost use Rattle.gm_patterns.specs.PatternTexts.{name_of as name_in};

use crate::step::Step;
use arrayvec::ArrayVec;
use gm_game::shown::Line;
use gm_game::text::push_text;

// Returns the name of a cell.
fn cell_name(names: &'static [&'static [u8]], cell: u32) -> &'static [u8]
    requires { cell < length (texts names.now) }
    ensures { result.now ≡ slice_index_or (texts names.now) cell [] }
{
    names[cell as usize]
}

/// Returns the name of a step: the two cells that name it with `-` between them, or the cell.
pub fn name_of(names: &'static [&'static [u8]], step: Step) -> Line
    requires from { step.from < length (texts names.now) }
    requires to { step.to < length (texts names.now) }
    requires from_fits { length (slice_index_or (texts names.now) step.from []) ≤ 31 }
    requires to_fits { length (slice_index_or (texts names.now) step.to []) ≤ 31 }
    ensures { result.items ≡ name_in (texts names.now) step }
{
    let mut line = ArrayVec::new();
    push_text(&mut line, cell_name(names, step.from));
    if step.from != step.to {
        push_text(&mut line, b"-");
        push_text(&mut line, cell_name(names, step.to));
    }
    line
}
