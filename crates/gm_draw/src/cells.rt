//! The names of the cells of square boards.
ghost use Rattle.std.specs.Prelude.{◌≡◌, ◌≤◌};
ghost use Rattle.gm_draw.specs.Pictures.{texts};
ghost use Rattle.gm_draw.specs.Points.{square_points};

/// Returns the names of the cells of a square of side 1 to 5, row by row.
#[tactic(auto, unfolding(crate::specs::Points::square_points))]
pub fn square_cells(side: u32) -> &'static [&'static [u8]]
    requires low { 1 ≤ side }
    requires high { side ≤ 5 }
    ensures { texts result.now ≡ square_points side }
{
    match side {
        5 => &[
            b"a1", b"a2", b"a3", b"a4", b"a5", b"b1", b"b2", b"b3", b"b4", b"b5", b"c1", b"c2",
            b"c3", b"c4", b"c5", b"d1", b"d2", b"d3", b"d4", b"d5", b"e1", b"e2", b"e3", b"e4",
            b"e5",
        ],
        4 => &[
            b"a1", b"a2", b"a3", b"a4", b"b1", b"b2", b"b3", b"b4", b"c1", b"c2", b"c3", b"c4",
            b"d1", b"d2", b"d3", b"d4",
        ],
        3 => &[
            b"a1", b"a2", b"a3", b"b1", b"b2", b"b3", b"c1", b"c2", b"c3",
        ],
        2 => &[b"a1", b"a2", b"b1", b"b2"],
        _ => &[b"a1"],
    }
}
