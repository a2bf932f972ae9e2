//! The eleven points: their columns, their names, and the edges between them.
ghost use Rattle.std.specs.Prelude.{◌≡◌, ◌<◌, ◌≤◌, length};
ghost use Rattle.gm_board.specs.Masks.{has_cell};
ghost use Rattle.gm_hare.specs.Texts.{point_name as name_of};
ghost use Rattle.gm_hare.specs.laws.MoveFacts.{leads as leads_of};

use gm_pieces::step::Step;

/// The column of each point.
pub const COLUMNS: [u32; 11] = [0, 1, 1, 1, 2, 2, 2, 3, 3, 3, 4];

/// For each point, the point that comes in its place when top and bottom are exchanged.
pub const MIRROR: [u32; 11] = [0, 3, 2, 1, 6, 5, 4, 9, 8, 7, 10];

/// For each point, the mask of the points that an edge joins to it: bit k for point k.
const EDGES: [u32; 11] = [
    0x00e, 0x035, 0x02b, 0x065, 0x0a2, 0x3de, 0x228, 0x530, 0x6a0, 0x560, 0x380,
];

/// For each point, those of them that are in the next column or in its own.
const AHEAD: [u32; 11] = [
    0x00e, 0x034, 0x02a, 0x064, 0x0a0, 0x3d0, 0x220, 0x500, 0x680, 0x500, 0x000,
];

/// Returns whether the mask has a point.
#[tactic(auto, using(std::proofs::lemmas::Nat::Bits::shr_and_one))]
pub fn has(mask: u32, point: u32) -> bool
    requires { point < 32 }
    ensures { result ≡ has_cell mask point }
{
    mask >> point & 1 == 1
}

/// Returns whether a move of a side goes along an edge, and not back if it is a hound's.
#[tactic(auto, using(crate::specs::laws::MoveFacts::hound_leads, crate::specs::laws::MoveFacts::hare_leads), unfolding(gm_pieces::specs::Steps::from_point, gm_pieces::specs::Steps::to_point))]
pub fn leads(hounds: bool, number: u32) -> bool
    requires { number < 176 }
    ensures { result ≡ leads_of hounds number }
{
    let step = Step::numbered(number);
    if hounds {
        has(AHEAD[step.from as usize], step.to)
    } else {
        has(EDGES[step.from as usize], step.to)
    }
}

/// The name of each point.
const NAMES: [&[u8]; 11] = [
    b"L", b"T1", b"M1", b"B1", b"T2", b"M2", b"B2", b"T3", b"M3", b"B3", b"R",
];

/// Returns the name of a point.
#[tactic(auto, unfolding(crate::specs::Texts::point_name))]
pub fn point_name(point: u32) -> &'static [u8]
    requires { point < 11 }
    ensures name { result.now ≡ name_of point }
    ensures short { length result.now ≤ 2 }
{
    NAMES[point as usize]
}
