//! The sizes of Connect Four: their names, columns, rows and lines.
ghost use Rattle.std.specs.Prelude.{◌≡◌, ◌+◌, ◌≤◌, map};
ghost use Rattle.gm_board.specs.BoardMasks.{pattern_mask};
ghost use Rattle.gm_connect.specs.Sizes.{size_of, name_of, columns as columns_of, rows as rows_of, middle as middle_of, middle_cells as middle_cells_of, outer_cells as outer_cells_of};
ghost use Rattle.gm_connect.specs.Lines.{lines as lines_of};

use gm_game::limits::NAME;
use gm_stacks::columns::Stacks;

/// The masks of the lines on 4 columns and 4 rows.
const LINES_4X4: [u32; 10] = [
    0x000f, 0x1111, 0x8421, 0x2222, 0x4444, 0x8888, 0x1248, 0x00f0, 0x0f00, 0xf000,
];

/// The masks of the lines on 5 columns and 4 rows.
const LINES_5X4: [u32; 17] = [
    0x0000f, 0x08421, 0x41041, 0x0001e, 0x10842, 0x82082, 0x21084, 0x42108, 0x08888, 0x84210,
    0x11110, 0x001e0, 0x003c0, 0x03c00, 0x07800, 0x78000, 0xf0000,
];

/// The masks of the lines on 4 columns and 5 rows.
const LINES_4X5: [u32; 17] = [
    0x0000f, 0x01111, 0x08421, 0x02222, 0x04444, 0x08888, 0x01248, 0x000f0, 0x11110, 0x84210,
    0x22220, 0x44440, 0x88880, 0x12480, 0x00f00, 0x0f000, 0xf0000,
];

/// The masks of the lines on 4 columns and 6 rows.
const LINES_4X6: [u32; 24] = [
    0x00000f, 0x001111, 0x008421, 0x002222, 0x004444, 0x008888, 0x001248, 0x0000f0, 0x011110,
    0x084210, 0x022220, 0x044440, 0x088880, 0x012480, 0x000f00, 0x111100, 0x842100, 0x222200,
    0x444400, 0x888800, 0x124800, 0x00f000, 0x0f0000, 0xf00000,
];

/// The masks of the lines on 5 columns and 5 rows.
const LINES_5X5: [u32; 28] = [
    0x000000f, 0x0008421, 0x0041041, 0x000001e, 0x0010842, 0x0082082, 0x0021084, 0x0042108,
    0x0008888, 0x0084210, 0x0011110, 0x00001e0, 0x0108420, 0x0820820, 0x00003c0, 0x0210840,
    0x1041040, 0x0421080, 0x0842100, 0x0111100, 0x1084200, 0x0222200, 0x0003c00, 0x0007800,
    0x0078000, 0x00f0000, 0x0f00000, 0x1e00000,
];

/// The masks of the lines on 6 columns and 4 rows.
const LINES_6X4: [u32; 24] = [
    0x00000f, 0x041041, 0x204081, 0x00001e, 0x082082, 0x408102, 0x00003c, 0x104104, 0x810204,
    0x208208, 0x042108, 0x410410, 0x084210, 0x820820, 0x108420, 0x0003c0, 0x000780, 0x000f00,
    0x00f000, 0x01e000, 0x03c000, 0x3c0000, 0x780000, 0xf00000,
];

/// How many columns and rows a board has.
#[derive(Clone, Copy, Debug, PartialEq, Eq)]
pub enum Size {
    FourByFour,
    FiveByFour,
    FourByFive,
    FourBySix,
    FiveByFive,
    SixByFour,
}

impl Size {
    /// Returns the size with these numbers of columns and rows: 4 and 4, 5 and 4, 4 and 5, 4 and 6, 5 and 5, or 6 and 4; for any others that of 4 and 4.
    #[tactic(auto, unfolding(crate::specs::Sizes::size_of))]
    #[inline(always)]
    pub fn of(columns: u32, rows: u32) -> Size
        ensures { result ≡ size_of columns rows }
    {
        match (columns, rows) {
            (5, 4) => Size::FiveByFour,
            (4, 5) => Size::FourByFive,
            (4, 6) => Size::FourBySix,
            (5, 5) => Size::FiveByFive,
            (6, 4) => Size::SixByFour,
            _ => Size::FourByFour,
        }
    }

    /// Returns the name, padded with zeros.
    #[tactic(auto, unfolding(crate::specs::Sizes::name_of))]
    pub fn name(self) -> [u8; NAME]
        ensures { result ≡ name_of self }
    {
        match self {
            Size::FourByFour => *b"connect4-4x4\0\0\0\0",
            Size::FiveByFour => *b"connect4-5x4\0\0\0\0",
            Size::FourByFive => *b"connect4-4x5\0\0\0\0",
            Size::FourBySix => *b"connect4-4x6\0\0\0\0",
            Size::FiveByFive => *b"connect4-5x5\0\0\0\0",
            Size::SixByFour => *b"connect4-6x4\0\0\0\0",
        }
    }

    /// Returns the columns and rows, and how many middle columns are numbered apart.
    #[tactic(auto, unfolding(crate::specs::Sizes::columns, crate::specs::Sizes::rows, crate::specs::Sizes::middle))]
    #[inline(always)]
    pub fn stacks(self) -> Stacks
        ensures columns { result.columns ≡ columns_of self }
        ensures rows { result.rows ≡ rows_of self }
        ensures middle { result.middle ≡ middle_of self }
    {
        match self {
            Size::FourByFour => Stacks {
                rows: 4,
                columns: 4,
                middle: 0,
            },
            Size::FiveByFour => Stacks {
                rows: 4,
                columns: 5,
                middle: 0,
            },
            Size::FourByFive => Stacks {
                rows: 5,
                columns: 4,
                middle: 0,
            },
            Size::FourBySix => Stacks {
                rows: 6,
                columns: 4,
                middle: 0,
            },
            Size::FiveByFive => Stacks {
                rows: 5,
                columns: 5,
                middle: 1,
            },
            Size::SixByFour => Stacks {
                rows: 4,
                columns: 6,
                middle: 2,
            },
        }
    }

    /// Returns how many cells the middle columns have that are numbered apart.
    #[tactic(auto, unfolding(crate::specs::Sizes::rows, crate::specs::Sizes::middle))]
    #[inline(always)]
    pub fn middle_cells(self) -> u64
        ensures { result ≡ middle_cells_of self }
    {
        match self {
            Size::FiveByFive => 5,
            Size::SixByFour => 8,
            Size::FourByFour | Size::FiveByFour | Size::FourByFive | Size::FourBySix => 0,
        }
    }

    /// Returns how many cells the other columns have.
    #[tactic(auto, unfolding(crate::specs::Sizes::columns, crate::specs::Sizes::rows, crate::specs::Sizes::middle))]
    #[inline(always)]
    pub fn outer_cells(self) -> u64
        ensures value { result ≡ outer_cells_of self }
        ensures few { result + middle_cells_of self ≤ 25 }
    {
        match self {
            Size::FourByFour | Size::SixByFour => 16,
            Size::FiveByFour | Size::FourByFive | Size::FiveByFive => 20,
            Size::FourBySix => 24,
        }
    }

    /// Returns the masks of the lines.
    #[tactic(auto, unfolding(crate::specs::Sizes::columns, crate::specs::Sizes::rows, crate::specs::Lines::lines))]
    #[inline(always)]
    pub fn lines(self) -> &'static [u32]
        ensures { map pattern_mask (lines_of self) ≡ result.now }
    {
        match self {
            Size::FourByFour => &LINES_4X4,
            Size::FiveByFour => &LINES_5X4,
            Size::FourByFive => &LINES_4X5,
            Size::FourBySix => &LINES_4X6,
            Size::FiveByFive => &LINES_5X5,
            Size::SixByFour => &LINES_6X4,
        }
    }
}
