//! The cells of a board.
ghost use Rattle.std.specs.Prelude.{◌≡◌, ◌<◌};
ghost use Rattle.gm_board.specs.Masks.{has_cell};
ghost use Rattle.gm_board.specs.Pieces.{cell_by};

/// A cell of a board, as the player to move sees it.
#[derive(Clone, Copy, Debug, PartialEq, Eq)]
pub enum Cell {
    Empty,
    Mine,
    Theirs,
}

impl Cell {
    /// Returns the content of a cell, by the masks of the mover's and of the opponent's pieces.
    pub fn at(mine: u32, theirs: u32, cell: u32) -> Cell
        requires { cell < 32 }
        ensures { result ≡ cell_by (has_cell mine cell) (has_cell theirs cell) }
    {
        if mine >> cell & 1 == 1 {
            Cell::Mine
        } else if theirs >> cell & 1 == 1 {
            Cell::Theirs
        } else {
            Cell::Empty
        }
    }
}
