//! Pictures: what a game looks like, from which any program can draw its board.
ghost use Rattle.gm_draw.specs.Pictures.{PictureSpec, layout_of, IsPictureOf};
ghost use Rattle.gm_draw.specs.Pictured.{IsPictured};
ghost use Rattle.std.specs.Prelude.{◌≡◌};

use gm_game::shown::Shown;

/// The look of the men of a game, and of the places under them.
#[derive(Clone, Copy, Debug, PartialEq, Eq)]
pub enum Style {
    /// Numbers in a row, of which one is the position. There are no men.
    Row,
    /// `x` and `o` in the cells between lines; `x` is the side to move.
    Crosses,
    /// Men of one kind, `x`, on cells.
    Counters,
    /// `x` and `o` on cells; `x` is the side to move.
    Stones,
    /// `x` and `o` on the points of a net; `x` is the side to move.
    Discs,
    /// `d` and `h` on the points of a net; the last byte of the text is the side to move.
    Letters,
    /// Letters on the squares of a chess board: capitals for White, small letters for Black. A position's text has a word for each
    /// man, its letter and its square; the last byte is the side to move.
    Chess,
    /// The same with figures in place of the letters of chess men.
    Figures,
    /// The same as `Chess` with `f`, the fox, and `h`, a hound.
    Hounds,
    /// Digits, which the places between them separate. There are no men.
    Digits,
}

/// How positions are drawn.
#[derive(Clone, Copy, Debug, PartialEq, Eq)]
pub enum Layout {
    /// The board is a template. Its slots have the bytes of the position's text.
    Template,
    /// The board is a row of numbers. Each position has a row of its own.
    Rows,
    /// The board is that of chess. Its squares have the men of the position's text.
    Squares,
}

impl Style {
    /// Returns how positions are drawn.
    pub fn layout(self) -> Layout
        ensures { result ≡ layout_of self }
    {
        match self {
            Style::Row => Layout::Rows,
            Style::Chess | Style::Figures | Style::Hounds => Layout::Squares,
            _ => Layout::Template,
        }
    }
}

/// The name of the side to move.
#[derive(Clone, Copy)]
pub enum Mover {
    /// The same name at each turn.
    Same(&'static [u8]),
    /// `name` if the last byte of the position's text is `byte`, else `other`.
    ByLast {
        byte: u8,
        name: &'static [u8],
        other: &'static [u8],
    },
}

/// What a game looks like.
#[derive(Clone, Copy)]
pub struct Picture {
    /// The name of the game for a heading.
    pub title: &'static [u8],
    pub style: Style,
    /// The board: a template with a slot for each point, a row of numbers, or the board of chess.
    pub board: &'static [u8],
    /// The drawing of each position on a row of numbers, by its index. It is empty for other boards.
    pub rows: &'static [&'static [u8]],
    /// The names of the points, in the order of the bytes of a position's text.
    pub points: &'static [&'static [u8]],
    pub mover: Mover,
    /// The description of how cells, positions and moves are written, in lines.
    pub naming: &'static [u8],
}

/// A game whose board any program can draw.
pub trait Pictured: Shown {
    /// What the game looks like.
    ghost picture: { PictureSpec };

    /// Returns what the game looks like.
    fn picture() -> Picture
        ensures { IsPictureOf result Self.Shown.shown picture };

    /// The laws of pictures: drawings fit and distinguish positions, the board has each slot once, the names of points differ, and
    /// the words of moves are points.
    ghost pictured: { IsPictured Self.Game.rules Self.Shown.shown Self.Shown.move_shown picture };
}

/// Has no effect; its contract states the laws of a game's picture.
pub fn pictures<G: Pictured>()
    ensures { IsPictured G.Game.rules G.shown G.move_shown G.picture }
{}
