//! What a game of patterns must give.
ghost use Rattle.std.specs.Prelude.{◌≡◌, ◌+◌, ◌<◌, ◌≤◌, ◌^◌, [], slice_index_or};
ghost use Rattle.gm_draw.specs.Pictures.{texts, PictureSpec, IsPictureOf};
ghost use Rattle.gm_board.specs.Images.{board_of};
ghost use Rattle.gm_pieces.specs.Sides.{least_index_under};
ghost use Rattle.gm_patterns.specs.PatternGames.{PatternGame, over_below};
ghost use Rattle.gm_patterns.specs.PatternTables.{turn_mask};
ghost use Rattle.gm_patterns.specs.PatternTexts.{pattern_text};
ghost use Rattle.gm_patterns.specs.laws.PatternPictured.{IsRight};

use crate::pattern::Pattern;
use crate::step::Step;
use gm_draw::pictured::Picture;
use gm_game::limits::NAME;
use gm_game::position::End;
use gm_pieces::board::Board;

/// How the numbers of pieces give the number of a tier.
#[derive(Clone, Copy, Debug, PartialEq, Eq)]
pub enum Tiers {
    /// It is 100 times the number of pieces of the side that has more, and the number of the other side's.
    Sides,
    /// It is the number of pieces, which the sides place by turns.
    Placed,
    /// It is the number of pieces, which are common to both players.
    Common,
    /// There is only tier 0, in which each side has so many pieces.
    Single(u32),
}

/// What rules out boards and ends games.
#[derive(Clone, Copy, Debug)]
pub struct Ends {
    /// Patterns that no board has.
    pub forbidden: &'static [Pattern],
    /// Patterns with which the mover has lost.
    pub lost: &'static [Pattern],
    /// Patterns with which the mover has won, if he has not lost.
    pub won: &'static [Pattern],
    /// Patterns with which the game is tied, if nobody has won.
    pub tied: &'static [Pattern],
    /// The number of the mover's pieces below which the game ends before all that, and how.
    pub over: Option<(u32, End)>,
    /// How the game ends for a player who can't move.
    pub stuck: End,
}

/// Nothing rules out a board, and only a player who can't move has lost.
pub const USUAL_ENDS: Ends = Ends {
    forbidden: &[],
    lost: &[],
    won: &[],
    tied: &[],
    over: None,
    stuck: End::Lose,
};

/// What a game states beside its steps and symmetries.
#[derive(Clone, Copy, Debug)]
pub struct Basics<const CELLS: u32> {
    /// The name in ASCII, padded with zeros.
    pub name: [u8; NAME],
    /// The board at the start, as the player who begins sees it.
    pub start: Board<CELLS>,
    /// The names of the cells.
    pub names: &'static [&'static [u8]],
    /// How the numbers of pieces give the number of a tier.
    pub tiers: Tiers,
    /// Whether a step that changes the number of pieces adds some, else it takes some.
    pub adds: bool,
    /// Whether the mover's pieces are the opponent's for the other player.
    pub swapped: bool,
    /// What rules out boards and ends the game.
    pub ends: Ends,
}

/// A game on `CELLS` cells, at most 25, in tables of patterns.
pub trait PatternRules<const CELLS: u32>: Drop {
    /// The game, as its rules are stated.
    ghost game: { PatternGame };

    /// What the game looks like.
    ghost picture: { PictureSpec };

    /// Returns the name, the board at the start and what else is not in tables.
    fn basics() -> Basics<CELLS>
        ensures name { result.name ≡ game.name }
        ensures start { board_of CELLS result.start.mine result.start.theirs ≡ game.start }
        ensures names { texts result.names.now ≡ game.names }
        ensures tiers { result.tiers ≡ game.tiers }
        ensures adds { result.adds ≡ game.adds }
        ensures swapped { result.swapped ≡ game.swapped }
        ensures forbidden { result.ends.forbidden.now ≡ game.forbidden }
        ensures lost { result.ends.lost.now ≡ game.lost }
        ensures won { result.ends.won.now ≡ game.won }
        ensures tied { result.ends.tied.now ≡ game.tied }
        ensures over { over_below result.ends.over ≡ game.over }
        ensures stuck { result.ends.stuck ≡ game.stuck };

    /// Returns whether the mover and the opponent can have these numbers of pieces.
    fn can_have(mine: u32, theirs: u32) -> bool
        requires { mine + theirs ≤ CELLS }
        ensures { result ≡ game.numbers mine theirs };

    /// Returns the steps, by how many pieces there are.
    fn steps(pieces: u32) -> &'static [Step]
        requires { pieces ≤ CELLS }
        ensures { result.now ≡ slice_index_or game.phases (game.phase pieces) [] };

    /// Returns a mask of cells as the board is turned for the other player.
    fn turned(mask: u32) -> u32
        requires { mask < 2 ^ CELLS }
        ensures { result ≡ turn_mask game.turn mask };

    /// Returns the least of the indexes of a board's images under the symmetries.
    fn least_index(board: &Board<CELLS>) -> u64
        ensures { result ≡ least_index_under game.symmetries (board_of CELLS board.now.mine board.now.theirs) };

    /// Returns what the game looks like.
    fn picture() -> Picture
        ensures { IsPictureOf result (pattern_text CELLS game) picture };

    /// Nothing is wrong with the tables and with the picture, as a computation finds.
    ghost right: { IsRight CELLS game picture };
}
