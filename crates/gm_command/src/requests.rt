//! The requests that a line of words can make.

use crate::manual::Manual;
use crate::reading::Help;
use gm_analyse::among::Among;
use gm_analyse::bars::Form as CountsForm;
use gm_backward::plan::Plan;
use gm_find::sought::{Choice, Sought};
use gm_json::asked::Asked as PositionJson;
use gm_play::sides::Side;

/// The place of the tables of a game.
#[derive(Clone, Copy)]
pub enum TableLocation<'a> {
    /// Memory, only while the program runs.
    Memory,
    Folder(&'a str),
    /// A folder that is only read.
    ReadOnly(&'a str),
}

/// The form of a diagram for print.
#[derive(Clone, Copy, Debug, PartialEq, Eq)]
pub enum DiagramForm {
    /// An SVG document.
    Svg,
    /// A TikZ picture, for LaTeX.
    Tikz,
}

/// A request for a diagram for print.
#[derive(Clone, Copy, Debug, PartialEq, Eq)]
pub struct DiagramRequest {
    pub form: DiagramForm,
    /// Whether the value is under the board.
    pub valued: bool,
    /// Whether chess men are figures.
    pub figures: bool,
    /// Whether the best move is marked.
    pub arrow: bool,
}

/// A question about a position.
#[derive(Clone, Copy, Debug, PartialEq, Eq)]
pub enum Question {
    /// The value, in a line.
    Value { json: bool },
    /// The value of each move. With `distinct`, only the first of several moves that lead to one canonical position.
    Moves { distinct: bool, json: bool },
    /// The value of each move, and how hard it is to answer. With `distinct` as for `Moves`.
    Replies { distinct: bool, json: bool },
    /// The value of each move, the best answer to it, and the position after that.
    Why { json: bool },
    /// Best play of both sides, of at most this many moves.
    Line { limit: usize, json: bool },
    /// The board and the value; on request, also how cells, positions and moves are written.
    Show { explained: bool },
    /// The board and the value, in JSON.
    Board,
    /// The board as a diagram for print.
    Diagram(DiagramRequest),
}

/// A request for a page that explores the positions that play reaches.
#[derive(Clone, Copy)]
pub struct PageRequest<'a> {
    /// The position that the page begins with. Without one it begins with the game's start.
    pub position: Option<&'a str>,
    /// The number of positions that the page has at most.
    pub limit: usize,
    /// The file with the text of the engine, which solves the game in a browser. Without one the page has no engine.
    pub engine: Option<&'a str>,
}

/// The form of the line for a found position.
#[derive(Clone, Copy, Debug, PartialEq, Eq)]
pub enum LineForm {
    /// A row.
    Rows,
    /// A line of JSON.
    Json,
    /// A row, below the board.
    Boards,
}

/// What is written of found positions.
#[derive(Clone, Copy, Debug, PartialEq, Eq)]
pub enum Report {
    /// A line of this form for each.
    Lines(LineForm),
    /// A page of diagrams with their solutions.
    Sheet,
}

/// A search for positions.
#[derive(Clone, Copy, Debug, PartialEq, Eq)]
pub struct PositionSearch {
    pub sought: Sought,
    /// The one tier to search. Without one all tiers are searched.
    pub tier: Option<u64>,
    /// Whether the search is limited to positions that play from the start reaches.
    pub reached: bool,
    /// Which of the found positions are returned.
    pub choice: Choice,
    /// What is written of them.
    pub report: Report,
}

/// A request for counts of positions.
#[derive(Clone, Copy, Debug, PartialEq, Eq)]
pub struct CountsRequest {
    pub among: Among,
    /// Whether each tier is counted separately.
    pub by_tier: bool,
    /// Whether the counts are limited to positions that play from the start reaches.
    pub reached: bool,
    /// The form in which the counts are written.
    pub form: CountsForm,
}

/// A request for the service that answers positions.
#[derive(Clone, Copy, Debug, PartialEq, Eq)]
pub struct AskRequest {
    /// The answer that each position gets.
    pub answer: PositionJson,
    /// Whether a first line reports that the tables are ready.
    pub ready: bool,
}

/// How progress is reported on standard error while a game is built or checked.
#[derive(Clone, Copy, Debug, PartialEq, Eq)]
pub enum Telling {
    /// By one line that is removed at the end, if standard error is a terminal.
    Terminal,
    /// By lines, to a terminal or not.
    Lines,
    Quiet,
}

/// A request for a session of play.
#[derive(Clone, Copy)]
pub struct PlayRequest<'a> {
    /// The position to start from. Without one the session starts at the game's start.
    pub position: Option<&'a str>,
    pub first: Side,
    /// Whether the board is drawn before each question.
    pub drawn: bool,
}

/// A command that is answered from tables of a game.
#[derive(Clone, Copy)]
pub enum TableCommand<'a> {
    /// Solves the game into its folder.
    Solve {
        json: bool,
    },
    /// A question about a position, or about the start if none is given: `query`, `moves`, `why`, `line` and `show`.
    Explore {
        position: Option<&'a str>,
        question: Question,
    },
    /// A question about each position of the input, one in each line: `query -` and `moves -`.
    Filter {
        question: Question,
    },
    Page(PageRequest<'a>),
    /// The position at a tier and index.
    At {
        tier: u64,
        index: u64,
        json: bool,
    },
    Find(PositionSearch),
    /// The number of positions of each value and remoteness.
    Counts(CountsRequest),
    /// The longest wins and the longest losses, at most this many of each; on request, only those that play reaches.
    Longest {
        reached: bool,
        limit: usize,
        json: bool,
    },
    /// The counts of each tier.
    Analyse,
    Play(PlayRequest<'a>),
}

/// A command about one game.
#[derive(Clone, Copy)]
pub enum GameCommand<'a> {
    FromTables(TableCommand<'a>),
    /// An answer to each position of the input, which may go on with other games.
    Ask(AskRequest),
    /// The tier and index of a position.
    Locate { position: &'a str, json: bool },
    Check { folder: &'a str, json: bool },
    /// How its positions and moves are written, for a person at a terminal. No line of words makes only this request.
    Naming,
}

/// A request about one game.
#[derive(Clone, Copy)]
pub struct GameRequest<'a> {
    /// The name of the game.
    pub game: &'a str,
    pub command: GameCommand<'a>,
    /// The place of the tables that the command needs.
    pub tables: TableLocation<'a>,
    /// How these tables are made.
    pub plan: Plan,
    /// How it is reported how far that is.
    pub progress: Telling,
}

/// A request for a sheet of the positions of a list.
#[derive(Clone, Copy)]
pub struct SheetRequest<'a> {
    /// The name of the game of all positions. Without one each line of the list has the name of its game.
    pub game: Option<&'a str>,
    /// The heading. Without one it is a word for all.
    pub title: Option<&'a str>,
    /// Whether the value of each position is shown.
    pub valued: bool,
    /// Whether only the moves of the side to move are counted.
    pub own_moves: bool,
    /// The template of the line under each diagram, which takes the place of the two.
    pub template: Option<&'a str>,
    /// Whether the puzzles come in rising order of their moves to the end, and not in that of the list.
    pub rising: bool,
    /// Whether the best move is marked on a diagram beside each solution.
    pub arrow: bool,
    /// How the tables of each game are made.
    pub plan: Plan,
    /// How it is reported how far that is.
    pub progress: Telling,
}

/// The form in which the games are listed.
#[derive(Clone, Copy, Debug, PartialEq, Eq)]
pub enum ListForm {
    /// The name of each game.
    Names,
    /// The name and the title of each game.
    Titles,
    /// A line of JSON for each game.
    Json,
}

/// A request that a line of words makes.
#[derive(Clone, Copy)]
pub enum Request<'a> {
    /// The games in this form; on request, also those that were added later.
    List { all: bool, form: ListForm },
    Game(GameRequest<'a>),
    /// The page of all games, with the engine in this file.
    AllGames { engine: &'a str },
    Sheet(SheetRequest<'a>),
    /// A text about the program.
    Manual(Manual),
}

/// The reading of a line of words: a request, or a text that the command line itself makes.
#[derive(Drop)]
pub enum Reading<'a> {
    Request(Request<'a>),
    Help(Help),
}
