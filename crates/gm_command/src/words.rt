//! The parts that commands are made of, and the words that several of them have.

/// The kind of a word of a command line.
#[derive(Clone, Copy)]
pub(crate) enum ArgKind {
    /// A required word that is known by its place.
    Word,
    /// A word that is known by its place, and is required only without this option.
    Unless {
        option: &'static str,
    },
    /// An optional word that is known by its place.
    Optional,
    /// An option without a value.
    Flag,
    /// An option with a text, for which the help shows a name.
    Text {
        shown: &'static str,
        required: bool,
    },
    /// An option with a number within a range, for which the help shows a name.
    Number {
        shown: &'static str,
        least: i64,
        most: i64,
        default: Option<&'static str>,
    },
    /// An option with the number of a tier.
    Tier,
}

/// A word of a command line.
#[derive(Clone, Copy)]
pub(crate) struct ArgSpec {
    pub name: &'static str,
    pub kind: ArgKind,
    pub help: &'static str,
}

/// A command about one game.
#[derive(Clone, Copy)]
pub(crate) enum GameCommandName {
    Solve,
    Query,
    Moves,
    Why,
    Line,
    Show,
    Page,
    At,
    Locate,
    Find,
    Counts,
    Longest,
    Ask,
    Analyse,
    Check,
    Play,
}

/// A command of the program.
#[derive(Clone, Copy)]
pub(crate) enum CommandName {
    List,
    Game(GameCommandName),
    Sheet,
    Completions,
    Man,
}

/// A command: its name as a type and as a word, its purpose, examples of it, and its words in their order.
#[derive(Clone, Copy)]
pub(crate) struct CommandSpec {
    pub command: CommandName,
    pub name: &'static str,
    pub alias: Option<&'static str>,
    pub about: &'static str,
    pub examples: &'static str,
    pub words: &'static [ArgSpec],
}

// Writes a word of a command line: its name, its kind, and its text in `--help`.
macro_rules! word {
    ($name:literal: Unless($option:literal), $help:literal) => {
        word!($name, Unless { option: $option }, $help)
    };
    ($name:literal: Text($shown:literal), $help:literal) => {
        word!($name, Text { shown: $shown, required: false }, $help)
    };
    ($name:literal: Required($shown:literal), $help:literal) => {
        word!($name, Text { shown: $shown, required: true }, $help)
    };
    ($name:literal: Number($shown:literal, $least:literal..=$most:expr), $help:literal) => {
        word!($name, Number { shown: $shown, least: $least, most: $most, default: None }, $help)
    };
    ($name:literal: Number($shown:literal, $least:literal..=$most:expr, $default:expr), $help:literal) => {
        word!($name, Number { shown: $shown, least: $least, most: $most, default: Some($default) }, $help)
    };
    ($name:literal: $kind:ident, $help:literal) => { word!($name, $kind, $help) };
    ($name:literal, $kind:ident $({ $($field:tt)* })?, $help:literal) => {
        $crate::words::ArgSpec {
            name: $name,
            kind: $crate::words::ArgKind::$kind $({ $($field)* })?,
            help: $help,
        }
    };
}

pub(crate) use word;

/// The greatest number for a limit or a remoteness.
pub(crate) const MOST: i64 = 4_294_967_295;

pub(crate) const GAME: ArgSpec =
    word!("GAME": Word, "The name of a game, one of those that `gamesman list --all` prints");

pub(crate) const GAME_OR_ALL: ArgSpec =
    word!("GAME": Unless("all"), "The name of a game, one of those that `gamesman list --all` prints");

pub(crate) const START: ArgSpec = word!("POSITION": Optional, "The position (default: the start)");

pub(crate) const FOLDER: ArgSpec =
    word!("folder": Text("FOLDER"), "Keep the tables in this folder and reuse them");

pub(crate) const READ_ONLY: ArgSpec =
    word!("read-only": Flag, "Only read the folder; every table needed must be there and correct");

pub(crate) const QUIET: ArgSpec =
    word!("quiet": Flag, "Report no progress, which is otherwise shown where standard error is a terminal");

pub(crate) const JSON: ArgSpec = word!("json": Flag, "Print lines of JSON");

pub(crate) const REACHED: ArgSpec =
    word!("reached": Flag, "Only positions that can be reached from the start");

pub(crate) const DISTINCT: ArgSpec =
    word!("distinct": Flag, "List only the first of the moves whose results are symmetric");
