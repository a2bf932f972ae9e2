//! The commands of the program and the words of each, with their texts in `--help`.
ghost use Rattle.std.specs.Prelude.{◌≡◌, map, option_map};
ghost use Rattle.gm_command.specs.Lines.{line_of_spec, line_named, command_lines};

use crate::defaults::{PIECE_WORD, SHARDS_WORD, WORKERS_WORD};
use crate::words::{
    CommandName, CommandSpec, DISTINCT, FOLDER, GAME, GAME_OR_ALL, GameCommandName, JSON, MOST,
    QUIET, REACHED, READ_ONLY, START, word,
};

static LIST: CommandSpec = CommandSpec {
    command: CommandName::List,
    name: "list",
    alias: None,
    about: "Lists the games",
    examples: "Examples:\n  gamesman list --all --titles\n  gamesman list --all | grep tactix",
    words: &[
        word!("all": Flag, "List the later games too"),
        word!("titles": Flag, "Print the title of each game after its name, behind a tab"),
        JSON,
    ],
};

static SOLVE: CommandSpec = CommandSpec {
    command: CommandName::Game(GameCommandName::Solve),
    name: "solve",
    alias: None,
    about: "Solves a game into an existing folder; correct tables in it are reused",
    examples: "Examples:\n  gamesman solve countdown tables\n  gamesman solve dao dao-tables --workers 8 --progress",
    words: &[
        GAME,
        word!("FOLDER": Word, "The folder for the tables"),
        word!("workers": Number("N", 1..=16, WORKERS_WORD), "Number of worker threads, 1 to 16"),
        word!("shards": Number("N", 1..=4, SHARDS_WORD), "Number of shards per tier, 1 to 4"),
        word!("piece": Number("N", 1..=4096, PIECE_WORD), "Number of positions a worker takes at a time, 1 to 4096"),
        word!("progress": Flag, "Report progress on standard error, a few times a second"),
        QUIET,
        JSON,
    ],
};

static QUERY: CommandSpec = CommandSpec {
    command: CommandName::Game(GameCommandName::Query),
    name: "query",
    alias: None,
    about: "Prints the value and remoteness of a position",
    examples: "Examples:\n  gamesman query countdown 10\n  gamesman query hare 'dd.d......h d' --folder tables",
    words: &[
        GAME,
        word!("POSITION": Word, "The position, as `10` in countdown, `x...o....` in tictactoe or `dd.d......h d` in hare"),
        JSON,
        FOLDER,
        READ_ONLY,
        QUIET,
    ],
};

static MOVES: CommandSpec = CommandSpec {
    command: CommandName::Game(GameCommandName::Moves),
    name: "moves",
    alias: None,
    about: "Lists the moves of a position, best first, with what each is worth and its result",
    examples: "Examples:\n  gamesman moves tictactoe xo.......\n  gamesman moves dao --distinct --folder dao-tables",
    words: &[
        GAME,
        word!("POSITION": Optional, "The position (default: the start); `-` reads positions from standard input, one per line"),
        DISTINCT,
        word!("replies": Flag, "Add the number of replies that keep the result's value, of all replies, and in how many moves one loses"),
        JSON,
        FOLDER,
        READ_ONLY,
        QUIET,
    ],
};

static WHY: CommandSpec = CommandSpec {
    command: CommandName::Game(GameCommandName::Why),
    name: "why",
    alias: None,
    about: "Lists the moves of a position, best first, with what each is worth, the best answer to it and the position after that",
    examples: "Examples:\n  gamesman why countdown 9\n  gamesman why tictactoe ox.o.....",
    words: &[GAME, START, JSON, FOLDER, READ_ONLY, QUIET],
};

static LINE: CommandSpec = CommandSpec {
    command: CommandName::Game(GameCommandName::Line),
    name: "line",
    alias: None,
    about: "Plays the best moves of both sides from a position to the end",
    examples: "Examples:\n  gamesman line tactix-3\n  gamesman line wheel 3 --limit 4",
    words: &[
        GAME,
        START,
        word!("limit": Number("N", 1..=MOST), "Stop after this many moves, 1 or more"),
        JSON,
        FOLDER,
        READ_ONLY,
        QUIET,
    ],
};

static SHOW: CommandSpec = CommandSpec {
    command: CommandName::Game(GameCommandName::Show),
    name: "show",
    alias: None,
    about: "Draws a position with the side to move and its value; for the start it also explains the notation",
    examples: "Examples:\n  gamesman show tictactoe\n  gamesman show dao x..o.xo..ox.o..x\n  gamesman show dao x...x..x.x.o.ooo --svg --no-value > puzzle.svg",
    words: &[
        GAME,
        START,
        word!("svg": Flag, "Draw a diagram for print, as an SVG document"),
        word!("tikz": Flag, "Draw a diagram for print, as a TikZ picture for LaTeX"),
        word!("no-value": Flag, "Leave the value out of the diagram, as for a puzzle"),
        word!("figures": Flag, "Draw chess men as figures in the diagram"),
        word!("arrow": Flag, "Mark the best move in the diagram by an arrow or a ring"),
        JSON,
        FOLDER,
        READ_ONLY,
        QUIET,
    ],
};

static PAGE: CommandSpec = CommandSpec {
    command: CommandName::Game(GameCommandName::Page),
    name: "page",
    alias: None,
    about: "Writes an HTML page for exploring the positions that can be reached from a position, with boards, moves and values",
    examples: "Examples:\n  gamesman page tictactoe > tictactoe.html\n  gamesman page dao x...x..x.x.o.ooo --limit 500 > puzzle.html\n  gamesman page --all --engine engine.txt > games.html",
    words: &[
        GAME_OR_ALL,
        START,
        word!("limit": Number("N", 1..=1_000_000, "2000"), "Put at most this many positions on the page, 1 to 1000000"),
        word!("engine": Text("FILE"), "Put the engine of this file on the page, which then solves the game in the browser"),
        word!("all": Flag, "Make one page of all games that the engine solves, without tables"),
        FOLDER,
        READ_ONLY,
        QUIET,
    ],
};

static AT: CommandSpec = CommandSpec {
    command: CommandName::Game(GameCommandName::At),
    name: "at",
    alias: None,
    about: "Prints the canonical position at an index of a tier, with its value",
    examples: "Examples:\n  gamesman at countdown 0 10\n  gamesman at tictactoe 2 0",
    words: &[
        GAME,
        word!("TIER": Word, "The number of the tier"),
        word!("INDEX": Word, "The index in the tier, 0 or more, as in its file"),
        JSON,
        FOLDER,
        READ_ONLY,
        QUIET,
    ],
};

static LOCATE: CommandSpec = CommandSpec {
    command: CommandName::Game(GameCommandName::Locate),
    name: "locate",
    alias: None,
    about: "Prints the tier and index of a position, whether it is canonical, and the index and text of its canonical position",
    examples: "Examples:\n  gamesman locate countdown 10\n  gamesman locate tictactoe xo.......",
    words: &[GAME, word!("POSITION": Word, "The position"), JSON],
};

static FIND: CommandSpec = CommandSpec {
    command: CommandName::Game(GameCommandName::Find),
    name: "find",
    alias: None,
    about: "Lists the positions with a given value, one per symmetry class, each with its best move and number of moves",
    examples: "Examples:\n  gamesman find countdown --value win --limit 3\n  gamesman find dao --value win --remoteness 7..11 --whole-line --limit 1",
    words: &[
        GAME,
        word!("value": Required("value"), "The value: win, tie, draw or lose"),
        word!("remoteness": Text("remoteness"), "Moves to the end, N or A..B (not with draw)"),
        word!("tier": Tier, "Only positions of this tier"),
        word!("only-move": Flag, "Only positions in which exactly one move keeps the win or tie"),
        word!("only-fastest": Flag, "Only wins in which exactly one move wins in the fewest moves"),
        word!("whole-line": Flag, "Only wins in which, against every longest defence, exactly one move keeps the win at each turn but the last"),
        word!("distinct": Flag, "Count moves whose results are symmetric as one"),
        word!("min-moves": Number("N", 1..=MOST), "Only positions with at least this many moves, 1 or more"),
        word!("min-tries": Number("N", 1..=MOST), "Only positions with at least this many tries at each turn, 1 or more"),
        word!("tries": Flag, "Add the tries, their least and their sum along the solution (not with draw)"),
        word!("sort": Text("ORDER"), "The order: index, long, or hard (goes with --tries)"),
        word!("spread": Flag, "Leave out positions met along best play from one that is listed, and those from which it is met (not with draw)"),
        word!("per-move": Number("N", 1..=MOST), "At most this many positions with one best move, 1 or more"),
        word!("orient": Number("SEED", 0..=MOST), "Draw a symmetric position in place of each, the same for the same seed"),
        REACHED,
        word!("limit": Number("limit", 1..=MOST), "List at most this many, 1 or more"),
        word!("random": Number("N", 1..=MOST), "Choose this many at random, 1 or more, none of them twice; takes the place of a limit"),
        word!("seed": Number("N", 0..=MOST), "Seed of the random choice (default: 0); the same seed gives the same choice"),
        word!("show": Flag, "Draw the board of each position above its line"),
        JSON,
        word!("page": Flag, "Write an HTML page with a diagram of each position and its solution to unfold"),
        FOLDER,
        READ_ONLY,
        QUIET,
    ],
};

static SHEET: CommandSpec = CommandSpec {
    command: CommandName::Sheet,
    name: "sheet",
    alias: None,
    about: "Makes an HTML page for print of a list of positions: a diagram of each, and the solutions at the end",
    examples: "Examples:\n  gamesman find dao --value win --remoteness 7..11 --random 12 | gamesman sheet dao > puzzles.html\n  gamesman sheet --title 'Saturday' --own-moves < list.txt > page.html",
    words: &[
        word!("GAME": Optional, "The game of all positions, each the first column of a line; without it a line has a game, a tab and a position"),
        word!("title": Text("TEXT"), "The heading of the page (default: Puzzles)"),
        word!("no-value": Flag, "Leave the value out of each diagram"),
        word!("own-moves": Flag, "Count only the moves of the side to move, as in `x wins in 3`"),
        word!("caption": Text("TEMPLATE"), "The line under each diagram, as `{number}. {side} {value} in {moves}`"),
        word!("sort": Text("ORDER"), "The order: list, or long (rising by moves to the end, draws last)"),
        word!("arrow": Flag, "Mark the best move on a diagram beside each solution"),
        word!("workers": Number("N", 1..=16, WORKERS_WORD), "Number of worker threads, 1 to 16"),
        QUIET,
    ],
};

static COUNTS: CommandSpec = CommandSpec {
    command: CommandName::Game(GameCommandName::Counts),
    name: "counts",
    alias: None,
    about: "Counts the positions of a game by value and remoteness, with bars",
    examples: "Examples:\n  gamesman counts countdown\n  gamesman counts tactix-3 --reached\n  gamesman counts tictactoe --legal --by-tier --csv > tictactoe.csv",
    words: &[
        GAME,
        word!("legal": Flag, "Count all legal positions, not one per symmetry class"),
        word!("by-tier": Flag, "Count each tier by itself; its number comes first"),
        REACHED,
        word!("csv": Flag, "Print comma-separated values under the names of the columns"),
        JSON,
        FOLDER,
        READ_ONLY,
        QUIET,
    ],
};

static LONGEST: CommandSpec = CommandSpec {
    command: CommandName::Game(GameCommandName::Longest),
    name: "longest",
    alias: None,
    about: "Lists the longest wins and then the longest losses of a game, in the form of `find`",
    examples: "Examples:\n  gamesman longest countdown\n  gamesman longest dao --limit 3",
    words: &[
        GAME,
        REACHED,
        word!("limit": Number("limit", 1..=MOST), "List at most this many wins and this many losses, 1 or more"),
        JSON,
        FOLDER,
        READ_ONLY,
        QUIET,
    ],
};

static ASK: CommandSpec = CommandSpec {
    command: CommandName::Game(GameCommandName::Ask),
    name: "ask",
    alias: None,
    about: "Reads one position per line and answers each with one line of JSON: its value and what its moves are worth",
    examples: "Examples:\n  echo 10 | gamesman ask countdown\n  echo 10 | gamesman ask countdown --values --with canonical,best",
    words: &[
        GAME,
        word!("values": Flag, "Leave out the moves"),
        DISTINCT,
        word!("with": Text("WORDS"), "Add to each answer, separated by commas: canonical, parents, symmetric, best"),
        word!("ready": Flag, "Write a first line once the tables are there"),
        FOLDER,
        READ_ONLY,
        QUIET,
    ],
};

static ANALYSE: CommandSpec = CommandSpec {
    command: CommandName::Game(GameCommandName::Analyse),
    name: "analyse",
    alias: Some("analyze"),
    about: "Counts the positions of a game by value and remoteness, one line of JSON for each tier",
    examples: "Examples:\n  gamesman analyse countdown\n  gamesman analyse dao --folder dao-tables",
    words: &[GAME, FOLDER, READ_ONLY, QUIET],
};

static CHECK: CommandSpec = CommandSpec {
    command: CommandName::Game(GameCommandName::Check),
    name: "check",
    alias: None,
    about: "Checks the tables of a game in a folder, tier by tier",
    examples: "Examples:\n  gamesman check countdown tables\n  gamesman check dao dao-tables",
    words: &[
        GAME,
        word!("FOLDER": Word, "The folder of the tables"),
        JSON,
        QUIET,
    ],
};

static PLAY: CommandSpec = CommandSpec {
    command: CommandName::Game(GameCommandName::Play),
    name: "play",
    alias: None,
    about: "Plays a game against you from its start; type a move, as `1` in countdown or `a1` in tictactoe, or `quit`",
    examples: "Examples:\n  gamesman play tictactoe --show\n  gamesman play countdown --from 7 --second",
    words: &[
        GAME,
        FOLDER,
        READ_ONLY,
        QUIET,
        word!("second": Flag, "Let the computer move first"),
        word!("from": Text("POSITION"), "Begin at this position; you are the side to move, or with `--second` the other side"),
        word!("show": Flag, "Draw the board before each question; you are `x` where a game has `x` and `o`"),
    ],
};

static COMPLETIONS: CommandSpec = CommandSpec {
    command: CommandName::Completions,
    name: "completions",
    alias: None,
    about: "Prints a shell completion script",
    examples: "Examples:\n  gamesman completions bash > ~/.local/share/bash-completion/completions/gamesman\n  gamesman completions fish > ~/.config/fish/completions/gamesman.fish",
    words: &[word!("SHELL": Word, "The shell: bash, zsh or fish")],
};

static MAN: CommandSpec = CommandSpec {
    command: CommandName::Man,
    name: "man",
    alias: None,
    about: "Prints the manual page",
    examples: "Examples:\n  gamesman man > gamesman.1\n  gamesman man | man -l -",
    words: &[],
};

/// Returns all commands, in the order of the help.
#[tactic(auto, unfolding(crate::specs::Lines::command_lines))]
pub(crate) fn lines() -> [&'static CommandSpec; 20]
    ensures { map (λ line. line_of_spec line.now) result ≡ command_lines }
{
    [
        &LIST,
        &SOLVE,
        &QUERY,
        &MOVES,
        &WHY,
        &LINE,
        &SHOW,
        &PAGE,
        &AT,
        &LOCATE,
        &FIND,
        &SHEET,
        &COUNTS,
        &LONGEST,
        &ASK,
        &ANALYSE,
        &CHECK,
        &PLAY,
        &COMPLETIONS,
        &MAN,
    ]
}

/// Returns the command of this name.
pub(crate) fn line_named(name: &str) -> Option<&'static CommandSpec>
    ensures { option_map (λ line. line_of_spec line.now) result ≡ line_named name.now }
{
    lines().iter().find(|line| line.name == name).copied()
}
