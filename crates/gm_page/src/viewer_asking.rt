//! A part of the script of a page.

/// The first part of its script: the lines of the page, words about the games, the engine in a thread of its own, and questions to it.
pub const ASKING: &[u8] = br##"</script>
<script>
"use strict";
const $ = id => document.getElementById(id);
const maker = space => (name, attributes = {}, ...children) => {
  const made = document.createElementNS(space, name);
  for (const key in attributes) made.setAttribute(key, attributes[key]);
  made.append(...children);
  return made;
};
const html = maker("http://www.w3.org/1999/xhtml"), svg = maker("http://www.w3.org/2000/svg");
const counted = n => n.toLocaleString("en");

// ---- The lines of the page: one for each game and, in a page of one game, the positions that it has been given. And the game that is open.
const lines = $("data").textContent.trim().split("\n").map(text => JSON.parse(text));
const games = lines.filter(line => !Array.isArray(line)), given = lines.filter(line => Array.isArray(line));
const single = games.length === 1;
// A page without the engine shows the positions that it has been given.
const engined = $("engine").textContent !== "";
for (const part of document.querySelectorAll(engined ? ".tables" : ".solver")) part.hidden = true;
$("many").hidden = single;
let game = null;

// ---- The games: the rules of each in a few lines; how many legal positions it has (LEGAL); what its start is worth (WORTHS); its kind (FAMILIES); how many men each move adds (ADDS); how the board is turned for the second player (TURNS); the rows that end it, by their shapes or their points (ROWS); whether a man falls to the lowest empty place of a column (DROPS); the heaps of its start (HEAPS); the rows of the bar of its start (BARS).
const RULES = {
  "connect4":
    "Each side in turn drops a man into a column that is not full: it falls onto the bottom, or onto the topmost man there. Four in a row, a " +
    "column or a diagonal win. A full board without such a line is a tie.",
  "dao":
    "Four stones a side. A stone slides in one of eight directions as far as it can. A full row or column, a square of two by two, or all four " +
    "corners win. Who has a stone in a corner that three stones of the other side shut in wins.",
  "dodgem":
    "Two cars a side on three by three cells. Each side's own cars go to the right, and the other side sees the board mirrored in its diagonal. A " +
    "car moves one cell to the right, up or down, if that cell is free; from the last column it can leave the board. Who has both cars off the " +
    "board wins. Who can't move wins.",
  "domineering":
    "Each player in turn covers two empty cells with a domino: the first player's stand upright, the second player's lie flat. Who can't move " +
    "loses.",
  "cram":
    "Each player in turn covers two empty cells, one above the other or side by side, with a domino. Who can't move loses.",
  "kayles":
    "Twelve pins in a row. Each player in turn takes one pin, or two that are side by side. Who takes the last one wins.",
  "hare":
    "Three hounds chase a hare. A hound moves along a line to an empty point, forward or up and down, never back. The hare moves along any line. " +
    "The hare wins when it has got past all hounds; the hounds win when the hare can't move.",
  "tictactoe":
    "X and O take turns to fill a cell. Three in a row, a column or a diagonal win. A full board without such a line is a tie.",
  "threemens":
    "Each side puts three pieces on the board, one a turn. Then a move takes a piece to an empty cell beside it, along a row or a column. Three " +
    "in a row or a column win. Who can't move loses.",
  "achi":
    "Each side puts four pieces on the board, one a turn. Then a move takes a piece along a line to the next point, if it is empty. Three in a " +
    "row, a column or a diagonal win. Who can't move loses.",
  "mutorere":
    "Four pieces a side on a ring of eight points around a center. A piece moves to the one empty point: to a ring point beside it, or between " +
    "the center and the ring. From the ring to the center only a piece may go that has a piece of the other side beside it. Who can't move loses.",
  "nim":
    "Heaps of one, three, five and seven counters. Each player in turn takes one or more from one heap. Who takes the last one wins.",
  "nim-misere":
    "Heaps of one, three, five and seven counters. Each player in turn takes one or more from one heap. Who takes the last one loses.",
  "chomp":
    "A bar of four rows of seven squares. Each player in turn bites off a square, with all squares that are to the right of it or below it, or " +
    "both. Who takes the last one, at the upper left, loses.",
  "tictactoe-misere":
    "X and O take turns to fill a cell. Who gets three in a row, a column or a diagonal loses. A full board without such a line is a tie.",
  "tictactoe-4":
    "X and O take turns to fill a cell. Four in a row, a column or a diagonal win. A full board without such a line is a tie.",
  "notakto":
    "Both players put the same counters. Each in turn fills a cell. Who completes three in a row, a column or a diagonal loses.",
  "hex":
    "Each cell touches up to six others: those beside it in its row and its column, and those above it to the right and below it to the left. A " +
    "move fills a cell. The side to move joins the first row to the last; rows and columns are exchanged after each move, so the other side joins " +
    "the first column to the last. There is no draw.",
  "sim":
    "Six points are joined by 15 lines. Each player in turn colours a line. Who completes a triangle of three of the points in his own colour " +
    "loses.",
  "ponghauki":
    "Two pieces a side on five points. A piece moves along a line to the one empty point. Who can't move loses.",
  "hexapawn":
    "A man goes one cell up to a free cell, or takes a man of the other side one cell up to the left or to the right. The board is turned by half " +
    "after each move, so both sides go up. A man on the last row wins. Who can't move loses.",
  "nineholes":
    "Each side puts three pieces on the board, one a turn. Then a move takes a piece along a line to the next point, if it is empty. Three in a " +
    "row or a column win; diagonals don't count. Who can't move loses.",
  "picaria":
    "Each side puts three pieces on the board, one a turn. Then a move takes a piece to an empty cell beside it, in any of eight directions. " +
    "Three in a row, a column or a diagonal win. Who can't move loses.",
  "clobber":
    "A piece takes one of the other side that is beside it in its row or its column, and lies in its place. Who can't move loses.",
  "toads":
    "Toads and frogs on a row of cells. A move takes a piece to the next cell to the right, if it is empty, or over one piece of the other side " +
    "to the empty cell behind it. The row is turned after each move, so both sides go right. Who can't move loses.",
  "kono":
    "A man moves to an empty cell beside it in its row or its column, or jumps over a man of its own side beside it onto one of the other side " +
    "right behind, which it takes. Who has fewer than two men, or can't move, loses.",
  "krk":
    "White has king and rook, Black the king alone. All move as in chess. White wins by checkmate. The game is drawn by stalemate, or when Black " +
    "takes the rook.",
  "kqk":
    "White has king and queen, Black the king alone. All move as in chess. White wins by checkmate. The game is drawn by stalemate, or when Black " +
    "takes the queen.",
  "kpk":
    "White has king and pawn, Black the king alone. All move as in chess. On the last row the pawn becomes a queen, a rook, a bishop or a knight. " +
    "White wins by checkmate. The game is drawn by stalemate, with a bishop or a knight, or when Black takes White's man.",
  "foxhounds":
    "Four hounds hunt a fox on the dark squares of a chess board. A man moves one square diagonally to a free square: a hound only forwards, the " +
    "fox any way. The fox wins as soon as no hound is on a lower row. Who can't move loses.",
  "tactix":
    "Counters on a square board. Each player in turn takes one or more that lie side by side, without a gap, in one row or one column. Who takes " +
    "the last one wins.",
  "tactix-misere":
    "Counters on a square board. Each player in turn takes one or more that lie side by side, without a gap, in one row or one column. Who takes " +
    "the last one loses.",
  "countdown":
    "Start with ten. Each player in turn takes away one or two. Who has nothing left to take from loses: take the last one and you win.",
  "wheel":
    "A made-up game on ten numbers, to show each kind of value. From 9 go to 1 or 7; from 8 to 3 or 6; from 7 to 6; from 6 to 0 or 5; from 4 to " +
    "3; from 3 to 4; from 2 to 1 or 3; from 1 to 0 or 2. At 0 the game is tied; who is to move at 5 loses.",
  "takeaway":
    "Twelve counters lie on a pile. Each player in turn takes one, two or three of them. Who takes the last one wins.",
  "shisima":
    "Three pieces a side on a ring of eight points around a pool. A piece moves along a line to an empty point; none jumps. Three in a row " +
    "through the pool win.",
  "tapatan":
    "Three pieces a side on three by three points. A piece moves along a line to the next point, if it is empty: along a row or a column, and " +
    "between the center and a corner. Three in a row, a column or a diagonal win. Who can't move loses.",
};
const LEGAL = {
  "connect4-4x4": 176500, "connect4-5x4": 4352290, "connect4-4x5": 2179983, "connect4-4x6": 25128012, "connect4-5x5": 97123542,
  "connect4-6x4": 108180486, "dao": 891990, "dodgem": 1377, "domineering-4": 32768, "domineering-5": 16777216, "cram-4": 32768, "cram-5": 16777216,
  "kayles": 4096, "hare": 2640, "tictactoe": 5478, "threemens": 3910, "achi": 5400, "mutorere": 630, "nim": 384, "nim-misere": 384, "chomp": 330,
  "tictactoe-misere": 5478, "tictactoe-4": 9722020, "notakto": 512, "hex-3": 5514, "hex-4": 9386892, "sim": 2254102, "ponghauki": 30, "hexapawn": 2487,
  "hexapawn-4": 756384, "nineholes": 3910, "picaria": 3870, "clobber": 10165778, "toads": 11550, "kono": 38301786, "krk": 402724, "kqk": 372064,
  "kpk": 1158448, "foxhounds": 2013760, "tactix-1": 2, "tactix-2": 16, "tactix-3": 512, "tactix-4": 65536, "tactix-5": 33554432, "tactix-1-misere": 2,
  "tactix-2-misere": 16, "tactix-3-misere": 512, "tactix-4-misere": 65536, "tactix-5-misere": 33554432, "countdown": 11, "wheel": 10, "takeaway": 13,
  "shisima": 1600, "tapatan": 1520
};
const WORTHS = {
  "connect4-4x4": "tie in 16", "connect4-5x4": "tie in 20", "connect4-4x5": "tie in 20", "connect4-4x6": "tie in 24", "connect4-5x5": "tie in 25",
  "connect4-6x4": "lose in 24", "dao": "draw", "dodgem": "win in 19", "domineering-4": "win in 7", "domineering-5": "lose in 12",
  "cram-4": "lose in 8", "cram-5": "lose in 12", "kayles": "win in 11", "hare": "win in 23", "tictactoe": "tie in 9", "threemens": "draw",
  "achi": "win in 11", "mutorere": "draw", "nim": "lose in 16", "nim-misere": "lose in 15", "chomp": "win in 18", "tictactoe-misere": "tie in 9",
  "tictactoe-4": "tie in 16", "notakto": "win in 6", "hex-3": "win in 5", "hex-4": "win in 9", "sim": "lose in 15", "ponghauki": "draw",
  "hexapawn": "lose in 6", "hexapawn-4": "win in 11", "nineholes": "draw", "picaria": "draw", "clobber": "win in 11", "toads": "win in 21",
  "kono": "draw", "krk": "win in 23", "kqk": "win in 13", "kpk": "win in 43", "foxhounds": "lose in 44", "tactix-1": "win in 1",
  "tactix-2": "lose in 4", "tactix-3": "win in 7", "tactix-4": "lose in 16", "tactix-5": "win in 19", "tactix-1-misere": "lose in 1",
  "tactix-2-misere": "lose in 3", "tactix-3-misere": "win in 6", "tactix-4-misere": "lose in 15", "tactix-5-misere": "win in 18",
  "countdown": "win in 7", "wheel": "win in 3", "takeaway": "lose in 6", "shisima": "draw", "tapatan": "draw"
};
const FAMILIES = {
  "connect4-4x4": "Rows of three and four", "connect4-5x4": "Rows of three and four", "connect4-4x5": "Rows of three and four",
  "connect4-4x6": "Rows of three and four", "connect4-5x5": "Rows of three and four", "connect4-6x4": "Rows of three and four",
  "dao": "Rows of three and four", "dodgem": "Chases and blockades", "domineering-4": "Filling a board", "domineering-5": "Filling a board",
  "cram-4": "Filling a board", "cram-5": "Filling a board", "kayles": "Taking counters", "hare": "Chases and blockades",
  "tictactoe": "Rows of three and four", "threemens": "Rows of three and four", "achi": "Rows of three and four", "mutorere": "Chases and blockades",
  "nim": "Taking counters", "nim-misere": "Taking counters", "chomp": "Taking counters", "tictactoe-misere": "Rows of three and four",
  "tictactoe-4": "Rows of three and four", "notakto": "Rows of three and four", "hex-3": "Filling a board", "hex-4": "Filling a board",
  "sim": "Rows of three and four", "ponghauki": "Chases and blockades", "hexapawn": "Chases and blockades", "hexapawn-4": "Chases and blockades",
  "nineholes": "Rows of three and four", "picaria": "Rows of three and four", "clobber": "Chases and blockades", "toads": "Chases and blockades",
  "kono": "Chases and blockades", "krk": "Endings of chess", "kqk": "Endings of chess", "kpk": "Endings of chess", "foxhounds": "Chases and blockades",
  "tactix-1": "Taking counters", "tactix-2": "Taking counters", "tactix-3": "Taking counters", "tactix-4": "Taking counters",
  "tactix-5": "Taking counters", "tactix-1-misere": "Taking counters", "tactix-2-misere": "Taking counters", "tactix-3-misere": "Taking counters",
  "tactix-4-misere": "Taking counters", "tactix-5-misere": "Taking counters", "countdown": "Numbers", "wheel": "Numbers", "takeaway": "Numbers",
  "shisima": "Rows of three and four", "tapatan": "Rows of three and four"
};
const ADDS = {
  "connect4-4x4": 1, "connect4-5x4": 1, "connect4-4x5": 1, "connect4-4x6": 1, "connect4-5x5": 1, "connect4-6x4": 1, "domineering-4": 2, "tictactoe": 1,
  "threemens": 1, "achi": 1, "tictactoe-misere": 1, "notakto": 1, "hex-3": 1, "picaria": 1
};
const TURNS = {
  "dodgem": "diagonal", "hex-3": "diagonal", "hexapawn": "half", "toads": "half"
};
const ROWS = {
  "connect4-4x4": "fours", "connect4-5x4": "fours", "connect4-4x5": "fours", "connect4-4x6": "fours", "connect4-5x5": "fours", "connect4-6x4": "fours",
  "dao": "rows columns squares corners", "tictactoe": "rows columns diagonals", "threemens": "rows columns", "achi": "rows columns diagonals",
  "tictactoe-misere": "rows columns diagonals", "notakto": "rows columns diagonals", "picaria": "rows columns diagonals",
  "shisima": ["0c4", "1c5", "2c6", "3c7"], "tapatan": ["123", "456", "789", "147", "258", "369", "159", "357"]
};
const DROPS = {
  "connect4-4x4": true, "connect4-5x4": true, "connect4-4x5": true, "connect4-4x6": true, "connect4-5x5": true, "connect4-6x4": true
};
const HEAPS = {
  "nim": [1, 3, 5, 7], "nim-misere": [1, 3, 5, 7]
};
const BARS = {
  "chomp": [7, 7, 7, 7]
};

// ---- The engine, in a thread of its own. It answers questions in turn. Its text unpacks to the script of that thread, a zero, and the module.
const lacking = ["WebAssembly", "DecompressionStream", "Worker"].filter(name => typeof globalThis[name] === "undefined");
// Whether games are solved here: not if the page has no engine, if the browser can't run it, or if it doesn't know the game.
let solving = engined && !lacking.length;
let worker = null, asks = 0;
const awaited = new Map();
async function unpacked(text) {
  const bytes = Uint8Array.from(atob(text), byte => byte.charCodeAt(0));
  return new Uint8Array(await new Response(new Blob([bytes]).stream().pipeThrough(new DecompressionStream("gzip"))).arrayBuffer());
}
const ask = (act, given = {}, tell) => new Promise((done, failed) => {
  awaited.set(++asks, { done, failed, tell });
  worker.postMessage({ id: asks, act, ...given });
});
async function startEngine() {
  const bytes = await unpacked($("engine").textContent), end = bytes.indexOf(0);
  worker = new Worker(URL.createObjectURL(new Blob([bytes.subarray(0, end)], { type: "text/javascript" })));
  worker.onmessage = ({ data }) => {
    const waits = awaited.get(data.id);
    if (data.told) return waits.tell?.(data.told);
    awaited.delete(data.id);
    if (data.failed) waits.failed(new Error(data.failed));
    else waits.done(data.said);
  };
  worker.onerror = error => { for (const { failed } of awaited.values()) failed(new Error(error.message)); };
  return ask("begin", { bytes: bytes.slice(end + 1).buffer });
}
let engine = null;

// ---- What the engine has said of the game: rows of a text, its worth and its moves, and the row of each text.
let rows = [], numbers = new Map();
const word = value => value.split(" ")[0], number = value => Number(value.split(" ")[2] || 0);
const worth = (value, count) => value === "draw" ? value : value + " in " + count;
function rowOf(text, value) {
  if (!numbers.has(text)) { numbers.set(text, rows.length); rows.push([text, value]); }
  return numbers.get(text);
}
// Takes what was answered of a row.
function take(row, got) {
  rows[row][1] = worth(got.positionValue, got.remoteness);
  const to = m => rowOf(m.position, worth(m.positionValue, m.remoteness));
  rows[row].moves = got.moves.map(m => ({ name: m.move, worth: worth(m.moveValue, m.moveRemoteness), to: to(m) }));
}
// The rows of the positions that the page has been given, if games are not solved here. A move is followed by the number of its result's row, if the page
// has it.
function takeGiven() {
  const moveOf = (worth, rest) => (name, k) => typeof name === "number" ? [] : [{ name, worth, to: typeof rest[k + 1] === "number" ? rest[k + 1] : null }];
  given.forEach(([text, value, ...groups]) => {
    rows[rowOf(text, value)].moves = groups.flatMap(([worth, ...rest]) => rest.flatMap(moveOf(worth, rest)));
  });
}
// Asks for the moves of those of these rows that have none yet, unless the answer is awaited already.
let awaits = new Map();
async function fill(...some) {
  const lacking = some.filter(row => row !== null && !rows[row].moves), fresh = lacking.filter(row => !awaits.has(row));
  if (fresh.length) {
    const answer = askFor(fresh, awaits);
    for (const row of fresh) awaits.set(row, answer);
  }
  await Promise.all(lacking.map(row => awaits.get(row)));
}
async function askFor(fresh, waits) {
  const of = game;
  try {
    const said = await ask("ask", { game: of.game, text: fresh.map(row => rows[row][0] + "\n").join("") });
    if (of === game) said.trim().split("\n").forEach((line, k) => take(fresh[k], JSON.parse(line)));
  } finally { for (const row of fresh) waits.delete(row); }
}
// The row of the position with this text, with its moves, or null.
async function find(text) {
  const of = game;
  if (!numbers.has(text) || !rows[numbers.get(text)].moves) {
    if (!solving || /[\n\r]/.test(text)) return null;
    const got = JSON.parse(await ask("ask", { game: of.game, text: text + "\n" }));
    if (got.error || of !== game) return null;
    take(rowOf(text, ""), got);
  }
  return numbers.get(text);
}
// The places of a move's ends. In heaps and bars that is the first counter or square of those that are taken, and in a column the place to which a man falls.
function endsOf(row, who, m) {
  const [text] = rows[row], result = m.to === null ? null : rows[m.to][0];
  if (!game.men && result === null) return [];
  if (heapsOf(game)) {
    const heap = heapsOf(game).findIndex((_, k) => text[2 * k] !== result[2 * k]);
    return [cellsOf(game).findIndex(([row, column]) => row === heap && column === Number(result[2 * heap]))];
  }
  if (DROPS[game.game]) return [landingOf(game, text, game.points.indexOf(m.name))];
  const named = game.men ? m.name.split("-").map(end => squared(game) ? end.slice(-2) : end) : [result];
  return named.map(end => turned(game, who, game.points.indexOf(end)));
}
// The moves of a row in which `who` is to move: each with its name, the name that is shown, its worth, the row of its result, and the places of its ends.
const movesOf = (row, who) => rows[row].moves.map(m => ({ ...m, shown: shownMove(game, who, m.name), ends: endsOf(row, who, m) }));

// The line of play: its positions, each with the move that led to it. `at` is the one that is shown, `moves` what can be played there, `picked` the place that
// was pressed first, and `hidden` whether values are hidden. `starter` is the side to move at its first position.
let line = [], at = 0, moves = [], picked = null, hidden = false, starter = 0;
// The side that the player has against the solver, or null; the puzzle at the line's first position, or null; the board that is edited, or null; and the place
// that the keyboard is at.
let mine = null, puzzled = null, editor = null, cursor = 0;
const textAt = k => rows[line[k].row][0], valueAt = k => rows[line[k].row][1];
const side = k => sideOf(game, textAt(k), k + starter);
function winner(k) {
  return { win: side(k), lose: 1 - side(k) }[word(valueAt(k))] ?? null;
}
// The value of a position of the line, told by who wins.
function told(k) {
  const left = number(valueAt(k)), who = winner(k);
  if (who === null) return valueAt(k) === "tie in 0" ? "a tie" : valueAt(k);
  return game.sides[who] + (left ? " in " + left : " won");
}

"##;
