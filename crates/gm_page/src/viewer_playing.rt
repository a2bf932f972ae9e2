//! A part of the script of a page.

/// Editing, play against the solver, puzzles, and the line of play.
pub const PLAYING: &[u8] = br##"
// ---- Editing: the board's men by their places, each the number of its kind, who is to move, and what a press puts down (null for the next kind in turn). The
// text is asked about after each change. Stepping and play wait until the board is done.
function edit() {
  if (editor) return finish();
  picked = mine = puzzled = null;
  editor = { men: menOf(game, textAt(at), side(at)), who: side(at), brush: squared(game) ? 0 : null, text: textAt(at), row: null };
  say();
  editing();
  redrawn();
  return become();
}
// Leaves the edited board: with its position, or with the one before.
function finish() {
  const { row, who } = editor;
  if (row !== null) return begin(row, who);
  return drawEdited();
}
function cancel() {
  editor = null;
  editing();
  draw();
  $("edit").focus();
}
// The kinds of men that the game has.
const kinds = () => [...game.men].flatMap((letter, kind) => !squared(game) || hasMan(game, letter) ? [kind] : []);
// Shows what belongs to editing, or hides it.
function editing() {
  const many = editor && game.men.length > 0;
  $("edit").setAttribute("aria-pressed", editor !== null);
  for (const id of ["finish", "counted"]) $(id).hidden = !editor;
  $("steps").hidden = editor !== null;
  $("palette").hidden = !many;
  $("typed").hidden = $("text").hidden = editor !== null;
  if (many) layPalette();
}
function redrawn() {
  for (const part of [setButtons, drawMoves, drawLine]) part();
}
function layPalette() {
  const button = (kind, name, ...picture) => {
    const made = html("button", { "aria-pressed": editor.brush === kind }, ...picture, name);
    made.onclick = () => { editor.brush = kind; layPalette(); };
    return made;
  };
  const men = kinds().map(kind => button(kind, kindName(game, kind), icon(...manOf(board, kind, 0, 0, board.crossed ? 8 : 10))));
  const held = $("palette").contains(document.activeElement);
  $("palette").replaceChildren(...(squared(game) ? [] : [button(null, "Next in turn")]), ...men, button(-1, "Empty"));
  if (held) $("palette").querySelector("[aria-pressed=true]").focus();
}
// A press on a place: the kind that is chosen, or none if it is there already; else the next kind in turn.
function change(k) {
  if (board.inRow) editor.text = game.points[k];
  else if (heapsOf(game)) cut(k);
  else {
    const all = [-1, ...kinds()], now = editor.men[k], { brush } = editor;
    put(k, brush === null ? all[(all.indexOf(now) + 1) % all.length] : now === brush ? -1 : brush);
  }
  return become();
}
// A press on a counter or a square takes it with those after it, and one on an empty place fills the row up to there. No row of a bar becomes longer than the
// one above it.
function cut(k) {
  const [row, column] = cellsOf(game)[k], long = editor.men[k] < 0 ? column + 1 : column, bar = BARS[game.game];
  const isLeft = (has, [at, place]) => at === row ? place < long : !bar ? has : at < row ? has || place < long : has && place < long;
  editor.men = cellsOf(game).map((cell, j) => isLeft(editor.men[j] === 0, cell) ? 0 : -1);
}
// Puts a man down. On a board of chess only hounds are several.
function put(k, kind) {
  if (squared(game) && kind >= 0 && game.men[kind] !== "h") editor.men = editor.men.map(it => it === kind ? -1 : it);
  editor.men[k] = kind;
}
// A drag takes a man to another place.
function carry(from, to) {
  const kind = editor.men[from];
  if (board.inRow || heapsOf(game) || kind < 0) return;
  editor.men[from] = -1;
  put(to, kind);
  become();
}
// The same men with the other side to move.
function swap() {
  editor.who = 1 - editor.who;
  return become();
}
async function become() {
  const it = editor, text = it.text = board.inRow ? it.text : textOf(game, it.men, it.who);
  if (game.men.length === 1 && ADDS[game.game]) it.who = firstOf(game, text);
  drawPlaces();
  const row = await find(text);
  if (editor !== it || it.text !== text) return;
  const slides = row !== null && (!rows[row].moves.length || rows[row].moves.some(m => m.name.includes("-")));
  it.row = row !== null && (slides || !ADDS[game.game] || !whyNoTurn()) ? row : null;
  drawEdited();
}
const countsOf = men => [...game.men].map((_, kind) => men.filter(it => it === kind).length);
// Why the side to move can't be so, in a game whose moves add men.
const whyNoTurn = () => whyNoCounts(game, editor.who, countsOf(editor.men));
function drawEdited() {
  const { men, who, row } = editor, counts = countsOf(men);
  const worth = row === null ? html("span", { class: "none" }, "No position of the game") : hidden ? "" : pill(rows[row][1]);
  $("state").replaceChildren(swatch(who), game.sides[who] + " to move", worth);
  const told = kinds().map(kind => `${kindName(game, kind)} ${counts[kind]}`).join(", ");
  const why = row !== null ? "" : whyNoPosition(game, men, who);
  $("counted").textContent = [told, why].filter(Boolean).join(". ");
  $("done").setAttribute("aria-disabled", row === null);
}

// ---- Against the solver. It plays the best moves or, on the other levels, errs in one of 8, 4 or 2 moves. The seed and the position decide in which, so that the
// same moves are answered alike.
const LEVELS = [0, 8, 4, 2];
$("level").replaceChildren(...LEVELS.map(of => html("option", { value: of }, of ? `errs in 1 of ${of} moves` : "plays perfectly")));
$("seed").value = 1 + Math.floor(Math.random() * 999);
// A number from 0 to 1 that these words determine.
function chance(...words) {
  let h = 2166136261;
  for (const byte of words.join(" ")) h = Math.imul(h ^ byte.charCodeAt(0), 16777619);
  for (const by of [16, 13]) h = Math.imul(h ^ (h >>> by), 2246822507);
  return ((h ^ (h >>> 16)) >>> 0) / 4294967296;
}
// The moves among which the solver chooses: the best, or if it errs those of a lower worth, or else slower ones.
function choices(errs) {
  const best = moves.filter(m => m.worth === moves[0].worth), lower = moves.filter(m => word(m.worth) !== word(moves[0].worth));
  if (!errs || best.length === moves.length) return best;
  return lower.length ? lower : moves.filter(m => m.worth !== moves[0].worth);
}
function chosen() {
  const level = puzzled ? 0 : Number($("level").value), words = [$("seed").value, at, textAt(at)];
  const among = choices(level && chance("errs", ...words) < 1 / level);
  return among[Math.floor(chance("which", ...words) * among.length)];
}
function against(who) {
  mine = who;
  puzzled = null;
  $("versus").value = who ?? "";
  hidden = who !== null;
  if (who !== null) line.length = at + 1;
  draw();
  if (who === null) return say();
  const level = Number($("level").value);
  say(`You play ${game.sides[who]}. The solver ${$("level").selectedOptions[0].textContent}${level ? `, by seed ${$("seed").value}` : ""}.`);
  return reply();
}
// The solver's move, if it is the solver's turn at the end of the line and the game goes on.
let replies = 0;
async function reply() {
  const turn = ++replies;
  if (mine === null || at !== line.length - 1) return;
  if (!moves.length) return say(puzzled ? solved() : winner(at) === null ? "A tie." : winner(at) === mine ? "You won." : "The solver won.");
  if (drawn(at)) return say("The position is on the board for the third time: the game is a draw.");
  if (side(at) === mine) return;
  await new Promise(done => setTimeout(done, 500));
  if (turn !== replies || mine === null || editor) return;
  await play(chosen());
}
// How often the position of the line's place k has come up to there, with the same side to move. The third time is a draw.
const times = k => line.slice(0, k + 1).filter((step, j) => step.row === line[k].row && side(j) === side(k)).length;
const drawn = k => moves.length > 0 && times(k) >= 3;
// Returns words about a position that comes again.
function repeated(k) {
  const before = line.findIndex((step, j) => step.row === line[k].row && side(j) === side(k)), often = times(k);
  if (often < 2) return "";
  if (often > 2) return "The position is on the board for the third time: by repetition a draw.";
  return `The same position as ${before ? "after move " + before : "at the start of the line"}. The third time is a draw.`;
}
// Takes the player's last move back, and the answer to it.
function takeBack() {
  let k = at - 1;
  while (k > 0 && mine !== null && side(k) !== mine) k--;
  if (k < 0 || (mine !== null && side(k) !== mine)) return say("There is no move of yours to take back.");
  replies++;
  return go(k).then(() => {
    line.length = at + 1;
    draw();
    say("Taken back.");
  });
}
// A hint: first how many moves are good, and then one of the best, on the board too.
let hinted = null;
function help() {
  if (!moves.length) return;
  const kind = word(moves[0].worth), good = moves.filter(m => word(m.worth) === kind).length, first = hinted !== line[at];
  hinted = line[at];
  const does = { win: "win", lose: "lose, as all do", draw: "keep the draw", tie: "keep the tie" }[kind];
  if (first) return say(`Hint: ${good} of ${moves.length} moves ${does}. Press Hint again for one of them.`);
  mark(hint, moves[0]);
  say(`Hint: ${moves[0].shown}.`);
}

// ---- Puzzles: a random position that exactly one move wins; or, if the game has none, that exactly one move wins in the fewest moves.
let counts = [], tries = 0;
const isWon = record => Math.floor(record / CODE) === 4 && record % CODE >= 3;
function layLengths() {
  const lengths = counts.map(([record]) => record).filter(isWon).sort((a, b) => a - b);
  $("length").replaceChildren(html("option", { value: "" }, "of any length"), ...lengths.map(it => html("option", { value: it }, `win in ${it % CODE}`)));
}
// How many moves are tries: they are not the fastest win, and the game is not lost or tied after them within two moves of each side.
const isTry = (m, remoteness) => m.moveValue === "win" ? m.moveRemoteness > remoteness : m.moveValue === "draw" || m.moveRemoteness > 4;
const triesOf = ({ moves, remoteness }) => moves.filter(m => isTry(m, remoteness)).length;
async function findPuzzle(records, least) {
  const of = game, winning = ({ moves, remoteness }, fastest) => moves.filter(m => m.moveValue === "win" && (!fastest || m.moveRemoteness === remoteness));
  let second = null;
  for (let turn = 0; records.length && turn < 24 && !(second && turn >= 4); turn++) {
    const record = records[Math.floor(Math.random() * records.length)];
    const texts = await Promise.all(Array.from({ length: 12 }, () => ask("random", { game: of.game, record })));
    const told = (await ask("ask", { game: of.game, text: texts.map(text => text + "\n").join("") })).trim().split("\n").map(it => JSON.parse(it));
    if (of !== game) return null;
    const found = fastest => told.findIndex(it => it.moves.length > 1 && winning(it, fastest).length === 1 && triesOf(it) >= least);
    const made = (k, fastest) => k < 0 ? null : { text: texts[k], left: told[k].remoteness, tries: triesOf(told[k]), fastest };
    const first = made(found(false), false);
    if (first) return first;
    second ??= made(found(true), true);
  }
  return second;
}
async function puzzle() {
  const of = game, wanted = $("length").value, records = counts.map(([record]) => record).filter(isWon);
  say("Looking for a puzzle.");
  const found = await findPuzzle(wanted ? [Number(wanted)] : records, Number($("least").value));
  if (of !== game) return;
  if (!found) return say("No such puzzle was found.");
  await begin(await find(found.text));
  hidden = true;
  mine = side(0);
  puzzled = found;
  tries = 1;
  $("versus").value = mine;
  $("puzzle").textContent = "Next puzzle";
  draw();
  const only = found.fastest ? "is that fast" : "wins";
  say(`A puzzle: ${game.sides[mine]} to move and win in ${found.left}, moves of both sides. Exactly one move ${only}: which? It has ${found.tries} ${found.tries === 1 ? "try" : "tries"}.`);
}
// Returns the words for a puzzle's end.
function solved() {
  if (winner(at) !== mine) return "Not solved: take back, and try again.";
  return `Solved${tries > 1 ? `, at try ${tries}` : ""}: ${game.sides[mine]} won in ${at} moves. Next puzzle shows another.`;
}
// Whether a move of the player's is right in a puzzle: it keeps the win, and at first, if that is asked for, the fastest.
const isRight = (m, k) => word(m.worth) === "win" && (k > 0 || !puzzled.fastest || m.worth === valueAt(k));

// ---- The line.
const say = (...words) => $("say").replaceChildren(...words);
const stepOf = m => ({ row: m.to, name: m.name, shown: m.shown });
async function play(m) {
  if (m.to === null) {
    const command = html("code", {}, `gamesman page ${game.game} '${textAt(at)}'`);
    return say(`The position after ${m.shown} is not in this page. It is in that of `, command);
  }
  const was = at, own = mine !== null && side(at) === mine, kept = puzzled && own ? isRight(m, was) : word(m.worth) === word(valueAt(at));
  const perfect = mine === null || own || $("level").value === "0";
  if (line[at + 1]?.name !== m.name) {
    line.length = at + 1;
    line.push({ ...stepOf(m), kept: hidden && perfect ? kept : undefined });
  }
  await go(at + 1);
  say(repeated(at));
  if (!puzzled || !own) return reply();
  if (!kept) {
    tries++;
    return say(`${word(m.worth) === "win" ? "That wins too, but not as fast" : "That gives the win away"}. Take back, and try again.`);
  }
  if (was === 0) say(`That is the one ${puzzled.fastest ? "fastest" : "winning"} move. The solver goes on.`);
  return reply();
}
async function go(k) {
  at = Math.max(0, Math.min(k, line.length - 1));
  const here = line, row = line[at].row;
  await fill(row);
  if (here !== line || line[at]?.row !== row) return;
  picked = null;
  if (editor) { editor = null; editing(); }
  say();
  draw();
  // The results of its moves, so that the next step is there at once, and for what is told of replies.
  later(row).catch(fail);
}
async function later(row) {
  const here = line;
  await fill(...rows[row].moves.map(m => m.to));
  if (here === line && line[at]?.row === row) drawReplies();
}
// A line that begins at this row, with this side to move.
function begin(row, who = firstOf(game, rows[row][0])) {
  line = [{ row }];
  starter = who;
  mine = puzzled = editor = null;
  $("versus").value = "";
  editing();
  return go(0);
}
// The line of best play from here, to the end of the game, or to a position that comes again.
async function lead() {
  line.length = at + 1;
  const here = line;
  let end = "The best line ends with the game.";
  for (let seen = [line[at].row], m; ([m] = movesOf(seen.at(-1), side(line.length - 1)))[0]; seen.push(m.to)) {
    if (m.to === null) { end = "The best line goes on beyond this page."; break; }
    await fill(m.to);
    if (here !== line) return;
    line.push(stepOf(m));
    const again = seen.findIndex((row, j) => row === m.to && side(at + j) === side(line.length - 1));
    if (again >= 0) { end = `The best line goes round: at its end is the position after move ${at + again} again.`; break; }
  }
  draw();
  say(end);
}
// A random position, of all or of those with this record.
async function random(record = 0) {
  const of = game, text = await ask("random", { game: of.game, record });
  if (of !== game) return;
  await begin(await find(text));
  say("A random position" + (record ? " of this worth." : "."));
}
"##;
