//! A part of the script of a page.

/// Boards and men, small and large, and places that are pressed.
pub const BOARDS: &[u8] = br##"
// ---- Sides and men: who is to move in a position, and whose man is on each place. What the page knows of a game beside its line is in ADDS, TURNS, ROWS,
// DROPS, HEAPS and BARS.
// On a board of chess each square has the same capital letter, and a position's text has a word for each man, its letter and its square.
const squared = of => of.board.includes("A A");
// Whether the points are numbers, of which a position is one.
const numbered = of => !/[A-Z]/.test(of.board);
// The rows of a game whose position is how long each of them is: heaps, or the rows of a bar. Each counter or square has a place of its own.
const heapsOf = of => HEAPS[of.game] || BARS[of.game];
const cellsOf = of => heapsOf(of).flatMap((most, row) => [...Array(most).keys()].map(column => [row, column]));
for (const of of games.filter(heapsOf)) {
  of.points = cellsOf(of).map(([row, column]) => BARS[of.game] ? `${row + 1}-${column + 1}` : `heap ${row + 1}, ${column + 1}`);
}
// Whether a position's text ends with the side to move.
const sided = of => squared(of) || (of.men !== "" && of.start.length > of.points.length);
const sideLetters = of => squared(of) && of.men !== "fh" ? "wb" : of.men;
// The side to move, 0 or 1: by the text's end if it is there; else by turns, k moves after the first side's turn.
const sideOf = (of, text, k) => sided(of) ? Math.max(0, sideLetters(of).indexOf(text.at(-1))) : k % 2;
// The side to move in a position that a line begins with. Where moves only add men, their number tells it.
function firstOf(of, text) {
  const men = [...text].filter(byte => of.men.includes(byte)).length;
  return ADDS[of.game] ? Math.floor(men / ADDS[of.game]) % 2 : sideOf(of, text, 0);
}
// Where the byte k of a text is on the board, and back. For the second side some games turn the board; it is drawn as the first side sees it.
function turned(of, who, k) {
  const many = of.points.length, wide = Math.sqrt(many);
  if (!who || !TURNS[of.game] || k < 0) return k;
  return TURNS[of.game] === "half" ? many - 1 - k : k % wide * wide + Math.floor(k / wide);
}
// The words of a move with the names of the points where it is on the board.
function shownMove(of, who, name) {
  const put = end => { const k = of.points.indexOf(end); return k < 0 ? end : of.points[turned(of, who, k)]; };
  return who && TURNS[of.game] ? name.split("-").map(put).join("-") : name;
}
// The kind of the man on the place k of a position, by its place in the list of men, or -1. If sides swap, the text's first kind is that of the side to move,
// and here that of the first side.
function kindIn(of, text, who, k) {
  if (numbered(of)) return -1;
  if (heapsOf(of)) return cellsOf(of)[k][1] < Number(text[2 * cellsOf(of)[k][0]]) ? 0 : -1;
  if (squared(of)) return of.men.indexOf(text.split(" ").find(word => word.length === 3 && word.endsWith(of.points[k]))?.[0] ?? " ");
  const kind = of.men.indexOf(text[turned(of, who, k)] ?? " ");
  return kind < 0 || !of.swap || who === 0 ? kind : 1 - kind;
}
const menOf = (of, text, who) => of.points.map((_, k) => kindIn(of, text, who, k));
// The side that has a kind of men: on a board of chess the last kind is the second side's.
const ownerOf = (of, kind) => squared(of) && kind >= 0 ? Number(kind === of.men.length - 1) : kind;
// The text of a position with these men.
function textOf(of, men, who) {
  if (heapsOf(of)) return heapsOf(of).map((_, row) => men.filter((kind, k) => kind === 0 && cellsOf(of)[k][0] === row).length).join(" ");
  const words = kind => men.flatMap((it, k) => it === kind ? [of.men[kind] + of.points[k]] : []).sort((a, b) => a[2] + a[1] < b[2] + b[1] ? -1 : 1);
  if (squared(of)) return [...[...of.men].flatMap((_, kind) => words(kind)), sideLetters(of)[who]].join(" ");
  const byte = kind => kind < 0 ? "." : of.men[of.swap && who ? 1 - kind : kind];
  const text = men.map((_, k) => byte(men[turned(of, who, k)])).join("");
  return sided(of) ? text + of.start.at(-2) + of.men[who] : text;
}
// Whether a game on a chess board can have men with this letter: those of its start, and what a pawn becomes.
const hasMan = (of, letter) => of.start.includes(letter) || (of.start.includes("P") && "QRBN".includes(letter));
const NAMES = { K: "king", Q: "queen", R: "rook", B: "bishop", N: "knight", P: "pawn", k: "king", f: "fox", h: "hound" };
// The name of a kind of men.
function kindName(of, kind) {
  if (kind < 0) return "empty";
  if (of.men.length < 2) return BARS[of.game] ? "square" : "counter";
  return of.sides[ownerOf(of, kind)] + (squared(of) ? ` ${of.men === "fh" ? of.men[kind] : NAMES[of.men[kind]]}` : "");
}

// How many places the first row of a board has.
const wideOf = of => of.board.split("\n").find(text => /[A-Z]/.test(text)).match(/[A-Z]/g).length;
// Where a man falls that is dropped into the column of the place k, or -1 if the column is full.
const landingOf = (of, text, k) => of.points.findLastIndex((_, to) => to % wideOf(of) === k % wideOf(of) && text[to] === ".");

// ---- Rows, in the sense of the game's rules: places that end it if one side has them all.
function rowsOf(of) {
  const told = ROWS[of.game] || [];
  if (Array.isArray(told)) return told.map(names => [...names].map(name => of.points.indexOf(name)));
  const wide = wideOf(of), each = [...Array(wide).keys()], inner = each.slice(1), all = [...of.points.keys()];
  const at = (row, column) => wide * row + column, isOn = ([row, column]) => row < all.length / wide && column >= 0 && column < wide;
  const shapes = {
    rows: () => each.map(r => each.map(c => at(r, c))),
    columns: () => each.map(c => each.map(r => at(r, c))),
    diagonals: () => [each.map(r => at(r, r)), each.map(r => at(r, wide - 1 - r))],
    squares: () => inner.flatMap(r => inner.map(c => [at(r, c), at(r, c - 1), at(r - 1, c), at(r - 1, c - 1)])),
    fours: () => [[0, 1], [1, 0], [1, 1], [1, -1]].flatMap(([down, right]) => all.map(k => [0, 1, 2, 3].map(n =>
      [Math.floor(k / wide) + n * down, k % wide + n * right]))).filter(four => four.every(isOn)).map(four => four.map(([row, column]) => at(row, column))),
    corners: () => [[at(0, 0), at(0, wide - 1), at(wide - 1, 0), at(wide - 1, wide - 1)]],
  };
  return told.split(" ").flatMap(shape => shapes[shape]());
}
// The rows that are full of one kind of men.
const fullRows = (of, men) => rowsOf(of).filter(row => men[row[0]] >= 0 && row.every(k => men[k] === men[row[0]]));
// The places of the men that ended the game, where the page can tell: a row, or the king that is mated.
function endedBy(of, text, who, value) {
  const men = menOf(of, text, who);
  if (squared(of) && of.men !== "fh" && value === "lose in 0") return men.flatMap((kind, k) => kind === of.men.length - 1 ? [k] : []);
  return value === "tie in 0" ? [] : [...new Set(fullRows(of, men).flat())];
}
// ---- A board, from its drawing, in which capital letters are the places of the bytes of a position's text. A column of
// the drawing is one unit wide, a row two units high. Without capitals the points are in two rows.
const UNIT = 20;
function boardOf(of, small = false) {
  const places = [], net = svg("g"), under = svg("g");
  const inRow = numbered(of), crossed = of.board.includes("+"), netted = !crossed && of.board.includes("-");
  const width = crossed || netted ? 4 * UNIT : 2 * UNIT, radius = width * .34;
  const label = (x, y, text) => under.append(svg("text", { class: "name", x, y }, text));
  // All strokes are one path, so that none is painted twice.
  let ways = "";
  const stroke = (x, y, dx, dy) => { ways += `M${x - dx * UNIT} ${y - dy * UNIT}l${2 * dx * UNIT} ${2 * dy * UNIT}`; };
  const strokes = { "-": [[1, 0]], "|": [[0, 2]], "/": [[2, -2]], "\\": [[2, 2]], "+": [[1, 0], [0, 2]] };
  const half = Math.ceil(of.points.length / 2);
  if (inRow) for (const k of of.points.keys()) places.push({ x: 2 * UNIT * (k % half), y: 4 * UNIT * Math.floor(k / half) });
  else if (heapsOf(of)) {
    places.push(...cellsOf(of).map(([row, column]) => ({ x: 2 * UNIT * column, y: 2 * UNIT * row })));
    heapsOf(of).forEach((_, row) => label(-width / 2 - 15, 2 * UNIT * row, row + 1));
  } else of.board.split("\n").forEach((text, row) => [...text].forEach((byte, column) => {
    const x = UNIT * column, y = 2 * UNIT * row;
    if (/[A-Z]/.test(byte)) places[squared(of) ? places.length : byte.charCodeAt(0) - 65] = { x, y };
    else if (strokes[byte]) for (const [dx, dy] of strokes[byte]) stroke(x, y, dx, dy);
    else if (byte !== " ") label(column ? x : UNIT * text.search(/[A-Z]/) - width / 2 - 15, y, byte);
  }));
  net.append(svg("path", { class: "net", d: ways }));
  // Where rows and columns have names, points have none of their own.
  const lettered = !inRow && under.querySelector("text") !== null;
  for (const [k, { x, y }] of places.entries()) {
    const height = inRow ? 2 * width : width;
    if (netted) under.append(svg("circle", { class: "point", cx: x, cy: y, r: lettered ? 6 : radius }));
    else if (!crossed) {
      const dark = squared(of) && (x + y) / (2 * UNIT) % 2 === 0;
      net.append(svg("rect", { class: dark ? "cell dark" : "cell", x: x - width / 2, y: y - width / 2, width, height }));
    }
    if (!lettered) label(x, y, of.points[k]);
  }
  const xs = places.map(place => place.x), ys = places.map(place => place.y), edge = lettered && !small ? 30 : 6;
  const left = Math.min(...xs) - width / 2 - edge, right = Math.max(...xs) + width / 2 + 6;
  const top = Math.min(...ys) - width / 2 - edge, foot = Math.max(...ys) + (inRow ? 1.5 : .5) * width + 6;
  return { of, places, net, under, inRow, crossed, netted, width, radius, box: [left, top, right - left, foot - top].join(" ") };
}

// ---- Men and values.
// A man of the first or the second side, or of neither if there is only one kind of men.
function man({ of, crossed }, who, x, y, r, letter = of.men.at(-who)) {
  if (crossed && who) return [svg("circle", { class: "stroke", cx: x, cy: y, r })];
  if (crossed) return [svg("path", { class: "stroke", d: `M${x - r} ${y - r}l${2 * r} ${2 * r}M${x - r} ${y + r}l${2 * r} ${-2 * r}` })];
  const disc = colour => svg("circle", { class: "man " + colour, cx: x, cy: y, r });
  if (BARS[of.game]) return [svg("rect", { class: "man plain", x: x - r, y: y - r, width: 2 * r, height: 2 * r, rx: 3 })];
  if (of.men.length < 2) return [disc("plain")];
  if (!of.swap) return [disc(who ? "black" : "white"), svg("text", { class: "letter", x, y, "font-size": r }, letter)];
  return who ? [disc("white"), svg("circle", { class: "ring", cx: x, cy: y, r: r * .55 })] : [disc("black")];
}
// A man of a kind, on its place or on a button.
const manOf = (b, kind, x, y, r = b.crossed ? b.radius * .8 : b.radius) => man(b, ownerOf(b.of, kind), x, y, r, squared(b.of) ? b.of.men[kind] : undefined);
// A small drawing of a game: its board with the first position.
function drawing(of) {
  const b = boardOf(of, true), men = svg("g");
  b.places.forEach(({ x, y }, k) => {
    const kind = kindIn(of, of.start, firstOf(of, of.start), k);
    if (kind >= 0) men.append(...manOf(b, kind, x, y));
    if (b.inRow && of.points[k] === of.start) men.append(svg("rect", { class: "here", x: x - 15, y: y - 15, width: 30, height: 30, rx: 6 }));
  });
  // On an empty board of crosses and rings one of each shows what is played.
  if (b.crossed) men.append(...man(b, 0, b.places[4].x, b.places[4].y, b.radius * .8), ...man(b, 1, b.places[2].x, b.places[2].y, b.radius * .8));
  b.under.querySelectorAll("text").forEach(text => { if (!b.inRow) text.remove(); });
  return svg("svg", { viewBox: b.box, "aria-hidden": "true" }, b.net, b.under, men);
}
let board = null;
const icon = (...men) => svg("svg", { class: "swatch", viewBox: "-12 -12 24 24", "aria-hidden": "true" }, ...men);
const swatch = who => game.men.length < 2 ? "" : icon(...man(board, who, 0, 0, board.crossed ? 8 : 10));
const pill = value => html("span", { class: "value " + word(value) }, value);
function badge(value, x, y, size) {
  const name = word(value)[0].toUpperCase() + (value === "draw" ? "" : number(value)), w = size * (.6 + .65 * name.length);
  return svg("g", { class: "badge " + word(value) },
    svg("rect", { x: x - w / 2, y: y - size * .7, width: w, height: size * 1.4, rx: size * .4 }),
    svg("text", { x, y, "font-size": size }, name));
}

// ---- Places.
const last = svg("g", { class: "mark" }), hint = svg("g", { class: "mark hint" }), ended = svg("g", { class: "ended" });
let dragged = null;
function layBoard() {
  board = boardOf(game);
  for (const [k, place] of board.places.entries()) {
    const g = place.g = svg("g");
    g.onclick = () => press(k);
    g.onkeydown = e => { if (e.key === "Enter" || e.key === " ") { e.preventDefault(); press(k); } };
    // On a touch screen the pressed element would keep the pointer, and a drag would end on its first place.
    g.onpointerdown = e => { e.target.releasePointerCapture(e.pointerId); dragged = k; };
    g.onpointerup = () => {
      if (dragged === null || dragged === k) return;
      if (editor) return carry(dragged, k);
      picked = dragged;
      press(k);
    };
  }
  $("board").replaceChildren(board.net, last, hint, board.under, ...board.places.map(place => place.g), ended);
  $("board").setAttribute("viewBox", board.box);
  // If moves are drags, the board does not scroll the page.
  $("board").style.touchAction = game.men.length === 1 ? "none" : "manipulation";
}
addEventListener("pointerup", () => { dragged = null; });
// The kind of the man that is shown on the place k, and the name of the point that is the position, if points are numbers.
const kindAt = k => editor ? editor.men[k] : kindIn(game, textAt(at), side(at), k);
const hereNow = () => editor ? editor.text : textAt(at);
// The moves that a press on the place k is about. Where men are dropped, any place of a column is.
function movesAt(k) {
  if (editor) return [];
  if (DROPS[game.game]) return moves.filter(m => m.ends[0] === landingOf(game, textAt(at), k));
  return moves.filter(m => m.ends.includes(k) && (picked === null || (k === picked ? m.ends.length === 1 : m.ends.includes(picked))));
}
// The name of a place, with its man and the worth of a press on it.
function nameOf(k, about) {
  const what = board.inRow ? "" : kindName(game, kindAt(k)), over = endPlaces.includes(k) ? "ended the game" : "";
  return [game.points[k], what, over, k === picked ? "chosen" : hidden || !about.length ? "" : about[0].worth].filter(Boolean).join(", ");
}
function drawPlace({ x, y, g }, k) {
  const { inRow, crossed, netted, width, radius } = board;
  const half = width / 2 - 2, about = movesAt(k), kind = kindAt(k), live = about.length > 0 || k === picked || editor !== null;
  g.replaceChildren(...(kind < 0 ? [] : manOf(board, kind, x, y)));
  if (inRow && game.points[k] === hereNow()) g.append(svg("rect", { class: "here", x: x - 15, y: y - 15, width: 30, height: 30, rx: 6 }));
  g.append(svg("rect", { class: "hit", x: x - half, y: y - half, width: 2 * half, height: inRow ? 4 * half : 2 * half, rx: 6 }));
  const size = crossed || netted ? 17 : inRow ? 14 : 12;
  if (about[0]?.ends.includes(k) && !hidden) g.append(badge(about[0].worth, x, inRow ? y + width : kind < 0 ? y : y + radius, size));
  g.setAttribute("class", (live ? "live" : "") + (k === picked ? " picked" : ""));
  g.setAttribute("tabindex", k === cursor ? 0 : -1);
  g.setAttribute("role", "button");
  g.setAttribute("aria-disabled", !live);
  g.setAttribute("aria-label", nameOf(k, about));
}
// The places of what ended the game.
let endPlaces = [];
function drawPlaces() {
  mark(last, at && !editor && !board.inRow && movesOf(line[at - 1].row, side(at - 1)).find(m => m.name === line[at].name));
  endPlaces = editor || moves.length ? [] : endedBy(game, textAt(at), side(at), valueAt(at));
  ended.replaceChildren(...endPlaces.map(k => svg("circle", { cx: board.places[k].x, cy: board.places[k].y, r: board.radius + 3 })));
  board.places.forEach(drawPlace);
}
// Marks a move on the board, or none.
function mark(where, m) {
  const a = m && board.places[m.ends[0]], b = m && board.places[m.ends.at(-1)];
  if (!a || !b) where.replaceChildren();
  else if (a === b) where.replaceChildren(svg("circle", { cx: a.x, cy: a.y, r: board.radius + 4 }));
  else where.replaceChildren(svg("line", { x1: a.x, y1: a.y, x2: b.x, y2: b.y }));
}
// A press on a place: a move of one place, or the first or the second end of a move.
function press(k) {
  cursor = k;
  if (editor) return change(k);
  const about = movesAt(k);
  if (about.length && (picked !== null || about.every(m => m.ends.length === 1))) return play(about[0]);
  const before = picked;
  picked = null;
  if (k !== before && movesAt(k).length) picked = k;
  drawPlaces();
}

// The place that an arrow key leads to: the nearest one in its direction, or the same.
function beside(k, [dx, dy]) {
  let found = k, least = Infinity;
  board.places.forEach((to, j) => {
    const x = to.x - board.places[k].x, y = to.y - board.places[k].y, ahead = x * dx + y * dy, aside = Math.abs(x * dy) + Math.abs(y * dx);
    if (ahead > 0 && aside <= 2 * ahead && ahead + 2 * aside < least) { found = j; least = ahead + 2 * aside; }
  });
  return found;
}
function steer(k, direction) {
  const to = beside(k, direction);
  board.places[cursor].g.setAttribute("tabindex", -1);
  cursor = to;
  board.places[to].g.setAttribute("tabindex", 0);
  board.places[to].g.focus();
}

"##;
