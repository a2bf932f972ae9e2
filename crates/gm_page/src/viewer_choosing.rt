//! A part of the script of a page.

/// Addresses, the list of games, and a game that is opened.
pub const CHOOSING: &[u8] = br##"
// ---- Texts that are typed or pasted: what they may mean, and why one is no position.
// The texts that a typed text may stand for, the likeliest first.
function meantBy(of, typed) {
  const text = typed.trim(), packed = text.replace(/\s+/g, "");
  if (squared(of)) return [text, ...fromForsyth(of, text), ...inOrder(of, text)];
  if (heapsOf(of)) return [text, [...text.replace(/\D/g, "")].join(" ")];
  if (sided(of)) return [text, packed.slice(0, -1) + of.start.at(-2) + packed.slice(-1)];
  return [text, packed, packed.toLowerCase()];
}
// The same men in the order of the game's texts.
function inOrder(of, text) {
  const words = text.split(/[\s,;]+/), who = sideLetters(of).indexOf(words.at(-1)), men = of.points.map(() => -1);
  if (who < 0) return [];
  for (const word of words.slice(0, -1)) {
    const k = of.points.indexOf(word.slice(1)), kind = of.men.indexOf(word[0]);
    if (k < 0 || kind < 0 || word.length !== 3 || men[k] >= 0) return [];
    men[k] = kind;
  }
  return [textOf(of, men, who)];
}
// The text of a chess position in Forsyth's notation (FEN): the ranks from the eighth down, and who moves.
function fromForsyth(of, text) {
  const spread = byte => /[1-8]/.test(byte) ? Array(Number(byte)).fill(".") : byte === "/" ? [] : [byte];
  const [ranks, mover = "w"] = text.split(/\s+/), bytes = [...ranks].flatMap(spread);
  const who = "wb".indexOf(mover), men = bytes.map(byte => of.men.indexOf(byte));
  if (of.men === "fh" || ranks.split("/").length !== 8 || bytes.length !== 64 || who < 0 || bytes.some((byte, k) => byte !== "." && men[k] < 0)) return [];
  return [textOf(of, men, who)];
}
// Why a text is no position of the game.
function whyNoText(of, typed) {
  if (!solving) return "This page does not have a position with this text.";
  const text = typed.trim(), packed = text.replace(/\s+/g, ""), many = of.points.length, long = sided(of) ? many + 1 : many;
  if (!text) return "Type a position, as " + of.start + ".";
  if (numbered(of)) return `The positions are the numbers ${of.points[0]} to ${of.points.at(-1)}.`;
  if (squared(of)) return whyNoSquares(of, text);
  if (heapsOf(of)) {
    return `A position is ${heapsOf(of).length} numbers, at most ${heapsOf(of).join(", ")}${BARS[of.game] ? ", and none is greater than the one before" : ""}.`;
  }
  const strange = [...packed.toLowerCase()].find(byte => byte !== "." && !of.men.includes(byte));
  if (strange) return `'${strange}' is no man of this game: men are ${[...of.men].join(" and ")}, and an empty point is a dot.`;
  if (packed.length !== long) return `It has ${packed.length} characters, not ${long}: one for each point${sided(of) ? ", and the side to move" : ""}.`;
  const full = meantBy(of, packed).at(-1), who = sided(of) ? sideOf(of, full, 0) : firstOf(of, full);
  return whyNoPosition(of, menOf(of, full, who), who);
}
function whyNoSquares(of, text) {
  const found = fromForsyth(of, text)[0] ?? inOrder(of, text)[0];
  if (!found && text.includes("/")) return `It is no position in Forsyth's notation with the men ${[...of.men].filter(letter => hasMan(of, letter)).join(", ")}.`;
  const words = text.split(/[\s,;]+/), bad = words.slice(0, -1).find(word => !hasMan(of, word[0]) || !of.points.includes(word.slice(1)));
  if (bad) return `'${bad}' is no man on a square, as ${of.start.slice(0, 3)} is.`;
  if (!sideLetters(of).includes(words.at(-1))) return `At its end must be the side to move, ${[...sideLetters(of)].join(" or ")}.`;
  return found ? whyNoPosition(of, menOf(of, found, 0), sideOf(of, found, 0)) : "Two of its men are on one square.";
}
const NOWHY = "No position of the game has its men like this.";
// Why these men are no position, as far as the page can tell.
function whyNoPosition(of, men, who) {
  const counts = [...of.men].map((_, kind) => men.filter(it => it === kind).length);
  if (squared(of) && of.men !== "fh") return whyNoChess(of, men, who, counts) || NOWHY;
  const row = fullRows(of, men).find(row => of.men.length > 1 && men[row[0]] === who);
  const hangs = DROPS[of.game] && men.some((kind, k) => kind < 0 && men[k - wideOf(of)] >= 0);
  return whyNoCounts(of, who, counts) || (hangs ? "A man is above an empty place."
    : row ? `${of.sides[who]} has a full row, so the game was over before.` : NOWHY);
}
function whyNoCounts(of, who, counts) {
  const [mine, theirs] = of.sides, first = [...of.men].map((_, kind) => menOf(of, of.start, firstOf(of, of.start)).filter(it => it === kind).length);
  if (of.men.length < 2) return "";
  if (!ADDS[of.game]) {
    const wrong = counts.findIndex((count, kind) => count !== first[kind]);
    return wrong < 0 ? "" : `${kindName(of, wrong)} has ${counts[wrong]}, and ${first[wrong]} at the start.`;
  }
  const more = counts[0] - counts[1];
  if (more < 0 || more > 1) return `${mine} begins, and each move adds a man: ${mine} has as many as ${theirs}, or one more, and not ${counts[0]} and ${counts[1]}.`;
  return more === who ? "" : `With ${counts[0]} and ${counts[1]} men ${of.sides[more]} is to move.`;
}
function whyNoChess(of, men, who, counts) {
  const king = kind => men.indexOf(kind), [white, black] = [king(0), king(of.men.length - 1)], place = k => [k % 8, Math.floor(k / 8)];
  const named = kind => kindName(of, kind), has = kind => hasMan(of, of.men[kind]);
  const wrong = counts.findIndex((count, kind) => NAMES[of.men[kind]] === "king" ? count !== 1 : count > Number(has(kind)));
  if (wrong >= 0 && counts[wrong]) return has(wrong) ? `There is more than one ${named(wrong)}.` : `This game has no ${named(wrong)}.`;
  if (wrong >= 0) return `There is no ${named(wrong)}.`;
  if (men.filter(kind => kind >= 0).length > 3) return `${of.sides[0]} has more than one man beside the king.`;
  const apart = (a, b) => Math.max(...place(a).map((it, axis) => Math.abs(it - place(b)[axis])));
  if (apart(white, black) < 2) return "The kings are side by side.";
  const from = men.findIndex(kind => kind > 0 && kind < of.men.length - 1);
  return who === 0 && from >= 0 && attacks(men, from, black, of.men[men[from]]) ? "Black is in check, and White is to move." : "";
}
// Whether a man of White on one place attacks another.
function attacks(men, from, to, letter) {
  const across = to % 8 - from % 8, down = Math.floor(to / 8) - Math.floor(from / 8), far = Math.max(Math.abs(across), Math.abs(down));
  if (letter === "N") return Math.abs(across * down) === 2;
  if (letter === "P") return Math.abs(across) === 1 && down === -1;
  const straight = !across || !down, slanting = Math.abs(across) === Math.abs(down);
  if (!(straight && letter !== "B" || slanting && letter !== "R")) return false;
  const step = Math.sign(across) + 8 * Math.sign(down);
  return [...Array(far - 1).keys()].every(k => men[from + step * (k + 1)] < 0);
}
// ---- The address: the game, the position, and the moves played from it.
let turns = 0;
async function route() {
  const turn = ++turns, [name, asked, parts] = addressed(location.hash);
  const wanted = games.find(of => single || of.game === name);
  if (!wanted || !(solving || given.length)) return showGames(solving && name ? "There is no game " + name + " here." : unable());
  try {
    await open(wanted, turn);
    if (turn !== turns) return;
    const [text, ...names] = parts, path = [{ row: await find(text || game.start) }];
    hidden = asked.includes("?");
    let found = path[0].row !== null && (!name || name === game.game);
    if (!found) path[0].row = await find(game.start);
    const who = firstOf(game, rows[path[0].row][0]), first = asked.includes("!") ? 1 - who : who;
    if (found) found = await follow(path, names.filter(Boolean), first);
    if (turn !== turns) return;
    line = path;
    starter = first;
    mine = puzzled = null;
    $("versus").value = "";
    await go(line.length - 1);
    if (!found) say(solving ? "There is no such position or move." : "What the address names is not in this page.");
  } catch (error) { if (turn === turns) fail(error); }
}
// Goes on with a path by the moves of these names. Returns whether the page has them all.
async function follow(path, names, first) {
  for (const name of names) {
    const { row } = path.at(-1), m = movesOf(row, sideOf(game, rows[row][0], path.length - 1 + first)).find(m => m.name === name);
    if (!m || m.to === null) return false;
    await fill(m.to);
    path.push(stepOf(m));
  }
  return true;
}
// The game that an address names, its marks (? if values are hidden, ! if the side moves first that else would not), the text of a position, and the moves
// played from it. In a page of one game the game's name may be missing: the address is then a position's text, or moves from the start with a / before each.
function addressed(hash) {
  const [, name, asked, slash, rest] = hash.match(/^#?([^/?!]*)([?!]*)(\/?)(.*)$/);
  try {
    const parts = rest.split("/").map(decodeURIComponent);
    if (!single || name === games[0].game) return [name, asked, parts];
    if (name) return ["", asked, [decodeURIComponent(name), ...parts]];
    return ["", asked, slash ? ["", ...parts] : parts];
  } catch { return [name, asked, ["?"]]; }
}
// What a page that can't solve its game says of itself, or nothing.
function unable() {
  if (solving || !engined) return "";
  if (!lacking.length) return "The engine of this page does not know the game, so it shows the positions that it has been given.";
  return `This browser has no ${lacking.join(", no ")}, so this page can't solve games in it. ${given.length ? "It shows the positions that it has been given."
    : "Browsers of the last years have all of them."}`;
}
function fail(error) {
  $("work").hidden = true;
  $("fault").textContent = "The engine does not run in this browser: " + (error.message || error);
}
// Browsers refuse many changes of the address in a short time, as while a key is held down.
let waiting = 0;
function writeAddress() {
  clearTimeout(waiting);
  const address = addressOf(line.slice(0, at + 1), starter, hidden);
  waiting = setTimeout(() => history.replaceState(null, "", address), 400);
}
function addressOf(steps, who, hides = false) {
  const first = rows[steps[0].row][0], names = steps.slice(1).map(step => "/" + encodeURIComponent(step.name)).join("");
  const marks = (hides ? "?" : "") + (who === firstOf(game, first) ? "" : "!"), from = first === game.start ? "" : encodeURIComponent(first);
  return "#" + game.game + marks + (from || names || marks.includes("!") ? "/" + from + names : "");
}

// ---- The list of games, and a game that is opened.
function showGames(fault) {
  clearTimeout(waiting);
  game = null;
  $("explorer").hidden = $("work").hidden = $("way").hidden = $("rules").hidden = true;
  $("games").hidden = false;
  $("fault").textContent = fault;
  document.title = $("title").textContent = "Games, solved";
  $("about").textContent = "Choose a game. It is solved here and now, in this page, and then every position of it shows what it and each move is worth.";
}
const many = of => LEGAL[of.game] ? counted(LEGAL[of.game]) + " positions" : "";
const tile = of => html("li", {}, html("a", { href: "#" + of.game }, drawing(of), html("b", {}, of.title),
  html("span", {}, [WORTHS[of.game], many(of)].filter(Boolean).join("; "))));
// The games by their kinds; those of no known kind at the end.
function layGames() {
  const kinds = [...new Set(games.map(of => FAMILIES[of.game]).filter(Boolean)), undefined];
  for (const kind of kinds) {
    const tiles = games.filter(of => FAMILIES[of.game] === kind).map(tile);
    if (tiles.length) $("games").append(html("h2", {}, kind || "Other games"), html("ul", {}, ...tiles));
  }
  const larger = Object.keys(LEGAL).filter(name => !games.some(of => of.game === name)), command = html("code", {}, "gamesman page GAME --folder TABLES");
  if (!single) $("games").append(html("h2", {}, "Larger games"), html("p", {}, "The program solves them, and writes a page of each: ", command, ". GAME is ",
    larger.slice(0, -1).join(", "), " or ", larger.at(-1), ", and TABLES a folder that keeps its tables."));
}
layGames();
// Solves a game, and shows how far that is: how many canonical positions have each record.
async function solve(wanted, turn) {
  $("about").textContent = "";
  $("work").hidden = false;
  $("bar").removeAttribute("value");
  $("working").textContent = engine ? "Solving" : "Unpacking the engine";
  await (engine ||= startEngine());
  if (turn !== turns) return null;
  $("working").textContent = "Solving";
  return ask("solve", { game: wanted.game }, ({ filled, total, done, tiers }) => {
    if (turn !== turns || tiers < 2) return;
    $("bar").value = filled / total;
    $("working").textContent = `Solving: ${done} of ${tiers} tiers`;
  });
}
async function open(wanted, turn) {
  $("fault").textContent = unable();
  if (game === wanted) return;
  document.title = $("title").textContent = wanted.title;
  $("way").hidden = single;
  $("games").hidden = $("explorer").hidden = $("rules").hidden = true;
  let solved = { counts: [] };
  if (solving) {
    try { solved = await solve(wanted, turn); } catch (error) {
      if (!given.length || error.message !== "no such game") throw error;
      solving = false;
      $("fault").textContent = unable();
    }
  }
  if (turn !== turns) return;
  game = wanted;
  rows = [];
  numbers = new Map();
  awaits = new Map();
  line = [];
  mine = editor = puzzled = null;
  cursor = 0;
  if (!solving) takeGiven();
  layBoard();
  editing();
  $("ruled").textContent = RULES[game.game] || RULES[game.game.replace(/-\d(x\d)?/, "")] || "";
  $("rules").hidden = !$("ruled").textContent;
  $("versus").replaceChildren(html("option", { value: "" }, "nobody: explore"),
    ...game.sides.map((name, who) => html("option", { value: who }, "as " + name + ", against the solver")));
  $("work").hidden = true;
  $("random").hidden = $("against").hidden = $("worths").hidden = $("setting").hidden = !solving;
  $("explorer").hidden = false;
  $("about").textContent = "Opening explorer: " + (solving ? `all ${many(game) || "positions"}, solved here and now`
    : `${game.whole ? "all " : ""}${counted(rows.length)} ${game.whole ? "" : "of the "}positions that play from here reaches`);
  $("naming").textContent = game.naming;
  $("sides").replaceChildren(...game.sides.map(name => html("span", {}, name)));
  counts = solved.counts;
  drawCounts();
  layLengths();
  $("title").focus({ preventScroll: true });
}
// How many positions there are of each worth; a press picks one of them. The number of a record is the code of its value times 1,048,576, plus its remoteness.
const CODE = 1048576;
function drawCounts() {
  const most = Math.max(...counts.map(([, count]) => count)), words = ["", "lose", "draw", "tie", "win"], code = record => Math.floor(record / CODE);
  const order = [...counts].sort(([a], [b]) => code(b) - code(a) || a - b);
  $("counts").replaceChildren(...order.map(([record, count]) => {
    const kind = words[code(record)], value = worth(kind, record % CODE), bar = html("i", { class: kind });
    bar.style.width = Math.max(1, 100 * count / most) + "%";
    const name = `${counted(count)} positions are ${value}: show one of them`;
    const button = html("button", { "aria-label": name }, pill(value), bar, html("em", {}, counted(count)));
    button.onclick = () => random(record);
    return html("li", {}, button);
  }));
}

"##;
