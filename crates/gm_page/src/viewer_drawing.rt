//! A part of the script of a page.

/// What changes with each step, buttons and keys, and the end of the page.
pub const DRAWING: &[u8] = br##"
// ---- How hard a move is to answer, if it does not win: how many of the other side's replies keep the position's worth, and how soon a slip loses. The page
// has the results of all moves by then.
function repliesTo(m) {
  const replies = m.to === null || word(m.worth) === "win" ? null : rows[m.to].moves;
  if (!replies?.length) return null;
  const kind = word(rows[m.to][1]), slips = replies.filter(reply => word(reply.worth) === "lose").map(reply => number(reply.worth));
  return { kind, kept: replies.filter(reply => word(reply.worth) === kind).length, all: replies.length, soon: slips.length ? Math.min(...slips) : null };
}
// The same in words.
function toldReplies({ kind, kept, all, soon }) {
  const does = kind === "win" ? kept === 1 ? "wins" : "win" : `${kept === 1 ? "keeps" : "keep"} the ${kind}`;
  const slip = kind === "win" ? kept < all ? ", a slip lets the win go" : "" : soon === null ? "" : `, a slip loses in ${soon}`;
  return `${kept} of ${all} ${all === 1 ? "reply" : "replies"} ${does}${slip}`;
}
// The move of a group that leaves the smallest part of the replies good, and then the one after which a slip loses soonest.
function hardest(group) {
  const told = group.map(m => ({ m, it: repliesTo(m) })).filter(({ it }) => it);
  return told.sort((a, b) => a.it.kept / a.it.all - b.it.kept / b.it.all || (a.it.soon ?? Infinity) - (b.it.soon ?? Infinity))[0];
}
// Writes these numbers on the buttons of the moves, and names the hardest move of each group.
function drawReplies() {
  if (hidden || editor) return;
  for (const entry of $("moves").children) {
    const buttons = [...entry.querySelectorAll("button")].filter(button => button.move), most = hardest(buttons.map(button => button.move));
    for (const button of buttons) {
      const it = repliesTo(button.move);
      if (!it || button.querySelector("small")) continue;
      button.append(" ", html("small", {}, `${it.kept}/${it.all}`));
      button.title = toldReplies(it);
      button.setAttribute("aria-label", `${button.move.shown}, ${it.kept}/${it.all}: ${button.title}`);
    }
    if (most && most.it.kept < most.it.all && !entry.querySelector("p")) entry.append(html("p", {}, `Hardest: ${most.m.shown}, ${toldReplies(most.it)}.`));
  }
}
// ---- What changes with each step.
function drawState() {
  const who = winner(at), over = !moves.length;
  $("state").classList.toggle("over", over);
  $("state").replaceChildren(...(over ? [who === null ? "" : swatch(who), "The game is over: " + (who === null ? "a tie" : game.sides[who] + " won")]
    : [swatch(side(at)), game.sides[side(at)] + " to move", hidden ? "" : pill(valueAt(at))]));
  document.title = game.title + ": " + textAt(at);
  $("text").replaceChildren("Link to ", html("a", { href: addressOf([line[at]], side(at)) }, textAt(at)));
  if (document.activeElement !== $("typing")) $("typing").value = textAt(at);
  $("typing").removeAttribute("aria-invalid");
  $("why").textContent = "";
}
function moveButton(m) {
  const button = html("button", m.to === null ? { class: "far", title: "Its result is not in this page" } : {}, m.shown);
  button.move = m;
  button.onclick = () => play(m);
  button.onpointerenter = button.onfocus = () => mark(hint, m);
  button.onpointerleave = button.onblur = () => mark(hint, null);
  return button;
}
// The moves by their worth; with values hidden in the order of their names, since the order tells too.
function drawMoves() {
  if (editor) {
    $("count").textContent = "Moves";
    return $("moves").replaceChildren(html("li", {}, html("p", {}, "The moves are shown when the board is done.")));
  }
  const list = $("moves"), focused = list.contains(document.activeElement), groups = new Map();
  for (const m of hidden ? [...moves].sort((a, b) => a.shown < b.shown ? -1 : 1) : moves) {
    const head = hidden ? "" : m.worth;
    groups.set(head, [...groups.get(head) || [], moveButton(m)]);
  }
  $("count").textContent = ["No moves", "1 move"][moves.length] || moves.length + " moves";
  list.replaceChildren(...[...groups].map(([worth, buttons]) => html("li", {}, worth && pill(worth), html("div", { class: "bar" }, ...buttons))));
  drawReplies();
  mark(hint, null);
  if (focused) (list.querySelector("button") || $("back")).focus();
}
function drawLine() {
  $("line").replaceChildren(...line.map((step, k) => {
    const note = !hidden ? told(k) : step.kept === undefined ? "" : step.kept ? "\u2713 keeps" : "\u2717 gives away";
    const button = html("button", k === at ? { "aria-current": "true" } : k > at ? { class: "later" } : {},
      html("i", {}, k || ""), k ? swatch(side(k - 1)) : "", html("b", {}, step.shown || "start"), html("span", {}, note));
    button.disabled = editor !== null;
    button.onclick = () => go(k);
    return html("li", {}, button);
  }));
  const now = $("line").children[at], pane = $("line").closest(".tall");
  pane.scrollTop = now.offsetTop - pane.offsetTop - pane.clientHeight / 2;
}
// The history of values: a spot for each position, on the winner's side, nearer to the edge the fewer moves are left.
function drawPlot() {
  const high = 28, plot = $("plot"), tall = high * line.length;
  plot.style.display = $("sides").style.display = hidden ? "none" : "";
  const wide = plot.clientWidth || 200, middle = wide / 2;
  const most = Math.max(...line.map((_, k) => winner(k) === null ? 0 : number(valueAt(k))));
  const from = k => [-1, 1, 0][winner(k) ?? 2] * (16 + (middle - 26) * (1 - number(valueAt(k)) / (most + 1)));
  const spots = line.map((_, k) => [middle + from(k), high * (k + .5)]);
  const path = (name, points) => svg("path", { class: name, d: "M" + points.map(point => point.join(" ")).join("L") });
  plot.setAttribute("viewBox", `0 0 ${wide} ${tall}`);
  plot.style.height = tall + "px";
  plot.replaceChildren(...[10, middle, wide - 10].map(x => path("rule", [[x, 0], [x, tall]])),
    path("", spots.slice(0, at + 1)), path("later", spots.slice(at)),
    ...spots.map(([x, y], k) => svg("rect",
      { class: k === at ? "spot now" : "spot", x: x - 5, y: y - 5, width: 10, height: 10, rx: winner(k) === null ? 0 : 5 })));
}
// What is switched off where it has nothing to do, and while the board is edited.
const SWITCHED = "first back next end best lead random puzzle length least hide versus level seed undo help copy".split(" ");
function setButtons() {
  const first = at === 0, last = at === line.length - 1, over = !moves.length;
  const off = { first, back: first, next: last, end: last, best: over, lead: over, help: over, undo: first };
  for (const id of SWITCHED) $(id).disabled = editor !== null || Boolean(off[id]);
  $("undo").hidden = $("help").hidden = !hidden;
  $("seeded").hidden = $("level").value === "0";
  $("hide").textContent = hidden ? "Show values" : "Hide values";
  if (!puzzled) $("puzzle").textContent = "Puzzle";
}
// Buttons are set first, since one that is switched off can't take the focus.
function draw() {
  moves = movesOf(line[at].row, side(at));
  for (const part of [setButtons, drawState, drawPlaces, drawMoves, drawLine, drawPlot, writeAddress]) part();
}
async function copy() {
  clearTimeout(waiting);
  history.replaceState(null, "", addressOf(line.slice(0, at + 1), starter, hidden));
  const link = location.href;
  try {
    await navigator.clipboard.writeText(link);
    say("The link is copied.");
  } catch { say("The link: ", html("a", { href: link }, link)); }
}
async function goTyped(e) {
  e.preventDefault();
  const typed = $("typing").value, of = game;
  for (const text of new Set(meantBy(of, typed))) {
    const row = await find(text);
    if (of !== game) return;
    if (row !== null) return begin(row);
  }
  $("typing").setAttribute("aria-invalid", "true");
  $("why").textContent = whyNoText(of, typed);
}

// ---- Buttons and keys. Letters act only within the page's parts, not while a text is typed, and not where their button can't be pressed.
const acts = {
  first: () => go(0), back: () => go(at - 1), next: () => go(at + 1), end: () => go(line.length - 1), lead, random: () => random(),
  best: () => { if (moves.length) play(moves[0]); }, hide: () => { hidden = !hidden; draw(); }, typing: () => $("typing").select(),
  all: () => { location.hash = ""; },
  puzzle, edit, done: finish, swap, cancel, copy, help, undo: takeBack,
};
const keys = { ArrowLeft: "back", ArrowRight: "next", Home: "first", End: "end" };
const letters = { b: "best", l: "lead", v: "hide", r: "random", p: "puzzle", e: "edit", t: "typing", g: "all", h: "help", u: "undo" };
const arrows = { ArrowLeft: [-1, 0], ArrowRight: [1, 0], ArrowUp: [0, -1], ArrowDown: [0, 1] };
for (const id in acts) if (id !== "typing" && id !== "all") $(id).onclick = acts[id];
$("versus").onchange = () => against($("versus").value === "" ? null : Number($("versus").value));
$("level").onchange = setButtons;
$("typed").onsubmit = goTyped;
const canAct = act => !$(act).disabled && $(act).getClientRects().length > 0;
addEventListener("keydown", e => {
  const focus = document.activeElement;
  if (e.ctrlKey || e.metaKey || e.altKey || focus.matches("input, select")) return;
  const here = game && board ? board.places.findIndex(place => place.g === focus) : -1;
  if (here >= 0 && arrows[e.key]) { e.preventDefault(); return steer(here, arrows[e.key]); }
  const step = { ArrowDown: 1, ArrowUp: -1 }[e.key], all = [...(focus.closest("ul, ol")?.querySelectorAll("button, #games a") || [])];
  if (step && all.length) { e.preventDefault(); all[all.indexOf(focus) + step]?.focus(); }
  if (!game || !line.length) return;
  if (e.key === "Escape" && editor) return cancel();
  if (e.key === "Escape") { picked = null; drawPlaces(); }
  const act = keys[e.key] || (focus.closest("main, header") && letters[e.key]);
  if (act && canAct(act)) { e.preventDefault(); acts[act](); }
});
addEventListener("hashchange", route);
addEventListener("resize", () => { if (line.length) drawPlot(); });
route();
</script>
</body>
</html>
"##;
