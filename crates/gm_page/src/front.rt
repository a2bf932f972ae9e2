//! The first part of a page: its head, its style, and its parts, up to the lines of its data.

/// The beginning of a page: an HTML document up to its style. Its policy lets the page run a module and a thread of its own, and ask
/// for nothing.
pub const OPENING: &[u8] = br##"<!doctype html>
<html lang="en">
<head>
<meta charset="utf-8">
<meta name="viewport" content="width=device-width, initial-scale=1">
<meta http-equiv="Content-Security-Policy"
  content="default-src 'none'; style-src 'unsafe-inline'; script-src 'unsafe-inline' 'wasm-unsafe-eval'; worker-src blob:; img-src data:; base-uri 'none';
  form-action 'none'">
<link rel="icon" href="data:,">
<title>Games, solved</title>
<style>
"##;

/// The style of all pages.
pub const STYLE: &[u8] = br##"/* ---- colours: by day, by night, on paper */
:root {
  color-scheme: light dark;
  --back: #faf8f4; --card: #fff; --ink: #1d1b18; --soft: #625c52; --rule: #cfc7b8; --hot: #1d4fa8;
  --board: #efe8da; --lines: #82776a; --black: #24211e; --white: #fffdf8; --edge: #24211e;
  --win: #0b664c; --lose: #ad2f1a; --tie: #755700; --draw: #4a5568;
}
@media (prefers-color-scheme: dark) {
  :root {
    --back: #161513; --card: #211f1c; --ink: #eeeae2; --soft: #aea79b; --rule: #4c4740; --hot: #8db8ff;
    --board: #2d2a26; --lines: #968c7d; --black: #14130f; --white: #f3eee3; --edge: #f3eee3;
    --win: #62d3ab; --lose: #ff9f8a; --tie: #e5c35c; --draw: #b6c2d6;
  }
}
@media print {
  :root {
    color-scheme: light;
    --back: #fff; --card: #fff; --ink: #000; --soft: #333; --rule: #999; --hot: #000;
    --board: #fff; --lines: #666; --black: #000; --white: #fff; --edge: #000;
    --win: #000; --lose: #000; --tie: #000; --draw: #000;
  }
}
.win { --shade: var(--win); }
.lose { --shade: var(--lose); }
.tie { --shade: var(--tie); }
.draw { --shade: var(--draw); }

/* ---- the page and its words */
* { box-sizing: border-box; }
body { margin: 0; padding: 1rem; background: var(--back); color: var(--ink); font: 1rem/1.4 system-ui, sans-serif; }
header, main, footer { max-width: 78rem; margin: 0 auto 1rem; }
section { min-width: 0; padding: .9rem; background: var(--card); border: 1px solid var(--rule); border-radius: .6rem; }
h1 { margin: 0; font: 600 1.7rem/1.2 Georgia, serif; color: var(--ink); }
h2 { margin: 0; font-size: .8rem; letter-spacing: .08em; text-transform: uppercase; color: var(--soft); }
p { margin: .2rem 0; }
header, footer, #text { font-size: .9rem; color: var(--soft); }
ul, ol { list-style: none; margin: 0; padding: 0; }
a, code { font: .9em ui-monospace, monospace; overflow-wrap: anywhere; }
a { color: var(--hot); }
code { color: var(--ink); background: var(--board); }
pre { overflow-x: auto; }
dt { font-weight: 600; color: var(--ink); }
dd { margin: 0 0 .4rem; }
summary { cursor: pointer; padding: .3rem 0; }
button {
  min-height: 2.25rem; padding: .1rem .7rem; font: inherit; color: inherit; background: none;
  border: 1px solid var(--rule); border-radius: .4rem; cursor: pointer;
}
button:hover { border-color: var(--hot); }
button:disabled { opacity: .5; border-style: dashed; cursor: default; }
:focus-visible { outline: 3px solid var(--hot); outline-offset: 1px; }
.bar { display: flex; flex-wrap: wrap; gap: .4rem; margin-top: .5rem; }
.top { justify-content: space-between; align-items: center; margin: -.4rem 0 .6rem; }
.tall { max-height: 32rem; overflow-y: auto; margin: 0 -.3rem -.3rem; padding: 0 .3rem .3rem; }

/* ---- the state and the moves */
.value {
  padding: 0 .5rem; border: 2px solid var(--shade); border-radius: 1rem;
  color: var(--shade); font-size: .85rem; font-weight: 600; white-space: nowrap;
}
.value.win, .value.lose { background: var(--shade); color: var(--card); }
#state {
  display: flex; flex-wrap: wrap; align-items: center; gap: .2rem .6rem; min-height: 2rem; margin: 0;
  font-size: 1.15rem; font-weight: 600;
}
#moves li { display: grid; grid-template-columns: 6.4rem 1fr; margin-top: .5rem; }
#moves .value { place-self: start; margin-top: .4rem; }
#moves .bar { margin: 0; }
#moves .bar:only-child { grid-column: span 2; }
#moves button { min-width: 2.75rem; font-weight: 600; }
#moves .far { border-style: dotted; font-weight: 400; }
#moves .far::after { content: " \2197"; color: var(--soft); }

/* ---- the line, with the plot of its values beside it, a row of 28 pixels for each position */
.history { display: grid; grid-template-columns: auto minmax(0, 1fr); column-gap: .3rem; margin-top: .4rem; }
#sides { grid-column: 2; display: flex; justify-content: space-between; font-size: .75rem; white-space: nowrap; color: var(--soft); }
#line li { height: 28px; }
#line button {
  display: flex; gap: .4rem; align-items: center; width: 100%; height: 26px; min-height: 0; padding: 0 .4rem;
  border-color: transparent; font-size: .9rem; white-space: nowrap;
}
#line i { min-width: 1.3em; text-align: right; font-style: normal; }
#line i, #line span { color: var(--soft); font-size: .8rem; }
#line span { margin-left: auto; }
#line .later { font-style: italic; color: var(--soft); }
#line [aria-current] { background: var(--board); border-color: var(--lines); }
#plot { overflow: visible; }
#plot path { fill: none; stroke: var(--lines); stroke-width: 1.5; }
#plot .rule { stroke: var(--rule); }
#plot .later { stroke-dasharray: 3 3; }
#plot .spot { fill: var(--card); stroke: var(--ink); stroke-width: 1.5; }
#plot .spot.now { fill: var(--ink); }

/* ---- the board */
svg { display: block; width: 100%; user-select: none; font-family: system-ui, sans-serif; }
svg text { text-anchor: middle; dominant-baseline: central; }
.swatch { width: 1.1em; flex: none; }
#board { max-height: 72vh; margin-top: .5rem; background: var(--board); border-radius: .4rem; }
.net { fill: none; stroke: var(--lines); stroke-width: 2.5; stroke-linecap: round; }
.name { font-size: 13px; fill: var(--soft); }
.cell { fill: var(--card); stroke: var(--lines); }
.cell.dark { fill: var(--rule); }
.point { fill: var(--board); stroke: var(--lines); stroke-width: 2; }
.man { stroke: var(--edge); stroke-width: 2; }
.plain { fill: var(--lines); }
.black { fill: var(--black); }
.white { fill: var(--white); }
.stroke { fill: none; stroke: var(--ink); stroke-width: 6; stroke-linecap: round; }
.swatch .stroke { stroke-width: 4; }
.ring { fill: none; stroke: var(--black); stroke-width: 1.5; }
.here { fill: none; stroke: var(--ink); stroke-width: 3; }
.letter { font-weight: 700; fill: var(--white); }
.white + .letter { fill: var(--black); }
.hit { fill: transparent; stroke-width: 3; }
.live { cursor: pointer; }
.live:focus { outline: none; }
.live:hover .hit, .live:focus-visible .hit, .picked .hit { stroke: var(--hot); }
.picked .hit { stroke-width: 5; }
.badge rect { fill: var(--card); stroke: var(--shade); stroke-width: 2; }
.badge text { fill: var(--shade); font-weight: 700; }
.badge.win rect, .badge.lose rect { fill: var(--shade); }
.badge.win text, .badge.lose text { fill: var(--card); }
.mark { fill: none; stroke: var(--hot); stroke-width: 4; stroke-linecap: round; stroke-dasharray: 1 8; }
.hint { stroke-width: 9; stroke-dasharray: none; opacity: .55; }

/* ---- narrow windows, and paper */
@media (max-width: 42rem) {
  body { padding: .6rem; }
  header, main { margin-bottom: .5rem; }
  section { padding: .6rem; }
  h1 { font-size: 1.3rem; }
  summary { padding: 0; }
  main { gap: .5rem; }
  .tall { max-height: none; }
}
@media print {
  * { print-color-adjust: exact; }
  .bar:not(#moves .bar, .top), .top button, footer, #say { display: none; }
  main { display: grid; grid-template: none; grid-template-columns: 1fr 1fr; }
  #here, #choices, #tools, #past { grid-area: auto; }
  section { border: 0; padding: 0; }
  .tall { max-height: none; overflow: visible; }
  #moves button { min-height: 0; }
}

/* ---- all games, solving, and what the list of games has beside the explorer */
[hidden] { display: none !important; }
nav, #work, #fault, #way { max-width: 78rem; margin: 0 auto 1rem; }
#fault:empty { display: none; }
#fault { color: var(--lose); font-weight: 600; }
h1:focus { outline: none; }
#games ul { display: grid; grid-template-columns: repeat(auto-fill, minmax(9.5rem, 1fr)); gap: .8rem; }
#games a {
  display: block; height: 100%; padding: .6rem; background: var(--card); color: var(--ink); border: 1px solid var(--rule); border-radius: .6rem;
  font: inherit; text-decoration: none;
}
#games a:hover { border-color: var(--hot); }
#games h2 { margin: 1rem 0 .4rem; }
#games svg { height: 6.5rem; margin-bottom: .4rem; background: var(--board); border-radius: .4rem; }
#games b { display: block; }
#games span { font-size: .8rem; color: var(--soft); }
progress { width: 100%; height: 1rem; accent-color: var(--hot); }
form { display: flex; flex-wrap: wrap; gap: .4rem; align-items: center; margin-top: .5rem; font-size: .9rem; color: var(--soft); }
input, select {
  flex: 1 1 8rem; min-width: 0; min-height: 2.25rem; padding: .1rem .5rem; font: .95rem ui-monospace, monospace; color: var(--ink); background: var(--back);
  border: 1px solid var(--rule); border-radius: .4rem;
}
input[aria-invalid] { border-color: var(--lose); }
/* The parts of the explorer. Columns go by the size of letters too, so that enlarged ones get fewer. */
body { container-type: inline-size; }
main { display: grid; gap: 1rem; grid-template-columns: minmax(0, 1fr); align-items: start; }
@container (min-width: 44rem) {
  main { grid-template: "here choices" auto "here past" auto "tools past" 1fr / minmax(0, 11fr) minmax(0, 9fr); }
  #here { grid-area: here; }
  #choices { grid-area: choices; }
  #tools { grid-area: tools; }
  #past { grid-area: past; }
}
@container (min-width: 68rem) {
  main { grid-template: "here choices past" auto "here tools tools" 1fr / minmax(0, 32rem) minmax(0, 1fr) minmax(0, 1fr); }
  .tall { max-height: 22rem; }
}
#moves li { grid-template-columns: minmax(0, 6.4rem) minmax(5rem, 1fr); }
#moves p { grid-column: 1 / -1; margin: .2rem 0 0; font-size: .85rem; color: var(--soft); }
#moves small { font-size: .75rem; font-weight: 400; color: var(--soft); }
.wide { grid-column: 1 / -1; }
#counts { columns: 17rem; column-gap: 1.5rem; margin-top: .4rem; }
#counts button {
  display: grid; grid-template-columns: 6.2rem 1fr 4.2rem; gap: .4rem; align-items: center; width: 100%; min-height: 1.9rem; padding: 0 .2rem;
  border-color: transparent;
  font-size: .85rem; text-align: left; break-inside: avoid;
}
#counts button:hover { border-color: var(--hot); }
#counts .value { justify-self: start; }
#counts i { height: .7rem; background: var(--shade); border-radius: .2rem; }
#counts em { font-style: normal; text-align: right; color: var(--soft); }
select { flex: 1 1 9rem; font-family: inherit; }
#length { flex: 0 1 9rem; }
#seeded { display: flex; gap: .4rem; }
#seed { width: 5.5rem; flex: none; }
#text { flex: 1 1 12rem; align-self: center; }
#why { flex: 1 0 100%; margin: 0; color: var(--lose); }
#why:empty { display: none; }
.none { font-size: .9rem; color: var(--lose); }
#counted { font-size: .9rem; }
#palette .swatch { display: inline-block; margin-right: .3rem; vertical-align: -.15em; }
[aria-disabled=true]:not([role]) { border-style: dashed; color: var(--soft); }
.ended { fill: none; stroke: var(--hot); stroke-width: 5; pointer-events: none; }
.over { padding: .2rem .6rem; border: 2px solid var(--hot); border-radius: .4rem; }
.bar label { align-self: center; font-size: .9rem; color: var(--soft); }
.bar [aria-pressed=true] { border-color: var(--hot); color: var(--hot); font-weight: 600; }
[role=button] { outline: none; }
[role=button]:focus-visible .hit { stroke: var(--hot); stroke-width: 5; }
#rules p { max-width: 46rem; }
@media (max-width: 42rem) { #games ul { grid-template-columns: repeat(2, minmax(0, 1fr)); gap: .5rem; } }
@media print { nav, #way, form, #counts { display: none; } }
"##;

/// The rest before the lines of a page's data: the parts of the page, up to the beginning of its data element. With `OPENING` and
/// `STYLE` it refers to no other file and to no address.
pub const PARTS: &[u8] = br##"</style>
</head>
<body>
<header>
<p id="way" hidden><a href="#" id="all">All games</a></p>
<h1 id="title" tabindex="-1">Games, solved</h1><p id="about"></p>
<details id="rules" hidden><summary>Rules</summary><p id="ruled"></p></details>
</header>
<noscript><p>Games are shown and solved by a script, and scripts are switched off here. The data are in the source of this page.</p></noscript>
<p id="fault" role="alert"></p>
<nav id="games" aria-label="Games" hidden></nav>
<section id="work" aria-label="Solving" hidden><p id="working" role="status"></p><progress id="bar" aria-labelledby="working"></progress></section>
<main id="explorer" aria-label="Explorer" hidden>
<section id="here" aria-label="Position">
<p id="state" role="status"></p>
<svg id="board" role="group" aria-label="Board: arrow keys go from point to point"></svg>
<p id="counted" role="status" hidden></p>
<div class="bar" id="palette" role="group" aria-label="What a press puts down" hidden></div>
<div class="bar" id="finish" role="group" aria-label="Edited board" hidden>
<button id="done">Done</button>
<button id="swap">Other side to move</button>
<button id="cancel">Leave as it was</button>
</div>
<div class="bar" id="steps" role="group" aria-label="Line">
<button id="first" aria-label="To the start">&#8676;</button>
<button id="back" aria-label="Back">&#8592;</button>
<button id="next" aria-label="Forward">&#8594;</button>
<button id="end" aria-label="To the end of the line">&#8677;</button>
<button id="best">Best move</button>
<button id="undo" hidden>Take back</button>
<button id="help" hidden>Hint</button>
</div>
<p id="say" role="status"></p>
</section>
<section id="choices" aria-labelledby="count">
<div class="bar top"><h2 id="count">Moves</h2><button id="hide">Hide values</button></div>
<div class="tall"><ul id="moves"></ul></div>
</section>
<section id="tools" aria-label="Play, puzzles and positions">
<div class="bar" id="against" role="group" aria-label="Play">
<label for="versus">Play</label>
<select id="versus"></select>
<label for="level">Solver</label>
<select id="level"></select>
<span id="seeded" hidden><label for="seed">Seed</label> <input id="seed" type="number" min="0" max="999999"></span>
</div>
<div class="bar" id="setting" role="group" aria-label="Puzzles and boards">
<button id="puzzle">Puzzle</button>
<select id="length" aria-label="Length of puzzles"></select>
<select id="least" aria-label="Tries of puzzles"><option value="0">with any tries</option><option value="2">with 2 tries or more</option><option value="5">with 5 tries or more</option></select>
<button id="random">Random position</button>
<button id="edit" aria-pressed="false">Edit the board</button>
</div>
<form id="typed" aria-label="Any position"><label for="typing">Position</label>
<input id="typing" autocomplete="off" autocapitalize="off" spellcheck="false" maxlength="400" aria-describedby="why"><button>Go</button>
<p id="why" role="alert"></p></form>
<div class="bar"><p id="text"></p><button id="copy">Copy link</button></div>
</section>
<section id="past" aria-labelledby="history">
<div class="bar top"><h2 id="history">Line and value history</h2><button id="lead">Best line</button></div>
<div class="tall"><div class="history"><p id="sides" aria-hidden="true"></p><ol id="line"></ol><svg id="plot" aria-hidden="true"></svg></div></div>
</section>
<section id="worths" aria-labelledby="kinds" class="wide">
<h2 id="kinds">Positions by their worth, symmetric ones once</h2>
<ul id="counts"></ul>
</section>
</main>
<footer><details><summary>How to read this page</summary>
<dl>
<dt>win in 5, lose in 4, tie in 9, draw</dt>
<dd>What a position is worth to the side to move, and a move to the side that makes it: with best play of both sides the game
ends so after that many moves, of both sides together. A draw never ends. On the board: W5, L4, T9, D.</dd>
<dt>2/7 on a move</dt>
<dd>Of the other side's 7 replies 2 keep the draw or the tie; after a move that loses, 2 of them win. The fewer, the harder to answer. What a move's slip costs
is in the words that a mouse over it, or a screen reader, finds; the hardest move is named below the others.</dd>
<dt>To play</dt>
<dd>Choose a move in the list. Or on the board: a cell; a piece and its target; the two ends of what is taken (for one
counter, twice the same); any cell of a column into which a man is dropped; in a heap the first counter of those that are taken, up to the last. With a mouse
dragging does as well.<span class="tables"> A move with an arrow leads out of this page; larger pages are made with
<code>--limit</code>.</span> Some games turn the board for the second player; here it stays as the first player sees it.</dd>
<dt class="solver">Against the solver</dt>
<dd class="solver">Choose your side: the solver makes the moves of the other one, and values are hidden. It plays perfectly, or errs in one of 8, 4 or 2 moves; the
seed decides in which, so the same seed and moves give the same game. Hint tells how many moves are good, and then one; Take back undoes your last move. A
position that is on the board for the third time makes the game a draw.</dd>
<dt class="solver">Puzzles</dt>
<dd class="solver">A puzzle is a position that is won, by exactly one of its moves; in a game without such positions, by exactly one in the fewest moves. Its length
counts the moves of both sides. Tries are moves that do not solve it, and with which the game is not lost or tied within two moves of each side. It is solved
when the game is won.</dd>
<dt class="solver">Editing</dt>
<dd class="solver">Edit the board, and a press on a point puts the next piece there, or the one that you choose below the board; a drag takes a piece to another point.
In a heap or a bar it takes what is there and to the right, or fills the row up to there. Other side to move leaves the pieces as they are. The position's
worth is shown as soon as it is one of the game, and else, if the page can tell, why it is none.
Done takes it.</dd>
<dt>Any position</dt>
<dd>Type or paste its text; spaces and line breaks don't matter, and endings of chess may be in Forsyth's notation (FEN). <span class="solver">Or choose a worth
among all positions, and one with that worth is picked at random. Symmetric positions count once.</span></dd>
<dt>Keys</dt>
<dd>Left and right go through the line, Home and End to its ends, up and down through a list; on the board the four arrows go from point to point, and Enter
presses one. Within the page's parts b plays the best move, l shows the best line, v hides and shows the values, t goes to the text, h gives a hint and u takes
back while values are hidden<span class="solver">, r picks a random position, p a puzzle, e edits the board and is done with it<span id="many">, g goes to all
games</span></span>. Escape lets go of a piece, and leaves an edited board as it was.</dd>
<dt>Value history</dt>
<dd>Each position of the line: on the side of the player who wins, nearer to the edge the fewer moves are left; a square in
the middle where nobody wins.</dd>
<dt>Links</dt>
<dd>The address names the game, the position and the moves played from it, and Copy link copies it. After the game's name ? hides the values, and ! gives the
first move to the other side.</dd>
</dl>
<pre id="naming"></pre>
<p class="tables">The values are those of gamesman's tables, which are proved. The script that shows them is not.</p>
<p class="solver">The solver in this page is proved, from the rules of each game to the bytes of each answer. Trusted, and not proved, are what made a WebAssembly module of it
(the compiler's part for WebAssembly, the linker, the lowering to 32-bit memory and the heap), the browser, and the scripts that hand the module its records back and
show the answers. In a browser without WebAssembly nothing is solved: the page of one game then shows the positions that it has been given.</p>
</details></footer>
<script type="application/x-ndjson" id="data">
"##;
