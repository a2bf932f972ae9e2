//! The constant parts of sheets of puzzles.

/// The text before the heading of a sheet. On paper six diagrams fill a page of A4 or Letter.
pub const LIST_FRONT: &[u8] = br##"<!doctype html>
<html lang="en">
<head>
<meta charset="utf-8">
<meta name="viewport" content="width=device-width, initial-scale=1">
<meta http-equiv="Content-Security-Policy"
  content="default-src 'none'; style-src 'unsafe-inline'; img-src data:; base-uri 'none'; form-action 'none'">
<link rel="icon" href="data:,">
<title>gamesman: puzzles</title>
<style>
:root { color-scheme: light; }
body { max-width: 60rem; margin: 0 auto; padding: 1rem; background: #fff; color: #000; font: 1rem/1.4 Georgia, serif; }
h1, h2 { margin: 0 0 .4rem; font-size: 1.6rem; line-height: 1.2; }
h3 { display: inline; margin: 0; font-size: 1rem; }
p { margin: 0 0 .2rem; }
.puzzles {
  display: grid; gap: 1rem; grid-template-columns: repeat(auto-fill, minmax(min(17rem, 100%), 1fr));
  margin: 1rem 0; padding: 0; list-style: none; counter-reset: n;
}
.puzzles li { counter-increment: n; text-align: center; break-inside: avoid; }
.puzzles li::before { content: counter(n) ". "; font-weight: 700; }
svg { display: block; width: 100%; height: auto; max-height: 20rem; margin: .2rem 0; }
summary { color: #1d4fa8; cursor: pointer; }
code { font: .9em ui-monospace, monospace; overflow-wrap: anywhere; }
.solutions li { margin: .3rem 0; }
@page { margin: 12mm; }
@media print {
  body { max-width: none; padding: 0; font-size: 10pt; }
  .puzzles { gap: 0 6mm; grid-template-columns: 1fr 1fr; margin: 2mm 0 0; }
  .puzzles li { box-sizing: border-box; height: 70mm; padding-top: 3mm; }
  svg { max-height: 54mm; }
  details { display: none; }
  .solutions { break-before: page; }
}
</style>
</head>
<body>
<h1>"##;

/// The text between the heading and the lines on who is who.
pub const LIST_LEGENDS: &[u8] = br##"</h1>
<header>
"##;

/// The text between these lines and the diagrams.
pub const LIST_PUZZLES: &[u8] = br##"</header>
<main><ol class="puzzles">
"##;

/// The text between the diagrams and the solutions.
pub const LIST_SOLUTIONS: &[u8] = br##"</ol></main>
<section class="solutions"><h2>Solutions</h2>
<ol>
"##;

/// The text after the solutions.
pub const LIST_BACK: &[u8] = br##"</ol>
<p>Each value and each solution is from gamesman's tables, which are proved.</p></section>
</body>
</html>
"##;
