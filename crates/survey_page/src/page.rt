//! The page of a survey, `page/page.html`, without its sample. `tools/page.sh --rust` prints these
//! constants, and `tools/page.sh --check` compares them with the page.

/// What stands before the data of the page.
pub const PAGE_HEAD: &[u8] = br##"<!DOCTYPE html>
<html lang="en">
<head>
<meta charset="utf-8">
<meta name="viewport" content="width=device-width, initial-scale=1">
<!-- The page loads nothing: all that it shows is in this file. -->
<meta http-equiv="Content-Security-Policy"
  content="default-src 'none'; img-src data:; style-src 'unsafe-inline'; script-src 'unsafe-inline'">
<link rel="icon" href="data:,">
<title>Survey of nonograms</title>
<style>
:root {
  color-scheme: light dark;
  --back: #ffffff; --card: #f7f7f4; --line: #cfcfca; --text: #1b1d1f; --quiet: #5a5d60; --strong: #0b57a4;
  /* Pictures are dark on light in dark mode too, since a negative is hard to recognize. */
  --paper: #ffffff; --ink: #14202b;
  /* Orange differs from both in brightness and, for every kind of colour blindness, in colour. */
  --differing: #cc6d00;
}
@media (prefers-color-scheme: dark) {
  :root {
    --back: #15171a; --card: #1e2125; --line: #40454b; --text: #e8e8e6; --quiet: #adb1b5; --strong: #8fc4ff;
    --paper: #e2e3e4;
  }
}
* { box-sizing: border-box; }
body { margin: 0 auto; max-width: 90rem; padding: 1rem; background: var(--back); color: var(--text);
  font: 1rem/1.45 system-ui, sans-serif; overflow-wrap: anywhere; }
h1 { margin: 0; font-size: 1.5rem; }
p { margin: 0.25rem 0; }
.quiet { color: var(--quiet); }
[hidden] { display: none !important; }

#controls { display: flex; flex-wrap: wrap; gap: 0.75rem 1rem; align-items: end; margin: 1rem 0; }
#controls label { display: grid; gap: 0.15rem; font-size: 0.875rem; color: var(--quiet); }
#controls label:first-child { flex: 1 1 14rem; }
#controls label.check { display: flex; gap: 0.4rem; align-items: center; min-height: 2.4rem; }
input, select, button { font: inherit; color: var(--text); accent-color: var(--strong); }
input[type=search], select, button { min-height: 2.4rem; padding: 0.25rem 0.6rem; max-width: 100%;
  border: 1px solid var(--line); border-radius: 0.4rem; background: var(--card); }
button { border-color: var(--strong); color: var(--strong); cursor: pointer; }
:focus-visible { outline: 3px solid var(--strong); outline-offset: 2px; }
#count { flex-basis: 100%; margin: 0; font-weight: 600; }

#cards { display: grid; grid-template-columns: repeat(auto-fill, minmax(min(100%, 18.5rem), 1fr)); gap: 1rem;
  margin: 0; padding: 0; list-style: none; }
.card { min-width: 0; padding: 0.85rem 1rem; border: 1px solid var(--line); border-radius: 0.6rem; background: var(--card); }
#more { margin: 1rem 0; }
.card h2 { margin: 0; font-size: 1.05rem; }
.clamped { display: -webkit-box; -webkit-box-orient: vertical; -webkit-line-clamp: 5; overflow: hidden; }
.verdict { display: inline-block; margin: 0.4rem 0; padding: 0 0.6rem; border: 1px solid currentcolor; border-radius: 1rem;
  font-size: 0.875rem; font-weight: 600; }
.message { padding-left: 0.6rem; border-left: 3px solid var(--differing); }
.pictures { display: flex; flex-wrap: wrap; gap: 0.6rem; margin: 0.5rem 0; }
figure { margin: 0; }
figcaption { font-size: 0.8125rem; color: var(--quiet); }
.picture { display: block; outline: 1px solid var(--line); }
@media screen and (prefers-color-scheme: dark) {
  /* Paper around a picture, or its ink would run into the card. */
  .picture { margin: 3px; outline: 3px solid var(--paper); }
}
.paper { fill: var(--paper); }
.ink { fill: var(--ink); shape-rendering: crispEdges; }
.differing { fill: var(--differing); fill-rule: evenodd; }
.around { fill: none; stroke: var(--differing); stroke-width: 2px; vector-effect: non-scaling-stroke; }
dl { display: grid; grid-template-columns: auto 1fr; gap: 0 0.75rem; margin: 0.5rem 0 0; font-size: 0.9375rem; }
dt { color: var(--quiet); }
dd { margin: 0; }

@media screen {
  #sheets { display: none; }
}
@media print {
  @page { margin: 12mm; }
  :root { color-scheme: light; --back: #fff; --card: #fff; --line: #999; --text: #000; --quiet: #333; --paper: #fff;
    --ink: #000; }
  body { max-width: none; padding: 0; font-size: 10pt; }
  header { margin-bottom: 4mm; }
  #controls, #more, body.sheets > :not(#sheets) { display: none; }
  .card { break-inside: avoid; }
  /* Puzzles and solutions stand in lines, as words do: a page is filled, and none of them is cut. */
  .sheet, .solved { display: inline-block; vertical-align: top; max-width: 100%; overflow: hidden; }
  .sheet { margin: 0 8mm 7mm 0; }
  .solved { margin: 0 5mm 5mm 0; padding: 1px; }
  .solved .pictures { gap: 3mm; margin: 1mm 0; }
  .sheet h2, .solved h2 { margin: 0; font-size: 11pt; }
  .solved h2 { font-size: 9pt; max-width: 56mm; }
  .sheet p { overflow: hidden; white-space: nowrap; text-overflow: ellipsis; }
  .sheet h2.clamped, .solved h2.clamped { -webkit-line-clamp: 2; }
  .solutions { break-before: page; }
  .solutions h1 { margin-bottom: 4mm; font-size: 14pt; }
  .clues { display: block; margin-top: 2mm; font-family: system-ui, sans-serif; }
  .clues text { fill: #000; text-anchor: middle; }
  .thin { fill: none; stroke: #777; stroke-width: 0.7; }
  .thick { fill: none; stroke: #000; stroke-width: 2; stroke-linecap: square; }
}
</style>
</head>
<body>
<header>
<h1>Survey of nonograms</h1>
<p class="quiet" id="totals"></p>
<noscript><p>This page needs JavaScript to show the puzzles.</p></noscript>
</header>
<div id="controls" role="search" aria-label="Choose puzzles" hidden>
<label>Search names and titles <input type="search" id="search" autocomplete="off"></label>
<label>Verdict <select id="verdict"></select></label>
<label>Grade <select id="grade"></select></label>
<label>Sort by <select id="sort"></select></label>
<label class="check"><input type="checkbox" id="reversed"> Reversed</label>
<button type="button" id="print">Print puzzles</button>
<p id="count" role="status" aria-live="polite"></p>
</div>
<main>
<ul id="cards" role="list" aria-label="Puzzles"></ul>
<button type="button" id="more" hidden>Show more puzzles</button>
</main>
<div id="sheets"></div>
<!-- The entries of the survey, and at the end its totals: each a line of JSON. -->
<script type="application/json" id="survey">
"##;

/// What stands behind the data of the page.
pub const PAGE_TAIL: &[u8] = br##"</script>
<script>
"use strict";

// Each line of the data is an object: an entry or, in the last line, the totals. Texts of the entries go into the page as
// text alone, never as HTML.

const VERDICTS = { one: "one solution", several: "several solutions", none: "no solution", unsettled: "unsettled",
  refused: "refused" };
const GRADES = { line: "line logic", trials: "trials", search: "search" };
const GOALS = { absent: "none", meets: "meets the clues", misses: "does not meet the clues" };

const byId = id => document.getElementById(id);
const records = byId("survey").textContent.split("\n").filter(line => line !== "").map(line => JSON.parse(line));
const entries = records.filter(record => record.number !== undefined);
const totals = records.find(record => record.totals).totals;
const verdictOf = entry => entry.verdict ?? "refused";

// Elements

/** Returns an element with a class and a text. The text can be null, and then the element is empty. */
function element(tag, className, text = null) {
  const made = document.createElement(tag);
  if (className) made.className = className;
  if (text !== null) made.textContent = text;
  return made;
}

/** Returns the same for a text of the survey, which may be long, or in a script that runs from right to left. */
function foreign(tag, className, text) {
  const made = element(tag, className, text);
  made.dir = "auto";
  return made;
}

/** Returns an element of SVG with attributes. */
function shape(tag, attributes) {
  const made = document.createElementNS("http://www.w3.org/2000/svg", tag);
  for (const [name, value] of Object.entries(attributes)) made.setAttribute(name, value);
  return made;
}

/** Returns a number with a comma between each three digits. */
function withCommas(number) {
  return number.toLocaleString("en");
}

// Pictures

/** Returns the path of the filled cells of a grid, a rectangle for each run. One path leaves no gaps between cells. */
function inkPath(rows) {
  const runsOf = row => [...row.matchAll(/#+/g)].map(run => [run.index, run[0].length]);
  return rows.flatMap((row, y) => runsOf(row).map(([x, length]) => `M${x} ${y}h${length}v1h-${length}z`)).join("");
}

/** Returns the cells that are marked in some rows, as pairs of a column and a row. */
function markedCells(marks) {
  return marks.flatMap((row, y) => [...row.matchAll(/\*/g)].map(mark => [mark.index, y]));
}

/** Returns rows with `*` for each cell in which two grids differ. */
function marksBetween(rows, others) {
  return rows.map((row, y) => [...row].map((cell, x) => (cell === others[y][x] ? "." : "*")).join(""));
}

/**
 * Returns the path of the cells in which a grid differs from another. Each has a diamond, so that nobody needs to see the
 * colour: in a filled cell it is a hole, in a blank cell it stands alone.
 */
function differingPath(rows, cells) {
  const diamond = ([x, y]) => `M${x + 0.5} ${y + 0.1}l.4 .4-.4 .4-.4-.4z`;
  const square = ([x, y]) => (rows[y][x] === "#" ? `M${x} ${y}h1v1h-1z` : "");
  return cells.map(cell => square(cell) + diamond(cell)).join("");
}

/** Returns the least and the greatest column and row of some cells. */
function boundsOf(cells) {
  const range = numbers => numbers.reduce(([least, most], n) => [Math.min(least, n), Math.max(most, n)], [Infinity, -1]);
  return { columns: range(cells.map(cell => cell[0])), rows: range(cells.map(cell => cell[1])) };
}

/** Returns in which rows and columns some cells are, counted from 1. */
function placeOf(cells) {
  const span = (word, [least, most]) => (least === most ? `${word} ${least + 1}` : `${word}s ${least + 1} to ${most + 1}`);
  const bounds = boundsOf(cells);
  return `${span("row", bounds.rows)}, ${span("column", bounds.columns)}`;
}

/** Returns a frame around some cells, `distance` cells away from them. */
function frameAround(cells, distance) {
  const { columns: [left, right], rows: [top, bottom] } = boundsOf(cells);
  const [width, height] = [right - left + 1, bottom - top + 1].map(count => count + 2 * distance);
  return shape("rect", { class: "around", x: left - distance, y: top - distance, width, height });
}

/** Returns a grid as a picture, in which some cells are marked. The label is its text for screen readers. */
function picture(rows, cells, label) {
  const [width, height] = [rows[0].length, rows.length];
  const marked = new Set(cells.map(([x, y]) => y * width + x));
  const plain = rows.map((row, y) => [...row].map((cell, x) => (marked.has(y * width + x) ? "." : cell)).join(""));
  const drawn = shape("svg", { class: "picture", viewBox: `0 0 ${width} ${height}`, role: "img", "aria-label": label });
  drawn.append(shape("rect", { class: "paper", width, height }), shape("path", { class: "ink", d: inkPath(plain) }));
  if (cells.length > 0) drawn.append(shape("path", { class: "differing", d: differingPath(rows, cells) }));
  return drawn;
}

/** Sets the size of a picture, by that of its cells in a unit of CSS. */
function setSize(drawn, size, unit) {
  const { width, height } = drawn.viewBox.baseVal;
  drawn.setAttribute("width", `${width * size}${unit}`);
  drawn.setAttribute("height", `${height * size}${unit}`);
}

/**
 * Fits a picture into a square of CSS pixels. The side of a cell is a whole number of the screen's own pixels, at least 1, so
 * that all cells are alike. Returns it in CSS pixels.
 */
function fit(drawn) {
  const { width, height } = drawn.viewBox.baseVal;
  const ratio = window.devicePixelRatio;
  const fitting = Math.floor((drawn.dataset.room * ratio) / Math.max(width, height));
  const size = Math.max(1, Math.min(fitting, Math.floor(16 * ratio))) / ratio;
  setSize(drawn, size, "px");
  return size;
}

/** Returns what is drawn of an entry: captions, grids, and the cells that are marked in them. */
function drawingsOf(entry) {
  const [first, second] = entry.solutions ?? [];
  if (!first) return [];
  const between = second ? markedCells(entry.differing) : [];
  const missed = entry.goal === "misses" ? markedCells(marksBetween(entry.goal_rows, first)) : [];
  const goal = { caption: second ? "Goal, compared with solution 1" : "Goal", rows: entry.goal_rows, cells: missed };
  const solutions = second
    ? [{ caption: "Solution 1", rows: first, cells: between }, { caption: "Solution 2", rows: second, cells: between }]
    : [{ caption: entry.verdict === "one" ? "Solution" : "A solution", rows: first, cells: missed }];
  return entry.goal === "misses" ? [...solutions, goal] : solutions;
}

/** Returns a figure of a drawing of an entry. */
function figureOf(entry, { caption, rows, cells }, room) {
  const filled = rows.join("").replaceAll(".", "").length;
  const label = `${caption} of ${entry.name}: ${entry.width} by ${entry.height} cells, ${filled} filled` +
    (cells.length > 0 ? `; ${cells.length} differ: ${placeOf(cells)}` : "");
  const drawn = picture(rows, cells, label);
  drawn.dataset.room = room;
  const size = fit(drawn);
  if (cells.length > 0 && size < 6) drawn.append(frameAround(cells, Math.ceil(4 / size))); // Such cells are hard to find.
  const figure = element("figure");
  figure.append(drawn, element("figcaption", "", caption));
  return figure;
}

// Cards

/** Returns the card of an entry. */
function cardOf(entry) {
  const card = element("li", "card");
  card.append(foreign("h2", "clamped", `${entry.number}. ${entry.name}`));
  if (entry.title) card.append(foreign("p", "clamped", entry.title));
  if (entry.by) card.append(foreign("p", "clamped quiet", `by ${entry.by}`));
  card.append(element("p", "verdict", VERDICTS[verdictOf(entry)]));
  if (entry.message) card.append(foreign("p", "message", entry.message));
  card.append(...picturesOf(entry), factsOf(entry));
  return card;
}

/** Returns the pictures of an entry, and where they differ. */
function picturesOf(entry) {
  const drawings = drawingsOf(entry);
  if (drawings.length === 0) return [];
  const pictures = element("div", "pictures");
  pictures.append(...drawings.map(drawing => figureOf(entry, drawing, drawings.length > 1 ? 120 : 256)));
  const { cells } = drawings[0];
  if (cells.length === 0) return [pictures];
  return [pictures, element("p", "quiet", `Differing cells, orange with a diamond: ${placeOf(cells)}`)];
}

/** Returns the facts about an entry, as a list of terms and values. */
function factsOf(entry) {
  const list = element("dl");
  const add = (term, value) => list.append(element("dt", "", term), element("dd", "", value));
  if (entry.fault !== null) {
    add("Fault", entry.fault_line === null ? entry.fault : `${entry.fault}, line ${entry.fault_line}`);
    return list;
  }
  add("Size", `${entry.width} \u00d7 ${entry.height}`);
  add("Grade", GRADES[entry.grade]);
  add("Known cells", `${withCommas(entry.line_cells)} by line logic, ${withCommas(entry.trial_cells)} after trials, ` +
    `of ${withCommas(entry.width * entry.height)}`);
  add("Guesses", withCommas(entry.guesses));
  add("Goal", GOALS[entry.goal]);
  return list;
}

// Choosing

const collator = new Intl.Collator("en", { numeric: true });
const grades = Object.keys(GRADES);
const ORDERS = {
  number: (a, b) => a.number - b.number,
  name: (a, b) => collator.compare(a.name, b.name),
  size: (a, b) => a.width * a.height - b.width * b.height,
  grade: (a, b) => grades.indexOf(a.grade) - grades.indexOf(b.grade),
  guesses: (a, b) => a.guesses - b.guesses,
};

/** Returns the entries that the controls choose, in their order. */
function chosen() {
  const [words, verdict, grade] = ["search", "verdict", "grade"].map(id => byId(id).value);
  const wanted = words.trim().toLowerCase();
  return entries
    .filter(entry => verdict === "all" || verdictOf(entry) === verdict || (verdict === "message" && entry.message !== null))
    .filter(entry => grade === "all" || entry.grade === grade)
    .filter(entry => `${entry.name}\n${entry.title ?? ""}`.toLowerCase().includes(wanted))
    .sort(orderOf(byId("sort").value, byId("reversed").checked));
}

/** Returns the order of two entries. Refused ones have no size, grade or guesses, and are then the last, reversed or not. */
function orderOf(key, isReversed) {
  const needsGrade = key !== "number" && key !== "name";
  return (a, b) => {
    const refused = needsGrade ? (a.fault !== null) - (b.fault !== null) : 0;
    return refused || (isReversed ? -1 : 1) * (ORDERS[key](a, b) || a.number - b.number);
  };
}

// A browser would take long for thousands of cards, so they are made in portions, when the reader comes near to their end.
const PORTION = 60;
let shown = [];
const watcher = new IntersectionObserver(([last]) => last.isIntersecting && addCards(PORTION), { rootMargin: "1200px" });

/** Shows the chosen entries. */
function show() {
  shown = chosen();
  byId("cards").replaceChildren();
  byId("count").textContent = `${withCommas(shown.length)} of ${withCommas(entries.length)} puzzles`;
  addCards(PORTION);
}

/** Adds the next `count` cards of the entries that are shown, or all that are left if these are fewer. */
function addCards(count) {
  const [cards, more] = [byId("cards"), byId("more")];
  const start = cards.childElementCount;
  cards.append(...shown.slice(start, start + count).map(cardOf));
  more.hidden = cards.childElementCount === shown.length;
  watcher.unobserve(more); // Observed anew, it is noticed even if it has stayed in sight.
  watcher.observe(more);
}

/** Adds choices to a control, each with its value and its text. */
function addChoices(id, choices) {
  for (const [value, text] of choices) byId(id).append(new Option(text, value));
}

/** Shows how many entries there are, in the line of totals and at the choices. */
function showTotals() {
  const parts = { one: "with one solution", several: "with several", none: "without any", unsettled: "unsettled",
    refused: "refused" };
  byId("totals").textContent = `${withCommas(totals.entries)} puzzle${totals.entries === 1 ? "" : "s"}: ` +
    Object.entries(parts).map(([word, text]) => `${withCommas(totals[word])} ${text}`).join(", ");
  const withCount = ([word, text]) => [word, `${text} (${withCommas(totals[word])})`];
  const messages = entries.filter(entry => entry.message !== null).length;
  const withMessage = ["message", `with a message (${withCommas(messages)})`];
  addChoices("verdict", [["all", "all"], ...Object.entries(VERDICTS).map(withCount), withMessage]);
  addChoices("grade", [["all", "all"], ...Object.entries(GRADES).map(withCount)]);
  addChoices("sort", Object.keys(ORDERS).map(key => [key, key]));
}

/** Has the controls do their work. */
function listen() {
  let timer;
  byId("search").addEventListener("input", () => {
    clearTimeout(timer);
    timer = setTimeout(show, 100); // A long survey is not searched anew for each letter of a word.
  });
  for (const id of ["verdict", "grade", "sort", "reversed"]) byId(id).addEventListener("change", show);
  byId("more").addEventListener("click", () => addCards(PORTION));
  byId("controls").hidden = false;
}

// Printing

const UNIT = 20; // The side of a cell of a printed puzzle in units of its picture.

/** Returns the path of the lines of a printed puzzle at every column and row for which `isIn` holds. */
function linesPath({ width, height }, left, top, isIn) {
  const numbers = count => [...Array(count + 1).keys()].filter(number => isIn(number, count)).map(number => number * UNIT);
  return numbers(width).map(x => `M${x} ${-top}V${height * UNIT}`).join("") +
    numbers(height).map(y => `M${-left} ${y}H${width * UNIT}`).join("");
}

/**
 * Returns a clue, each number in the middle of the cell whose column and row `placeOf` says. The numbers are counted from -1
 * at the grid's edge to less.
 */
function clueText(clue, placeOf) {
  const text = shape("text", {});
  clue.forEach((number, index) => {
    const [x, y] = placeOf(index - clue.length);
    const size = UNIT * (number < 10 ? 0.62 : number < 100 ? 0.56 : 0.44);
    const part = shape("tspan", { x: (x + 0.5) * UNIT, y: (y + 0.5) * UNIT + 0.36 * size, "font-size": size });
    part.textContent = number;
    text.append(part);
  });
  return text;
}

/** Returns the puzzle of an entry for a solver: clues, and an empty grid of which every fifth line is stronger. */
function puzzleOf(entry) {
  const withZero = clues => clues.map(clue => (clue.length === 0 ? [0] : clue));
  const [rows, columns] = [withZero(entry.rows), withZero(entry.columns)];
  const [left, top] = [rows, columns].map(clues => Math.max(...clues.map(clue => clue.length)));
  const [across, down] = [left + entry.width, top + entry.height];
  const size = Math.min(6.5, 182 / across, 210 / down); // Millimetres: a page of A4 or of Letter has room for the puzzle.
  const puzzle = shape("svg", { class: "clues", width: `${across * size}mm`, height: `${down * size}mm`,
    viewBox: `${-left * UNIT - 1} ${-top * UNIT - 1} ${across * UNIT + 2} ${down * UNIT + 2}` });
  const isThick = (number, count) => number % 5 === 0 || number === count;
  puzzle.append(
    shape("path", { class: "thin", d: linesPath(entry, 0, 0, (number, count) => !isThick(number, count)) }),
    shape("path", { class: "thick", d: linesPath(entry, left * UNIT, top * UNIT, isThick) }));
  puzzle.append(
    ...rows.map((clue, y) => clueText(clue, x => [x, y])),
    ...columns.map((clue, x) => clueText(clue, y => [x, y])));
  return puzzle;
}

/** Returns the heading of an entry in print. */
function headingOf(entry) {
  return foreign("h2", "clamped", `${entry.number}. ${entry.title || entry.name}`);
}

/** Returns a puzzle with its title, as solvers get it. */
function sheetOf(entry) {
  const sheet = element("section", "sheet");
  sheet.append(headingOf(entry));
  if (entry.by) sheet.append(foreign("p", "", `by ${entry.by}`));
  const puzzle = puzzleOf(entry);
  sheet.style.width = `max(50mm, ${puzzle.getAttribute("width")})`; // So that a long title is not wider than its puzzle.
  sheet.append(puzzle);
  if (entry.copyright) sheet.append(foreign("p", "quiet", entry.copyright));
  return sheet;
}

/** Returns the solutions of an entry, below its number and title. */
function solvedOf(entry) {
  const solved = element("section", "solved");
  const pictures = element("div", "pictures");
  const size = Math.min(3, 56 / Math.max(entry.width, entry.height));
  pictures.append(...entry.solutions.map(rows => picture(rows, [], "Solution")));
  for (const drawn of pictures.children) setSize(drawn, size, "mm");
  solved.append(headingOf(entry));
  if (entry.verdict !== "one") solved.append(element("p", "", VERDICTS[entry.verdict]));
  solved.append(pictures);
  return solved;
}

/** Lays out the puzzles that are shown for print, and their solutions on pages of their own behind. */
function layOut() {
  const puzzles = shown.filter(entry => entry.fault === null);
  const solutions = element("section", "solutions");
  solutions.append(element("h1", "", "Solutions"), ...puzzles.map(solvedOf));
  byId("sheets").replaceChildren(...puzzles.map(sheetOf), solutions);
  document.body.classList.add("sheets");
}

/** Takes the layout for print away. */
function clearSheets() {
  byId("sheets").replaceChildren();
  document.body.classList.remove("sheets");
}

byId("print").addEventListener("click", () => {
  layOut();
  window.addEventListener("afterprint", clearSheets, { once: true });
  window.print();
});
// Without the button the cards are printed, all of them.
window.addEventListener("beforeprint", () => {
  if (!document.body.classList.contains("sheets")) addCards(Infinity);
});

/** Fits the pictures anew each time the window is zoomed, or moved to a screen with other pixels. */
function watchPixels() {
  const pixels = window.matchMedia(`(resolution: ${window.devicePixelRatio}dppx)`);
  pixels.addEventListener("change", () => {
    document.querySelectorAll("#cards .picture").forEach(fit);
    watchPixels();
  }, { once: true });
}

showTotals();
listen();
watchPixels();
show();
if (location.hash === "#print") layOut(); // So that a program can print the puzzles.
</script>
</body>
</html>
"##;
