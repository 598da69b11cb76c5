//! The script of the page: a long stretch, told briefly.

/// Text of the script.
pub const BRIEF: &str = r##"// ---- a long stretch, told briefly ----
// Of more than so many events the first ones and the last one are told, and of the others who makes them, how many there are, and what is displayed.

const MOST_TOLD = 6;
const FIRST_TOLD = 3;

function shownBriefly(events) {
  const shown = events.filter(({ kind }) => kind === "o").map(({ text }) => S[text]);
  if (!shown.length) return "";
  return ", displays " + (shown.length > 4 ? `${shown[0]} .. ${shown.at(-1)}` : shown.join(" "));
}

function restBriefly(events) {
  const who = [...new Set(events.map(({ p }) => p))];
  return `then ${people(who)}${who.length === 1 ? " alone" : ""}: ${events.length} events${shownBriefly(events)}`;
}

// What happened, with a text for each event that is told.
function briefly(events, tell) {
  const told = events.map(tell);
  if (events.length <= MOST_TOLD) return told.join("; ");
  return [...told.slice(0, FIRST_TOLD), restBriefly(events.slice(FIRST_TOLD, -1)), told.at(-1)].join("; ");
}

// ---- folded rows ----
// Rows in which one process goes on by itself without a choice are one row in the lanes, but for the first ones and the last one.

const unfolded = new Set(); // By their first rows, those that are shown one by one.
const isQuiet = ({ kind, woken, letIn }) => "elo".includes(kind) && !woken.length && !letIn.length;

function foldsOf(rows) {
  const folds = [];
  let from = 0;
  rows.forEach((row, i) => {
    const next = rows[i + 1];
    const goesOn = next && next.used === row.used && next.event.p === row.event.p && isQuiet(row.event) && isQuiet(next.event);
    if (goesOn) return;
    const fold = { from: from + 2, to: i - 1 };
    if (i - from >= MOST_TOLD + 2 && !unfolded.has(fold.from)) folds.push(fold);
    from = i + 1;
  });
  return folds;
}

// The line of each row, where the rows of a fold share one and one before `pointRow` is free, and how many lines there are.
function linesOf(rows, folds, pointRow) {
  let line = -1;
  const lineOf = rows.map((_, i) => {
    if (i === pointRow) line++;
    return folds.some(({ from, to }) => i > from && i <= to) ? line : ++line;
  });
  if (pointRow === rows.length) line++;
  return { lineOf, count: line + 1 };
}
"##;
