//! The script of the page: what can still come.

/// Text of the script.
pub const COUNTS: &str = r##"// ---- what can still come ----
// An outcome is a text "kind<tab>what is displayed from here on".

const endText = ({ kind, error, p, line }) => error ? `${kind} ${error} process ${p} line ${line}` : isAlone(kind) ? `${kind} process ${p}` : kind;
const kindOf = outcome => outcome.split(/[ \t]/)[0];
const RANK = Object.keys(KINDS);
const byKind = (a, b) => RANK.indexOf(kindOf(a)) - RANK.indexOf(kindOf(b));
const joined = (a, b) => a && b ? a + " " + b : a || b;
const total = counts => counts.reduce((sum, count) => sum + count, 0n);
const MOST_COUNTS = 400000;

const shownBy = EDGES.map(({ events }) => events.filter(e => e.kind === "o").map(e => S[e.text]).join(" "));

// The most choices that can follow each node; Infinity where there is no bound.
function heightsOf() {
  const next = NODES.map(node => node.edges.filter(e => e >= 0 && EDGES[e].to >= 0).map(e => EDGES[e].to));
  const before = NODES.map(() => []);
  next.forEach((all, n) => all.forEach(to => before[to].push(n)));
  const missing = next.map(all => all.length);
  const heights = NODES.map(() => Infinity);
  const done = [...NODES.keys()].filter(n => missing[n] === 0 && !NODES[n].isOpen);
  while (done.length) {
    const n = done.pop();
    heights[n] = 1 + Math.max(0, ...next[n].map(to => heights[to]));
    for (const b of before[n]) if (--missing[b] === 0) done.push(b);
  }
  return heights;
}
const HEIGHTS = heightsOf();
// A node that at most h choices follow has the same ways on with h of them left and with more.
const leftAt = (node, left) => Math.min(left, HEIGHTS[node]);

let isBrief = false; // Whether outcomes are counted by their kinds alone.
let memo = new Map();
let room = 0;
let isInside = false; // Whether those schedules alone are counted that stay in the page.
const inside = new Map();

// Where there are too many even by their kinds, it is not known to what the rest leads.
const UNKNOWN = new Map([["beyond\t", 1n]]);

// The same at the edge of the page, where it does not go on.
function onwardFrom(node, left) {
  const { onward } = NODES[node];
  const place = onward.findIndex((n, i) => i % 2 === 0 && n === left);
  if (place < 0 || isInside) return UNKNOWN;
  const row = D.ways[onward[place + 1]];
  const found = new Map();
  for (let i = 0; i < row.length; i += 2) {
    const [[kind, error, p, line], shown] = D.further[row[i]];
    const outcome = endText({ kind, error, p, line }) + "\t" + (isBrief ? "" : S[shown]);
    found.set(outcome, (found.get(outcome) || 0n) + BigInt(row[i + 1]));
  }
  return found;
}

// Outcome -> how many of the ways on from a node have it, with so many choices left.
function ways(node, left) {
  const remembered = isInside ? inside : memo;
  const key = 128 * node + leftAt(node, left);
  const known = remembered.get(key);
  if (known) return known;
  if (room < 0) return UNKNOWN;
  const isEdge = left > 0 && NODES[node].isOpen;
  const found = isEdge ? onwardFrom(node, left) : new Map(left ? [] : [["choice-limit\t", 1n]]);
  if (left && !isEdge) {
    for (const edge of NODES[node].edges) {
      for (const [outcome, count] of through(edge, left)) found.set(outcome, (found.get(outcome) || 0n) + count);
    }
  }
  remembered.set(key, found);
  if (isInside) return found;
  room -= found.size;
  if (room < 0 && !isBrief) throw new RangeError("too many");
  return found;
}

function through(edge, left) {
  if (edge < 0) return [["beyond\t", 1n]];
  const { to } = EDGES[edge];
  const rest = to < 0 ? [[endText(ENDS[-1 - to]) + "\t", 1n]] : [...ways(to, left - 1)];
  if (isBrief || !shownBy[edge]) return rest;
  return rest.map(([outcome, count]) => {
    const [kind, output] = outcome.split("\t");
    return [kind + "\t" + joined(shownBy[edge], output), count];
  });
}

// What is left of an outcome once this has been displayed; null where it can't come any more.
function behind(outcome, shown) {
  const [kind, output] = outcome.split("\t");
  if (isBrief || !shown) return outcome;
  return (output + " ").startsWith(shown + " ") ? kind + "\t" + output.slice(shown.length + 1) : null;
}

// ---- the outcomes of the program ----

const outcomes = D.isWhole || isEndless ? reported() : found();
outcomes.sort((a, b) => byKind(a.key, b.key));

function reported() {
  return D.outcomes.map(([[kind, error, p, line], output, count, first]) => {
    const end = { kind, error, p, line };
    return { end, output, count: count === "" ? null : BigInt(count), first, key: endText(end) + "\t" + output };
  });
}

// Where there are too many schedules to count: the ends in this page, each with a shortest word.
function found() {
  const all = new Map();
  const seen = new Set([D.start[0]]);
  let layer = [[D.start[0], []]];
  for (let depth = 0; depth <= K && layer.length; depth++) {
    const next = [];
    for (const [edge, first] of layer) {
      const { to } = EDGES[edge];
      if (to < 0) {
        const end = ENDS[-1 - to];
        const key = endText(end) + "\t";
        if (!all.has(key)) all.set(key, { end, output: "", count: null, first, key });
        continue;
      }
      NODES[to].edges.forEach((on, i) => {
        if (on < 0 || seen.has(on)) return;
        seen.add(on);
        next.push([on, [...first, NODES[to].options[i]]]);
      });
    }
    layer = next;
  }
  return [...all.values()];
}

// The word of an outcome with the fewest switches, of these the shortest, of these the first in dictionary order. A switch is a choice of
// another process than the one that made the last step, where that one could be chosen. It is looked for where the page has all states.
function simplest(outcome) {
  if (outcome.simplest === undefined) outcome.simplest = isWholeGraph && D.isWhole && !isEndless ? cheapest(outcome) : null;
  return outcome.simplest;
}

function lastOf(edge, last) {
  const step = EDGES[edge].events.findLast(e => e.kind !== "a");
  return step ? step.p : last;
}

function cheapest(outcome) {
  const known = new Map();
  const values = outcome.output ? outcome.output.split(" ") : [];
  // Switches, numbers, and the next number, from the end of an edge on.
  const best = (edge, left, last, shown) => {
    const { to } = EDGES[edge];
    const mine = shownBy[edge] ? shownBy[edge].split(" ") : [];
    if (mine.some((value, i) => values[shown + i] !== value)) return null;
    shown += mine.length;
    last = lastOf(edge, last);
    if (to < 0) return endText(ENDS[-1 - to]) === endText(outcome.end) && shown === values.length ? [0, 0, -1] : null;
    if (left === 0) return outcome.end.kind === "choice-limit" && shown === values.length ? [0, 0, -1] : null;
    const key = [to, leftAt(to, left), last, shown].join("/");
    if (known.has(key)) return known.get(key);
    const { gate, options, edges } = NODES[to];
    const mayStay = gate < 0 && options.includes(last);
    let found = null;
    options.forEach((p, i) => {
      const rest = best(edges[i], left - 1, last, shown);
      if (!rest) return;
      const cost = [rest[0] + (mayStay && p !== last ? 1 : 0), rest[1] + 1, p];
      if (!found || cost[0] < found[0] || (cost[0] === found[0] && cost[1] < found[1])) found = cost;
    });
    known.set(key, found);
    return found;
  };
  const numbers = [];
  let [edge, left, last, shown] = [D.start[0], K, 0, 0];
  for (;;) {
    const step = best(edge, left, last, shown);
    if (!step) return null;
    if (step[2] < 0) return numbers;
    last = lastOf(edge, last);
    shown += shownBy[edge] ? shownBy[edge].split(" ").length : 0;
    left--;
    numbers.push(step[2]);
    edge = edgeOf(EDGES[edge].to, step[2]);
  }
}

// Counts the ways on: with what is displayed, or by kinds alone where that is too much. Where the page knows what comes of all its states its
// own counts have to be those of the program.
function count() {
  if (isEndless) return checkEnds();
  for (isBrief of [false, true]) {
    memo = new Map();
    room = MOST_COUNTS;
    try {
      through(D.start[0], K + 1);
      break;
    } catch (error) {
      if (!(error instanceof RangeError)) throw error;
    }
  }
  const ours = through(D.start[0], K + 1);
  const isKnown = D.isWhole && D.more === 0 && !isBrief && ours.every(([outcome]) => kindOf(outcome) !== "beyond");
  const text = counts => counts.map(([outcome, n]) => `${outcome} ${n}`).sort().join();
  if (isKnown && text(ours) !== text(outcomes.map(o => [o.key, o.count]))) {
    $("warn").textContent = "The counts of this page are not those of the report: trust neither, and tell of the fault.";
  }
}
"##;
