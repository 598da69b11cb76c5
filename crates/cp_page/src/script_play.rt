//! The script of the page: data, elements, and a word that is played.

/// Text of the script.
pub const PLAY: &str = r##"
"use strict";
// A student plays the scheduler.
//
// The state of play is a word and a place in it. `play(word)` folds the events along the word over the state at the start, and all that is
// shown is computed from that and from the data. So nothing has to be kept in step, and going back is playing a shorter word.
// Texts of the program are only ever set as texts.
//
// The data are one object (the README of the crate cp_page has them). A text or a row is named by its place in a table.

const D = JSON.parse(document.getElementById("data").textContent);
const S = D.strings;
const isEndless = D.choices === null; // Schedules have any length.
const K = isEndless ? Infinity : D.choices;
const PROCESSES = [...D.processes.keys()];
const MONITORS = [...D.monitors.keys()];
const KINDS = {
  "finished": ["\u2713", "finished"],
  "all-waiting": ["\u25a0", "all wait"],
  "run-error": ["\u2717", "run error"],
  "choice-limit": ["\u2026", "limit of choices"],
  "step-limit": ["\u2026", "limit of steps"],
  "output-limit": ["\u2026", "limit of output"],
  "alone": ["\u221e", D.signals ? "goes on without a choice" : "goes on alone"],
  "spins": ["\u221e", "goes on without a call"],
  "for-ever": ["\u221e", "going on for ever"],
  "waits": ["\u21bb", "waiting for ever"],
  "beyond": ["?", "leave this page"],
};
const isAlone = kind => kind === "alone" || kind === "spins";
// Where processes may take turns without a choice, who waits at the end need not wait for ever.
const isStuck = kind => kind === "all-waiting" || kind === "spins" || (kind === "alone" && !D.signals);
const kindText = kind => KINDS[kind].join(" ");
const person = p => `${p} ${D.processes[p][0]}`;
const monitor = m => D.monitors[m][0];

let word = [];
let at = 0;

// ---- elements ----

function fill(element, attributes, kids) {
  for (const [name, value] of Object.entries(attributes)) {
    if (name === "onclick") element.addEventListener("click", value);
    else if (value !== false) element.setAttribute(name, value);
  }
  element.append(...kids.flat(9).filter(kid => kid !== null && kid !== undefined && kid !== false));
  return element;
}
const $ = id => document.getElementById(id);
const el = (tag, attributes, ...kids) => fill(document.createElement(tag), attributes, kids);
const svg = (tag, attributes, ...kids) => fill(document.createElementNS("http://www.w3.org/2000/svg", tag), attributes, kids);
const disc = (p, status) => el("span", { class: "num " + status }, String(p));
const mark = kind => el("span", { class: "kind " + kind }, kindText(kind));
// Each of eight monitors has a colour of its own; from the ninth on they come with a hatch, again and again.
const HUES = 8;
const hue = m => "m" + m % HUES;
const isHatched = m => m >= HUES;

function number(n) {
  const digits = n.toString();
  if (digits.length <= 15) return digits.replace(/\B(?=(\d{3})+$)/g, ",");
  const power = [...String(digits.length - 1)].map(d => "\u2070\u00b9\u00b2\u00b3\u2074\u2075\u2076\u2077\u2078\u2079"[d]).join("");
  return `${digits[0]}.${digits.slice(1, 3)}\u00d710${power}`;
}
const schedules = n => number(n) + (n === 1n ? " schedule" : " schedules");

// ---- the graph ----

const EVENTS = D.events.map(([kind, p, line, whom, text, woken, letIn, changes, view]) => {
  return { kind, p, line, m: whom, text, woken, letIn, changes, view };
});
// A stretch that goes on for ever is told up to the end of its first round: where the round begins, and where the next one would.
function firstRound(events) {
  let best = [0, events.length];
  for (let length = 1; 2 * length <= events.length && length <= 500; length++) {
    let from = events.length - length;
    while (from > 0 && events[from - 1] === events[from - 1 + length]) from--;
    if (from + 2 * length <= events.length && from + length < best[1]) best = [from, from + length];
  }
  return best;
}

const EDGES = D.edges.map(([places, to]) => {
  const isAlone = to < 0 && D.ends[-1 - to][0] === "alone";
  const [again, end] = isAlone ? firstRound(places) : [-1, places.length];
  return { events: places.slice(0, end).map(e => EVENTS[e]), to, again };
});
const NODES = D.nodes.map(([gate, pairs, onward = []]) => {
  const options = pairs.filter((_, i) => i % 2 === 0);
  return { gate, options, edges: pairs.filter((_, i) => i % 2 === 1), isOpen: pairs[1] < 0, onward };
});
const edgeOf = (node, p) => NODES[node].edges[NODES[node].options.indexOf(p)];
const isWholeGraph = NODES.every(node => !node.isOpen);

const ENDS = D.ends.map(([kind, error, p, line, more, broken]) => {
  const [cause, why] = kind === "all-waiting" ? [undefined, more] : [more, []];
  return { kind, error, p, line, cause, broken, why };
});
const CHOICE_LIMIT = { kind: "choice-limit", error: "", p: 0, line: 0 };
const BEYOND = { kind: "beyond", error: "", p: 0, line: 0 };
// Whether a schedule has come to its end, and not to the edge of the page.
const hasEnded = s => s.end && s.end !== BEYOND;

const behindColon = text => text ? ": " + text : "";

function endSentence({ kind, error, p, line, cause }) {
  return {
    "finished": () => "Finished: every process has ended.",
    "all-waiting": () => "All wait, and nobody is left who could wake them.",
    "run-error": () => `Run error ${error}: ${person(p)}, line ${line}${behindColon(cause)}.`,
    "choice-limit": () => `The limit of ${K} choices. What follows is not told: try more --choices.`,
    "alone": () => `${person(p)} goes on for ever, ${D.signals ? "by itself or in turns, without a choice" : "and nobody else can"}.`,
    "spins": () => `${person(p)} goes on for ever without a call${line ? ", line " + line : ""}, and nobody else does.`,
    "step-limit": () => `${number(D.steps)} steps of ${person(p)} without an end${line ? ", line " + line : ""}: try more --steps.`,
    "output-limit": () => "1,000 values have been displayed, and no more can be.",
    "beyond": () => `What follows is not in this page, which goes on from ${number(D.states)} states: try more --states.`,
  }[kind]();
}

// The kinds of a `continue`: the caller returns from its call, goes on in it, or lets go on who waited and waits itself.
const isContinue = kind => "cnw".includes(kind);

// What an event was, in the words of `./show trace`.
function wordsOf({ kind, m, text, woken, letIn }) {
  const says = S[text];
  const isLost = isContinue(kind) && woken.length === 0;
  const what = {
    e: () => `enters ${monitor(m)}.${says}`,
    g: () => `waits at the gate for ${monitor(m)}.${says}`,
    a: () => `is let in to ${monitor(m)}.${says}`,
    l: () => `leaves ${monitor(m)}${says && ": " + says}`,
    d: () => `waits in ${monitor(m)}.${says}`,
    c: () => `continues ${monitor(m)}.${says}${isLost ? ", where nobody waits" : ""}`,
    n: () => `continues ${monitor(m)}.${says}${isLost ? ", nobody waits" : ""}`,
    w: () => `continues ${monitor(m)}.${says}${isLost ? ", nobody waits" : ""}`,
    s: () => `starts ${person(m)}`,
    o: () => `displays ${says}`,
    x: () => "ends",
  }[kind]();
  const goes = { n: q => `, ${person(q)} goes to the gate`, w: q => `, wakes ${person(q)}, waits at the gate itself` }[kind] || (q => `, wakes ${person(q)}`);
  return what + woken.map(goes).join("") + letIn.map(q => `, lets ${person(q)} in`).join("");
}

// ---- a word, played ----

function play(numbers) {
  const s = {
    rows: [],
    status: PROCESSES.map(p => p ? "unstarted" : "ready"),
    place: PROCESSES.map(() => ""),
    line: PROCESSES.map(() => 0),
    view: D.start[1].slice(),
    calls: PROCESSES.map(() => []),
    holder: MONITORS.map(() => null),
    gate: MONITORS.map(() => []),
    values: D.variables.map(([, , , value]) => S[value]),
    output: [],
    numbers,
    used: 0,
    node: -1,
    nodes: [], // The state after each number of choices.
    again: -1, // The row with which a round without a choice begins.
    end: null,
    refused: null,
  };
  follow(s, D.start[0], null);
  for (const p of numbers) {
    if (s.end || !NODES[s.node].options.includes(p)) return { ...s, refused: p };
    const { options, gate } = NODES[s.node];
    s.used++;
    follow(s, edgeOf(s.node, p), { p, options, isGate: gate >= 0 });
  }
  return s;
}

function follow(s, edge, choice) {
  const { events, to, again } = EDGES[edge];
  if (again >= 0) s.again = s.rows.length + again;
  events.forEach((event, i) => happen(s, event, i ? null : choice));
  s.node = Math.max(to, -1);
  if (to < 0) [s.node, s.end] = [-1, ENDS[-1 - to]];
  else if (s.used === K) s.end = CHOICE_LIMIT;
  else if (NODES[to].isOpen) s.end = BEYOND;
  s.nodes.push(s.node);
}

function happen(s, event, choice) {
  const { kind, p, m, text, woken, letIn, changes } = event;
  const row = { event, choice, line: event.line, used: s.used, words: `${person(p)} ${wordsOf(event)}` };
  const enter = q => {
    s.status[q] = "ready";
    s.holder[m] = q;
    s.gate[m] = s.gate[m].filter(other => other !== q);
  };
  const waitAtGate = q => {
    s.status[q] = "gate";
    s.gate[m].push(q);
  };
  if (kind === "e" || kind === "g") s.calls[p].push({ monitor: m, text: S[text], line: event.line });
  if (kind === "e" || kind === "a") enter(p);
  if (kind === "g") waitAtGate(p);
  if (kind === "s") [s.status[m], s.view[m]] = ["ready", text];
  if (kind === "o") s.output.push(S[text]);
  if (kind === "x") s.status[p] = "ended";
  if (kind === "d") [s.status[p], s.place[p]] = ["delayed", S[text]];
  // The line of a return is that of its call, and belongs to the way: ways with different calls may meet in one state.
  if (kind === "l" && s.calls[p].length) row.line = s.calls[p].at(-1).line;
  if (kind === "l" || kind === "c") s.calls[p].pop();
  if (kind === "n") woken.forEach(waitAtGate);
  if (kind === "w" && woken.length) {
    s.status[p] = "gate";
    s.gate[m].unshift(p);
    woken.forEach(enter);
  }
  if (kind === "l" || kind === "d" || kind === "c") {
    s.holder[m] = null;
    [...woken, ...letIn].forEach(enter);
  }
  for (let i = 0; i < changes.length; i += 2) s.values[changes[i]] = S[changes[i + 1]];
  if (row.line) s.line[p] = row.line;
  s.view[p] = event.view;
  row.statuses = s.status.slice();
  row.inside = s.calls.map(calls => calls.length > 0);
  s.rows.push(row);
}
"##;
