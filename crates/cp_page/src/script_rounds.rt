//! The script of the page: what can still come in schedules of any length, and rounds.

/// Text of the script.
pub const ROUNDS: &str = r##"// ---- schedules of any length ----
// There is no counting them. It is told which ends can still come, which rounds, and whether a schedule can go on for ever.

const WAITS = (D.waits || []).map(([process, how, others, first, again]) => ({ process, how, others, first, again }));
// The rounds that are known by their words: a loop may come to its own beginning in the middle.
const KNOWN = [...WAITS, { first: D.word.slice(0, D.word.length - D.round), again: D.word.slice(D.word.length - D.round) }];

const PREVIOUS = NODES.map(() => []);
NODES.forEach(({ edges }, n) => edges.filter(e => e >= 0 && EDGES[e].to >= 0).forEach(e => PREVIOUS[EDGES[e].to].push(n)));

// The states from which one of these can be come to.
function leadingTo(states) {
  const found = new Set(states);
  const open = [...found];
  while (open.length) {
    for (const n of PREVIOUS[open.pop()]) {
      if (found.has(n)) continue;
      found.add(n);
      open.push(n);
    }
  }
  return found;
}

const statesWhere = holds => [...NODES.keys()].filter(n => holds(NODES[n]));
const hasEnd = key => ({ edges }) => edges.some(e => e >= 0 && EDGES[e].to < 0 && endText(ENDS[-1 - EDGES[e].to]) === key);

// What can come: a sign with words, and the states from which it can.
function prospectsOf() {
  const ends = [...new Set(ENDS.map(endText))].map(key => ({ key, end: ENDS.find(end => endText(end) === key), from: leadingTo(statesWhere(hasEnd(key))) }));
  ends.sort((a, b) => byKind(a.key, b.key));
  const ever = { key: "for-ever", from: new Set([...NODES.keys()].filter(n => HEIGHTS[n] === Infinity)) };
  const rounds = WAITS.map(wait => ({ key: "waits", wait, from: leadingTo(wait.again.length ? nodeAfter(wait.first) : []) }));
  const beyond = { key: "beyond", from: leadingTo(statesWhere(node => node.isOpen)) };
  return [...ends, ever, ...rounds, beyond].filter(({ from, end }) => end || from.size);
}

function nodeAfter(numbers) {
  const s = play(numbers);
  return s.refused === null && s.node >= 0 ? [s.node] : [];
}

const PROSPECTS = isEndless ? prospectsOf() : [];
const prospectsAt = node => PROSPECTS.filter(({ from }) => from.has(node));

// What can come after an edge.
function prospectsAfter(edge) {
  if (edge < 0) return PROSPECTS.filter(({ key }) => key === "beyond");
  const { to } = EDGES[edge];
  return to < 0 ? PROSPECTS.filter(({ key }) => key === endText(ENDS[-1 - to])) : prospectsAt(to);
}

function prospectShown({ key, end, wait }) {
  if (wait) return el("span", { class: "kind waits" }, `${KINDS.waits[0]} ${person(wait.process)} waits for ever`);
  if (end && end.kind === "run-error") return [mark(end.kind), ` ${end.error}, line ${end.line}`];
  if (end && isAlone(end.kind)) return [mark(end.kind), ` ${person(end.p)}`];
  return [mark(kindOf(key))];
}

const listed = prospects => prospects.map((each, i) => [i > 0 && ", ", prospectShown(each)]);

// What can still come, above the choices.
function prospectsLine(s) {
  return el("p", { id: "can" }, el("small", {}, "can still come: "), listed(prospectsAt(s.node)));
}

// What a choice takes away, and whether it leads back.
function lossShown(s, edge) {
  const here = prospectsAt(s.node);
  const then = prospectsAfter(edge);
  const met = edge < 0 ? -1 : s.nodes.lastIndexOf(EDGES[edge].to);
  const isBack = edge >= 0 && EDGES[edge].to >= 0 && met >= 0;
  return [
    then.length < here.length && el("small", { class: "loss" }, "then only ", listed(then)),
    isBack && el("small", { class: "loss" }, `\u21bb back to state ${EDGES[edge].to}, ${afterChoices(met)}`),
  ];
}

const afterChoices = n => n === 0 ? "at the beginning" : `after ${n} choice${n === 1 ? "" : "s"}`;

// After how many choices the state at the end of what was played was met before; -1 where it was not.
function backOf(s) {
  if (!isEndless || s.node < 0 || s.used === 0) return -1;
  const ends = ({ first, again }) => {
    const more = s.used - first.length;
    return again.length && more > 0 && more % again.length === 0 && s.numbers.every((p, i) => p === (i < first.length ? first[i] : again[(i - first.length) % again.length]));
  };
  const known = KNOWN.find(ends);
  return known ? s.used - known.again.length : s.nodes.lastIndexOf(s.node, s.used - 1);
}

// The round at the end of what was played: its numbers, who goes on in it, who waits all along, who waits again and again inside a call,
// and who could go on and never does.
function roundOf(s) {
  const back = backOf(s);
  if (back < 0) return null;
  const rows = s.rows.filter(r => r.used > back);
  const numbers = s.numbers.slice(back);
  const always = holds => PROCESSES.filter(p => rows.every(r => holds(r.statuses[p], p, r)));
  const waits = status => status === "gate" || status === "delayed";
  const go = PROCESSES.filter(p => rows.some(({ event }) => event.p === p && event.kind !== "a"));
  const wait = always(waits);
  const stay = always((_, p, r) => r.inside[p]).filter(p => !wait.includes(p) && rows.some(r => waits(r.statuses[p])));
  const idle = always(status => status === "ready").filter(p => !go.includes(p));
  return { back, numbers, go: go.filter(p => !stay.includes(p)), wait, stay, idle };
}

function people(list) {
  const names = list.map(person);
  return names.length < 2 ? names.join() : names.slice(0, -1).join(", ") + " and " + names.at(-1);
}

function roundSentences({ go, wait, stay, idle }) {
  const says = (list, one, several) => list.length > 0 && `${people(list)} ${list.length === 1 ? one : several}`;
  return [
    says(go, "goes on", "go on"),
    says(wait, "waits all along", "wait all along"),
    says(stay, "waits again and again and never comes out of its call", "wait again and again and never come out of their calls"),
    says(idle, "could go on and never does, so this is no fair schedule", "could go on and never do, so this is no fair schedule"),
  ].filter(sentence => sentence);
}

// In the middle of a round that is laid out: how far it was gone. At its end: a card that says so.
function roundShown(s) {
  const ahead = at < word.length && roundOf(play(word));
  const round = roundOf(s);
  if (ahead && (at > ahead.back || (at === ahead.back && !round))) return roundAhead(ahead);
  return round && roundCard(s, round);
}

const roundAhead = ({ back, numbers }) => el("p", { id: "round", class: "for-ever" },
  el("strong", {}, "\u21bb In the round ", el("span", { class: "word" }, numbers.join("."))), `: ${at - back} of ${numbers.length} choices`);

// A round that can be gone once more, or left by any other choice.
function roundCard(s, round) {
  const { back, numbers } = round;
  const goes = place => () => {
    at = place;
    show();
  };
  return el("div", { class: "card for-ever", id: "round" },
    el("p", {}, el("strong", {}, `\u21bb Back in state ${s.node}, where it was ${afterChoices(back)}.`)),
    el("p", {}, "The round ", el("span", { class: "word" }, numbers.join(".")), " can be gone again and again, for ever:"),
    el("ul", {}, roundSentences(round).map(sentence => el("li", {}, sentence))),
    el("p", {}, el("button", { id: "again", onclick: () => move("forward") }, "once more \u2192"), " ",
      el("button", { id: "begin", onclick: goes(back) }, "to its beginning"), el("small", {}, " any other choice leaves it")));
}

// The word with the round at its end once more.
function withRound(numbers) {
  const round = roundOf(play(numbers));
  return round ? [...numbers, ...round.numbers] : numbers;
}

// ---- its ends and rounds ----

function endChip(s, outcome) {
  const { kind, error, p, line } = outcome.end;
  const key = endText(outcome.end);
  const can = s.end ? endText(s.end) === key : prospectsAt(s.node).some(each => each.key === key);
  const isPart = !s.end && prospectsAt(s.node).some(each => each.key === "beyond");
  if (outcome.playable === undefined) outcome.playable = playable(outcome.first);
  const isHidden = predicts && !s.end;
  const says = s.end ? can && "here" : s.used > 0 && !isHidden && (can ? "can still come" : isPart ? "?" : "no more");
  return el("li", { class: kind + (can || isPart || isHidden ? "" : " gone") },
    mark(kind), error && ` ${error}: ${person(p)}, line ${line}`, isAlone(kind) && ` ${person(p)}`, " ", el("small", {}, says),
    layButton("first", outcome.playable, "Lay out the shortest schedule that ends so", outcome),
    anotherButton(outcome));
}

function waitChip(s, wait) {
  const { process, how, others, first, again } = wait;
  const manner = { "throughout": "for ever", "for good": "for good", "in its call": "for ever, woken again and again" }[how];
  if (wait.playable === undefined) wait.playable = again.length ? nodeAfter([...first, ...again]).length > 0 : playable(first) !== null;
  const lays = place => () => {
    [word, at] = [[...first, ...again], place];
    show();
  };
  const button = (text, place, title) => wait.playable && el("button", { id: text + WAITS.indexOf(wait), title, "aria-label": `${text}: ${person(process)} waits for ever`, onclick: lays(place) }, text);
  return el("li", { class: "waits" },
    el("span", { class: "kind" }, KINDS.waits[0]), ` ${person(process)} may wait ${manner} `,
    others.length > 0 && el("small", {}, `while ${people(others)} ${others.length === 1 ? "goes" : "go"} on`),
    button("way", 0, "Lay out the way to the round, at its beginning"),
    again.length > 0 && button("round", first.length, "Lay out the round, at its beginning"));
}

// Whether a schedule of this page can go on for ever.
const goesOnForEver = () => WAITS.length > 0 || NODES.some((_, n) => HEIGHTS[n] === Infinity);

function showEnds(s) {
  const chips = outcomes.slice(0, showsAll ? outcomes.length : MOST_CHIPS).map(o => endChip(s, o));
  if (chips.length < outcomes.length) chips.push(el("li", {}, el("button", { id: "all", onclick: showEveryChip }, `all ${outcomes.length} ends`)));
  const sum = says => el("li", { class: "sum" }, says);
  const ending = goesOnForEver() ? "schedules of any length end so or go on for ever" : isWholeGraph ? "every schedule ends so" : "so end schedules of any length";
  const head = D.isWhole ? number(D.found) + " states: " + (outcomes.length ? ending : "no schedule of any length ends")
    : `more than ${number(D.found)} states: so end schedules of up to ${D.within} choices`;
  const waits = D.waits === null ? [sum("who may wait for ever is not known")]
    : WAITS.length ? WAITS.map(wait => waitChip(s, wait))
      : goesOnForEver() || !isWholeGraph ? [sum("nobody may wait for ever while others go on")] : [];
  const cut = isWholeGraph ? [] : [sum(`this page goes on from ${number(D.states)} states, not from all`)];
  $("outcomes").replaceChildren(sum(head), ...chips, ...waits, ...cut);
}

// Where the page has all states it has all ends, and no others.
function checkEnds() {
  const text = ends => [...new Set(ends.map(endText))].sort().join();
  if (isWholeGraph && D.isWhole && (text(ENDS) !== text(outcomes.map(o => o.end)) || D.found !== NODES.length)) {
    $("warn").textContent = "The ends of this page are not those of the search: trust neither, and tell of the fault.";
  }
}
"##;
