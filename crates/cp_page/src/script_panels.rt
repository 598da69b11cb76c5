//! The script of the page: source, processes, monitors and outcomes.

/// Text of the script.
pub const PANELS: &str = r##"// ---- the source ----

const RESERVED = new RegExp("\\b(array|begin|case|class|const|cycle|div|do|downto|else|end|entry|for|function|if|in|init|mod|monitor|not|of|or|and"
  + "|procedure|process|program|queue|record|repeat|set|then|to|type|until|var|while|delay|continue|display|empty)\\b");

// A comment is between quotation marks, or between (* and *).
let remark = "";
function sourceLine(text, i) {
  const indent = /^ */.exec(text)[0];
  const code = el("code", {});
  for (const part of text.slice(indent.length).split(/("|\(\*|\*\))/)) {
    const begins = !remark && (part === '"' || part === "(*");
    const ends = (remark === '"' && part === '"') || (remark === "(*" && part === "*)");
    if (begins) remark = part;
    if (remark) code.append(el("span", { class: "remark" }, part));
    else part.split(RESERVED).forEach((piece, j) => code.append(j % 2 ? el("b", {}, piece) : piece));
    if (ends) remark = "";
  }
  return el("li", {}, el("span", { class: "who" }), el("span", { class: "no" }, String(i + 1)), el("span", {}, indent), code);
}
const lines = D.source.map(sourceLine);

// The first sentence of the comment with which the source begins, as in pictures: up to a dot that a blank follows and that is none of an
// abbreviation, to an empty line, or to the end of the comment. There is none where the comment has expectations.
function titleOf() {
  const first = D.source.findIndex(line => line.trim());
  const [begun = "", ...more] = D.source.slice(Math.max(0, first)).map(line => line.trim());
  if (!/^"(?!\(\*)/.test(begun)) return "";
  const end = more.indexOf("");
  const comment = [begun.slice(1), ...more.slice(0, end < 0 ? more.length : end)].join(" ").split('"')[0];
  const words = comment.split(/\s+/).filter(piece => piece);
  const last = words.findIndex((piece, i) => piece.endsWith(".") && !/^[a-z0-9]/.test(words[i + 1] || ""));
  return words.slice(0, last < 0 ? words.length : last + 1).join(" ").replace(/\.$/, "");
}

const isOver = (s, p) => s.status[p] === "ended" || s.status[p] === "unstarted";

// Who waits stands at its call or its delay; who is ready at its next statement.
function standsAt(s, p) {
  if (isOver(s, p)) return 0;
  return (s.status[p] === "ready" && D.views[s.view[p]][0]) || s.line[p] || 0;
}

function showSource(s, fresh) {
  const stands = PROCESSES.map(p => standsAt(s, p));
  lines.forEach((row, i) => {
    const here = PROCESSES.filter(p => stands[p] === i + 1);
    const isHere = here.some(p => s.status[p] === "ready");
    row.firstChild.replaceChildren(...here.map(p => disc(p, s.status[p])));
    row.className = (isHere ? "here " : "") + (fresh.some(r => r.line === i + 1) ? "done" : "");
  });
  scrollTo([...fresh.map(r => r.line), ...stands].filter(line => line));
}

function scrollTo(wanted) {
  const panel = $("text");
  const tops = wanted.map(line => lines[line - 1].offsetTop - panel.offsetTop);
  const low = Math.min(...tops);
  const high = Math.max(...tops) + 40;
  const space = panel.clientHeight;
  const isSeen = low >= panel.scrollTop && high <= panel.scrollTop + space;
  if (tops.length && !isSeen) panel.scrollTop = high - low < space ? (low + high - space) / 2 : tops[0] - space / 2;
}

// ---- who goes on ----

const variablesOf = (isOwn, owner) => [...D.variables.keys()].filter(i => D.variables[i][0] === isOwn && D.variables[i][1] === owner);

// The variables of a process and of its open calls, by their names.
function ownOf(s, p) {
  const own = new Map(variablesOf(1, p).map(i => [S[D.variables[i][2]], s.values[i]]));
  for (const f of D.views[s.view[p]][1]) {
    const [name, ...pairs] = D.frames[f];
    for (let i = 0; i < pairs.length; i += 2) own.set(`${S[name]}: ${S[pairs[i]]}`, S[pairs[i + 1]]);
  }
  return own;
}

function valueShown(label, value, old) {
  const isNew = old !== undefined && old !== value;
  return el("span", { class: isNew ? "value new" : "value", title: isNew && "was " + old }, `${label} = ${value}`);
}

const callOf = (s, p) => s.calls[p].at(-1) || { monitor: 0, text: "" };

function statusOf(s, p) {
  const inside = MONITORS.filter(m => s.holder[m] === p).map(monitor).join(", ");
  const call = callOf(s, p);
  const is = {
    unstarted: () => "not started",
    ended: () => "has ended",
    ready: () => "ready",
    gate: () => `at the gate for ${monitor(call.monitor)}.${call.text}`,
    delayed: () => `delayed in ${monitor(call.monitor)}.${s.place[p]}`,
  }[s.status[p]]();
  return is + (inside && (s.status[p] === "ready" ? ", inside " : ", still inside ") + inside);
}

const inSeries = numbers => (numbers.length > 1 ? numbers.slice(0, -1).join(", ") + " and " : "") + numbers.at(-1);

// Why nobody goes on, in the words of `./show trace`: since which event each waits in its queue, which entries continue it, when that was in
// vain, and who could do so and waits.
function reasonsOf(s) {
  const numbersOf = is => s.rows.flatMap(({ event }, i) => (is(event) ? [i + 1] : []));
  return s.end.why.map(([p, continuing, callers]) => {
    const since = numbersOf(e => e.kind === "d" && e.p === p).at(-1);
    const lost = numbersOf(e => isContinue(e.kind) && !e.woken.length && e.m === callOf(s, p).monitor && S[e.text] === s.place[p]);
    return `${person(p)} since event ${since}: ${continuing}${lost.length ? "; signalled in vain at " + inSeries(lost) : ""}${callers}`;
  });
}

function endCard(s) {
  const { kind, line } = s.end;
  const waiting = kind === "all-waiting" || isAlone(kind) ? PROCESSES.filter(p => !isOver(s, p) && s.status[p] !== "ready") : [];
  return el("div", { class: "card " + kind, id: "end" },
    el("p", {}, el("strong", {}, KINDS[kind][0] + " " + endSentence(s.end))),
    line > 0 && el("p", { class: "value" }, D.source[line - 1].trim()),
    waiting.map(p => el("p", {}, disc(p, s.status[p]), ` ${D.processes[p][0]} is ${statusOf(s, p)}`)),
    kind === "all-waiting" && reasonsOf(s).map(reason => el("p", { class: "why" }, reason)),
    s.end === BEYOND && onwardShown(s));
}

// What can still come beyond the page, if the page knows it.
function onwardShown(s) {
  const counts = isEndless ? [] : [...ways(s.node, K - s.used)];
  const isKnown = counts.length > 0 && counts.every(([outcome]) => kindOf(outcome) !== "beyond");
  return isKnown && el("p", { id: "onward" }, outlook(counts, s.output.join(" ")));
}

// A part for each outcome, or where there are many for each kind. There is no bar where it is not known how many lead on to which.
function outlook(counts, output) {
  const sum = total(counts.map(([, n]) => n));
  const parts = new Map();
  for (const [outcome, n] of counts.sort((a, b) => byKind(a[0], b[0]))) {
    const isNamed = outcomes.length > 1 && outcomes.length <= 6 && !isBrief && kindOf(outcome) !== "beyond";
    const label = kindOf(outcome) + "\t" + (isNamed ? joined(output, outcome.split("\t")[1]) : "");
    parts.set(label, (parts.get(label) || 0n) + n);
  }
  const list = [...parts];
  const leaves = list.some(([label]) => kindOf(label) === "beyond");
  const head = !leaves ? schedules(sum) + ": " : list.length > 1 && "at least ";
  const shares = list.map(([label, n], i) => {
    const share = el("i", { class: kindOf(label) + (i % 2 ? " second" : "") });
    share.style.flexGrow = Number(n * 100000n / sum) / 1000 + .01;
    return share;
  });
  const says = ([label, n], i) => {
    const shown = label.split("\t")[1];
    return [i > 0 && ", ", (leaves || list.length > 1) && number(n) + " ", mark(kindOf(label)), shown && " " + shown];
  };
  return [!leaves && el("span", { class: "bar", "aria-hidden": "true" }, shares), el("small", {}, head, list.map(says))];
}

const keyOf = p => "0123456789abcdef"[p];

function processCard(s, old, p) {
  const options = s.end ? [] : NODES[s.node].options;
  const line = standsAt(s, p);
  const [label, type] = D.processes[p];
  const was = ownOf(old, p);
  const own = isOver(s, p) ? [] : [...ownOf(s, p)];
  const look = options.includes(p) ? " now" : isOver(s, p) ? " off" : "";
  const head = [disc(p, s.status[p]), " ", el("h3", {}, label), " ", el("small", {}, type), " ", statusOf(s, p), line > 0 && el("small", {}, ", line " + line)];
  const values = own.map(([name, value]) => valueShown(name, value, was.get(name)));
  return el("div", { class: "card" + look }, el("p", {}, head), own.length > 0 && el("p", {}, values), options.includes(p) && choiceButton(s, p));
}

// What happens up to the next choice if this process is chosen, and what can still come of it, where that is not to be predicted.
function choiceButton(s, p) {
  const edge = edgeOf(s.node, p);
  const does = briefly(EDGES[edge].events, e => (e.p === p ? "" : e.p + " ") + wordsOf(e)) || "goes on";
  const then = () => isEndless ? lossShown(s, edge) : [outlook(through(edge, K - s.used), s.output.join(" ")), takenAway(s, edge)];
  const look = word[at] === p ? "go next" : "go";
  return el("button", { class: look, id: "go" + p, onclick: () => choose(p) },
    el("kbd", {}, keyOf(p)), " ", does, !predicts && then());
}

function monitorCard(s, old, m) {
  const [label, type] = D.monitors[m];
  const delayed = PROCESSES.filter(p => s.status[p] === "delayed" && callOf(s, p).monitor === m);
  const inQueue = name => delayed.filter(p => s.place[p] === name || s.place[p].startsWith(name + "["));
  const variable = i => {
    const [, , name, value] = D.variables[i];
    if (value >= 0) return valueShown(S[name], s.values[i], old.values[i]);
    const waiting = inQueue(S[name]).map(p => [s.place[p].slice(S[name].length), disc(p, "delayed")]);
    return el("span", { class: "value" }, S[name] + ": ", waiting.length ? waiting : "empty");
  };
  const holder = s.holder[m];
  const inside = holder === null ? "nobody inside" : ["inside ", disc(holder, "ready")];
  const line = s.gate[m].length > 0 && [" \u00b7 at the gate ", s.gate[m].map(p => disc(p, "gate"))];
  return el("div", { class: `card monitor ${hue(m)}${isHatched(m) ? " hatched" : ""}` },
    el("p", {}, el("h3", {}, label), " ", el("small", {}, type), " \u00b7 ", inside, line), el("p", {}, variablesOf(0, m).map(variable)));
}

const recent = values => (values.length > 60 ? "\u2026 " : "") + values.slice(-60).join(" ");

function showPlay(s, old) {
  const gate = s.end ? -1 : NODES[s.node].gate;
  const question = gate < 0 ? "Who goes on?" : `Who is let in to ${monitor(gate)}?`;
  $("play").replaceChildren(
    ...[reviewShown(s, old), ...(isEndless ? [roundShown(s), !s.end && !predicts && prospectsLine(s)] : [])].filter(part => part),
    s.end ? endCard(s) : el("h2", {}, question),
    ...PROCESSES.map(p => processCard(s, old, p)),
    ...(MONITORS.length ? [el("h2", {}, "Monitors")] : []),
    ...MONITORS.map(m => monitorCard(s, old, m)),
    el("p", {}, el("small", {}, "displayed so far: "), el("span", { class: "value" }, recent(s.output) || "nothing")));
}

// ---- the outcomes ----

const MOST_CHIPS = 12;
let showsAll = false;

// How many of the ways on have an outcome; undefined where none has.
function leftOf(here, outcome, shown) {
  if (D.isWhole && !isBrief) return here.get(behind(outcome.key, shown));
  const same = [...here].filter(([key]) => key.split("\t")[0] === endText(outcome.end)).map(([, n]) => n);
  return same.length ? total(same) : undefined;
}

function layButton(text, numbers, title, outcome) {
  const lays = () => {
    [word, at] = [numbers, 0];
    show();
  };
  return numbers && el("button", { id: text + outcomes.indexOf(outcome), title, "aria-label": `${text}: ${outcome.key.replace("\t", " ")}`, onclick: lays }, text);
}

// A first schedule is laid out where the page has all states along it.
const playable = numbers => numbers && play(numbers).refused === null && (play(numbers).end || BEYOND) !== BEYOND ? numbers : null;

function outcomeChip(s, here, isPart, outcome) {
  const { kind, error, p, line } = outcome.end;
  const left = leftOf(here, outcome, s.output.join(" "));
  const of = outcome.count === null ? "" : number(outcome.count);
  const rest = left ? (isPart ? "at least " : "") + number(left) : isPart ? "?" : "none";
  const isHidden = predicts && !s.end;
  const says = hasEnded(s) ? (left ? "here" : "") : s.used && of && !isHidden ? `${rest} of ${of} left` : of;
  if (outcome.playable === undefined) outcome.playable = playable(outcome.first);
  return el("li", { class: kind + (left || isPart || isHidden ? "" : " gone") },
    mark(kind), error && ` ${error}: ${person(p)}, line ${line}`, outcome.output && " \u00b7 displays " + outcome.output, " ",
    el("small", { title: of && outcome.count + " schedules" }, says),
    layButton("simplest", simplest(outcome), "Lay out its schedule with the fewest switches", outcome),
    layButton("first", outcome.playable, "Lay out its first schedule", outcome),
    anotherButton(outcome));
}

const showEveryChip = () => {
  showsAll = true;
  show();
};

function showOutcomes(s) {
  if (isEndless) return showEnds(s);
  const here = hasEnded(s) ? new Map([[endText(s.end) + "\t", 1n]]) : ways(s.node, K - s.used);
  const isPart = [...here.keys()].some(outcome => kindOf(outcome) === "beyond");
  const chips = outcomes.slice(0, showsAll ? outcomes.length : MOST_CHIPS).map(o => outcomeChip(s, here, isPart, o));
  if (chips.length < outcomes.length) chips.push(el("li", {}, el("button", { id: "all", onclick: showEveryChip }, `all ${outcomes.length} outcomes`)));
  if (D.more) chips.push(el("li", { class: "sum" }, `and ${D.more} outcomes more`));
  const all = () => (D.more ? "more than " : "") + schedules(total(outcomes.map(o => o.count)));
  const head = D.isWhole ? all() : "too many schedules to count; " + (outcomes.length ? "found:" : "no end was found");
  const cut = isWholeGraph || !D.isWhole ? [] : [el("li", { class: "sum" }, `this page goes on from ${number(D.states)} states, not from all`)];
  $("outcomes").replaceChildren(el("li", { class: "sum" }, head), ...chips, ...cut);
}
"##;
