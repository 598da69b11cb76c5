//! The script of the page: what a choice takes away, where nothing else can come any more, a prediction, and another schedule.

/// Text of the script.
pub const TEACH: &str = r##"// ---- what a choice takes away ----

const MOST_NAMED = 3;

function outcomeShown(outcome, output) {
  const [key, rest] = outcome.split("\t");
  const shown = isBrief ? "" : joined(output, rest);
  return [mark(kindOf(outcome)), key.slice(kindOf(outcome).length), shown && " \u00b7 displays " + shown];
}

const outcomesShown = (keys, output) => keys.map((key, i) => [i > 0 && ", ", outcomeShown(key, output)]);

// Where the outcomes are more than a button names: which of them can't come after a choice, or which alone still can.
function takenAway(s, edge) {
  const here = [...ways(s.node, K - s.used).keys()].sort(byKind);
  const then = new Set(through(edge, K - s.used).map(([outcome]) => outcome));
  const lost = here.filter(key => !then.has(key) && kindOf(key) !== "beyond");
  if (outcomes.length <= 6 || then.has("beyond\t") || !lost.length) return null;
  const output = s.output.join(" ");
  const kept = here.filter(key => then.has(key));
  const says = (...what) => el("small", { class: "loss" }, what);
  if (lost.length <= MOST_NAMED) return says("takes away ", outcomesShown(lost, output));
  if (kept.length <= MOST_NAMED) return says("then only ", outcomesShown(kept, output));
  const kinds = [...new Set(lost.map(kindOf))].filter(kind => !kept.some(key => kindOf(key) === kind));
  return says(`takes away ${lost.length} of ${here.length} outcomes`, kinds.length > 0 && [", all that are ", kinds.map((kind, i) => [i > 0 && " or ", mark(kind)])]);
}

// ---- the point of no return ----

// The keys of what can come after each number of choices.
function comingAt(s, i) {
  if (s.nodes[i] < 0 || i === s.used) return [endText(s.end) + "\t" + (isEndless ? "" : s.output.slice(shownUpTo(s, i)).join(" "))];
  return isEndless ? prospectsAt(s.nodes[i]).map(({ key, wait }) => (wait ? "wait" : key) + "\t") : [...ways(s.nodes[i], K - i).keys()];
}

const shownUpTo = (s, i) => s.rows.filter(r => r.used <= i && r.event.kind === "o").length;

// After which choice of a schedule nothing but its end can come any more, or where it is the only end from the beginning, nothing but its
// outcome. Null where it has no end, and where it had no choice.
function pointOf(s) {
  if (!s.end || s.end === BEYOND || s.end.kind.endsWith("-limit")) return null;
  const coming = (i, same) => new Set(comingAt(s, i).map(same));
  const first = same => s.nodes.findIndex((_, i) => coming(i, same).size === 1);
  const byEnd = first(key => key.split("\t")[0]);
  const isOutcome = byEnd === 0 && !isEndless && !isBrief;
  const same = isOutcome ? key => key : key => key.split("\t")[0];
  const place = isOutcome ? first(same) : byEnd;
  if (place <= 0) return null;
  // Where the page ends it is not known what else can come: it has to be known of the choice before.
  const before = [...coming(place - 1, same)].filter(key => kindOf(key) !== "beyond");
  return before.length > 1 ? { place, isOutcome } : null;
}

// ---- predict first ----

let predicts = false;

// What could have come of the last choice and of the others, for who has predicted it.
function reviewShown(s, old) {
  if (!predicts || at === 0 || old.node < 0) return null;
  const taken = word[at - 1];
  const says = p => {
    const edge = edgeOf(old.node, p);
    const could = isEndless ? el("small", {}, listed(prospectsAfter(edge))) : outlook(through(edge, K - old.used), old.output.join(" "));
    return el("div", { class: p === taken ? "taken" : "" }, disc(p, p === taken ? "ready" : "unstarted"), p === taken ? " you chose " : " ", person(p), ": ", could);
  };
  return el("div", { class: "card", id: "review" }, el("p", {}, el("strong", {}, "What could come of it")), NODES[old.node].options.map(says));
}

// ---- another schedule of an outcome ----

// A number below this, as likely as any other.
function below(count) {
  let digits = "";
  while (digits.length < count.toString().length + 9) digits += String(Math.random()).slice(2, 9);
  return BigInt(digits) % count;
}

const isSameWord = (a, b) => a.length === b.length && a.every((p, i) => p === b[i]);

// Each schedule of the outcome in this page is as likely as any other; those of any length go at random, and then straight to their end.
function walkTo(outcome) {
  const numbers = [];
  isInside = true;
  for (let s = play(numbers); !s.end; s = play(numbers)) {
    const p = isEndless ? stepTo(outcome, s) : drawnStep(outcome, s);
    if (p === undefined) break;
    numbers.push(p);
  }
  isInside = false;
  return hasEnded(play(numbers)) ? numbers : null;
}

function drawnStep(outcome, s) {
  const wanted = behind(outcome.key, s.output.join(" "));
  const counts = NODES[s.node].options.map(p => {
    const found = through(edgeOf(s.node, p), K - s.used).filter(([key]) => isBrief || !D.isWhole ? key.split("\t")[0] === endText(outcome.end) : key === wanted);
    return total(found.map(([, n]) => n));
  });
  const sum = total(counts);
  if (sum === 0n) return undefined;
  let drawn = below(sum);
  return NODES[s.node].options[counts.findIndex(n => (drawn -= n) < 0n)];
}

const MOST_AT_RANDOM = 20;

function stepTo(outcome, s) {
  if (!outcome.far) outcome.far = distancesTo(outcome);
  const far = p => {
    const edge = edgeOf(s.node, p);
    if (edge < 0) return Infinity;
    const { to } = EDGES[edge];
    return to >= 0 ? outcome.far[to] : endText(ENDS[-1 - to]) === endText(outcome.end) ? 0 : Infinity;
  };
  const can = NODES[s.node].options.filter(p => far(p) < Infinity);
  const nearest = Math.min(...can.map(far));
  const open = s.used < MOST_AT_RANDOM ? can : can.filter(p => far(p) === nearest);
  return open[Math.floor(Math.random() * open.length)];
}

// How many choices there are from each state to this end at least.
function distancesTo(outcome) {
  const far = NODES.map(() => Infinity);
  const open = statesWhere(hasEnd(endText(outcome.end)));
  open.forEach(n => far[n] = 1);
  for (const n of open) {
    for (const before of PREVIOUS[n]) {
      if (far[before] < Infinity) continue;
      far[before] = far[n] + 1;
      open.push(before);
    }
  }
  return far;
}

// A schedule of the outcome that is not the one that is laid out, where a few tries find one.
function another(outcome) {
  for (let tries = 0; tries < 30; tries++) {
    const found = walkTo(outcome);
    if (!found) return null;
    if (!isSameWord(found, word)) return found;
  }
  return null;
}

function anotherButton(outcome) {
  if (outcome.count === 1n) return null;
  if (outcome.hasMore === undefined) outcome.hasMore = walkTo(outcome) !== null;
  const lays = () => {
    const found = another(outcome);
    if (!found) return show("There is no other schedule of it in this page. ");
    [word, at] = [found, 0];
    show();
  };
  return outcome.hasMore && el("button", { id: "another" + outcomes.indexOf(outcome), title: "Lay out another schedule of it, at random", "aria-label": `another: ${outcome.key.replace("\t", " ")}`, onclick: lays }, "another");
}
"##;
