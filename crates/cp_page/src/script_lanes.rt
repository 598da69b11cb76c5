//! The script of the page: the picture of what is laid out.

/// Text of the script.
pub const LANES: &str = r##"// ---- the lanes of all that is laid out: what lies ahead is pale ----

const H = 28;
const HEAD = 68; // The height of the heads.
const TOP = 4;
const CHOICE = 28; // The width of a number that can be clicked at.
const LEAST_SCALE = .86; // So that what can be clicked at has 24 pixels.
const [GATE, DELAY, CONTINUE, LOST] = ["\u25a5", "\u2016", "\u25b7", "\u2205"];
const LABEL = "12.5px";
const LOUD = "700 13px";
const pen = document.createElement("canvas").getContext("2d");

function widthOf(text, look = LABEL) {
  pen.font = look + ' system-ui, "DejaVu Sans", sans-serif';
  return pen.measureText(text).width;
}

const fits = (text, width, look) => widthOf(text, look) <= width;

function cut(text, width, look) {
  if (fits(text, width, look)) return text;
  let end = text.length - 1;
  while (end > 1 && !fits(text.slice(0, end) + "\u2026", width, look)) end--;
  return text.slice(0, end) + "\u2026";
}

const text = (x, y, kind, ...what) => svg("text", { x, y, class: kind }, ...what);
const rect = (x, y, width, height, rx, kind, more) => svg("rect", { x, y, width, height: Math.max(2, height), rx, class: kind, ...more });

// What stands in a lane: the first of these that there is room for. The sign of what happens is in each of them.
function saying({ kind, m, text, woken }) {
  const call = S[text];
  const full = (kind === "e" || kind === "g") && `${monitor(m)}.${call}`;
  const continues = CONTINUE + (woken.length ? "" : LOST);
  return {
    e: () => [full, call],
    a: () => [call],
    g: () => [`${GATE} ${full} \u2014 gate`, `${GATE} ${call} \u2014 gate`, `${GATE} ${call}`],
    l: () => ["leaves" + (call && ": " + call)],
    d: () => [`${DELAY} delay(${call})`, `${DELAY} ${call}`],
    [isContinue(kind) ? kind : "c"]: () => [`${continues} continue(${call})`, `${continues} ${call}`],
    s: () => ["starts " + D.processes[m][0], D.processes[m][0]],
    o: () => [""],
    x: () => ["ends"],
  }[kind]();
}

// Where things stand: columns of choices, processes, monitors and changes, and a line for each row that is not folded. There is one before
// the row behind the point of no return.
function planOf(all, panel, scale, pointRow) {
  const folds = foldsOf(all);
  const { lineOf, count } = linesOf(all, folds, pointRow);
  const foldAt = i => folds.find(({ from, to }) => i >= from && i <= to);
  const rows = all.filter((_, i) => !foldAt(i));
  const y = i => TOP + lineOf[i] * H + H / 2;
  const n = PROCESSES.length;
  const options = Math.max(2, ...rows.map(r => r.choice ? r.choice.options.length : 0));
  const choices = 42 + CHOICE * options;
  const briefs = folds.map(fold => foldWords(all, fold)[0]);
  const need = 46 + Math.max(0, ...[...rows.map(r => saying(r.event)[0]), ...briefs].map(says => widthOf(says)));
  const changes = Math.max(60, ...rows.map(r => 10 + SWATCH * changed(r).length + widthOf(changed(r).map(c => c[1]).join("   "))));
  const space = (panel.clientWidth / scale - choices - 25 * MONITORS.length - Math.min(changes, 150) - 18) / n;
  const labels = [...rows.map(r => widthOf(saying(r.event).at(-1), LOUD) + 8), ...D.processes.map(([label]) => widthOf(label, LOUD) + 2)];
  const least = Math.min(116, 34 + Math.max(...labels));
  const lane = Math.max(least, Math.min(230, need, space));
  const laneX = p => choices + p * lane;
  const barX = m => laneX(n) + 8 + 25 * m;
  const changeX = barX(MONITORS.length) + 8;
  return { lane, laneX, barX, changeX, width: changeX + changes, bottom: TOP + count * H, y, lineOf, folds, foldAt };
}

// The boxes, waits, arrows, labels and life lines.
function layOut(rows, plan) {
  const { lane, laneX, bottom, y, lineOf, foldAt } = plan;
  const open = PROCESSES.map(() => []);
  const f = { boxes: [], waits: [], arrows: [], labels: [], pills: [], lives: PROCESSES.map(p => [p ? bottom : 0, bottom]) };
  const goesIn = (p, m, from) => {
    const box = { p, m, from, to: bottom + 12, depth: open[p].length };
    f.boxes.push(box);
    open[p].push(box);
  };
  const waits = (p, m, kind, from) => f.waits.push({ p, m, kind, from, to: bottom + 20, isOver: false });
  const endsWait = (p, to) => {
    const wait = f.waits.findLast(w => w.p === p);
    [wait.to, wait.isOver] = [to, true];
  };
  rows.forEach(({ event }, i) => {
    const { kind, p, m, woken, letIn } = event;
    const x = laneX(p) + 24;
    if (!foldAt(i)) f.labels.push([i, labelOf(event, x, y(i), lane - 34 - 5 * open[p].length)]);
    if (kind === "e") goesIn(p, m, y(i) - 11);
    const comesToGate = kind === "w" && woken.length > 0;
    if (kind === "a") {
      endsWait(p, y(i) - 11);
      goesIn(p, m, y(i) - 11);
    }
    if ("lcd".includes(kind) || comesToGate) open[p].pop().to = y(i) + 11;
    if ("gd".includes(kind) || comesToGate) waits(p, m, kind === "d" ? "d" : "g", y(i) + 11);
    for (const q of [...woken, ...letIn]) {
      endsWait(q, y(i) + H / 2 - 1);
      if (kind === "n") waits(q, m, "g", y(i) + H / 2);
      else goesIn(q, m, y(i) + H / 2 - 1);
      const from = q > p ? laneX(p) + lane - 14 : laneX(p) + 5;
      f.arrows.push([from, y(i), laneX(q) + (q > p ? 2 : 24), y(i) + H / 2 - 2, woken.includes(q) ? "" : "in"]);
    }
    if (kind === "s") {
      f.lives[m][0] = y(i);
      const end = x + 14 + widthOf(saying(event)[0]);
      f.arrows.push([Math.min(end, laneX(p) + lane - 12), y(i), laneX(m) + 10, y(i), ""]);
    }
    if (kind === "x") f.lives[p][1] = y(i);
    if (kind === "o" && !foldAt(i)) f.pills.push([i, ...pill(S[event.text], x, y(i))]);
  });
  // What goes in and out within a fold is not seen.
  const isSeen = ({ from, to }) => !plan.folds.some(fold => from > y(fold.from) - H / 2 && to < y(fold.to) + H / 2);
  return { ...f, boxes: f.boxes.filter(isSeen) };
}

function labelOf(event, x, y, space) {
  const { kind } = event;
  const says = saying(event);
  const size = kind === "d" ? LOUD : LABEL;
  const look = kind === "l" || kind === "x" ? "lab dim" : kind === "d" ? "lab loud" : "lab";
  return text(x, y + 4.5, look, says.find(t => fits(t, space, size)) || cut(says.at(-1), space, size));
}

function pill(value, x, y) {
  const width = 14 + widthOf(value, "700 12px");
  return [rect(x - 2, y - 9, width, 18, 9, "dot"), text(x - 2 + width / 2, y + 4.5, "inv", value)];
}

function foldWords(rows, { from, to }) {
  const events = rows.slice(from, to + 1).map(r => r.event);
  return [`${events.length} events${shownBriefly(events)}`, `${events.length} events`, `${events.length}\u00d7`];
}

// A fold: its rectangle, and its words.
function foldShapes(rows, { lane, laneX, y }, fold) {
  const { from } = fold;
  const says = foldWords(rows, fold);
  const x = laneX(rows[from].event.p);
  return [
    rect(x + 20, y(from) - 11, lane - 28, 22, 4, "folded"),
    text(x + 26, y(from) + 4.5, "lab", says.find(t => fits(t, lane - 40)) || says.at(-1)),
  ];
}

// The last values of what changed in these events.
function lastChanges(events) {
  const last = new Map();
  for (const { changes } of events) for (let i = 0; i < changes.length; i += 2) last.set(changes[i], changes[i + 1]);
  return [...last].flat();
}

// [look, words, monitor] of what changed, of a monitor or of a process, which is -1 there.
function changed({ event: { changes } }) {
  const found = new Map();
  for (let i = 0; i < changes.length; i += 2) {
    const [isOwn, owner, name] = D.variables[changes[i]];
    const whose = (isOwn ? owner : monitor(owner)) + ": ";
    const before = found.has(whose) ? found.get(whose)[1] + ", " : whose;
    found.set(whose, [isOwn ? "dim" : "", before + `${S[name]} := ${S[changes[i + 1]]}`, isOwn ? -1 : owner]);
  }
  return [...found.values()];
}

// What changed, with a sign in the colour of its monitor.
const SWATCH = 16;
function changeLetters([look, words, m], j) {
  const space = { dx: j ? 10 : 0 };
  if (m < 0) return svg("tspan", { class: look, ...space }, words);
  return [svg("tspan", { class: "swatch strong " + hue(m), ...space }, isHatched(m) ? "\u25a8" : "\u25a0"), svg("tspan", { dx: 3 }, words)];
}

function optionShapes(r, y) {
  const { p: taken, options, isGate } = r.choice;
  return options.map((p, j) => {
    const takes = () => {
      at = r.used - 1;
      choose(p);
    };
    const x = 34 + CHOICE * j;
    return svg("g", { class: p === taken ? "pick taken" : "pick", onclick: takes },
      rect(x, y - H / 2, CHOICE, H, 0, "hit"), rect(x + 5, y - 9, 18, 18, isGate ? 2 : 9, "opt"),
      text(x + 14, y + 4, "on", String(p)), svg("title", {}, `${p} goes on here`));
  });
}

// A row can be clicked at, and so can the numbers that could be chosen there. A fold is unfolded by a click.
function rowShapes(r, y, width) {
  const goes = () => {
    at = r.used;
    show();
  };
  return [svg("g", { onclick: goes }, rect(0, y - H / 2, width, H, 0, "hit"), svg("title", {}, r.words)), r.choice && optionShapes(r, y)];
}

function foldHit(rows, { y, width }, { from, to }) {
  const unfolds = () => {
    unfolded.add(from);
    show();
  };
  const says = restBriefly(rows.slice(from, to + 1).map(r => r.event));
  return svg("g", { onclick: unfolds, class: "pick" }, rect(0, y(from) - H / 2, width, H, 0, "hit"), svg("title", {}, says + ": a click shows each"));
}

// The patterns of a monitor: `g` of who waits at its gate, `d` of who is delayed, and where it has a hatch `s` of boxes and `b` of bars.
const patternOf = (kind, m) => `url(#${kind}${isHatched(m) ? HUES + m % HUES : m})`;
const filled = (kind, m) => isHatched(m) ? { fill: patternOf(kind, m) } : {};
const softly = m => isHatched(m) ? hue(m) : "soft " + hue(m);
const strongly = m => isHatched(m) ? hue(m) : "strong " + hue(m);

// At the foot of a wait that nobody is left to end.
function crossAt(x, y) {
  return svg("g", { class: "stuck" }, svg("circle", { cx: x, cy: y, r: 7 }), svg("path", { d: `M${x - 3} ${y - 3}l6 6m-6 0l6 -6` }));
}

function monitorShapes(f, { lane, laneX, barX }, isStuck) {
  const boxes = f.boxes.map(({ p, m, from, to, depth }) => [
    rect(laneX(p) - 3 + 6 * depth, from, lane - 8 - 10 * depth, to - from, 5, "box " + softly(m), filled("s", m)),
    rect(barX(m), from, 20, to - from, 4, strongly(m), filled("b", m)),
  ]);
  const waits = f.waits.map(({ p, m, kind, from, to, isOver }) => {
    const isEver = isStuck && !isOver;
    const look = `wait ${hue(m)}${isEver ? " ever" : ""}`;
    return [rect(laneX(p) + 4, from, 16, to - from - 2, 4, look, { fill: patternOf(kind, m) }), isEver && crossAt(laneX(p) + 12, to - 10)];
  });
  return [boxes, waits];
}

const LETTER = 14; // The room that a number in a bar wants.

// Who is inside, in the middle of each bar, or of its part before what lies ahead: that is pale, and its letters are dark.
function barLetters(f, { barX }, now) {
  return f.boxes.map(({ p, m, from, to }) => {
    const [top, low] = now - from > LETTER ? [from, Math.min(to, now)] : [Math.max(from, Math.min(now, to)), to];
    const [x, y] = [barX(m) + 10, (top + low) / 2];
    const isLater = top >= now;
    const disc = isHatched(m) && !isLater && svg("circle", { cx: x, cy: y, r: 8, class: "strong " + hue(m) });
    return low - top > LETTER && svg("g", { class: isLater ? "later" : "" }, disc, text(x, y + 4, "inv held " + hue(m), String(p)));
  });
}

function headShapes({ lane, laneX, barX }) {
  const processes = D.processes.map(([label], p) => [
    rect(laneX(p) + 2, 40, 21, 21, 11, "dot"),
    text(laneX(p) + 12.5, 55, "inv", String(p)),
    text(laneX(p) + 28, 55, "loud", cut(label, lane - 29, LOUD)),
  ]);
  const monitors = D.monitors.map(([label], m) => {
    const short = fits(label, 24, LOUD) ? `translate(${barX(m) + 10 - widthOf(label, LOUD) / 2} 55)` : "";
    const name = svg("g", { transform: short || `translate(${barX(m) + 8} 58) rotate(-40)` }, text(0, 0, "loud", cut(label, 90, LOUD)));
    return svg("g", { class: "head" }, rect(barX(m), 61, 20, 6, 1, strongly(m), filled("b", m)), name);
  });
  return [processes, monitors];
}

function endWords(s) {
  const { kind, error, p, line, cause } = s.end;
  const { output } = s;
  const shown = output.length ? " \u00b7 displayed " + (output.length > 12 ? `${output.slice(0, 3).join(" ")} .. ${output.at(-1)}` : output.join(" ")) : "";
  return (kind === "beyond" ? "? goes on beyond this page" : kindText(kind)) + (error && ` ${error}: ${person(p)}, line ${line}${behindColon(cause)}`) + shown;
}

// The expression of an annotation, of which the first token stands in a line; the whole line where it has more than one annotation or comment.
const OPENING = /^\s*\(\*\s*(?:assert|invariant)/;
function writtenAt(line) {
  const whole = D.source[line - 1].trim();
  const quotes = whole.split('"').length - 1;
  const [first, second = ""] = D.source.slice(line - 1).join("\n").split('"');
  const isBegun = quotes > 0 && OPENING.test(second);
  if (quotes > 2 || quotes === 2 && !isBegun) return whole;
  return (isBegun ? second.replace(OPENING, "") : first).trim().replace(/\*\)$/, "").replace(/\s+/g, " ").trim();
}

// A run error: a cross at its process, of an annotation the expression beside it, and of an invariant a red edge of the monitor's bar.
function errorShapes({ end: { kind, p, line, broken } }, f, { lane, laneX, barX, bottom }) {
  if (kind !== "run-error") return [];
  const [x, y] = [laneX(p) + 12, bottom + 5];
  const cross = svg("path", { d: `M${x - 5} ${y - 5}l10 10m-10 0l10 -10`, class: "cross" });
  if (broken === undefined) return [cross];
  const says = writtenAt(line);
  const isBusy = q => [...f.boxes, ...f.waits].some(b => b.p === q && b.to > bottom);
  const beside = PROCESSES.findIndex((_, q) => q > p && isBusy(q));
  const room = laneX(beside < 0 ? PROCESSES.length : beside) - x - 22;
  const box = f.boxes.findLast(({ m, to }) => m === broken && to > bottom);
  const [from, to] = box ? [box.from, box.to] : [bottom - 6, bottom + 12];
  return [cross, svg("g", {}, svg("title", {}, says), text(x + 12, y + 4.5, "loud broken", cut(says, room, LOUD))),
    broken >= 0 && rect(barX(broken), from, 20, to - from, 4, "edge")];
}

function bracket(y, from, to) {
  const [top, low] = [y(from) - 8, y(to) + 8];
  return svg("path", { d: `M9 ${low}H4V${top}H9`, class: "round", "marker-end": "url(#turn)" });
}

// A bracket at the left of each time that the round at the end is gone.
function roundShapes(s, y) {
  if (s.again >= 0 && s.again < s.rows.length) return [bracket(y, s.again, s.rows.length - 1)];
  const round = roundOf(s);
  if (!round) return [];
  const { numbers } = round;
  const brackets = [];
  for (let from = round.back; from >= 0 && numbers.every((p, i) => p === s.numbers[from + i]); from -= numbers.length) {
    const places = [...s.rows.keys()].filter(i => s.rows[i].used > from && s.rows[i].used <= from + numbers.length);
    brackets.push(bracket(y, places[0], places.at(-1)));
  }
  return brackets;
}

// A line below the choice behind which nothing but the end can come any more.
function pointShapes(s, point, { y, width, bottom }) {
  const row = rowOf(s, point);
  const low = row < s.rows.length ? y(row) - H / 2 : bottom;
  const words = `\u2691 point of no return: from here on only ${kindText(s.end.kind)}${point.isOutcome ? ", displayed " + (s.output.join(" ") || "nothing") : ""}`;
  return svg("g", { class: s.end.kind },
    svg("line", { x1: 0, x2: width, y1: low - 2, y2: low - 2, class: "point" }),
    rect(22, low - 22, widthOf(words, LOUD) + 8, 16, 3, "plate"),
    text(26, low - 10, "point", words));
}

// The row below the one of the choice behind which there is no return.
const rowOf = (s, { place }) => Math.min(s.rows.length, s.rows.filter(r => r.used < place).length + 1);

function pictureOf(s, plan, point) {
  const { rows } = s;
  const { laneX, changeX, width, bottom, y, lineOf, folds, foldAt } = plan;
  const shown = [...rows.keys()].filter(i => !foldAt(i));
  const lines = [...rows.keys()].filter(i => i === 0 || lineOf[i] !== lineOf[i - 1]);
  const ahead = rows.findIndex(r => r.used > at);
  const now = ahead < 0 ? Infinity : y(ahead) - H / 2;
  const f = layOut(rows, plan);
  const isNow = i => rows[i].used === at && at > 0;
  const pale = (i, ...what) => svg("g", { class: y(i) > now ? "later" : "" }, ...what);
  const columns = (i, number, row) => pale(i, text(12, y(i) + 4, "dim", number),
    text(changeX, y(i) + 4, "lab", changed(row).map(changeLetters)));
  const folded = folds.map(fold => [fold.from, ...foldShapes(rows, plan, fold)]);
  return [
    lines.map(i => (lineOf[i] % 2 === 0 || isNow(i)) && rect(0, y(i) - H / 2, width, H, 0, isNow(i) ? "band at" : "band")),
    f.lives.map(([from, to], p) => svg("line", { x1: laneX(p) + 12, x2: laneX(p) + 12, y1: from, y2: to, class: "life" })),
    monitorShapes(f, plan, s.end && isStuck(s.end.kind)),
    folded.map(([, shape]) => shape),
    f.pills.map(([, shape]) => shape),
    shown.map(i => svg("circle", { cx: laneX(rows[i].event.p) + 12, cy: y(i), r: rows[i].event.kind === "x" ? 3 : 4.5, class: "dot" })),
    f.arrows.map(([x1, y1, x2, y2, look]) => svg("line", { x1, y1, x2, y2, class: "arrow " + look, "marker-end": "url(#tip)" })),
    ahead >= 0 && rect(0, now, width, bottom - now + 30, 0, "ahead"),
    [...f.labels, ...f.pills.map(([i, , letters]) => [i, letters]), ...folded.map(([i, , letters]) => [i, letters])].map(([i, letters]) => pale(i, letters)),
    barLetters(f, plan, now),
    shown.map(i => columns(i, String(i + 1), rows[i])),
    folds.map(({ from, to }) => columns(from, `${from + 1}\u2013${to + 1}`, { event: { changes: lastChanges(rows.slice(from, to + 1).map(r => r.event)) } })),
    roundShapes(s, y),
    point && pointShapes(s, point, plan),
    s.end && errorShapes(s, f, plan),
    s.end && text(26, bottom + 44, "loud ended " + s.end.kind, endWords(s)),
    shown.map(i => rowShapes(rows[i], y(i), width)),
    folds.map(fold => foldHit(rows, plan, fold)),
  ];
}

// Stripes for who waits at a gate, and dots for who is delayed, in the colour of each monitor. A hatch crosses them, and boxes and bars have it too.
function patterns() {
  const drawn = (id, size, ...shapes) => svg("pattern", { id, width: size, height: size, patternUnits: "userSpaceOnUse" }, shapes);
  const each = m => {
    const stripes = svg("path", { d: "M-2 8L8 -2M3 13L13 3", class: "wait " + hue(m) });
    const dot = svg("circle", { cx: 3, cy: 3, r: 1.4, class: "strong " + hue(m) });
    if (!isHatched(m)) return [drawn("g" + m, 10, stripes), drawn("d" + m, 6, dot)];
    const ground = look => rect(0, 0, 10, 10, 0, look + " " + hue(m));
    const hatch = () => svg("path", { d: "M2 -2L12 8M-3 3L7 13", class: "hatch" });
    return [
      drawn("g" + m, 10, stripes, svg("path", { d: "M2 -2L12 8M-3 3L7 13", class: "wait " + hue(m) })),
      drawn("d" + m, 6, dot, svg("path", { d: "M0 0L6 6", class: "wait " + hue(m) })),
      drawn("s" + m, 10, ground("soft"), hatch()),
      drawn("b" + m, 10, ground("strong"), hatch()),
    ];
  };
  return MONITORS.slice(0, 2 * HUES).map(each).flat();
}

function wordsList(s) {
  const told = r => el("li", {},
    r.choice && `${r.choice.p} of ${r.choice.options.join(", ")}: `, r.words,
    r.line > 0 && el("small", {}, ", line " + r.line), changed(r).map(c => " \u00b7 " + c[1]));
  const why = s.end && s.end.kind === "all-waiting" ? reasonsOf(s).map(reason => el("p", {}, reason)) : [];
  const list = el("details", { id: "list" }, el("summary", { id: "listed" }, "The same in words"), el("ol", {}, s.rows.map(told)), why);
  list.open = $("list") !== null && $("list").open;
  return list;
}

function pointButton(s, point) {
  const goes = () => {
    at = point.place;
    show();
  };
  return el("button", { id: "point", title: "Go to the choice behind which nothing else can come any more", onclick: goes },
    `\u2691 point of no return: ${afterChoices(point.place)}`);
}

// On paper the lanes are cut between rows, so that no sheet is left empty.
const SHEET = 20 * H;
function cutLanes() {
  const picture = $("lanes");
  const [, , width, height] = picture.getAttribute("viewBox").split(" ").map(Number);
  const scale = picture.getAttribute("width") / width;
  for (let top = height - (height - TOP) % SHEET; top >= 0; top -= SHEET) {
    const from = top > TOP ? top : 0;
    const rest = Math.min(height, Math.max(TOP, top) + SHEET) - from;
    if (rest > 0) picture.after(svg("svg", { class: "sheet", width: width * scale, height: rest * scale, viewBox: `0 ${from} ${width} ${rest}` }, picture.firstChild.cloneNode(true)));
  }
}

function showLanes(s) {
  const { rows } = s;
  const panel = $("picture");
  const point = predicts ? null : pointOf(s);
  const usual = parseFloat(getComputedStyle(panel).fontSize) / 15;
  const plan = planOf(rows, panel, usual, point ? rowOf(s, point) : -1);
  // A picture that is a little too wide is made smaller.
  const scale = Math.min(usual, Math.max(LEAST_SCALE, .8 * usual, (panel.clientWidth - 4) / plan.width));
  const drawn = (height, about, shapes) => svg("svg", { width: plan.width * scale, height: height * scale, viewBox: `0 0 ${plan.width} ${height}`, ...about }, shapes);
  const heads = el("div", { class: "heads" },
    el("p", {}, keyButton(), point && pointButton(s, point)),
    drawn(HEAD, { role: "img", "aria-label": "Processes and monitors" }, headShapes(plan)));
  const about = { id: "lanes", role: "img", "aria-label": `Lanes of ${rows.length} events; the same in words is below` };
  const picture = drawn(plan.bottom + 62, about, [svg("g", {}, pictureOf(s, plan, point))]);
  const { scrollTop, scrollLeft } = panel;
  panel.replaceChildren(heads, ...(showsKey ? [signs()] : []), picture, wordsList(s));
  [panel.scrollTop, panel.scrollLeft] = [scrollTop, scrollLeft];
  const top = heads.offsetHeight;
  const ahead = rows.findIndex(r => r.used > at);
  const start = picture.getBoundingClientRect().top - panel.getBoundingClientRect().top + panel.scrollTop;
  const low = start + (ahead < 0 ? plan.bottom : plan.y(ahead) - H / 2) * scale;
  const isSeen = low + 3 * H <= panel.scrollTop + panel.clientHeight && low - 3 * H >= panel.scrollTop + top;
  if (!isSeen) panel.scrollTop = low - panel.clientHeight + 4 * H;
}
"##;
