//! The script of the page: the key to the signs of the lanes.

/// Text of the script.
pub const KEY: &str = r##"// ---- the key to the signs ----

let showsKey = false;

const sample = (...shapes) => svg("svg", { width: 44, height: 24, viewBox: "0 0 44 24", "aria-hidden": "true" }, shapes);
const numberAt = (look, kind, rx) => svg("g", { class: look }, svg("rect", { x: 11, y: 2, width: 20, height: 20, rx, class: kind }), svg("text", { x: 21, y: 16, class: "on" }, "1"));
const arrowAt = look => sample(svg("line", { x1: 4, y1: 12, x2: 38, y2: 12, class: "arrow " + look, "marker-end": "url(#tip)" }));
const waitAt = (kind, look) => svg("rect", { x: 14, y: 2, width: 16, height: 20, rx: 4, class: "wait m0 " + look, fill: `url(#${kind}0)` });
const signAt = sign => svg("text", { x: 22, y: 17, class: "on sign" }, sign);

function signs() {
  const all = [
    [sample(numberAt("taken", "opt", 10)), "was chosen to go on"],
    [sample(numberAt("", "opt", 10)), "could have been chosen: a click takes it"],
    [sample(numberAt("", "opt", 2)), "could have been let in"],
    [sample(svg("rect", { x: 6, y: 3, width: 32, height: 18, rx: 5, class: "box soft m0" })), "inside a monitor, which has this colour"],
    [sample(svg("rect", { x: 12, y: 2, width: 20, height: 20, rx: 4, class: "strong m0" }), svg("text", { x: 22, y: 16, class: "inv held m0" }, "1")), "who is inside, in the column of the monitor"],
    [sample(waitAt("g", "")), "waits at the gate"],
    [sample(signAt(GATE)), "comes to the gate, and somebody is inside"],
    [sample(waitAt("d", "")), "waits in a queue"],
    [sample(signAt(DELAY)), "delay"],
    [sample(signAt(CONTINUE)), "continue"],
    [sample(signAt(CONTINUE + LOST)), "continue where nobody waits"],
    [sample(waitAt("d", "ever"), crossAt(22, 14)), "nobody is left who could end the wait"],
    [sample(svg("path", { d: "M16 6l12 12m-12 0l12 -12", class: "cross" })), "a run error"],
    [sample(svg("rect", { x: 12, y: 2, width: 20, height: 20, rx: 4, class: "strong m0" }), svg("rect", { x: 12, y: 2, width: 20, height: 20, rx: 4, class: "edge" })), "whose invariant is broken"],
    [sample(svg("text", { x: 17, y: 17, class: "sign" }, svg("tspan", { class: "swatch strong m0" }, "\u25a0"))), "what changed in the monitor of this colour"],
    [arrowAt(""), "is started or woken"],
    [arrowAt("in"), "is let in at the gate"],
    [sample(svg("rect", { x: 9, y: 3, width: 26, height: 18, rx: 9, class: "dot" }), svg("text", { x: 22, y: 16, class: "inv" }, "7")), "is displayed"],
    [sample(svg("rect", { x: 2, y: 2, width: 40, height: 20, class: "band at" })), "the last choice"],
    [sample(svg("rect", { x: 8, y: 2, width: 28, height: 20, rx: 5, class: "box soft m0" }), svg("rect", { x: 0, y: 0, width: 44, height: 24, class: "ahead" })), "pale: lies ahead"],
    [sample(svg("rect", { x: 4, y: 3, width: 36, height: 18, rx: 4, class: "folded" }), svg("text", { x: 22, y: 16, class: "on sign" }, "9\u00d7")), "so many rows in one: a click unfolds them"],
    [sample(svg("line", { x1: 2, y1: 12, x2: 42, y2: 12, class: "point all-waiting" })), "the point of no return"],
  ];
  if (MONITORS.some(isHatched)) all.push([sample(svg("rect", { x: 6, y: 3, width: 32, height: 18, rx: 5, class: "box m0", fill: patternOf("s", HUES) })), "with a hatch: inside a monitor behind the eighth"]);
  if (isEndless) all.push([sample(svg("path", { d: "M26 20H18V4H26", class: "round", "marker-end": "url(#turn)" })), "a round, which can be gone again and again"]);
  return el("ul", { id: "signs", "aria-label": "Key to the signs" }, all.map(([shape, says]) => el("li", {}, shape, says)));
}

function keyButton() {
  const turns = () => {
    showsKey = !showsKey;
    show();
    if (showsKey) $("picture").scrollTop = 0;
  };
  return el("button", { id: "key", "aria-expanded": String(showsKey), onclick: turns }, "key to the signs");
}
"##;
