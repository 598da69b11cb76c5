//! The script of the page: keys, buttons, the address, and the start.

/// Text of the script.
pub const MOVES: &str = r##"// ---- moves ----

function choose(p) {
  if (word[at] !== p) word = [...word.slice(0, at), p];
  at++;
  show();
}

const MOST_TYPED = 100;
const MOST_PROCESSES = 16;
const numbersOf = text => text === "none" ? [] : text.split(".").map(Number);
const isWord = text => text === "none" || (/^(0|[1-9]\d?)(\.(0|[1-9]\d?))*$/.test(text) && numbersOf(text).every(p => p < MOST_PROCESSES));

// Lays out a word; what can't be played is left out. The answer says so, as `./show trace` does.
function lay(numbers) {
  const s = play(numbers);
  const left = numbers.length - s.used;
  [word, at] = [numbers.slice(0, s.used), s.used];
  if (!left) return "";
  if (s.end === BEYOND) return `${left === 1 ? "the last number is" : `the last ${left} numbers are`} not used: ${endSentence(BEYOND)}`;
  if (s.end) return left === 1 ? "the last number is not used: the run has ended before it" : `the last ${left} numbers are not used: the run has ended before them`;
  return `${s.refused} can't go on here: ${either(NODES[s.node].options)}`;
}

const either = list => list.length < 2 ? list.join() : list.slice(0, -1).join(", ") + " or " + list.at(-1);

// Says beside the field why what was typed is refused; nothing is said where it is not.
function refuse(why) {
  $("refused").textContent = why;
  if (why) $("word").setAttribute("aria-invalid", "true");
  else $("word").removeAttribute("aria-invalid");
}

// What is typed is laid out, or else left as it stands, and refused.
function readField() {
  const text = $("word").value.trim();
  if (!isWord(text) || numbersOf(text).length > MOST_TYPED) return refuse(`\`none\`, or up to ${MOST_TYPED} numbers 0 to ${MOST_PROCESSES - 1} joined by periods`);
  const why = lay(numbersOf(text));
  show();
  refuse(why);
}

const turnOff = (id, isOff) => $(id).setAttribute("aria-disabled", String(isOff));

// All is drawn anew, and the control that was used keeps the focus, or the one that takes its place.
function keepFocus(draws) {
  const { id } = document.activeElement;
  draws();
  if (!id || document.activeElement.id === id) return;
  const next = id.startsWith("go") || id === "again" ? document.querySelector(".go") || $("again") || $("back") : document.querySelector("#outcomes button");
  const wanted = $(id) || next;
  if (wanted) wanted.focus({ preventScroll: true });
}

// A place is remembered where it is another one, so that Back goes one choice back. While a key is held down the places between are not.
let isHeld = false;
function remember(how) {
  const place = `#w=${word.join(".")}${at < word.length ? "&at=" + at : ""}`;
  if (place === location.hash) return;
  history[isHeld ? "replaceState" : how](null, "", place);
}

// Two lines, and the whole behind a click.
let saidWhole = "";
let saidBriefly = "";
function say(whole, brief = whole) {
  [saidWhole, saidBriefly] = [whole, brief];
  const isOpen = $("more").getAttribute("aria-expanded") === "true";
  $("said").textContent = isOpen ? whole : brief;
  $("more").hidden = !isOpen && whole === brief && $("said").scrollHeight <= $("said").clientHeight + 1;
}

function turnMore() {
  const isOpen = $("more").getAttribute("aria-expanded") !== "true";
  $("more").setAttribute("aria-expanded", String(isOpen));
  $("more").textContent = isOpen ? "less" : "more";
  $("more").parentNode.className = isOpen ? "quiet open" : "quiet";
  say(saidWhole, saidBriefly);
}

function show(note = "", how = "pushState") {
  keepFocus(() => draw(note));
  remember(how);
}

function draw(note) {
  const s = play(word.slice(0, at));
  const old = at ? play(word.slice(0, at - 1)) : s;
  const fresh = s.rows.slice(at ? old.rows.length : 0);
  showOutcomes(s);
  showPlay(s, old);
  showLanes(play(word));
  showSource(s, fresh);
  $("word").value = word.join(".") || "none";
  $("whole").textContent = "Schedule: " + $("word").value;
  refuse("");
  turnOff("first", at === 0);
  turnOff("back", at === 0);
  const round = roundOf(s);
  const isAgain = round && at === word.length;
  turnOff("last", at === word.length);
  turnOff("forward", at === word.length && !isAgain);
  $("forward").textContent = isAgain ? "once more \u21bb" : "on \u2192";
  const next = s.end ? endSentence(s.end) : "Choose " + either(NODES[s.node].options) + ".";
  const met = round ? ` Back in state ${s.node}, where it was ${afterChoices(round.back)}` : "";
  const says = (happened, more) => `${note}${s.used} of ${word.length} choices. ${happened}.${met}${more} ${next}`;
  say(says(fresh.map(r => r.words).join("; "), round ? `: ${roundSentences(round).join("; ")}.` : ""),
    says(briefly(fresh.map(r => r.event), e => `${person(e.p)} ${wordsOf(e)}`), round ? "." : ""));
}

const MOVES = {
  first: () => 0,
  back: () => Math.max(0, at - 1),
  forward: () => {
    if (at === word.length) word = withRound(word);
    return Math.min(word.length, at + 1);
  },
  last: () => word.length,
};
const KEYS = { Home: "first", ArrowLeft: "back", Backspace: "back", ArrowRight: "forward", End: "last" };

function move(id) {
  const next = MOVES[id]();
  if (next === at) return;
  at = next;
  show();
}

// The place of the address, or else the beginning of the schedule with which the page was made.
function read() {
  const found = /^#w=([\d.]*)(?:&at=(\d+))?$/.exec(location.hash);
  const text = found && (found[1] || "none");
  const why = lay(!found ? D.word : isWord(text) ? numbersOf(text) : []);
  if (!found) at = 0;
  else if (found[2]) at = Math.min(word.length, +found[2]);
  show("", "replaceState");
  refuse(found && !isWord(text) ? `${text} in the address is no schedule` : why);
}

// Arrows, Home and End scroll a panel that has the focus, or in which the lanes have it.
function isForPanel({ target }) {
  return ["text", "play", "picture"].includes(target.id) || $("picture").contains(target);
}

for (const id of Object.keys(MOVES)) $(id).addEventListener("click", () => move(id));
addEventListener("keydown", event => {
  if (event.target.id === "word" || event.ctrlKey || event.altKey || event.metaKey) return;
  isHeld = event.repeat === true;
  const p = PROCESSES.find(process => keyOf(process) === event.key);
  const s = play(word.slice(0, at));
  if (KEYS[event.key]) {
    if (isForPanel(event) && event.key !== "Backspace") return;
    event.preventDefault();
    move(KEYS[event.key]);
  } else if (p !== undefined && !s.end && NODES[s.node].options.includes(p)) {
    choose(p);
  }
});
addEventListener("keyup", () => isHeld = false);
// Who clicks into a panel goes on with the keys of the schedule.
for (const id of ["text", "play", "picture"]) $(id).addEventListener("mouseup", () => document.activeElement === $(id) && $(id).blur());
$("word").addEventListener("change", readField);
// The focus goes on to the button, so that digits choose.
$("copy").addEventListener("click", () => {
  $("word").value = word.join(".") || "none";
  refuse("");
  $("word").select();
  const isCopied = document.execCommand("copy");
  $("copy").focus();
  say(isCopied ? "Copied. ./show trace and ./show lanes take it as --schedule." : "The word could not be copied. It is in the field and in the address.");
});
$("more").addEventListener("click", turnMore);
$("predict").addEventListener("click", () => {
  predicts = !predicts;
  $("predict").setAttribute("aria-pressed", String(predicts));
  show();
});
addEventListener("popstate", read);
addEventListener("resize", () => keepFocus(() => showLanes(play(word))));
addEventListener("beforeprint", () => {
  showEveryChip();
  cutLanes();
});
addEventListener("afterprint", () => show());
$("patterns").append(...patterns());
$("source").append(...lines);
$("source").style.setProperty("--who", 1.8 * Math.min(3, D.processes.length) + "em");
$("title").textContent = (titleOf() || `A program of ${D.processes.length} process${D.processes.length === 1 ? "" : "es"}`) + (D.signals ? ` \u00b7 signals ${D.signals}` : "");
$("title").setAttribute("title", $("title").textContent);
if (titleOf()) document.title = titleOf();
count();
read();
$("blocked").remove();
"##;
