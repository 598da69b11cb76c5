//! How the page looks: light, dark and printed.

/// The style sheet.
pub const STYLE: &str = r##"
:root { color-scheme: light dark; --ink: #1f2933; --grey: #505c68; --pale: #98a2ad; --ground: #ffffff; --band: #f4f6fa; --line: #d5dae1; --red: #b3261e; --green: #2e7d32; --limit: #5c6772; --ever: #8a5a00; --mark: #fff3bf; --focus: #1a5fb4 }
@media screen and (prefers-color-scheme: dark) {
  :root { --ink: #e6eaee; --grey: #a3aeb9; --pale: #75808b; --ground: #14181d; --band: #1c2229; --line: #36404a; --red: #ff8a80; --green: #7ccb80; --limit: #98a2ad; --ever: #e6b450; --mark: #4a4012; --focus: #8ab4f8 }
}
.m0 { --c: #1f5fa8; --s: #dbe5f1; --l: #ffffff }
.m1 { --c: #e2801e; --s: #f9e6d2; --l: #1f2933 }
.m2 { --c: #5fa59e; --s: #dcebea; --l: #1f2933 }
.m3 { --c: #a585ff; --s: #ebe4ff; --l: #1f2933 }
.m4 { --c: #9f4814; --s: #f0e2d9; --l: #ffffff }
.m5 { --c: #686061; --s: #e1dfdf; --l: #ffffff }
.m6 { --c: #1c293b; --s: #e4e5e7; --l: #ffffff }
.m7 { --c: #441b11; --s: #e5dfde; --l: #ffffff }
@media screen and (prefers-color-scheme: dark) {
  .m0 { --c: #4c66a4; --s: #252f46; --l: #ffffff }
  .m1 { --c: #e47a02; --s: #523515; --l: #14181d }
  .m2 { --c: #73c592; --s: #2c433a; --l: #14181d }
  .m3 { --c: #d38deb; --s: #483855; --l: #14181d }
  .m4 { --c: #a04b3a; --s: #3e2726; --l: #ffffff }
  .m5 { --c: #8a8283; --s: #37383c; --l: #14181d }
  .m6 { --c: #e1fbf4; --s: #384043; --l: #14181d }
  .m7 { --c: #fffa77; --s: #3d402d; --l: #14181d }
}
* { box-sizing: border-box }
@keyframes late { from { visibility: hidden } }
body { margin: 0; background: var(--ground); color: var(--ink); font: clamp(14px, 5px + .62vw, 21px)/1.4 system-ui, "DejaVu Sans", "Segoe UI", sans-serif; display: flex; flex-direction: column; height: max(100vh, 620px) }
header { padding: .5em 1em .4em; border-bottom: 1px solid var(--line); display: flex; flex-wrap: wrap; gap: .3em 1em; align-items: center }
h1, .card, #outcomes, footer { overflow-wrap: anywhere }
h1 { font-size: 1.25em; margin: 0; flex: 1 1 16em; display: -webkit-box; -webkit-box-orient: vertical; -webkit-line-clamp: 2; overflow: hidden }
h2 { font-size: 1em; margin: 0 0 .4em; color: var(--grey); font-weight: 600 }
button, input, summary { font: inherit; color: inherit }
button, input, summary { min-height: 24px }
button { background: var(--ground); border: 1px solid var(--pale); border-radius: .4em; padding: .12em .6em; min-width: 24px; cursor: pointer }
button:hover { border-color: var(--ink); background: var(--band) }
button[aria-disabled=true] { color: var(--grey); border-color: var(--line); background: var(--ground); cursor: default }
button[aria-pressed=true], button[aria-expanded=true] { background: var(--ink); color: var(--ground) }
:focus-visible { outline: 3px solid var(--focus); outline-offset: 1px }
#word { font-family: ui-monospace, "DejaVu Sans Mono", monospace; background: var(--band); border: 1px solid var(--line); border-radius: .4em; padding: .12em .5em; width: 17em; max-width: 60vw }
#word[aria-invalid=true] { border: 2px solid var(--red) }
#refused { color: var(--red); font-weight: 600 }
#blocked { margin: 1em; animation: late 0s 3s backwards }
#whole { display: none; overflow-wrap: anywhere }
main { display: grid; grid-template-columns: minmax(0, 28fr) minmax(0, 28fr) minmax(0, 44fr); gap: 0 1em; padding: .6em 1em; flex: 1; min-height: 0 }
main > section { overflow: auto; min-height: 0; padding: 2px }
@media (max-width: 1150px) {
  main { grid-template: minmax(0, 1fr) minmax(0, 1fr) / minmax(0, 43fr) minmax(0, 57fr) }
  #play { grid-area: 1 / 1 }
  #text { grid-area: 2 / 1 }
  #picture { grid-area: 1 / 2 / 3 / 3 }
}
@media (max-width: 720px) {
  body { display: block; height: auto }
  main { display: flex; flex-direction: column }
  main > section { margin-bottom: 1em }
  #play { order: -1 }
  #text { max-height: 40vh }
  #picture { max-height: 85vh }
  footer { position: sticky; bottom: 0; background: var(--ground) }
}
#outcomes { list-style: none; margin: 0; padding: 0; display: flex; flex-wrap: wrap; gap: .35em; flex: 1 1 100%; max-height: 5.6em; overflow: auto }
@media (max-width: 720px) {
  #outcomes { max-height: none }
}
#outcomes li { border: 1px solid var(--line); border-left: .35em solid var(--k); border-radius: .4em; padding: .1em .5em }
#outcomes li.sum { border: 0; padding-left: 0 }
#outcomes li.gone { color: var(--grey); border-style: dashed }
#outcomes button { padding: 0 .4em; min-height: 24px; margin-left: .35em; font-size: .9em }
.finished { --k: var(--green) }
.all-waiting, .run-error { --k: var(--red) }
.choice-limit, .step-limit, .output-limit, .beyond { --k: var(--limit) }
.alone, .spins, .for-ever, .waits { --k: var(--ever) }
.kind { color: var(--k); font-weight: 600 }
small, .quiet { color: var(--grey); font-size: .88em }
#source { margin: 0; padding: 0; list-style: none; font: .86em/1.5 ui-monospace, "DejaVu Sans Mono", monospace }
#source li { display: flex; white-space: pre-wrap; border-radius: .25em }
#source li.here { background: var(--mark) }
#source li.done code { text-decoration: underline; text-decoration-thickness: 2px }
#source .no { width: 2.4em; padding-right: .7em; text-align: right; color: var(--grey); flex: none }
#source .who { width: var(--who); flex: none; text-align: right; white-space: normal }
#source code { font: inherit; flex: 1; min-width: 0; overflow-wrap: anywhere }
#source .remark { color: var(--grey) }
#source b { font-weight: 600; color: var(--focus) }
.num { display: inline-block; min-width: 1.45em; padding: 0 .3em; border-radius: 1em; text-align: center; background: var(--ink); color: var(--ground); border: 2px solid var(--ink); font: 600 .85em/1.35 system-ui, sans-serif }
.num.gate, .num.delayed { background: var(--ground); color: var(--ink) }
.num.gate { border-style: dashed }
.num.delayed { border-style: dotted }
.num.ended, .num.unstarted { background: var(--ground); color: var(--grey); border-color: var(--pale) }
.card { border: 1px solid var(--line); border-radius: .5em; padding: .4em .6em; margin-bottom: .5em }
.card.now { border-color: var(--ink) }
.card.off { color: var(--grey); border-style: dashed }
.card p { margin: .12em 0 }
.card .num.big { font-size: 1.15em }
.go { display: block; width: 100%; text-align: left; margin: .25em 0 .1em; padding: .3em .6em; border-width: 2px; border-color: var(--ink) }
.go.next { box-shadow: inset .45em 0 var(--focus); padding-left: 1em }
.monitor { border-left: .45em solid var(--c) }
.monitor.hatched { border-left-color: transparent; background: repeating-linear-gradient(135deg, var(--c) 0 5px, var(--ground) 5px 8px) 0 0 / .45em 100% no-repeat border-box }
h3 { margin: 0; font-size: 1em; display: inline }
.value { font-family: ui-monospace, "DejaVu Sans Mono", monospace; font-size: .92em; margin-right: 1em; display: inline-block }
.value.new { background: var(--mark); font-weight: 600; border-radius: .2em; padding: 0 .2em }
.bar { display: flex; height: .8em; border-radius: .3em; overflow: hidden; margin: .2em 0; border: 1px solid var(--ground) }
.bar i { flex-basis: 0; min-width: 3px; background: var(--k); border-right: 1px solid var(--ground) }
.bar .second { opacity: .55 }
.bar .all-waiting { background: repeating-linear-gradient(135deg, var(--red) 0 4px, var(--ground) 4px 7px) }
.bar .run-error { background: repeating-linear-gradient(90deg, var(--red) 0 3px, var(--ground) 3px 5px) }
.bar .choice-limit, .bar .step-limit, .bar .output-limit, .bar .beyond { background: radial-gradient(var(--limit) 32%, transparent 36%) 0 0 / 6px 6px }
#end { border-width: 2px; border-color: var(--k); font-size: 1.08em }
#end strong, #round strong { color: var(--k) }
.card.for-ever { border: 2px solid var(--k) }
.card ul { margin: .1em 0; padding-left: 1.4em }
.go small { display: block }
.word { font-family: ui-monospace, "DejaVu Sans Mono", monospace }
#can { margin: 0 0 .4em }
.bar { width: 100% }
footer { padding: .2em 1em; border-top: 1px solid var(--line); display: flex; gap: 1em; align-items: start; justify-content: space-between }
#said { flex: 1; display: -webkit-box; -webkit-box-orient: vertical; -webkit-line-clamp: 2; max-height: 2.8em; overflow: hidden }
.open #said { display: block; max-height: 40vh; overflow: auto }
#keys { white-space: nowrap }
@media (max-width: 720px) {
  #keys { display: none }
}
#warn { color: var(--red); font-weight: 600; flex: 1 1 100% }
#warn:empty { display: none }
svg { display: block; max-width: none }
svg text { fill: var(--ink); font: 13px system-ui, "DejaVu Sans", sans-serif }
svg .dim, svg text.dim { fill: var(--grey) }
svg .ahead { fill: var(--ground); opacity: .66 }
.heads { position: sticky; top: 0; z-index: 1; background: var(--ground); width: max-content; min-width: 100% }
.heads p { margin: 0; position: sticky; left: 0; display: flex; gap: .4em; max-width: 100% }
#signs { list-style: none; margin: .4em 0; padding: .3em .6em; border: 1px solid var(--line); border-radius: .4em; columns: 17em }
#signs li { display: flex; gap: .5em; align-items: center; break-inside: avoid }
#signs svg { flex: none }
svg .plate { fill: var(--ground) }
svg .point { stroke: var(--k); stroke-width: 3; stroke-dasharray: 9 4 }
svg text.point { fill: var(--k); stroke: var(--ground); stroke-width: 4; stroke-dasharray: none; paint-order: stroke; font-weight: 700 }
svg .folded { fill: var(--band); stroke: var(--pale) }
svg .band { fill: var(--band) }
svg .band.at { fill: var(--mark) }
svg .round { stroke: var(--ever); stroke-width: 2; fill: none }
svg .round.tip { fill: var(--ever); stroke: none }
svg .life { stroke: var(--pale); stroke-width: 1.5 }
svg .dot { fill: var(--ink) }
svg .arrow { stroke: var(--ink); stroke-width: 1.5; fill: none }
svg .arrow.in { stroke-dasharray: 5 3 }
svg .box { stroke: var(--c); stroke-width: 1.6 }
svg .soft { fill: var(--s) }
svg .strong { fill: var(--c) }
svg .hatch { stroke: var(--ground); stroke-width: 2.4 }
svg text.lab { font-size: 12.5px }
svg text.inv { fill: var(--ground); font-weight: 700; font-size: 12px; text-anchor: middle }
svg text.held { fill: var(--l) }
svg .wait { stroke: var(--c); stroke-width: 1.8 }
svg .wait.ever { stroke: var(--red); stroke-width: 3 }
svg .stuck circle { fill: var(--red) }
svg .stuck path { stroke: var(--ground); stroke-width: 2 }
svg .cross, svg .edge { fill: none; stroke: var(--red); stroke-width: 3 }
svg text.broken { fill: var(--red) }
svg .opt { fill: var(--ground); stroke: var(--pale) }
svg .taken .opt { fill: var(--ink); stroke: var(--ink) }
svg .pick { cursor: pointer }
svg .pick:hover .opt { stroke: var(--ink); stroke-width: 2 }
svg text.on { fill: var(--grey); font-size: 11px; text-anchor: middle }
svg text.sign { fill: var(--ink); font-size: 14px }
svg .taken text.on { fill: var(--ground); font-weight: 700 }
svg .hit { fill: transparent; cursor: pointer }
svg .loud { font-weight: 700 }
svg text.ended { fill: var(--k); font-size: 15px }
svg text .dim { fill: var(--grey) }
svg .later text, svg .later tspan:not(.swatch) { fill: var(--grey) }
svg .later text.inv { fill: var(--ink) }
details { margin-top: .6em }
details ol { margin: .3em 0; padding-left: 2.4em }
kbd { border: 1px solid var(--pale); border-radius: .25em; padding: 0 .3em; font: .85em ui-monospace, monospace }
@media print {
  @page { margin: 12mm }
  :root { color-scheme: light; --ink: #000 }
  * { print-color-adjust: exact }
  body { font-size: 10pt }
  body, main, header { display: block; height: auto; padding: 0 }
  main > section, #outcomes { overflow: visible; max-height: none }
  main > section { margin-top: 1em }
  .card, #outcomes li, #source li { break-inside: avoid }
  #picture svg { max-width: 100%; height: auto }
  .heads { position: static }
  .heads, h2 { break-after: avoid }
  .sheet { break-inside: avoid }
  #lanes, button, #tools, #typed, footer, details:not([open]) { display: none }
  h1, #whole { display: block }
}
"##;
