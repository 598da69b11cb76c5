//! The markup of the page.

/// Before the hash of the style sheet. The policy lets nothing be loaded, and nothing run but the style sheet and the script of these hashes.
pub const BEGIN: &str = r##"<!DOCTYPE html>
<html lang="en">
<head>
<meta charset="utf-8">
<meta http-equiv="Content-Security-Policy" content="default-src 'none'; base-uri 'none'; form-action 'none'; style-src 'sha256-"##;

/// The SHA-256 of the style sheet to the base 64.
pub const STYLE_HASH: &str = "Ba0Pa00IDbeUBwNRrmYZxGAU+IjsPIpB8NUl2L0vLEw=";

/// Between the hashes.
pub const BETWEEN: &str = "'; script-src 'sha256-";

/// The SHA-256 of the script to the base 64.
pub const SCRIPT_HASH: &str = "v8xhckNjcEq91Ti3tUznCAVJ/eb1+4d8yY7CzhRT4kc=";

/// Between the hash of the script and the style sheet.
pub const HEAD: &str = r##"'">
<meta name="viewport" content="width=device-width, initial-scale=1">
<title>Play the scheduler</title>
<style>"##;

/// Between the style sheet and the data.
pub const BODY: &str = r##"</style>
</head>
<body>
<header>
<h1 id="title"></h1>
<div id="tools" role="toolbar" aria-label="Steps">
<button id="first" title="To the beginning (Home)">&#8676;</button>
<button id="back" title="One choice back (left arrow or Backspace)">&#8592; back</button>
<button id="forward" title="One choice on in the schedule that is laid out (right arrow)">on &#8594;</button>
<button id="last" title="To the end of what is laid out (End)">&#8677;</button>
</div>
<span id="typed"><label for="word">schedule</label> <input id="word" spellcheck="false" autocomplete="off" aria-describedby="refused" title="The word of the schedule. Type another one, and press Enter">
<button id="copy">copy</button> <span id="refused" role="alert"></span></span>
<button id="predict" aria-pressed="false" title="Hide what can still come until you have chosen">predict first</button>
<ul id="outcomes" aria-label="Outcomes of the program"></ul>
<div id="warn" role="alert"></div>
</header>
<p id="blocked"><strong>This page does not run.</strong> Its script is blocked where it is shown, or the browser is older than 2023. Open the file itself in a browser that lets it run. The same can be had in words: ./show outcomes and ./show trace.</p>
<p id="whole"></p>
<main>
<section id="text" aria-label="Source" tabindex="0"><ol id="source"></ol></section>
<section id="play" aria-label="Who goes on" tabindex="0"></section>
<section id="picture" aria-label="Lanes" tabindex="0"></section>
</main>
<svg width="0" height="0" aria-hidden="true"><defs id="patterns">
<marker id="tip" viewBox="0 0 8 8" refX="7" refY="4" markerWidth="7" markerHeight="7" orient="auto"><path d="M0 0L8 4L0 8z" class="dot"/></marker>
<marker id="turn" viewBox="0 0 8 8" refX="7" refY="4" markerWidth="5" markerHeight="5" orient="auto"><path d="M0 0L8 4L0 8z" class="round tip"/></marker>
</defs></svg>
<footer class="quiet"><span id="said" aria-live="polite" role="status"></span><button id="more" aria-expanded="false" aria-controls="said">more</button><span id="keys"><kbd>0</kbd> <kbd>1</kbd> .. choose, <kbd>&#8592;</kbd> back, <kbd>&#8594;</kbd> on, <kbd>Home</kbd> <kbd>End</kbd></span></footer>
<script type="application/json" id="data">"##;

/// Between the data and the script.
pub const SCRIPT: &str = r##"</script>
<script>"##;

/// After the script.
pub const END: &str = r##"</script>
</body>
</html>
"##;
