//! What stands on the page.

/// The parts of the page, which its script fills.
pub const BODY: &str = r##"<body>
<div id="banner" role="alert" hidden></div>
<header><h1>sacn desk</h1><span id="universes"></span></header>
<main>
<section aria-label="Playback">
<dl id="now">
<div><dt>Cue</dt><dd id="cue">–</dd></div>
<div><dt>Next</dt><dd id="next">–</dd></div>
<div><dt>Fade</dt><dd id="left">–</dd></div>
</dl>
<div id="playback"><button type="button" id="back" data-order="back">Back</button><button type="button" id="go" data-order="go">Go</button></div>
<div id="dark"><button type="button" id="blackout" data-order="blackout" aria-pressed="false">Blackout</button><button type="button" id="restore" data-order="restore">Restore</button></div>
<div id="master-row"><label for="master">Master</label><input type="range" id="master" min="0" max="100" step="1" value="100"><output id="percent" for="master">100 %</output></div>
</section>
<section aria-label="Keypad">
<input id="line" aria-label="Order" placeholder="1 thru 10 at 50" autocomplete="off" autocapitalize="none" autocorrect="off" spellcheck="false" inputmode="none" maxlength="512">
<div id="keys">
<button type="button" data-put="7">7</button><button type="button" data-put="8">8</button><button type="button" data-put="9">9</button><button type="button" data-put=" thru ">Thru</button>
<button type="button" data-put="4">4</button><button type="button" data-put="5">5</button><button type="button" data-put="6">6</button><button type="button" data-put=" + ">+</button>
<button type="button" data-put="1">1</button><button type="button" data-put="2">2</button><button type="button" data-put="3">3</button><button type="button" data-put=" - ">−</button>
<button type="button" data-put=".">.</button><button type="button" data-put="0">0</button><button type="button" data-put=" full ">Full</button><button type="button" data-put=" at ">At</button>
<button type="button" data-put="all ">All</button><button type="button" data-put="goto ">Cue</button><button type="button" id="rub" aria-label="Rub out">⌫</button><button type="button" id="clear">Clear</button>
<button type="button" id="letters" class="wide" aria-pressed="false">Letters</button><button type="button" id="enter" class="wide">Enter</button>
</div>
<ul id="answers" aria-live="polite"></ul>
</section>
<section aria-label="Cues"><h2>Cues</h2><ul id="cues"></ul></section>
</main>
<div id="key-part" role="dialog" aria-modal="true" aria-labelledby="key-label" hidden>
<form id="key-form"><label id="key-label" for="key">The desk's key</label>
<input id="key" type="password" autocomplete="off" autocapitalize="none" spellcheck="false" maxlength="64">
<p id="why" role="alert"></p>
<div><button type="button" id="key-leave">Cancel</button><button type="submit">Use</button></div></form>
</div>
"##;
