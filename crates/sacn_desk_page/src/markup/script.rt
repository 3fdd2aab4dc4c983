//! The script of the page. It puts texts in as texts alone, and keeps the key in a variable, which goes with the page.

/// What the page does.
pub const SCRIPT: &str = r##"<script>
"use strict";
const at = (id) => document.getElementById(id);
const FULL = 65535, EACH = 250, PATIENCE = 12000, LATE = 3000;
let key = "", waiting = null, orders = Promise.resolve(), slid = 0, sliding = null, cue = null, next = null;

function show(id, text) { const place = at(id); if (place.textContent !== text) place.textContent = text; }
function seconds(millis) { return (Math.ceil(millis / 100) / 10).toFixed(1) + " s"; }
function percent(level) { const part = level * 100 / FULL; return (Number.isInteger(part) ? part : Math.round(part * 10) / 10) + " %"; }

function fetched(path, options, patience) {
  const ending = new AbortController(), timer = setTimeout(() => ending.abort(), patience);
  return fetch(path, { cache: "no-store", credentials: "omit", signal: ending.signal, ...options })
    .then((answer) => answer.text().then((text) => ({ status: answer.status, text })))
    .finally(() => clearTimeout(timer));
}

// What was ordered, and what the desk said to it.
function tell(order, text, refused) {
  const row = document.createElement("li"), said = document.createElement("b"), answer = document.createElement("span");
  said.textContent = order;
  answer.textContent = text;
  if (refused) answer.className = "refused";
  row.append(said, answer);
  at("answers").prepend(row);
  while (at("answers").childElementCount > 20) at("answers").lastChild.remove();
}

function ask(why) {
  show("why", why);
  at("key").value = "";
  at("key-part").hidden = false;
  document.querySelector("main").inert = true;
  at("key").focus();
}

function leave() {
  at("key-part").hidden = true;
  document.querySelector("main").inert = false;
}

// Orders go one after another, each once the one before was answered.
function order(line) {
  if (!key) { waiting = line; ask(""); return; }
  orders = orders.then(() => post(line)).catch(() => {});
}
async function post(line) {
  if (!key) { tell(line, "not sent: there is no key", true); return; }
  let answer;
  try {
    answer = await fetched("/order", { method: "POST", headers: { "X-Key": key, "Content-Type": "text/plain" }, body: line }, PATIENCE);
  } catch (_) { tell(line, "no answer: the desk may have obeyed or not", true); return; }
  const told = answer.text.trim(), text = told.replace(/^line \d+: /, "");
  if (answer.status === 403) {
    key = "";
    tell(line, text, true);
    waiting = line;
    ask("The desk refused that key.");
    return;
  }
  tell(line, text || "(no order)", answer.status !== 200 || /^(refused|line \d+:)/.test(told));
}

function put(text) {
  const field = at("line"), before = field.value;
  const joined = before + (text[0] === " " && (!before || before.endsWith(" ")) ? text.slice(1) : text);
  if (joined.length <= 512) field.value = joined;
}
function rub() {
  const field = at("line");
  field.value = / (thru|full|at) $|(all|goto) $| [+-] $/.test(field.value) ? field.value.replace(/ ?[^ ]+ $/, "") : field.value.slice(0, -1);
}
function enter() {
  const line = at("line").value.trim().replace(/ +/g, " ");
  if (!line) return;
  if (!/^[ -~]+$/.test(line)) { tell(line, "not sent: an order has letters and digits of ASCII", true); return; }
  at("line").value = "";
  order(line);
}

function slide() {
  slid = Date.now();
  show("percent", at("master").value + " %");
  clearTimeout(sliding);
  sliding = setTimeout(() => order("master " + Math.round(at("master").value * FULL / 100)), 150);
}

function shown(state) {
  show("cue", state.cue === null ? "none" : String(state.cue));
  show("next", state.next === null ? "–" : String(state.next));
  show("left", state.left > 0 ? seconds(state.left) : "–");
  document.body.classList.toggle("is-dark", state.master === 0);
  at("blackout").setAttribute("aria-pressed", String(state.master === 0));
  if (Date.now() - slid > 1500) { at("master").value = Math.round(state.master * 100 / FULL); show("percent", percent(state.master)); }
  show("universes", state.universes.map(([first, last, name]) => (first === last ? "universe " + first : "universes " + first + "–" + last) + " " + name).join(", "));
  if (state.cue !== cue || state.next !== next) { cue = state.cue; next = state.next; mark(true); }
}
function mark(follow) {
  for (const button of at("cues").querySelectorAll("button")) {
    const number = Number(button.dataset.cue), current = number === cue;
    button.setAttribute("aria-current", String(current));
    button.classList.toggle("next", number === next);
    if (follow && current) at("cues").scrollTop = button.offsetTop - at("cues").offsetTop - 60;
  }
}
function list(cues) {
  at("cues").replaceChildren(...cues.map((one) => {
    const item = document.createElement("li"), button = document.createElement("button"), number = document.createElement("b"), rest = document.createElement("span");
    button.type = "button";
    button.dataset.cue = one.number;
    number.textContent = one.number;
    rest.textContent = "up " + one.up / 1000 + " s, down " + one.down / 1000 + " s, " + one.channels + " levels";
    button.append(number, rest);
    button.addEventListener("click", () => order("goto " + one.number));
    item.append(button);
    return item;
  }));
  mark(true);
}

let heard = Date.now(), listed = false;
async function poll() {
  try {
    const answer = await fetched("/state", {}, LATE);
    if (answer.status === 200) { shown(JSON.parse(answer.text)); heard = Date.now(); }
    if (!listed) { const cues = await fetched("/cues", {}, LATE); if (cues.status === 200) { list(JSON.parse(cues.text)); listed = true; } }
  } catch (_) { /* (told below once it lasts) */ }
  const late = Date.now() - heard > LATE;
  // (it may be another show's desk once it answers again)
  if (late) listed = false;
  document.body.classList.toggle("stale", late);
  at("banner").hidden = !late;
  if (late) show("banner", "The desk doesn't answer: what is shown is old.");
  setTimeout(poll, EACH);
}

for (const button of document.querySelectorAll("[data-order]")) button.addEventListener("click", () => order(button.dataset.order));
for (const button of document.querySelectorAll("[data-put]")) button.addEventListener("click", () => put(button.dataset.put));
at("rub").addEventListener("click", rub);
at("clear").addEventListener("click", () => { at("line").value = ""; });
at("enter").addEventListener("click", enter);
at("line").addEventListener("keydown", (event) => { if (event.key === "Enter") enter(); });
at("letters").addEventListener("click", () => {
  const on = at("line").inputMode !== "text";
  at("line").inputMode = on ? "text" : "none";
  at("letters").setAttribute("aria-pressed", String(on));
  if (on) { at("line").blur(); at("line").focus(); }
});
at("master").addEventListener("input", slide);
at("key-form").addEventListener("submit", (event) => {
  event.preventDefault();
  if (!/^[A-Za-z0-9_-]{4,64}$/.test(at("key").value)) { show("why", "A key is 4 to 64 letters, digits, - and _."); return; }
  key = at("key").value;
  at("key").value = "";
  leave();
  if (waiting !== null) { const line = waiting; waiting = null; order(line); }
});
at("key-leave").addEventListener("click", () => {
  leave();
  if (waiting !== null) tell(waiting, "not sent", true);
  waiting = null;
});
at("key-part").addEventListener("keydown", (event) => { if (event.key === "Escape") at("key-leave").click(); });
poll();
</script>
</body>
</html>
"##;
