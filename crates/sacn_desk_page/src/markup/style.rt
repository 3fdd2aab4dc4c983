//! The style of the page.

/// Dark, with keys for fingers, from 360 pixels on.
pub const STYLE: &str = r##"<style>
:root {
  --ground: #101012; --panel: #1a1a1e; --key: #2a2a31; --ink: #f0f0f3; --dim: #a6a6b2; --line: #3a3a44;
  --go: #1d6b37; --warn: #ffb08a; --warn-ground: #4a2415; --focus: #8ab4ff; --lit: #ffcc66;
}
* { box-sizing: border-box; }
[hidden] { display: none !important; }
body { margin: 0; background: var(--ground); color: var(--ink); font: 16px/1.35 system-ui, sans-serif; touch-action: manipulation; }
header { padding: .5rem .75rem; background: var(--panel); border-bottom: 1px solid var(--line); display: flex; flex-wrap: wrap; gap: .15rem .75rem; align-items: baseline; }
h1 { font-size: 1rem; margin: 0; color: var(--dim); font-weight: 600; }
h2 { font-size: .85rem; margin: 0 0 .4rem; color: var(--dim); font-weight: 600; }
#banner { padding: .6rem .75rem; background: var(--warn-ground); color: var(--warn); font-weight: 700; position: sticky; top: 0; z-index: 2; }
#universes { color: var(--dim); overflow-wrap: anywhere; }
main { display: grid; grid-template-columns: minmax(0, 1fr); gap: .6rem; padding: .6rem; max-width: 70rem; margin: 0 auto; }
@media (min-width: 800px) { main { grid-template-columns: repeat(2, minmax(0, 1fr)); align-items: start; } }
section { min-width: 0; background: var(--panel); border: 1px solid var(--line); border-radius: 10px; padding: .6rem; }
button, input { font: inherit; color: inherit; background: var(--key); border: 1px solid var(--line); border-radius: 8px; min-width: 0; }
button { min-height: 3.1rem; padding: .25rem; font-weight: 600; cursor: pointer; }
button:active { filter: brightness(1.4); }
button:disabled { opacity: .4; cursor: default; }
:focus-visible { outline: 3px solid var(--focus); outline-offset: 1px; }
#now { display: grid; grid-template-columns: repeat(3, minmax(0, 1fr)); gap: .25rem .5rem; margin: 0 0 .6rem; }
#now div { min-width: 0; }
dt { color: var(--dim); font-size: .8rem; }
dd { margin: 0; font-size: 1.45rem; font-weight: 700; font-variant-numeric: tabular-nums; white-space: nowrap; overflow: hidden; text-overflow: ellipsis; }
#playback { display: grid; grid-template-columns: minmax(0, 1fr) minmax(0, 2fr); gap: .5rem; }
#playback button { min-height: 4.2rem; font-size: 1.2rem; }
#go { background: var(--go); }
#dark { display: grid; grid-template-columns: repeat(2, minmax(0, 1fr)); gap: .5rem; margin-top: .5rem; }
.is-dark #blackout { background: var(--warn-ground); color: var(--warn); border-color: var(--warn); }
#master-row { display: flex; gap: .6rem; align-items: center; margin-top: .6rem; }
#master { flex: 1; height: 2.6rem; margin: 0; padding: 0; accent-color: var(--lit); }
#master-row output { min-width: 3.6rem; text-align: right; font-variant-numeric: tabular-nums; font-weight: 700; }
#line { width: 100%; min-height: 3rem; padding: .25rem .6rem; font-size: 1.15rem; background: #000; }
#keys { display: grid; grid-template-columns: repeat(4, minmax(0, 1fr)); gap: .4rem; margin-top: .5rem; }
#keys .wide { grid-column: span 2; }
#enter { background: var(--go); }
#answers { margin: .5rem 0 0; padding: 0; list-style: none; max-height: 11rem; overflow: auto; }
#answers li { padding: .25rem 0; border-top: 1px solid var(--line); white-space: pre-wrap; overflow-wrap: anywhere; }
#answers b { display: block; color: var(--dim); font-weight: 600; }
#answers .refused { color: var(--warn); }
#cues { margin: 0; padding: 0; list-style: none; max-height: 24rem; overflow: auto; display: grid; gap: .35rem; }
#cues button { width: 100%; display: flex; gap: .6rem; align-items: baseline; padding: .25rem .7rem; text-align: left; }
#cues b { font-size: 1.15rem; min-width: 3.4rem; font-variant-numeric: tabular-nums; }
#cues span { color: var(--dim); font-weight: 400; overflow-wrap: anywhere; }
#cues [aria-current=true] { border-color: var(--lit); box-shadow: inset 0 0 0 2px var(--lit); }
#cues .next { border-style: dashed; border-color: var(--lit); }
.stale main { opacity: .45; }
#key-part { position: fixed; inset: 0; z-index: 3; display: grid; place-items: center; padding: 1rem; background: #000c; }
#key-form { width: 100%; max-width: 22rem; background: var(--panel); border: 1px solid var(--line); border-radius: 10px; padding: 1rem; display: grid; gap: .6rem; }
#key { width: 100%; min-height: 3rem; padding: .25rem .6rem; background: #000; }
#key-form div { display: grid; grid-template-columns: repeat(2, minmax(0, 1fr)); gap: .5rem; }
#why { margin: 0; color: var(--warn); }
</style>
</head>
"##;
