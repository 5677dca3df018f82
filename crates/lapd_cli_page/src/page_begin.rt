/// The beginning of a page, before the rows of its frames: its style and its controls.
pub const PAGE_BEGIN: &str = r##"<!DOCTYPE html>
<html lang="en">
<head>
<meta charset="utf-8">
<meta name="viewport" content="width=device-width, initial-scale=1">
<meta http-equiv="Content-Security-Policy" content="default-src 'none'; style-src 'unsafe-inline'; script-src 'unsafe-inline'">
<title>Frames of LAPD links</title>
<style>
:root { --ink: #1b1f24; --pale: #6a737d; --line: #d0d7de; --back: #ffffff; --shade: #f3f5f7;
  --user: #0550ae; --net: #116329; --bad: #b00020; --odd: #8a5a00; --mark: #fff3bf; }
@media (prefers-color-scheme: dark) { :root { --ink: #e6edf3; --pale: #8b949e; --line: #30363d;
  --back: #0d1117; --shade: #161b22; --user: #79c0ff; --net: #7ee787; --bad: #ff7b72;
  --odd: #e3b341; --mark: #463b00; } }
* { box-sizing: border-box; }
body { margin: 0; color: var(--ink); background: var(--back); font: 13px/1.35 ui-monospace, Menlo,
  Consolas, monospace; }
header { position: sticky; top: 0; z-index: 2; background: var(--shade); padding: 6px 8px;
  border-bottom: 1px solid var(--line); display: flex; flex-wrap: wrap; gap: 6px 12px;
  align-items: center; }
h1 { font-size: 14px; margin: 0; }
header label { white-space: nowrap; }
input, select, button { font: inherit; color: inherit; background: var(--back);
  border: 1px solid var(--line); border-radius: 4px; padding: 2px 4px; max-width: 100%; }
#search { width: 22ch; }
#said { color: var(--pale); flex-basis: 100%; }
main { display: flex; align-items: flex-start; }
#frames { flex: 1; min-width: 0; }
details.group > summary { position: sticky; top: var(--top, 64px); background: var(--shade);
  padding: 3px 8px; border-bottom: 1px solid var(--line); cursor: pointer; z-index: 1; }
.frame { display: grid; grid-template-columns: 7ch 15ch 12ch minmax(20ch, 1fr) 12ch; gap: 0 1ch;
  padding: 1px 8px 6px; cursor: pointer; content-visibility: auto; contain-intrinsic-size: auto 26px;
  border-left: 3px solid transparent; scroll-margin: calc(var(--top, 64px) + 4px) 0 8px; }
.frame:hover { background: var(--shade); }
.frame.chosen { background: var(--mark); border-left-color: var(--ink); }
.frame:focus { outline: none; }
.number, .time, .user { text-align: right; }
.number, .time { color: var(--pale); }
.between { position: relative; border: solid var(--pale); border-width: 0 1px; }
.words { display: block; position: relative; border-bottom: 1px solid currentColor; }
.label { display: block; text-align: center; padding: 0 12px; overflow: hidden;
  text-overflow: ellipsis; white-space: nowrap; }
.U .words { color: var(--user); }
.N .words { color: var(--net); }
.unknown .words { border-bottom-style: dashed; }
.U .words::after, .N .words::after { content: ""; position: absolute; bottom: -5px;
  border: 4px solid transparent; }
.U .words::after { right: 0; border-left: 8px solid currentColor; border-right: 0; }
.N .words::after { left: 0; border-right: 8px solid currentColor; border-left: 0; }
.note { display: block; text-align: center; font-size: 12px; padding: 1px 8px 0; }
.remark { color: var(--pale); }
.remark.recovery { color: var(--odd); }
.remark.violation { color: var(--bad); font-weight: bold; }
.missing, .end { text-align: center; color: var(--odd); padding: 4px 8px; }
aside { position: sticky; top: var(--top, 64px); width: 46ch; max-height: calc(100vh - 70px);
  overflow: auto; border-left: 1px solid var(--line); padding: 8px; }
aside[hidden] { display: none; }
aside h2 { font-size: 13px; margin: 10px 0 4px; }
aside h2:first-of-type { margin-top: 0; }
#octets { line-height: 1.6; }
#octets span { padding: 1px 2px; border-radius: 3px; }
.lit { background: var(--mark); outline: 1px solid var(--odd); }
table { border-collapse: collapse; width: 100%; }
td, th { text-align: left; vertical-align: top; padding: 1px 4px 1px 0;
  border-bottom: 1px solid var(--line); font-weight: normal; }
th { color: var(--pale); }
td.clause { color: var(--pale); white-space: nowrap; }
#close { float: right; }
#keys { white-space: pre-wrap; }
@media (max-width: 900px) {
  main { display: block; }
  header { position: static; }
  details.group > summary { top: 0; }
  aside { position: fixed; left: 0; right: 0; bottom: 0; top: auto; width: auto; max-height: 55vh;
    background: var(--back); border-left: 0; border-top: 2px solid var(--ink); z-index: 3; }
  .frame { grid-template-columns: 6ch 1fr 11ch; padding: 3px 4px; scroll-margin: 8px 0 56vh; }
  .number { grid-row: 1; grid-column: 1; text-align: left; }
  .time { grid-row: 1; grid-column: 3; }
  .between { grid-row: 2; grid-column: 1 / 4; }
  .user { grid-row: 3; grid-column: 1 / 3; text-align: left; font-size: 12px; }
  .network { grid-row: 3; grid-column: 3; text-align: right; font-size: 12px; }
  #search { width: 100%; }
}
@media print {
  header > label, header > button, aside { display: none !important; }
  header { position: static; }
  details.group > summary { position: static; }
  .frame { content-visibility: visible; break-inside: avoid; }
  body { font-size: 9px; background: white; color: black; }
}
</style>
</head>
<body>
<header>
<h1>LAPD frames</h1>
<label><input id="search" type="search" placeholder="search words and octets  /"></label>
<label>link <select id="link"></select></label>
<label>call <select id="call"></select></label>
<label><input id="kindI" type="checkbox" checked> I</label>
<label><input id="kindS" type="checkbox" checked> S</label>
<label><input id="kindU" type="checkbox" checked> U</label>
<label>show <select id="show"><option value="all">all frames</option><option value="remarked">with a remark</option><option value="violation">violations</option></select></label>
<label>fold by <select id="fold"><option value="none">nothing</option><option value="link">link</option><option value="call">call</option></select></label>
<label>time <select id="clock"><option value="relative">since the first</option><option value="delta">since the one before</option><option value="day">of day, UTC</option></select></label>
<button id="help" type="button">keys</button>
<div id="said" role="status"></div>
</header>
<main>
<div id="frames"><noscript>This page needs JavaScript. It loads nothing from a network.</noscript></div>
<aside id="details" hidden aria-label="the chosen frame"></aside>
</main>
<script type="application/json" id="data">[
"##;
