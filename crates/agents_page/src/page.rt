//! The page and its policy. Made by `scripts/page.py` from `web/desk.html`.

/// What the page may load and do: its own style and script, and requests to the desk that served it.
pub const POLICY: &str =
    r#"default-src 'none'; script-src 'sha256-4fUdHBr/GQYhsEc+LWgvXi3arkJHr0EdQRrIN3NZ4qw='; style-src 'sha256-v/aN891YSYsU5LbsCJGC/2lHDiq8mbGuZChwuWO8NmE='; connect-src 'self'; frame-ancestors 'none'; base-uri 'none'; form-action 'none'"#;

/// The page, in HTML.
pub const PAGE: &str = r##"<!doctype html>
<html lang="en">
<head>
<meta charset="utf-8">
<meta name="viewport" content="width=device-width, initial-scale=1">
<meta name="color-scheme" content="light dark">
<title>Desk</title>
<style>
:root {
  color-scheme: light dark;
  --ground: light-dark(#f2f4f7, #10151b);
  --card: light-dark(#fff, #19202a);
  --sunk: light-dark(#e9edf2, #131920);
  --ink: light-dark(#17202a, #e8edf2);
  --soft: light-dark(#4a5663, #abb7c3);
  --line: light-dark(#d3d9e0, #323d49);
  --edge: light-dark(#74808c, #7f8c99);
  --accent: light-dark(#14589a, #86bdf9);
  --on-accent: light-dark(#fff, #0b1118);
  --chosen: light-dark(#dcebfb, #1d3a58);
  --good: light-dark(#1a6a35, #80d195);
  --warn: light-dark(#874a00, #f1b562);
  --bad: light-dark(#a02c14, #ffa28c);
  --taken: light-dark(#cbdff4, #25486b);
  --full: light-dark(#ecd2cb, #57322b);
  --flight: light-dark(#d9e7fb, #1f3d66);
  --room: light-dark(#dcefda, #214a2c);
  --transfer: light-dark(#f7e6c4, #4f3b11);
  --cover: light-dark(#eadff6, #413060);
}
* { box-sizing: border-box; }
[hidden] { display: none !important; }
body {
  display: flex; flex-direction: column; height: 100dvh; margin: 0; background: var(--ground); color: var(--ink);
  font: 15px/1.45 system-ui, sans-serif;
}
h1 { margin: 0; }
h2 { font-size: 17px; line-height: 1.3; margin: 0 0 8px; }
h2.big { font-size: 21px; }
h3 { font-size: 15px; line-height: 1.3; margin: 0; }
#one > h3 { margin: 16px 0 6px; }
h1:focus, h2:focus, main:focus { outline: none; }
p { margin: 0 0 8px; }
.code { font-family: ui-monospace, monospace; }
.soft { color: var(--soft); }
.small { font-size: 13px; }
.good { color: var(--good); }
.warn { color: var(--warn); }
.bad { color: var(--bad); }
a { color: var(--accent); }
:focus-visible { outline: 3px solid var(--accent); outline-offset: 2px; }
.unseen { position: absolute; width: 1px; height: 1px; overflow: hidden; clip-path: inset(50%); white-space: nowrap; }
.skip { position: absolute; left: -9999px; top: 4px; z-index: 9; padding: 8px 12px; background: var(--card); }
.skip:focus { left: 4px; }

button, input, select {
  font: inherit; color: inherit; background: var(--card); border: 1px solid var(--edge); border-radius: 6px;
  min-height: 34px; padding: 4px 10px;
}
input[type="number"] { width: 68px; padding-right: 4px; }
input[type="checkbox"] { min-height: 0; width: 18px; height: 18px; margin: 0; accent-color: var(--accent); }
button { cursor: pointer; }
button:hover { border-color: var(--accent); color: var(--accent); }
button.main:not([aria-disabled]) {
  background: var(--accent); color: var(--on-accent); border-color: var(--accent); font-weight: 600;
}
button.main:not([aria-disabled]):hover { text-decoration: underline; color: var(--on-accent); }
button.flat:not([aria-disabled]) { border-color: transparent; background: transparent; color: var(--accent); padding: 4px 8px; }
button.flat:not([aria-disabled]):hover { border-color: var(--accent); }
button.sign { min-width: 34px; padding: 2px 6px; }
[aria-disabled="true"] {
  color: var(--soft); border: 1px dashed var(--edge); background: transparent; cursor: default; font-weight: 400;
}
[aria-disabled="true"]:hover { color: var(--soft); text-decoration: none; border-color: var(--edge); }
label { display: inline-flex; align-items: center; gap: 6px; }
.row { display: flex; flex-wrap: wrap; gap: 8px; align-items: center; }
.card { background: var(--card); border: 1px solid var(--line); border-radius: 10px; padding: 14px; }

header {
  background: var(--card); border-bottom: 1px solid var(--line); display: flex; flex-wrap: wrap; align-items: center; gap: 2px 14px; padding: 6px 16px;
}
.brand { font-size: 18px; }
nav { display: flex; gap: 2px; }
nav a { padding: 7px 11px; border-radius: 6px; color: var(--ink); text-decoration: none; white-space: nowrap; }
nav a:hover { background: var(--sunk); }
nav a[aria-current] { background: var(--chosen); font-weight: 600; box-shadow: inset 0 -3px var(--accent); }
#state { margin: 0 0 0 auto; font-size: 13px; color: var(--soft); }
#state::before {
  content: ""; display: inline-block; width: 9px; height: 9px; border-radius: 50%; background: var(--good);
  margin-right: 6px;
}
#state.off::before { background: transparent; border: 2px solid var(--bad); }
#away { background: var(--full); border-bottom: 1px solid var(--line); padding: 8px 16px; }
#away p { margin: 0; }
#notes { display: flex; flex-wrap: wrap; align-items: start; max-height: 25dvh; overflow-y: auto; padding: 0 16px; gap: 0 16px; font-size: 14px; }
.note {
  flex: 0 1 430px; margin: 6px 0; display: flex; gap: 8px; align-items: start; justify-content: space-between; background: var(--card); padding: 8px 8px 8px 12px;
  border: 1px solid var(--edge); border-left: 6px solid var(--good); border-radius: 8px;
}
.note.isbad { border-left-color: var(--bad); }
.note.iswarn { border-left-color: var(--warn); }
.note p { margin: 2px 0; white-space: pre-line; overflow-wrap: anywhere; }

/* what scrolls is between the header and the bar */
main { flex: 1; min-height: 0; overflow-y: auto; padding: 16px 16px 0; width: 100%; max-width: 1900px; margin: 0 auto; }
#list { padding-bottom: 14px; }
.desk { display: grid; gap: 16px; height: 100%; padding-bottom: 16px; grid-template: minmax(0, 1fr) / minmax(0, 1fr); }
.desk > section { overflow-y: auto; scroll-padding: 8px 0 64px; }
main .side { align-self: start; max-height: 100%; padding-bottom: 0; }
#v-stock { display: flex; flex-direction: column; overflow: hidden; margin: 0 -6px; padding: 0 6px; }
.tools { display: flex; flex-wrap: wrap; gap: 6px 12px; align-items: end; margin: 0 0 10px; }
.tools label { flex-direction: column; align-items: flex-start; gap: 2px; font-size: 13px; color: var(--soft); }
.tools select, .tools input { color: var(--ink); font-size: 15px; }
.turn { display: flex; gap: 4px; align-items: end; }

.key { display: flex; flex-wrap: wrap; gap: 4px 16px; font-size: 13px; color: var(--soft); margin-bottom: 10px; }
.key i {
  display: inline-block; width: 16px; height: 16px; border: 1px solid var(--edge); border-radius: 4px;
  vertical-align: -3px; margin-right: 5px;
}
.key i.half { background: linear-gradient(to top, var(--taken) 50%, transparent 50%); }
.key i.isfull { background: var(--full); }
.cals { display: grid; gap: 12px; align-content: start; overflow: auto; flex: 1; min-height: 0; scroll-padding: 40px 0 0 160px; grid-template-columns: repeat(auto-fill, minmax(min(100%, 300px), 1fr)); container-type: inline-size; }
.cals:has(.grid) { grid-template-columns: minmax(100%, max-content); }
.cal { padding: 10px 10px 8px; content-visibility: auto; contain-intrinsic-size: auto 390px; }
.cal .top { display: flex; justify-content: space-between; align-items: baseline; gap: 8px; margin-bottom: 4px; }
.cal table { width: 100%; border-collapse: separate; border-spacing: 2px; table-layout: fixed; }
.cal th { font-size: 12px; font-weight: 500; color: var(--soft); padding: 0; }
.cal td {
  padding: 0; height: 48px; text-align: center; vertical-align: top; border-radius: 6px; font-size: 12px;
  color: var(--soft);
}
.cal td.none { padding-top: 2px; }
.night {
  position: relative; overflow: hidden; width: 100%; height: 48px; min-height: 0; padding: 1px 0 0; border: 1px solid var(--line);
  border-radius: 6px; display: block; line-height: 1.15; color: var(--ink);
}
.night i { position: absolute; left: 0; right: 0; bottom: 0; height: var(--part); background: var(--taken); }
.night.isfull i { background: var(--full); }
.night span { position: relative; display: block; }
.night .day { font-size: 11px; color: var(--ink); }
.night .free { font-size: 15px; font-weight: 650; }
.night.isfull .free { font-weight: 400; }
.night .of { font-size: 11px; }
.night:hover { color: var(--ink); border-color: var(--accent); }
[aria-selected="true"] > .night::after {
  content: ""; position: absolute; inset: -1px; border: 3px solid var(--accent); border-radius: 6px;
}
.night:focus-visible { outline-offset: 1px; z-index: 1; }
.cals > :not(.cal) { grid-column: 1 / -1; margin: 0; }
.cals > p { position: sticky; left: 0; max-width: 100cqw; }
.grid { width: max-content; min-width: 100%; padding: 0; }
.grid table { width: 100%; border-spacing: 0; font-size: 12px; }
.grid th { position: sticky; left: 0; z-index: 2; padding: 0 4px 0 0; background: var(--card); font-weight: 500; text-align: left; }
.grid thead th { top: 0; z-index: 3; padding: 0; text-align: center; line-height: 1.2; color: var(--soft); }
.grid th:not(:first-child) { left: auto; z-index: 2; }
.grid th.sought { background: var(--chosen); color: var(--ink); }
.grid td { min-width: 24px; height: 24px; padding: 0; }
.grid .night { height: 24px; padding: 0; border-radius: 0; }
.grid .day, .grid .of { display: none; }
.grid .night .free { font-size: 11px; font-weight: 400; }
.kind { display: inline-block; padding: 0 7px; border-radius: 5px; font-size: 13px; font-weight: 500; color: var(--ink); }
.kind.flight { background: var(--flight); }
.kind.room { background: var(--room); }
.kind.transfer { background: var(--transfer); }
.kind.cover { background: var(--cover); }

#bar {
  margin: 0 16px; background: var(--card); border: 2px solid var(--accent);
  border-bottom: 0; border-radius: 10px 10px 0 0; padding: 10px 14px; box-shadow: 0 -4px 16px rgb(0 0 0 / .2);
}
#bar h2 { margin: 0 0 6px; font-size: 15px; }
#bar .row { gap: 8px 14px; }

.steps { list-style: none; margin: 0 0 10px; padding: 0; }
.step { border: 1px solid var(--line); border-radius: 8px; padding: 8px 10px; }
.step.isbad { border: 2px solid var(--bad); }
.step .top { display: flex; align-items: center; gap: 4px; }
.step .top h3 { margin-right: auto; }
.options { list-style: none; margin: 4px 0 0; padding: 0; }
.options > li { padding: 6px 0; border-top: 1px solid var(--line); }
.options .row { margin-top: 4px; gap: 4px 8px; }
.options .what { flex: 1; }
.options label { font-size: 13px; color: var(--soft); gap: 4px; }
.options input { color: var(--ink); min-height: 30px; padding: 2px 4px; font-size: 14px; }
.options input[type="date"] { width: 126px; }
.options input[type="number"] { width: 50px; }
.options button { min-height: 28px; padding: 1px 6px; font-size: 13px; }
.save { margin: 0; padding: 5px 0 5px 12px; font-size: 14px; border-left: 3px solid var(--line); margin-left: 20px; }
.save.on { border-left: 3px dashed var(--accent); }
.save label { min-height: 26px; }
.last { height: 8px; }
#line { width: 100%; margin-bottom: 8px; font-size: 13px; }
.begin { position: sticky; bottom: 0; background: var(--card); padding: 8px 0; border-top: 1px solid var(--line); }
#sheet { display: none; }
.hint { font-size: 13px; color: var(--soft); margin: 4px 0 8px; }

table.list { width: 100%; border-collapse: collapse; }
table.list th {
  text-align: left; font-size: 13px; font-weight: 600; color: var(--soft); padding: 4px 8px;
  border-bottom: 1px solid var(--edge);
}
table.list td { padding: 7px 8px; border-bottom: 1px solid var(--line); vertical-align: top; overflow-wrap: anywhere; }
table.list tr.now td { background: var(--chosen); }
table.list td:first-child, table.list th:first-child { width: 82px; }
table.list a { display: inline-block; min-width: 40px; min-height: 24px; font-weight: 600; }
.list .plan { display: -webkit-box; -webkit-line-clamp: 3; -webkit-box-orient: vertical; overflow: hidden; }
.is {
  display: inline-block; padding: 1px 9px; border-radius: 20px; border: 1px solid; font-size: 13px; font-weight: 600;
  white-space: nowrap;
}
.is.run { color: var(--accent); }
.is.back { color: var(--warn); }
.is.ended { color: var(--good); }
.is.undone { color: var(--soft); border-style: dashed; }

.path { overflow-x: auto; border: 1px solid var(--line); border-radius: 8px; background: var(--card); margin: 0 0 6px; }
.path svg { display: block; }
.drawn path { fill: none; }
.path text { fill: var(--ink); font-size: 12px; }
.path .code { font-weight: 600; }
.path .dim { fill: var(--soft); }
.drawn .level { stroke: var(--line); }
.drawn .safe { stroke: var(--accent); stroke-width: 1.5; stroke-dasharray: 3 4; }
.drawn .stands { stroke: var(--good); stroke-width: 5; stroke-linecap: round; }
.drawn .gone { stroke: var(--good); stroke-width: 2; stroke-dasharray: 5 4; }
.drawn .down { stroke: var(--bad); stroke-width: 2.5; }
.drawn .stay { stroke: var(--edge); stroke-width: 2.5; }
.drawn .turning { stroke: var(--bad); stroke-width: 1.5; stroke-dasharray: 3 3; }
.drawn .turned { fill: var(--bad); }
.drawn .flag { fill: var(--accent); stroke: var(--accent); stroke-width: 1.5; }
.drawn .ahead { stroke: var(--edge); stroke-width: 2; stroke-dasharray: 1 6; stroke-linecap: round; }
.drawn .dot { fill: var(--ink); }
.drawn .here { fill: var(--card); stroke: var(--ink); stroke-width: 3; }
.signs {
  display: flex; flex-wrap: wrap; gap: 2px 16px; font-size: 13px; color: var(--soft); margin: 0 0 14px; padding: 0;
  list-style: none;
}
.signs svg { vertical-align: middle; margin-right: 5px; }
.acts { margin: 10px 0 14px; }
.acts button { min-height: 40px; }
.acts p { margin: 8px 0 0; }
ol.items { margin: 0; padding-left: 26px; }
ol.items li { padding: 2px 0; }
ol.items .code { display: inline-block; min-width: 46px; font-weight: 600; }
.planned { margin: 0 0 8px; padding: 0; list-style: none; }
.planned > li {
  padding: 6px 8px; border-left: 5px solid var(--line); margin-bottom: 4px; background: var(--sunk);
  border-radius: 0 6px 6px 0;
}
.planned > li.isdone { border-left-color: var(--good); }
.planned > li.isnext { border-left-color: var(--accent); }
.planned ul { margin: 2px 0 0; padding-left: 20px; }
dialog {
  color: var(--ink); background: var(--card); border: 1px solid var(--edge); border-radius: 10px; padding: 18px;
  width: min(460px, calc(100vw - 24px));
}
dialog::backdrop { background: rgb(0 0 0 / .45); }
dialog .row { justify-content: flex-end; margin-top: 12px; }
#v-who .card { max-width: 480px; margin: 5vh auto; }

@media print, (max-width: 1079px) {
  [data-view="stock"] #v-plan, [data-view="plan"] #v-stock, [data-view="journey"] #v-list, [data-view="list"] #v-one {
    display: none;
  }
}
@media screen and (min-width: 1080px) {
  .desk.book { grid-template-columns: minmax(0, 1fr) 440px; }
  .desk.own { grid-template-columns: 460px minmax(0, 1fr); }
}
@media (max-width: 480px) {
  main { padding: 12px 10px 0; }
  header { padding: 6px 10px; }
  .brand { display: none; }
  nav { width: 100%; justify-content: space-between; }
  nav a { padding: 7px 8px; }
  #bar { margin: 0; border-radius: 0; border-left: 0; border-right: 0; }
  .card { padding: 10px; }
  .cal { padding: 8px 4px; }
  .tools select, .tools input { font-size: 14px; padding: 2px 4px; }
  #h-stock { position: absolute; clip-path: inset(50%); }
}
@media print, (max-height: 479px) {
  body { display: block; }
  body, .desk { height: auto; grid-template-rows: auto; }
}
@media print {
  :root { --ground: #fff; color-scheme: light; print-color-adjust: exact; }
  header, #away, #bar, #notes, .acts, .tools, .begin, button:not(.night), input, .options label, #plan > label, .hint label, .save:not(.on) {
    display: none !important;
  }
  main, .desk > section, .cals, .path { overflow: visible !important; max-height: none; }
  #v-stock { display: block; }
  .cal, .step, .planned > li { content-visibility: visible; break-inside: avoid; }
  .path svg { max-width: 100%; height: auto; }
  .grid { width: auto; zoom: .75; }
  #sheet { display: block; }
}
</style>
</head>
<body>
<a class="skip" href="#main" data-text="skip"></a>
<header>
<strong class="brand">Desk</strong>
<nav data-label="views" id="nav" hidden>
<a href="#/stock" data-for="stock" data-text="view.stock"></a>
<a href="#/plan" data-for="plan"><span data-text="view.plan"></span><span id="steps-in-plan"></span></a>
<a href="#/journeys" data-for="list journey"><span data-text="view.list"></span><span id="open-ones"></span></a>
</nav>
<p id="state" role="status"></p>
<button id="who" type="button" class="flat" hidden></button>
<strong id="given" hidden></strong>
</header>
<div id="away" role="alert" hidden></div>
<main id="main" tabindex="-1">
<h1 id="title" class="unseen" tabindex="-1">Desk</h1>
<p id="sheet"></p>
<noscript><p>This page works with its script, which this browser does not run.</p>
<p lang="de">Diese Seite braucht ihr Skript, das dieser Browser nicht ausführt.</p></noscript>
<section id="v-who" aria-labelledby="h-who" hidden>
<form class="card" id="who-form" novalidate>
<h2 id="h-who" class="big" tabindex="-1" data-text="view.who"></h2>
<p data-text="whoSay"></p>
<p><label for="agent" data-text="agent"></label></p>
<div class="row"><input id="agent" maxlength="16" autocomplete="off" autocapitalize="none" spellcheck="false" aria-describedby="agent-form">
<button class="main" data-text="beginWork"></button></div>
<p class="hint" id="agent-form" data-text="agentForm"></p>
<div id="known"></div>
</form>
</section>
<div class="desk book" id="book" hidden>
<section id="v-stock" aria-labelledby="h-stock">
<h2 id="h-stock" class="big" tabindex="-1" data-text="view.stock"></h2>
<div id="filters"></div>
<div id="cals" class="cals"></div>
</section>
<section id="v-plan" class="card side" aria-labelledby="h-plan">
<h2 id="h-plan" class="big" tabindex="-1" data-text="view.plan"></h2>
<div id="plan"></div>
</section>
</div>
<div class="desk own" id="own" hidden>
<section id="v-list" class="card side" aria-labelledby="h-list">
<h2 id="h-list" class="big" tabindex="-1" data-text="view.list"></h2>
<div id="list"></div>
</section>
<section id="v-one" class="card" aria-labelledby="h-one">
<h2 id="h-one" class="big" tabindex="-1" data-text="anyJourney"></h2>
<div id="one"></div>
</section>
</div>
</main>
<section id="bar" aria-labelledby="h-bar" hidden></section>
<div id="notes" aria-live="polite" role="log" data-label="happened"></div>
<dialog id="sure" aria-labelledby="sure-title"><h2 id="sure-title"></h2><p id="sure-text"></p>
<div class="row"><button type="button" id="sure-no" data-text="leaveIt"></button><button type="button" class="main" id="sure-yes"></button></div></dialog>
<script>
'use strict';
(() => {

const WORDS = {
  skip: ['Skip to the content', 'Zum Inhalt'],
  views: ['Views', 'Ansichten'],
  'view.stock': ['Stock', 'Bestand'],
  'view.plan': ['New journey', 'Neue Reise'],
  'view.list': ['My journeys', 'Meine Reisen'],
  'view.who': ['Who works here?', 'Wer arbeitet hier?'],
  anyJourney: ['One journey', 'Eine Reise'],
  journey: ['Journey {0}', 'Reise {0}'],
  'kind.flight': ['flight', 'Flug'],
  'kind.room': ['room', 'Zimmer'],
  'kind.transfer': ['transfer', 'Transfer'],
  'kind.cover': ['cover', 'Versicherung'],
  nights: ['{0} night|{0} nights', '{0} Nacht|{0} Nächte'],
  leaving: ['leaving {0}', 'Abreise {0}'],
  places: ['{0} place|{0} places', '{0} Platz|{0} Plätze'],
  products: ['{0} product|{0} products', '{0} Produkt|{0} Produkte'],
  steps: ['{0} step|{0} steps', '{0} Schritt|{0} Schritte'],
  'refused.BadHead': ['The desk does not take requests from this address. Open it as 127.0.0.1 or localhost.', 'Das Buchungssystem nimmt unter dieser Adresse keine Anfragen an. Öffnen Sie es als 127.0.0.1 oder localhost.'],
  'refused.NoAgent': ['The desk does not accept this name of an agent.', 'Das Buchungssystem nimmt dieses Kürzel nicht an.'],
  'refused.NoKey': ['The desk does not accept the key of this request.', 'Das Buchungssystem nimmt den Schlüssel dieser Anfrage nicht an.'],
  'refused.BadBody': ['The desk cannot read this request.', 'Das Buchungssystem kann diese Anfrage nicht lesen.'],
  'refused.UnknownPath': ['This desk does not know what was asked for. It may be an older one.', 'Das Buchungssystem kennt nicht, wonach gefragt wurde. Vielleicht ist es älter als diese Seite.'],
  'refused.WrongMethod': ['This desk does not do what was asked for.', 'Das Buchungssystem tut nicht, was verlangt wurde.'],
  'refused.NoJourney': ['You have no journey of this number.', 'Sie haben keine Reise mit dieser Nummer.'],
  'refused.Finished': ['The journey has ended or is undone. It cannot be changed any more.', 'Die Reise ist abgeschlossen oder aufgehoben. Sie kann nicht mehr geändert werden.'],
  'refused.NoSavePoint': ['The journey cannot turn back to there: no save-point stands there, or it goes back past it already.', 'Die Reise kann nicht dorthin zurück: Dort ist kein Sicherungspunkt, oder sie geht schon weiter zurück.'],
  'refused.NoSave': ['No save-point can be taken here: one stands here already, or the journey is at its start or on its way back.', 'Hier kann kein Sicherungspunkt gesetzt werden: Es ist schon einer da, oder die Reise ist am Start oder auf dem Rückweg.'],
  'refused.KeyReused': ['The key of this request was used for another one before. Please do it again.', 'Der Schlüssel dieser Anfrage gehört schon zu einer anderen. Bitte versuchen Sie es noch einmal.'],
  'refused.TooLarge': ['The request is too large.', 'Die Anfrage ist zu groß.'],
  'refused.Limit': ['The desk cannot hold any more events.', 'Das Buchungssystem kann keine weiteren Ereignisse aufnehmen.'],
  'refused.NoLength': ['The request came without its length.', 'Die Anfrage kam ohne ihre Länge an.'],
  refusedOther: ['The desk refused it: {0}.', 'Das Buchungssystem hat es abgelehnt: {0}.'],
  refusedPlan: ['The plan is refused: {0}.', 'Der Plan ist abgelehnt: {0}.'],
  inStep: ['in step {0}, {1}', 'in Schritt {0}, {1}'],
  'cause.tries': ['the tries are a number from 0 to 9', 'die Versuche sind eine Zahl von 0 bis 9'],
  'cause.steps': ['a journey has 1 to 24 steps', 'eine Reise hat 1 bis 24 Schritte'],
  'cause.options': ['a step has 1 to 8 options', 'ein Schritt hat 1 bis 8 Varianten'],
  'cause.save': ['there is no save-point after the last step', 'nach dem letzten Schritt gibt es keinen Sicherungspunkt'],
  'cause.shape': ['it is not written as a plan is', 'die Schreibweise ist nicht die eines Plans'],
  'cause.kind': ['its kind is F, R, T or C', 'als Art gibt es F, R, T und C'],
  'cause.code': ['a supplier and a product are 1 to 8 of A to Z and 0 to 9', 'Anbieter und Produkt haben 1 bis 8 Zeichen aus A bis Z und 0 bis 9'],
  'cause.night': ['its first night is no day from 2000 to 2099', 'die erste Nacht ist kein Tag von 2000 bis 2099'],
  'cause.nights': ['it has too many nights for its kind (a flight or a transfer 1, a room 30, cover 60), or ends after 2099', 'es sind zu viele Nächte für diese Art (Flug und Transfer 1, Zimmer 30, Versicherung 60), oder sie enden nach 2099'],
  'cause.count': ['it wants 1 to 50 places', 'es sind 1 bis 50 Plätze möglich'],
  lineEnd: ['A plan line ends with ! and one digit, the tries.', 'Eine Planzeile endet mit ! und einer Ziffer, den Versuchen.'],
  lineBad: ['A plan line is not read: {0}.', 'Die Planzeile ist nicht lesbar: {0}.'],
  lineStep: ['Step {0} of the plan line is not read: {1}.', 'Schritt {0} der Planzeile ist nicht lesbar: {1}.'],
  whoSay: ['The desk shows you your own journeys and those of nobody else. The name is kept in this browser; another window may work for another agent.', 'Sie sehen Ihre eigenen Reisen und keine anderen. Das Kürzel bleibt in diesem Browser gespeichert; in einem anderen Fenster kann jemand anderes arbeiten.'],
  agent: ['Agent', 'Kürzel'],
  agentIs: ['Agent {0}', 'Kürzel {0}'],
  agentChange: ['Agent {0}, change', 'Kürzel {0}, ändern'],
  agentForm: ['1 to 16 small letters and digits, such as ann', '1 bis 16 Kleinbuchstaben und Ziffern, zum Beispiel ann'],
  agentBad: ['An agent is 1 to 16 small letters and digits.', 'Ein Kürzel hat 1 bis 16 Kleinbuchstaben und Ziffern.'],
  beginWork: ['Begin work', 'Anfangen'],
  before: ['Worked here before:', 'Hier haben gearbeitet:'],
  signedIn: ['You are signed in as agent {0} now.', 'Sie sind jetzt als {0} angemeldet.'],
  looking: ['Looking for the desk', 'Verbindung wird gesucht'],
  sending: ['Sending', 'Wird gesendet'],
  sendingNow: ['Sending …', 'Wird gesendet …'],
  upToDate: ['Up to date', 'Aktuell'],
  again: ['The desk can be reached again.', 'Das Buchungssystem ist wieder erreichbar.'],
  old: [' What you see may be old.', ' Was Sie sehen, kann veraltet sein.'],
  'reach.slow': ['No answer yet', 'Noch keine Antwort'],
  'reach.away': ['Not reached', 'Nicht erreichbar'],
  'reach.out': ['Signed out', 'Abgemeldet'],
  'reach.barred': ['Not allowed', 'Nicht erlaubt'],
  'reach.gone': ['Not found', 'Nicht gefunden'],
  'reach.lost': ['Not reached', 'Nicht erreichbar'],
  'why.slow': ['The desk has not answered yet. If the browser asks for your name and password, sign in.', 'Das Buchungssystem hat noch nicht geantwortet. Wenn der Browser nach Name und Passwort fragt, melden Sie sich an.'],
  'why.away': ['The desk cannot be reached. This page tries again every two seconds.', 'Das Buchungssystem ist nicht erreichbar. Diese Seite versucht es alle zwei Sekunden wieder.'],
  'why.out': ['You are signed out. Nothing is sent until you sign in again.', 'Sie sind abgemeldet. Bis Sie sich wieder anmelden, wird nichts gesendet.'],
  'why.barred': ['The server in front of the desk does not allow you to see this.', 'Der Server vor dem Buchungssystem erlaubt Ihnen nicht, dies zu sehen.'],
  'why.gone': ['The server in front of the desk does not find it at this address.', 'Der Server vor dem Buchungssystem findet es unter dieser Adresse nicht.'],
  'why.lost': ['A request got no answer. This page retries it every two seconds.', 'Eine Anfrage blieb ohne Antwort. Diese Seite wiederholt sie alle zwei Sekunden.'],
  sentThen: ['{0} request will be sent then, and takes effect once: {1}.|{0} requests will be sent then, and each takes effect once: {1}.', '{0} Anfrage wird dann gesendet und wirkt einmal: {1}.|{0} Anfragen werden dann gesendet, und jede wirkt einmal: {1}.'],
  retried: ['{0} request will be retried, and takes effect once: {1}.|{0} requests will be retried, and each takes effect once: {1}.', '{0} Anfrage wird wiederholt und wirkt einmal: {1}.|{0} Anfragen werden wiederholt, und jede wirkt einmal: {1}.'],
  sentLater: ['{0} request will be sent once the agent who made it is signed in here again: {1}.|{0} requests will be sent once the agent who made it is signed in here again: {1}.', '{0} Anfrage wird gesendet, sobald hier wieder angemeldet ist, wer sie gestellt hat: {1}.|{0} Anfragen werden gesendet, sobald hier wieder angemeldet ist, wer sie gestellt hat: {1}.'],
  asideAre: ['Set aside, since the server in front of the desk turned it away: {0}.', 'Zurückgelegt, weil der Server vor dem Buchungssystem es abgewiesen hat: {0}.'],
  signIn: ['Sign in again', 'Wieder anmelden'],
  sendAgain: ['Send again', 'Noch einmal senden'],
  drop: ['Drop', 'Verwerfen'],
  dropAside: ['Drop what is set aside', 'Das Zurückgelegte verwerfen'],
  notKept: ['This browser cannot keep the request, so it was not sent. Allow this page to store data, or free some space.', 'Dieser Browser kann die Anfrage nicht speichern, deshalb wurde sie nicht gesendet. Erlauben Sie dieser Seite, Daten zu speichern, oder schaffen Sie Platz.'],
  happened: ['What happened', 'Was geschehen ist'],
  refusedMark: ['Refused. ', 'Abgelehnt. '],
  close: ['Close', 'Schließen'],
  closeNote: ['Close: {0}', 'Schließen: {0}'],
  leaveIt: ['Leave it', 'Abbrechen'],
  whose: [' (for {0})', ' (für {0})'],
  restarted: ['Restarted (seen at {0}):{1}', 'Neu gestartet (bemerkt um {0}):{1}'],
  'did.undone': ['journey {0} was undone', 'Reise {0} wurde aufgehoben'],
  'did.ended': ['journey {0} has ended', 'Reise {0} ist abgeschlossen'],
  didSteps: ['step {1} of journey {2} was done|steps {1} of journey {2} were done', 'Schritt {1} von Reise {2} wurde ausgeführt|Schritte {1} von Reise {2} wurden ausgeführt'],
  hasMoved: ['{0}{1}: not done, since journey {2} has moved since it was shown.', '{0}{1}: nicht ausgeführt, denn Reise {2} hat sich geändert, seit sie angezeigt wurde.'],
  begun: ['Journey {0} is begun{1}.', 'Reise {0} ist begonnen{1}.'],
  ofJourney: ['Journey {0}{1}: {2}', 'Reise {0}{1}: {2}'],
  stopped: ['Journey {0}: {1} Stopped.', 'Reise {0}: {1} Angehalten.'],
  stoppedAt: ['Journey {0}: {1} Stopped before step {2}, which does not fit now: {3}.', 'Reise {0}: {1} Angehalten vor Schritt {2}, der jetzt nicht passt: {3}.'],
  'end.ended': [' All steps are done: the journey has ended.', ' Alle Schritte sind ausgeführt: Die Reise ist abgeschlossen.'],
  'end.undone': [' Nothing is held any more: the journey is undone.', ' Es ist nichts mehr belegt: Die Reise ist aufgehoben.'],
  'end.run': [' It goes forward again.', ' Sie geht wieder vorwärts.'],
  'end.there': [' It is there.', ' Sie ist schon dort.'],
  'end.back': [' Its steps are then given back, one at a time.', ' Ihre Schritte werden dann einzeln zurückgegeben.'],
  stepDone: ['step {0} is done{1}{2}.{3}', 'Schritt {0} ist ausgeführt{1}{2}.{3}'],
  stepGiven: ['step {0} is given back{1}.{2}', 'Schritt {0} ist zurückgegeben{1}.{2}'],
  saveTaken: ['save-point {0} is taken.', 'Sicherungspunkt {0} ist gesetzt.'],
  withOption: [', with option {0}', ', mit Variante {0}'],
  turnsSince: ['{0}: it turns back {1}.{2}', '{0}; sie geht zurück {1}.{2}'],
  'turned.r': ['the step found no place', 'der Schritt fand keinen Platz'],
  'turned.s': ['the desk was started anew', 'das Buchungssystem wurde neu gestartet'],
  'turned.a': ['as you asked', 'wie gewünscht'],
  toSave: ['to save-point {0}', 'zu Sicherungspunkt {0}'],
  toStart: ['to the start', 'zum Start'],
  notAllotted: ['nothing is allotted on {0}', 'kein Kontingent am {0}'],
  noneFree: ['none free on {0}', 'nichts frei am {0}'],
  onlyFree: ['only {0} free on {1}', 'nur {0} frei am {1}'],
  free: ['{0} free', '{0} frei'],
  byNow: ['by now {0}', 'inzwischen {0}'],
  freeAt: ['{0} free on {1}, the fullest night', '{0} frei am {1}, der vollsten Nacht'],
  fitsNow: ['Fits now: {0}', 'Passt jetzt: {0}'],
  notNow: ['Does not fit now: {0}', 'Passt jetzt nicht: {0}'],
  shown: ['What is shown', 'Was gezeigt wird'],
  kind: ['Kind', 'Art'],
  supplier: ['Supplier', 'Anbieter'],
  product: ['Product', 'Produkt'],
  all: ['all', 'alle'],
  month: ['Month', 'Monat'],
  monthBefore: ['Month before', 'Monat davor'],
  monthAfter: ['Month after', 'Monat danach'],
  table: ['Table', 'Tabelle'],
  freePlaces: ['Free places', 'Freie Plätze'],
  from: ['From', 'Von'],
  to: ['To', 'Bis'],
  lookingStock: ['Looking at the stock …', 'Der Bestand wird gelesen …'],
  noPlaces: ['The desk has no places yet. They come with the allotment files of suppliers, which whoever runs the desk loads.', 'Es gibt noch keine Plätze. Sie kommen mit den Kontingenten der Anbieter; wer das Buchungssystem betreibt, lädt sie.'],
  found: ['{0} free from {1} to {2}: {3}, rooms and cover on each night, others on one of these days. ', '{0} frei vom {1} bis {2}: {3}; Zimmer und Versicherungen in jeder Nacht, anderes an einem dieser Tage. '],
  inEach: ['In each night: free places of those allotted.', 'In jeder Nacht: freie Plätze vom Kontingent.'],
  inPart: ['taken in part', 'zum Teil belegt'],
  full: ['nothing free', 'nichts frei'],
  others: ['{0} without a night in {1}.', '{0} ohne eine Nacht im {1}.'],
  freeInMonth: ['{0} place free|{0} places free', '{0} Platz frei|{0} Plätze frei'],
  nightSaid: ['{0}, {1} of {2} free, {3} % taken', '{0}, {1} von {2} frei, {3} % belegt'],
  of: ['of {0}', 'von {0}'],
  chosen: ['Chosen: ', 'Gewählt: '],
  nightsField: ['Nights', 'Nächte'],
  placesField: ['Places', 'Plätze'],
  addStep: ['Add as step {0}', 'Als Schritt {0} hinzufügen'],
  addOption: ['Add as an option of', 'Als Variante hinzufügen zu'],
  addOptionSay: ['Add as an option of the step that is named next', 'Als Variante des Schritts hinzufügen, der danach genannt ist'],
  intoStep: ['The step that gets the option', 'Der Schritt, der die Variante bekommt'],
  step: ['step {0}', 'Schritt {0}'],
  dropChoice: ['Drop the choice', 'Die Auswahl verwerfen'],
  stepAdded: ['Step {0} of the new journey: {1}.', 'Schritt {0} der neuen Reise: {1}.'],
  optionAdded: ['Option {0} of step {1}: {2}.', 'Variante {0} von Schritt {1}: {2}.'],
  optionsMost: ['A step has at most 8 options.', 'Ein Schritt hat höchstens 8 Varianten.'],
  planEmpty: ['Choose a night in the stock, then press “Add as step 1”.', 'Wählen Sie eine Nacht im Bestand und dann „Als Schritt 1 hinzufügen“.'],
  planHint: ['Each step takes places in one go. A step may have several options, of which the first is tried first, and a save-point after it, to which the journey can come back.', 'Jeder Schritt belegt seine Plätze auf einmal. Er kann mehrere Varianten haben, von denen die erste zuerst versucht wird, und danach einen Sicherungspunkt, zu dem die Reise zurückkommen kann.'],
  clear: ['Clear', 'Leeren'],
  clearAll: ['Clear the new journey', 'Die neue Reise leeren'],
  clearSure: ['Clear the new journey?', 'Die neue Reise leeren?'],
  clearSay: ['Its {0} step will be dropped here. Nothing was sent to the desk.|Its {0} steps will be dropped here. Nothing was sent to the desk.', 'Ihr {0} Schritt wird hier verworfen. Gesendet wurde nichts.|Ihre {0} Schritte werden hier verworfen. Gesendet wurde nichts.'],
  clearYes: ['Clear it', 'Leeren'],
  begin: ['Begin the journey', 'Die Reise beginnen'],
  beginWhat: ['Begin a journey', 'Eine Reise beginnen'],
  booking: ['Booking number (optional)', 'Buchungsnummer (optional)'],
  bookingBad: ['A booking number is 1 to 32 letters, digits and hyphens.', 'Eine Buchungsnummer hat 1 bis 32 Buchstaben, Ziffern und Bindestriche.'],
  bookingUsed: ['The booking number {0} is taken: another request of yours has it.', 'Die Buchungsnummer {0} ist vergeben: Eine andere Anfrage von Ihnen hat sie.'],
  bookingIs: ['booking {0}', 'Buchung {0}'],
  tries: ['Tries', 'Versuche'],
  triesNone: ['A step that finds no place leads the journey back to its start.', 'Ein Schritt, der keinen Platz findet, führt die Reise zum Start zurück.'],
  triesNoSave: ['There is no save-point, so a step that finds no place leads back to the start, whatever the tries.', 'Es gibt keinen Sicherungspunkt: Ein Schritt, der keinen Platz findet, führt zum Start zurück, wie viele Versuche es auch sind.'],
  triesSay: ['The first step that finds no place leads back to the last save-point, from which the next option is tried; the one after that leads back to the start.|The first {0} steps that find no place lead back to the last save-point, from which the next option is tried; the one after that leads back to the start.', 'Der erste Schritt, der keinen Platz findet, führt zum letzten Sicherungspunkt zurück, von wo die nächste Variante versucht wird; der nächste dann zum Start.|Die ersten {0} Schritte, die keinen Platz finden, führen zum letzten Sicherungspunkt zurück, von wo die nächste Variante versucht wird; der nächste dann zum Start.'],
  line: ['As a plan line (it can be changed here, or pasted)', 'Als Planzeile (sie kann hier geändert oder eingefügt werden)'],
  stepHead: ['Step {0}', 'Schritt {0}'],
  saveAfter: ['Save-point after step {0}', 'Sicherungspunkt nach Schritt {0}'],
  moveUp: ['Move step {0} up', 'Schritt {0} nach oben'],
  moveDown: ['Move step {0} down', 'Schritt {0} nach unten'],
  remove: ['Remove step {0}', 'Schritt {0} entfernen'],
  badStep: ['The desk refused this step. The message says why.', 'Das Buchungssystem hat diesen Schritt abgelehnt. Die Meldung sagt, warum.'],
  noSaveBefore: ['Without a save-point before this step, its further options are not tried: a refusal leads to the start.', 'Ohne einen Sicherungspunkt vor diesem Schritt werden seine weiteren Varianten nicht versucht: Findet er keinen Platz, führt das zum Start.'],
  prefer: ['Prefer option {0} of step {1} to the one before', 'Variante {0} von Schritt {1} weiter nach vorn'],
  removeOption: ['Remove option {0} of step {1}', 'Variante {0} von Schritt {1} entfernen'],
  first: ['First', 'Ab'],
  firstOf: ['First night of option {0} of step {1}', 'Erste Nacht von Variante {0} von Schritt {1}'],
  nightsOf: ['Nights of option {0} of step {1}', 'Nächte von Variante {0} von Schritt {1}'],
  placesOf: ['Places of option {0} of step {1}', 'Plätze von Variante {0} von Schritt {1}'],
  'state.run': ['under way', 'in Arbeit'],
  'state.back': ['going back', 'geht zurück'],
  'state.ended': ['ended', 'abgeschlossen'],
  'state.undone': ['undone', 'aufgehoben'],
  runAt: ['under way, at {0}', 'in Arbeit, bei {0}'],
  runOf: ['under way, at {0} of {1}', 'in Arbeit, bei {0} von {1}'],
  backTo: ['going back, {0} to {1}', 'geht zurück, von {0} auf {1}'],
  nothing: ['nothing', 'nichts'],
  holds: ['holds {0}', 'belegt: {0}'],
  'rest.run': ['; to come: {0}', '; es folgt: {0}'],
  'rest.undone': ['; planned: {0}', '; geplant: {0}'],
  noJourneys: ['You have no journey yet. Put one together from the stock.', 'Sie haben noch keine Reise. Stellen Sie eine aus dem Bestand zusammen.'],
  lookingList: ['Looking at your journeys …', 'Ihre Reisen werden gelesen …'],
  toStock: ['To the stock', 'Zum Bestand'],
  listShown: ['Which journeys are shown', 'Welche Reisen gezeigt werden'],
  state: ['State', 'Stand'],
  seek: ['Number, booking, or what it holds', 'Nummer, Buchung oder Belegung'],
  allOf: ['all ({0})', 'alle ({0})'],
  openOf: ['not finished ({0})', 'nicht fertig ({0})'],
  noMatch: ['No journey matches.', 'Keine Reise passt dazu.'],
  journeyHead: ['Journey', 'Reise'],
  stateHead: ['State, and what it holds', 'Stand, und was belegt ist'],
  more: ['Show {0} more of {1}', '{0} weitere von {1} zeigen'],
  itemDone: ['step {0} done{1}{2}{3}', 'Schritt {0} ausgeführt{1}{2}{3}'],
  itemWith: [' with option {0}', ' mit Variante {0}'],
  itemUndone: [', undone later', ', später zurückgegeben'],
  itemGiven: ['step {0} given back{1}', 'Schritt {0} zurückgegeben{1}'],
  itemSave: ['save-point taken at {0}', 'Sicherungspunkt gesetzt bei {0}'],
  itemBack: ['turned back {0}: {1}', 'zurück {0}: {1}'],
  'back.s': ['the desk was started anew', 'das Buchungssystem wurde neu gestartet'],
  'back.a': ['as asked', 'wie gewünscht'],
  backNoPlace: ['no place was found for step {0}{1}', 'kein Platz für Schritt {0}{1}'],
  notYours: ['{0} has no journey {1}.', '{0} hat keine Reise {1}.'],
  toJourneys: ['To my journeys', 'Zu meinen Reisen'],
  lookingOne: ['Looking at the journey …', 'Die Reise wird gelesen …'],
  saves: ['; save-points: {0}', '; Sicherungspunkte: {0}'],
  stands: ['steps that stand: {0} of {1}{2}', 'belegte Schritte: {0} von {1}{2}'],
  pathOf: ['Path of journey {0}, can be scrolled sideways', 'Weg der Reise {0}, lässt sich seitwärts verschieben'],
  planHead: ['Plan', 'Plan'],
  triesUsed: ['Tries: {0}, refused so far: {1}. ', 'Versuche: {0}, bisher abgelehnt: {1}. '],
  useAgain: ['Use as a new journey', 'Als neue Reise verwenden'],
  nothingYet: ['Nothing yet.', 'Noch nichts.'],
  nothingEver: ['Nothing happened yet.', 'Noch ist nichts geschehen.'],
  chooseOne: ['Choose a journey from the list: its path, its plan and what may be done now are shown here.', 'Wählen Sie eine Reise aus der Liste: Hier sehen Sie dann ihren Weg, ihren Plan und was jetzt möglich ist.'],
  replaceSure: ['Replace the new journey?', 'Die neue Reise ersetzen?'],
  replaceSay: ['The {0} step that you have put together will be dropped.|The {0} steps that you have put together will be dropped.', 'Der {0} Schritt, den Sie zusammengestellt haben, wird verworfen.|Die {0} Schritte, die Sie zusammengestellt haben, werden verworfen.'],
  replaceYes: ['Replace them', 'Ersetzen'],
  'over.ended': ['The journey has ended: all its places stay taken, and it cannot be changed any more.', 'Die Reise ist abgeschlossen: Ihre Plätze bleiben belegt, und sie kann nicht mehr geändert werden.'],
  'over.undone': ['The journey is undone: it holds nothing, and cannot be changed any more.', 'Die Reise ist aufgehoben: Sie belegt nichts und kann nicht mehr geändert werden.'],
  may: ['What may be done now', 'Was jetzt möglich ist'],
  doStep: ['Do step {0}', 'Schritt {0} ausführen'],
  doStepWhat: ['Step {0} of journey {1}', 'Schritt {0} von Reise {1}'],
  doAll: ['Do all {0} steps that are left', 'Alle {0} übrigen Schritte ausführen'],
  doAllSure: ['Do all {0} steps that are left?', 'Alle {0} übrigen Schritte ausführen?'],
  doAllSay: ['They are done one after another, up to the first one that does not fit{0}. The last one ends the journey, which then cannot be cancelled any more.', 'Sie werden nacheinander ausgeführt, bis zum ersten, der nicht passt{0}. Der letzte schließt die Reise ab; sie kann dann nicht mehr storniert werden.'],
  doAllBad: [', which is step {0} now', ' (jetzt wäre das Schritt {0})'],
  doAllYes: ['Do them', 'Ausführen'],
  giveStep: ['Give back step {0}', 'Schritt {0} zurückgeben'],
  giveStepWhat: ['Give back step {0} of journey {1}', 'Schritt {0} von Reise {1} zurückgeben'],
  save: ['Take save-point {0}', 'Sicherungspunkt {0} setzen'],
  saveWhat: ['Save-point {0} of journey {1}', 'Sicherungspunkt {0} von Reise {1}'],
  turn: ['Turn back {0}', 'Zurück {0}'],
  turnWhat: ['Turn journey {0} back {1}', 'Reise {0} zurück {1}'],
  turnSure: ['Turn journey {0} back {1}?', 'Reise {0} zurück {1}?'],
  willTake: ['Step {0} will take {1}. ', 'Schritt {0} wird belegen: {1}. '],
  asItIs: ['As it is now, it would turn the journey back {0}.', 'So wie es jetzt ist, ginge die Reise zurück {0}.'],
  whereItIs: ['{0}, where it is', '{0}, wo sie schon ist'],
  undoes: ['to its start{0}, and so undo it. An undone journey cannot be begun again', 'zum Start{0}, und wäre damit aufgehoben. Eine aufgehobene Reise kann nicht wieder begonnen werden'],
  noTries: [', since no tries are left', ', weil kein Versuch übrig ist'],
  lastStep: ['This is the last step. Once it has its places, the journey has ended, and cannot be cancelled any more.', 'Dies ist der letzte Schritt. Hat er seine Plätze, ist die Reise abgeschlossen und kann nicht mehr storniert werden.'],
  goesBack: ['The journey goes back {0}. Its places are held until each step is given back.', 'Die Reise geht zurück {0}. Ihre Plätze bleiben belegt, bis jeder Schritt zurückgegeben ist.'],
  toItsStart: ['to its start', 'zum Start'],
  givenThen: ['{0} step will then be given back|{0} steps will then be given back, one at a time', '{0} Schritt wird dann zurückgegeben|{0} Schritte werden dann einzeln zurückgegeben'],
  turnUndo: ['{0}, and the journey will be undone. It cannot be begun again.', '{0}, und die Reise wird aufgehoben. Sie kann nicht wieder begonnen werden.'],
  turnEmpty: ['It has done nothing yet, and the journey will be undone. It cannot be begun again.', 'Es ist noch nichts geschehen, und die Reise wird aufgehoben. Sie kann nicht wieder begonnen werden.'],
  turnOn: ['{0}. From there it goes forward again.', '{0}. Von dort geht sie wieder vorwärts.'],
  turnHere: ['The journey is there. Nothing is given back.', 'Die Reise ist schon dort. Es wird nichts zurückgegeben.'],
  'plan.done': [' stands', ' belegt'],
  'plan.next': [' comes next', ' kommt als nächster'],
  'plan.undone': [' undone', ' zurückgegeben'],
  'plan.never': [' not done', ' nicht ausgeführt'],
  'plan.ahead': [' to come', ' folgt noch'],
  saveIs: [', save-point after it', ', danach ein Sicherungspunkt'],
  saveThen: [', a save-point once it is done', ', nach der Ausführung ein Sicherungspunkt'],
  taken: [' – taken', ' – belegt'],
  triedNext: [' – tried next', ' – wird als nächste versucht'],
  'sign.stands': ['done, and stands', 'ausgeführt und belegt'],
  'sign.gone': ['done, and undone later', 'ausgeführt, später zurückgegeben'],
  'sign.down': ['given back', 'zurückgegeben'],
  'sign.turning': ['turned back', 'umgekehrt'],
  'sign.safe': ['save-point', 'Sicherungspunkt'],
  'sign.ahead': ['to come', 'folgt noch'],
  start: ['start', 'Start'],
  'path.C': ['given back', 'zurück'],
  'path.S': ['saved', 'gesichert'],
  'path.r': ['no place', 'kein Platz'],
  'path.s': ['restart', 'Neustart'],
  'path.a': ['asked', 'gewünscht'],
  next: ['next', 'danach'],
  nextIs: ['next: {0}', 'als nächstes: {0}'],
  here: ['here', 'hier'],
  pathTitle: ['The path of journey {0}: {1}', 'Der Weg der Reise {0}: {1}'],
};
const TONGUE = navigator.languages.find(one => /^(en|de)(-|$)/i.test(one)) || 'en-GB', COLUMN = +/^de/i.test(TONGUE);
function t(name, ...values) {
  const [one, many = one] = WORDS[name][COLUMN].split('|');
  return (values[0] === 1 ? one : many).replace(/\{(\d)\}/g, (_, n) => one !== many && n === '0' ? values[0].toLocaleString(TONGUE) : values[n]);
}
document.documentElement.lang = ['en', 'de'][COLUMN];
for (const one of document.querySelectorAll('[data-text]')) one.textContent = t(one.dataset.text);
for (const one of document.querySelectorAll('[data-label]')) one.ariaLabel = t(one.dataset.label);


const KINDS = ['flight', 'room', 'transfer', 'cover'];
const MOST = { flight: 1, room: 30, transfer: 1, cover: 60 };
const LETTER = { flight: 'F', room: 'R', transfer: 'T', cover: 'C' };
const FIRST = '2000-01-01', LAST = '2099-12-31';
const SLOW = 15000, PATIENCE = 120000, NEWS = 4000, AGAIN = 2000, PAGE = 100, ROWS = 50;
const FOLDER = location.pathname.replace(/[^/]*$/, ''), HOME = location.origin + FOLDER.slice(0, -1);
const MARK = FOLDER === '/' ? 'desk.' : `desk${FOLDER}.`;

const $ = id => document.getElementById(id);
const clock = () => performance.now();
const night = time => new Date(time).toISOString().slice(0, 10);
const plus = (from, days) => night(Date.parse(from) + days * 864e5);
const dated = (weekday, day, month, year) => {
  const form = new Intl.DateTimeFormat(TONGUE, { timeZone: 'UTC', weekday, day, month, year });
  return when => form.format(new Date(when));
};
const NO = undefined, FULL = 'numeric';
const monthText = dated(NO, NO, 'long', FULL), long = dated(NO, FULL, 'long', FULL), short = dated(NO, FULL, 'short', FULL);
const dayText = dated('short', FULL, 'long', FULL), shortDay = dated('short', FULL, 'short', FULL), leaving = dated('short', FULL, 'long');
const weekday = dated('long'), weekdays = dated('short'), inWeek = when => weekdays(when).slice(0, 2);
const productOf = w => `${w.kind} ${w.supplier} ${w.product}`;
const kindText = kind => t('kind.' + kind);
const spanOf = (w, dayOf = short) => dayOf(w.first) + (w.nights > 1 || w.kind === 'room' ? `, ${t('nights', w.nights)}` : '')
  + (w.kind === 'room' ? `, ${t('leaving', leaving(plus(w.first, w.nights)))}` : '');
const wantText = w => `${kindText(w.kind)} ${w.supplier} ${w.product}, ${spanOf(w)}, ${t('places', w.count)}`;
const optionText = w => [LETTER[w.kind], w.supplier, w.product, w.first, w.nights, w.count].join('/');
const planLine = plan => plan.steps.map(
  step => step.options.map(optionText).join('|') + (step.save ? '*' : '')
).join(';') + '!' + plan.tries;

const causeText = cause => WORDS['cause.' + cause] ? t('cause.' + cause) : cause;
const refusalText = ({ name, step, cause }, booking) => name === 'KeyReused' && booking ? t('bookingUsed', booking) : name === 'BadPlan'
  ? t('refusedPlan', step ? t('inStep', step, causeText(cause)) : causeText(cause))
  : WORDS['refused.' + name] ? t('refused.' + name) : t('refusedOther', name);

function readLine(text) {
  const found = /^(.*)!([0-9])$/.exec(text.trim());
  if (!found) throw t('lineEnd');
  const parts = found[1].split(';');
  if (parts.length > 24) throw t('lineBad', causeText('steps'));
  const steps = parts.map((part, at) => {
    const save = part.endsWith('*');
    const fail = cause => { throw t('lineStep', at + 1, causeText(cause)); };
    if (save && at === parts.length - 1) fail('save');
    const options = (save ? part.slice(0, -1) : part).split('|').map(one => {
      const words = one.split('/'), [letter, supplier, product, first, nights, places] = words;
      const kind = KINDS.find(k => LETTER[k] === letter);
      if (words.length !== 6) fail('shape');
      if (!kind) fail('kind');
      if (![supplier, product].every(code => /^[A-Z0-9]{1,8}$/.test(code))) fail('code');
      if (!isNight(first)) fail('night');
      if (!/^[1-9]\d?$/.test(nights) || nights > MOST[kind] || plus(first, nights - 1) > LAST) fail('nights');
      if (!/^[1-9]\d?$/.test(places) || places > 50) fail('count');
      return { count: +places, first, kind, nights: +nights, product, supplier };
    });
    if (options.length > 8) fail('options');
    return { options, save };
  });
  return { steps, tries: +found[2] };
}
const isNight = text => /^20\d\d-\d\d-\d\d$/.test(text) && !isNaN(Date.parse(text)) && night(Date.parse(text)) === text;


function build(node, props, kids) {
  for (const [name, value] of Object.entries(props || {})) {
    if (value === undefined || value === null || value === false) continue;
    if (name.startsWith('on')) node.addEventListener(name.slice(2), value);
    else if (name === 'value') node.value = node.drawn = String(value);
    else if (name === 'checked') node.checked = value;
    else node.setAttribute(name, value === true ? '' : value);
  }
  node.append(...kids.flat(9).filter(kid => kid !== undefined && kid !== null && kid !== false && kid !== ''));
  return node;
}
const h = (tag, props, ...kids) => build(document.createElement(tag), props, kids);
const s = (tag, props, ...kids) => build(document.createElementNS('http://www.w3.org/2000/svg', tag), props, kids);
const button = (text, f, onclick, props) => h('button', { type: 'button', 'data-f': f, onclick, ...props }, text);
const wholeField = (word, f, low, high, value, set, props) => h('label', {}, word, h('input', {
  type: 'number', min: low, max: high, value, 'data-f': f, ...props,
  onchange: ({ target }) => {
    target.value = target.drawn = String(Math.min(high, Math.max(low, Math.round(+target.value) || low)));
    set(+target.value);
  },
}));
const product = w => [h('span', { class: 'kind ' + w.kind }, kindText(w.kind)), ` ${w.supplier} ${w.product}`];

let pressed = -Infinity, isChanging = false;
const isHeld = () => isChanging || clock() - pressed < 2000;
const listen = (names, act) => names.split(' ').forEach(name => document.addEventListener(name, act, true));
listen('mousedown', event => {
  if (event.button === 0 && event.target.closest('button, a, label')) pressed = clock();
});
listen('keydown', event => {
  if (event.key === ' ' && event.target.closest('button, [type=checkbox]')) pressed = clock();
  if (event.target.type === 'date' && event.key !== 'Tab') event.target.isTyped = true;
});
listen('mouseup keyup dragend contextmenu', () => {
  if (pressed > 0) setTimeout(draw);
  pressed = -Infinity;
});
listen('change', ({ target }) => {
  target.drawn = target.value;
  isChanging = true;
  setTimeout(() => { isChanging = false; draw(); });
});
listen('input', ({ target }) => { if (target.type === 'search') target.drawn = target.value; });
listen('focusout', ({ target }) => { if (target.isTyped) { target.isTyped = false; setTimeout(draw); } });

const isDrawn = (box, key) => box.dataset.key === key || void (box.dataset.key = key);
function paint(box, ...kids) {
  const at = document.activeElement, had = at !== box && box.contains(at), f = had && at.dataset.f;
  const isTyped = had && (at.isTyped || (at.matches('input:not([type=checkbox])') && at.value !== at.drawn));
  if (isHeld() || isTyped) { delete box.dataset.key; return; }
  const from = had && at.selectionStart, to = had && at.selectionEnd;
  const path = box.querySelector('.path'), left = path && (path.scrollLeft + path.clientWidth > path.scrollWidth - 3 ? 1e5 : path.scrollLeft);
  box.replaceChildren(...kids.flat(9).filter(Boolean));
  if (path) box.querySelector('.path')?.scrollTo(left, 0);
  if (had) {
    const same = f && box.querySelector(`[data-f="${CSS.escape(f)}"]`);
    const next = same || box.querySelector('[data-rest]') || $('title');
    next.focus({ preventScroll: true });
    if (same && typeof from === 'number') same.setSelectionRange(from, to);
    else if (same && same.type === 'number') same.select();
  }
}


const storage = name => { try { return window[name]; } catch { return null; } };
const local = storage('localStorage'), session = storage('sessionStorage');

function kept(store, name, otherwise) {
  try {
    const text = store.getItem(MARK + name);
    return text === null ? otherwise : JSON.parse(text);
  } catch { return otherwise; }
}
function keep(store, name, value) {
  try { store.setItem(MARK + name, JSON.stringify(value)); return true; } catch { return false; }
}
const hex = bytes => [...crypto.getRandomValues(new Uint8Array(bytes))].map(byte => byte.toString(16).padStart(2, '0')).join('');
function newKey() {
  const key = hex(16);
  return key.slice(0, 12) + '4' + key.slice(13, 16) + '89ab'[parseInt(key[16], 16) % 4] + key.slice(17);
}

let agent = kept(session, 'agent', kept(local, 'agent', ''));
let given = '', isKnown = false;
let view = 'stock', number = 0, turn = 0;
let stockText = null, stockAt = 0, partAt = 0, isOpened = false, stock = new Map(), months = [];
let own = new Map(), histories = new Map(), plans = new Map(), whys = new Map(), complete = false;
let bookings = {}, knowsWhy = true;
let openBefore = [], byRestart = new Set();
let draft = null, chosen = null, into = 0, badStep = 0, places = 1;
let settling = new Map();
let reached = null, wasAway = kept(session, 'away', false), status = 0, timer = 0, looking = false, lookAgain = false, line = new AbortController();
let filter = { kind: '', supplier: '', product: '', month: '', from: '', places: 1, ...kept(session, 'filter', {}) };
let sought = { state: '', text: '', ...kept(session, 'sought', {}), rows: ROWS };

const isOpen = journey => journey.state === 'run' || journey.state === 'back';


class Refused extends Error {
  constructor(page) { super(page.name); this.page = page; }
}
class Failed extends Error {
  constructor(why, status) { super(why); this.why = why; this.status = status; }
}
const whyOf = status => status < 400 || [401, 407, 511].includes(status) ? 'out'
  : status > 499 || [408, 425, 429].includes(status) ? 'away' : 'barred';

async function ask(path, is, options) {
  if (reached === 'out') throw new Failed('out');
  const slow = setTimeout(() => { isReached('slow'); draw(); }, SLOW);
  let answer, page;
  try {
    answer = await fetch(HOME + path, {
      cache: 'no-store', credentials: 'same-origin', redirect: 'manual',
      signal: AbortSignal.any([line.signal, AbortSignal.timeout(PATIENCE)]), ...options,
    });
    page = await answer.text();
  } catch { throw new Failed('away'); } finally { clearTimeout(slow); }
  try { page = JSON.parse(page); } catch { /* a report */ }
  if (answer.status > 399 && Object(page).refused && page.name) throw new Refused(page);
  if (answer.status === 200 && is(Object(page))) return page;
  const failed = new Failed(whyOf(answer.status), answer.status);
  if (failed.why === 'out') { keep(local, 'out', true); isReached('out'); draw(); }
  throw failed;
}
const meantFor = whose => ({ 'Desk-Agent': whose, 'Desk-For': whose });
const get = (path, is, whose = agent) => ask(path, is, { headers: meantFor(whose) });

async function identify() {
  let name = '';
  try { ({ agent: name } = await ask('/agent', page => page.agent)); } catch (why) { if (!(why instanceof Refused)) throw why; }
  const was = given;
  given = name;
  isKnown = true;
  if (!given) return;
  if (given !== agent) {
    const isOther = was || agent;
    agent = given;
    keep(session, 'agent', agent);
    startAgent();
    if (isOther) say('warn', t('signedIn', given), 'who');
  }
  if (given !== was) { route(true); flush(); }
}
async function isAnother(why, name) {
  if (!(why instanceof Refused && why.page.name === 'NoAgent')) return false;
  await identify();
  return given && given !== name;
}
const isStock = text => {
  const found = /^kind [^\n]*\n([^]*)cells (\d+)\n$/.exec(text);
  return found && found[1].split('\n').length - 1 === +found[2];
};
const isPlan = page => Array.isArray(page.steps), isJourney = page => Array.isArray(page.history);

const read = new Map();
async function look() {
  if (looking) { lookAgain = true; return; }
  clearTimeout(timer);
  if (document.hidden || !agent) return;
  looking = true;
  keep(session, 'away', wasAway);
  const mine = turn, whose = agent, id = number, part = partOf();
  let met = 'here', bad = '', now = '';
  for (const [name, see] of Object.entries({
    health: async () => {
      if (given && waiting().some(one => one.agent !== given)) await identify();
      try { now = JSON.stringify(await ask('/health', page => page.events >= 0)); } catch (why) { if (why.why !== 'barred') throw why; }
    },
    stock: isStockDue() && lookAtStock, [part]: part && !isStockDue() && clock() > partAt && (() => lookAtPart(part, mine)),
    own: lookAtOwn,
    [`one ${id}`]: view === 'journey' && (() => lookAtOne(id, mine)),
  })) {
    if (!see || mine !== turn || (now && read.get(name) === now && !settling.has(id))) continue;
    try { await see(mine); if (mine === turn) read.set(name, now); } catch (caught) {
      let why = caught;
      try { if (await isAnother(why, whose)) break; } catch (failed) { why = failed; }
      if (why instanceof Refused) { bad = refusalText(why.page); break; }
      met = why.why || 'away';
      status = why.status;
      if (met !== 'barred') break;
    }
  }
  isReached(met);
  wasAway = met === 'away';
  if (wasAway) read.clear();
  if (bad) say('bad', bad, 'look'); else end('look');
  looking = false;
  if (mine === turn && read.get('own') === now) saveOpen();
  if (mine === turn) draw();
  if (waiting().length && !isLost) flush();
  if (lookAgain || mine !== turn) { lookAgain = false; look(); return; }
  timer = setTimeout(look, reached === 'away' ? AGAIN : NEWS);
}

const PACE = 131;
const needsStock = () => view === 'stock' || view === 'plan' || !knowsWhy;
const isStockDue = () => stockText === null || (needsStock() && clock() - stockAt > stockText.length / (isOpened ? 5 * PACE : PACE));
async function lookAtStock(mine) {
  const text = await get('/stock', isStock);
  if (mine !== turn) return;
  stockAt = clock();
  isOpened = false;
  stockText = text;
  stock = new Map();
  months = [];
  takeCells(text);
}
const partOf = () => needsStock() && filter.kind && filter.supplier
  && `/stock/${filter.month}-01/${daysIn(filter.month).at(-1)}/${NAMES.map(name => filter[name]).join('/')}`.replace(/\/$/, '');
async function lookAtPart(path, mine) {
  const text = await get(path, isStock);
  partAt = clock() + text.length / PACE;
  if (mine === turn) takeCells(text);
}
function takeCells(text) {
  let [least, most] = [months[0], months.at(-1)];
  for (const line of text.split('\n')) {
    const [kind, supplier, product, when, allot, , free] = line.trim().split(/\s+/);
    if (!KINDS.includes(kind) || !isNight(when)) continue;
    const name = `${kind} ${supplier} ${product}`;
    if (!stock.has(name)) stock.set(name, { kind, supplier, product, nights: new Map() });
    stock.get(name).nights.set(when, { allot: +allot, free: +free });
    const month = when.slice(0, 7);
    if (!least || month < least) least = month;
    if (!most || month > most) most = month;
  }
  months = [];
  for (let month = least; least && month <= most; month = plus(month + '-28', 7).slice(0, 7)) months.push(month);
}

async function lookAtOwn(mine) {
  if (!complete) {
    const all = new Map();
    if (!await readMine(0, all, mine)) return;
    own = all;
    complete = true;
    openBefore.push(...kept(local, OPEN + agent, []));
    if (openBefore.some(one => !own.has(one.journey))) openBefore = [];
    return tellRestart(mine);
  }
  const { unfinished: open } = await get('/unfinished', page => Array.isArray(page.unfinished));
  const now = new Set(open.map(one => one.journey));
  if (mine !== turn) return;
  const most = Math.max(0, ...own.keys());
  if (open.some(one => one.journey <= most && !isOpen(own.get(one.journey) || {}))) return lookAnew(mine);
  const gone = [...own.values()].filter(isOpen).map(one => one.journey).filter(id => !now.has(id));
  for (const one of open) own.set(one.journey, one);
  if (gone.length > 200) await readMine(Math.min(...gone) - 1, own, mine); else await readAll(gone, mine);
  if (mine !== turn) return;
  if (gone.some(id => isOpen(own.get(id)))) return lookAnew(mine);
  if (await readMine(most, own, mine)) await tellRestart(mine);
}
async function readAll(ids, mine) {
  for (const id of ids) {
    const one = await unlessAbsent(get('/journeys/' + id, isJourney));
    if (mine !== turn) return;
    if (one) take(id, one);
  }
}
function forget() {
  own = new Map(); histories = new Map(); plans = new Map(); whys = new Map(); complete = false;
  openBefore = []; byRestart = new Set();
  read.clear();
}
function lookAnew(mine) {
  forget();
  keep(local, OPEN + agent, []);
  return lookAtOwn(mine);
}
const unlessAbsent = page => page.catch(why => {
  if (why instanceof Refused && why.page.name === 'NoJourney') return null;
  throw why;
});

async function readMine(after, into, mine) {
  for (;;) {
    const { mine: page } = await get('/mine' + (after ? '/' + after : ''), page => Array.isArray(page.mine));
    if (mine !== turn) return false;
    for (const one of page) into.set(one.journey, one);
    if (page.length < PAGE) return true;
    after = page.at(-1).journey;
  }
}

function take(id, { history, ...where }) {
  const known = histories.get(id)?.history;
  if (known && known.join() !== history.join() && !settling.has(id)) end(id);
  own.set(id, where);
  histories.set(id, { history, where });
}

const OPEN = 'open.', isRestart = item => /^B\d+s/.test(item), itemsOf = id => histories.get(id)?.history || [];
const isOver = ({ journey: id }) => own.has(id) && !isOpen(own.get(id));
async function tellRestart(mine) {
  const over = openBefore.filter(isOver), isAway = wasAway && over.length === openBefore.length;
  const ids = over.length > 200 ? [] : over.map(one => one.journey);
  await readAll(ids.filter(id => histories.get(id)?.where !== own.get(id)), mine);
  if (mine !== turn) return;
  const isTurned = one => itemsOf(one.journey).some(isRestart);
  if (ids[0] && over.every(one => itemsOf(one.journey).join().startsWith(one.history || '')) && (isAway || over.some(isTurned))) {
    const all = over.filter(one => isAway || isTurned(one) || one.state === 'back');
    all.forEach(one => byRestart.add(one.journey));
    const toTell = kept(local, OPEN + agent, openBefore).map(one => one.journey);
    sayRestart(all.filter(one => one.isNew || toTell.includes(one.journey)));
  }
  openBefore = openBefore.filter(one => !over.includes(one));
  saveOpen();
}
function saveOpen() {
  const known = new Map(openBefore.map(one => [one.journey, one.history]));
  const historyOf = id => histories.get(id)?.history.join() ?? known.get(id);
  const open = [...own.values()].filter(isOpen).map(one => ({ ...one, history: historyOf(one.journey) }));
  openBefore = [...openBefore.filter(isOver), ...open];
  keep(local, OPEN + agent, openBefore);
}
const standing = items => items.reduce((all, item) => ({ T: [...all, item], C: all.slice(0, -1) })[item[0]] || all, []);
function sayRestart(all) {
  if (!all[0]) return;
  const { did, time } = told.find(note => note.of === 'restart') || { did: new Map(), time: new Date().toLocaleTimeString(TONGUE, { timeStyle: 'short' }) };
  for (const { journey, history: known } of all) {
    const history = itemsOf(journey), at = history.findIndex(isRestart), { state } = own.get(journey);
    const stood = standing(at < 0 ? known?.split(',') || history : history.slice(0, at));
    const done = standing(history).filter(item => !stood.includes(item)).map(item => item.slice(1).split('.')[0]);
    did.set(journey, state === 'undone' || !done[0] ? t('did.' + state, journey)
      : t('didSteps', done.length, new Intl.ListFormat(TONGUE).format(done), journey));
  }
  const lines = [...did].sort(([a], [b]) => a - b).map(([, text]) => '\n' + text);
  Object.assign(say('warn', t('restarted', time, lines.join('')), 'restart'), { did, time });
}
async function wasRestarted({ about, agent: whose, seen }) {
  if (seen === undefined || whose !== agent) return false;
  openBefore.push({ journey: about, state: 'back', history: seen, isNew: true });
  try { await lookAtOwn(turn); } catch { return false; }
  return byRestart.has(about);
}

async function planOf(id, mine) {
  const plan = plans.get(id) || await unlessAbsent(get(`/journeys/${id}/plan`, isPlan));
  if (mine === turn) plans.set(id, plan);
  return plan;
}
async function lookAtOne(id, mine) {
  const plan = await planOf(id, mine);
  if (mine !== turn || !plan) return;
  const known = histories.has(id) && own.get(id), was = settling.get(id);
  if (known && !isOpen(known) && !was) return;
  const one = await unlessAbsent(get('/journeys/' + id, isJourney));
  if (mine !== turn) return;
  if (one) take(id, one); else plans.set(id, null);
  if (settling.get(id) === was) settling.delete(id);
  if (one && isOpen(one) && knowsWhy) await lookAtWhy(id);
}
async function lookAtWhy(id) {
  if (knowsWhy) try { whys.set(id, await get(`/journeys/${id}/why`, page => page.step)); } catch (why) {
    if (!(why instanceof Refused)) throw why;
    knowsWhy = why.page.name !== 'UnknownPath';
  }
  if (!knowsWhy) await lookAtStock(turn);
}


const TAB = MARK + 'tab.', POST = MARK + 'post.';
let tab = kept(session, 'tab', '') || hex(8), sending = false, resend = 0, sent = 0, isLost = false;

async function nameWindow() {
  for (;;) {
    keep(session, 'tab', tab);
    if (!navigator.locks) return;
    const is = await new Promise(then => navigator.locks.request(TAB + tab, { ifAvailable: true }, lock => {
      then(lock);
      return lock && new Promise(() => {});
    }));
    if (is) return;
    tab = hex(8);
  }
}

const named = nameWindow();

function waiting() {
  const found = [];
  for (let n = 0; local && n < local.length; n++) {
    const name = local.key(n);
    if (name.startsWith(POST)) found.push(kept(local, name.slice(MARK.length), null));
  }
  return found.filter(Boolean).sort((a, b) => a.at - b.at || a.turn - b.turn);
}

const isDue = one => !one.aside && (!given || one.agent === given);
async function ownWaiting() {
  const held = navigator.locks ? new Set((await navigator.locks.query()).held.map(lock => lock.name)) : new Set();
  return waiting().filter(isDue).filter(
    one => one.tab === tab || (navigator.locks ? !held.has(TAB + one.tab) : Date.now() - one.at > 2 * PATIENCE)
  );
}

async function send(path, body, what, about, seen, all, booking) {
  end(about);
  await named;
  const move = seen === undefined ? '' : `seen-${about}-${seen.length}`;
  const request = { key: newKey(), tab, at: Date.now(), turn: sent++, agent, path, body, what, about, seen, move, all, booking };
  if (!keep(local, 'post.' + request.key, request)) {
    say('bad', t('notKept'), about);
    return;
  }
  draw();
  flush();
}

async function flush() {
  if (sending) return;
  sending = true;
  clearTimeout(resend);
  let is = true;
  try {
    for (let list = await ownWaiting(); list.length && is; list = is ? await ownWaiting() : []) is = await sendKept(list[0]);
  } finally { sending = false; }
  if (!is) resend = setTimeout(flush, AGAIN);
}

async function sendKept(request) {
  const go = async lock => {
    if (!lock) return false;
    if (!kept(local, 'post.' + request.key, null)) return true;
    let page;
    try { page = await pageOf(request); } catch (caught) {
      let why = caught;
      try { if (await isAnother(why, request.agent)) return true; } catch (failed) { why = failed; }
      if (why instanceof Refused) page = why.page;
      else if (why.why === 'barred') {
        keep(local, 'post.' + request.key, { ...request, aside: why.status });
        draw();
        return true;
      } else {
        isLost = why.why !== 'out';
        draw();
        look();
        return false;
      }
    }
    const isTold = (!page || page.refused) && await wasRestarted(request);
    const lack = /^B\d+r/.test(page?.item) ? await lackOf(request) : '';
    local.removeItem(POST + request.key);
    isLost = false;
    isReached('here');
    hear(request, page, isTold, lack);
    return true;
  };
  return navigator.locks ? navigator.locks.request(POST + request.key, { ifAvailable: true }, go) : go(true);
}

async function pageOf(request) {
  const { path, key, booking, agent, body, about, seen, move, isTried } = request;
  const tried = is => { request.isTried = is; keep(local, 'post.' + key, request); };
  if (seen !== undefined && !isTried && (await get('/journeys/' + about, isJourney, agent)).history.join() !== seen) return null;
  tried(true);
  try {
    return await ask(path, page => page.journey, {
      method: 'POST', body, headers: { ...meantFor(agent), 'Desk-Key': move || booking || key, 'Content-Type': 'application/json' },
    });
  } catch (why) {
    if (seen !== undefined && why.page?.name === 'KeyReused') return null;
    if (why.why === 'out' || why.why === 'barred') tried(isTried);
    throw why;
  }
}

async function lackOf({ about, agent: whose, seen }) {
  let text = '';
  try {
    const plan = whose === agent && await planOf(about, turn);
    if (!plan) return '';
    let { want, isSaid, is, why } = nextOf(plan, walk(seen ? seen.split(',') : [], plan), about);
    text = wantText(want);
    if (is || !isSaid) {
      await lookAtStock(turn);
      ({ is, why } = fits(want));
    }
    return ` (${text}: ${is ? t('byNow', why) : why})`;
  } catch { return text && ` (${text})`; }
}

function hear(request, page, isTold, lack) {
  const isOwn = request.agent === agent, whose = isOwn ? '' : t('whose', request.agent);
  if (isOwn && request.seen !== undefined) settling.set(request.about, request.key);
  if (isTold) { draw(); look(); return; }
  if (!page) {
    say('warn', t('hasMoved', request.what, whose, request.about), request.about);
  } else if (page.refused) {
    if (isOwn && request.about === 'new' && page.step) badStep = page.step;
    say('bad', `${request.what}${whose}: ${refusalText(page, request.booking)}`, request.about);
  } else if (request.about === 'new') {
    say('good', t('begun', page.journey, whose), page.journey);
    if (isOwn) {
      if (!own.has(page.journey)) {
        own.set(page.journey, { journey: page.journey, pos: 0, state: 'run' });
        openBefore.push({ ...own.get(page.journey), isNew: true });
      }
      if (request.booking) book(page.journey, request.booking, JSON.parse(request.body));
      if (request.body === bodyOf(draft)) setDraft({ steps: [], tries: draft.tries });
      if (request.tab === tab && (view === 'plan' || view === 'stock')) location.hash = '#/journeys/' + page.journey;
    }
  } else {
    const plan = plans.get(page.journey), { word, text } = itemSaid(page, isOwn ? plan : null, lack);
    say(word, t('ofJourney', page.journey, whose, text), page.journey);
    if (request.all && page.state !== 'ended') goOn(request, page, text);
  }
  draw();
  look();
}

async function goOn({ about, seen, agent: whose, tab: of }, { item, pos }, text) {
  const plan = whose === agent && of === tab && item[0] === 'T' && plans.get(about), history = seen ? [seen, item] : [item];
  try { await lookAtWhy(about); } catch { /* by what is known */ }
  const { is, why } = plan ? nextOf(plan, walk(history.join().split(','), plan), about) : {};
  if (is) send(`/journeys/${about}/step`, '', t('doStepWhat', pos + 1, about), about, history.join(), true);
  else say('warn', why ? t('stoppedAt', about, text, pos + 1, why) : t('stopped', about, text), about);
}

function itemSaid({ item, state, target }, plan, lack) {
  const [, letter, a, b] = /^([TCBS])(\d+)\.?(\w*)$/.exec(item);
  const want = plan && plan.steps[a - 1] && plan.steps[a - 1].options[b - 1];
  const of = want ? ` (${wantText(want)})` : '', isOver = state === 'ended' || state === 'undone';
  const end = is => isOver ? t('end.' + state) : is ? t('end.' + is) : '';
  if (letter === 'T') return { word: 'good', text: t('stepDone', a, b > 1 ? t('withOption', b) : '', of, end()) };
  if (letter === 'C') return { word: 'good', text: t('stepGiven', a, of, end(state === 'run' && state)) };
  if (letter === 'S') return { word: 'good', text: t('saveTaken', a) };
  const to = +a ? t('toSave', a) : t('toStart');
  return { word: b === 'a' ? 'good' : 'warn', text: t('turnsSince', t('turned.' + b) + lack, to, end(target === undefined ? 'there' : 'back')) };
}


const told = [];
function say(word, text, of) {
  end(of);
  while (told.length > 2) drop(told[+(told[0].of === 'restart')]);
  const note = { of, node: h('div', { class: 'note is' + word }, h('p', {}, word === 'bad' ? h('strong', {}, t('refusedMark')) : '', text),
    button(t('close'), '', () => drop(note), { class: 'flat', 'aria-label': t('closeNote', text) })) };
  told.push(note);
  $('notes').append(note.node);
  if (word === 'good') setTimeout(() => drop(note), 9000);
  return note;
}
const end = of => told.filter(note => note.of === of).forEach(drop);
function drop(note) {
  const at = told.indexOf(note);
  if (at < 0) return;
  told.splice(at, 1);
  const had = note.node.contains(document.activeElement);
  note.node.remove();
  if (had) $('title').focus({ preventScroll: true });
}

function isReached(now) {
  if (reached === now || reached === 'out') return;
  const was = reached;
  reached = now;
  if (now === 'here' && was) { say('good', t('again'), 'reach'); look(); }
  if (now !== 'here') end('reach');
}
function isSignedIn() {
  reached = null;
  look();
  flush();
}

function drawState() {
  const all = waiting().filter(one => one.tab === tab || one.agent === agent), list = all.filter(isDue);
  const aside = all.filter(one => one.aside), isOut = reached === 'out';
  const others = waiting().filter(one => given && one.agent !== given);
  const is = reached === 'barred' && status === 404 ? 'gone'
    : (!reached || reached === 'here') && isLost && list.length ? 'lost' : reached;
  const isOff = is && is !== 'here', isSlow = is === 'slow' || is === 'lost';
  $('state').className = isOff ? 'off' : '';
  const text = isOff ? t('reach.' + is) : !agent ? '' : t(!reached ? 'looking' : list.length ? 'sending' : 'upToDate');
  if ($('state').textContent !== text) $('state').textContent = text;
  $('state').hidden = !text;
  const lines = [
    isOff && t('why.' + is) + (isSlow ? '' : t('old')),
    isOff && list.length && t(isOut ? 'sentThen' : 'retried', list.length, list.map(one => one.what).join('; ')),
    isOut && button(t('signIn'), 'in', () => location.reload()),
    others.length && t('sentLater', others.length, others.map(one => `${one.what} (${one.agent})`).join('; ')),
    aside.length && t('asideAre', aside.map(one => `${one.what} (${one.aside})`).join('; ')),
    aside.length && h('span', { class: 'row' }, button(t('sendAgain'), 'aside.send', () => resume(aside)),
      button(t('drop'), 'aside.drop', () => resume(aside, true), { 'aria-label': t('dropAside') })),
  ].filter(Boolean);
  const away = $('away'), key = lines.map(one => one.textContent || one).join();
  if (!isDrawn(away, key)) paint(away, lines.map(one => h('p', {}, one)));
  away.hidden = !lines.length;
}
function resume(aside, isDropped) {
  for (const one of aside) {
    if (isDropped) local.removeItem(POST + one.key); else keep(local, 'post.' + one.key, { ...one, aside: 0 });
  }
  draw();
  flush();
}

function sure(title, text, yes) {
  $('sure-title').textContent = title;
  $('sure-text').textContent = text;
  $('sure-yes').textContent = yes;
  const box = $('sure');
  return new Promise(then => {
    let is = false;
    $('sure-yes').onclick = () => { is = true; box.close(); };
    $('sure-no').onclick = () => box.close();
    box.onclose = () => { if (!box.open) then(is); };
    box.showModal();
    $('sure-no').focus();
  });
}


function setAgent(name) {
  agent = name;
  keep(session, 'agent', name);
  keep(local, 'agent', name);
  keep(local, 'agents', [name, ...kept(local, 'agents', []).filter(one => one !== name)].slice(0, 12));
  startAgent();
  location.hash = '#/stock';
  route(true);
}
function startAgent() {
  turn++;
  [...told].forEach(drop);
  forget();
  settling = new Map(); chosen = null; badStep = 0; stockText = null;
  draft = kept(local, 'draft.' + agent, { steps: [], tries: 0 });
  bookings = kept(local, 'bookings.' + agent, {});
  askedFor = '';
}
function drawWho() {
  const known = kept(local, 'agents', []);
  paint($('known'), known.length && [
    h('p', { class: 'soft' }, t('before')),
    h('div', { class: 'row' }, known.map(name => button(name, 'known.' + name, () => setAgent(name)))),
  ]);
}
$('who-form').addEventListener('submit', event => {
  event.preventDefault();
  const name = $('agent').value.trim();
  if (/^[a-z0-9]{1,16}$/.test(name)) { $('agent').removeAttribute('aria-invalid'); setAgent(name); return; }
  $('agent').setAttribute('aria-invalid', 'true');
  say('bad', t('agentBad'), 'who');
  $('agent').focus();
});


const places2 = n => n < 10000 ? String(n) : `${Math.floor(n / 1000)}k`;

function fits(want, cellOf = when => stock.get(productOf(want))?.nights.get(when)) {
  let least = Infinity, at = '';
  for (let n = 0; n < want.nights; n++) {
    const when = plus(want.first, n), cell = cellOf(when);
    if (cell?.free === undefined) return { is: false, why: t('notAllotted', short(when)) };
    if (cell.free < want.count) return { is: false, why: cell.free ? t('onlyFree', cell.free, short(when)) : t('noneFree', short(when)) };
    if (cell.free < least) { least = cell.free; at = when; }
  }
  return { is: true, why: want.nights > 1 ? t('freeAt', least, short(at)) : t('free', least) };
}
const fitText = (want, { is, why } = fits(want)) => h('span', { class: is ? 'good' : 'bad' }, t(is ? 'fitsNow' : 'notNow', why));
function nextOf(plan, way, of = number) {
  const want = optionAt(plan, way.pos + 1, way.used), said = whys.get(of);
  if (said?.state !== 'run' || said.pos !== way.pos || said.want !== optionText(want)) {
    return { want, isKnown: stockText !== null, to: way.used < plan.tries ? Math.max(0, ...way.saves) : 0, ...fits(want) };
  }
  const { why } = fits(want, when => said.nights.find(one => one.night === when)), [, to] = /^B(\d+)/.exec(said.step) || [];
  return { want, isKnown: true, isSaid: true, is: !to, why, to: +to };
}

const NAMES = ['kind', 'supplier', 'product'];
const isShown = (one, names = NAMES) => names.every(name => !filter[name] || filter[name] === one[name]);
function isFree({ kind, nights }) {
  const { from, to, places: least } = filter, days = [];
  for (let day = from; from && day <= to; day = plus(day, 1)) days.push(nights.has(day) && nights.get(day).free >= least);
  return !from || (MOST[kind] > 1 ? days.slice(0, -1).every(Boolean) : days.includes(true));
}

function setFilter(change) {
  Object.assign(filter, change);
  const { from, to } = filter;
  filter.to = from && [plus(from, 1), to, plus(from, 60)].sort()[1];
  if (change.from) filter.month = from.slice(0, 7);
  if (change.places) places = change.places;
  keep(session, 'filter', filter);
  drawStock();
  if (change.from) $('cals').querySelector(`[data-night="${from}"]`)?.scrollIntoView({ block: 'nearest', inline: 'start' });
}

function drawFilters() {
  const at = months.indexOf(filter.month), values = NAMES.map((name, n) => [...new Set(
    [...stock.values()].filter(one => isShown(one, NAMES.slice(0, n))).map(one => one[name]))].sort());
  const key = JSON.stringify([filter, values, months.length, months[0]]);
  if (isDrawn($('filters'), key)) return;
  const field = (word, name, tag, props, ...kids) => h('label', {}, word, h(tag, { 'data-f': 'filter.' + name, ...props }, kids));
  const set = name => ({ target }) => setFilter({ [name]: target.type === 'checkbox' ? target.checked : target.value });
  const pick = (name, n) => field(t(name), name, 'select', { onchange: set(name) },
    h('option', { value: '', selected: !filter[name] }, t('all')),
    values[n].map(value => h('option', { value, selected: value === filter[name] }, n ? value : kindText(value))));
  const dayField = name => field(t(name), name, 'input', { type: 'date', min: FIRST, max: LAST, value: filter[name] || '', onchange: set(name) });
  const move = (by, word, sign) => button(sign, 'month' + by, () => months[at + by] && setFilter({ month: months[at + by] }),
    { class: 'sign', 'aria-label': word, 'aria-disabled': !months[at + by] && 'true' });
  paint($('filters'), h('div', { class: 'tools', role: 'group', 'aria-label': t('shown') },
    h('div', { class: 'turn' }, move(-1, t('monthBefore'), '‹'),
      h('label', {}, t('month'), h('select', { 'data-f': 'month', onchange: set('month') },
        months.map(month => h('option', { value: month, selected: month === filter.month }, monthText(month))))),
      move(1, t('monthAfter'), '›')),
    NAMES.map(pick),
    field(t('table'), 'table', 'input', { type: 'checkbox', checked: filter.table, onchange: set('table') }),
    h('div', { class: 'row' }, wholeField(t('freePlaces'), 'filter.places', 1, 50, filter.places, places => setFilter({ places })),
      dayField('from'), dayField('to'))));
}

function settleFilter() {
  const all = [...stock.values()];
  NAMES.forEach((name, n) => { if (!all.some(one => isShown(one, NAMES.slice(0, n + 1)))) filter[name] = ''; });
  if (!months.includes(filter.month)) {
    const today = night(Date.now()).slice(0, 7);
    filter.month = months.find(month => month >= today && all.some(one => [...one.nights.keys()].some(when => when.startsWith(month))))
      || months.at(-1) || '';
  }
}

function drawStock() {
  if (isHeld()) return;
  if (stockText === null || !stock.size) {
    $('filters').replaceChildren();
    delete $('filters').dataset.key;
    $('cals').replaceChildren(h('p', {}, t(stockText === null ? 'lookingStock' : 'noPlaces')));
    return;
  }
  settleFilter();
  drawFilters();
  const shown = [...stock.values()].filter(one => isShown(one) && isFree(one));
  const inMonth = shown.map(one => ({ one, nights: [...one.nights].filter(([when]) => when.startsWith(filter.month)) }))
    .filter(({ nights }) => nights.length);
  const old = new Map([...$('cals').children].map(card => [card.dataset.key, card]));
  const { from, to } = filter;
  const said = (from ? t('found', t('places', filter.places), dayText(from), dayText(to), t('products', shown.length)) : '') + t('inEach');
  const cards = [h('p', { class: 'key', 'data-key': said }, said, h('span', {}, h('i', { class: 'half' }), t('inPart')),
    h('span', {}, h('i', { class: 'isfull' }), t('full')))];
  const add = (key, make) => cards.push(old.get(key) || make(key));
  if (filter.table && inMonth.length) add(`table ${filter.month} ${from} ${to} ${JSON.stringify(inMonth)}`, key => denseTable(inMonth, key));
  else inMonth.forEach(({ one, nights }) => add(productOf(one) + filter.month + JSON.stringify(nights), key => calendar(one, nights, key)));
  const others = shown.length - inMonth.length;
  if (others) cards.push(h('p', { class: 'soft', 'data-key': 'others' + others },
    t('others', t('products', others), monthText(filter.month))));
  cards[0] = old.get(said) || cards[0];
  const now = [...$('cals').children];
  if (cards.length !== now.length || cards.some((card, n) => card !== now[n])) {
    const at = document.activeElement, f = $('cals').contains(at) && at.dataset.f;
    if (cards.length === now.length) cards.forEach((card, n) => card !== now[n] && now[n].replaceWith(card));
    else $('cals').replaceChildren(...cards);
    const again = f && $('cals').querySelector(`[data-f="${f}"]`);
    if (again && again !== document.activeElement) focusNight(again);
  }
  paintChosen();
}

const daysIn = month => [...Array(new Date(Date.UTC(month.slice(0, 4), month.slice(5), 0)).getUTCDate()).keys()].map(n => plus(month + '-01', n));
const denseTable = (all, key) => h('div', { class: 'card grid', 'data-key': key },
  h('table', { role: 'grid', 'aria-label': t('freePlaces'), 'aria-multiselectable': 'true' },
    h('thead', {}, h('tr', {}, h('th', {}), daysIn(filter.month).map(when => h('th', { scope: 'col', class: filter.from <= when && when <= filter.to && filter.from && 'sought' }, inWeek(when), h('br'), +when.slice(8))))),
    h('tbody', {}, all.map(({ one, nights }, row) => h('tr', {}, h('th', { scope: 'row' }, h('span', { class: 'kind ' + one.kind }, LETTER[one.kind]), ` ${one.supplier} ${one.product}`), daysIn(filter.month).map(when => {
      const cell = one.nights.get(when);
      return h('td', { 'aria-selected': cell && 'false' }, cell && nightButton(one, when, cell, !row && when === nights[0][0]));
    }))))));

function calendar(one, nights, key) {
  const month = filter.month, title = 'cal ' + productOf(one), id = title.replace(/ /g, '-');
  const known = new Map(nights), days = daysIn(month), gap = (new Date(days[0]).getUTCDay() + 6) % 7;
  const free = nights.reduce((sum, [, cell]) => sum + cell.free, 0);
  const rows = [];
  for (let at = -gap; at < days.length; at += 7) rows.push(h('tr', {}, [0, 1, 2, 3, 4, 5, 6].map(n => {
    const when = days[at + n], cell = known.get(when);
    return cell ? h('td', { 'aria-selected': 'false' }, nightButton(one, when, cell, when === nights[0][0]))
      : h('td', { class: 'none' }, when && +when.slice(8));
  })));
  return h('article', { class: 'card cal', 'data-key': key, 'aria-labelledby': id },
    h('div', { class: 'top' }, h('h3', { id }, product(one)), h('span', { class: 'soft small' }, t('freeInMonth', free))),
    h('table', { role: 'grid', 'aria-labelledby': id, 'aria-multiselectable': 'true' },
      h('thead', {}, h('tr', {}, [...Array(7).keys()].map(n => plus('2024-01-01', n)).map(when => h('th', { scope: 'col', abbr: weekday(when) }, inWeek(when))))),
      h('tbody', {}, rows)));
}

function nightButton(one, when, cell, isFirst) {
  const { allot, free } = cell, part = allot ? Math.round(100 * (allot - free) / allot) : 100, fill = h('i', {});
  fill.style.setProperty('--part', part + '%');
  return h('button', {
    type: 'button', class: 'night' + (free ? '' : ' isfull'), tabindex: isFirst ? 0 : -1, 'data-night': when, 'data-of': productOf(one),
    'data-f': `${productOf(one)} ${when}`, 'aria-label': t('nightSaid', long(when), free, allot, part),
  }, fill, h('span', { class: 'day' }, +when.slice(8)), h('span', { class: 'free' }, places2(free)), h('span', { class: 'of' }, t('of', places2(allot))));
}

function focusNight(button) {
  for (const other of button.closest('table').querySelectorAll('.night[tabindex="0"]')) other.tabIndex = -1;
  button.tabIndex = 0;
  button.focus();
}

$('cals').addEventListener('focusin', event => {
  const at = event.target.closest('.night');
  if (at && at.tabIndex !== 0) focusNight(at);
});
$('cals').addEventListener('click', event => {
  const at = event.target.closest('.night');
  if (at) choose(at, event.shiftKey, event.detail === 0);
});
$('cals').addEventListener('keydown', event => {
  const at = event.target.closest('.night');
  if (!at) return;
  const table = at.closest('table'), when = at.dataset.night, all = [...table.querySelectorAll(`[data-of="${at.dataset.of}"]`)];
  const same = [...table.querySelectorAll(`[data-night="${when}"]`)], rows = same.length > 1 && (by => same[same.indexOf(at) + by]);
  const near = by => by < 0
    ? all.filter(one => one.dataset.night <= plus(when, by)).pop() : all.find(one => one.dataset.night >= plus(when, by));
  const to = {
    ArrowLeft: () => near(-1), ArrowRight: () => near(1), ArrowUp: () => rows ? rows(-1) : near(-7), ArrowDown: () => rows ? rows(1) : near(7),
    Home: () => all[0], End: () => all.at(-1)
  }[event.key];
  if (to) {
    event.preventDefault();
    const next = to();
    if (!next) return;
    focusNight(next);
    if (event.shiftKey) {
      if (!chosen || productOf(chosen) !== at.dataset.of) choose(at, false, false);
      choose(next, true, false);
    }
  } else if (event.key === 'PageUp' || event.key === 'PageDown') {
    event.preventDefault();
    const month = months[months.indexOf(filter.month) + (event.key === 'PageUp' ? -1 : 1)];
    if (!month) return;
    setFilter({ month });
    const same = [...$('cals').querySelectorAll(`.night[data-of="${at.dataset.of}"]`)];
    if (same.length) focusNight(same.find(one => one.dataset.night.slice(8) >= when.slice(8)) || same.at(-1));
    else $('filters').querySelector('[data-f="month"]').focus();
  } else if (event.key === 'Escape' && chosen) {
    event.preventDefault();
    unchoose();
  }
});

function choose(at, isLonger, byKey) {
  const [kind, supplier, product] = at.dataset.of.split(' '), when = at.dataset.night;
  const same = chosen && productOf(chosen) === at.dataset.of;
  const nights = same ? Math.round((Date.parse(when) - Date.parse(chosen.first)) / 864e5) + 1 : 0;
  const isIn = byKey && nights >= 1 && nights <= chosen.nights && chosen.nights > 1;
  const isOn = same && nights >= 1 && nights <= MOST[kind] && (isLonger || (nights > 1 && chosen.nights === 1));
  if (isOn) chosen.nights = nights;
  else if (!isIn && (!isLonger || !same)) chosen = { count: places, first: when, kind, nights: 1, product, supplier };
  paintChosen();
  entersBar = byKey;
  drawBar();
}
function unchoose() {
  const back = chosen && $('cals').querySelector(`[data-f="${productOf(chosen)} ${chosen.first}"]`);
  const had = $('bar').contains(document.activeElement);
  chosen = null;
  into = 0;
  paintChosen();
  drawBar();
  if (had) if (back && back.offsetParent) focusNight(back); else $('title').focus();
}
function paintChosen() {
  const last = chosen && plus(chosen.first, chosen.nights - 1), of = chosen && productOf(chosen);
  for (const { dataset: at, parentNode } of $('cals').querySelectorAll('.night')) {
    const now = String(at.of === of && at.night >= chosen.first && at.night <= last);
    if (parentNode.ariaSelected !== now) parentNode.ariaSelected = now;
  }
}

function drawBar() {
  const bar = $('bar'), is = chosen && (view === 'stock' || view === 'plan');
  bar.hidden = !is;
  if (!is) { bar.replaceChildren(); delete bar.dataset.key; return; }
  const key = JSON.stringify([chosen, draft.steps.map(step => step.options.length), fits(chosen)]);
  if (isDrawn(bar, key)) { enterBar(bar); return; }
  const most = MOST[chosen.kind], steps = draft.steps.length;
  const set = name => value => {
    chosen[name] = value;
    places = chosen.count;
    paintChosen();
    drawBar();
  };
  if (!(into >= 1 && into <= steps)) into = steps;
  paint(bar, h('h2', { id: 'h-bar' }, t('chosen'), product(chosen), `, ${spanOf(chosen, shortDay)}`),
    h('div', { class: 'row' },
      most > 1 && wholeField(t('nightsField'), 'bar.nights', 1, most, chosen.nights, set('nights')),
      wholeField(t('placesField'), 'bar.count', 1, 50, chosen.count, set('count')),
      fitText(chosen),
      steps < 24 && button(t('addStep', steps + 1), 'bar.step', addStep, { class: 'main' }),
      steps > 0 && h('span', { class: 'row' },
        button(t('addOption'), 'bar.option', () => addOption(into), { 'aria-label': t('addOptionSay') }),
        h('select', {
          'aria-label': t('intoStep'), 'data-f': 'bar.into',
          onchange: event => { into = +event.target.value; },
        }, draft.steps.map((step, n) => h('option', { value: n + 1, selected: n + 1 === into }, t('step', n + 1))))),
      button(t('drop'), 'bar.drop', unchoose, { class: 'flat', 'aria-label': t('dropChoice') })));
  enterBar(bar);
}
let entersBar = false;
function enterBar(bar) {
  if (!entersBar || !bar.dataset.key) return;
  entersBar = false;
  (bar.querySelector('[data-f="bar.step"]') || bar.querySelector('button')).focus();
}
$('bar').addEventListener('keydown', event => { if (event.key === 'Escape') { event.preventDefault(); unchoose(); } });

function add(list, one, text) {
  list.push(one);
  unchoose();
  setDraft(draft);
  say('good', text, 'new');
}
const addStep = () => add(draft.steps, { options: [chosen], save: false }, t('stepAdded', draft.steps.length + 1, wantText(chosen)));
function addOption(into) {
  const { options } = draft.steps[into - 1];
  if (options.length > 7) say('bad', t('optionsMost'), 'new');
  else add(options, chosen, t('optionAdded', options.length + 1, into, wantText(chosen)));
}


function setDraft(next) {
  end('new');
  draft = next;
  badStep = 0;
  if (draft.steps.length) draft.steps.at(-1).save = false;
  keep(local, 'draft.' + agent, draft);
  draw();
}
const moved = (list, from, to) => { const all = [...list], [one] = all.splice(from, 1); all.splice(to, 0, one); return all; };

function drawPlan() {
  const isSent = waiting().some(one => isDue(one) && one.about === 'new' && one.agent === agent);
  const key = JSON.stringify([draft, isSent, badStep, stockText && stockText.length])
    + draft.steps.map(step => step.options.map(want => fits(want).why)).join();
  if (isDrawn($('plan'), key)) return;
  const steps = draft.steps, hasSave = steps.some(step => step.save);
  if (!steps.length) {
    paint($('plan'),
      h('p', {}, t('planEmpty')),
      h('p', { class: 'soft' }, t('planHint')),
      lineInput());
    return;
  }
  const clear = async () => {
    if (!await sure(t('clearSure'), t('clearSay', steps.length), t('clearYes'))) return;
    setDraft({ steps: [], tries: 0 });
    $('title').focus();
  };
  paint($('plan'),
    h('ol', { class: 'steps' }, steps.map((step, at) => [stepItem(step, at), saveItem(step, at)])),
    wholeField(t('tries'), 'tries', 0, 9, draft.tries, tries => setDraft({ ...draft, tries }), { 'aria-describedby': 'tries-say' }),
    h('p', { class: 'hint', id: 'tries-say' }, triesText(hasSave)),
    bookingInput(),
    lineInput(),
    h('div', { class: 'row begin' },
      button(t(isSent ? 'sendingNow' : 'begin'), 'begin',
        () => isSent || send('/journeys', bodyOf(draft), t('beginWhat'), 'new', undefined, false, draft.booking),
        { class: 'main', 'aria-disabled': isSent && 'true' }),
      button(t('clear'), 'clear', clear, { 'aria-label': t('clearAll') })));
}

function saveItem(step, at) {
  if (at === draft.steps.length - 1) return h('li', { class: 'last', role: 'presentation' });
  const onchange = event => { step.save = event.target.checked; setDraft(draft); };
  return h('li', { class: 'save' + (step.save ? ' on' : '') }, h('label', {},
    h('input', { type: 'checkbox', checked: step.save, 'data-f': `save.${at}`, onchange }), t('saveAfter', at + 1)));
}
function triesText(hasSave) {
  const { tries } = draft;
  return !tries ? t('triesNone') : hasSave ? t('triesSay', tries) : t('triesNoSave');
}

const bodyOf = ({ steps, tries }) => JSON.stringify({ steps, tries });
const isBooking = text => /^[A-Za-z0-9-]{1,32}$/.test(text);
function book(journey, booking, plan) {
  bookings = Object.fromEntries(Object.entries({ ...bookings, [journey]: [booking, planLine(plan)] }).slice(-2000));
  keep(local, 'bookings.' + agent, bookings);
}
function bookingOf(journey) {
  const [booking, line] = bookings[journey] || [], plan = plans.get(journey);
  return !plan || planLine(plan) === line ? booking : '';
}
const bookingInput = () => h('label', {}, t('booking'), h('input', {
  class: 'code', size: 14, maxlength: 32, value: draft.booking || '', 'data-f': 'booking', spellcheck: 'false', autocomplete: 'off',
  onchange: ({ target }) => {
    const booking = target.value.trim();
    if (!booking || isBooking(booking)) { setDraft({ ...draft, booking }); return; }
    say('bad', t('bookingBad'), 'new');
    target.setAttribute('aria-invalid', 'true');
  },
}));

function lineInput() {
  const text = draft.steps.length ? planLine(draft) : '';
  const onchange = event => {
    const typed = event.target.value.trim();
    if (typed === text) return;
    try { setDraft({ ...typed ? readLine(typed) : { steps: [], tries: 0 }, booking: draft.booking }); } catch (why) {
      if (typeof why !== 'string') throw why;
      say('bad', why, 'new');
      event.target.setAttribute('aria-invalid', 'true');
    }
  };
  return h('div', {},
    h('p', { class: 'hint' }, h('label', { for: 'line' }, t('line'))),
    h('input', {
      id: 'line', class: 'code', value: text, 'data-f': 'line', spellcheck: 'false', autocomplete: 'off',
      autocapitalize: 'characters', onchange,
    }));
}

function stepItem(step, at) {
  const steps = draft.steps, n = at + 1;
  const before = steps.slice(0, at).some(one => one.save);
  const sign = (text, f, word, is, act) => button(text, `${f}.${at}`, () => is && act(),
    { class: 'flat sign', 'aria-label': word, 'aria-disabled': !is && 'true' });
  const order = to => {
    const last = steps.length - 1;
    setDraft({ ...draft, steps: moved(steps, at, to).map((one, n) => n === last ? { ...one, save: false } : one) });
  };
  return h('li', { class: 'step' + (badStep === at + 1 ? ' isbad' : '') },
    h('div', { class: 'top' }, h('h3', {}, t('stepHead', n)),
      sign('↑', 'up', t('moveUp', n), at > 0, () => order(at - 1)),
      sign('↓', 'down', t('moveDown', n), at < steps.length - 1, () => order(at + 1)),
      sign('✕', 'remove', t('remove', n), true, () => setDraft({ ...draft, steps: steps.filter(one => one !== step) }))),
    badStep === at + 1 && h('p', { class: 'bad' }, t('badStep')),
    h('ul', { class: 'options' }, step.options.map((want, n) => optionItem(step, at, want, n))),
    step.options.length > 1 && !before && h('p', { class: 'hint' }, t('noSaveBefore')));
}

function optionItem(step, at, want, n) {
  const many = step.options.length > 1, f = `${at}.${n}`, of = name => t(name, n + 1, at + 1);
  const set = (key, value) => { want[key] = value; setDraft(draft); };
  const most = MOST[want.kind], small = word => ({ class: 'flat sign', 'aria-label': word });
  const prefer = () => { step.options = moved(step.options, n, n - 1); setDraft(draft); };
  const remove = () => { step.options.splice(n, 1); setDraft(draft); };
  return h('li', {},
    h('div', { class: 'row' },
      many && h('span', { class: 'soft' }, `${n + 1}.`),
      h('span', { class: 'what' }, product(want), `, ${spanOf(want, shortDay)}, ${t('places', want.count)}`),
      many && n > 0 && button('↑', 'prefer.' + f, prefer, small(of('prefer'))),
      many && button('✕', 'drop.' + f, remove, small(of('removeOption')))),
    h('div', { class: 'row' },
      h('label', {}, t('first'), h('input', {
        type: 'date', min: FIRST, max: LAST, value: want.first, 'data-f': 'first.' + f, 'aria-label': of('firstOf'),
        onchange: event => isNight(event.target.value) ? set('first', event.target.value) : drawPlanAgain(),
      })),
      most > 1 && wholeField(t('nightsField'), 'nights.' + f, 1, most, want.nights, nights => set('nights', nights), { 'aria-label': of('nightsOf') }),
      wholeField(t('placesField'), 'count.' + f, 1, 50, want.count, places => set('count', places), { 'aria-label': of('placesOf') })),
    h('div', { class: 'small' }, fitText(want)));
}

function drawPlanAgain() { delete $('plan').dataset.key; drawPlan(); }


const STATES = ['run', 'back', 'ended', 'undone'];
function stateText(one) {
  const plan = plans.get(one.journey);
  if (one.state === 'run') return plan ? t('runOf', one.pos, plan.steps.length) : t('runAt', one.pos);
  return one.state === 'back' ? t('backTo', one.pos, one.target) : t('state.' + one.state);
}
const stateMark = one => h('span', { class: 'is ' + one.state }, stateText(one));
const isRead = one => !one.pos || JSON.stringify(histories.get(one.journey)?.where) === JSON.stringify(one);
function saidOf(one) {
  const plan = plans.get(one.journey), history = one.pos ? histories.get(one.journey)?.history : [];
  if (!plan || !history) return null;
  const { stands, pos, used } = walk(history, plan), named = wants => wants.length
    ? `${short(wants[0].first)} · ${wants.map(want => `${kindText(want.kind)} ${want.supplier} ${want.product}`).join(', ')}` : t('nothing');
  return { held: named(stands.map(step => step.want)), rest: ['run', 'undone'].includes(one.state)
    && t('rest.' + one.state, named(plan.steps.slice(pos).map((step, n) => optionAt(plan, pos + n + 1, used)))) };
}

function drawList() {
  const all = [...own.values()].sort((a, b) => b.journey - a.journey);
  const open = all.filter(isOpen).length;
  $('open-ones').textContent = open ? ` (${open})` : '';
  if (view !== 'list' && view !== 'journey') return;
  const sum = state => all.filter(one => one.state === state).length;
  const text = sought.text.trim().toLowerCase();
  const isText = one => !text || String(one.journey).startsWith(text) || saidOf(one)?.held.toLowerCase().includes(text)
    || bookingOf(one.journey)?.toLowerCase().includes(text);
  const isState = one => !sought.state || (sought.state === 'open' ? isOpen(one) : one.state === sought.state);
  const some = all.filter(one => isState(one) && isText(one));
  const rows = some.slice(0, sought.rows);
  const said = rows.map(one => [one, saidOf(one), bookingOf(one.journey)]);
  const key = JSON.stringify([complete, all.length, open, sought, some.length, view, number, said]);
  seekBooking(complete && (!some.length || /^\d+$/.test(text)) ? sought.text.trim() : '');
  if (isDrawn($('list'), key)) return;
  if (!all.length) {
    paint($('list'),
      h('p', {}, t(complete ? 'noJourneys' : 'lookingList')),
      complete && h('p', {}, h('a', { href: '#/stock' }, t('toStock'))));
    return;
  }
  const seek = change => {
    sought = { ...sought, rows: ROWS, ...change };
    keep(session, 'sought', { state: sought.state, text: sought.text });
    drawList();
  };
  const states = [['', t('allOf', all.length)], ['open', t('openOf', open)], ...STATES.map(state => [state, `${t('state.' + state)} (${sum(state)})`])];
  paint($('list'),
    h('div', { class: 'tools', role: 'group', 'aria-label': t('listShown') },
      h('label', {}, t('state'), h('select', { 'data-f': 'list.state', onchange: event => seek({ state: event.target.value }) },
        states.map(([value, word]) => h('option', { value, selected: value === sought.state }, word)))),
      h('label', {}, t('seek'), h('input', {
        type: 'search', value: sought.text, size: 14, 'data-f': 'list.text', oninput: event => seek({ text: event.target.value }),
      }))),
    !some.length ? h('p', {}, t('noMatch')) : h('table', { class: 'list', 'aria-labelledby': 'h-list' },
      h('thead', {}, h('tr', {}, h('th', { scope: 'col' }, t('journeyHead')), h('th', { scope: 'col' }, t('stateHead')))),
      h('tbody', {}, rows.map(listRow))),
    some.length > rows.length && button(t('more', Math.min(ROWS, some.length - rows.length), some.length), 'more',
      () => seek({ rows: sought.rows + ROWS })));
  fillPlans(text && !/^\d+$/.test(text) ? all.filter(one => one.pos) : rows);
}

const bookingText = ({ journey }) => bookingOf(journey) && h('span', { class: 'small' }, ` ${t('bookingIs', bookingOf(journey))}`);
let askedFor = '', asking = 0;
function seekBooking(text) {
  clearTimeout(asking);
  if (text === askedFor || !isBooking(text) || [...own.keys()].some(journey => bookingOf(journey) === text)) return;
  asking = setTimeout(async () => {
    const mine = turn;
    askedFor = text;
    try {
      const one = await get('/journeys/by-key/' + text, page => page.journey), plan = await get(`/journeys/${one.journey}/plan`, isPlan);
      if (mine !== turn) return;
      own.set(one.journey, one);
      plans.set(one.journey, plan);
      book(one.journey, text, plan);
      drawList();
    } catch { /* there is none, or an older desk does not know it */ }
  }, 500);
}

function listRow(one) {
  const isShown = view === 'journey' && one.journey === number, said = saidOf(one);
  return h('tr', { class: isShown && 'now' },
    h('td', {}, h('a', {
      href: '#/journeys/' + one.journey, 'data-f': 'to.' + one.journey, 'aria-label': t('journey', one.journey),
      'aria-current': isShown && 'page',
    }, one.journey)),
    h('td', {}, stateMark(one), said && bookingText(one), said && h('div', { class: 'plan small' }, t('holds', said.held), h('span', { class: 'soft' }, said.rest))));
}

let filling = false;
async function fillPlans(rows) {
  if (filling) return;
  filling = true;
  const mine = turn;
  let asked = 0;
  try {
    for (const one of rows) {
      const id = one.journey, isNew = !plans.get(id), isOld = !isRead(one);
      if ((!isNew && !isOld) || document.hidden) continue;
      if (mine !== turn || (view !== 'list' && view !== 'journey')) break;
      const plan = isNew && await get(`/journeys/${id}/plan`, isPlan), page = isOld && await get('/journeys/' + id, isJourney);
      if (mine !== turn) break;
      if (isNew) plans.set(id, plan);
      if (isOld) take(id, page);
      if (++asked === ROWS) break;
    }
  } catch { /* the news say that the desk is not reached */ }
  filling = false;
  if (!asked) return;
  delete $('list').dataset.key;
  drawList();
}


function walk(history, plan) {
  const steps = [], stands = [], marks = new Set();
  let pos = 0, used = 0;
  history.forEach((item, at) => {
    const [, letter, first, second] = /^([TCBS])(\d+)\.?(\w*)$/.exec(item), a = +first, from = pos;
    const one = { item, letter, a, b: second, from, to: from };
    if (letter === 'T') {
      one.to = pos = a;
      stands.push(one);
      one.want = plan.steps[a - 1].options[second - 1];
      one.stands = true;
    }
    if (letter === 'C') {
      const last = stands.pop();
      if (last) last.stands = false;
      marks.delete(a);
      one.to = pos = a - 1;
      one.want = plan.steps[a - 1].options[second - 1];
    }
    if (letter === 'S') marks.add(a);
    if (letter === 'B' && second === 'r') { one.want = plan.steps[from] && optionAt(plan, from + 1, used); used++; }
    steps.push(one);
  });
  for (let p = 1; p <= pos; p++) if (plan.steps[p - 1].save) marks.add(p);
  return { steps, stands, pos, used, saves: [...marks].sort((a, b) => a - b) };
}
const optionAt = (plan, step, used) => {
  const { options } = plan.steps[step - 1];
  return options[Math.min(used, options.length - 1)];
};

function itemText({ want, a, b, from, letter, stands }) {
  const of = want ? ` (${wantText(want)})` : '';
  if (letter === 'T') return t('itemDone', a, b > 1 ? t('itemWith', b) : '', of, stands ? '' : t('itemUndone'));
  if (letter === 'C') return t('itemGiven', a, of);
  if (letter === 'S') return t('itemSave', a);
  return t('itemBack', a ? t('toSave', a) : t('toStart'), b === 'r' ? t('backNoPlace', from + 1, of) : t('back.' + b));
}

function drawOne() {
  if (view !== 'journey') { if (view === 'list') drawNone(); return; }
  const plan = plans.get(number), { history, where: one } = histories.get(number) || {};
  const sending = waiting().filter(request => isDue(request) && request.about === number && request.agent === agent);
  const known = [number, one, history, plan && 1, plan === null, sending.map(request => request.key), settling.has(number)];
  const key = JSON.stringify([...known, whys.get(number), bookings[number]])
    + (plan && one && isOpen(one) && plan.steps.map(step => step.options.map(want => fits(want).why)).join());
  if (isDrawn($('one'), key)) return;
  $('h-one').textContent = t('journey', number);
  if (plan === null) {
    paint($('one'), h('p', {}, t('notYours', agent, number)), h('p', {}, h('a', { href: '#/journeys' }, t('toJourneys'))));
    return;
  }
  if (!one || !plan || !history) { paint($('one'), h('p', { class: 'soft' }, t('lookingOne'))); return; }
  const way = walk(history, plan), drawn = `${number} ${history.length}`;
  const steps = t('stands', way.stands.length, plan.steps.length, way.saves.length ? t('saves', way.saves.join(', ')) : '');
  paint($('one'),
    h('p', {}, stateMark(one), bookingText(one), ' ', h('span', { class: 'soft' }, steps)),
    actions(one, plan, way, sending, history.join()),
    h('div', {
      class: 'path drawn', tabindex: 0, role: 'region', 'data-f': 'path',
      'aria-label': t('pathOf', number),
    }, pathPicture(one, plan, way)),
    signs(),
    h('h3', {}, t('planHead')),
    h('ol', { class: 'planned' }, plan.steps.map((step, at) => planned(step, at, one, plan, way))),
    h('p', { class: 'small' }, t('triesUsed', plan.tries, way.used), h('span', { class: 'code' }, planLine(plan))),
    h('p', {}, button(t('useAgain'), 'again', () => useAgain(plan))),
    h('h3', {}, t('happened')),
    history.length
      ? h('ol', { class: 'items' }, way.steps.map(step => h('li', {}, h('span', { class: 'code' }, step.item), ' ', itemText(step))))
      : h('p', { class: 'soft' }, t('nothingYet')));
  if ($('one').dataset.key && $('one').dataset.drawn !== drawn) {
    $('one').dataset.drawn = drawn;
    $('one').querySelector('.path').scrollLeft = 1e5;
  }
}
function drawNone() {
  if (isDrawn($('one'), 'none')) return;
  $('h-one').textContent = t('anyJourney');
  paint($('one'), h('p', { class: 'soft' }, t('chooseOne')));
}
async function useAgain(plan) {
  const { length } = draft.steps;
  if (length && !await sure(t('replaceSure'), t('replaceSay', length), t('replaceYes'))) return;
  setDraft(JSON.parse(JSON.stringify(plan)));
  location.hash = '#/plan';
}

function actions(one, plan, way, sending, seen) {
  if (!isOpen(one)) return h('p', { class: 'acts soft', tabindex: -1, 'data-rest': true }, t('over.' + one.state));
  const id = number, wait = sending.length > 0 || settling.has(id), drawnAt = clock();
  const off = { 'aria-disabled': wait && 'true' }, next = way.pos + 1, isBack = one.state === 'back';
  const isQuick = event => event && event.detail > 1 && clock() - drawnAt < 400;
  const act = (path, what, all) => event => wait || isQuick(event) || send(`/journeys/${id}/${path}`, '', what, id, seen, all);
  const left = plan.steps.length - way.pos, doAll = async () => {
    try { await lookAtStock(turn); } catch { /* by the stock that is known */ }
    const bad = plan.steps.findIndex((step, at) => at >= way.pos && !fits(optionAt(plan, at + 1, way.used)).is) + 1;
    if (!wait && await sure(t('doAllSure', left), t('doAllSay', bad ? t('doAllBad', bad) : ''), t('doAllYes'))) act('step', t('doStepWhat', next, id), true)();
  };
  const turnBack = (p, to) => async () => {
    if (wait) return;
    if (await sure(t('turnSure', id, to), turnText(p, way.pos - p), t('turn', to))) act('abort/' + p, t('turnWhat', id, to))();
  };
  const canSave = !isBack && way.pos > 0 && !way.saves.includes(way.pos);
  const turns = [0, ...way.saves].filter(p => !isBack || p < one.target).sort((a, b) => b - a);
  return h('div', { class: 'acts' },
    h('div', { class: 'row', role: 'group', 'aria-label': t('may') },
      isBack ? button(t('giveStep', way.pos), 'step', act('step', t('giveStepWhat', way.pos, id)), { class: 'main', ...off })
        : button(t('doStep', next), 'step', act('step', t('doStepWhat', next, id)), { class: 'main', 'aria-describedby': 'next', ...off }),
      !isBack && left > 1 && nextOf(plan, way).is && button(t('doAll', left), 'all', doAll, off),
      canSave && button(t('save', way.pos), 'mark', act('save', t('saveWhat', way.pos, id)), off),
      turns.map(p => [p, p ? t('toSave', p) : t('toStart')]).map(([p, to]) => button(t('turn', to), 'turn.' + p, turnBack(p, to), off)),
      wait && h('span', { class: 'soft', role: 'status' }, t('sendingNow'))),
    isBack ? backText(one.target) : nextText(plan, way));
}
function nextText(plan, way) {
  const next = way.pos + 1, { want, isKnown, is, why, to } = nextOf(plan, way);
  const turned = !to ? t('undoes', way.saves.length ? t('noTries') : '') : to === way.pos ? t('whereItIs', t('toSave', to)) : t('toSave', to);
  return h('div', { id: 'next' }, h('p', {}, t('willTake', next, wantText(want)), isKnown && [fitText(want, { is, why }), '.']),
    isKnown && !is && h('p', { class: 'bad' }, t('asItIs', turned)),
    next === plan.steps.length && h('p', { class: 'warn' }, t('lastStep')));
}
const backText = target => h('p', { class: 'warn' }, t('goesBack', target ? t('toSave', target) : t('toItsStart')));
const turnText = (p, many) => many ? t(p ? 'turnOn' : 'turnUndo', t('givenThen', many)) : t(p ? 'turnHere' : 'turnEmpty');

function planned(step, at, one, plan, way) {
  const done = way.stands[at], isNext = one.state === 'run' && at === way.pos, next = isNext && optionAt(plan, at + 1, way.used);
  const was = !done && way.steps.some(item => item.letter === 'T' && item.a === at + 1);
  const word = t('plan.' + (done ? 'done' : isNext ? 'next' : was ? 'undone' : one.state === 'undone' ? 'never' : 'ahead'));
  return h('li', { class: done ? 'isdone' : isNext ? 'isnext' : '' }, h('b', {}, t('stepHead', at + 1)), word, way.saves.includes(at + 1) ? t('saveIs') : step.save && t('saveThen'),
    h('ul', {}, step.options.map((want, n) => h('li', {}, product(want), `, ${spanOf(want)}, ${t('places', want.count)}`,
      done && +done.b === n + 1 ? h('b', { class: 'good' }, t('taken'))
        : next === want && step.options.length > 1 && h('b', {}, t('triedNext'))))));
}

const SIGNS = ['stands', 'gone', 'down', 'turning', 'safe', 'ahead'];
const signs = () => h('ul', { class: 'signs drawn', 'aria-hidden': 'true' }, SIGNS.map(
  name => h('li', {}, s('svg', { width: 30, height: 10 }, s('path', { class: name, d: 'M3 5H27' })), t('sign.' + name))));

function pathPicture(one, plan, way) {
  const n = plan.steps.length, room = $('one').clientWidth, left = room < 500 ? 116 : 160, high = n > 12 ? 30 : 46, top = 26;
  const steps = way.steps, at = steps.length;
  const goal = one.state === 'run' ? n : one.state === 'back' ? one.target : way.pos, rest = Math.abs(goal - way.pos);
  const wide = Math.max(58, Math.min(84, (room - left - 70) / (at + rest / 2)));
  const y = p => top + (n - p) * high, x = at => left + 16 + at * wide;
  const needed = x(at) + rest * wide / 2 + 52, isScrolled = needed > room - 1;
  const width = isScrolled ? needed + 14 : room - 2, height = y(0) + 74, end = width - (isScrolled ? 30 : 8);
  const kids = [];
  const line = (name, d) => kids.push(s('path', { class: name, d }));
  const text = (px, py, words, props) => kids.push(s('text', { x: px, y: py, ...props }, words));
  const narrow = (isLong, most) => isLong && { textLength: most, lengthAdjust: 'spacingAndGlyphs' };
  for (let p = 0; p <= n; p++) {
    const isSafe = way.saves.includes(p) || (p && plan.steps[p - 1].save);
    line(isSafe ? 'safe' : 'level', `M${left} ${y(p)}H${end}`);
    const taken = p && way.stands[p - 1], want = p && (taken ? taken.want : optionAt(plan, p, way.used));
    text(left - 10, y(p) + 4, p, { 'text-anchor': 'end', class: 'code' });
    if (isScrolled) text(width - 8, y(p) + 4, p, { 'text-anchor': 'end', class: 'code' });
    const name = p && `${LETTER[want.kind]} ${room < 500 ? '' : want.supplier + ' '}${want.product}`, most = left - 34;
    text(8, y(p) + 4, name || t('start'), { class: taken ? '' : 'dim', ...narrow(name.length * 7.6 > most, most) });
    if (isSafe) kids.push(s('path', { class: 'flag', d: `M${left - 4} ${y(p) + 5}v-13l9 3.5l-9 3.5` }));
  }
  steps.forEach((step, k) => {
    const x0 = x(k), x1 = x(k + 1), mid = (x0 + x1) / 2, y0 = y(step.from), y1 = y(step.to);
    if (step.letter === 'T') line(step.stands ? 'stands' : 'gone', `M${x0} ${y0}L${x1} ${y1}`);
    if (step.letter === 'C') line('down', `M${x0} ${y0}L${x1} ${y1}`);
    if (step.letter === 'B' || step.letter === 'S') line('stay', `M${x0} ${y0}L${x1} ${y0}`);
    if (step.letter === 'B') {
      if (step.a < step.from) {
        line('turning', `M${mid} ${y0}V${y(step.a) - 9}`);
        kids.push(s('path', { class: 'turned', d: `M${mid} ${y(step.a) - 1}l-5 -9h10` }));
      }
      kids.push(s('circle', { class: 'turned', cx: mid, cy: y0, r: 5 }));
    }
    if (step.letter === 'S') kids.push(s('path', { class: 'flag', d: `M${mid - 2} ${y0}v-17l11 4.5l-11 4.5` }));
    text(mid, y(0) + 34, step.item, { 'text-anchor': 'middle', class: 'code' });
    const words = step.letter === 'T' ? step.want?.product || '' : t('path.' + (step.letter === 'B' ? step.b : step.letter));
    const isLong = words.length * (step.letter === 'T' ? 8.4 : 6.4) > wide - 4;
    text(mid, y(0) + 51, words, { 'text-anchor': 'middle', class: 'dim', ...narrow(isLong, wide - 4) });
  });
  const next = one.state === 'run' && optionAt(plan, way.pos + 1, way.used);
  if (next) [[t('next'), 34, 'code'], [next.product, 51, 'dim']].forEach(([words, low, name]) => text(
    x(at) + wide / 2, y(0) + low, words, { 'text-anchor': 'middle', class: name, ...narrow(words.length * 8.4 > wide - 4, wide - 4) }
  ));
  if (rest) line('ahead', `M${x(at)} ${y(way.pos)}L${x(at) + rest * wide / 2} ${y(goal)}`);
  steps.forEach((step, k) => kids.push(s('circle', { class: 'dot', cx: x(k), cy: y(step.from), r: 3 })));
  kids.push(s('circle', { class: 'here', cx: x(at), cy: y(way.pos), r: 6 }));
  text(x(at) + 12, y(way.pos) - 10, isOpen(one) ? t('here') : t('state.' + one.state), { class: 'code' });
  const told = steps.map(step => `${step.item}: ${itemText(step)}`).concat(next ? t('nextIs', wantText(next)) : []).join('; ');
  return s('svg', { width, height, viewBox: `0 0 ${width} ${height}`, role: 'img', 'aria-labelledby': 'path-title path-desc' },
    s('title', { id: 'path-title' }, t('pathTitle', number, stateText(one))), s('desc', { id: 'path-desc' }, told || t('nothingEver')), kids);
}


const STARTS = { stock: 'h-stock', plan: 'h-plan', list: 'h-list', journey: 'h-one', who: 'agent' };
function route(isMoved) {
  const path = location.hash.slice(2), found = /^journeys\/([1-9]\d{0,11})$/.exec(path), before = view + number;
  number = found ? +found[1] : 0;
  view = !agent || (path === 'who' && !given) ? 'who' : found ? 'journey' : { plan: 'plan', journeys: 'list' }[path] || 'stock';
  document.body.dataset.view = view;
  const title = found && agent ? t('journey', number) : t('view.' + view);
  document.title = `${title} – Desk`;
  $('title').textContent = title;
  $('v-who').hidden = view !== 'who' || !isKnown;
  $('book').hidden = view !== 'stock' && view !== 'plan';
  $('own').hidden = view !== 'list' && view !== 'journey';
  $('nav').hidden = !agent;
  $('who').hidden = !agent || given;
  $('given').hidden = !given;
  $('given').textContent = $('who').textContent = t('agentIs', agent);
  $('who').setAttribute('aria-label', t('agentChange', agent));
  for (const link of $('nav').children) link.ariaCurrent = link.dataset.for.split(' ').includes(view) ? 'page' : null;
  draw();
  if (view === 'who') drawWho();
  if (isMoved && before !== view + number) { $(STARTS[view]).focus({ preventScroll: true }); $(STARTS[view]).closest('section').scrollTop = 0; isOpened = true; look(); }
}
function draw() {
  drawState();
  if (view === 'stock' || view === 'plan') { drawStock(); drawPlan(); }
  drawBar();
  drawList();
  drawOne();
  $('sheet').textContent = `${t('agentIs', agent)}, ${new Date().toLocaleDateString(TONGUE, { dateStyle: 'long' })}`
    + (view === 'stock' && filter.month ? `: ${monthText(filter.month)}` : '');
  $('steps-in-plan').textContent = draft.steps.length ? ` (${draft.steps.length})` : '';
}

$('who').addEventListener('click', () => { location.hash = '#/who'; });
document.querySelector('.skip').addEventListener('click', event => { event.preventDefault(); $('main').focus(); });
$('one').addEventListener('keydown', event => { if (event.repeat && event.target.closest('.acts')) event.preventDefault(); });
for (const name of ['hashchange', 'popstate']) addEventListener(name, route);
document.addEventListener('visibilitychange', () => { if (!document.hidden) { look(); flush(); } });
let resized = 0;
addEventListener('resize', () => {
  clearTimeout(resized);
  resized = setTimeout(() => { delete $('one').dataset.key; drawOne(); }, 150);
});
addEventListener('online', () => {
  line.abort();
  line = new AbortController();
  look();
  flush();
});
addEventListener('storage', event => {
  if (event.key === MARK + 'out') if (event.newValue) { isReached('out'); draw(); } else isSignedIn();
  if (event.key === MARK + 'draft.' + agent) { draft = kept(local, 'draft.' + agent, draft); draw(); }
  if (event.key === MARK + 'bookings.' + agent) { bookings = kept(local, 'bookings.' + agent, bookings); draw(); }
  if (event.key && event.key.startsWith(POST)) draw();
});
startAgent();
route();
if (local) local.removeItem(MARK + 'out');
async function begin() {
  try { await identify(); } catch (why) {
    isReached(why.why || 'away');
    draw();
    setTimeout(begin, AGAIN);
    return;
  }
  route();
  if (view === 'who') $('agent').focus();
  flush();
  look();
}
named.then(begin);
})();
</script>
</body>
</html>
"##;
