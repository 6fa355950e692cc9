//! How the page looks, in light and in dark, on a screen and on paper.

/// The style sheet.
pub(crate) const STYLE: &str = "\
:root { color-scheme: light dark; --back: #fff; --text: #1c2024; --quiet: #5d656d; --line: #d9dde1; --panel: #f5f6f8; --link: #0b5cad; --code: #2f7d4f; --stack: #b4632a; --used: #2b7a9b; --written: #3f6fb5; --good: #1d6b3c; --bad: #a62b1f; }
@media (prefers-color-scheme: dark) { :root { --back: #15181b; --text: #e3e6e9; --quiet: #9aa3ab; --line: #343a40; --panel: #1e2226; --link: #7db7f2; --code: #58b47d; --stack: #dd9257; --used: #6fbcdc; --written: #7aa5e6; --good: #6cc78f; --bad: #f08a7b; } }
* { box-sizing: border-box; }
body { margin: 0; background: var(--back); color: var(--text); font: 16px/1.5 system-ui, sans-serif; }
main { max-width: 72rem; margin: 0 auto; padding: 1rem 1.25rem 4rem; }
h1 { font-size: 1.6rem; line-height: 1.25; margin: .5rem 0 1rem; }
h2 { font-size: 1.25rem; margin: 2.5rem 0 .75rem; border-bottom: 1px solid var(--line); padding-bottom: .25rem; }
h3 { font-size: 1.05rem; margin: 0 0 .5rem; overflow-wrap: anywhere; }
a { color: var(--link); text-decoration: none; }
a:hover, a:focus { text-decoration: underline; }
code, pre, .at, .op, .state { font-family: ui-monospace, monospace; font-size: .9em; }
pre { background: var(--panel); padding: .75rem 1rem; white-space: pre-wrap; overflow-wrap: anywhere; border-left: 4px solid var(--bad); }
.known { border-left-color: var(--line); white-space: pre-wrap; margin: 0; }
nav { display: flex; flex-wrap: wrap; gap: .25rem 1.25rem; }
.quiet, .symbol { color: var(--quiet); font-weight: normal; }
.verdict { font: bold 1.15rem/1.4 ui-monospace, monospace; padding: .6rem 1rem; background: var(--panel); border-left: 6px solid; overflow-wrap: anywhere; }
.accepted { border-color: var(--good); color: var(--good); }
.refused { border-color: var(--bad); color: var(--bad); }
summary { cursor: pointer; color: var(--quiet); }
.wide { overflow-x: auto; }
table { border-collapse: collapse; width: 100%; font-size: .95rem; }
th, td { text-align: left; vertical-align: top; padding: .3rem .75rem .3rem 0; border-bottom: 1px solid var(--line); overflow-wrap: break-word; }
td:not(.number) { min-width: 5.5rem; }
td code, li code { white-space: nowrap; }
a, .symbol { overflow-wrap: anywhere; }
th { font-weight: 600; color: var(--quiet); }
.number { text-align: right; font-variant-numeric: tabular-nums; white-space: nowrap; }
th.number, td.number { padding-right: 1.5rem; white-space: normal; }
.item { display: inline-block; margin-right: .5rem; }
.strip { display: block; width: 100%; height: 1.1rem; background: var(--panel); outline: 1px solid var(--line); }
.strip rect { stroke-width: 1px; vector-effect: non-scaling-stroke; }
rect.code { fill: var(--code); stroke: var(--code); }
rect.stack { fill: var(--stack); stroke: var(--stack); }
rect.used { fill: var(--used); stroke: var(--used); }
rect.over { fill: var(--bad); stroke: var(--bad); }
rect.written { fill: var(--written); stroke: var(--written); }
.screen { display: block; width: 320px; max-width: 100%; background: #e0e8d0; outline: 1px solid var(--line); }
.shade1 { fill: #a0b088; }
.shade2 { fill: #586850; }
.shade3 { fill: #182018; }
.key { white-space: nowrap; margin-right: 1rem; }
.key svg { width: .8em; height: .8em; vertical-align: -.05em; }
.bank { display: grid; grid-template-columns: 4.5rem 1fr 7rem; gap: .75rem; align-items: center; margin: .3rem 0; }
.ram { display: grid; grid-template-columns: 11rem 3fr 1fr 13rem; gap: .25rem .75rem; align-items: center; margin: .35rem 0; }
.name { overflow: hidden; text-overflow: ellipsis; white-space: nowrap; }
.head { color: var(--quiet); font-size: .85rem; }
article { border: 1px solid var(--line); border-radius: 4px; padding: .75rem 1rem; margin: 1rem 0; }
article:target, .node:target { outline: 2px solid var(--link); }
dl { display: grid; grid-template-columns: 10rem minmax(0, 1fr); gap: .2rem .75rem; margin: 0 0 .5rem; }
dt { color: var(--quiet); }
dd { margin: 0; overflow-wrap: anywhere; }
.listing { margin-top: .25rem; }
.node { display: grid; grid-template-columns: 5rem minmax(5rem, 15rem) minmax(10rem, 1fr); gap: 0 .75rem; padding: .2rem 0; border-bottom: 1px solid var(--line); }
.node .symbol { overflow: hidden; text-overflow: ellipsis; white-space: nowrap; }
.state { grid-column: 2 / -1; color: var(--quiet); font-size: .8em; overflow-wrap: anywhere; }
@media (max-width: 700px) {
.ram { grid-template-columns: repeat(4, 1fr); margin: .6rem 0; }
.ram .name { grid-column: span 2; order: 1; }
.ram .ranges { grid-column: span 2; order: 2; text-align: right; }
.ram > svg { order: 4; }
.ram > svg:first-of-type { grid-column: span 3; order: 3; }
.ram.head { display: none; }
.bank { grid-template-columns: 4.5rem 1fr 6.5rem; gap: .5rem; }
dl { grid-template-columns: minmax(0, 1fr); }
dt { margin-top: .3rem; }
.state { grid-column: 1 / -1; }
}
@media print {
body { font-size: 11px; }
nav { display: none; }
.screen, .screen path, .strip, .strip rect, .key svg, .verdict, pre { print-color-adjust: exact; -webkit-print-color-adjust: exact; }
.node { break-inside: avoid; }
article { break-inside: auto; }
.bank, .ram, tr { break-inside: avoid; }
}
";
