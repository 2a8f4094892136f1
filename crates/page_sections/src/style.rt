//! The style of the page, in light and in dark.

/// The style rules of the page, and of the classes that its pictures use.
pub(crate) const STYLE: &str =
    ":root{color-scheme:light dark;--page:#fff;--text:#222;--quiet:#5c646b;--rule:#e1e4e7;--head:#f3f6f8;--best:#fff3bf;--tree:#2a6f97;--link:#bbb;--router:#fff;--net:#eef3f7;--edge:#7a8c99;--rim:#1b4965;--scale:#335;--axis:#e3e3e3}
@media (prefers-color-scheme:dark){:root{--page:#14181c;--text:#e3e7ea;--quiet:#9ba6af;--rule:#2d353c;--head:#1d242a;--best:#4d4210;--tree:#5fb0de;--link:#737f88;--router:#14181c;--net:#27333d;--edge:#90a3b0;--rim:#b5dcf3;--scale:#b4bfe3;--axis:#2a3239}}
body{margin:0 auto;padding:1rem 1.25rem 4rem;max-width:76rem;background:var(--page);color:var(--text);font:15px/1.5 system-ui,sans-serif}
h1{margin:.5rem 0;font-size:1.7rem}
h2{margin:2.5rem 0 .5rem;padding-bottom:.25rem;border-bottom:1px solid var(--rule);font-size:1.3rem}
h3{margin:1.5rem 0 .5rem;font-size:1.05rem}
h4{margin:1rem 0 .25rem;font-size:1rem;font-weight:500}
a{color:var(--tree)}
nav,.counts{display:flex;flex-wrap:wrap;gap:.25rem 1.25rem}
table{border-collapse:collapse;font-variant-numeric:tabular-nums}
th,td{padding:.2rem .75rem;border-bottom:1px solid var(--rule);text-align:left;vertical-align:top}
th{position:sticky;top:0;background:var(--head);font-weight:600;white-space:nowrap}
#table{width:100%;min-width:62rem;table-layout:fixed}
#table th:not(:last-child){box-sizing:border-box;width:8.5rem}
#table th:first-child{width:11rem}
#table :is(th,td):is(:nth-child(4),:nth-child(5)),.due :is(th,td):nth-child(3){text-align:right}
#table td:not(:last-child){white-space:nowrap}
#table td:last-child{overflow-wrap:anywhere}
tbody tr:hover{background:var(--head)}
.best,.best:hover{background:var(--best)!important}
.quiet,.legend{color:var(--quiet)}
.legend svg{vertical-align:middle}
.nets{columns:17rem;margin:0;padding:0 0 0 1rem;list-style:none;font-variant-numeric:tabular-nums}
.nets b{float:right;margin-right:3rem;font-weight:400}
input{width:min(26rem,80vw);padding:.35rem .6rem;border:1px solid var(--edge);border-radius:4px;background:var(--page);color:var(--text);font:inherit}
pre{padding:.75rem;overflow-x:auto;background:var(--head);font:13px/1.5 ui-monospace,monospace}
.picture{overflow-x:auto;margin:.5rem 0 1rem;border:1px solid var(--rule);border-radius:4px}
.picture svg{display:block}
svg{background:var(--page)}
.t,.s{paint-order:stroke;stroke:var(--page);stroke-width:3px}
.t{font:12px sans-serif;fill:var(--text)}
.s{font:10px sans-serif;fill:var(--quiet)}
.c{font:bold 10px sans-serif;fill:var(--scale)}
.tree{stroke:var(--tree);stroke-width:2.2;fill:none}
.link{stroke:var(--link);stroke-width:1;fill:none}
.r{fill:var(--router);stroke:var(--tree);stroke-width:1.6}
.n{fill:var(--net);stroke:var(--edge);stroke-width:1.2}
.root{fill:var(--tree);stroke:var(--rim)}
.axis{stroke:var(--axis);stroke-width:1}
";
