//! Style of the HTML page.

/// The style of the page. The part on top is written last; `order` moves it there.
pub const STYLE: &str = "\
    :root{color-scheme:light dark;--paper:#fff;--ink:#1d2430;--faint:#657084;--rule:#c9d0da;--sent:#1457a8;\
    --taken:#0b6e55;--control:#6b5b95;--bad:#b3121d;--badpaper:#fdecec;--good:#17713a;--goodpaper:#e8f6ec;\
    --mark:#fff0ad;--number:4em;--time:6.5em;--wide:30em}\n\
    @media(prefers-color-scheme:dark){:root{--paper:#14181f;--ink:#dfe5ee;--faint:#8f9bb0;--rule:#3b4557;\
    --sent:#7db4ff;--taken:#5fd3b0;--control:#b7a6e6;--bad:#ff8086;--badpaper:#3a1a1e;--good:#74d797;\
    --goodpaper:#152c1e;--mark:#4a4210}}\n\
    *{box-sizing:border-box}\n\
    body{display:flex;flex-direction:column;margin:0 auto;padding:1em;max-width:86em;background:var(--paper);\
    color:var(--ink);font:14px/1.45 system-ui,sans-serif}\n\
    a{color:inherit;text-decoration-color:var(--faint);text-underline-offset:.15em}\n\
    p,pre,ol{margin:0}\n\
    pre,.n,.row>span,i,.counts,#verdict,td{font-family:ui-monospace,monospace;font-size:.93em}\n\
    section{order:-1;display:flex;flex-direction:column;gap:.8em;margin-bottom:1em}\n\
    #verdict{order:-2;padding:.5em .8em;border-left:.35em solid;font-size:1.1em;font-weight:bold}\n\
    .fail{color:var(--bad);background:var(--badpaper)}\n\
    .pass{color:var(--good);background:var(--goodpaper)}\n\
    .counts{order:-1}\n\
    .doubt{order:-3;padding:.5em .8em;border-left:.35em solid var(--bad);font-weight:bold}\n\
    ol:empty{display:none}\n\
    ol{padding-left:2.2em}\n\
    ol b{color:var(--bad)}\n\
    table{border-collapse:collapse;align-self:start}\n\
    th,td{padding:.15em .7em;border-bottom:1px solid var(--rule);text-align:right}\n\
    th:first-child,td:first-child{text-align:left}\n\
    th{font-weight:600;color:var(--faint)}\n\
    main{position:relative;--left:calc(var(--number) + var(--time) + 1.5em)}\n\
    main.utc{--time:13.5em}\n\
    main::before,main::after{content:\"\";position:absolute;z-index:-1;top:.5em;bottom:0;left:var(--left);\
    border-left:2px solid var(--rule)}\n\
    main::after{left:calc(var(--left) + var(--wide) - 2px)}\n\
    header{position:sticky;top:0;z-index:1;margin-left:calc(var(--left) - 5em);width:calc(var(--wide) + 10em);\
    display:flex;justify-content:space-between;padding:.3em 0}\n\
    header b{width:10em;padding:.15em 0;border:2px solid var(--rule);border-radius:.3em;background:var(--paper);\
    text-align:center}\n\
    .row{display:grid;grid-template-columns:var(--number) var(--time) var(--wide) minmax(0,1fr);\
    column-gap:.75em;padding:.12em 0;align-items:start;scroll-margin-top:4em;content-visibility:auto;\
    contain-intrinsic-size:auto 1.7em}\n\
    .n,.row>span{text-align:right;color:var(--faint);text-decoration:none}\n\
    summary{list-style:none;cursor:pointer;position:relative;margin:0 2px;text-align:center;color:var(--way);\
    border-bottom:2px solid}\n\
    summary::-webkit-details-marker{display:none}\n\
    summary:hover b{text-decoration:underline}\n\
    i{color:var(--faint);font-style:normal;font-size:.85em}\n\
    summary::after{content:\"\";position:absolute;bottom:-6px;border:5px solid transparent}\n\
    .sent{--way:var(--sent)}\n\
    .taken,.lost{--way:var(--taken)}\n\
    .control{--way:var(--control)}\n\
    .bad{--way:var(--bad)}\n\
    .bad .n{color:var(--bad);font-weight:bold}\n\
    .sent summary::after{right:0;border-left:9px solid;border-right:0}\n\
    .taken summary::after{left:0;border-right:9px solid;border-left:0}\n\
    .lost summary{border-bottom-style:dashed;margin-left:2.5em}\n\
    .lost summary::after{content:\"\\2715\";left:-1.1em;bottom:-.8em;border:0;font-weight:bold}\n\
    pre{white-space:pre-wrap;overflow-wrap:anywhere}\n\
    details pre{margin:.5em .5em .3em;padding:.4em .6em;border:1px solid var(--rule);border-radius:.3em;\
    background:var(--paper)}\n\
    .row>b{justify-self:center;padding:0 .8em;border:1px solid;border-radius:.3em;background:var(--paper);\
    font-size:.93em;overflow-wrap:anywhere}\n\
    .event>b{justify-self:stretch;text-align:center}\n\
    .up>b{color:var(--good)}\n\
    .down>b{color:var(--faint)}\n\
    .cut>b,.timer>b{color:var(--bad)}\n\
    .timer>b{justify-self:start}\n\
    .plain pre{grid-column:3/-1;justify-self:start;min-height:1.4em;margin-left:.6em;color:var(--faint);\
    background:var(--paper);font-style:italic}\n\
    .row a{scroll-margin-top:4em}\n\
    .f{grid-column:3/-1;margin:.3em 0;padding:.2em .8em;border-left:.3em solid var(--bad);\
    background:var(--badpaper)}\n\
    .f p:first-child{color:var(--bad)}\n\
    .f p~p{padding-left:1em}\n\
    .row:target,.row:has(:target),p :target{background:var(--mark)}\n\
    .gap{width:var(--wide);margin:.2em 0 .2em var(--left);padding:.2em 0;background:var(--paper);\
    border-block:1px dotted var(--faint);text-align:center;color:var(--faint)}\n\
    @media(max-width:62em){:root{--number:3em;--wide:22em}.plain pre,.f{grid-column:2/-1}}\n\
    @media print{:root{--paper:#fff;--ink:#000}body{max-width:none;padding:0;font-size:8pt}:root{--wide:24em}\
    header{position:static}.row{break-inside:avoid;content-visibility:visible}}\n";
