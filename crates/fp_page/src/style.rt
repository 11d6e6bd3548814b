//! The text before and after the content of the page, with its style.

/// From the first octet to the title. The browser reloads the page every five seconds.
pub(crate) fn opening() -> &'static str {
    "<!DOCTYPE html>
<html lang=\"en\"><head><meta charset=\"utf-8\"><meta http-equiv=\"refresh\" content=\"5\">
<meta name=\"viewport\" content=\"width=device-width, initial-scale=1\"><title>"
}

/// From the end of the title to the body.
pub(crate) fn style() -> &'static str {
    "</title>
<style>
:root{color-scheme:light dark;--back:#fff;--front:#1b1f24;--soft:#59636e;--card:#f6f8fa;--line:#d1d9e0;--mark:#0969da;--good:#1a7f37;--bad:#c1121f;--warn:#ffebe9}
@media (prefers-color-scheme:dark){:root{--back:#0d1117;--front:#e6edf3;--soft:#9198a1;--card:#151b23;--line:#3d444d;--mark:#4493f8;--good:#3fb950;--bad:#ff7b72;--warn:#2d1416}}
*{box-sizing:border-box}
body{margin:0 auto;max-width:1240px;padding:12px;background:var(--back);color:var(--front);font:15px/1.4 system-ui,sans-serif}
header{display:flex;flex-wrap:wrap;align-items:baseline;justify-content:space-between}
h1,h2,h3,p,ul,figure,table{margin:0 0 8px}
h1{font-size:22px}h2{font-size:17px}h3{font-size:16px}
small,.s,figcaption,h3 span,li span{color:var(--soft);font-size:13px;font-weight:400}
.ok{color:var(--good)}.bad{color:var(--bad)}
.t{border:1px solid;border-radius:6px;padding:8px 12px}
ul.t{list-style:none;background:var(--warn)}
ul.t li{color:var(--front);margin:0}ul.t li+li{margin-top:8px}ul.t b{color:var(--bad)}
.c{columns:3 300px;column-gap:12px;margin:0 0 12px}.c section{break-inside:avoid;margin:0 0 12px}.c section:last-child{margin:0}
.g{display:grid;grid-template-columns:repeat(auto-fill,minmax(300px,1fr));gap:12px;margin:0 0 12px}
section{background:var(--card);border:1px solid var(--line);border-radius:6px;padding:10px 12px;min-width:0;overflow-wrap:anywhere}
strong{font-size:22px}
.f{display:grid;grid-template-columns:repeat(3,1fr);gap:8px;margin:0 0 8px}
figure{margin:0;min-width:0}
figure svg{display:block;width:100%;height:48px;border-bottom:1px solid var(--line)}
polyline{fill:var(--mark);fill-opacity:.18;stroke:var(--mark);stroke-width:1.5;vector-effect:non-scaling-stroke}
table{width:100%;border-collapse:collapse}
th{font-weight:400;text-align:left;padding:2px 8px 2px 0;width:45%}
.n{text-align:right;padding-left:8px;font-variant-numeric:tabular-nums;white-space:nowrap;width:1%}
.b svg{display:block;width:100%;height:12px;background:var(--line)}
rect{fill:var(--mark)}
body>section{margin:0 0 12px}section ul{padding-left:18px}li{margin:2px 0}
code{font-size:12px}
</style></head><body>
"
}

/// From the end of the content to the last octet.
pub(crate) fn ending() -> &'static str {
    "<p class=\"s\">This page reloads every five seconds. What each part shows is in docs/page.md. For machines: <a href=\"/metrics\">/metrics</a>, <a href=\"/live\">/live</a>, <a href=\"/ready\">/ready</a></p>
</body></html>
"
}
