// The page's head and tail, and what stands around the label of a row.
use files::Failure;
use row_labels::{Sink, is_ancestors};
use rows::Row;

// The title, the style, and the words up to the list of request types.
pub const HEAD: &[u8] =
    b"<!DOCTYPE html>\n<html lang=\"en\">\n<head>\n<meta charset=\"utf-8\">\n<meta name=\"viewport\" content=\"width=device-width, initial-scale=1\">\n<title>What decisions read</title>\n<style>\n:root { color-scheme: light dark; --page: #f3f5f8; --card: #ffffff; --ink: #1b2530; --soft: #5a6675; --line: #d3dae3; --tie: #0a5f8a; --mark: #7a4300; --markback: #ffefd6; --hit: #ffec99 }\n@media (prefers-color-scheme: dark) { :root { --page: #14181d; --card: #1d232b; --ink: #e4e9ef; --soft: #9aa7b5; --line: #36414d; --tie: #6cb8e6; --mark: #ffcf8f; --markback: #47331a; --hit: #6b5b00 } }\nbody { margin: 0; background: var(--page); color: var(--ink); font: 16px/1.5 system-ui, sans-serif }\nheader, form, nav, main, footer { max-width: 56rem; margin: 0 auto; padding: 0 1.25rem }\n[hidden] { display: none }\nh1 { font-size: 1.6rem; margin: 1.5rem 0 .25rem }\nh2 { font-size: 1rem; margin: 1.25rem 0 .25rem }\nnav ol { margin: .25rem 0 }\np, footer { color: var(--soft); margin: .25rem 0 1rem }\nfooter { margin: 1.5rem auto; font-size: .85rem }\nform { position: sticky; top: 0; z-index: 1; background: var(--page); padding-top: .6rem; padding-bottom: .6rem; display: flex; flex-wrap: wrap; gap: .5rem; align-items: center }\ninput, button { font: inherit; color: inherit; background: var(--card); border: 1px solid var(--line); border-radius: .4rem; padding: .35rem .7rem }\ninput { flex: 1 1 14rem }\nbutton { cursor: pointer }\na { color: var(--tie); text-decoration: none }\na:hover { text-decoration: underline }\nul { list-style: none; margin: 0; padding: 0 }\nmain ul ul { margin-left: .45rem; padding-left: 1.1rem; border-left: 1px solid var(--line) }\n.request { background: var(--card); border: 1px solid var(--line); border-radius: .5rem; padding: .6rem 1rem; margin: 0 0 .8rem; scroll-margin-top: 4rem }\n.request > details > summary, .request > span { font-weight: 600 }\n.request > span::after { content: \": nothing is read\"; font-weight: 400; color: var(--soft) }\n.request > details > ul { margin-top: .3rem }\n.root > details > summary, .root > span { font-weight: 500 }\n.ancestors > details > summary, .ancestors > span { font-style: italic; color: var(--tie) }\nsummary { cursor: pointer }\nli > span { margin-left: 1.05rem }\n.request > span { margin-left: 0 }\nem { font-style: normal; font-size: .8rem; color: var(--mark); background: var(--markback); border-radius: .7rem; padding: .1rem .55rem; margin-left: .3rem }\n.hit { background: var(--hit); border-radius: .2rem }\n#tree:empty::after { content: \"No request type: nothing is read.\"; color: var(--soft) }\n</style>\n</head>\n<body>\n<header>\n<h1>What decisions read</h1>\n<p>For each request type, all data that a decision on such a request reads: of the principal, the action, the resource, the context and of entities that policies name, the fields below them. Where ancestors of an entity are read, the line below it says by what they are named, and each that is asked for is marked.</p>\n</header>\n<form onsubmit=\"return false\"><input id=\"q\" type=\"search\" placeholder=\"Search names and ids\" aria-label=\"Search names and ids\"><output id=\"n\"></output><button type=\"button\" id=\"fold\">Fold all</button><button type=\"button\" id=\"unfold\">Unfold all</button></form>\n<nav><h2>Request types</h2><ol>\n";

// From the list of request types to the trees.
pub const MIDDLE: &[u8] = b"</ol></nav>\n<main><h2>What they read</h2><ul id=\"tree\">";

// The script, and the end.
pub const TAIL: &[u8] =
    b"</ul></main>\n<footer>Written by terbagyl from a listing. Where a name is missing its id stands.</footer>\n<script>\nvar q = document.getElementById(\"q\"), tops = document.querySelectorAll(\"#tree > li\"), items = document.querySelectorAll(\"nav li\");\nfunction walk(li, t, above) {\n  var s = li.querySelector(\"span\"), own = t !== \"\" && s.textContent.toLowerCase().includes(t), below = 0;\n  li.querySelectorAll(\":scope > details > ul > li\").forEach(function (c) { below += walk(c, t, above || own) });\n  s.className = own ? \"hit\" : \"\";\n  li.hidden = t !== \"\" && !above && !own && !below;\n  if (t !== \"\" && below) li.querySelector(\"details\").open = true;\n  return below + (own ? 1 : 0);\n}\nq.oninput = function () {\n  var t = q.value.trim().toLowerCase(), n = 0;\n  tops.forEach(function (li, i) { n += walk(li, t, false); items[i].hidden = li.hidden });\n  document.getElementById(\"n\").textContent = t === \"\" ? \"\" : n + \" found\";\n};\nfunction fold(open) { document.querySelectorAll(\"#tree details\").forEach(function (d) { d.open = open }) }\ndocument.getElementById(\"fold\").onclick = function () { fold(false) };\ndocument.getElementById(\"unfold\").onclick = function () { fold(true) };\n</script>\n</body>\n</html>\n";

// What an entry begins with. Its number is what the list of request types refers to.
fn put_anchor(sink: &mut Sink, request: u64) -> Result<(), Failure> {
    sink.put(b"<li class=\"request\" id=\"r")?;
    sink.put_number(request)?;
    sink.put(b"\">")
}

// What a row begins with, by what it is.
fn put_front(sink: &mut Sink, row: Row) -> Result<(), Failure> {
    if row.depth() == 0 {
        return put_anchor(sink, row.step());
    }
    if is_ancestors(row) {
        return sink.put(b"<li class=\"ancestors\">");
    }
    if row.depth() == 1 {
        return sink.put(b"<li class=\"root\">");
    }
    sink.put(b"<li>")
}

// All that stands in front of a row's label: a row with others below it can be folded.
pub fn put_open(sink: &mut Sink, row: Row, is_parent: bool) -> Result<(), Failure> {
    put_front(sink, row)?;
    if is_parent {
        return sink.put(b"<details open><summary><span>");
    }
    sink.put(b"<span>")
}

// What stands behind a row's label.
fn put_back(sink: &mut Sink, is_parent: bool) -> Result<(), Failure> {
    if is_parent {
        return sink.put(b"</span></summary><ul>\n");
    }
    sink.put(b"</span></li>\n")
}

// All that stands behind a row's label, by its depth and the next row's: it ends as many rows as are left on the way up to that.
pub fn put_close(sink: &mut Sink, depth: u64, next: u64) -> Result<(), Failure> {
    put_back(sink, depth < next)?;
    for _ in next..depth {
        sink.put(b"</ul></details></li>\n")?;
    }
    Ok(())
}

// A link to the entry with a number.
pub fn put_link(sink: &mut Sink, request: u64) -> Result<(), Failure> {
    sink.put(b"<li><a href=\"#r")?;
    sink.put_number(request)?;
    sink.put(b"\">")
}
