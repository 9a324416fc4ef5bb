//! What a page begins and ends with: its head with its look, and its heading. And the page of a run around its bands.
ghost use Rattle.std.specs.Prelude.{◌≡◌, IfOk, OnOk, string_bytes};
ghost use Rattle.kr_view_scenes.specs.Parts.{IsMadeOfParts};
ghost use Rattle.kr_view_run.specs.Page.{page_head, page_of};
ghost use Rattle.kr_view_run.specs.Signs.{serial_words};

use kr_view_scenes::Html;
use std::alloc::{AllocError, Global};

/// Up to the title.
pub const HEAD: &str = "<!DOCTYPE html>
<html lang=\"en\">
<head>
<meta charset=\"utf-8\">
<meta name=\"viewport\" content=\"width=device-width, initial-scale=1\">
<title>";

/// From the title to the look of all pages.
pub const STYLE: &str = "</title>
<style>
";

/// The look of the page: six colours that stand apart for readers who see fewer, in a light and a dark form. A drawing that
/// fits the window if it shrinks by a quarter or less does so; else it scrolls by itself at full size.
pub const LOOK: &str =
    ":root{color-scheme:light dark;--ink:#1a1a1a;--paper:#fff;--soft:#5a5a5a;--rule:#c9c9c9;--band:#f6f6f4;--bad:#a8320a;--good:#00634a;
--c0:#bcdcf2;--c1:#f7d9a0;--c2:#b5e3d2;--c3:#f3cfe0;--c4:#f5ee9e;--c5:#d9d2ee}
@media screen and (prefers-color-scheme:dark){:root{--ink:#ececec;--paper:#16181b;--soft:#a9adb3;--rule:#474c53;--band:#1f2227;--bad:#ff9d76;--good:#62d6ae;
--c0:#1d4f70;--c1:#6b4a0c;--c2:#0e5a45;--c3:#6e2f50;--c4:#5b5509;--c5:#473c74}}
@media print{:root{--ink:#000;--paper:#fff;--soft:#444;--rule:#999;--band:#fff}section{break-inside:avoid}}
*{box-sizing:border-box}
body{margin:0 auto;max-width:1240px;padding:16px;background:var(--paper);color:var(--ink);font:16px/1.45 system-ui,sans-serif}
h1{font-size:24px;margin:8px 0}h2{font-size:20px;margin:28px 0 8px}h3{font-size:16px;margin:0 0 6px;display:flex;flex-wrap:wrap;gap:2px 8px}
code{font-size:inherit;overflow-wrap:anywhere}p{margin:6px 0}a{color:inherit}
.verdict{border:2px solid;border-radius:6px;padding:10px 12px}
.yes b:first-child{color:var(--good)}.yes{border-color:var(--good)}.no>b:first-child{color:var(--bad)}.no{border-color:var(--bad)}
.limit,.note{color:var(--soft);font-size:14px}
section{background:var(--band);border:1px solid var(--rule);border-left:6px solid var(--rule);border-radius:6px;padding:10px 12px;margin:12px 0}
section.blocked{border-left:6px dashed var(--bad)}section.refused{border-left:6px dotted var(--bad)}section.committed{border-left-color:var(--good)}
section:target{outline:3px solid var(--ink)}
.reply{font-weight:400;border:1px solid;border-radius:10px;padding:0 8px}
.blocked .reply,.refused .reply{color:var(--bad);font-weight:700}
.wide{overflow-x:auto;max-width:100%}svg{display:block;height:auto;width:min(var(--w),max(100%,(var(--w)*.75 - 100%)*9999))}svg text{font:14px ui-monospace,monospace;fill:var(--ink)}
.axis{stroke:var(--soft);stroke-width:2}.lane{stroke:var(--soft);stroke-width:3}.tick{stroke:var(--ink);stroke-width:3}.end{stroke-dasharray:4 3}
svg .key,svg .value,svg .when,svg .letter{text-anchor:middle}svg .key{font-weight:700}svg .absent,svg .value,svg .when{fill:var(--soft)}
svg .absent{font-weight:400}svg .mark.value{fill:var(--ink);font-weight:700}svg .label{font-weight:700}
.came{fill:none;stroke:var(--good);stroke-width:3}.gone{fill:none;stroke:var(--bad);stroke-width:3}.none{fill:var(--paper);stroke:var(--soft);stroke-width:2}
.pointer{fill:var(--ink)}
rect,circle.mark{stroke:var(--ink);stroke-width:1}
.c0{fill:var(--c0)}.c1{fill:var(--c1)}.c2{fill:var(--c2)}.c3{fill:var(--c3)}.c4{fill:var(--c4)}.c5{fill:var(--c5)}
rect.refuses{stroke:var(--bad);stroke-width:3}
rect.asked,rect.blocked{fill:var(--paper);stroke:var(--bad);stroke-width:2;stroke-dasharray:6 4}
rect.refused{fill:var(--paper);stroke:var(--bad);stroke-width:2;stroke-dasharray:2 3}
table{border-collapse:collapse}th,td{border:1px solid var(--rule);padding:4px 10px;text-align:left;vertical-align:top}
.differs{color:var(--bad);font-weight:700}
@media screen and (max-width:640px){body{padding:10px}section{padding:8px}th,td{padding:4px 6px;font-size:14px}}
@media print{.wide{overflow:visible}svg{width:min(var(--w),100%)}}
";

/// From the look to the heading.
pub const BODY: &str = "</style>
</head>
<body>
<h1>";

/// What the name in the heading begins with.
pub const NAME: &str = "<code>";

/// From the name in the heading to what comes below the heading.
pub const BEHIND_NAME: &str = "</code></h1>\n";

/// The end of a page.
pub const END: &str = "</body>\n</html>\n";

/// What the title and the heading of the page of a run say before the table's name.
pub const RUN: &str = "A run under ";

/// What the ids of the bands of the steps begin with, to which links lead.
pub const STEP_IDS: &str = "s";

/// The end of the band of a step.
pub const BAND_END: &str = "</section>\n";

/// What a page has behind the first words of its verdict.
#[derive(Drop)]
pub struct Body {
    /// What comes before the bands of the steps.
    pub before: Html,
    /// A band for each step that is drawn.
    pub bands: String,
    pub behind: Html,
}

/// The beginning of a page that stands alone, up to the end of its heading. Its title and its heading are `kind` and the name,
/// which has been escaped; `look` adds to the look of all pages. `END` ends the page. The only error is that a growth was
/// refused.
pub fn page_head(alloc: Global, kind: &str, look: &str, name: &str) -> Result<String, AllocError>
    ensures { IfOk result (λ page. string_bytes page ≡ page_head kind.now look.now name.now) }
{
    [
        HEAD,
        kind,
        name,
        STYLE,
        LOOK,
        look,
        BODY,
        kind,
        NAME,
        name,
        BEHIND_NAME,
    ]
    .concat(alloc)
}

/// How the verdict on a run begins.
fn serial_words(is_serial: bool) -> &'static str
    ensures { result.now ≡ serial_words is_serial }
{
    if is_serial {
        "<p class=\"verdict yes\"><b>✓ Serial.</b> "
    } else {
        "<p class=\"verdict no\"><b>✗ Not serial.</b> "
    }
}

/// The page of a run under this name, which has been escaped.
pub fn framed(alloc: Global, name: &str, is_serial: bool, body: &Body) -> Result<String, AllocError>
    ensures page { IfOk result (λ page. string_bytes page
        ≡ page_of name.now is_serial body.now.before (string_bytes body.now.bands) body.now.behind) }
    ensures before { OnOk result (IsMadeOfParts body.now.before) }
    ensures behind { OnOk result (IsMadeOfParts body.now.behind) }
{
    let mut page = page_head(alloc, RUN, "", name)?;
    page.push_str(serial_words(is_serial))?;
    page.push_str(body.before.as_str())?;
    page.push_str(body.bands.as_str())?;
    page.push_str(body.behind.as_str())?;
    page.push_str(END)?;
    Ok(page)
}
