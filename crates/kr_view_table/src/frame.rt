//! What stands around the tables of a page: the look of the tables, the verdict, and the causes behind them.
ghost use Rattle.std.specs.Prelude.{◌≡◌, IfOk, string_bytes};
ghost use Rattle.kr_view_table.specs.Page.{page_of, safe_words};

use kr_view_run::{END, page_head};
use std::alloc::{AllocError, Global};

/// What the title and the heading say before the table's name.
pub const TABLE: &str = "Table ";

/// The look of the tables. Each scrolls by itself, and its edges stay in view. What is in conflict, apart or to blame shows by a
/// mark, brackets or a number, and not by its colour alone.
pub const TABLE_LOOK: &str = ":root{--clash:#f7ddd3}
@media screen and (prefers-color-scheme:dark){:root{--clash:#4a2416}}
@media print{:root{--clash:#eee}}
.grid{overflow:auto;max-width:100%;max-height:92vh}
.grid table{border-collapse:separate;border-spacing:0;border-top:1px solid var(--rule);border-left:1px solid var(--rule)}
.grid th,.grid td{border-width:0 1px 1px 0}
.grid th{background:var(--band);position:sticky}.grid thead th{top:0;z-index:1;vertical-align:bottom}.grid tbody th{left:0}
.grid thead th:first-child{left:0;z-index:2;font-weight:400;font-size:13px;color:var(--soft)}
.matrix th,.matrix td{text-align:center;min-width:36px;white-space:nowrap;padding:4px 8px}
.clash{background-color:var(--clash)}
.apart{color:var(--soft);background-image:repeating-linear-gradient(45deg,transparent 0 5px,var(--rule) 5px 6px)}
.grid td:has(a){outline:3px solid var(--bad);outline-offset:-3px}
.grid td a{display:inline-block;min-width:20px;margin-left:5px;border:2px solid;border-radius:11px;color:var(--bad);font-size:12px;font-weight:700;line-height:16px;text-align:center;text-decoration:none}
.grid small{display:block;font-weight:400;color:var(--soft)}
.rules tbody th{white-space:nowrap}.rules small{white-space:normal}.rules td{min-width:104px}.rules p{margin:0}.rules p+p{margin-top:6px}
.covers td{min-width:112px;font-size:14px}.covers .whole{color:var(--good);font-weight:700}
.cause{border-left-color:var(--bad)}.cause section{background:var(--paper)}
summary{cursor:pointer;font-weight:700;padding:4px 0}
@media screen and (max-width:640px){.matrix th,.matrix td{padding:4px}.covers td,.rules td{font-size:13px}}
@media print{.grid{overflow:visible;max-height:none}.grid th{position:static}.cause{break-inside:auto}}
";

/// From the verdict to the tables.
pub const BEHIND_VERDICT: &str = "</p>\n";

/// How the verdict on a table begins.
fn safe_words(is_safe: bool) -> &'static str
    ensures { result.now ≡ safe_words is_safe }
{
    if is_safe {
        "<p class=\"verdict yes\"><b>✓</b> "
    } else {
        "<p class=\"verdict no\"><b>✗</b> "
    }
}

/// The page under this name, with this verdict, both escaped, and with what is told of the table behind it. The only error is that a
/// growth was refused.
pub fn framed(
    alloc: Global,
    name: &str,
    is_safe: bool,
    verdict: &str,
    tables: &str,
    causes: &str,
) -> Result<String, AllocError>
    ensures { IfOk result (λ page. string_bytes page ≡ page_of name.now is_safe verdict.now tables.now causes.now) }
{
    let mut page = page_head(alloc, TABLE, TABLE_LOOK, name)?;
    page.push_str(safe_words(is_safe))?;
    page.push_str(verdict)?;
    page.push_str(BEHIND_VERDICT)?;
    page.push_str(tables)?;
    page.push_str(causes)?;
    page.push_str(END)?;
    Ok(page)
}
