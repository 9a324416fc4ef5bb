//! Escaped texts.

use kr_view_run::escape;
use std::test::Fail;

/// Texts, each with how it stands in a page.
const ROWS: [(&str, &str); 8] = [
    ("", ""),
    ("RangeS-S", "RangeS-S"),
    ("<b>", "&lt;b&gt;"),
    ("a & b", "a &amp; b"),
    ("&lt;", "&amp;lt;"),
    ("\"S\"", "&quot;S&quot;"),
    ("it's", "it&#39;s"),
    ("Schlüssel €", "Schlüssel €"),
];

#[test]
fn each_text_is_escaped(rt: HostRuntime) -> Result<(), Fail> {
    for (text, page) in &ROWS {
        let escaped = escape(rt.alloc(), text)?;
        assert_eq!(rt; escaped.as_str(), *page);
    }
    Ok(())
}
