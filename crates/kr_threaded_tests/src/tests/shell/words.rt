//! Words as such.
use super::is_plain;

/// A word, and whether it begins with no hyphen.
const WORDS: &[(&str, bool)] = &[
    ("", true),
    ("a", true),
    ("-", false),
    ("-a", false),
    ("a-", true),
    ("@kvl", true),
];

#[test]
fn words(rt: HostRuntime) {
    for (word, plain) in WORDS {
        assert_eq!(rt; is_plain(*word), *plain, "{word}");
    }
}
