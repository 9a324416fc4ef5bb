//! The four protocols, drawn by hand: which modes are compatible, what is held after a request, and what is asked.

use kr_protocol::Mode;

const KVL_COMPATIBILITY: &str = "\
++++++
+++++.
+++...
++.+..
++....
+.....
";

const KVL_CONVERSION: &str = "\
none IS IX S SIX X
IS IS IX S SIX X
IX IX IX SIX SIX X
S S SIX S SIX X
SIX SIX SIX SIX SIX X
X X X X X X
";

const KVL_RULES: &str = "\
S S S S S S
- - - - - -
- - - - - -
S S S S S S
S S S S S S
- - - - - -
- - - - - -
S S S S S S
IX IX IX X X X
IX! IX! IX! IX! IX! IX!
X! X! X! X! X! X!
X X X X X X
";

const KVL_WITHOUT_UPDATES: &str = "\
- - - - - -
- - - - - -
";

const KVL_WITH_UPDATES: &str = "\
X X X X X X
- - - - - -
";

const RANGE_KEY_COMPATIBILITY: &str = "\
++++++++++++
++.++.++.++.
+..+..+..+..
++++++......
++.++.......
+..+........
+++...+++...
++....++....
+.....+.....
+++.........
++..........
+...........
";

const RANGE_KEY_CONVERSION: &str = "\
none N-S N-X S-N S-S S-X I-N I-S I-X X-N X-S X-X
N-S N-S N-X S-S S-S S-X I-S I-S I-X X-S X-S X-X
N-X N-X N-X S-X S-X S-X I-X I-X I-X X-X X-X X-X
S-N S-S S-X S-N S-S S-X X-N X-S X-X X-N X-S X-X
S-S S-S S-X S-S S-S S-X X-S X-S X-X X-S X-S X-X
S-X S-X S-X S-X S-X S-X X-X X-X X-X X-X X-X X-X
I-N I-S I-X X-N X-S X-X I-N I-S I-X X-N X-S X-X
I-S I-S I-X X-S X-S X-X I-S I-S I-X X-S X-S X-X
I-X I-X I-X X-X X-X X-X I-X I-X I-X X-X X-X X-X
X-N X-S X-X X-N X-S X-X X-N X-S X-X X-N X-S X-X
X-S X-S X-X X-S X-S X-X X-S X-S X-X X-S X-S X-X
X-X X-X X-X X-X X-X X-X X-X X-X X-X X-X X-X X-X
";

const RANGE_KEY_RULES: &str = "\
N-S N-S N-S N-S N-S N-S N-S N-S N-S N-S N-S N-S
- - - - - - - - - - - -
- - - - - - - - - - - -
S-N S-N S-N S-N S-N S-N S-N S-N S-N S-N S-N S-N
S-S S-S S-S S-S S-S S-S S-S S-S S-S S-S S-S S-S
- - - - - - - - - - - -
- - - - - - - - - - - -
S-N S-N S-N S-N S-N S-N S-N S-N S-N S-N S-N S-N
I-X I-X I-X X-X X-X X-X I-X I-X I-X X-X X-X X-X
I-N! I-N! I-N! I-N! I-N! I-N! I-N! I-N! I-N! I-N! I-N! I-N!
X-X! X-X! X-X! X-X! X-X! X-X! X-X! X-X! X-X! X-X! X-X! X-X!
X-N X-N X-N X-N X-N X-N X-N X-N X-N X-N X-N X-N
";

const RANGE_KEY_WITHOUT_UPDATES: &str = "\
- - - - - - - - - - - -
- - - - - - - - - - - -
";

const IM_COMPATIBILITY: &str = "\
+++
++.
+..
";

const IM_CONVERSION: &str = "\
none S X
S S X
X X X
";

const IM_RULES: &str = "\
S S S
- - -
- - -
S S S
S S S
- - -
- - -
S S S
X X X
X! X! X!
X! X! X!
X X X
";

const IM_WITHOUT_UPDATES: &str = "\
- - -
- - -
";

/// A protocol, drawn by hand.
#[derive(Clone, Copy)]
pub struct Drawing<'a> {
    /// The greatest mode.
    pub count: Mode,
    pub compatibility: &'a str,
    pub conversion: &'a str,
    pub rules: &'a str,
    /// What the row of updates requests.
    pub update: &'a str,
}

#[rattlefmt::skip]
pub const KVL: Drawing = Drawing { count: 5, compatibility: KVL_COMPATIBILITY, conversion: KVL_CONVERSION, rules: KVL_RULES, update: KVL_WITHOUT_UPDATES };

#[rattlefmt::skip]
pub const KVL_UPDATE: Drawing = Drawing { update: KVL_WITH_UPDATES, ..KVL };

#[rattlefmt::skip]
pub const IM: Drawing = Drawing { count: 2, compatibility: IM_COMPATIBILITY, conversion: IM_CONVERSION, rules: IM_RULES, update: IM_WITHOUT_UPDATES };

#[rattlefmt::skip]
pub const RANGE_KEY: Drawing = Drawing { count: 11, compatibility: RANGE_KEY_COMPATIBILITY, conversion: RANGE_KEY_CONVERSION, rules: RANGE_KEY_RULES, update: RANGE_KEY_WITHOUT_UPDATES };
