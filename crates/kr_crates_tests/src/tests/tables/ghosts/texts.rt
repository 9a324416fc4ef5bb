//! The bundled tables with ghosts as text. Each is the file of its name in the folder `tables/ghosts/` at the top of the repository.

/// Record and gap locking, in which locks on a purged ghost are inherited as locks on the gap.
pub const RECORD_GAP: &str = r#"format = 3
deletes = "ghosts"
modes = ["N-S", "N-X", "G-N", "G-S", "G-X", "I-N", "I-S", "I-X", "GI-N", "GI-S", "GI-X"]

[compatible]
N-S = ["N-S", "G-N", "G-S", "I-N", "I-S", "GI-N", "GI-S"]
N-X = ["G-N", "I-N", "GI-N"]
G-N = ["N-S", "N-X", "G-N", "G-S", "G-X", "I-N", "I-S", "I-X", "GI-N", "GI-S", "GI-X"]
G-S = ["N-S", "G-N", "G-S", "I-N", "I-S", "GI-N", "GI-S"]
G-X = ["G-N", "I-N", "GI-N"]
I-N = ["N-S", "N-X", "I-N", "I-S", "I-X"]
I-S = ["N-S", "I-N", "I-S"]
I-X = ["I-N"]
GI-N = ["N-S", "N-X", "I-N", "I-S", "I-X"]
GI-S = ["N-S", "I-N", "I-S"]
GI-X = ["I-N"]

[convert]
N-S = { N-S = "N-S", N-X = "N-X", G-N = "G-S", G-S = "G-S", G-X = "G-X", I-N = "I-S", I-S = "I-S", I-X = "I-X", GI-N = "GI-S", GI-S = "GI-S", GI-X = "GI-X" }
N-X = { N-S = "N-X", N-X = "N-X", G-N = "G-X", G-S = "G-X", G-X = "G-X", I-N = "I-X", I-S = "I-X", I-X = "I-X", GI-N = "GI-X", GI-S = "GI-X", GI-X = "GI-X" }
G-N = { N-S = "G-S", N-X = "G-X", G-N = "G-N", G-S = "G-S", G-X = "G-X", I-N = "GI-N", I-S = "GI-S", I-X = "GI-X", GI-N = "GI-N", GI-S = "GI-S", GI-X = "GI-X" }
G-S = { N-S = "G-S", N-X = "G-X", G-N = "G-S", G-S = "G-S", G-X = "G-X", I-N = "GI-S", I-S = "GI-S", I-X = "GI-X", GI-N = "GI-S", GI-S = "GI-S", GI-X = "GI-X" }
G-X = { N-S = "G-X", N-X = "G-X", G-N = "G-X", G-S = "G-X", G-X = "G-X", I-N = "GI-X", I-S = "GI-X", I-X = "GI-X", GI-N = "GI-X", GI-S = "GI-X", GI-X = "GI-X" }
I-N = { N-S = "I-S", N-X = "I-X", G-N = "GI-N", G-S = "GI-S", G-X = "GI-X", I-N = "I-N", I-S = "I-S", I-X = "I-X", GI-N = "GI-N", GI-S = "GI-S", GI-X = "GI-X" }
I-S = { N-S = "I-S", N-X = "I-X", G-N = "GI-S", G-S = "GI-S", G-X = "GI-X", I-N = "I-S", I-S = "I-S", I-X = "I-X", GI-N = "GI-S", GI-S = "GI-S", GI-X = "GI-X" }
I-X = { N-S = "I-X", N-X = "I-X", G-N = "GI-X", G-S = "GI-X", G-X = "GI-X", I-N = "I-X", I-S = "I-X", I-X = "I-X", GI-N = "GI-X", GI-S = "GI-X", GI-X = "GI-X" }
GI-N = { N-S = "GI-S", N-X = "GI-X", G-N = "GI-N", G-S = "GI-S", G-X = "GI-X", I-N = "GI-N", I-S = "GI-S", I-X = "GI-X", GI-N = "GI-N", GI-S = "GI-S", GI-X = "GI-X" }
GI-S = { N-S = "GI-S", N-X = "GI-X", G-N = "GI-S", G-S = "GI-S", G-X = "GI-X", I-N = "GI-S", I-S = "GI-S", I-X = "GI-X", GI-N = "GI-S", GI-S = "GI-S", GI-X = "GI-X" }
GI-X = { N-S = "GI-X", N-X = "GI-X", G-N = "GI-X", G-S = "GI-X", G-X = "GI-X", I-N = "GI-X", I-S = "GI-X", I-X = "GI-X", GI-N = "GI-X", GI-S = "GI-X", GI-X = "GI-X" }

[purge]
N-S = "G-N"
N-X = "G-N"
G-N = "G-N"
G-S = "G-N"
G-X = "G-N"
I-N = "G-N"
I-S = "G-N"
I-X = "G-N"
GI-N = "G-N"
GI-S = "G-N"
GI-X = "G-N"

[rules.fetch-hit]
current = [{ mode = "N-S", span = "commit" }]

[rules.fetch-miss]
next = [{ mode = "G-N", span = "commit" }]

[rules.scan-key]
current = [{ mode = "G-S", span = "commit" }]

[rules.scan-stop]
next = [{ mode = "G-S", span = "commit" }]

[rules.insert]
next = [{ mode = "I-N", span = "instant" }]
current = [{ own = ["G-N", "G-S", "G-X", "GI-N", "GI-S", "GI-X"], mode = "G-X", span = "commit" }, { mode = "N-X", span = "commit" }]

[rules.revive]
current = [{ mode = "N-X", span = "commit" }]

[rules.delete]
current = [{ mode = "N-X", span = "commit" }]

[rules.update]
current = [{ mode = "N-X", span = "commit" }]
"#;

/// Range-key locking, in which a purge waits.
pub const RANGE_GHOST: &str = r#"format = 3
deletes = "ghosts"
modes = ["N-S", "N-X", "S-N", "S-S", "S-X", "I-N", "I-S", "I-X", "X-N", "X-S", "X-X"]
purge = "unlocked"

[compatible]
N-S = ["N-S", "S-N", "S-S", "I-N", "I-S", "X-N", "X-S"]
N-X = ["S-N", "I-N", "X-N"]
S-N = ["N-S", "N-X", "S-N", "S-S", "S-X"]
S-S = ["N-S", "S-N", "S-S"]
S-X = ["S-N"]
I-N = ["N-S", "N-X", "I-N", "I-S", "I-X"]
I-S = ["N-S", "I-N", "I-S"]
I-X = ["I-N"]
X-N = ["N-S", "N-X"]
X-S = ["N-S"]
X-X = []

[convert]
N-S = { N-S = "N-S", N-X = "N-X", S-N = "S-S", S-S = "S-S", S-X = "S-X", I-N = "I-S", I-S = "I-S", I-X = "I-X", X-N = "X-S", X-S = "X-S", X-X = "X-X" }
N-X = { N-S = "N-X", N-X = "N-X", S-N = "S-X", S-S = "S-X", S-X = "S-X", I-N = "I-X", I-S = "I-X", I-X = "I-X", X-N = "X-X", X-S = "X-X", X-X = "X-X" }
S-N = { N-S = "S-S", N-X = "S-X", S-N = "S-N", S-S = "S-S", S-X = "S-X", I-N = "X-N", I-S = "X-S", I-X = "X-X", X-N = "X-N", X-S = "X-S", X-X = "X-X" }
S-S = { N-S = "S-S", N-X = "S-X", S-N = "S-S", S-S = "S-S", S-X = "S-X", I-N = "X-S", I-S = "X-S", I-X = "X-X", X-N = "X-S", X-S = "X-S", X-X = "X-X" }
S-X = { N-S = "S-X", N-X = "S-X", S-N = "S-X", S-S = "S-X", S-X = "S-X", I-N = "X-X", I-S = "X-X", I-X = "X-X", X-N = "X-X", X-S = "X-X", X-X = "X-X" }
I-N = { N-S = "I-S", N-X = "I-X", S-N = "X-N", S-S = "X-S", S-X = "X-X", I-N = "I-N", I-S = "I-S", I-X = "I-X", X-N = "X-N", X-S = "X-S", X-X = "X-X" }
I-S = { N-S = "I-S", N-X = "I-X", S-N = "X-S", S-S = "X-S", S-X = "X-X", I-N = "I-S", I-S = "I-S", I-X = "I-X", X-N = "X-S", X-S = "X-S", X-X = "X-X" }
I-X = { N-S = "I-X", N-X = "I-X", S-N = "X-X", S-S = "X-X", S-X = "X-X", I-N = "I-X", I-S = "I-X", I-X = "I-X", X-N = "X-X", X-S = "X-X", X-X = "X-X" }
X-N = { N-S = "X-S", N-X = "X-X", S-N = "X-N", S-S = "X-S", S-X = "X-X", I-N = "X-N", I-S = "X-S", I-X = "X-X", X-N = "X-N", X-S = "X-S", X-X = "X-X" }
X-S = { N-S = "X-S", N-X = "X-X", S-N = "X-S", S-S = "X-S", S-X = "X-X", I-N = "X-S", I-S = "X-S", I-X = "X-X", X-N = "X-S", X-S = "X-S", X-X = "X-X" }
X-X = { N-S = "X-X", N-X = "X-X", S-N = "X-X", S-S = "X-X", S-X = "X-X", I-N = "X-X", I-S = "X-X", I-X = "X-X", X-N = "X-X", X-S = "X-X", X-X = "X-X" }

[rules.fetch-hit]
current = [{ mode = "N-S", span = "commit" }]

[rules.fetch-miss]
next = [{ mode = "S-S", span = "commit" }]

[rules.scan-key]
current = [{ mode = "S-S", span = "commit" }]

[rules.scan-stop]
next = [{ mode = "S-S", span = "commit" }]

[rules.insert]
next = [{ mode = "I-N", span = "instant" }]
current = [{ own = ["S-N", "S-S", "S-X", "X-N", "X-S", "X-X"], mode = "X-X", span = "commit" }, { mode = "N-X", span = "commit" }]

[rules.revive]
current = [{ mode = "N-X", span = "commit" }]

[rules.delete]
current = [{ mode = "N-X", span = "commit" }]

[rules.update]
current = [{ mode = "N-X", span = "commit" }]
"#;

/// Next-key locking, in which a purge waits.
pub const NEXT_KEY_GHOST: &str = r#"format = 3
deletes = "ghosts"
modes = ["KS", "NS", "NW", "KW", "KX"]
purge = "unlocked"

[compatible]
KS = ["KS", "NS", "NW"]
NS = ["KS", "NS"]
NW = ["KS", "NW", "KW"]
KW = ["NW"]
KX = []

[convert]
KS = { KS = "KS", NS = "NS", NW = "KX", KW = "KX", KX = "KX" }
NS = { KS = "NS", NS = "NS", NW = "KX", KW = "KX", KX = "KX" }
NW = { KS = "KX", NS = "KX", NW = "NW", KW = "KW", KX = "KX" }
KW = { KS = "KX", NS = "KX", NW = "KW", KW = "KW", KX = "KX" }
KX = { KS = "KX", NS = "KX", NW = "KX", KW = "KX", KX = "KX" }

[rules.fetch-hit]
current = [{ mode = "KS", span = "commit" }]

[rules.fetch-miss]
next = [{ mode = "NS", span = "commit" }]

[rules.scan-key]
current = [{ mode = "NS", span = "commit" }]

[rules.scan-stop]
next = [{ mode = "NS", span = "commit" }]

[rules.insert]
next = [{ mode = "NW", span = "instant" }]
current = [{ own = ["NS", "KX"], mode = "KX", span = "commit" }, { mode = "KW", span = "commit" }]

[rules.revive]
current = [{ mode = "KX", span = "commit" }]

[rules.delete]
current = [{ mode = "KX", span = "commit" }]

[rules.update]
current = [{ mode = "KX", span = "commit" }]
"#;
