//! The bundled tables as text. Each is the file of its name in the folder `tables/` at the top of the repository.

/// Key-value locking in a format, with these lines at the end.
macro_rules! key_value_locking {
    ($format:literal, $more:literal) => {
        concat!(
            "format = ",
            $format,
            r#"
modes = ["IS", "IX", "S", "SIX", "X"]

[compatible]
IS = ["IS", "IX", "S", "SIX"]
IX = ["IS", "IX"]
S = ["IS", "S"]
SIX = ["IS"]
X = []

[convert]
IS = { IS = "IS", IX = "IX", S = "S", SIX = "SIX", X = "X" }
IX = { IS = "IX", IX = "IX", S = "SIX", SIX = "SIX", X = "X" }
S = { IS = "S", IX = "SIX", S = "S", SIX = "SIX", X = "X" }
SIX = { IS = "SIX", IX = "SIX", S = "SIX", SIX = "SIX", X = "X" }
X = { IS = "X", IX = "X", S = "X", SIX = "X", X = "X" }

[rules.fetch-hit]
current = [{ mode = "S", span = "commit" }]

[rules.fetch-miss]
next = [{ mode = "S", span = "commit" }]

[rules.scan-key]
current = [{ mode = "S", span = "commit" }]

[rules.scan-stop]
next = [{ mode = "S", span = "commit" }]

[rules.insert]
next = [{ mode = "IX", span = "instant" }]
current = [{ own = ["S", "SIX", "X"], mode = "X", span = "commit" }, { mode = "IX", span = "commit" }]

[rules.delete]
next = [{ mode = "X", span = "commit" }]
current = [{ mode = "X", span = "instant" }]
"#,
            $more
        )
    };
}

/// Key-value locking.
pub const KVL: &str = key_value_locking!("1", "");

/// Key-value locking with updates.
pub const KVL_UPDATE: &str = key_value_locking!(
    "2",
    "\n[rules.update]\ncurrent = [{ mode = \"X\", span = \"commit\" }]\n"
);

/// Index-specific locking.
pub const IM: &str = r#"format = 1
modes = ["S", "X"]

[compatible]
S = ["S"]
X = []

[convert]
S = { S = "S", X = "X" }
X = { S = "X", X = "X" }

[rules.fetch-hit]
current = [{ mode = "S", span = "commit" }]

[rules.fetch-miss]
next = [{ mode = "S", span = "commit" }]

[rules.scan-key]
current = [{ mode = "S", span = "commit" }]

[rules.scan-stop]
next = [{ mode = "S", span = "commit" }]

[rules.insert]
next = [{ mode = "X", span = "instant" }]
current = [{ mode = "X", span = "commit" }]

[rules.delete]
next = [{ mode = "X", span = "commit" }]
current = [{ mode = "X", span = "instant" }]
"#;

/// Range-key locking.
pub const RANGE_KEY: &str = r#"format = 1
modes = ["N-S", "N-X", "S-N", "S-S", "S-X", "I-N", "I-S", "I-X", "X-N", "X-S", "X-X"]

[compatible]
N-S = ["N-S", "S-N", "S-S", "I-N", "I-S", "X-N", "X-S"]
N-X = ["S-N", "I-N", "X-N"]
S-N = ["N-S", "N-X", "S-N", "S-S", "S-X"]
S-S = ["N-S", "S-N", "S-S"]
S-X = ["S-N"]
I-N = ["N-S", "N-X", "I-N", "I-S", "I-X"]
I-S = ["N-S", "I-N", "I-S"]
I-X = ["I-N"]
X-N = ["N-S", "N-X"]
X-S = ["N-S"]
X-X = []

[convert]
N-S = { N-S = "N-S", N-X = "N-X", S-N = "S-S", S-S = "S-S", S-X = "S-X", I-N = "I-S", I-S = "I-S", I-X = "I-X", X-N = "X-S", X-S = "X-S", X-X = "X-X" }
N-X = { N-S = "N-X", N-X = "N-X", S-N = "S-X", S-S = "S-X", S-X = "S-X", I-N = "I-X", I-S = "I-X", I-X = "I-X", X-N = "X-X", X-S = "X-X", X-X = "X-X" }
S-N = { N-S = "S-S", N-X = "S-X", S-N = "S-N", S-S = "S-S", S-X = "S-X", I-N = "X-N", I-S = "X-S", I-X = "X-X", X-N = "X-N", X-S = "X-S", X-X = "X-X" }
S-S = { N-S = "S-S", N-X = "S-X", S-N = "S-S", S-S = "S-S", S-X = "S-X", I-N = "X-S", I-S = "X-S", I-X = "X-X", X-N = "X-S", X-S = "X-S", X-X = "X-X" }
S-X = { N-S = "S-X", N-X = "S-X", S-N = "S-X", S-S = "S-X", S-X = "S-X", I-N = "X-X", I-S = "X-X", I-X = "X-X", X-N = "X-X", X-S = "X-X", X-X = "X-X" }
I-N = { N-S = "I-S", N-X = "I-X", S-N = "X-N", S-S = "X-S", S-X = "X-X", I-N = "I-N", I-S = "I-S", I-X = "I-X", X-N = "X-N", X-S = "X-S", X-X = "X-X" }
I-S = { N-S = "I-S", N-X = "I-X", S-N = "X-S", S-S = "X-S", S-X = "X-X", I-N = "I-S", I-S = "I-S", I-X = "I-X", X-N = "X-S", X-S = "X-S", X-X = "X-X" }
I-X = { N-S = "I-X", N-X = "I-X", S-N = "X-X", S-S = "X-X", S-X = "X-X", I-N = "I-X", I-S = "I-X", I-X = "I-X", X-N = "X-X", X-S = "X-X", X-X = "X-X" }
X-N = { N-S = "X-S", N-X = "X-X", S-N = "X-N", S-S = "X-S", S-X = "X-X", I-N = "X-N", I-S = "X-S", I-X = "X-X", X-N = "X-N", X-S = "X-S", X-X = "X-X" }
X-S = { N-S = "X-S", N-X = "X-X", S-N = "X-S", S-S = "X-S", S-X = "X-X", I-N = "X-S", I-S = "X-S", I-X = "X-X", X-N = "X-S", X-S = "X-S", X-X = "X-X" }
X-X = { N-S = "X-X", N-X = "X-X", S-N = "X-X", S-S = "X-X", S-X = "X-X", I-N = "X-X", I-S = "X-X", I-X = "X-X", X-N = "X-X", X-S = "X-X", X-X = "X-X" }

[rules.fetch-hit]
current = [{ mode = "N-S", span = "commit" }]

[rules.fetch-miss]
next = [{ mode = "S-N", span = "commit" }]

[rules.scan-key]
current = [{ mode = "S-S", span = "commit" }]

[rules.scan-stop]
next = [{ mode = "S-N", span = "commit" }]

[rules.insert]
next = [{ mode = "I-N", span = "instant" }]
current = [{ own = ["S-N", "S-S", "S-X", "X-N", "X-S", "X-X"], mode = "X-X", span = "commit" }, { mode = "I-X", span = "commit" }]

[rules.delete]
next = [{ mode = "X-N", span = "commit" }]
current = [{ mode = "X-X", span = "instant" }]
"#;
