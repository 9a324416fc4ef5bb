//! Whether pairs make an index.
ghost use Rattle.std.specs.Prelude.{◌≡◌, ◌↔◌, IsTrue, None};
ghost use Rattle.kr_model.specs.Map.{IsMap, is_above, is_rising};

/// Whether pairs make an index: their keys rise strictly.
#[tactic(auto, using(crate::proofs::Rising::rising_is_map))]
pub fn is_map(pairs: &[(u64, u64)]) -> bool
    ensures { IsTrue result ↔ IsMap pairs.now }
{
    keys_rise(pairs)
}

/// Whether the keys rise strictly.
fn keys_rise(pairs: &[(u64, u64)]) -> bool
    ensures { result ≡ is_rising None pairs.now }
{
    let mut before = None;
    for pair in pairs {
        if !is_above(pair.0, before) {
            return false;
        }
        before = Some(pair.0);
    }
    true
}

/// Whether a key is above the one before it.
fn is_above(key: u64, before: Option<u64>) -> bool
    ensures { result ≡ is_above key before }
{
    match before {
        Some(before) => before < key,
        None => true,
    }
}
