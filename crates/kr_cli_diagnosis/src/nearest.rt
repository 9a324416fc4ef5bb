//! The nearest of several names.
ghost use Rattle.std.specs.Prelude.{◌≡◌, ◌≤◌, ◌<◌, All, Contains, IfNone, IfOk, IfSome, length};
ghost use Rattle.kr_cli_diagnosis.specs.Nearest.{distance, near_distance};

use std::alloc::{AllocError, Global};
use strsim::levenshtein;

/// A word of more bytes is near to no name.
const LONGEST: usize = 40;

/// How far a name that is near to a word is from it at most.
fn near_distance(word: &str) -> usize
    ensures { result ≡ near_distance word.now }
{
    if word.len() < 2 {
        0
    } else if word.len() < 4 {
        1
    } else {
        2
    }
}

/// The first of the names that are nearest to the word, if they are near to it.
pub fn nearest<'a>(
    alloc: Global,
    word: &str,
    names: &[&'a str],
) -> Result<Option<&'a str>, AllocError>
    ensures listed { IfOk result (λ found. IfSome found (Contains names.now)) }
    ensures near { IfOk result (λ found. IfSome found (λ name. distance word.now name.now ≤ near_distance word.now)) }
    ensures nearest { IfOk result (λ found. IfSome found (λ name. All (λ other. distance word.now name.now ≤ distance word.now other.now) names.now)) }
    ensures none { IfOk result (λ found. IfNone found (length word.now ≤ 40 → All (λ other. near_distance word.now < distance word.now other.now) names.now)) }
{
    if word.len() > LONGEST {
        return Ok(None);
    }
    let mut found = None;
    let mut bound = near_distance(word) + 1;
    for name in names {
        let edits = levenshtein(alloc, word, name)?;
        if edits < bound {
            bound = edits;
            found = Some(*name);
        }
    }
    Ok(found)
}
