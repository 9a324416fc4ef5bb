//! The keys of all scripts, which are fixed.

/// The least key, which stands in the opening.
pub(crate) const K: u64 = 10;
/// A free point between K and P.
pub(crate) const B: u64 = 12;
/// The point below A that the holder reads or deletes.
pub(crate) const P: u64 = 15;
/// A free point between P and A.
pub(crate) const C: u64 = 17;
/// The key that the case is about.
pub(crate) const A: u64 = 20;
/// A free point between A and Y.
pub(crate) const G: u64 = 25;
/// A free point between A and G.
pub(crate) const BELOW_G: u64 = 24;
/// The next name of A, which stands in the opening.
pub(crate) const Y: u64 = 30;

/// The key that stands for this one where all are moved one name up, so that A comes to stand on Y.
pub(crate) fn one_up(key: u64) -> u64 {
    match key {
        K => 21,
        B => 22,
        P => 25,
        C => 27,
        A => 30,
        G => 35,
        Y => 40,
        other => other,
    }
}
