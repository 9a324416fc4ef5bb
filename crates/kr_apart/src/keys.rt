//! The keys of the scripts.

/// The least key of a landmark; a gap is below it.
pub(crate) const A: u64 = 1 << 20;

/// The landmark above A.
pub(crate) const Y: u64 = 2 << 20;

/// The landmark above Y, which always stands.
pub(crate) const Z: u64 = 3 << 20;

/// Two committed keys below A.
pub(crate) const LOW: [u64; 2] = [1 << 18, 1 << 19];

/// How many openings there are. Where deletes leave ghosts, a key that stood never goes: so there are two more, with none of the two
/// landmarks.
pub(crate) fn openings(leaves_ghosts: bool) -> usize {
    if leaves_ghosts { 7 } else { 5 }
}

/// The keys that stand in an opening.
pub(crate) fn opening(number: usize) -> &'static [u64] {
    match number {
        0 => &[1 << 18, 1 << 19, 1 << 20, 2 << 20, 3 << 20],
        1 => &[1 << 18, 1 << 19, 2 << 20, 3 << 20],
        2 => &[1 << 20, 2 << 20, 3 << 20],
        3 => &[1 << 18, 1 << 19, 1 << 20, 3 << 20],
        4 => &[2 << 20, 3 << 20],
        5 => &[1 << 18, 1 << 19, 3 << 20],
        _ => &[3 << 20],
    }
}
