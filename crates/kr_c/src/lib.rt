//! kr for C: each export is the raw form of a function of `kr.h`, which turns null pointers and broken sessions away, and calls
//! the function of `kr_embed` whose clauses it repeats.
#![tactic(auto)]

mod bytes;
mod codes;
mod out;
mod sessions;
