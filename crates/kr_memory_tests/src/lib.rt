//! Rows of hostile use: each call that may lack memory, where a growth is refused in its midst, and input that is odd or cut.
//!
//! With ample memory each test makes its calls and compares their answers. So it does where one growth is refused,
//! whichever: the call in which that falls answers `Memory` or the row's answer, what can be shown is then as before, and
//! the same call again gives the row's answer. `tests/memory/refused-memory.py` refuses each growth of each test in turn.
#![tactic(auto)]

#[cfg(test)]
mod tests;
