mod ample;
mod answers;
mod bundled;
mod faults;
pub mod likeness;
mod lines;
mod unreached;
mod updates;
