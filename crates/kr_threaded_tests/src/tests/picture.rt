//! Pages of runs, and escaped texts.
mod escapes;
mod runs;
