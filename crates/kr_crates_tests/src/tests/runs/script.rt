//! Scripts that are read, their faults, and scripts that are written.
mod faults;
mod format_two;
mod line;
mod reading;
