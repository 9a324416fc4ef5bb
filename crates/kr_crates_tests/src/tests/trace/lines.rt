//! Lines as an engine writes them, their faults, and the lines that are printed.
mod parts;
mod reading;
mod writing;
