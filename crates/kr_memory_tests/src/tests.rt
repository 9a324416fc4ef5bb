mod batches;
mod input;
mod runs;
mod seats;
mod steps;
mod tables;
