//! Tests of runs, scripts and reports.

mod batch;
mod counterexample;
mod either;
mod follows;
mod kinds;
mod placed;
mod report;
mod script;
mod serial;
mod sink;
