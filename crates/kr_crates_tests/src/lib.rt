//! Tests of the crates that take no handle, from outside and by layers: definitions and protocols (`tables`), a machine and its
//! parts (`steps`), runs, scripts and reports (`runs`), suites (`suite`) and traces of an engine (`trace`). They are one crate,
//! since each crate of tests is built with all that it stands on.
#![tactic(auto)]

#[cfg(test)]
mod tests;
