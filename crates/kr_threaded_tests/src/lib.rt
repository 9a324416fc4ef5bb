//! Tests that may start threads and wait, from outside: of the engine and of scripts in several threads, with ghosts or without, as
//! `kr_deadlock`, `kr_records`, `kr_engine`, `kr_threads` and `kr_ghost_threads` offer them; and of the program and of what it
//! prints, as `kr_program`, `kr_cli`, `kr_cli_diagnosis`, `kr_cli_tables`, `kr_cli_trace`, `kr_trace_parts`,
//! `kr_view_run` and `kr_explain_core` do.
#![tactic(auto)]

#[cfg(test)]
mod tests;
