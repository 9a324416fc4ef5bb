//! Reports, each compared with its text; and scripts and reports with ample memory.
mod ample;
mod check_reports;
mod reports;
mod threads_reports;
