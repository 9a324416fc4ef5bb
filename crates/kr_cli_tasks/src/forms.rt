//! The forms of the words, as `clap` reads them.
use clap::{Arg, ArgAction, Command};
use std::alloc::{AllocError, Global};

fn positional<'a>(alloc: Global, id: &'a str) -> Arg<'a> {
    Arg::new(alloc, id).required(true).action(ArgAction::Set)
}

/// The form `NAME TABLE`.
fn of_table<'a>(alloc: Global, name: &'a str) -> Result<Command<'a>, AllocError> {
    Command::new(alloc, name).arg(positional(alloc, "table"))
}

/// The form `NAME TABLE SCRIPT`.
fn of_script<'a>(alloc: Global, name: &'a str) -> Result<Command<'a>, AllocError> {
    of_table(alloc, name)?.arg(positional(alloc, "script"))
}

/// The form `NAME TABLE SCRIPT..`.
fn of_scripts<'a>(alloc: Global, name: &'a str) -> Result<Command<'a>, AllocError> {
    let scripts = Arg::new(alloc, "scripts")
        .required(true)
        .action(ArgAction::Append)
        .num_args(1..);
    of_table(alloc, name)?.arg(scripts)
}

/// The program's words, with no form yet.
fn program<'a>(alloc: Global) -> Command<'a> {
    Command::new(alloc, "kr")
        .no_binary_name(true)
        .disable_help_flag(true)
        .disable_help_subcommand(true)
        .subcommand_required(true)
}

/// The forms with one more, where that could be made.
fn with<'a>(
    forms: Command<'a>,
    form: Result<Command<'a>, AllocError>,
) -> Result<Command<'a>, AllocError> {
    forms.subcommand(form?)
}

/// The four forms.
pub(crate) fn command<'a>(alloc: Global) -> Result<Command<'a>, AllocError> {
    let forms = with(program(alloc), of_table(alloc, "check"))?;
    let forms = with(forms, of_script(alloc, "run"))?;
    let forms = with(forms, of_scripts(alloc, "judge"))?;
    with(forms, of_script(alloc, "threads"))
}
