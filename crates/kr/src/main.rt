//! Checks locking protocols of an index, explains and draws them, and holds engines against them.
#![tactic(auto)]

use kr_cli::{Disk, finish, words_given};
use kr_program::execute;
use kr_sink::Io;
use std::process::ExitCode;

fn main(rt: HostRuntime) -> ExitCode {
    let mut out = Io::new(rt.stdout());
    let mut err = Io::new(rt.stderr());
    ExitCode::from(match words_given(&rt) {
        Ok(words) => execute(
            &rt,
            rt.alloc(),
            words.as_slice(),
            &Disk(&rt),
            &mut out,
            &mut err,
        ),
        Err(ending) => finish(&Err(ending), "", "", &mut err),
    })
}
