ghost use Rattle.std.specs.Prelude.{None};

use kr_sink::{Failed, Io, PrintFault, Sink, print, put_all};
use std::alloc::{AllocError, Global};
use std::io;
use std::io::{ErrorKind, Write};
use std::process::Abort;

// Takes one byte a write, and fails at the write of one number, counted from 1.
#[derive(Drop)]
struct Slow {
    taken: Vec<u8>,
    writes: u64,
    failing: u64,
}

impl Write for Slow {
    fn write(&mut self, bytes: &[u8]) -> io::Result<usize> {
        self.writes = self.writes.saturating_add(1);
        if self.writes == self.failing {
            return Err(io::Error::from(ErrorKind::BrokenPipe));
        }
        match bytes.first() {
            Some(byte) => {
                self.taken.push(*byte)?;
                Ok(1)
            }
            None => Ok(0),
        }
    }

    fn flush(&mut self) -> io::Result<()> {
        Ok(())
    }
}

fn slow_sink(alloc: Global, failing: u64) -> Io<Slow> {
    Io::new(Slow {
        taken: Vec::new(alloc),
        writes: 0,
        failing,
    })
}

// Takes nothing.
#[derive(Drop)]
struct Shut {
    failures: u64,
}

impl Sink for Shut {
    ghost taken = { λ _. None };

    ghost failures = { λ s. s.failures };

    fn put(&mut self, bytes: &[u8]) -> Result<usize, Failed> {
        if !bytes.is_empty() {
            self.failures = self.failures.saturating_add(1);
        }
        Ok(0)
    }
}

/// Prints on a sink that fails at the write of a number, compares what was answered and taken, and tells the number of
/// writes.
fn prints(
    rt: &impl Abort,
    alloc: Global,
    failing: u64,
    answer: Result<(), PrintFault>,
    taken: &[u8],
) -> u64 {
    let mut out = slow_sink(alloc, failing);
    assert!(rt; print(&mut out, "abc") == answer);
    assert_eq!(rt; out.writer().taken.as_slice(), taken);
    out.writer().writes
}

#[test]
fn goes_on_behind_what_was_taken(rt: HostRuntime) {
    let _ = prints(&rt, rt.alloc(), 0, Ok(()), b"abc\n");
}

#[test]
fn stops_at_a_put_that_fails(rt: HostRuntime) {
    let writes = prints(&rt, rt.alloc(), 3, Err(PrintFault), b"ab");
    assert_eq!(rt; writes, 3);
}

#[test]
fn stops_at_a_sink_that_takes_nothing(rt: HostRuntime) {
    let mut out = Shut { failures: 0 };
    assert!(rt; print(&mut out, "abc") == Err(PrintFault));
    assert_eq!(rt; out.failures, 1);
}

#[test]
fn prints_one_text_after_another(rt: HostRuntime) {
    let mut out = Io::new(Vec::new(rt.alloc()));
    assert!(rt; print(&mut out, "é") == Ok(()));
    assert!(rt; print(&mut out, "") == Ok(()));
    assert_eq!(rt; out.writer().as_slice(), "é\n\n".as_bytes());
}

#[test]
fn shows_its_faults(rt: HostRuntime) -> Result<(), AllocError> {
    let alloc = rt.alloc();
    assert_eq!(rt; format!(in alloc; "{}", Failed)?.as_str(), "a put failed");
    assert_eq!(rt;
        format!(in alloc; "{}", PrintFault)?.as_str(),
        "a text was not printed whole"
    );
    Ok(())
}

/// Puts bytes on a sink that fails at the write of a number, and compares what was answered and taken.
fn puts(rt: &impl Abort, alloc: Global, failing: u64, is_ok: bool, taken: &[u8]) {
    let mut out = slow_sink(alloc, failing);
    assert!(rt; put_all(&mut out, b"ab\nc\n").is_ok() == is_ok);
    assert_eq!(rt; out.writer().taken.as_slice(), taken);
}

#[test]
fn puts_bytes_and_stops_within_them(rt: HostRuntime) {
    puts(&rt, rt.alloc(), 0, true, b"ab\nc\n");
    puts(&rt, rt.alloc(), 4, false, b"ab\n");
}
