//! From a locking protocol to the report of its check on a sink.
ghost use Rattle.std.specs.Prelude.{◌≡◌, ◌⊎◌, ◌↔◌, [], IfOk, IfErr, IsTrue};
ghost use Rattle.std.specs.Io.KnownBytes.{Appends};
ghost use Rattle.kr_model.specs.Covers.{IsCovered};
ghost use Rattle.kr_ghost.specs.Covers.{IsCoveredGhost};
ghost use Rattle.kr_cli_tasks.specs.Checks.{line_of, check_line, ghost_check_line, ExplainsLine};
ghost use Rattle.kr_cli_tasks.specs.declared.faults.ReportFault.TheVariants as fault;

use crate::faults::ReportFault;
use kr_cases::{FailedCase, Rejected, WhyRejected, check};
use kr_ghost_check::failed_cases;
use kr_ghost_protocol::GhostProtocol;
use kr_protocol::Protocol;
use kr_report::{report_check, report_ghost_check};
use kr_sink::{Sink, print};
use std::alloc::Global;

/// Writes the report of a check with its failed cases, and a line feed, and answers whether there are none.
pub fn write_check<P: Protocol, W: Sink>(
    alloc: Global,
    protocol: &P,
    failed: &[FailedCase],
    out: &mut W,
) -> Result<bool, ReportFault>
    ensures ok { IfOk result (λ _. Appends (W.taken out.old) (W.taken out.new)
        (line_of (P.table protocol.now) (P.names protocol.now) failed.now)) }
    ensures accepted { IfOk result (λ accepted. IsTrue accepted ↔ (failed.now ≡ [])) }
    ensures err { IfErr result (ExplainsLine (line_of (P.table protocol.now) (P.names protocol.now) failed.now)
        (W.taken out.old) (W.taken out.new) (W.failures out.old) (W.failures out.new)) }
    ensures nothing { IfErr result (λ e. (e ≡ fault.Print) ⊎ (out.new ≡ out.old)) }
{
    let text = report_check(alloc, protocol, failed)?;
    match print(out, text.as_str()) {
        Ok(()) => Ok(failed.is_empty()),
        Err(_) => Err(ReportFault::Print),
    }
}

/// Checks a protocol, writes the report of the check and a line feed, and answers whether every case holds. Where a
/// growth was refused, nothing is written; where printing fails, a prefix of the report was.
pub fn check_over<P: Protocol, W: Sink>(
    alloc: Global,
    protocol: P,
    out: &mut W,
) -> Result<bool, ReportFault>
    ensures ok { IfOk result (λ _.
        Appends (W.taken out.old) (W.taken out.new) (check_line (P.table protocol) (P.names protocol))) }
    ensures accepted { IfOk result (λ accepted. IsTrue accepted ↔ IsCovered (P.table protocol)) }
    ensures err { IfErr result (ExplainsLine (check_line (P.table protocol) (P.names protocol))
        (W.taken out.old) (W.taken out.new) (W.failures out.old) (W.failures out.new)) }
    ensures nothing { IfErr result (λ e. (e ≡ fault.Print) ⊎ (out.new ≡ out.old)) }
{
    match check(alloc, protocol) {
        Ok(checked) => write_check(alloc, checked.protocol(), &[], out),
        Err(Rejected { protocol, cause }) => match cause {
            WhyRejected::Failed(failed) => write_check(alloc, &protocol, failed.as_slice(), out),
            WhyRejected::Memory => Err(ReportFault::Memory),
        },
    }
}

/// The same of a protocol with ghosts.
pub fn check_ghosts<P: GhostProtocol, W: Sink>(
    alloc: Global,
    protocol: &P,
    out: &mut W,
) -> Result<bool, ReportFault>
    ensures ok { IfOk result (λ _.
        Appends (W.taken out.old) (W.taken out.new) (ghost_check_line (P.ghosts protocol.now) (P.names protocol.now))) }
    ensures accepted { IfOk result (λ accepted. IsTrue accepted ↔ IsCoveredGhost (P.ghosts protocol.now)) }
    ensures err { IfErr result (ExplainsLine (ghost_check_line (P.ghosts protocol.now) (P.names protocol.now))
        (W.taken out.old) (W.taken out.new) (W.failures out.old) (W.failures out.new)) }
    ensures nothing { IfErr result (λ e. (e ≡ fault.Print) ⊎ (out.new ≡ out.old)) }
{
    let failed = failed_cases(alloc, protocol)?;
    let is_accepted = failed.is_empty();
    let text = report_ghost_check(alloc, protocol, failed.as_slice())?;
    match print(out, text.as_str()) {
        Ok(()) => Ok(is_accepted),
        Err(_) => Err(ReportFault::Print),
    }
}
