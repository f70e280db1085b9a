// The report of a check, put on a sink.
ghost use Rattle.std.specs.Prelude.{◌≡◌, ℕ, length, map, OnOk, IfOk, IsErrOf, string_bytes};
ghost use Rattle.std.specs.List.{concat};
ghost use Rattle.std.specs.Result.{IfErr};
ghost use Rattle.o2_cause.specs.Taken.{Takes, TakesSome};
ghost use Rattle.o2_fsck.specs.Reports.{pair_line as line_of_pair, verdict_line as line_of_verdict, report_text, ReportFails};

use o2_cause::put_text;
use o2_disk::{Failed, Sink};
use o2_model::Check;
use std::alloc::{AllocError, Global};
use thiserror::Error;

/// Why a report was not put to its end.
#[derive(Clone, Copy, Debug, PartialEq, Eq, Error)]
pub enum ReportFault {
    /// There is no memory for a line.
    #[error("NoMemory")]
    NoMemory,
    /// A call of the sink failed.
    #[error("OutputFault")]
    OutputFault,
}

impl From<AllocError> for ReportFault {
    ghost use Rattle.std.specs.Prelude.{◌≡◌};
    ghost use Rattle.o2_fsck.specs.declared.report.ReportFault.TheVariants.{NoMemory};

    ghost from_gives = { λ _ fault. fault ≡ NoMemory };

    fn from(_: AllocError) -> Self {
        ReportFault::NoMemory
    }
}

impl From<Failed> for ReportFault {
    ghost use Rattle.std.specs.Prelude.{◌≡◌};
    ghost use Rattle.o2_fsck.specs.declared.report.ReportFault.TheVariants.{OutputFault};

    ghost from_gives = { λ _ fault. fault ≡ OutputFault };

    fn from(_: Failed) -> Self {
        ReportFault::OutputFault
    }
}

/// Puts a line for each pair, and then how many they are; or stops at the sink's first fault.
pub fn put_report<K: Sink>(
    alloc: Global,
    pairs: &[(Check, u64)],
    out: &mut K,
) -> Result<(), ReportFault>
    ensures told { OnOk result (Takes (K.state out.old) (K.state out.new) (report_text pairs.now)) }
    ensures some { TakesSome (K.state out.old) (K.state out.new) (report_text pairs.now) }
    ensures fails { IfErr result (ReportFails (K.state out.old) (K.state out.new)) }
    ensures quiet { (IsErrOf result ReportFault.OutputFault → ⊥) → (K.state out.new).faults ≡ (K.state out.old).faults }
{
    put_pairs(alloc, pairs, out)?;
    put_verdict(alloc, pairs.len(), out)
}

fn put_pairs<K: Sink>(alloc: Global, pairs: &[(Check, u64)], out: &mut K) -> Result<(), ReportFault>
    ensures told { OnOk result (Takes (K.state out.old) (K.state out.new) (concat (map line_of_pair pairs.now))) }
    ensures some { TakesSome (K.state out.old) (K.state out.new) (concat (map line_of_pair pairs.now)) }
    ensures fails { IfErr result (ReportFails (K.state out.old) (K.state out.new)) }
    ensures quiet { (IsErrOf result ReportFault.OutputFault → ⊥) → (K.state out.new).faults ≡ (K.state out.old).faults }
{
    for (check, block) in pairs {
        let line = pair_line(alloc, *check, *block)?;
        put_text(out, line.as_bytes())?;
    }
    Ok(())
}

fn put_verdict<K: Sink>(alloc: Global, failing: usize, out: &mut K) -> Result<(), ReportFault>
    ensures told { OnOk result (Takes (K.state out.old) (K.state out.new) (line_of_verdict failing)) }
    ensures some { TakesSome (K.state out.old) (K.state out.new) (line_of_verdict failing) }
    ensures fails { IfErr result (ReportFails (K.state out.old) (K.state out.new)) }
    ensures quiet { (IsErrOf result ReportFault.OutputFault → ⊥) → (K.state out.new).faults ≡ (K.state out.old).faults }
{
    let line = verdict_line(alloc, failing)?;
    Ok(put_text(out, line.as_bytes())?)
}

fn pair_line(alloc: Global, check: Check, block: u64) -> Result<String, AllocError>
    ensures { IfOk result (λ line. string_bytes line ≡ line_of_pair (check, block)) }
{
    format!(in alloc; "[{check}] block {block}\n")
}

fn verdict_line(alloc: Global, failing: usize) -> Result<String, AllocError>
    ensures { IfOk result (λ line. string_bytes line ≡ line_of_verdict failing) }
{
    if failing == 0 {
        return String::from_str(alloc, "fsck: volume is consistent\n");
    }
    format!(in alloc; "fsck: {failing} checks fail\n")
}
