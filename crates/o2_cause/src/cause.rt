// How a run ends.
ghost use Rattle.std.specs.Prelude.{◌≡◌, ◌++◌, codes, IfOk, string_bytes};
ghost use Rattle.o2_cause.specs.Causes.{cause_line, volume_status};

use crate::Class;
use o2_dir::PathText;
use o2_disk::{AttachFault, Failed};
use o2_model::{Check, Oddity};
use o2_view::Which;
use std::alloc::{AllocError, Global};

/// Why a run ended.
#[derive(Debug, Drop)]
pub enum Cause {
    /// All was done.
    Fine,
    /// The volume was checked, it fails this check at this block, the first that it fails, and that was not mended.
    Uncorrected { check: Check, block: u64 },
    /// The words are no command line. They are in order up to the word of this place, counted from 0.
    Usage { place: u32 },
    /// The command, or the volume, is one that a later version serves.
    Later,
    /// The device has no superblock.
    NotOcfs2,
    /// The volume has this, which is outside the profile, and this block tells so.
    Unsupported { what: Oddity, block: u64 },
    /// A name of this path has no live entry.
    Absent { path: PathText },
    /// A name in the middle of this path is no directory, or what stands at its end is of another kind than is asked for.
    WrongKind { path: PathText },
    /// What is looked at fails this check at this block, the first that it fails.
    Bad { check: Check, block: u64 },
    /// A number is out of its range.
    Range { which: Which, value: u64 },
    /// A call of the device failed.
    DeviceFault,
    /// A call of the output's sink failed, and all was done but for the output.
    OutputFault,
    /// There is no memory for what was asked.
    NoMemory,
}

impl Cause {
    ghost use Rattle.o2_cause.specs.Causes.{class_of, status_of};

    /// What kind of end it is.
    pub fn class(&self) -> Class
        ensures { result ≡ class_of self.now }
    {
        match self {
            Cause::Fine | Cause::Uncorrected { .. } | Cause::OutputFault => Class::Done,
            Cause::DeviceFault | Cause::NoMemory => Class::Fault,
            Cause::Usage { .. }
            | Cause::Later
            | Cause::NotOcfs2
            | Cause::Unsupported { .. }
            | Cause::Absent { .. }
            | Cause::WrongKind { .. }
            | Cause::Bad { .. }
            | Cause::Range { .. } => Class::Refusal,
        }
    }

    /// The status that the program ends with, where the first word is this tool.
    pub fn status(&self, tool: &str) -> u8
        ensures { result ≡ status_of tool.now self.now }
    {
        match self {
            Cause::Fine => 0,
            Cause::NotOcfs2 | Cause::Unsupported { .. } => refusal_status(tool),
            Cause::Later
            | Cause::Absent { .. }
            | Cause::WrongKind { .. }
            | Cause::Bad { .. }
            | Cause::Range { .. } => 1,
            Cause::Uncorrected { .. } => 4,
            Cause::DeviceFault => 8,
            Cause::Usage { .. } => 16,
            Cause::NoMemory => 64,
            Cause::OutputFault => 65,
        }
    }
}

impl Cause {
    /// The line that it prints, with its newline, where the first word is this tool. It is empty where nothing is printed.
    pub fn line(&self, alloc: Global, tool: &str) -> Result<String, AllocError>
        ensures { IfOk result (λ line. string_bytes line ≡ cause_line tool.now self.now) }
    {
        match self {
            Cause::Fine | Cause::Uncorrected { .. } | Cause::OutputFault | Cause::NoMemory => Ok(
                String::new(alloc),
            ),
            Cause::Usage { place } => format!(in alloc; "usage: word {place}\n"),
            Cause::Later => tool_line(alloc, tool, "not built yet"),
            Cause::NotOcfs2 => tool_line(alloc, tool, "not an OCFS2 volume"),
            Cause::Unsupported { what, block } => unsupported_line(alloc, tool, *what, *block),
            Cause::Absent { path } => format!(in alloc; "debugfs: no such path: {path}\n"),
            Cause::WrongKind { path } => format!(in alloc; "debugfs: wrong kind: {path}\n"),
            Cause::Bad { check, block } => {
                format!(in alloc; "debugfs: damaged: {check} block {block}\n")
            }
            Cause::Range { which, value } => range_line(alloc, tool, *which, *value),
            Cause::DeviceFault => tool_line(alloc, tool, "device fault"),
        }
    }
}

// The status by which a tool refuses a volume.
fn refusal_status(tool: &str) -> u8
    ensures { result ≡ volume_status tool.now }
{
    if tool == "fsck" { 4 } else { 1 }
}

// What a tool says.
fn tool_line(alloc: Global, tool: &str, text: &str) -> Result<String, AllocError>
    ensures { IfOk result (λ line. string_bytes line ≡ tool.now ++ (codes ": " ++ (text.now ++ codes "\n"))) }
{
    format!(in alloc; "{tool}: {text}\n")
}

fn unsupported_line(
    alloc: Global,
    tool: &str,
    what: Oddity,
    block: u64,
) -> Result<String, AllocError>
    ensures { IfOk result (λ line. string_bytes line ≡ cause_line tool.now (Cause.Unsupported what block)) }
{
    format!(in alloc; "{tool}: unsupported: {what} block {block}\n")
}

fn range_line(alloc: Global, tool: &str, which: Which, value: u64) -> Result<String, AllocError>
    ensures { IfOk result (λ line. string_bytes line ≡ cause_line tool.now (Cause.Range which value)) }
{
    format!(in alloc; "{tool}: out of range: {which} {value}\n")
}

impl From<Failed> for Cause {
    ghost use Rattle.std.specs.Prelude.{◌≡◌};
    ghost use Rattle.o2_cause.specs.declared.cause.Cause.TheVariants.{DeviceFault};

    ghost from_gives = { λ _ cause. cause ≡ DeviceFault };

    fn from(_: Failed) -> Self {
        Cause::DeviceFault
    }
}

impl From<AttachFault> for Cause {
    ghost use Rattle.o2_cause.specs.Causes.{IsOfAttach};

    ghost from_gives = { IsOfAttach };

    fn from(fault: AttachFault) -> Self {
        match fault {
            AttachFault::NoMemory => Cause::NoMemory,
            AttachFault::Failed => Cause::DeviceFault,
        }
    }
}
