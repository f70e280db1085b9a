// The program's one call.
ghost use Rattle.std.specs.Prelude.{◌≡◌, ◌≢◌, ◌⊎◌, ℕ, Some};
ghost use Rattle.o2_disk.specs.Device.{ReadsOnly, Rose, IsSettled, LeavesOnly};
ghost use Rattle.o2_disk.specs.Output.{FailsLast, StopsAtFault};
ghost use Rattle.o2_model.specs.Image.{Image};
ghost use Rattle.o2_cause.specs.Causes.{cause_line, status_of, IsRefusal};
ghost use Rattle.o2_cause.specs.Taken.{Takes, TakesSome};
ghost use Rattle.o2_words.specs.CommandLine.{texts, IsTunefs, IsDebugfs, IsCheckLine, IsMendLine, IsLine, IsLaterLine, tool_of, label_of, device_of, checked_device_of};
ghost use Rattle.o2_words.specs.Commands.{AsksFor};
ghost use Rattle.o2_tunefs.specs.LabelRun.{LabelRun};
ghost use Rattle.o2_debugfs.specs.QueryRun.{QueryRun};
ghost use Rattle.o2_fsck.specs.CheckRun.{CheckRun};
ghost use Rattle.o2_tools.specs.Refused.{cause_of, RefusesBy};
ghost use Rattle.o2_tools.specs.Served.{IsServedLine};

use crate::Done;
use o2_cause::{Cause, put_line};
use o2_debugfs::run_query;
use o2_disk::{Disk, Sink};
use o2_fsck::run_check;
use o2_tunefs::run_label;
use o2_words::{Command, WordFault, read_words};
use std::alloc::Global;

/// Does what the words of a command line ask for. They are those behind the program's name.
///
/// `device` is attached under the name that the words give. `other` is a second device, `now` the moment in seconds
/// since 1970, and `random` some random bytes, for the tools that need them. The answer to a query and the line of the
/// cause are put on `out`, and nothing behind its first fault.
pub fn run<D: Disk, E: Disk, K: Sink>(
    alloc: Global,
    words: &[String],
    device: &mut D,
    other: &mut E,
    out: &mut K,
    now: u64,
    random: &[u8; 24],
) -> Done
    ensures status { result.status ≡ status_of (tool_of (texts words.now)) result.cause }

    // Words that are no command line are refused for what they are, and a command line is not. One of debugfs may ask
    // for what waits for a later version, and one of fsck that mends does.
    ensures words { (IsLine (texts words.now) → ⊥) → RefusesBy (texts words.now) result.cause }
    ensures line { IsLine (texts words.now) → (place : ℕ) → result.cause ≢ Cause.Usage place }
    ensures later { (IsLaterLine (texts words.now) ⊎ IsMendLine (texts words.now)) → (result.cause ≡ Cause.Later) ⊎ (result.cause ≡ Cause.NoMemory) }

    // What each tool promises: a command line of tunefs gives a label, one of debugfs is answered, and one of fsck that asks for
    // no change tells what fails.
    ensures label { IsTunefs (texts words.now) → LabelRun (label_of (texts words.now)) (device_of (texts words.now)) (D.state device.old) (D.state device.new) (K.state out.old) (K.state out.new) result.cause }
    ensures query { (query : _) → AsksFor query (texts words.now) → QueryRun query (device_of (texts words.now)) (D.state device.old) (D.state device.new) (K.state out.old) (K.state out.new) result.cause }

    ensures check { IsCheckLine (texts words.now) → CheckRun (checked_device_of (texts words.now)) (D.state device.old) (D.state device.new) (K.state out.old) (K.state out.new) result.cause }

    // Other words leave the device alone, and the sink takes the cause's line, and its first bytes where it fails.
    ensures alone { (IsServedLine (texts words.now) → ⊥) → device.new ≡ device.old }
    ensures output { (IsServedLine (texts words.now) → ⊥) → (Rose (K.state out.old).faults (K.state out.new).faults → ⊥) → Takes (K.state out.old) (K.state out.new) (cause_line (tool_of (texts words.now)) result.cause) }
    ensures front { (IsServedLine (texts words.now) → ⊥) → TakesSome (K.state out.old) (K.state out.new) (cause_line (tool_of (texts words.now)) result.cause) }

    // A refusal writes nothing, whatever the tool, and where nothing was pending when the run began a crash at any moment
    // of it leaves the volume of before. A run of debugfs, or of fsck that asks for no change, writes nothing at all.
    ensures refused { IsRefusal result.cause → ReadsOnly (D.state device.old) (D.state device.new) }
    ensures kept { IsRefusal result.cause → (I : Image) → IsSettled (D.state device.old) I → LeavesOnly (D.state device.old) (D.state device.new) (λ X. X ≡ I) }
    ensures reads { (IsDebugfs (texts words.now) ⊎ IsCheckLine (texts words.now)) → ReadsOnly (D.state device.old) (D.state device.new) }

    // A device fault comes with a fault that the device has told.
    ensures fault { result.cause ≡ Cause.DeviceFault → Rose (D.state device.old).faults (D.state device.new).faults }

    // Nothing is put behind the sink's first fault, which stands in place of Fine alone.
    ensures stops { StopsAtFault (K.state out.old) (K.state out.new) }
    ensures fine { result.cause ≡ Cause.Fine → (K.state out.new).faults ≡ (K.state out.old).faults }
    ensures output_fault { result.cause ≡ Cause.OutputFault → FailsLast (K.state out.old) (K.state out.new) }

    ensures other { other.new ≡ other.old }
{
    let cause = match read_words(alloc, words) {
        Err(fault) => put_line(alloc, first_word(words), cause_of_fault(fault), out),
        Ok(
            Command::Label {
                label,
                device: place,
            },
        ) => {
            let name = words[place as usize].as_str();
            run_label(alloc, device, name, label.as_slice(), out)
        }
        Ok(
            Command::Debug {
                query,
                device: place,
            },
        ) => {
            let name = words[place as usize].as_str();
            run_query(alloc, device, name, query, out)
        }
        Ok(Command::Check { device: place }) => {
            let name = words[place as usize].as_str();
            run_check(alloc, device, name, out)
        }
    };
    Done::by(first_word(words), cause)
}

// The first word, or nothing where there is none.
fn first_word(words: &[String]) -> &str
    ensures { result.now ≡ tool_of (texts words.now) }
{
    if words.is_empty() {
        return "";
    }
    words[0].as_str()
}

// The cause by which words are refused.
fn cause_of_fault(fault: WordFault) -> Cause
    ensures { result ≡ cause_of fault }
{
    match fault {
        WordFault::NoMemory => Cause::NoMemory,
        WordFault::Usage { place } => Cause::Usage { place },
        WordFault::Later => Cause::Later,
    }
}
