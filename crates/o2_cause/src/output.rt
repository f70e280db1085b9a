// Text put on a sink.
ghost use Rattle.std.specs.Prelude.{◌≡◌, ℕ, List, OnOk, OnErr};
ghost use Rattle.std.specs.List.{concat};
ghost use Rattle.o2_disk.specs.Device.{HasCause};
ghost use Rattle.o2_disk.specs.Output.{FailsLast};
ghost use Rattle.o2_cause.specs.Taken.{Takes, TakesSome};

use o2_disk::{Failed, Sink};
use o2_view::Bytes;

/// Puts all of a text, or stops at the sink's first fault.
pub fn put_text<K: Sink>(out: &mut K, text: &[u8]) -> Result<(), Failed>
    ensures all { OnOk result (Takes (K.state out.old) (K.state out.new) text.now) }
    ensures some { TakesSome (K.state out.old) (K.state out.new) text.now }
    ensures cause { HasCause (K.state out.old).faults (K.state out.new).faults result }
    ensures stops { OnErr result (FailsLast (K.state out.old) (K.state out.new)) }
{
    let mut put = 0;
    while put < text.len() {
        put += out.put(&text[put..])?;
    }
    Ok(())
}

/// Puts lines, one call for each of them, or stops at the sink's first fault.
pub fn put_lines<K: Sink>(out: &mut K, lines: &[Bytes]) -> Result<(), Failed>
    ensures all { OnOk result (Takes (K.state out.old) (K.state out.new) (concat lines.now)) }
    ensures some { TakesSome (K.state out.old) (K.state out.new) (concat lines.now) }
    ensures cause { HasCause (K.state out.old).faults (K.state out.new).faults result }
    ensures stops { OnErr result (FailsLast (K.state out.old) (K.state out.new)) }
{
    for line in lines {
        put_text(out, line.as_slice())?;
    }
    Ok(())
}
