// Names of the files of slots.
ghost use Rattle.std.specs.Prelude.{◌≡◌, ◌-◌, ◌<◌, ◌≤◌, drop, length};
ghost use Rattle.std.specs.Option.{IfNone, IfSome};
ghost use Rattle.o2_model.specs.SystemFiles.{decimal_number, slot_in_name};

use o2_model::{SlotFile, SystemFile};
use o2_survey::name_of;

/// The byte as a decimal digit, as the definition of slots' names has it: a byte below `0` is 0.
fn digit(byte: u8) -> u32
    ensures value { result ≡ byte - 48 }
    ensures few { result ≤ 207 }
{
    u32::from(byte.saturating_sub(b'0'))
}

/// The number that the last four bytes are as decimal digits. None where there are fewer.
#[tactic(auto, using(crate::proofs::SlotNames::four_digits))]
fn number_at_end(name: &[u8]) -> Option<u32>
    ensures some { IfSome result (λ number. number ≡ decimal_number (drop (length name.now - 4) name.now)) }
    ensures none { IfNone result (length name.now < 4) }
{
    let Some(at) = name.len().checked_sub(4) else {
        return None;
    };
    let first = 1000 * digit(name[at]) + 100 * digit(name[at + 1]);
    let second = 10 * digit(name[at + 2]) + digit(name[at + 3]);
    Some(first + second)
}

/// The slot whose file of this kind has the name. None where the name is of no slot.
#[tactic(auto, unfolding(o2_model::specs::SystemFiles::slot_in_name))]
pub fn slot_in_name(file: SlotFile, name: &[u8]) -> Option<u16>
    ensures { result ≡ slot_in_name file name.now }
{
    let Some(number) = number_at_end(name) else {
        return None;
    };
    let Ok(slot) = u16::try_from(number) else {
        return None;
    };
    if name != name_of(SystemFile::OfSlot(file, slot)).as_slice() {
        return None;
    }
    Some(slot)
}
