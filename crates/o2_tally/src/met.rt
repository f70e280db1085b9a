// Numbers that were met.
ghost use Rattle.std.specs.Prelude.{◌≡◌, ◌==◌, ◌||◌, ℕ, not, IfOk, OnOk, OnErr};
ghost use Rattle.o2_tally.specs.Again.{has_number};

use o2_disk::NoMemory;
use std::collections::BTreeSet;

/// Puts a number among those that were met, and tells whether it is a new one. Where memory runs out, the same numbers are
/// met as before.
pub fn add_number(numbers: &mut BTreeSet<u64>, number: u64) -> Result<bool, NoMemory>
    ensures new { IfOk result (λ is_new. is_new ≡ not (has_number numbers.old number)) }
    ensures put { OnOk result ((other : ℕ) → has_number numbers.new other ≡ (number == other || has_number numbers.old other)) }
    ensures err { OnErr result ((other : ℕ) → has_number numbers.new other ≡ has_number numbers.old other) }
{
    match numbers.insert(number) {
        Ok(is_new) => Ok(is_new),
        Err(_) => Err(NoMemory),
    }
}
