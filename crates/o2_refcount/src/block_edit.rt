// New counts for the records of one refcount block.
ghost use Rattle.std.specs.Prelude.{◌≡◌, ℕ, ◌+◌, ◌*◌, ◌≤◌, length, slice_index};
ghost use Rattle.o2_ondisk.specs.Fields.{IsOutsideSpan};
ghost use Rattle.o2_ondisk.specs.Number.{number_at};
ghost use Rattle.o2_refcount.specs.Recounts.{HasCounts, count_place};

use crate::block_records::RECORDS;
use o2_ondisk::{Field, put_numbers};

/// Puts the count of record k.
fn change_count(bytes: &mut [u8], k: usize, count: u32)
    requires { 0x90 + 16 * k + 16 ≤ length bytes.old }
    ensures count { number_at (count_place k) 4 bytes.new ≡ count }
    ensures others { (i : ℕ) → IsOutsideSpan (count_place k) 4 i → slice_index bytes.new i ≡ slice_index bytes.old i }
{
    let field = Field {
        at: RECORDS + 16 * k + 0xc,
        width: 4,
    };
    put_numbers(bytes, &[field], &[u64::from(count)]);
}

/// Puts these counts into the first records of a refcount block.
pub fn change_counts(bytes: &mut [u8], counts: &[u32])
    requires { 0x90 + 16 * length counts.now ≤ length bytes.old }
    ensures { HasCounts bytes.old bytes.new counts.now }
{
    for (k, count) in counts.iter().enumerate() {
        change_count(bytes, k, *count);
    }
}
