// Bits of a group's bitmap.
ghost use Rattle.std.specs.Prelude.{◌≡◌, ◌≤◌, ◌<◌, ◌+◌, ◌-◌, ◌*◌, ◌/◌, ◌%◌, ◌^◌, ◌==◌, ◌&&◌, ℕ, nat_le, nat_lt, length, slice_index, if◌then◌else◌};
ghost use Rattle.o2_model.specs.Groups.{is_bit_set_in};
ghost use Rattle.o2_chain.specs.Bits.{changed_bits};

/// Where the bitmap of a group begins in its block.
pub const BITMAP_PLACE: usize = 0x40;

/// Bits that follow one another: those from `first` on that are below `end`.
#[derive(Clone, Copy, Debug, PartialEq, Eq)]
pub struct BitRange {
    pub first: u32,
    pub end: u32,
}

/// A byte whose bits from `first` on and below `end` are set, and no others.
fn mask(first: u32, end: u32) -> u8
    requires order { first ≤ end }
    requires within { end ≤ 8 }
    ensures { result ≡ 2 ^ end - 2 ^ first }
{
    ((1u16 << end) - (1u16 << first)) as u8
}

/// The byte with its bits from `first` on and below `end` set, or clear.
fn with_bits(byte: u8, first: u32, end: u32, set: bool) -> u8
    requires order { first ≤ end }
    requires within { end ≤ 8 }
    ensures { (k : ℕ) → k < 8 → (result / 2 ^ k % 2 == 1) ≡ changed_bits first end set (λ j. byte / 2 ^ j % 2 == 1) k }
{
    let mask = mask(first, end);
    if set { byte | mask } else { byte & !mask }
}

/// Sets or clears these bits of the bitmap.
pub fn change_bits(bytes: &mut [u8], range: BitRange, set: bool)
    requires order { range.first ≤ range.end }
    requires within { 0x40 + (range.end + 7) / 8 ≤ length bytes.old }
    ensures bits { (k : ℕ) → is_bit_set_in 0x40 bytes.new k ≡ changed_bits range.first range.end set (is_bit_set_in 0x40 bytes.old) k }
    ensures others { (i : ℕ) → i < 0x40 → slice_index bytes.new i ≡ slice_index bytes.old i }
{
    for i in range.first / 8..range.end.div_ceil(8) {
        let first = range.first.saturating_sub(8 * i).min(8);
        let end = (range.end - 8 * i).min(8);
        let place = BITMAP_PLACE + i as usize;
        bytes[place] = with_bits(bytes[place], first, end, set);
    }
}
