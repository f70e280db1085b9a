// Tables of fields, and bytes that are no number.
ghost use Rattle.std.specs.Prelude.{◌≡◌, ◌+◌, ◌≤◌, All, AllPairs, List, ℕ, length, slice_index, IsTrue};
ghost use Rattle.o2_ondisk.specs.Fields.{put_all, big_put_all, put_all_by, put_in, numbers_by, number_in, is_layout, is_disjoint, numbers_at, big_numbers_at, Fit, IsSameIn, IsOutside, IsOutsideSpan, KeepsBytesApart, KeepsNumbersApart, AreBytes, paste_at, bytes_at};

/// Where a field begins, and how many bytes it has.
#[derive(Clone, Copy, Debug, PartialEq, Eq)]
pub struct Field {
    pub at: usize,
    pub width: usize,
}

/// The table of a structure's numbers, in the order of their places.
#[derive(Clone, Copy, Debug)]
pub struct Layout<const N: usize> {
    pub fields: [Field; N],
}

// In which order the bytes of a number stand.
#[derive(Clone, Copy)]
enum Order {
    LowFirst,
    HighFirst,
}

/// Puts a number into each field, the lowest byte first.
pub fn put_numbers(block: &mut [u8], fields: &[Field], values: &[u64])
    requires layout { IsTrue (is_layout 0 fields.now (length block.old)) }
    requires values { length values.now ≡ length fields.now }
    ensures put { block.new ≡ put_all fields.now values.now block.old }
    // A read gives them back.
    ensures back { Fit fields.now values.now → numbers_at fields.now block.new ≡ values.now }
    // No other byte changes.
    ensures alone { (i : ℕ) → IsOutside fields.now i → slice_index block.new i ≡ slice_index block.old i }
{
    put_in_order(Order::LowFirst, block, fields, values);
}

/// Puts a number into each field, the highest byte first, as in the blocks of a JBD2 log.
pub fn put_big_numbers(block: &mut [u8], fields: &[Field], values: &[u64])
    requires layout { IsTrue (is_layout 0 fields.now (length block.old)) }
    requires values { length values.now ≡ length fields.now }
    ensures put { block.new ≡ big_put_all fields.now values.now block.old }
    // A read gives them back.
    ensures back { Fit fields.now values.now → big_numbers_at fields.now block.new ≡ values.now }
    // No other byte changes.
    ensures alone { (i : ℕ) → IsOutside fields.now i → slice_index block.new i ≡ slice_index block.old i }
{
    put_in_order(Order::HighFirst, block, fields, values);
}

// Puts a number into each field.
fn put_in_order(order: Order, block: &mut [u8], fields: &[Field], values: &[u64])
    requires layout { IsTrue (is_layout 0 fields.now (length block.old)) }
    requires values { length values.now ≡ length fields.now }
    ensures put { block.new ≡ put_all_by (put_in order) fields.now values.now block.old }
    ensures back { Fit fields.now values.now → numbers_by (number_in order) fields.now block.new ≡ values.now }
    ensures alone { (i : ℕ) → IsOutside fields.now i → slice_index block.new i ≡ slice_index block.old i }
{
    for k in 0..fields.len() {
        let field = fields[k];
        put_number(order, block, field.at, field.width, values[k]);
    }
}

fn put_number(order: Order, block: &mut [u8], at: usize, width: usize, value: u64)
    requires width { width ≤ 8 }
    requires fits { at + width ≤ length block.old }
    ensures { block.new ≡ put_in order at width value block.old }
{
    match order {
        Order::LowFirst => {
            block[at..at + width].copy_from_slice(&value.to_le_bytes()[..width]);
        }
        Order::HighFirst => {
            block[at..at + width].copy_from_slice(&value.to_be_bytes()[8 - width..]);
        }
    }
}

/// Puts bytes that are no number, as a name or an identifier.
pub fn put_bytes(block: &mut [u8], at: usize, new: &[u8])
    requires { at + length new.now ≤ length block.old }
    ensures put { block.new ≡ paste_at at new.now block.old }
    // A read gives them back.
    ensures back { bytes_at at (length new.now) block.new ≡ new.now }
    // The fields of a table that lies apart keep their numbers.
    ensures numbers { KeepsNumbersApart at (length new.now) block.old block.new }
    // Other bytes stay, together and one by one.
    ensures others { KeepsBytesApart at (length new.now) block.old block.new }
    ensures alone { (i : ℕ) → IsOutsideSpan at (length new.now) i → slice_index block.new i ≡ slice_index block.old i }
{
    block[at..at + new.len()].copy_from_slice(new);
}

/// Puts the bytes of an array, whose length a proof knows.
pub fn put_array<const K: usize>(block: &mut [u8], at: usize, new: &[u8; K])
    requires { at + K ≤ length block.old }
    ensures put { block.new ≡ paste_at at new.now block.old }
    // A read gives them back.
    ensures back { bytes_at at K block.new ≡ new.now }
    // The fields of a table that lies apart keep their numbers.
    ensures numbers { KeepsNumbersApart at K block.old block.new }
    // Other bytes stay, together and one by one.
    ensures others { KeepsBytesApart at K block.old block.new }
    ensures alone { (i : ℕ) → IsOutsideSpan at K i → slice_index block.new i ≡ slice_index block.old i }
{
    put_bytes(block, at, new);
}

/// The bytes that stand at `at`.
pub fn array_at<const K: usize>(bytes: &[u8], at: usize) -> [u8; K]
    requires { at + K ≤ length bytes.now }
    ensures { result ≡ bytes_at at K bytes.now }
{
    let mut array = [0; K];
    array.copy_from_slice(&bytes[at..at + K]);
    array
}

/// A law: where a table's test holds, no field reaches over a later one, and each ends within the structure.
pub fn tested_fields_are_apart()
    ensures apart { (size : ℕ) (fields : List Field) → IsTrue (is_disjoint 0 fields size)
        → AllPairs (λ f g. f.at + f.width ≤ g.at) fields }
    ensures within { (size : ℕ) (fields : List Field) → IsTrue (is_disjoint 0 fields size)
        → All (λ f. f.at + f.width ≤ size) fields }
    // The stronger test of a table of numbers says the same.
    ensures numbers { (size : ℕ) (fields : List Field) → IsTrue (is_layout 0 fields size)
        → IsTrue (is_disjoint 0 fields size) }
{}

/// A law: a table's numbers tell each byte of its fields.
pub fn numbers_tell_bytes()
    ensures low_first { (fields : List Field) (xs ys : List ℕ) → AreBytes xs → AreBytes ys
        → numbers_at fields xs ≡ numbers_at fields ys → All (IsSameIn xs ys) fields }
    ensures high_first { (fields : List Field) (xs ys : List ℕ) → AreBytes xs → AreBytes ys
        → big_numbers_at fields xs ≡ big_numbers_at fields ys → All (IsSameIn xs ys) fields }
{}

#[cfg(test)]
mod tests {
    use super::*;
    use crate::{big_u16_at, big_u32_at, big_u64_at, u8_at, u16_at, u32_at, u64_at};

    const TABLE: [Field; 4] = [
        Field { at: 1, width: 1 },
        Field { at: 2, width: 2 },
        Field { at: 5, width: 4 },
        Field { at: 10, width: 8 },
    ];

    const VALUES: [u64; 4] = [0x12, 0x3456, 0x789abcde, 0x0102030405060708];

    #[test]
    fn puts_numbers_in_both_orders(rt: HostRuntime) {
        let mut block = [0xee; 19];
        put_numbers(&mut block, &TABLE, &VALUES);
        assert_eq!(rt;
            block,
            [
                0xee, 0x12, 0x56, 0x34, 0xee, 0xde, 0xbc, 0x9a, 0x78, 0xee, 8, 7, 6, 5, 4, 3, 2, 1,
                0xee
            ]
        );
        assert_eq!(rt; u8_at(&block, 1), 0x12);
        assert_eq!(rt; u16_at(&block, 2), 0x3456);
        assert_eq!(rt; u32_at(&block, 5), 0x789abcde);
        assert_eq!(rt; u64_at(&block, 10), 0x0102030405060708);

        put_big_numbers(&mut block, &TABLE, &VALUES);
        assert_eq!(rt;
            block,
            [
                0xee, 0x12, 0x34, 0x56, 0xee, 0x78, 0x9a, 0xbc, 0xde, 0xee, 1, 2, 3, 4, 5, 6, 7, 8,
                0xee
            ]
        );
        assert_eq!(rt; big_u16_at(&block, 2), 0x3456);
        assert_eq!(rt; big_u32_at(&block, 5), 0x789abcde);
        assert_eq!(rt; big_u64_at(&block, 10), 0x0102030405060708);

        put_bytes(&mut block, 0, &[9, 9]);
        assert_eq!(rt; array_at(&block, 0), [9, 9, 0x34]);
    }
}
