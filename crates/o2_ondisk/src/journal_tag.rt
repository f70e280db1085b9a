// The tags of a descriptor.
ghost use Rattle.std.specs.Prelude.{◌≡◌, ◌≤◌, ℕ, length, slice_index};
ghost use Rattle.o2_ondisk.specs.Fields.{Fit, big_put_all, IsOutside};
ghost use Rattle.o2_ondisk.specs.JournalTags.{journal_tag_of, journal_tag_numbers, journal_tag_fields};

use crate::number::{big_u16_at, big_u32_at, wide16, wide32};
use crate::{Field, Layout, put_big_numbers};

/// Where the last field ends.
pub const JOURNAL_TAG_SIZE: usize = 0x8;

/// The numbers of a tag.
pub const JOURNAL_TAG: Layout<3> = Layout {
    fields: [
        Field { at: 0x0, width: 4 },
        Field { at: 0x4, width: 2 },
        Field { at: 0x6, width: 2 },
    ],
};

/// The fields of `journal_block_tag_t` before the high half of the number, which follows with 64BIT.
#[derive(Clone, Copy, Debug, PartialEq, Eq)]
pub struct JournalTag {
    /// The low half of the number of the block that was logged.
    pub blocknr: u32,
    pub checksum: u16,
    /// ESCAPE 1, SAME_UUID 2, DELETED 4, LAST_TAG 8.
    pub flags: u16,
}

/// The fields of a tag. `block` begins where it does.
pub fn read_journal_tag(block: &[u8]) -> JournalTag
    requires { JOURNAL_TAG_SIZE ≤ length block.now }
    ensures { result ≡ journal_tag_of block.now }
{
    JournalTag {
        blocknr: big_u32_at(block, 0x0),
        checksum: big_u16_at(block, 0x4),
        flags: big_u16_at(block, 0x6),
    }
}

fn journal_tag_values(x: &JournalTag) -> [u64; 3]
    ensures values { result ≡ journal_tag_numbers x.now }
    ensures fit { Fit JOURNAL_TAG.fields (journal_tag_numbers x.now) }
{
    [wide32(x.blocknr), wide16(x.checksum), wide16(x.flags)]
}

/// Puts the fields of a tag. `block` begins where it does.
pub fn write_journal_tag(block: &mut [u8], x: &JournalTag)
    requires { JOURNAL_TAG_SIZE ≤ length block.old }
    ensures put { block.new ≡ big_put_all journal_tag_fields (journal_tag_numbers x.now) block.old }
    // A read gives them back.
    ensures back { journal_tag_of block.new ≡ x.now }
    // A byte outside all fields stays, within the structure and past it.
    ensures alone { (i : ℕ) → IsOutside journal_tag_fields i → slice_index block.new i ≡ slice_index block.old i }
{
    put_big_numbers(block, &JOURNAL_TAG.fields, &journal_tag_values(x));
}
