// The superblock in a journal's first block.
ghost use Rattle.std.specs.Prelude.{◌≡◌, ◌≤◌, ℕ, length, slice_index};
ghost use Rattle.o2_ondisk.specs.Fields.{Fit, big_put_all, IsOutside};
ghost use Rattle.o2_ondisk.specs.JournalSupers.{journal_super_of, journal_super_numbers, journal_super_fields};

use crate::number::{big_u32_at, wide32};
use crate::{Field, Layout, put_big_numbers};

/// Where the last field ends.
pub const JOURNAL_SUPER_SIZE: usize = 0x44;

/// The numbers of a journal's superblock.
pub const JOURNAL_SUPER: Layout<11> = Layout {
    fields: [
        Field { at: 0x0, width: 4 },
        Field { at: 0x4, width: 4 },
        Field { at: 0xc, width: 4 },
        Field { at: 0x10, width: 4 },
        Field { at: 0x14, width: 4 },
        Field { at: 0x18, width: 4 },
        Field { at: 0x1c, width: 4 },
        Field { at: 0x24, width: 4 },
        Field { at: 0x28, width: 4 },
        Field { at: 0x2c, width: 4 },
        Field { at: 0x40, width: 4 },
    ],
};

/// The fields of `journal_superblock_t`.
#[derive(Clone, Copy, Debug, PartialEq, Eq)]
pub struct JournalSuper {
    pub magic: u32,
    /// The type of a superblock, 4.
    pub blocktype: u32,
    /// The bytes of a block.
    pub blocksize: u32,
    /// The blocks of the journal.
    pub maxlen: u32,
    /// The first block of the log.
    pub first: u32,
    /// The number of the first transaction.
    pub sequence: u32,
    /// The block where the log begins, 0 where it is empty.
    pub start: u32,
    pub feature_compat: u32,
    pub feature_incompat: u32,
    pub feature_ro_compat: u32,
    pub nr_users: u32,
}

/// The fields of a journal's superblock. `block` begins where it does.
pub fn read_journal_super(block: &[u8]) -> JournalSuper
    requires { JOURNAL_SUPER_SIZE ≤ length block.now }
    ensures { result ≡ journal_super_of block.now }
{
    JournalSuper {
        magic: big_u32_at(block, 0x0),
        blocktype: big_u32_at(block, 0x4),
        blocksize: big_u32_at(block, 0xc),
        maxlen: big_u32_at(block, 0x10),
        first: big_u32_at(block, 0x14),
        sequence: big_u32_at(block, 0x18),
        start: big_u32_at(block, 0x1c),
        feature_compat: big_u32_at(block, 0x24),
        feature_incompat: big_u32_at(block, 0x28),
        feature_ro_compat: big_u32_at(block, 0x2c),
        nr_users: big_u32_at(block, 0x40),
    }
}

fn journal_super_values(x: &JournalSuper) -> [u64; 11]
    ensures values { result ≡ journal_super_numbers x.now }
    ensures fit { Fit JOURNAL_SUPER.fields (journal_super_numbers x.now) }
{
    [
        wide32(x.magic),
        wide32(x.blocktype),
        wide32(x.blocksize),
        wide32(x.maxlen),
        wide32(x.first),
        wide32(x.sequence),
        wide32(x.start),
        wide32(x.feature_compat),
        wide32(x.feature_incompat),
        wide32(x.feature_ro_compat),
        wide32(x.nr_users),
    ]
}

/// Puts the fields of a journal's superblock. `block` begins where it does.
pub fn write_journal_super(block: &mut [u8], x: &JournalSuper)
    requires { JOURNAL_SUPER_SIZE ≤ length block.old }
    ensures put { block.new ≡ big_put_all journal_super_fields (journal_super_numbers x.now) block.old }
    // A read gives them back.
    ensures back { journal_super_of block.new ≡ x.now }
    // A byte outside all fields stays, within the structure and past it.
    ensures alone { (i : ℕ) → IsOutside journal_super_fields i → slice_index block.new i ≡ slice_index block.old i }
{
    put_big_numbers(block, &JOURNAL_SUPER.fields, &journal_super_values(x));
}
