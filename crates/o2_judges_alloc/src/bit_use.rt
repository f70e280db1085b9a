// What the bits of a group stand for.
ghost use Rattle.std.specs.Prelude.{◌≡◌, ◌+◌, ◌%◌, ◌^◌};
ghost use Rattle.o2_model.specs.Allocators.{are_inodes, are_metadata};
ghost use Rattle.o2_model.specs.Groups.{is_of_clusters};

use o2_model::BitUse;
use o2_tables::GroupRow;

/// Whether it is a group of the global bitmap.
pub fn is_of_bitmap(row: &GroupRow) -> bool
    ensures { result ≡ is_of_clusters row.now.group }
{
    match row.group.of.bit_use {
        BitUse::Clusters => true,
        _ => false,
    }
}

/// Whether it is a group of inodes.
pub fn is_of_inodes(row: &GroupRow) -> bool
    ensures { result ≡ are_inodes row.now.group.of.bit_use }
{
    match row.group.of.bit_use {
        BitUse::Inodes => true,
        _ => false,
    }
}

/// Whether it is a group of an extent_alloc.
pub fn is_of_metadata(row: &GroupRow) -> bool
    ensures { result ≡ are_metadata row.now.group.of.bit_use }
{
    match row.group.of.bit_use {
        BitUse::Metadata => true,
        _ => false,
    }
}

/// The block that bit k of a group of blocks stands for. No group of a volume reaches beyond 2^64.
pub fn block_at(row: &GroupRow, k: u16) -> u64
    ensures { result ≡ (row.now.group.block + k) % 2 ^ 64 }
{
    row.group.block.wrapping_add(u64::from(k))
}
