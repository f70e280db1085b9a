// The super's part of the dinode in block 2.
ghost use Rattle.std.specs.Prelude.{◌≡◌, ◌≤◌, ℕ, List, drop, take, length, slice_index, IsTrue};
ghost use Rattle.o2_ondisk.specs.Fields.{Fit, numbers_at, paste_at, put_all, IsOutside, is_disjoint};
ghost use Rattle.o2_ondisk.specs.Super.{super_of, super_numbers, super_number_fields, super_fields, with_super};

use crate::number::{u16_at, u32_at, u64_at, wide16, wide32, wide64};
use crate::{Field, Layout, array_at, put_array, put_numbers};

/// Where the part begins in its dinode.
pub const SUPER_AT: usize = 0xc0;

/// Where the part's last field ends, in bytes from the part's beginning.
pub const SUPER_SIZE: usize = 0xc8;

/// Where the label stands in the part.
pub const LABEL_AT: usize = 0x50;

/// Where the uuid stands in the part.
pub const UUID_AT: usize = 0x90;

/// Where the cluster stack's description stands in the part.
pub const CLUSTER_INFO_AT: usize = 0xa0;

/// The numbers of the part, those of the directory hash's seed as three.
pub const SUPER: Layout<14> = Layout {
    fields: [
        Field { at: 0x1c, width: 4 },
        Field { at: 0x20, width: 4 },
        Field { at: 0x24, width: 4 },
        Field { at: 0x28, width: 8 },
        Field { at: 0x30, width: 8 },
        Field { at: 0x38, width: 4 },
        Field { at: 0x3c, width: 4 },
        Field { at: 0x40, width: 2 },
        Field { at: 0x44, width: 4 },
        Field { at: 0x48, width: 8 },
        Field { at: 0xb8, width: 2 },
        Field { at: 0xbc, width: 4 },
        Field { at: 0xc0, width: 4 },
        Field { at: 0xc4, width: 4 },
    ],
};

/// The words that the hash of a directory's names starts from, as `s_dx_seed`.
#[derive(Clone, Copy, Debug, PartialEq, Eq)]
pub struct DxSeed {
    pub first: u32,
    pub second: u32,
    pub third: u32,
}

/// The fields of `struct ocfs2_super_block`, without its revision and its check data.
#[derive(Clone, Copy, Debug, PartialEq, Eq)]
pub struct Super {
    pub feature_compat: u32,
    pub feature_incompat: u32,
    pub feature_ro_compat: u32,
    /// The block of the root directory's dinode.
    pub root_blkno: u64,
    /// The block of the system directory's dinode.
    pub system_dir_blkno: u64,
    /// The power of two that is a block's size in bytes.
    pub blocksize_bits: u32,
    /// The power of two that is a cluster's size in bytes.
    pub clustersize_bits: u32,
    /// How many nodes can have the volume mounted at a time.
    pub max_slots: u16,
    pub uuid_hash: u32,
    /// The block of the global bitmap's first group descriptor.
    pub first_cluster_group: u64,
    /// The volume's name, filled up with NUL.
    pub label: [u8; 64],
    pub uuid: [u8; 16],
    /// A `struct ocfs2_cluster_info`: the cluster stack's name, its flags and the cluster's name.
    pub cluster_info: [u8; 24],
    /// The room for attributes at an inode's end, in bytes.
    pub xattr_inline_size: u16,
    pub dx_seed: DxSeed,
}

/// The fields of a part. `block` begins where the part does, `SUPER_AT` bytes into its dinode.
pub fn read_super(block: &[u8]) -> Super
    requires { SUPER_SIZE ≤ length block.now }
    ensures { result ≡ super_of block.now }
{
    Super {
        feature_compat: u32_at(block, 0x1c),
        feature_incompat: u32_at(block, 0x20),
        feature_ro_compat: u32_at(block, 0x24),
        root_blkno: u64_at(block, 0x28),
        system_dir_blkno: u64_at(block, 0x30),
        blocksize_bits: u32_at(block, 0x38),
        clustersize_bits: u32_at(block, 0x3c),
        max_slots: u16_at(block, 0x40),
        uuid_hash: u32_at(block, 0x44),
        first_cluster_group: u64_at(block, 0x48),
        label: array_at(block, LABEL_AT),
        uuid: array_at(block, UUID_AT),
        cluster_info: array_at(block, CLUSTER_INFO_AT),
        xattr_inline_size: u16_at(block, 0xb8),
        dx_seed: DxSeed {
            first: u32_at(block, 0xbc),
            second: u32_at(block, 0xc0),
            third: u32_at(block, 0xc4),
        },
    }
}

fn super_values(x: &Super) -> [u64; 14]
    ensures values { result ≡ super_numbers x.now }
    ensures fit { Fit SUPER.fields (super_numbers x.now) }
{
    [
        wide32(x.feature_compat),
        wide32(x.feature_incompat),
        wide32(x.feature_ro_compat),
        wide64(x.root_blkno),
        wide64(x.system_dir_blkno),
        wide32(x.blocksize_bits),
        wide32(x.clustersize_bits),
        wide16(x.max_slots),
        wide32(x.uuid_hash),
        wide64(x.first_cluster_group),
        wide16(x.xattr_inline_size),
        wide32(x.dx_seed.first),
        wide32(x.dx_seed.second),
        wide32(x.dx_seed.third),
    ]
}

fn put_super_numbers(block: &mut [u8], x: &Super)
    requires { SUPER_SIZE ≤ length block.old }
    ensures put { block.new ≡ put_all super_number_fields (super_numbers x.now) block.old }
    ensures numbers { numbers_at super_number_fields block.new ≡ super_numbers x.now }
    ensures alone { (i : ℕ) → IsOutside super_number_fields i → slice_index block.new i ≡ slice_index block.old i }
{
    put_numbers(block, &SUPER.fields, &super_values(x));
}

/// Puts a part's fields. `block` begins where the part does.
pub fn write_super(block: &mut [u8], x: &Super)
    requires { SUPER_SIZE ≤ length block.old }
    ensures put { block.new ≡ with_super x.now block.old }
    // A read gives them back.
    ensures back { super_of block.new ≡ x.now }
    // A byte outside all fields stays, within the part and past it.
    ensures alone { (i : ℕ) → IsOutside super_fields i → slice_index block.new i ≡ slice_index block.old i }
{
    put_super_numbers(block, x);
    put_array(block, LABEL_AT, &x.label);
    put_array(block, UUID_AT, &x.uuid);
    put_array(block, CLUSTER_INFO_AT, &x.cluster_info);
}

/// Puts the label alone. `block` begins where the part does.
pub fn write_label(block: &mut [u8], label: &[u8; 64])
    requires { SUPER_SIZE ≤ length block.old }
    ensures put { block.new ≡ paste_at 0x50 label.now block.old }
    // The label changes, and no other field.
    ensures back { super_of block.new ≡ record (super_of block.old) { label = label.now } }
{
    put_array(block, LABEL_AT, label);
}

/// A law: no field of the part reaches over another, and each ends within the part.
pub fn fields_are_apart()
    ensures apart { IsTrue (is_disjoint 0 super_fields 0xc8) }
    ensures size { SUPER_SIZE ≡ 0xc8 }
{}

/// A law: the part's fields lie in the first 512 bytes of their block.
pub fn fields_lie_in_first_sector()
    ensures first { (block : List ℕ) → super_of (drop 0xc0 (take 512 block)) ≡ super_of (drop 0xc0 block) }
    ensures begins { SUPER_AT ≡ 0xc0 }
{}

#[cfg(test)]
mod tests {
    use super::*;

    // Each byte of a part is its own place, and eight bytes follow the part.
    fn numbered() -> [u8; 208] {
        let mut block = [0; 208];
        for place in 0..208u8 {
            block[usize::from(place)] = place;
        }
        block
    }

    // What such a part says, written out from the places of the format.
    fn numbered_super() -> Super {
        let block = numbered();
        let mut label = [0; 64];
        label.copy_from_slice(&block[80..144]);
        let mut uuid = [0; 16];
        uuid.copy_from_slice(&block[144..160]);
        let mut cluster_info = [0; 24];
        cluster_info.copy_from_slice(&block[160..184]);
        Super {
            feature_compat: 0x1f1e1d1c,
            feature_incompat: 0x23222120,
            feature_ro_compat: 0x27262524,
            root_blkno: 0x2f2e2d2c2b2a2928,
            system_dir_blkno: 0x3736353433323130,
            blocksize_bits: 0x3b3a3938,
            clustersize_bits: 0x3f3e3d3c,
            max_slots: 0x4140,
            uuid_hash: 0x47464544,
            first_cluster_group: 0x4f4e4d4c4b4a4948,
            label,
            uuid,
            cluster_info,
            xattr_inline_size: 0xb9b8,
            dx_seed: DxSeed {
                first: 0xbfbebdbc,
                second: 0xc3c2c1c0,
                third: 0xc7c6c5c4,
            },
        }
    }

    // Places of the part that no field has: the revision and check data, and the gaps.
    fn is_unused(place: usize) -> bool {
        place < 0x1c
            || place == 0x42
            || place == 0x43
            || place == 0xba
            || place == 0xbb
            || place >= 0xc8
    }

    #[test]
    fn reads_and_writes_each_field(rt: HostRuntime) {
        let block = numbered();
        assert_eq!(rt; read_super(&block), numbered_super());

        let mut written = [0xee; 208];
        write_super(&mut written, &numbered_super());
        assert_eq!(rt; read_super(&written), numbered_super());
        for place in 0..208 {
            let want = if is_unused(place) { 0xee } else { block[place] };
            assert_eq!(rt; written[place], want, "at {place}");
        }
    }

    #[test]
    fn writes_the_label_alone(rt: HostRuntime) {
        let block = numbered();
        let mut written = numbered();
        write_label(&mut written, &[0x61; 64]);
        for place in 0..208 {
            let want = if place >= 0x50 && place < 0x90 {
                0x61
            } else {
                block[place]
            };
            assert_eq!(rt; written[place], want, "at {place}");
        }
        assert_eq!(rt; read_super(&written).label, [0x61; 64]);
    }
}
