// The numbers of a volume.
use o2_ondisk::DxSeed;

/// What a reader of a volume needs of its superblock.
#[derive(Clone, Copy, Debug, PartialEq, Eq)]
pub struct Geo {
    /// The power of two that is a block's size in bytes.
    pub block_bits: u32,
    /// The power of two that is a cluster's size in bytes.
    pub cluster_bits: u32,
    /// The number of the volume's clusters.
    pub clusters: u32,
    /// How many nodes can have the volume mounted at a time.
    pub slots: u16,
    /// The block of the root's dinode.
    pub root: u64,
    /// The block of the system directory's dinode.
    pub sysdir: u64,
    /// The block of the global bitmap's first group descriptor.
    pub first_group: u64,
    /// What each dinode of the volume has as `i_fs_generation`.
    pub generation: u32,
    /// The features that a reader and a writer may ignore.
    pub compat: u32,
    /// The features that a reader has to know.
    pub incompat: u32,
    /// What the hash of a directory's names starts from.
    pub seed: DxSeed,
}
