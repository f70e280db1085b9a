// Numbers whose bits each say something.
ghost use Rattle.std.specs.Prelude.{◌≡◌};
ghost use Rattle.o2_ondisk.specs.Bits.{has_bits, valid_inode_flag, orphaned_inode_flag, system_inode_flag, super_block_inode_flag, local_alloc_inode_flag, bitmap_inode_flag, journal_inode_flag, heartbeat_inode_flag, chain_inode_flag, dealloc_inode_flag, dio_orphaned_inode_flag, inline_data_dyn_feature, has_xattr_dyn_feature, inline_xattr_dyn_feature, indexed_dir_dyn_feature, has_refcount_dyn_feature, unwritten_extent_flag, refcounted_extent_flag, dirty_journal_flag};

/// What an inode is and is for, as `i_flags`.
#[derive(Clone, Copy, Debug, PartialEq, Eq)]
pub struct InodeFlags(pub u32);

impl InodeFlags {
    /// The inode is in use: `OCFS2_VALID_FL`.
    pub const VALID: Self = Self(0x1);

    /// An orphan directory names the inode, which no other directory does: `OCFS2_ORPHANED_FL`.
    pub const ORPHANED: Self = Self(0x4);

    /// One of the volume's own inodes: `OCFS2_SYSTEM_FL`.
    pub const SYSTEM: Self = Self(0x10);

    /// The dinode holds the super's part: `OCFS2_SUPER_BLOCK_FL`.
    pub const SUPER_BLOCK: Self = Self(0x20);

    /// The clusters that a slot has set aside: `OCFS2_LOCAL_ALLOC_FL`.
    pub const LOCAL_ALLOC: Self = Self(0x40);

    /// An allocator of clusters or of blocks: `OCFS2_BITMAP_FL`.
    pub const BITMAP: Self = Self(0x80);

    /// A slot's journal: `OCFS2_JOURNAL_FL`.
    pub const JOURNAL: Self = Self(0x100);

    /// Where the nodes show that they live: `OCFS2_HEARTBEAT_FL`.
    pub const HEARTBEAT: Self = Self(0x200);

    /// The allocator's groups hang together in chains: `OCFS2_CHAIN_FL`.
    pub const CHAIN: Self = Self(0x400);

    /// The clusters that a slot is still to free, a truncate log: `OCFS2_DEALLOC_FL`.
    pub const DEALLOC: Self = Self(0x800);

    /// An orphan directory names the inode while it grows past its end: `OCFS2_DIO_ORPHANED_FL`.
    pub const DIO_ORPHANED: Self = Self(0x2000);

    /// Whether one of these flags is set.
    pub fn has(self, other: Self) -> bool
        ensures { result ≡ has_bits self.0 other.0 }
    {
        self.0 & other.0 != 0
    }
}

/// How an inode keeps what it holds, as `i_dyn_features`.
#[derive(Clone, Copy, Debug, PartialEq, Eq)]
pub struct DynFeatures(pub u16);

impl DynFeatures {
    /// The data stands in the dinode itself: `OCFS2_INLINE_DATA_FL`.
    pub const INLINE_DATA: Self = Self(0x1);

    /// The inode has extended attributes: `OCFS2_HAS_XATTR_FL`.
    pub const HAS_XATTR: Self = Self(0x2);

    /// Some of these stand at the dinode's end: `OCFS2_INLINE_XATTR_FL`.
    pub const INLINE_XATTR: Self = Self(0x4);

    /// The directory has an index: `OCFS2_INDEXED_DIR_FL`.
    pub const INDEXED_DIR: Self = Self(0x8);

    /// The inode has a refcount tree: `OCFS2_HAS_REFCOUNT_FL`.
    pub const HAS_REFCOUNT: Self = Self(0x10);

    /// Whether one of these flags is set.
    pub fn has(self, other: Self) -> bool
        ensures { result ≡ has_bits self.0 other.0 }
    {
        self.0 & other.0 != 0
    }
}

/// How the clusters of a leaf record are kept, as `e_flags`.
#[derive(Clone, Copy, Debug, PartialEq, Eq)]
pub struct ExtentFlags(pub u8);

impl ExtentFlags {
    /// The clusters are set aside and read as zeros: `OCFS2_EXT_UNWRITTEN`.
    pub const UNWRITTEN: Self = Self(0x1);

    /// A refcount tree counts the users of the clusters: `OCFS2_EXT_REFCOUNTED`.
    pub const REFCOUNTED: Self = Self(0x2);

    /// Whether one of these flags is set.
    pub fn has(self, other: Self) -> bool
        ensures { result ≡ has_bits self.0 other.0 }
    {
        self.0 & other.0 != 0
    }
}

/// How a journal was left, as `ij_flags`.
#[derive(Clone, Copy, Debug, PartialEq, Eq)]
pub struct JournalFlags(pub u32);

impl JournalFlags {
    /// A node uses the journal, or ended before it was done: `OCFS2_JOURNAL_DIRTY_FL`.
    pub const DIRTY: Self = Self(0x1);

    /// Whether one of these flags is set.
    pub fn has(self, other: Self) -> bool
        ensures { result ≡ has_bits self.0 other.0 }
    {
        self.0 & other.0 != 0
    }
}

/// A law: each flag is the bit that its word says.
pub fn flags_are_as_told()
    ensures valid_inode_flag { InodeFlags.VALID ≡ record { 0 = valid_inode_flag } }
    ensures orphaned_inode_flag { InodeFlags.ORPHANED ≡ record { 0 = orphaned_inode_flag } }
    ensures system_inode_flag { InodeFlags.SYSTEM ≡ record { 0 = system_inode_flag } }
    ensures super_block_inode_flag { InodeFlags.SUPER_BLOCK ≡ record { 0 = super_block_inode_flag } }
    ensures local_alloc_inode_flag { InodeFlags.LOCAL_ALLOC ≡ record { 0 = local_alloc_inode_flag } }
    ensures bitmap_inode_flag { InodeFlags.BITMAP ≡ record { 0 = bitmap_inode_flag } }
    ensures journal_inode_flag { InodeFlags.JOURNAL ≡ record { 0 = journal_inode_flag } }
    ensures heartbeat_inode_flag { InodeFlags.HEARTBEAT ≡ record { 0 = heartbeat_inode_flag } }
    ensures chain_inode_flag { InodeFlags.CHAIN ≡ record { 0 = chain_inode_flag } }
    ensures dealloc_inode_flag { InodeFlags.DEALLOC ≡ record { 0 = dealloc_inode_flag } }
    ensures dio_orphaned_inode_flag { InodeFlags.DIO_ORPHANED ≡ record { 0 = dio_orphaned_inode_flag } }
    ensures inline_data_dyn_feature { DynFeatures.INLINE_DATA ≡ record { 0 = inline_data_dyn_feature } }
    ensures has_xattr_dyn_feature { DynFeatures.HAS_XATTR ≡ record { 0 = has_xattr_dyn_feature } }
    ensures inline_xattr_dyn_feature { DynFeatures.INLINE_XATTR ≡ record { 0 = inline_xattr_dyn_feature } }
    ensures indexed_dir_dyn_feature { DynFeatures.INDEXED_DIR ≡ record { 0 = indexed_dir_dyn_feature } }
    ensures has_refcount_dyn_feature { DynFeatures.HAS_REFCOUNT ≡ record { 0 = has_refcount_dyn_feature } }
    ensures unwritten_extent_flag { ExtentFlags.UNWRITTEN ≡ record { 0 = unwritten_extent_flag } }
    ensures refcounted_extent_flag { ExtentFlags.REFCOUNTED ≡ record { 0 = refcounted_extent_flag } }
    ensures dirty_journal_flag { JournalFlags.DIRTY ≡ record { 0 = dirty_journal_flag } }
{}
