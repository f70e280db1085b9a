// What is checked of a volume.
ghost use Rattle.std.specs.Prelude.{◌≡◌};

use std::fmt;

/// A check, with its number, where it fails, and what holds where it does not. Their order is that in which failures are told.
#[derive(Clone, Copy, Debug, PartialEq, Eq)]
pub enum Check {
    /// Number 1, at block 2: it names its own block and is in use; a cluster has 4 KiB to 1 MiB; there are 1 to 255 slots; the
    /// first group descriptor begins a cluster of the first group and of the volume, behind the superblock and in no backup; the
    /// device has all blocks; the root and the system directory are two blocks of the volume.
    Super,
    /// Number 2, at the system directory: it is a valid dinode of a directory, for which EXTENT, INODE_SIZE, DIR_BLOCK,
    /// DIRENT_NAME and DIRENT_DUP hold.
    Sysdir,
    /// Number 3, at the inode that the entry names; for what is missing, the system directory: no required file is missing; each
    /// entry but the dots names an inode on a bit, of the kind and with the flags of its name, neither the root nor the system
    /// directory, and no inode is named twice; no name is of a slot that there is not; no file of a slot shares clusters; the
    /// root and the system directory stand on bits.
    Sysfile,
    /// Number 4, at the root: it is a valid dinode of a directory.
    Root,
    /// Number 5, at the allocator: in the global bitmap cl_bpc is 1 and cl_cpg the clusters of a group, else cl_bpc is the blocks
    /// of a cluster and a group has at least two bits; cl_count is at least 1 and fits the dinode, and cl_next_free_rec is at
    /// most cl_count.
    ChainHeader,
    /// Number 6, at the journal: EXTENT holds; it has clusters, which follow one another from its cluster 0 on and have no flags;
    /// its superblock has the magic, the type, the volume's block size, bounds that fit, and no features but REVOKE and 64BIT.
    Journal,
    /// Number 7, at the slot map: EXTENT holds; its clusters follow one another from its cluster 0 on, have no flags, and have
    /// room for an entry of each slot.
    SlotMap,
    /// Number 8, at the journal: its flag `OCFS2_JOURNAL_DIRTY_FL` is clear.
    JournalDirty,
    /// Number 9, at the allocator or the group that has the link: the link is 0, or the block of a good group that was not walked
    /// before.
    ChainLink,
    /// Number 10, at the place of the group: the walk reaches each group of the global bitmap.
    GroupMissing,
    /// Number 11, at the group of inodes: bit 0 is set, and each further set bit stands for an inode.
    InodeAllocBit,
    /// Number 12, at the inode: i_suballoc_slot and i_suballoc_bit are those of its group and bit, and i_suballoc_loc is 0 or the
    /// group.
    InodeSuballoc,
    /// Number 13, at the inode: i_mode has one of the seven kinds.
    InodeKind,
    /// Number 14, at the dinode or the extent block that has the list: a list's count fits its room, its records in use fit its
    /// count, its tree is at most 5 deep; inner records rise and name extent blocks in range, each once in its tree, with the
    /// right signature, number, generation and depth one less; leaf records rise without overlap, end below 2^32, have whole
    /// clusters in range, and no flags but UNWRITTEN and REFCOUNTED, in a directory no flag but UNWRITTEN.
    Extent,
    /// Number 15, at the extent block or refcount block: it is from an extent_alloc, and is used once.
    MetaBlock,
    /// Number 16, at the extent block or refcount block: its suballoc_slot and suballoc_bit are those of its group and bit, and
    /// suballoc_loc is 0 or the group; a block that is from no extent_alloc is not judged, nor is one without the signature and
    /// number of a refcount block.
    MetaSuballoc,
    /// Number 17, at the extent block: h_next_leaf_blk of a leaf is the next leaf of its tree, or 0 in the last one.
    EbNext,
    /// Number 18, at the dinode or the refcount root that has the list: i_last_eb_blk, or rf_last_eb_blk, is the last leaf block
    /// of the list, or 0 where it has none.
    LastEb,
    /// Number 19, at the inode: of inline data i_size is at most id_count, and that fits the dinode; a directory has whole
    /// blocks, at least one, all mapped and written; a link has a text, in the dinode or in cluster 0; a file ends within the
    /// clusters that have a number, unless it is one of the volume's own.
    InodeSize,
    /// Number 20, at the directory's block: entries fill it, and in the directory's first block the first two are live, and named
    /// `.` and `..`.
    DirBlock,
    /// Number 21, at the directory's block: the name of each live entry has 1 to 255 bytes, none of them a slash or NUL.
    DirentName,
    /// Number 22, at the directory's block that has the later entry: no two live entries but the dots have one name.
    DirentDup,
    /// Number 23, at the directory's block: in the tree the first `.` names the directory, the first `..` its parent, and there
    /// are no further ones; of a missing one DIR_BLOCK alone is told.
    DirDots,
    /// Number 24, at the directory's block: in the tree live entries but the dots name inodes without `OCFS2_SYSTEM_FL` that are
    /// not the volume's own.
    DirentInode,
    /// Number 25, at the directory's block: in the tree file_type of an entry that names an inode is that inode's kind.
    DirentType,
    /// Number 26, at the directory's block that has the later entry: the walk of the tree names no directory twice.
    DirParent,
    /// Number 27, at the inode: one that the walk of the tree meets has no `OCFS2_ORPHANED_FL`.
    OrphanFlag,
    /// Number 28, at the orphan directory's block: each live entry but the dots names an inode with `OCFS2_ORPHANED_FL` that is
    /// not the volume's own, and over all slots no inode is named again.
    OrphanEntry,
    /// Number 29, at the inode: the walk of the tree meets it, or it is one of the volume's own, or it has `OCFS2_ORPHANED_FL`
    /// and an orphan directory names it.
    NotConnected,
    /// Number 30, at the refcount block, or the inode: an inode with refcounted records has a tree; its root and leaves are
    /// refcount blocks of this volume with lists that fit; records rise without overlap, have clusters in range, and are referred
    /// to.
    RefTree,
    /// Number 31, at the root of the tree: its records have just the clusters under refcounted records of its inodes, and those
    /// of one record are all referred to equally often.
    RefCover,
    /// Number 32, at the refcount block that has the record: r_refcount is how often each cluster of the record is referred to,
    /// at most 2^32 - 1; where they are not referred to equally often, REF_COVER alone is told.
    RefCount,
    /// Number 33, at the root of the tree: rf_count is the number of the tree's inodes.
    RefUsers,
    /// Number 34, at the directory: its index is well formed, has its blocks and clusters for itself, each block of the directory
    /// has its trailer, and entries and index entries agree in number, by block and by hash.
    Dx,
    /// Number 35, at the inode: i_clusters is the number of the clusters of its records; of the global bitmap all of the
    /// volume's, of another allocator those of its groups, of an inode without a list 0; a local alloc and a truncate log are not
    /// asked.
    InodeClusters,
    /// Number 36, at the inode: one that the walk of the tree meets has as many links as live entries of the tree name it, the
    /// dots among them.
    InodeCount,
    /// Number 37, at the inode: no structure and no other inode claims a cluster of its records, and it maps none twice, but for
    /// refcounted ones of itself or of one tree.
    DupClusters,
    /// Number 38, at the dinode of the local alloc: the bitmap fits the dinode; a window that has clusters fits the bitmap and
    /// the volume, i_used is the number of its set bits, and no earlier claim has a cluster of a clear one.
    LocalAlloc,
    /// Number 39, at the dinode of the truncate log: the counts fit the dinode; each record is void, or its clusters are in
    /// range, and no earlier claim or record has one of them.
    TruncateLog,
    /// Number 40, at the backup: its signature, generation, clusters, features, root, system directory, first group, sizes,
    /// slots, label and identifier are those of the superblock.
    BackupSuper,
    /// Number 41, at the group of an extent_alloc: bit 0 is set, and of the others just those of blocks in use.
    BlockAllocBit,
    /// Number 42, at the group of the global bitmap: its set bits are just those of claimed clusters.
    ClusterAllocBit,
    /// Number 43, at the group: bg_chain is the number of the chain that reaches it.
    GroupChain,
    /// Number 44, at the group: bg_free_bits_count is the number of clear bits among its bits.
    GroupFreeBits,
    /// Number 45, at the allocator: c_free and c_total of each chain are the sums of bg_free_bits_count and bg_bits over its
    /// groups.
    ChainBits,
    /// Number 46, at the allocator: i_total is the sum of c_total over its chains, and i_used is that less the sum of c_free.
    AllocTotals,
}

impl Check {
    ghost use Rattle.o2_model.specs.Names.{check_name};

    fn name(self) -> &'static str
        ensures { result.now ≡ check_name self }
    {
        match self {
            Check::Super => "SUPER",
            Check::Sysdir => "SYSDIR",
            Check::Sysfile => "SYSFILE",
            Check::Root => "ROOT",
            Check::ChainHeader => "CHAIN_HEADER",
            Check::Journal => "JOURNAL",
            Check::SlotMap => "SLOT_MAP",
            Check::JournalDirty => "JOURNAL_DIRTY",
            Check::ChainLink => "CHAIN_LINK",
            Check::GroupMissing => "GROUP_MISSING",
            Check::InodeAllocBit => "INODE_ALLOC_BIT",
            Check::InodeSuballoc => "INODE_SUBALLOC",
            Check::InodeKind => "INODE_KIND",
            Check::Extent => "EXTENT",
            Check::MetaBlock => "META_BLOCK",
            Check::MetaSuballoc => "META_SUBALLOC",
            Check::EbNext => "EB_NEXT",
            Check::LastEb => "LAST_EB",
            Check::InodeSize => "INODE_SIZE",
            Check::DirBlock => "DIR_BLOCK",
            Check::DirentName => "DIRENT_NAME",
            Check::DirentDup => "DIRENT_DUP",
            Check::DirDots => "DIR_DOTS",
            Check::DirentInode => "DIRENT_INODE",
            Check::DirentType => "DIRENT_TYPE",
            Check::DirParent => "DIR_PARENT",
            Check::OrphanFlag => "ORPHAN_FLAG",
            Check::OrphanEntry => "ORPHAN_ENTRY",
            Check::NotConnected => "NOT_CONNECTED",
            Check::RefTree => "REF_TREE",
            Check::RefCover => "REF_COVER",
            Check::RefCount => "REF_COUNT",
            Check::RefUsers => "REF_USERS",
            Check::Dx => "DX",
            Check::InodeClusters => "INODE_CLUSTERS",
            Check::InodeCount => "INODE_COUNT",
            Check::DupClusters => "DUP_CLUSTERS",
            Check::LocalAlloc => "LOCAL_ALLOC",
            Check::TruncateLog => "TRUNCATE_LOG",
            Check::BackupSuper => "BACKUP_SUPER",
            Check::BlockAllocBit => "BLOCK_ALLOC_BIT",
            Check::ClusterAllocBit => "CLUSTER_ALLOC_BIT",
            Check::GroupChain => "GROUP_CHAIN",
            Check::GroupFreeBits => "GROUP_FREE_BITS",
            Check::ChainBits => "CHAIN_BITS",
            Check::AllocTotals => "ALLOC_TOTALS",
        }
    }
}

impl fmt::Display for Check {
    ghost use Rattle.std.specs.Prelude.{Some};
    ghost use Rattle.o2_model.specs.Names.{check_name};

    ghost output = { λ check. Some (check_name check) };

    fn fmt<W: fmt::Write>(&self, f: &mut fmt::Formatter<W>) -> fmt::Result {
        f.write_str(self.name())
    }
}

#[cfg(test)]
mod tests {
    use super::*;
    use std::test::Fail;

    #[test]
    fn prints_its_name(rt: HostRuntime) -> Result<(), Fail> {
        for (check, name) in [
            (Check::Super, "SUPER"),
            (Check::Sysdir, "SYSDIR"),
            (Check::Sysfile, "SYSFILE"),
            (Check::Root, "ROOT"),
            (Check::ChainHeader, "CHAIN_HEADER"),
            (Check::Journal, "JOURNAL"),
            (Check::SlotMap, "SLOT_MAP"),
            (Check::JournalDirty, "JOURNAL_DIRTY"),
            (Check::ChainLink, "CHAIN_LINK"),
            (Check::GroupMissing, "GROUP_MISSING"),
            (Check::InodeAllocBit, "INODE_ALLOC_BIT"),
            (Check::InodeSuballoc, "INODE_SUBALLOC"),
            (Check::InodeKind, "INODE_KIND"),
            (Check::Extent, "EXTENT"),
            (Check::MetaBlock, "META_BLOCK"),
            (Check::MetaSuballoc, "META_SUBALLOC"),
            (Check::EbNext, "EB_NEXT"),
            (Check::LastEb, "LAST_EB"),
            (Check::InodeSize, "INODE_SIZE"),
            (Check::DirBlock, "DIR_BLOCK"),
            (Check::DirentName, "DIRENT_NAME"),
            (Check::DirentDup, "DIRENT_DUP"),
            (Check::DirDots, "DIR_DOTS"),
            (Check::DirentInode, "DIRENT_INODE"),
            (Check::DirentType, "DIRENT_TYPE"),
            (Check::DirParent, "DIR_PARENT"),
            (Check::OrphanFlag, "ORPHAN_FLAG"),
            (Check::OrphanEntry, "ORPHAN_ENTRY"),
            (Check::NotConnected, "NOT_CONNECTED"),
            (Check::RefTree, "REF_TREE"),
            (Check::RefCover, "REF_COVER"),
            (Check::RefCount, "REF_COUNT"),
            (Check::RefUsers, "REF_USERS"),
            (Check::Dx, "DX"),
            (Check::InodeClusters, "INODE_CLUSTERS"),
            (Check::InodeCount, "INODE_COUNT"),
            (Check::DupClusters, "DUP_CLUSTERS"),
            (Check::LocalAlloc, "LOCAL_ALLOC"),
            (Check::TruncateLog, "TRUNCATE_LOG"),
            (Check::BackupSuper, "BACKUP_SUPER"),
            (Check::BlockAllocBit, "BLOCK_ALLOC_BIT"),
            (Check::ClusterAllocBit, "CLUSTER_ALLOC_BIT"),
            (Check::GroupChain, "GROUP_CHAIN"),
            (Check::GroupFreeBits, "GROUP_FREE_BITS"),
            (Check::ChainBits, "CHAIN_BITS"),
            (Check::AllocTotals, "ALLOC_TOTALS"),
        ] {
            assert_eq!(rt; check.to_string(rt.alloc())?.as_str(), name);
        }
        Ok(())
    }
}
