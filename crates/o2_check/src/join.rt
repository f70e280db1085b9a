// Where each check fails.
ghost use Rattle.std.specs.Prelude.{◌≡◌, ◌<◌, ◌^◌, IfOk};
ghost use Rattle.o2_model.specs.Orders.{rising};
ghost use Rattle.o2_model.specs.Failing.{faults};
ghost use Rattle.o2_model.specs.Volume.{Volume};
ghost use Rattle.o2_view.specs.Geos.{HasSizes, blocks_of};
ghost use Rattle.o2_skeleton.specs.Skeleton.{HasSkeleton};
ghost use Rattle.o2_check.specs.Findings.{AreFindings};

use crate::findings::Findings;
use crate::lists::{copied, joined};
use o2_disk::NoMemory;
use o2_judges_alloc::{
    alloc_totals, block_alloc_bit, chain_bits, cluster_alloc_bit, group_chain, group_free_bits,
    group_missing, inode_alloc_bit, meta_block,
};
use o2_judges_inodes::{inode_clusters, inode_count, not_connected, orphan_entry, orphan_flag};
use o2_judges_origin::{inode_suballoc, meta_suballoc};
use o2_judges_refcount::{ref_count, ref_cover, ref_tree, ref_users};
use o2_judges_tree::{dir_dots, dirent_inode, dirent_type};
use o2_model::{Check, Geo};
use std::alloc::Global;

/// The blocks at which the check fails, in any order, where the skeleton holds. NoMemory where memory runs out.
pub fn faults_of(
    alloc: Global,
    geo: &Geo,
    findings: &Findings,
    check: Check,
) -> Result<Vec<u64>, NoMemory>
    requires sizes { HasSizes geo.now }
    requires few { blocks_of geo.now < 2 ^ 64 }
    ensures { IfOk result (λ blocks. (v : Volume) → v.geo ≡ geo.now → HasSkeleton v → AreFindings v findings.now → rising blocks.items ≡ rising (faults v check)) }
{
    let tables = &findings.tables;
    let allocators = tables.skeleton.allocators.as_slice();
    let groups = tables.skeleton.groups.as_slice();
    let survey = &tables.inodes;
    let inodes = &survey.rows;
    let directories = &survey.directories;
    let trees = &tables.trees.rows;
    let own = &tables.own;
    let orphans = &findings.orphans;
    let entered = &findings.walk.entered;
    let tree = &findings.walk.tree;
    let judged = &findings.judged;
    let references = &findings.references;
    match check {
        Check::Super
        | Check::Sysdir
        | Check::Sysfile
        | Check::Root
        | Check::ChainHeader
        | Check::Journal
        | Check::SlotMap => Ok(Vec::new(alloc)),
        Check::JournalDirty => copied(alloc, &findings.dirty),
        Check::ChainLink => copied(alloc, tables.skeleton.links.as_slice()),
        Check::GroupMissing => group_missing(alloc, geo, groups),
        Check::InodeAllocBit => inode_alloc_bit(alloc, groups, &findings.inodes),
        Check::InodeSuballoc => inode_suballoc(alloc, groups, inodes),
        Check::InodeKind => copied(alloc, &survey.kinds),
        Check::Extent => copied(alloc, &survey.extents),
        Check::MetaBlock => meta_block(alloc, groups, inodes, trees),
        Check::MetaSuballoc => meta_suballoc(alloc, groups, inodes, trees),
        Check::EbNext => joined(alloc, &survey.next_leaves, &tables.trees.next_leaves),
        Check::LastEb => joined(alloc, &survey.last_leaves, &tables.trees.last_leaves),
        Check::InodeSize => copied(alloc, &survey.sizes),
        Check::DirBlock => copied(alloc, &survey.dir_blocks),
        Check::DirentName => copied(alloc, &survey.names),
        Check::DirentDup => copied(alloc, &survey.again),
        Check::DirDots => dir_dots(alloc, directories, entered),
        Check::DirentInode => dirent_inode(alloc, inodes, own, directories, entered),
        Check::DirentType => dirent_type(alloc, inodes, directories, entered),
        Check::DirParent => copied(alloc, &findings.walk.second_names),
        Check::OrphanFlag => orphan_flag(alloc, tree, inodes),
        Check::OrphanEntry => orphan_entry(alloc, inodes, own, orphans),
        Check::NotConnected => not_connected(alloc, tree, own, orphans, inodes),
        Check::RefTree => ref_tree(alloc, inodes, &tables.trees.trees),
        Check::RefCover => ref_cover(alloc, references, inodes, trees),
        Check::RefCount => ref_count(alloc, references, trees),
        Check::RefUsers => ref_users(alloc, references, trees),
        Check::Dx => copied(alloc, &judged.indexes.faults),
        Check::InodeClusters => inode_clusters(alloc, geo, allocators, groups, inodes),
        Check::InodeCount => inode_count(alloc, tree, inodes),
        Check::DupClusters => copied(alloc, &judged.duplicates),
        Check::LocalAlloc => copied(alloc, &judged.windows),
        Check::TruncateLog => copied(alloc, &judged.logs),
        Check::BackupSuper => copied(alloc, &tables.backups),
        Check::BlockAllocBit => block_alloc_bit(alloc, groups, &findings.in_use),
        Check::ClusterAllocBit => cluster_alloc_bit(alloc, groups, &judged.claims),
        Check::GroupChain => group_chain(alloc, groups),
        Check::GroupFreeBits => group_free_bits(alloc, groups),
        Check::ChainBits => chain_bits(alloc, allocators, groups),
        Check::AllocTotals => alloc_totals(alloc, allocators),
    }
}
