// What the tables of fields have in common.
ghost use Rattle.std.specs.Prelude.{◌≡◌, IsTrue};
ghost use Rattle.o2_ondisk.specs.Fields.{is_layout};
ghost use Rattle.o2_ondisk.specs.Dinodes.{dinode_fields};
ghost use Rattle.o2_ondisk.specs.ExtentRecs.{extent_rec_fields};
ghost use Rattle.o2_ondisk.specs.ExtentListHeaders.{extent_list_header_fields};
ghost use Rattle.o2_ondisk.specs.ExtentBlocks.{extent_block_fields};
ghost use Rattle.o2_ondisk.specs.DirEntries.{dir_entry_fields};
ghost use Rattle.o2_ondisk.specs.DirTrailers.{dir_trailer_fields};
ghost use Rattle.o2_ondisk.specs.GroupDescs.{group_desc_fields};
ghost use Rattle.o2_ondisk.specs.ChainListHeaders.{chain_list_header_fields};
ghost use Rattle.o2_ondisk.specs.ChainRecs.{chain_rec_fields};
ghost use Rattle.o2_ondisk.specs.LocalAllocHeaders.{local_alloc_header_fields};
ghost use Rattle.o2_ondisk.specs.TruncateLogHeaders.{truncate_log_header_fields};
ghost use Rattle.o2_ondisk.specs.TruncateRecs.{truncate_rec_fields};
ghost use Rattle.o2_ondisk.specs.SlotEntries.{slot_entry_fields};
ghost use Rattle.o2_ondisk.specs.RefcountBlocks.{refcount_block_fields};
ghost use Rattle.o2_ondisk.specs.RefcountListHeaders.{refcount_list_header_fields};
ghost use Rattle.o2_ondisk.specs.RefcountRecs.{refcount_rec_fields};
ghost use Rattle.o2_ondisk.specs.DxRoots.{dx_root_fields};
ghost use Rattle.o2_ondisk.specs.DxLeaves.{dx_leaf_fields};
ghost use Rattle.o2_ondisk.specs.DxListHeaders.{dx_list_header_fields};
ghost use Rattle.o2_ondisk.specs.DxEntries.{dx_entry_fields};
ghost use Rattle.o2_ondisk.specs.LogHeaders.{log_header_fields};
ghost use Rattle.o2_ondisk.specs.JournalSupers.{journal_super_fields};
ghost use Rattle.o2_ondisk.specs.JournalTags.{journal_tag_fields};

use crate::{
    CHAIN_LIST_HEADER, CHAIN_LIST_HEADER_SIZE, CHAIN_REC, CHAIN_REC_SIZE, DINODE, DINODE_SIZE,
    DIR_ENTRY, DIR_ENTRY_SIZE, DIR_TRAILER, DIR_TRAILER_SIZE, DX_ENTRY, DX_ENTRY_SIZE, DX_LEAF,
    DX_LEAF_SIZE, DX_LIST_HEADER, DX_LIST_HEADER_SIZE, DX_ROOT, DX_ROOT_SIZE, EXTENT_BLOCK,
    EXTENT_BLOCK_SIZE, EXTENT_LIST_HEADER, EXTENT_LIST_HEADER_SIZE, EXTENT_REC, EXTENT_REC_SIZE,
    GROUP_DESC, GROUP_DESC_SIZE, JOURNAL_SUPER, JOURNAL_SUPER_SIZE, JOURNAL_TAG, JOURNAL_TAG_SIZE,
    LOCAL_ALLOC_HEADER, LOCAL_ALLOC_HEADER_SIZE, LOG_HEADER, LOG_HEADER_SIZE, REFCOUNT_BLOCK,
    REFCOUNT_BLOCK_SIZE, REFCOUNT_LIST_HEADER, REFCOUNT_LIST_HEADER_SIZE, REFCOUNT_REC,
    REFCOUNT_REC_SIZE, SLOT_ENTRY, SLOT_ENTRY_SIZE, TRUNCATE_LOG_HEADER, TRUNCATE_LOG_HEADER_SIZE,
    TRUNCATE_REC, TRUNCATE_REC_SIZE,
};

/// A law: in each table no field reaches over another, and each ends within the structure.
pub fn tables_are_apart()
    ensures dinode { IsTrue (is_layout 0 dinode_fields 0xc0) }
    ensures extent_rec { IsTrue (is_layout 0 extent_rec_fields 0x10) }
    ensures extent_list_header { IsTrue (is_layout 0 extent_list_header_fields 6) }
    ensures extent_block { IsTrue (is_layout 0 extent_block_fields 0x30) }
    ensures dir_entry { IsTrue (is_layout 0 dir_entry_fields 0xc) }
    ensures group_desc { IsTrue (is_layout 0 group_desc_fields 0x30) }
    ensures chain_list_header { IsTrue (is_layout 0 chain_list_header_fields 0x8) }
    ensures chain_rec { IsTrue (is_layout 0 chain_rec_fields 0x10) }
    ensures local_alloc_header { IsTrue (is_layout 0 local_alloc_header_fields 0x6) }
    ensures truncate_log_header { IsTrue (is_layout 0 truncate_log_header_fields 0x4) }
    ensures truncate_rec { IsTrue (is_layout 0 truncate_rec_fields 0x8) }
    ensures slot_entry { IsTrue (is_layout 0 slot_entry_fields 0x8) }
    ensures refcount_block { IsTrue (is_layout 0 refcount_block_fields 0x50) }
    ensures refcount_list_header { IsTrue (is_layout 0 refcount_list_header_fields 0x4) }
    ensures refcount_rec { IsTrue (is_layout 0 refcount_rec_fields 0x10) }
    ensures dx_root { IsTrue (is_layout 0 dx_root_fields 0x50) }
    ensures dx_leaf { IsTrue (is_layout 0 dx_leaf_fields 0x1c) }
    ensures dx_list_header { IsTrue (is_layout 0 dx_list_header_fields 0x8) }
    ensures dx_entry { IsTrue (is_layout 0 dx_entry_fields 0x10) }
    ensures log_header { IsTrue (is_layout 0 log_header_fields 0xc) }
    ensures journal_super { IsTrue (is_layout 0 journal_super_fields 0x44) }
    ensures journal_tag { IsTrue (is_layout 0 journal_tag_fields 0x8) }
    ensures dir_trailer { IsTrue (is_layout 0 dir_trailer_fields 0x38) }
{}

/// A law: each table of the code is the one that its structure's contracts name.
pub fn tables_are_as_told()
    ensures dinode { DINODE.fields ≡ dinode_fields }
    ensures extent_rec { EXTENT_REC.fields ≡ extent_rec_fields }
    ensures extent_list_header { EXTENT_LIST_HEADER.fields ≡ extent_list_header_fields }
    ensures extent_block { EXTENT_BLOCK.fields ≡ extent_block_fields }
    ensures dir_entry { DIR_ENTRY.fields ≡ dir_entry_fields }
    ensures group_desc { GROUP_DESC.fields ≡ group_desc_fields }
    ensures chain_list_header { CHAIN_LIST_HEADER.fields ≡ chain_list_header_fields }
    ensures chain_rec { CHAIN_REC.fields ≡ chain_rec_fields }
    ensures local_alloc_header { LOCAL_ALLOC_HEADER.fields ≡ local_alloc_header_fields }
    ensures truncate_log_header { TRUNCATE_LOG_HEADER.fields ≡ truncate_log_header_fields }
    ensures truncate_rec { TRUNCATE_REC.fields ≡ truncate_rec_fields }
    ensures slot_entry { SLOT_ENTRY.fields ≡ slot_entry_fields }
    ensures refcount_block { REFCOUNT_BLOCK.fields ≡ refcount_block_fields }
    ensures refcount_list_header { REFCOUNT_LIST_HEADER.fields ≡ refcount_list_header_fields }
    ensures refcount_rec { REFCOUNT_REC.fields ≡ refcount_rec_fields }
    ensures dx_root { DX_ROOT.fields ≡ dx_root_fields }
    ensures dx_leaf { DX_LEAF.fields ≡ dx_leaf_fields }
    ensures dx_list_header { DX_LIST_HEADER.fields ≡ dx_list_header_fields }
    ensures dx_entry { DX_ENTRY.fields ≡ dx_entry_fields }
    ensures log_header { LOG_HEADER.fields ≡ log_header_fields }
    ensures journal_super { JOURNAL_SUPER.fields ≡ journal_super_fields }
    ensures journal_tag { JOURNAL_TAG.fields ≡ journal_tag_fields }
    ensures dir_trailer { DIR_TRAILER.fields ≡ dir_trailer_fields }
{}

/// A law: each structure ends where its last field does.
pub fn sizes_are_as_told()
    ensures dinode { DINODE_SIZE ≡ 0xc0 }
    ensures extent_rec { EXTENT_REC_SIZE ≡ 0x10 }
    ensures extent_list_header { EXTENT_LIST_HEADER_SIZE ≡ 6 }
    ensures extent_block { EXTENT_BLOCK_SIZE ≡ 0x30 }
    ensures dir_entry { DIR_ENTRY_SIZE ≡ 0xc }
    ensures group_desc { GROUP_DESC_SIZE ≡ 0x30 }
    ensures chain_list_header { CHAIN_LIST_HEADER_SIZE ≡ 0x8 }
    ensures chain_rec { CHAIN_REC_SIZE ≡ 0x10 }
    ensures local_alloc_header { LOCAL_ALLOC_HEADER_SIZE ≡ 0x6 }
    ensures truncate_log_header { TRUNCATE_LOG_HEADER_SIZE ≡ 0x4 }
    ensures truncate_rec { TRUNCATE_REC_SIZE ≡ 0x8 }
    ensures slot_entry { SLOT_ENTRY_SIZE ≡ 0x8 }
    ensures refcount_block { REFCOUNT_BLOCK_SIZE ≡ 0x50 }
    ensures refcount_list_header { REFCOUNT_LIST_HEADER_SIZE ≡ 0x4 }
    ensures refcount_rec { REFCOUNT_REC_SIZE ≡ 0x10 }
    ensures dx_root { DX_ROOT_SIZE ≡ 0x50 }
    ensures dx_leaf { DX_LEAF_SIZE ≡ 0x1c }
    ensures dx_list_header { DX_LIST_HEADER_SIZE ≡ 0x8 }
    ensures dx_entry { DX_ENTRY_SIZE ≡ 0x10 }
    ensures log_header { LOG_HEADER_SIZE ≡ 0xc }
    ensures journal_super { JOURNAL_SUPER_SIZE ≡ 0x44 }
    ensures journal_tag { JOURNAL_TAG_SIZE ≡ 0x8 }
    ensures dir_trailer { DIR_TRAILER_SIZE ≡ 0x38 }
{}

#[cfg(test)]
mod tests;
