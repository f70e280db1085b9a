// Groups whose blocks lie in several places.
ghost use Rattle.std.specs.Prelude.{◌≡◌, ◌≤◌, ℕ, length, drop};
ghost use Rattle.o2_ondisk.specs.ExtentListHeaders.{extent_list_header_of};
ghost use Rattle.o2_model.specs.Structures.{is_discontiguous};
ghost use Rattle.o2_model.specs.Volume.{Volume};

use o2_ondisk::{ExtentListHeader, read_extent_list_header, read_group_desc};

/// The bytes of the bitmap of a group that has a list of extents behind it (OCFS2_MAX_BG_BITMAP_SIZE).
const BITMAP_BYTES: u16 = 256;

/// Where that list begins in the group's block (bg_list).
const LIST_AT: usize = 0x140;

/// The head of that list, where the group's block has these bytes.
fn list_header(bytes: &[u8]) -> ExtentListHeader
    requires { 512 ≤ length bytes.now }
    ensures { result ≡ extent_list_header_of (drop 0x140 bytes.now) }
{
    read_extent_list_header(&bytes[LIST_AT..])
}

/// Whether the group whose block has these bytes is discontiguous.
#[tactic(auto, unfolding(o2_model::specs::Structures::is_discontiguous))]
pub fn says_discontiguous(bytes: &[u8]) -> bool
    requires { 512 ≤ length bytes.now }
    ensures { (v : Volume) (b : ℕ) → bytes.now ≡ v.at b → result ≡ is_discontiguous v b }
{
    let desc = read_group_desc(bytes);
    desc.size == BITMAP_BYTES && 0 < list_header(bytes).next_free_rec
}
