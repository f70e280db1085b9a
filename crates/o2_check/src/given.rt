// Inodes that the system directory names.
ghost use Rattle.std.specs.Prelude.{◌≡◌, true};
ghost use Rattle.std.specs.List.{list_all};
ghost use Rattle.o2_model.specs.Volume.{Volume, is_in_range};
ghost use Rattle.o2_model.specs.Words.{among};
ghost use Rattle.o2_model.specs.Directories.{directory_entries};
ghost use Rattle.o2_survey.specs.SystemInodes.{named_by};
ghost use Rattle.o2_tree.specs.TreeWalks.{AreOwn};
ghost use Rattle.o2_view.specs.Geos.{HasSizes};
ghost use Rattle.o2_check.specs.Given.{is_given_by};

use o2_extent::is_block_in_range;
use o2_model::Geo;
use std::collections::BTreeSet;

/// Whether the inode is in range, and one of the volume's own but the system directory.
fn is_given(geo: &Geo, own: &BTreeSet<u64>, inode: u64) -> bool
    requires { HasSizes geo.now }
    ensures { result ≡ is_given_by geo.now own.now inode }
{
    is_block_in_range(geo, inode) && inode != geo.sysdir && own.contains(&inode)
}

/// Whether each of these inodes is in range, and named by an entry of the system directory that is no dot.
pub fn are_given(geo: &Geo, own: &BTreeSet<u64>, inodes: &[u64]) -> bool
    requires { HasSizes geo.now }
    ensures { result ≡ list_all (is_given_by geo.now own.now) inodes.now }
{
    inodes.iter().all(|inode| is_given(geo, own, *inode))
}
