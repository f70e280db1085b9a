// Where a path leads.
ghost use Rattle.std.specs.Prelude.{◌≡◌, ◌≢◌, ◌==◌, ◌<◌, ◌≤◌, ◌∷◌, drop, ℕ, List, length, true, false, IfOk};
ghost use Rattle.std.specs.List.{position_or_len};
ghost use Rattle.std.specs.Result.{IfErr};
ghost use Rattle.o2_view.specs.Views.{view_blocks, Shows, OnlyReads};
ghost use Rattle.o2_view.specs.Geos.{LiesIn, Reaches};
ghost use Rattle.o2_model.specs.Volume.{Volume};
ghost use Rattle.o2_dir.specs.Paths.{AreNames, Begins, Leads, OnNames, OnPath, PathFails};

use crate::PathFault;
use crate::parts::behind;
use crate::path_step::step;
use o2_disk::Disk;
use o2_model::Geo;
use o2_view::View;
use std::alloc::Global;

/// How many bytes are before the first slash.
fn name_length(text: &[u8]) -> usize
    ensures first { result ≡ position_or_len (λ b. b == 47) text.now }
    ensures inside { result ≤ length text.now }
{
    for k in 0..text.len() {
        if text[k] == b'/' {
            return k;
        }
    }
    text.len()
}

/// The inode that joined names lead to from `start`.
fn follow<D: Disk, const N: usize>(
    alloc: Global,
    view: &mut View<'_, D, N>,
    geo: &Geo,
    start: u64,
    text: &[u8],
) -> Result<u64, PathFault>
    requires start { Reaches geo.now view.old start }
    ensures leads { IfOk result (λ i. (v : Volume) → Shows view.old geo.now v → (names : List (List ℕ)) → AreNames text.now names → Leads v start names i) }
    ensures inside { IfOk result (λ i. i < view_blocks view.old) }
    ensures reads { OnlyReads view.old view.new }
    ensures fails { IfErr result (PathFails view.old view.new (OnNames view.old geo.now start text.now)) }
{
    let mut inode = start;
    let mut rest = text;
    while !rest.is_empty() {
        let count = name_length(rest);
        match step(alloc, view, geo, inode, &rest[..count]) {
            Ok(next) => inode = next,
            Err(fault) => return Err(fault),
        }
        rest = behind(&rest[count..], 1);
    }
    Ok(inode)
}

/// Whether the text begins with two slashes, as a path in the system directory does.
fn begins_at_system_directory(text: &[u8]) -> bool
    ensures yes { result ≡ true → text.now ≡ 47 ∷ 47 ∷ drop 2 text.now }
    ensures no { result ≡ false → (rest : List ℕ) → text.now ≢ 47 ∷ 47 ∷ rest }
{
    match text {
        [b'/', b'/', ..] => true,
        _ => false,
    }
}

/// The inode that a path leads to. `/` is the root and `//` the system directory, and each name is looked up in the directory
/// before it, `.` and `..` too. Absent where a name has no live entry, WrongKind where an inode before a name is no directory, and
/// Bad where EXTENT, INODE_SIZE or DIR_BLOCK fails for a directory on the way, or where an entry on the way names no valid dinode
/// (DIRENT_INODE). The inode itself is a valid dinode of any kind. Of a text that is no path nothing is said.
pub fn path<D: Disk, const N: usize>(
    alloc: Global,
    view: &mut View<'_, D, N>,
    geo: &Geo,
    text: &[u8],
) -> Result<u64, PathFault>
    requires geo { LiesIn geo.now view.old }
    ensures leads { IfOk result (λ i. (v : Volume) → Shows view.old geo.now v → (start : ℕ) (names : List (List ℕ)) → Begins geo.now text.now start names
        → Leads v start names i) }
    ensures inside { IfOk result (λ i. i < view_blocks view.old) }
    ensures reads { OnlyReads view.old view.new }
    ensures fails { IfErr result (PathFails view.old view.new (OnPath view.old geo.now text.now)) }
{
    if begins_at_system_directory(text) {
        return follow(alloc, view, geo, geo.sysdir, behind(text, 2));
    }
    follow(alloc, view, geo, geo.root, behind(text, 1))
}

#[cfg(test)]
mod tests;
