// The record of a cluster, by a search by halves among records that rise, or by one through all.
ghost use Rattle.std.specs.Prelude.{◌≡◌, ◌≤◌, nat_le, true, false, find, length};
ghost use Rattle.std.specs.List.Sorted.{IsPartitionPoint};
ghost use Rattle.o2_model.specs.Contents.{maps_cluster};
ghost use Rattle.o2_extent.specs.Rising.{AreRising};
ghost use Rattle.o2_model.specs.declared.leaf.Leaf.{Leaf as Record};

use crate::Leaf;

/// How many records begin at cluster `c` or before.
fn count_begun(leaves: &[Leaf], c: u64) -> usize
    requires { AreRising leaves.now }
    ensures within { result ≤ length leaves.now }
    ensures point { IsPartitionPoint (λ (leaf : Record). nat_le leaf.cpos c ≡ true) (λ (leaf : Record). nat_le leaf.cpos c ≡ false) leaves.now result }
{
    leaves.partition_point(|leaf| u64::from(leaf.cpos) <= c)
}

/// Whether the record is about cluster `c`.
fn is_about(leaf: &Leaf, c: u64) -> bool
    ensures { result ≡ maps_cluster c leaf.now }
{
    let cpos = u64::from(leaf.cpos);
    cpos <= c && c < cpos + u64::from(leaf.clusters)
}

/// The record that is about cluster `c`, which is looked for by halves among records that rise.
pub fn place_of(leaves: &[Leaf], c: u64) -> Option<Leaf>
    requires { AreRising leaves.now }
    ensures { result ≡ find (maps_cluster c) leaves.now }
{
    let begun = count_begun(leaves, c);
    if begun == 0 {
        return None;
    }
    let last = leaves[begun - 1];
    if !is_about(&last, c) {
        return None;
    }
    Some(last)
}

/// The first record that is about cluster `c`.
pub fn first_about(leaves: &[Leaf], c: u64) -> Option<Leaf>
    ensures { result ≡ find (maps_cluster c) leaves.now }
{
    leaves.iter().copied().find(|leaf| is_about(leaf, c))
}
