// Leaf records that have no gap, and none that has a flag.
ghost use Rattle.std.specs.Prelude.{◌≡◌, ◌^◌, ◌<◌, false, true, MatchOption};
ghost use Rattle.std.specs.Option.{IfSome};
ghost use Rattle.o2_model.specs.LeafRecords.{clusters_in, are_without_gap, have_no_flags};

use o2_extent::Leaf;

/// How many clusters are under records that follow one another without a gap from cluster 0 on. None where there is a gap.
pub fn clusters_without_gap(leaves: &[Leaf]) -> Option<u64>
    ensures found { MatchOption result (are_without_gap leaves.now ≡ false) (λ clusters. are_without_gap leaves.now ≡ true) }
    ensures clusters { IfSome result (λ clusters. clusters ≡ clusters_in leaves.now) }
    ensures few { IfSome result (λ clusters. clusters < 2 ^ 33) }
{
    let mut end = 0;
    for leaf in leaves {
        if u64::from(leaf.cpos) != end {
            return None;
        }
        end = u64::from(leaf.cpos) + u64::from(leaf.clusters);
    }
    Some(end)
}

/// Whether none of the records has a flag.
pub fn have_no_flags(leaves: &[Leaf]) -> bool
    ensures { result ≡ have_no_flags leaves.now }
{
    leaves.iter().all(|leaf| leaf.flags == 0)
}
