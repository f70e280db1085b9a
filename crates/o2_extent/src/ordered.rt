// Leaf records that are searched, and whether they rise.
ghost use Rattle.std.specs.Prelude.{◌≡◌, ◌↔◌, true, find};
ghost use Rattle.o2_model.specs.Contents.{maps_cluster};
ghost use Rattle.o2_extent.specs.Rising.{AreRising};

use crate::place::{first_about, place_of};
use crate::{Leaf, Leaves};
use std::marker::Model;

/// Leaf records, which are searched by halves where they rise.
#[derive(Debug, Drop)]
pub struct OrderedLeaves {
    leaves: Leaves,
    // Whether each begins where the one before ends or later.
    rise: bool,
}

impl Model for OrderedLeaves {
    ghost use Rattle.std.specs.Prelude.{◌≡◌, ◌↔◌, true, List};
    ghost use Rattle.o2_model.specs.declared.leaf.Leaf.{Leaf as Record};
    ghost use Rattle.o2_extent.specs.Rising.{AreRising};

    ghost Value = { List Record };

    ghost view = { λ ordered. ordered.leaves };

    ghost invariant = { λ ordered. (ordered.rise ≡ true) ↔ AreRising ordered.leaves };
}

/// Whether each record begins where the one before ends or later.
fn are_rising(leaves: &[Leaf]) -> bool
    ensures { (result ≡ true) ↔ AreRising leaves.now }
{
    let mut end = 0;
    for leaf in leaves {
        let cpos = u64::from(leaf.cpos);
        if cpos < end {
            return false;
        }
        end = cpos + u64::from(leaf.clusters);
    }
    true
}

impl OrderedLeaves {
    /// The records, in the order that they have.
    pub fn new(leaves: Leaves) -> Self
        ensures { result ≡ leaves }
    {
        let rise = are_rising(leaves.as_slice());
        OrderedLeaves { leaves, rise }
    }

    pub fn as_slice(&self) -> &[Leaf]
        ensures { result.now ≡ self.now }
    {
        self.leaves.as_slice()
    }

    /// The first record that is about cluster `c`.
    pub fn find(&self, c: u64) -> Option<Leaf>
        ensures { result ≡ find (maps_cluster c) self.now }
    {
        let leaves = self.leaves.as_slice();
        if self.rise {
            return place_of(leaves, c);
        }
        first_about(leaves, c)
    }
}
