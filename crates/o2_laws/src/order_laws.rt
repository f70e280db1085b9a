// Laws of bits and of numbers in order, each the contract of a function that does nothing.
ghost use Rattle.std.specs.Prelude.{◌≡◌, ◌<◌, ◌≤◌, ◌+◌, ℕ, List, [], Some, None, eqb};
ghost use Rattle.std.specs.List.{list_any, dedup};
ghost use Rattle.std.specs.List.Sorted.{IsStrictlySortedBy, IsSorted, IsPermutation};
ghost use Rattle.std.specs.Ordering.{nat_cmp, eq_by_cmp};
ghost use Rattle.o2_model.specs.declared.allocator.Group.{Group};
ghost use Rattle.o2_model.specs.Volume.{Volume};
ghost use Rattle.o2_model.specs.Orders.{rising};
ghost use Rattle.o2_model.specs.Groups.{block_of_bit, bit_of_block};

/// A law: the bit that stands for a block is the one whose block it is, and no block outside the group has one.
pub fn bits_and_blocks_agree()
    ensures inside { (v : Volume) (g : Group) (k : ℕ) → k < g.bits → bit_of_block v g (block_of_bit v g k) ≡ Some k }
    ensures before { (v : Volume) (g : Group) (b : ℕ) → b < g.block → bit_of_block v g b ≡ None }
    ensures behind { (v : Volume) (g : Group) (b : ℕ) → g.block + g.bits ≤ b → bit_of_block v g b ≡ None }
{}

/// A law: numbers in order, each once, are the list that strictly rises and has the same numbers. A sort and a removal of
/// repetitions make it.
pub fn rising_numbers_are_the_list_in_order()
    ensures only { (ns ms : List ℕ) → IsStrictlySortedBy nat_cmp ms → ((q : ℕ) → list_any (eq_by_cmp nat_cmp q) ms ≡ list_any (eq_by_cmp nat_cmp q) ns) → rising ns ≡ ms }
    ensures sorted { (ns ms : List ℕ) → IsPermutation ns ms → IsSorted nat_cmp ms → rising ns ≡ dedup eqb ms }
    ensures none { (ns : List ℕ) → rising ns ≡ [] → ns ≡ [] }
{}
