// The law that ties the walk of one allocator to the volume's own walk.
ghost use Rattle.std.specs.Prelude.{◌≡◌, List, [], ◌∷◌, ◌++◌, map};
ghost use Rattle.o2_model.specs.declared.allocator.Allocator.{Allocator};
ghost use Rattle.o2_model.specs.Volume.{Volume};
ghost use Rattle.o2_model.specs.Allocators.{allocators, are_clusters};
ghost use Rattle.o2_view.specs.declared.run.Run.{Run};
ghost use Rattle.o2_chain.specs.Walks.{AreGroups, allocator_walk, group_in, judged_as};
ghost use Rattle.o2_chain.specs.Earlier.{AreBefore, walk_of};
ghost use Rattle.o2_chain.specs.declared.group.Group.{Group};

/// A law: what the walk of one allocator answers is what the volume's own walk meets there, where the runs have the
/// clusters of the groups of the allocators before it.
pub fn walks_are_of_the_volume()
    ensures groups { (v : Volume) (earlier later : List Allocator) (a : Allocator) → allocators v ≡ earlier ++ a ∷ later
        → (before : List Run) → AreBefore v earlier before
        → (groups : List Group) → AreGroups v (judged_as (are_clusters a.bit_use) a.block) before groups
        → (walk_of v (earlier ++ a ∷ [])).groups ≡ (walk_of v earlier).groups ++ map (group_in a) groups }
    ensures links { (v : Volume) (earlier later : List Allocator) (a : Allocator) → allocators v ≡ earlier ++ a ∷ later
        → (before : List Run) → AreBefore v earlier before
        → (walk_of v (earlier ++ a ∷ [])).faults ≡ (walk_of v earlier).faults ++ (allocator_walk v (judged_as (are_clusters a.bit_use) a.block) before).faults }
{}
