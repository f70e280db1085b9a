// Laws of the walks of chains and of the tree, each the contract of a function that does nothing.
ghost use Rattle.std.specs.FinMap as finite;
ghost use Rattle.std.specs.Prelude.{◌≡◌, ◌<◌, ◌+◌, ℕ, List, nat_eq, Some, None, true, if◌then◌else◌};
ghost use Rattle.std.specs.List.{IsDistinct};
ghost use Rattle.o2_model.specs.declared.allocator.Allocator.{Allocator};
ghost use Rattle.o2_model.specs.Words.{Apart, among};
ghost use Rattle.o2_model.specs.Volume.{Volume, blocks};
ghost use Rattle.o2_model.specs.Groups.{GroupWalk, group_walk, walk_chain};
ghost use Rattle.o2_model.specs.Tree.{walk_after, tree_walk, tree_of, inode_at, tree_inodes};
ghost use Rattle.o2_model.specs.Files.{file_of, files_of, tree_sharing, shared_clusters, times_in};
ghost use Rattle.o2_laws.specs.Frames.{group_blocks, entered_inodes};

/// A law: the walk reaches no group twice, and each is a block of the volume above 0.
pub fn no_group_is_walked_twice()
    ensures { (v : Volume) → 0 < blocks v → Apart (blocks v) (group_blocks (group_walk v)) }
{}

/// A law: past its bound a chain stands still, so that nothing depends on the bound.
pub fn chains_end()
    ensures { (v : Volume) (a : Allocator) (chain holder link : ℕ) (w : GroupWalk) → Apart (blocks v) (group_blocks w) → (k : ℕ)
        → walk_chain v a chain (k + blocks v) holder link w ≡ walk_chain v a chain (blocks v) holder link w }
{}

/// A law: the walk of the tree enters no directory twice.
pub fn no_directory_is_entered_twice()
    ensures { (v : Volume) → v.geo.root < blocks v → (k : ℕ) → IsDistinct nat_eq (entered_inodes (walk_after v k)) }
{}

/// A law: past its bound the walk of the tree stands still, so that each directory that it enters is looked through.
pub fn tree_walk_ends()
    ensures { (v : Volume) → v.geo.root < blocks v → (k : ℕ) → walk_after v (k + blocks v) ≡ tree_walk v }
{}

/// A law: the tree has at a path the inode of the first name that the walk met there. The files are those of the inodes that the tree has,
/// and the shared clusters those that these refer to, each with the number of its references.
pub fn walk_tells_tree_and_files()
    ensures tree { (v : Volume) (path : List (List ℕ)) → finite.get (tree_of v) path ≡ inode_at v path }
    ensures values { (v : Volume) (path : List (List ℕ)) (b : ℕ) → finite.get (tree_of v) path ≡ Some b → among (tree_inodes v) b ≡ true }
    ensures paths { (v : Volume) (b : ℕ) → among (tree_inodes v) b ≡ true → (path : List (List ℕ)) × (finite.get (tree_of v) path ≡ Some b) }
    ensures files { (v : Volume) (b : ℕ) → finite.get (files_of v) b ≡ (if among (tree_inodes v) b then Some (file_of v b) else None) }
    ensures sharing { (v : Volume) (c : ℕ) → finite.get (shared_clusters v) c ≡ (if among (tree_sharing v) c then Some (times_in (tree_sharing v) c) else None) }
{}
