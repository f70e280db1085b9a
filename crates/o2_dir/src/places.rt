// Where the blocks of a directory are.
ghost use Rattle.std.specs.Prelude.{◌≡◌, ◌+◌, ◌*◌, ◌^◌, ◌≤◌, ◌<◌, ◌∷◌, [], ◌++◌, nat_lt, All, IfOk, OnOk, is_ok, if◌then◌else◌, true, false};
ghost use Rattle.std.specs.Option.{IfNone, IfSome};
ghost use Rattle.o2_model.specs.Words.{push};
ghost use Rattle.o2_model.specs.Directories.{is_written as has_written};
ghost use Rattle.o2_dir.specs.Blocks.{places_in, places_of, EndsIn};

use o2_disk::NoMemory;
use o2_extent::Leaf;
use o2_ondisk::ExtentFlags;
use std::alloc::Global;

/// A block of a directory.
#[derive(Clone, Copy, Debug, PartialEq, Eq)]
pub struct Place {
    /// Which of the directory's blocks it is.
    pub place: u64,
    pub block: u64,
}

/// Puts an item at the end.
pub fn put<T: Drop>(items: &mut Vec<T>, item: T) -> Result<(), NoMemory>
    ensures now { items.new.items ≡ (if is_ok result then push items.old.items item else items.old.items) }
    ensures added { OnOk result (items.new.items ≡ push items.old.items item) }
{
    match items.push(item) {
        Ok(()) => Ok(()),
        Err(_) => Err(NoMemory),
    }
}

/// Whether the clusters of the record are written.
fn is_written(leaf: &Leaf) -> bool
    ensures { result ≡ has_written leaf.now }
{
    !ExtentFlags(leaf.flags).has(ExtentFlags::UNWRITTEN)
}

/// Puts the k-th block of the record's clusters at the end, where its place, by that of the first, is below `limit`.
fn add_place(
    first: u64,
    limit: u64,
    leaf: &Leaf,
    k: u64,
    places: &mut Vec<Place>,
) -> Result<(), NoMemory>
    requires place { first + k < 2 ^ 64 }
    requires block { leaf.now.block + k < 2 ^ 64 }
    ensures added { IfOk result (λ _. places.new.items
        ≡ (if nat_lt (first + k) limit then push places.old.items (record { place = first + k; block = leaf.now.block + k }) else places.old.items)) }
{
    let place = first + k;
    let block = leaf.block + k;
    if limit <= place {
        return Ok(());
    }
    put(places, Place { place, block })
}

/// Puts the blocks of the record's clusters at the end, those at places below `limit`.
fn add_mapped(
    per_cluster: u64,
    limit: u64,
    leaf: &Leaf,
    blocks: u64,
    places: &mut Vec<Place>,
) -> Result<(), NoMemory>
    requires few { per_cluster ≤ 2048 }
    requires ends { EndsIn per_cluster blocks leaf.now }
    ensures added { IfOk result (λ _. places.new.items ≡ places.old.items ++ places_in per_cluster limit leaf.now) }
    ensures inside { IfOk result (λ _. All (λ p. p.block < blocks) places.old.items → All (λ p. p.block < blocks) places.new.items) }
{
    let first = u64::from(leaf.cpos) * per_cluster;
    for k in 0..u64::from(leaf.clusters) * per_cluster {
        add_place(first, limit, leaf, k, places)?;
    }
    Ok(())
}

/// Puts the blocks of a record's clusters at the end, where they are written.
fn add_written(
    per_cluster: u64,
    limit: u64,
    leaf: &Leaf,
    blocks: u64,
    places: &mut Vec<Place>,
) -> Result<(), NoMemory>
    requires few { per_cluster ≤ 2048 }
    requires ends { EndsIn per_cluster blocks leaf.now }
    ensures added { IfOk result (λ _. places.new.items ≡ places.old.items ++ places_of per_cluster limit (leaf.now ∷ [])) }
    ensures inside { IfOk result (λ _. All (λ p. p.block < blocks) places.old.items → All (λ p. p.block < blocks) places.new.items) }
{
    if !is_written(leaf) {
        return Ok(());
    }
    add_mapped(per_cluster, limit, leaf, blocks, places)
}

/// The blocks of a directory that the records map, those at places below `limit`.
pub fn places_within(
    alloc: Global,
    per_cluster: u64,
    limit: u64,
    blocks: u64,
    leaves: &[Leaf],
) -> Result<Vec<Place>, NoMemory>
    requires few { per_cluster ≤ 2048 }
    requires ends { All (λ leaf. EndsIn per_cluster blocks leaf) leaves.now }
    ensures places { IfOk result (λ places. places.items ≡ places_of per_cluster limit leaves.now) }
    ensures inside { IfOk result (λ places. All (λ p. p.block < blocks) places.items) }
{
    let mut places = Vec::new(alloc);
    for leaf in leaves {
        add_written(per_cluster, limit, leaf, blocks, &mut places)?;
    }
    Ok(places)
}
