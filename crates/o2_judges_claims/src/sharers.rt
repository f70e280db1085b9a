// Who may share a cluster.
ghost use Rattle.std.specs.Prelude.{◌≡◌};

/// Those that may share clusters with one another by refcounted records.
#[derive(Clone, Copy, Debug)]
pub enum Sharer {
    /// An inode without a refcount tree, by its block.
    Inode(u64),
    /// The inodes of the tree with this root.
    Tree(u64),
}

impl Sharer {
    ghost use Rattle.o2_judges_claims.specs.Uses.{is_same as same_sharer};

    /// Whether they are the same.
    pub fn is_same(self, other: Sharer) -> bool
        ensures { result ≡ same_sharer self other }
    {
        match (self, other) {
            (Sharer::Inode(a), Sharer::Inode(b)) => a == b,
            (Sharer::Tree(a), Sharer::Tree(b)) => a == b,
            _ => false,
        }
    }
}

/// A use of a cluster: a record has it, which is refcounted or not.
#[derive(Clone, Copy, Debug)]
pub struct PlacedUse {
    pub cluster: u64,
    pub is_shared: bool,
    pub by: Sharer,
}

/// What the uses of one cluster are together.
#[derive(Clone, Copy, Debug)]
pub struct Together {
    pub are_several: bool,
    /// They are all refcounted, by sharers that are the same.
    pub may_share: bool,
    /// The sharer of the first.
    pub by: Sharer,
}
