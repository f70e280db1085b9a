// A group of an allocator, and its lists.
use o2_model::Items;

/// A group that a walk reaches.
#[derive(Clone, Copy, Debug, PartialEq, Eq)]
pub struct Group {
    /// The number of the chain that reaches it.
    pub chain: u32,
    /// The block of its descriptor.
    pub block: u64,
    /// How many bits it has.
    pub bits: u32,
}

/// Groups, chain by chain.
pub type Groups = Items<Group>;
