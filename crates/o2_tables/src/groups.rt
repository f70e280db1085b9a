// Groups, with their bits.
use o2_model::{Bytes, Group, Items};

/// A group that the walk reaches, and what its descriptor says.
#[derive(Debug, Drop)]
pub struct GroupRow {
    pub group: Group,
    /// `bg_chain`: the number of its chain.
    pub chain: u16,
    /// `bg_free_bits_count`: how many of its bits are clear.
    pub free_bits: u16,
    /// For a group of the global bitmap the cluster of its bit 0.
    pub first: u32,
    /// The bytes of its bits, bit 0 the lowest of the first.
    pub bitmap: Bytes,
}

/// The groups in the order of the walk.
pub type GroupTable = Items<GroupRow>;
