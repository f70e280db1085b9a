// Allocators, with their chains.
use o2_model::{Allocator, Items};
use o2_ondisk::ChainRec;

/// An allocator, and what its dinode says.
#[derive(Debug, Drop)]
pub struct AllocatorRow {
    pub allocator: Allocator,
    /// `i_used`: how many of its bits are set.
    pub used: u32,
    /// `i_total`: how many bits it has.
    pub total: u32,
    /// Whether the header of its chain list is well formed.
    pub has_sound_header: bool,
    /// The records of its chains, none where that header is not well formed.
    pub chains: Items<ChainRec>,
}

/// The allocators in their order.
pub type AllocatorTable = Items<AllocatorRow>;
