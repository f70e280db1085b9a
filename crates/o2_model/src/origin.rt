// Where blocks are from.

/// What a structure says of where its block is from.
#[derive(Clone, Copy, Debug, PartialEq, Eq)]
pub struct Origin {
    /// The slot of an allocator, 65535 for one of no slot.
    pub slot: u16,
    /// The block's bit in its group.
    pub bit: u16,
    /// The block of the group, or 0.
    pub loc: u64,
}
