// Three leaves under one inner block.
use crate::{eb_next, last_leaf};
use o2_extent::ListBlock;
use o2_ondisk::{ExtentBlock, read_extent_block};
use std::test::Fail;

// An extent block of this depth, which names this one as the next leaf.
fn row(block: u64, depth: u16, next_leaf_blk: u64) -> ListBlock {
    ListBlock {
        block,
        fields: ExtentBlock {
            next_leaf_blk,
            ..read_extent_block(&[0; 64])
        },
        depth,
    }
}

#[test]
fn tells_leaves_that_name_another_block(rt: HostRuntime) -> Result<(), Fail> {
    let blocks = [row(40, 1, 9), row(41, 0, 42), row(42, 0, 41), row(43, 0, 0)];
    let found = eb_next(rt.alloc(), &blocks)?;
    assert_eq!(rt; found.as_slice(), [42].as_slice());
    assert_eq!(rt; last_leaf(&blocks), 43);
    assert_eq!(rt; last_leaf(&[row(40, 1, 0)]), 0);
    Ok(())
}
