// Items that come again.
ghost use Rattle.std.specs.Prelude.{◌≡◌, ◌==◌, false, map, IfOk};
ghost use Rattle.o2_model.specs.Orders.{rising, later_like};
ghost use Rattle.o2_tally.specs.Again.{those_again};

use crate::list::put;
use crate::met::add_number;
use o2_disk::NoMemory;
use std::alloc::Global;
use std::collections::BTreeSet;

/// A number, and the place that is told where the number comes again.
#[derive(Clone, Copy, Debug, PartialEq, Eq)]
pub struct Numbered {
    /// What items are compared by.
    pub number: u64,
    /// What tells the item, as its block.
    pub place: u64,
}

/// The places of the items whose number an earlier item has, in their order. NoMemory where memory runs out.
pub fn later_numbers(alloc: Global, items: &[Numbered]) -> Result<Vec<u64>, NoMemory>
    ensures told { IfOk result (λ places. places.items ≡ map (λ x. x.place) (those_again (λ x y. x.number == y.number) (λ x. false) items.now)) }
    ensures later { IfOk result (λ places. rising places.items ≡ rising (map (λ x. x.place) (later_like (λ x y. x.number == y.number) items.now))) }
{
    let mut met = BTreeSet::new(alloc);
    let mut again = Vec::new(alloc);
    for item in items {
        if !add_number(&mut met, item.number)? {
            put(&mut again, item.place)?;
        }
    }
    Ok(again)
}
