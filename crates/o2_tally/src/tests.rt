// Each call once.
use crate::{Counts, Numbered, add_number, find_number, in_order, later_numbers, put};
use std::collections::BTreeSet;
use std::test::Fail;

#[test]
fn puts_numbers_in_order(rt: HostRuntime) -> Result<(), Fail> {
    let mut numbers = Vec::from_slice(rt.alloc(), &[7, 3, 7, 1])?;
    put(&mut numbers, 3)?;
    let ordered = in_order(numbers);
    assert_eq!(rt; ordered.as_slice(), [1, 3, 7].as_slice());
    Ok(())
}

#[test]
fn finds_a_number(rt: HostRuntime) {
    let numbers = [1, 3, 7];
    assert_eq!(rt; find_number(&numbers, 7), Some(2));
    assert_eq!(rt; find_number(&numbers, 4), None);
}

#[test]
fn counts_numbers(rt: HostRuntime) -> Result<(), Fail> {
    let mut counts = Counts::new(rt.alloc());
    counts.add(5)?;
    counts.add(9)?;
    counts.add(5)?;
    assert_eq!(rt; counts.count(5), 2);
    assert_eq!(rt; counts.count(9), 1);
    assert_eq!(rt; counts.count(6), 0);
    Ok(())
}

#[test]
fn tells_what_comes_again(rt: HostRuntime) -> Result<(), Fail> {
    let alloc = rt.alloc();
    let items = [
        Numbered {
            number: 5,
            place: 10,
        },
        Numbered {
            number: 6,
            place: 11,
        },
        Numbered {
            number: 5,
            place: 12,
        },
    ];
    let again = later_numbers(alloc, &items)?;
    assert_eq!(rt; again.as_slice(), [12].as_slice());
    Ok(())
}

#[test]
fn meets_a_number_once(rt: HostRuntime) -> Result<(), Fail> {
    let mut met = BTreeSet::new(rt.alloc());
    assert!(rt; add_number(&mut met, 4)?);
    assert!(rt; !add_number(&mut met, 4)?);
    Ok(())
}
