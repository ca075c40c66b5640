//! Rows of up to five elements: each place is changed once, by a call with its own number.
use crate::for_each_mut;
use std::test::*;

// How many of the first elements are a row, and what is there when each has had a call that adds its number, from 1.
const ROWS: [(usize, [u64; 5]); 6] = [
    (0, [10, 20, 30, 40, 50]),
    (1, [11, 20, 30, 40, 50]),
    (2, [11, 22, 30, 40, 50]),
    (3, [11, 22, 33, 40, 50]),
    (4, [11, 22, 33, 44, 50]),
    (5, [11, 22, 33, 44, 55]),
];

#[test]
fn each_place_has_its_call(rt: HostRuntime) -> Result<(), Fail> {
    for (length, want) in ROWS {
        let mut numbers = [10u64, 20, 30, 40, 50];
        for_each_mut(
            &rt,
            &mut numbers[..length],
            &|i, number| {
                *number = number.wrapping_add(i as u64).wrapping_add(1);
            },
        );
        assert_eq!(rt; numbers, want, "the first {length}");
    }
    Ok(())
}
