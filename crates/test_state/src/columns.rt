//! Columns with lengths around one vector and two vectors.
ghost use Rattle.std.specs.Prelude.{ℕ, ◌≤◌, All};
ghost use Rattle.lanes.specs.Ages.{MaxAge};

use lanes::{rows_at, rows_of, second};
use std::alloc::{AllocError, Global};
use std::test::*;

const ROWS: usize = 65;

// Lengths around one vector and two vectors.
const LENGTHS: [usize; 6] = [0, 1, 31, 32, 33, 65];

// Returns ages of 10, with 3599 in the last row.
fn ages() -> [u16; ROWS]
    ensures { All (λ age. age ≤ MaxAge) result }
{
    let mut ages = [10; ROWS];
    ages[64] = 3599;
    ages
}

// Returns true if a second brings a column of this length to 11, and its last row to 3600.
fn ages_by_one(length: usize) -> bool {
    let mut ages = ages();
    let column = &mut ages[ROWS.saturating_sub(length)..];
    let came = second(column);
    match column.split_last() {
        None => came == 0,
        Some((last, others)) => came == 1 && *last == 3600 && others.iter().all(|age| *age == 11),
    }
}

// Returns true if the last row of a column of this length is found, and no other.
fn finds_last(alloc: Global, length: usize) -> Result<bool, AllocError> {
    let ages = ages();
    let mut rows = vec![in alloc; 7u32]?;
    rows_at(&ages[ROWS.saturating_sub(length)..], 3599, &mut rows)?;
    Ok(match rows.as_slice() {
        [7] => length == 0,
        [7, last] => *last as usize + 1 == length,
        _ => false,
    })
}

#[test]
fn ages_each_row_at_each_length(rt: HostRuntime) -> Result<(), Fail> {
    assert!(rt; LENGTHS.iter().all(|length| ages_by_one(*length)));
    Ok(())
}

#[test]
fn finds_an_age_at_each_length(rt: HostRuntime) -> Result<(), Fail> {
    for length in LENGTHS {
        assert!(rt; finds_last(rt.alloc(), length)?);
    }
    Ok(())
}

#[test]
fn finds_the_rows_of_a_router(rt: HostRuntime) -> Result<(), Fail> {
    let mut routers = [0x0a00_0001; ROWS];
    for row in [0, 31, 32, 64usize] {
        routers[row] = 0x0a00_0002;
    }
    let mut rows = Vec::new(rt.alloc());
    rows_of(&routers, 0x0a00_0002, &mut rows)?;
    assert_eq!(rt; rows.as_slice(), [0, 31, 32, 64].as_slice());
    Ok(())
}
