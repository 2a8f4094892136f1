//! The rows at which a column has a value.
ghost use Rattle.std.specs.Prelude.{◌≡◌, ℕ, ◌+◌, ◌≤◌, ◌^◌, length, take, vec_len, OnOk, OnErr};
ghost use Rattle.lanes.specs.Rows.{AddsRows, places_by, places_of, rows_by};

use crate::lane::{LANES, Lane};
use std::alloc::AllocError;

/// Appends the rows with this age (in seconds), in ascending order.
///
/// # Errors
///
/// Returns `AllocError` if memory runs out. No row is appended then.
pub fn rows_at(ages: &[u16], age: u16, rows: &mut Vec<u32>) -> Result<(), AllocError>
    requires { length ages.now ≤ 2 ^ 32 }
    ensures found { OnOk result (AddsRows rows.old rows.new (places_of age ages.now)) }
    ensures unchanged { OnErr result (rows.new.items ≡ rows.old.items) }
{
    append_all_or_none(ages, age, rows)
}

/// Appends the rows with this Advertising Router (in host order), in ascending order.
///
/// # Errors
///
/// Returns `AllocError` if memory runs out. No row is appended then.
pub fn rows_of(routers: &[u32], router: u32, rows: &mut Vec<u32>) -> Result<(), AllocError>
    requires { length routers.now ≤ 2 ^ 32 }
    ensures found { OnOk result (AddsRows rows.old rows.new (places_of router routers.now)) }
    ensures unchanged { OnErr result (rows.new.items ≡ rows.old.items) }
{
    append_all_or_none(routers, router, rows)
}

// Appends all rows with the value, or no row if memory runs out.
fn append_all_or_none<T: Lane>(
    column: &[T],
    value: T,
    rows: &mut Vec<u32>,
) -> Result<(), AllocError>
    requires { length column.now ≤ 2 ^ 32 }
    ensures found { OnOk result (AddsRows rows.old rows.new (places_by T.eq value column.now)) }
    ensures unchanged { OnErr result (rows.new.items ≡ rows.old.items) }
{
    let before = rows.len();
    let found = append(column, value, rows);
    if found.is_err() {
        rows.truncate(before);
    }
    found
}

// Appends the rows with the value until memory runs out. A vector without the value is skipped as a
// whole.
fn append<T: Lane>(column: &[T], value: T, rows: &mut Vec<u32>) -> Result<(), AllocError>
    requires { length column.now ≤ 2 ^ 32 }
    ensures found { OnOk result (AddsRows rows.old rows.new (places_by T.eq value column.now)) }
    ensures kept { OnErr result (take (vec_len rows.old) rows.new.items ≡ rows.old.items) }
{
    let mut first = 0;
    while LANES <= column.len() - first {
        let chunk = &column[first..first + LANES];
        if T::is_among(chunk, value) {
            append_one_by_one(chunk, first, value, rows)?;
        }
        first += LANES;
    }
    append_one_by_one(&column[first..], first, value, rows)
}

// Appends the rows with the value, one row at a time. The first row has the number `first`.
fn append_one_by_one<T: PartialEq + Copy>(
    column: &[T],
    first: usize,
    value: T,
    rows: &mut Vec<u32>,
) -> Result<(), AllocError>
    requires { first + length column.now ≤ 2 ^ 32 }
    ensures found { OnOk result (AddsRows rows.old rows.new (rows_by T.eq value first column.now)) }
    ensures kept { OnErr result (take (vec_len rows.old) rows.new.items ≡ rows.old.items) }
{
    for (place, at) in column.iter().enumerate() {
        if *at == value {
            rows.push((first + place) as u32)?;
        }
    }
    Ok(())
}
