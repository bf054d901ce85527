// What is kept of rows.
ghost use Rattle.std.specs.Prelude.{◌≡◌, ◌<◌, ◌≤◌, ◌^◌, IfOk, length, map, sum_by};
ghost use Rattle.std.specs.List.{All, range_with_len};
ghost use Rattle.bolt_base.specs.Keep.{column, keep, last_of, rest_at, same_entry, stored};

use crate::entries::{EntryRow, EntryRows};
use bolt_base::{Lanes, Memory};
use std::alloc::Global;

// The entries of a vertex, row by row.
fn column(alloc: Global, rows: &[EntryRow], v: usize) -> Result<Vec<(Lanes, Lanes)>, Memory>
    requires { All (λ row. v < length row) rows.now }
    ensures { IfOk result (λ entries. entries.items ≡ column rows.now v) }
{
    let mut entries = Vec::new(alloc);
    for row in rows {
        entries.push(row.as_slice()[v])?;
    }
    Ok(entries)
}

// Whether the aggregates and the values are the same.
fn same_entry(a: &(Lanes, Lanes), b: &(Lanes, Lanes)) -> bool
    ensures { result ≡ same_entry a.now b.now }
{
    a.0.same(&b.0) && a.1.same(&b.1)
}

// The least iteration from which on all entries are equal.
fn rest_at(entries: &[(Lanes, Lanes)]) -> usize
    requires { 0 < length entries.now }
    ensures { result ≡ rest_at entries.now }
{
    let last = entries[entries.len() - 1];
    let mut rest = 0;
    for j in 0..entries.len() {
        if !same_entry(&entries[j], &last) {
            rest = j + 1;
        }
    }
    rest
}

// The last iteration that is kept.
fn keep(vertical: bool, entries: &[(Lanes, Lanes)]) -> usize
    requires { 0 < length entries.now }
    ensures { result ≡ keep vertical entries.now }
{
    if vertical {
        rest_at(entries)
    } else {
        entries.len() - 1
    }
}

// The entries that are kept of a vertex.
fn stored(alloc: Global, vertical: bool, entries: &[(Lanes, Lanes)]) -> Result<EntryRow, Memory>
    requires { 0 < length entries.now }
    ensures { IfOk result (λ kept. kept ≡ stored vertical entries.now) }
{
    let most = keep(vertical, entries);
    EntryRow::from_slice(alloc, &entries[1..1 + most])
}

/// What is kept of each of so many vertices in rows, vertex by vertex.
pub fn stored_entries(
    alloc: Global,
    vertical: bool,
    rows: &[EntryRow],
    vertices: u32,
) -> Result<EntryRows, Memory>
    requires some { 0 < length rows.now }
    requires full { All (λ row. length row ≡ vertices) rows.now }
    ensures { IfOk result (λ kept. kept
        ≡ map (λ v. stored vertical (column rows.now v)) (range_with_len 0 vertices)) }
{
    let mut kept = EntryRows::new(alloc);
    for v in 0..vertices {
        let entries = column(alloc, rows, v as usize)?;
        kept.push(stored(alloc, vertical, &entries)?)?;
    }
    Ok(kept)
}

/// The number of entries of all vertices, of which each has at most 64.
pub fn kept_count(kept: &[EntryRow]) -> u64
    requires few { length kept.now < 2 ^ 32 }
    requires short { All (λ entries. length entries ≤ 64) kept.now }
    ensures { result ≡ sum_by (λ entries. length entries) kept.now }
{
    let mut count: u64 = 0;
    for entries in kept {
        count += entries.len() as u64;
    }
    count
}
