//! A hash table of pages by number, as the finite map that it stands for.
ghost use Rattle.std.specs.Prelude.{◌≡◌, ◌+◌, ◌<◌, ◌≤◌, length, IfOk, IsSomeAnd, OnOk, nat_le};
ghost use Rattle.std.specs.Option.{option_copied};
ghost use Rattle.std.specs.HashMap.{spare};
ghost use Rattle.std.specs.FinMap as map;
ghost use Rattle.lf_sqlite_pages.specs.Table.{map_of};

use crate::page::Page;
use lf_base::NoMemory;
use std::alloc::Global;
use std::collections::HashMap;

pub type Table = HashMap<u32, Page>;

/// The bytes of page `n`, if it is there.
pub fn page_at(table: &Table, n: u32) -> Option<&[u8]>
    ensures { option_copied result ≡ map.get (map_of table.now.entries) n }
{
    match table.get(&n) {
        Some(page) => Some(page.as_slice()),
        None => None,
    }
}

/// How many pages there are.
pub fn len(table: &Table) -> usize
    ensures { result ≡ map.len (map_of table.now.entries) }
{
    table.len()
}

/// Reserves room for `count` more pages.
pub fn reserve(table: &mut Table, count: usize) -> Result<(), NoMemory>
    ensures pages { map_of table.new.entries ≡ map_of table.old.entries }
    ensures room { OnOk result (count ≤ spare table.new) }
    ensures spare { spare table.old ≤ spare table.new }
{
    table.reserve(count)?;
    Ok(())
}

/// Writes over the page that stands at `n`.
pub fn write_over(table: &mut Table, n: u32, page: &[u8])
    requires { IsSomeAnd (map.get (map_of table.old.entries) n) (λ standing. length page.now ≡ length standing) }
    ensures pages { map_of table.new.entries ≡ map.insert (map_of table.old.entries) n page.now }
    ensures spare { spare table.old ≤ spare table.new }
{
    if let Some(standing) = table.get_mut(&n) {
        standing.overwrite(page);
    }
}

/// Puts a page at `n`, for which there is room.
pub fn put(table: &mut Table, n: u32, page: Page)
    requires { 0 < spare table.old }
    ensures pages { map_of table.new.entries ≡ map.insert (map_of table.old.entries) n page }
    ensures spare { spare table.old ≤ spare table.new + 1 }
{
    // There is room, so it is never refused. What stood there is dropped.
    let put: Result<_, _> = table.insert(n, page);
    put.unwrap();
}

/// Drops the page at `n`, where there is one.
pub fn remove(table: &mut Table, n: u32)
    ensures pages { map_of table.new.entries ≡ map.remove (map_of table.old.entries) n }
    ensures spare { spare table.old ≤ spare table.new }
{
    table.remove(&n);
}

/// The numbers of the pages, in ascending order.
pub fn numbers(alloc: Global, table: &Table) -> Result<Vec<u32>, NoMemory>
    ensures { IfOk result (λ numbers. numbers.items ≡ map.keys (map_of table.now.entries)) }
{
    let mut numbers = Vec::new(alloc);
    for n in table.keys() {
        numbers.push(*n)?;
    }
    numbers.sort_unstable();
    Ok(numbers)
}

/// Drops the pages past `count`.
pub fn cut(table: &mut Table, count: u32)
    ensures pages { map_of table.new.entries ≡ map.retain_keys (map_of table.old.entries) (λ n. nat_le n count) }
    ensures spare { spare table.old ≤ spare table.new }
{
    table.retain(|n, _page| *n <= count);
}
