ghost use Rattle.std.specs.Prelude.{◌≡◌, ◌≤◌, ◌<◌, ◌↔◌, ◌≢◌, ℕ, Bool, true, false, length, slice_index_or, IfOk};
ghost use Rattle.std.specs.List.Sorted.{IsStrictlyIncreasing};
ghost use Rattle.hel_lists.specs.Members.{IsIn};
ghost use Rattle.dependency_paths.specs.Links.{linked, most_federates};
ghost use Rattle.dependency_paths.specs.Paths.{row_of};

use crate::links::Row;
use hel_lists::{Copied, Items, OutOfMemory};
use std::alloc::Global;
use std::marker::Model;

/// The ancestors of each federate: contracts see the list of their rows.
#[derive(Debug, Drop)]
pub struct Ancestors {
    rows: Items<Items<u16>>,
}

impl Model for Ancestors {
    ghost use Rattle.std.specs.Prelude.{List, ℕ};

    ghost Value = { List (List ℕ) };

    ghost view = { λ ancestors. ancestors.rows };
}

impl Ancestors {
    /// The number of federates.
    pub fn count(&self) -> usize
        ensures { result ≡ length self.now }
    {
        self.rows.len()
    }

    /// The ancestors of a federate, in ascending order.
    pub fn of(&self, f: u16) -> &[u16]
        requires { f < length self.now }
        ensures { result.now ≡ row_of self.now f }
    {
        self.rows.at(f as usize).as_slice()
    }
}

impl Copied for Ancestors {
    fn copy(&self, alloc: Global) -> Result<Self, OutOfMemory> {
        Ok(Ancestors {
            rows: self.rows.copy(alloc)?,
        })
    }
}

// The rows of ancestors, from a closed table.
pub(crate) fn ancestors_of(alloc: Global, table: &[Row]) -> Result<Ancestors, OutOfMemory>
    requires { length table.now ≤ most_federates }
    ensures count { IfOk result (λ rows. length rows ≡ length table.now) }
    ensures rises { IfOk result (λ rows. (f : ℕ) → IsStrictlyIncreasing (row_of rows f)) }
    ensures exact { IfOk result (λ rows. (a f : ℕ) → IsIn a (row_of rows f) ↔ ((a ≢ f) × (linked table.now a f ≡ true))) }
{
    let mut rows = Items::new(alloc);
    for (f, row) in table.iter().enumerate() {
        rows.push(numbers_in(alloc, row, f)?)?;
    }
    Ok(Ancestors { rows })
}

// The numbers that a row holds, but for one.
fn numbers_in(alloc: Global, row: &Row, but: usize) -> Result<Items<u16>, OutOfMemory>
    ensures rises { IfOk result (λ numbers. IsStrictlyIncreasing numbers) }
    ensures exact { IfOk result (λ numbers. (a : ℕ) → IsIn a numbers ↔ ((a ≢ but) × (slice_index_or row.now a false ≡ true))) }
{
    let mut numbers = Items::new(alloc);
    for (number, leads) in row.iter().enumerate() {
        if *leads && number != but {
            numbers.push(number as u16)?;
        }
    }
    Ok(numbers)
}
