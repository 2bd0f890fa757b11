ghost use Rattle.std.specs.Prelude.{◌≡◌, ◌≤◌, ◌<◌, ◌↔◌, ℕ, Bool, true, false, ◌==◌, ◌&&◌, ◌||◌, length, slice_index_or, IfOk};
ghost use Rattle.dependency_paths.specs.Links.{linked, most_federates};
ghost use Rattle.dependency_paths.specs.Paths.{Leads, AreAncestors};

use crate::ancestors::{Ancestors, ancestors_of};
use hel_lists::OutOfMemory;
use std::alloc::Global;
use std::marker::Model;

/// The most federates of a federation.
pub const FEDERATE_LIMIT: usize = 512;

/// For each number whether a link leads from there.
pub(crate) type Row = [bool; FEDERATE_LIMIT];

/// Links between numbered federates. Contracts see them as a table: `linked links a b` says that a
/// link leads from `a` to `b`.
#[derive(Debug, Drop)]
pub struct Links {
    rows: Vec<Row>,
}

impl Model for Links {
    ghost use Rattle.std.specs.Prelude.{Bool, List};
    ghost use Rattle.dependency_paths.specs.Links.{AreLinks};

    ghost Value = { List (List Bool) };

    ghost view = { λ links. links.rows.items };

    ghost invariant = { λ links. AreLinks links.rows.items };
}

impl Links {
    /// No links between so many federates.
    pub fn new(alloc: Global, count: u16) -> Result<Links, OutOfMemory>
        requires { count ≤ most_federates }
        ensures count { IfOk result (λ links. length links ≡ count) }
        ensures links { IfOk result (λ links. (a b : ℕ) → linked links a b ≡ false) }
    {
        let mut rows = Vec::with_capacity(alloc, count as usize)?;
        for _ in 0..count {
            rows.push([false; FEDERATE_LIMIT])?;
        }
        Ok(Links { rows })
    }

    /// The number of federates.
    pub fn count(&self) -> usize
        ensures { result ≡ length self.now }
    {
        self.rows.len()
    }

    /// Puts a link in, where there is none yet.
    pub fn link(&mut self, from: u16, to: u16)
        requires from { from < length self.old }
        requires to { to < length self.old }
        ensures count { length self.new ≡ length self.old }
        ensures links { (a b : ℕ) → linked self.new a b ≡ (linked self.old a b || (a == from && b == to)) }
    {
        let row = &mut self.rows[to as usize];
        row[from as usize] = true;
    }

    /// The ancestors of each federate (docs/RULES.md, Dependencies).
    pub fn close(self, alloc: Global) -> Result<Ancestors, OutOfMemory>
        ensures { IfOk result (λ ancestors. AreAncestors (length self) (linked self) ancestors) }
    {
        let Links { rows } = self;
        let mut rows = rows;
        let table = rows.as_mut_slice();
        close_rows(table);
        let ancestors = ancestors_of(alloc, table)?;
        Ok(ancestors)
    }
}

// Links each federate to all to which a path leads from it.
fn close_rows(rows: &mut [Row])
    requires { length rows.old ≤ most_federates }
    ensures count { length rows.new ≡ length rows.old }
    ensures paths { (a b : ℕ) → (linked rows.new a b ≡ true) ↔ Leads (linked rows.old) a b }
{
    for via in 0..rows.len() {
        pass(rows, via);
    }
}

// Links each federate that is linked to this one to all to which this one is linked.
fn pass(rows: &mut [Row], via: usize)
    requires within { via < length rows.old }
    requires few { length rows.old ≤ most_federates }
    ensures count { length rows.new ≡ length rows.old }
    ensures links { (a b : ℕ) → linked rows.new a b ≡ (linked rows.old a b || (linked rows.old via b && linked rows.old a via)) }
{
    let before = rows[via];
    for row in rows.iter_mut() {
        if row[via] {
            add(row, &before);
        }
    }
}

// Adds what another row says to a row.
fn add(row: &mut Row, other: &Row)
    ensures { (a : ℕ) → slice_index_or row.new a false ≡ (slice_index_or row.old a false || slice_index_or other.now a false) }
{
    for (number, here) in row.iter_mut().enumerate() {
        *here |= other[number];
    }
}
