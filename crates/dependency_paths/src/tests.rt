ghost use Rattle.std.specs.Prelude.{◌≤◌};

use crate::{Ancestors, Links};
use hel_lists::Copied;
use std::alloc::Global;
use std::test::Fail;

// The ancestors along these links.
fn ancestors(alloc: Global, count: u16, pairs: &[(u16, u16)]) -> Result<Ancestors, Fail>
    requires { count ≤ 512 }
{
    let mut links = Links::new(alloc, count)?;
    for (from, to) in pairs {
        if (*from as usize) < links.count() && (*to as usize) < links.count() {
            links.link(*from, *to);
        }
    }
    Ok(links.close(alloc)?)
}

// Whether these are the ancestors of a federate.
fn is_row(ancestors: &Ancestors, f: u16, row: &[u16]) -> bool {
    (f as usize) < ancestors.count() && ancestors.of(f) == row
}

#[test]
fn paths_of_four(rt: HostRuntime) -> Result<(), Fail> {
    // links, and the ancestors of each
    let table: [(&[(u16, u16)], [&[u16]; 4]); 8] = [
        (&[], [&[], &[], &[], &[]]),
        // a chain, upward and downward
        (&[(0, 1), (1, 2), (2, 3)], [&[], &[0], &[0, 1], &[0, 1, 2]]),
        (&[(3, 2), (2, 1), (1, 0)], [&[1, 2, 3], &[2, 3], &[3], &[]]),
        // a diamond
        (
            &[(0, 1), (0, 2), (1, 3), (2, 3)],
            [&[], &[0], &[0], &[0, 1, 2]],
        ),
        // a cycle, and one that it leads to
        (
            &[(0, 1), (1, 2), (2, 0), (2, 3)],
            [&[1, 2], &[0, 2], &[0, 1], &[0, 1, 2]],
        ),
        // a link to itself
        (&[(1, 1), (1, 2)], [&[], &[], &[1], &[]]),
        // one leads to many
        (&[(2, 0), (2, 1), (2, 3), (2, 0)], [&[2], &[2], &[], &[2]]),
        // many lead to one
        (&[(3, 1), (0, 1), (2, 1)], [&[], &[0, 2, 3], &[], &[]]),
    ];
    for (pairs, rows) in table {
        let ancestors = ancestors(rt.alloc(), 4, pairs)?;
        let copy = ancestors.copy(rt.alloc())?;
        for (f, row) in rows.iter().enumerate() {
            assert!(rt; is_row(&ancestors, f as u16, row), "{pairs:?} {f}");
            assert!(rt; is_row(&copy, f as u16, row), "{pairs:?} {f}");
        }
    }
    Ok(())
}

#[test]
fn one_federate(rt: HostRuntime) -> Result<(), Fail> {
    assert!(rt; is_row(&ancestors(rt.alloc(), 1, &[])?, 0, &[]));
    assert!(rt; is_row(&ancestors(rt.alloc(), 1, &[(0, 0)])?, 0, &[]));
    Ok(())
}

#[test]
fn five_hundred_and_twelve(rt: HostRuntime) -> Result<(), Fail> {
    let mut pairs = Vec::new(rt.alloc());
    for f in 0..511u16 {
        pairs.push((f + 1, f))?;
    }
    let ancestors = ancestors(rt.alloc(), 512, &pairs)?;
    assert_eq!(rt; ancestors.count(), 512);
    assert!(rt; is_row(&ancestors, 511, &[]));
    assert!(rt; is_row(&ancestors, 508, &[509, 510, 511]));
    assert!(rt; ancestors.count() > 0 && ancestors.of(0).len() == 511);
    Ok(())
}
