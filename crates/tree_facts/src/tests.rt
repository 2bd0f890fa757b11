use crate::{Hop, is_tree, next_hop};

// The first hop, where there is such a tree.
fn hop(parents: &[u16], from: u16, to: u16) -> Option<Hop> {
    if is_tree(parents) && (to as usize) < parents.len() {
        Some(next_hop(parents, from, to))
    } else {
        None
    }
}

#[test]
fn hops_through_a_tree(rt: HostRuntime) {
    // 0 is over 1 and 2, 1 over 3 and 4, and 4 over 5
    let parents = [0, 0, 0, 1, 1, 4];
    for (from, to, wanted) in [
        (0, 0, Hop::Here),
        (0, 1, Hop::Child(1)),
        (0, 2, Hop::Child(2)),
        (0, 5, Hop::Child(1)),
        (1, 0, Hop::Up),
        (1, 2, Hop::Up),
        (1, 3, Hop::Child(3)),
        (1, 5, Hop::Child(4)),
        (2, 5, Hop::Up),
        (4, 3, Hop::Up),
        (4, 5, Hop::Child(5)),
        (5, 5, Hop::Here),
        (5, 0, Hop::Up),
    ] {
        assert_eq!(rt; hop(&parents, from, to), Some(wanted), "{from} {to}");
    }
}

#[test]
fn parents_of_trees(rt: HostRuntime) {
    let table: [(&[u16], bool); 8] = [
        (&[], true),
        (&[0], true),
        (&[1], false),
        (&[0, 0, 1, 2], true),
        (&[0, 1], false),
        (&[0, 0, 2], false),
        (&[0, 2, 0], false),
        (&[1, 0], false),
    ];
    for (parents, wanted) in table {
        assert_eq!(rt; is_tree(parents), wanted, "{parents:?}");
    }
}
