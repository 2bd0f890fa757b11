// Federates of other settings than the plain ones, by scripts.
use super::plans::{Row, Set};
use super::runs::{Say, Speech, run, scenario_of};
use super::values::{ALONE, ENTRY, INT, PAIR, Told, tell};
use std::test::Fail;

// Two federates that hear each other.
const BOTH: [Row; 2] = [(INT, &["B/x"]), (INT, &["A/x"])];

// A plan, the settings of its federates, what they say, and what their logs tell.
type Play = (
    &'static [Row],
    &'static [Set],
    &'static [Speech],
    &'static [&'static [Told]],
);

const FIRST: Speech = (
    None,
    &[
        Say::Ask(10),
        Say::Publish(1),
        Say::IfNeeded(20),
        Say::Publish(2),
        Say::IfNeeded(20),
    ],
);

const SECOND: Speech = (
    None,
    &[
        Say::Ask(10),
        Say::IfNeeded(20),
        Say::Publish(7),
        Say::IfNeeded(20),
        Say::IfNeeded(20),
    ],
);

const FIRST_TOLD: &[Told] = &[
    ENTRY,
    (10, 0, &[]),
    (10, 2, &[(1, 0, 0, 7, (10, 2))]),
    (20, 0, &[]),
];

const SENDER: Speech = (None, &[Say::Ask(10), Say::Publish(5)]);

const SENDER_TOLD: &[Told] = &[ENTRY, (10, 0, &[])];

const PLAYS: [Play; 9] = [
    (
        &ALONE,
        &[Set::Grid],
        &[(None, &[Say::Ask(7), Say::Ask(7)])],
        &[&[ENTRY, (7, 0, &[]), (10, 0, &[])]],
    ),
    (
        &ALONE,
        &[Set::Delta],
        &[(None, &[Say::Ask(1), Say::Ask(2)])],
        &[&[ENTRY, (4, 0, &[]), (8, 0, &[])]],
    ),
    // The third iteration is one too many.
    (
        &ALONE,
        &[Set::Iterations(2)],
        &[(
            None,
            &[Say::Ask(10), Say::Force(20), Say::Force(20), Say::Force(20)],
        )],
        &[&[
            ENTRY,
            (10, 0, &[]),
            (10, 1, &[]),
            (10, 2, &[]),
            (20, 0, &[]),
        ]],
    ),
    (
        &PAIR,
        &[Set::Plain, Set::Uninterruptible],
        &[SENDER, (None, &[Say::Ask(100)])],
        &[SENDER_TOLD, &[ENTRY, (100, 0, &[(0, 0, 0, 5, (10, 1))])]],
    ),
    (
        &PAIR,
        &[],
        &[SENDER, (None, &[Say::Ask(10), Say::Ask(20)])],
        &[
            SENDER_TOLD,
            &[ENTRY, (10, 0, &[]), (11, 0, &[(0, 0, 0, 5, (10, 1))])],
        ],
    ),
    (
        &PAIR,
        &[Set::Plain, Set::Wait],
        &[SENDER, (None, &[Say::Ask(10), Say::Ask(20)])],
        &[
            SENDER_TOLD,
            &[ENTRY, (10, 0, &[(0, 0, 0, 5, (10, 1))]), (20, 0, &[])],
        ],
    ),
    (
        &PAIR,
        &[Set::Output, Set::Input],
        &[SENDER, (None, &[Say::Ask(100)])],
        &[SENDER_TOLD, &[ENTRY, (17, 0, &[(0, 0, 0, 5, (17, 0))])]],
    ),
    (
        &BOTH,
        &[],
        &[FIRST, SECOND],
        &[
            FIRST_TOLD,
            &[
                ENTRY,
                (10, 0, &[]),
                (10, 1, &[(0, 0, 0, 1, (10, 1))]),
                (10, 3, &[(0, 1, 0, 2, (10, 3))]),
                (20, 0, &[]),
            ],
        ],
    ),
    (
        &BOTH,
        &[Set::Plain, Set::Iterations(1)],
        &[FIRST, SECOND],
        &[
            FIRST_TOLD,
            &[
                ENTRY,
                (10, 0, &[]),
                (10, 1, &[(0, 0, 0, 1, (10, 1))]),
                (11, 0, &[(0, 1, 0, 2, (10, 3))]),
                (20, 0, &[]),
            ],
        ],
    ),
];

#[test]
fn settings_hold_in_reference_runs(rt: HostRuntime) -> Result<(), Fail> {
    for (rows, sets, speeches, told) in PLAYS {
        let scenario = scenario_of(rt.alloc(), rows, sets, speeches)?;
        tell(&rt, &run(rt.alloc(), scenario)?, told);
    }
    Ok(())
}
