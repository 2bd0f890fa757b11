use crate::{Mode, effective_mode};

#[test]
fn modes_at_the_limit(rt: HostRuntime) {
    let cases = [
        (Mode::Force, 0, 2, Mode::Force),
        (Mode::Force, 1, 2, Mode::Force),
        (Mode::Force, 2, 2, Mode::Next),
        (Mode::IfNeeded, 1, 2, Mode::IfNeeded),
        (Mode::IfNeeded, 3, 2, Mode::Next),
        (Mode::Next, 0, 2, Mode::Next),
    ];
    for (mode, count, max, taken) in cases {
        assert_eq!(rt; effective_mode(mode, count, max), taken, "{mode:?} {count}");
    }
}
