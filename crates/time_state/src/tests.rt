use crate::{Cause, FedTime, Phase, TimeRefusal};
use helics_time::{MAX, Settings, Stamp};
use iteration_rules::{Kind, Mode};
use std::process::Abort;

// The next grant, where no item waits.
fn granted(rt: &impl Abort, fed: &mut FedTime) -> (u64, u64, Kind) {
    assert!(rt; fed.phase().is_asking());
    let grant = fed.grant(None);
    (grant.time, grant.micro, grant.kind)
}

// A federate that was granted its entry.
fn entered(rt: &impl Abort, settings: Option<Settings>) -> FedTime {
    let mut fed = FedTime::new(settings.expect(rt, "within bounds"));
    assert_eq!(rt; fed.enter(), Err(TimeRefusal::WrongPhase(Phase::Created)));
    assert_eq!(rt; fed.phase(), Phase::Created);
    fed.begin();
    assert_eq!(rt; fed.enter(), Ok(()));
    assert_eq!(rt; granted(rt, &mut fed), (0, 1, Kind::NextStep));
    fed
}

#[test]
fn grants(rt: HostRuntime) {
    let next = (Mode::Next, Kind::NextStep);
    let force = (Mode::Force, Kind::Iterating);
    let cases = [
        // period, offset, time_delta, max_iterations; then asked, granted time and micro
        (
            (3, 1, 0, 50),
            [(7, 7, 0, next), (7, 10, 0, next), (12, 13, 0, next)],
        ),
        (
            (0, 0, 4, 50),
            [(1, 4, 0, next), (2, 8, 0, next), (20, 20, 0, next)],
        ),
        (
            (0, 0, 0, 2),
            [
                (9, 0, 2, force),
                (9, 0, 3, force),
                (9, 9, 0, (Mode::Force, Kind::NextStep)),
            ],
        ),
    ];
    for ((period, offset, time_delta, most), requests) in cases {
        let settings = Settings::of(period, offset, time_delta, 0, 0, false, false, most);
        let mut fed = entered(&rt, settings);
        for (asked, time, micro, (mode, kind)) in requests {
            assert_eq!(rt; fed.request(asked, mode), Ok(()));
            assert_eq!(rt;
                granted(&rt, &mut fed),
                (time, micro, kind),
                "asked for {asked}"
            );
        }
    }
}

#[test]
fn refusals(rt: HostRuntime) {
    let mut fed = entered(&rt, Settings::of(0, 0, 0, 0, 0, false, false, 50));
    assert_eq!(rt; fed.request(MAX, Mode::Next), Ok(()));
    assert_eq!(rt;
        fed.request(7, Mode::Next),
        Err(TimeRefusal::WrongPhase(Phase::Waiting))
    );
    assert_eq!(rt; granted(&rt, &mut fed), (MAX, 0, Kind::NextStep));
    assert_eq!(rt;
        fed.request(MAX, Mode::Force),
        Err(TimeRefusal::PastHorizon)
    );
    assert!(rt; fed.phase().is_live());
    fed.end(Cause::Failed, None);
    assert_eq!(rt;
        fed.request(7, Mode::Next),
        Err(TimeRefusal::Ended(Cause::Failed))
    );
    assert_eq!(rt; fed.event(None).time, MAX);
}

#[test]
fn items(rt: HostRuntime) {
    let cases = [
        // uninterruptible, wait, asked, mode; then the event and the cut, where an item is due at (10, 3)
        (false, false, 100, Mode::Next, (10, 3), (10, 3)),
        (false, true, 100, Mode::Next, (10, 3), (10, 4)),
        (true, false, 100, Mode::Next, (100, 0), (100, 0)),
        (false, false, 5, Mode::Next, (5, 0), (5, 0)),
        (false, true, 100, Mode::Force, (0, 2), (0, 2)),
    ];
    for (uninterruptible, wait, asked, mode, event, cut) in cases {
        let mut fed = entered(&rt, Settings::of(0, 0, 0, 0, 0, uninterruptible, wait, 50));
        assert_eq!(rt; fed.request(asked, mode), Ok(()));
        let acts = fed.event(Some(Stamp { time: 10, micro: 3 }));
        assert_eq!(rt; (acts.time, acts.micro), event, "asked for {asked}");
        let handed = fed.cut_at(acts);
        assert_eq!(rt; (handed.time, handed.micro), cut, "asked for {asked}");
    }
}
