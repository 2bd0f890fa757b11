use super::*;
use crate::filter::message_word;
use hel_values::EndRef;
use std::test::Fail;

const HERE: EndRef = EndRef { fed: 1, index: 0 };

const THERE: EndRef = EndRef { fed: 2, index: 7 };

fn delay(nanoseconds: u64) -> Result<Filter, Fail> {
    Ok(Filter::Delay(FilterDelay::of(nanoseconds).ok_or("delay")?))
}

fn drop(parts: u32) -> Result<Filter, Fail> {
    Ok(Filter::Drop {
        per_million: PerMillion::of(parts).ok_or("chance")?,
        seed: 0,
    })
}

// What the chain of these filters makes of message 0 of federate 0 to `HERE`.
fn filtered(filters: &[&Filter]) -> Result<Filtered, Fail> {
    let mut chain = Chain::new();
    for filter in filters {
        chain.push(**filter).ok().ok_or("full")?;
    }
    Ok(chain.run(0, 0, HERE))
}

#[test]
fn words_are_the_published_ones(rt: HostRuntime) {
    // seed, source, sequence number, word
    let table = [
        (0, 0, 0, 16_294_208_416_658_607_535),
        (1_234_567, 0, 0, 6_457_827_717_110_365_317),
        (1_234_560, 0, 7, 6_457_827_717_110_365_317),
        (u64::MAX, 0, 1, 16_294_208_416_658_607_535),
        (u64::MAX - (1 << 32), 1, 1, 16_294_208_416_658_607_535),
    ];
    for (seed, source, sequence, word) in table {
        assert_eq!(rt;
            message_word(seed, source, sequence),
            word,
            "{seed} {source} {sequence}"
        );
    }
}

#[test]
fn limits_are_met_and_not_passed(rt: HostRuntime) -> Result<(), Fail> {
    assert!(rt; FilterDelay::of(1 << 56).is_some() && FilterDelay::of((1 << 56) + 1).is_none());
    assert!(rt; PerMillion::of(1_000_000).is_some() && PerMillion::of(1_000_001).is_none());
    let mut chain = Chain::new();
    for place in 0..9 {
        let pushed = chain.push(delay(1)?);
        assert!(rt; pushed.is_ok() == (place < 8), "{place}");
    }
    assert_eq!(rt;
        chain.run(0, 0, HERE),
        Filtered::Kept {
            dest: HERE,
            delay: 8
        }
    );
    Ok(())
}

#[test]
fn chains_in_every_order(rt: HostRuntime) -> Result<(), Fail> {
    let (late, longest) = (&delay(4)?, &delay(1 << 56)?);
    let (away, back) = (&Filter::Reroute(THERE), &Filter::Reroute(HERE));
    let (never, always) = (&drop(0)?, &drop(1_000_000)?);
    let (below, above) = (&drop(607_535)?, &drop(607_536)?);
    for (filters, dest, delay) in [
        ([late, away, never], THERE, 4),
        ([late, never, away], THERE, 4),
        ([away, late, never], THERE, 4),
        ([away, never, late], THERE, 4),
        ([never, late, away], THERE, 4),
        ([never, away, late], THERE, 4),
        ([below, late, longest], HERE, (1 << 56) + 4),
        ([away, late, back], HERE, 4),
        ([back, never, away], THERE, 0),
    ] {
        assert_eq!(rt; filtered(&filters)?, Filtered::Kept { dest, delay });
    }
    for (filters, place) in [
        ([late, away, always], 2),
        ([late, always, away], 1),
        ([away, late, always], 2),
        ([away, always, late], 1),
        ([always, late, away], 0),
        ([always, away, late], 0),
        ([late, above, always], 1),
    ] {
        assert_eq!(rt; filtered(&filters)?, Filtered::Dropped { place });
    }
    Ok(())
}
