use crate::{HORIZON, MAX, Settings, Stamp, TimeText, parse_time, print_time};
use std::test::Fail;

#[test]
fn next_stamps(rt: HostRuntime) {
    let cases = [
        ((0, 0), (0, 1)),
        ((5, u64::MAX), (6, 0)),
        ((MAX, u64::MAX), (MAX, u64::MAX)),
    ];
    for ((time, micro), (next_time, next_micro)) in cases {
        let next = Stamp { time, micro }.next();
        assert_eq!(rt; (next.time, next.micro), (next_time, next_micro));
    }
}

#[test]
fn bounds_of_settings(rt: HostRuntime) {
    let longest = 1 << 56;
    let past = longest + 1;
    let cases = [
        ([longest, longest, longest, longest, longest], 1, true),
        ([0, 0, 0, 0, 0], 10_000, true),
        ([past, 0, 0, 0, 0], 1, false),
        ([0, past, 0, 0, 0], 1, false),
        ([0, 0, past, 0, 0], 1, false),
        ([0, 0, 0, past, 0], 1, false),
        ([0, 0, 0, 0, past], 1, false),
        ([0, 0, 0, 0, 0], 0, false),
        ([0, 0, 0, 0, 0], 10_001, false),
    ];
    for (times, iterations, fit) in cases {
        let [period, offset, delta, input, output] = times;
        let settings = Settings::of(
            period, offset, delta, input, output, true, false, iterations,
        );
        assert_eq!(rt; settings.is_some(), fit, "{times:?} {iterations}");
    }
}

#[test]
fn lawful_times(rt: HostRuntime) {
    let cases = [
        (0, 0, 5, 5),
        (0, 4, 1, 4),
        (3, 1, 0, 1),
        (3, 1, 1, 1),
        (3, 1, 2, 4),
        (3, 1, 7, 7),
        // 2^62 - 1 is a multiple of 3.
        (3, 1, HORIZON - 3, HORIZON - 3),
        (3, 1, HORIZON - 2, MAX),
        (0, 0, HORIZON + 5, MAX),
    ];
    for (period, offset, from, first) in cases {
        let settings = Settings::of(period, offset, 0, 0, 0, false, false, 50);
        let settings = settings.expect(&rt, "within bounds");
        assert_eq!(rt; settings.up(from), first, "{period} {offset} {from}");
    }
}

#[test]
fn printed_times(rt: HostRuntime) -> Result<(), Fail> {
    let cases = [
        (0, "0.000000000"),
        (7_000_000_050, "7.000000050"),
        (MAX, "9223372036.854775807"),
    ];
    for (time, text) in cases {
        assert_eq!(rt; print_time(rt.alloc(), time)?.as_str(), text);
    }
    Ok(())
}

#[test]
fn read_times(rt: HostRuntime) {
    let cases = [
        ("1.5us", Ok(1_500)),
        ("2", Ok(2_000_000_000)),
        ("007ns", Ok(7)),
        ("3ms", Ok(3_000_000)),
        ("0.5s", Ok(500_000_000)),
        ("1.25  min", Ok(75_000_000_000)),
        ("2h", Ok(7_200_000_000_000)),
        ("5 ", Ok(5_000_000_000)),
        ("1.000ns", Ok(1)),
        ("9223372036.854775807s", Ok(MAX)),
        ("", Err(TimeText::NotANumber)),
        ("abc", Err(TimeText::NotANumber)),
        (" 5s", Err(TimeText::NotANumber)),
        ("-5s", Err(TimeText::NotANumber)),
        (".5s", Err(TimeText::NotANumber)),
        ("5 parsec", Err(TimeText::UnknownUnit)),
        ("5.", Err(TimeText::UnknownUnit)),
        ("5.s", Err(TimeText::UnknownUnit)),
        ("5s ", Err(TimeText::UnknownUnit)),
        ("5\ts", Err(TimeText::UnknownUnit)),
        ("5 S", Err(TimeText::UnknownUnit)),
        ("0.5x", Err(TimeText::UnknownUnit)),
        ("0.5ns", Err(TimeText::NotWhole)),
        ("0.0000000001", Err(TimeText::NotWhole)),
        ("99999999999999999999.5ns", Err(TimeText::NotWhole)),
        ("9223372036.854775808s", Err(TimeText::TooLarge)),
        ("18446744073709551616ns", Err(TimeText::TooLarge)),
        ("5124095577h", Err(TimeText::TooLarge)),
    ];
    for (text, time) in cases {
        assert_eq!(rt; parse_time(text), time, "{text}");
    }
}

#[test]
fn read_long_texts(rt: HostRuntime) -> Result<(), Fail> {
    let cases = [
        ("", b'0', "7ns", Ok(7)),
        ("", b'9', "ns", Err(TimeText::TooLarge)),
        ("7.", b'0', "ns", Ok(7)),
        ("7.", b'9', "h", Err(TimeText::NotWhole)),
        ("7", b' ', "ns", Ok(7)),
        ("7", b'n', "", Err(TimeText::UnknownUnit)),
    ];
    for (front, byte, end, time) in cases {
        let long = String::from_utf8(vec![in rt.alloc(); byte; 2_000_000]?)?;
        let text = format!(in rt.alloc(); "{front}{long}{end}")?;
        assert_eq!(rt; parse_time(text.as_str()), time, "{front} {end}");
    }
    Ok(())
}

#[test]
fn told_refusals(rt: HostRuntime) -> Result<(), Fail> {
    let cases = [
        (TimeText::NotANumber, "NotANumber"),
        (TimeText::UnknownUnit, "UnknownUnit"),
        (TimeText::NotWhole, "NotWhole"),
        (TimeText::TooLarge, "TooLarge"),
    ];
    for (refusal, name) in cases {
        assert_eq!(rt; refusal.to_string(rt.alloc())?.as_str(), name);
    }
    Ok(())
}
