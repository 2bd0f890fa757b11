use hel_lists::Text;
use json_reading::{
    AnyInteger, AnyText, ConfigRefusal, ListOf, ListUpTo, TextOrTexts, TextUpTo, TimeUpTo,
    TrueOrFalse, WholeBetween, as_object, flag, has_doubled, integer, member, members, needed,
    needed_either, optional, optional_either, parse, same_key, text, time, whole,
};
use serde_json::Value;
use std::alloc::Global;
use std::test::Fail;

fn json(alloc: Global, file: &str) -> Result<Value, Fail> {
    Ok(parse(alloc, file.as_bytes())?.ok_or("a JSON value")?)
}

// A value, and what it is as a text, as true or false, as a time of at most 9 s, as an integer from
// 1 to 10, and as an integer.
const LEAVES: [(&str, &str); 17] = [
    (
        "null",
        "Err(NotAText) Err(NotABool) Err(NotATime) Err(NotANumber) Err(NotANumber)",
    ),
    (
        "true",
        "Err(NotAText) Ok(true) Err(NotATime) Err(NotANumber) Err(NotANumber)",
    ),
    (
        r#""5ms""#,
        r#"Ok("5ms") Err(NotABool) Ok(5000000) Err(NotANumber) Err(NotANumber)"#,
    ),
    (
        r#""5 parsec""#,
        r#"Ok("5 parsec") Err(NotABool) Err(Time(UnknownUnit)) Err(NotANumber) Err(NotANumber)"#,
    ),
    (
        r#""9.1s""#,
        r#"Ok("9.1s") Err(NotABool) Err(OutOfRange) Err(NotANumber) Err(NotANumber)"#,
    ),
    (
        "0",
        "Err(NotAText) Err(NotABool) Ok(0) Err(OutOfRange) Ok(0)",
    ),
    (
        "1",
        "Err(NotAText) Err(NotABool) Ok(1000000000) Ok(1) Ok(1)",
    ),
    (
        "9",
        "Err(NotAText) Err(NotABool) Ok(9000000000) Ok(9) Ok(9)",
    ),
    (
        "10",
        "Err(NotAText) Err(NotABool) Err(OutOfRange) Ok(10) Ok(10)",
    ),
    (
        "11",
        "Err(NotAText) Err(NotABool) Err(OutOfRange) Err(OutOfRange) Ok(11)",
    ),
    (
        "18446744073709551615",
        "Err(NotAText) Err(NotABool) Err(OutOfRange) Err(OutOfRange) Err(OutOfRange)",
    ),
    (
        "18446744073709551616",
        "Err(NotAText) Err(NotABool) Err(NotATime) Err(NotANumber) Err(NotANumber)",
    ),
    (
        "-9223372036854775808",
        "Err(NotAText) Err(NotABool) Err(NotATime) Err(OutOfRange) Ok(-9223372036854775808)",
    ),
    (
        "-0",
        "Err(NotAText) Err(NotABool) Err(NotATime) Err(NotANumber) Err(NotANumber)",
    ),
    (
        "1e2",
        "Err(NotAText) Err(NotABool) Err(NotATime) Err(NotANumber) Err(NotANumber)",
    ),
    (
        "[]",
        "Err(NotAText) Err(NotABool) Err(NotATime) Err(NotANumber) Err(NotANumber)",
    ),
    (
        "{}",
        "Err(NotAText) Err(NotABool) Err(NotATime) Err(NotANumber) Err(NotANumber)",
    ),
];

#[test]
fn what_a_value_holds(rt: HostRuntime) -> Result<(), Fail> {
    for (file, told) in LEAVES {
        let value = json(rt.alloc(), file)?;
        let answer = format!(in rt.alloc();
            "{:?} {:?} {:?} {:?} {:?}",
            text(&value),
            flag(&value),
            time(&value, 9_000_000_000),
            whole(&value, 1, 10),
            integer(&value)
        )?;
        assert_eq!(rt; answer.as_str(), told, "{file}");
    }
    Ok(())
}

// A key as it is spelled, whether it stands for `sourcetargets`, and whether it does so in an object
// that has `source_targets` too, so that it is doubled.
const SPELLINGS: [(&str, bool); 9] = [
    ("sourcetargets", true),
    ("sourceTargets", true),
    ("__SOURCE_targets_", true),
    ("source-targets", false),
    ("source targets", false),
    ("sourcetarget", false),
    ("sourcetargetss", false),
    ("", false),
    ("ſourcetargets", false),
];

#[test]
fn keys(rt: HostRuntime) -> Result<(), Fail> {
    for (spelled, same) in SPELLINGS {
        assert_eq!(rt; same_key(spelled, "sourcetargets"), same, "{spelled}");
        let file = format!(in rt.alloc();
            "{{\"{spelled}\":1,\"source_targets\":2,\"x\":3,\"X\":4}}"
        )?;
        let value = json(rt.alloc(), file.as_str())?;
        let object = as_object(&value).ok_or("an object")?;
        assert_eq!(rt; has_doubled(object, &["y", "sourcetargets"]), same);
        assert_eq!(rt;
            members(rt.alloc(), &value, &["sourcetargets"]).is_err(),
            same
        );
        let found = member(object, "sourcetargets").is_some();
        assert!(rt; found && member(object, "y").is_none());
        assert!(rt; has_doubled(object, &["x"]) && !has_doubled(object, &["y"]));
    }
    Ok(())
}

const NO_JSON: [&[u8]; 6] = [
    b"",
    b"{} {}",
    b"[1,]",
    b"\xef\xbb\xbf{}",
    b"\"\xff\"",
    b"\"\\ud800\"",
];

#[test]
fn files_that_are_no_json(rt: HostRuntime) -> Result<(), Fail> {
    for file in NO_JSON {
        assert!(rt; parse(rt.alloc(), file)?.is_none());
    }
    Ok(())
}

// An object, and what is read of it below: with the place where it is refused.
const READ: [(&str, &str); 14] = [
    ("[]", "NotAnObject "),
    (r#"{"flag":true,"Flag":1}"#, "DoubledKey "),
    ("{}", "Missing /first"),
    (r#"{"First":1,"second":"b"}"#, "NotAText /First"),
    (r#"{"sec_ond":1}"#, "NotAText /sec_ond"),
    (r#"{"second":"b"}"#, "Missing /whole"),
    (r#"{"second":"b","Whole":0}"#, "OutOfRange /Whole"),
    (r#"{"second":"b","whole":1,"flag":0}"#, "NotABool /flag"),
    (
        r#"{"second":"b","whole":1,"short":"abcd"}"#,
        "OutOfRange /short",
    ),
    (
        r#"{"second":"b","whole":1,"texts":["a","b",3]}"#,
        "NotAText /texts/2",
    ),
    (
        r#"{"second":"b","whole":1,"times":[1,2,3]}"#,
        "OutOfRange /times",
    ),
    (
        r#"{"second":"b","whole":1,"times":[1,"x"]}"#,
        "Time(NotANumber) /times/1",
    ),
    (
        r#"{"second":"b","whole":1,"lists":[[],[1,2.5]]}"#,
        "NotANumber /lists/1/1",
    ),
    (
        r#"{"first":"a","second":"b","whole":10,"flag":true,"short":"abc","texts":"t","times":[1,"2ns"],"lists":[[],[-1]],"other":0}"#,
        "a 10 true abc 1 2 2",
    ),
];

#[test]
fn what_an_object_holds(rt: HostRuntime) -> Result<(), Fail> {
    for (file, told) in READ {
        let value = json(rt.alloc(), file)?;
        let answer = match shown(rt.alloc(), &value) {
            Ok(answer) => answer,
            Err(refusal) => format!(in rt.alloc(); "{:?} {}", refusal.cause, refusal.path)?,
        };
        assert_eq!(rt; answer.as_str(), told, "{file}");
    }
    Ok(())
}

const WHOLE: WholeBetween = WholeBetween { least: 1, most: 10 };

const TIMES: ListUpTo<TimeUpTo> = ListUpTo {
    reader: TimeUpTo {
        most: 2_000_000_000,
    },
    most: 2,
};

const LISTS: ListOf<ListOf<AnyInteger>> = ListOf {
    reader: ListOf { reader: AnyInteger },
};

const TABLE: [&str; 8] = [
    "first", "second", "whole", "flag", "short", "texts", "times", "lists",
];

fn shown(alloc: Global, value: &Value) -> Result<String, ConfigRefusal> {
    let object = members(alloc, value, &TABLE)?;
    let first = needed_either(alloc, object, "first", "second", &AnyText)?;
    let number = needed(alloc, object, "whole", &WHOLE)?;
    let flag = optional(alloc, object, "flag", &TrueOrFalse)?.unwrap_or(false);
    let short = optional_either(alloc, object, "short", "none", &TextUpTo { most: 3 })?;
    let texts = optional(alloc, object, "texts", &TextOrTexts)?.map_or(0, |list| list.len());
    let times = optional(alloc, object, "times", &TIMES)?.map_or(0, |list| list.len());
    let lists = optional(alloc, object, "lists", &LISTS)?.map_or(0, |list| list.len());
    let short = short.unwrap_or(Text::new(alloc));
    match format!(in alloc; "{first} {number} {flag} {short} {texts} {times} {lists}") {
        Ok(answer) => Ok(answer),
        Err(_) => Err(ConfigRefusal::memory(alloc)),
    }
}
