use crate::tests::{begins_so, says};
use fed_config::{FederateConfig, read_federate};
use fed_script::{Action, Script, View};
use std::alloc::Global;
use std::fmt::Write;
use std::process::Abort;
use std::test::Fail;

// Two publications have the name x, of which the first is number 0.
const HEAD: &str =
    r#"{"publications":[{"key":"x","type":"int"},{"key":"y","type":"raw"},{"key":"x","global":true,"type":"int"}],"inputs":[{}],"endpoints":[{"name":"d"},{"name":"e"}],"#;

// Scripts that are refused, behind the interfaces above, with the cause and the path.
const REFUSED_LISTS: [(&str, &str); 20] = [
    (r#""script":{}"#, "NotAList /script"),
    (r#""Script":[1]"#, "NotAnObject /Script/0"),
    (r#""script":[{"Do":1,"do":1}]"#, "DoubledKey /script/0"),
    (r#""script":[{"do":"finish"},{}]"#, "Missing /script/1/do"),
    (r#""script":[{"do":1}]"#, "NotAText /script/0/do"),
    (r#""script":[{"D_O":"wait"}]"#, "UnknownWord /script/0/D_O"),
    (r#""script":[{"do":"Finish"}]"#, "UnknownWord /script/0/do"),
    (
        r#""script":[{"do":"repeat","times":-1,"Times":1}]"#,
        "DoubledKey /script/0",
    ),
    (
        r#""script":[{"do":"repeat","body":1}]"#,
        "Missing /script/0/times",
    ),
    (
        r#""script":[{"do":"repeat","times":1.0}]"#,
        "NotANumber /script/0/times",
    ),
    (
        r#""script":[{"do":"repeat","times":1000001}]"#,
        "OutOfRange /script/0/times",
    ),
    (
        r#""script":[{"do":"repeat","times":-1}]"#,
        "OutOfRange /script/0/times",
    ),
    (
        r#""script":[{"do":"repeat","times":1}]"#,
        "Missing /script/0/body",
    ),
    (
        r#""script":[{"do":"repeat","times":1,"body":{}}]"#,
        "NotAList /script/0/body",
    ),
    (
        r#""script":[{"do":"repeat","times":0,"Body":[{"do":"finish"},{"do":"fail"}]}]"#,
        "Missing /script/0/Body/1/text",
    ),
    (r#""initial":1,"script":1"#, "NotAList /initial"),
    (
        r#""initial":[{"do":"request","time":1,"Time":2}]"#,
        "DoubledKey /initial/0",
    ),
    (
        r#""initial":[{"do":"request","time":1}]"#,
        "UnknownWord /initial/0/do",
    ),
    (
        r#""initial":[{"Do":"repeat","times":1,"body":1}]"#,
        "UnknownWord /initial/0/Do",
    ),
    (
        r#""initial":[{"do":"send","from":"e","to":1}],"script":1"#,
        "NotAText /initial/0/to",
    ),
];

// The file of the interfaces above with this behind them.
fn file_of(alloc: Global, rest: &str) -> Result<String, Fail> {
    Ok(format!(in alloc; "{HEAD}{rest}}}")?)
}

#[test]
fn refused_lists_of_actions(rt: HostRuntime) -> Result<(), Fail> {
    for (rest, told) in REFUSED_LISTS {
        let file = file_of(rt.alloc(), rest)?;
        says(&rt, rt.alloc(), file.as_str(), told)?;
    }
    Ok(())
}

// Actions that are refused, with the cause and the path below the action.
const REFUSED_ACTIONS: [(&str, &str); 59] = [
    (r#""publish","to":"z","To":"x""#, "DoubledKey "),
    (r#""publish","value":true"#, "Missing /to"),
    (r#""publish","to":0"#, "NotAText /to"),
    (r#""publish","TO":"e","value":true"#, "UnknownWord /TO"),
    (r#""publish","to":"x""#, "Missing /value"),
    (r#""publish","to":"x","value":1.0"#, "NotANumber /value"),
    (r#""publish","to":"x","value":-0"#, "NotANumber /value"),
    (r#""publish","to":"x","value":null"#, "NotANumber /value"),
    (r#""publish","to":"x","value":[]"#, "NotANumber /value"),
    (
        r#""publish","to":"x","value":9223372036854775808"#,
        "OutOfRange /value",
    ),
    (
        r#""publish","to":"x","value":-9223372036854775809"#,
        "NotANumber /value",
    ),
    (r#""publish","to":"x","Value":{}"#, "Missing /Value/hex"),
    (
        r#""publish","to":"x","value":{"hex":"","HEX":""}"#,
        "DoubledKey /value",
    ),
    (
        r#""publish","to":"x","value":{"hex":1}"#,
        "NotAText /value/hex",
    ),
    (
        r#""publish","to":"x","value":{"hex":"abc"}"#,
        "BadHex /value/hex",
    ),
    (
        r#""publish","to":"x","value":{"_Hex":"0g"}"#,
        "BadHex /value/_Hex",
    ),
    (r#""publish_sum","add":1,"ADD":1"#, "DoubledKey "),
    (r#""publish_sum","input":9"#, "Missing /to"),
    (r#""publish_sum","to":"d""#, "UnknownWord /to"),
    (r#""publish_sum","to":"x""#, "Missing /input"),
    (r#""publish_sum","to":"x","input":"0""#, "NotANumber /input"),
    (r#""publish_sum","to":"x","input":0.0"#, "NotANumber /input"),
    (r#""publish_sum","to":"x","input":1"#, "UnknownWord /input"),
    (r#""publish_sum","to":"x","input":-1"#, "UnknownWord /input"),
    (r#""publish_sum","to":"x","input":0"#, "Missing /add"),
    (
        r#""publish_sum","to":"x","input":0,"add":"1""#,
        "NotANumber /add",
    ),
    (
        r#""publish_sum","to":"x","input":0,"add":9223372036854775808"#,
        "OutOfRange /add",
    ),
    (r#""send","data":"","d_ata":"""#, "DoubledKey "),
    (r#""send","to":1"#, "Missing /from"),
    (r#""send","from":1"#, "NotAText /from"),
    (r#""send","from":"x""#, "UnknownWord /from"),
    (r#""send","from":"e","data":1"#, "Missing /to"),
    (r#""send","from":"e","to":null"#, "NotAText /to"),
    (r#""send","from":"e","to":"""#, "Missing /data"),
    (r#""send","from":"e","to":"","data":-5"#, "NotAText /data"),
    (
        r#""send","from":"e","to":"","data":18446744073709551615"#,
        "NotAText /data",
    ),
    (
        r#""send","from":"e","to":"","data":18446744073709551616"#,
        "NotANumber /data",
    ),
    (
        r#""send","from":"e","to":"","data":false"#,
        "NotANumber /data",
    ),
    (
        r#""send","from":"e","to":"","data":{"hex":"-1"}"#,
        "BadHex /data/hex",
    ),
    (r#""echo","from":1,"From":1"#, "DoubledKey "),
    (r#""echo""#, "Missing /from"),
    (r#""echo","from":{}"#, "NotAText /from"),
    (r#""echo","from":"y""#, "UnknownWord /from"),
    (r#""request","time":1,"ti_me":1"#, "DoubledKey "),
    (r#""request""#, "Missing /time"),
    (r#""request","time":1e2"#, "NotATime /time"),
    (r#""request","time":"5 parsec""#, "Time(UnknownUnit) /time"),
    (
        r#""request","time":"9223372036.854775808s""#,
        "Time(TooLarge) /time",
    ),
    (r#""request","time":9223372037"#, "OutOfRange /time"),
    (r#""advance","by":1,"BY":1"#, "DoubledKey "),
    (r#""advance","time":1"#, "Missing /by"),
    (r#""advance","by":"0.5ns""#, "Time(NotWhole) /by"),
    (r#""iterate","mode":"force","Mode":1"#, "DoubledKey "),
    (r#""iterate","mode":1"#, "Missing /time"),
    (r#""iterate","time":1"#, "Missing /mode"),
    (r#""iterate","time":1,"mode":0"#, "NotAText /mode"),
    (r#""iterate","time":1,"mode":"next""#, "UnknownWord /mode"),
    (r#""fail","text":"","Text":"""#, "DoubledKey "),
    (r#""fail","text":1"#, "NotAText /text"),
];

// The file of a script of one action.
fn file_of_one(alloc: Global, action: &str) -> Result<String, Fail> {
    Ok(format!(in alloc; "{HEAD}\"script\":[{{\"do\":{action}}}]}}")?)
}

// A cause and the path below the action, as they are told.
fn in_script(alloc: Global, told: &str) -> Result<String, Fail> {
    let (cause, path) = told.split_once(' ').ok_or("a cause and a path")?;
    Ok(format!(in alloc; "{cause} /script/0{path}")?)
}

#[test]
fn refused_actions(rt: HostRuntime) -> Result<(), Fail> {
    for (action, told) in REFUSED_ACTIONS {
        let file = file_of_one(rt.alloc(), action)?;
        let wanted = in_script(rt.alloc(), told)?;
        says(&rt, rt.alloc(), file.as_str(), wanted.as_str())?;
    }
    Ok(())
}

// Scripts that are read, with their actions: first those before the federate enters.
const GIVEN: [(&str, &str); 14] = [
    (r#""n":1"#, "no script"),
    (
        r#""initial":[{"do":"publish","to":"x","value":1}]"#,
        "no script",
    ),
    (r#""script":[]"#, "; Finish"),
    (
        r#""script":[],"initial":[{"do":"publish","to":"x","value":-1},{"do":"send","from":"e","to":"A/e","data":"é"}]"#,
        "Publish { publication: 0, value: Int(-1) } Send { endpoint: 1, destination: Text { text: \"A/e\" }, payload: Payload { bytes: [195, 169] } }; Finish",
    ),
    (
        r#""script":[{"do":"publish","to":"x","value":9223372036854775807},{"do":"publish","to":"x","value":-9223372036854775808}]"#,
        "; Publish { publication: 0, value: Int(9223372036854775807) } Publish { publication: 0, value: Int(-9223372036854775808) } Finish",
    ),
    (
        r#""script":[{"do":"publish","to":"y","value":{"HEX":"0aF0"}},{"do":"publish","to":"y","value":{"hex":""}},{"DO":"publish","To":"y","Val_ue":"a"}]"#,
        "; Publish { publication: 1, value: Bytes(Payload { bytes: [10, 240] }) } Publish { publication: 1, value: Bytes(Payload { bytes: [] }) } Publish { publication: 1, value: Text(TextValue { text: \"a\" }) } Finish",
    ),
    (
        r#""script":[{"do":"publish_sum","to":"x","input":0,"add":-3}]"#,
        "; Publish { publication: 0, value: Int(-3) } Finish",
    ),
    (
        r#""script":[{"do":"send","from":"d","to":"","data":{"hex":"ff"}}]"#,
        "; Send { endpoint: 0, destination: Text { text: \"\" }, payload: Payload { bytes: [255] } } Finish",
    ),
    (
        r#""script":[{"do":"echo","from":"e"},{"do":"request","time":9223372036},{"do":"echo","from":"d"},{"do":"request","time":"9223372036.854775807s"}]"#,
        "; Request { time: 9223372036000000000, mode: Next } Request { time: 9223372036854775807, mode: Next } Finish",
    ),
    (
        r#""script":[{"do":"advance","by":"1.5us"},{"do":"advance","by":2}]"#,
        "; Request { time: 1500, mode: Next } Request { time: 2000000000, mode: Next } Finish",
    ),
    (
        r#""script":[{"do":"iterate","time":0,"mode":"force"},{"do":"iterate","time":"1 ms","mode":"if_needed"}]"#,
        "; Request { time: 0, mode: Force } Request { time: 1000000, mode: IfNeeded } Finish",
    ),
    (
        r#""script":[{"do":"finish","time":1,"Time":2}]"#,
        "; Finish",
    ),
    (
        r#""script":[{"do":"fail","text":"why"},{"do":"request","time":1}]"#,
        "; Fail(TextValue { text: \"why\" })",
    ),
    (
        r#""script":[{"do":"repeat","times":2,"body":[{"do":"request","time":1},{"do":"repeat","times":0,"body":[{"do":"finish"}]},{"do":"request","time":2}]}]"#,
        "; Request { time: 1000000000, mode: Next } Request { time: 2000000000, mode: Next } Request { time: 1000000000, mode: Next } Request { time: 2000000000, mode: Next } Finish",
    ),
];

// The script of a file has these actions, or the file is refused so.
fn acts(rt: &impl Abort, alloc: Global, file: &str, told: &str) -> Result<(), Fail> {
    let answer = actions(alloc, file)?;
    assert_eq!(rt; answer.as_str(), told, "{file:.200}");
    Ok(())
}

#[test]
fn actions_of_scripts(rt: HostRuntime) -> Result<(), Fail> {
    for (rest, told) in GIVEN {
        let file = file_of(rt.alloc(), rest)?;
        acts(&rt, rt.alloc(), file.as_str(), told)?;
    }
    Ok(())
}

// The actions of a file's script, up to its end.
fn actions(alloc: Global, file: &str) -> Result<String, Fail> {
    match read_federate(alloc, file.as_bytes()) {
        Ok(config) => {
            let FederateConfig { script, .. } = config;
            match script {
                Some(script) => script_actions(alloc, script),
                None => Ok(String::from_str(alloc, "no script")?),
            }
        }
        Err(refusal) => Ok(format!(in alloc; "{:?} {}", refusal.cause, refusal.path)?),
    }
}

fn script_actions(alloc: Global, script: Script) -> Result<String, Fail> {
    let mut script = script;
    let mut out = String::new(alloc);
    for _ in 0..4 {
        if let Some(action) = script.initial(alloc)? {
            write!(out, "{}{action:?}", if out.is_empty() { "" } else { " " })?;
            script.advance_initial();
        }
    }
    out.push_str(";")?;
    let mut view = View::new(alloc, 1, 2)?;
    for _ in 0..8 {
        let action = script.next(alloc, &view)?;
        write!(out, " {action:?}")?;
        if matches!(&action, Action::Finish | Action::Fail(_)) {
            return Ok(out);
        }
        script.advance(&mut view);
    }
    Ok(out)
}

// A body that is repeated, one repeat round another.
fn nested(alloc: Global, depth: u32, times: u32, body: &str) -> Result<String, Fail> {
    let mut inner = String::from_str(alloc, body)?;
    for _ in 0..depth {
        inner = format!(in alloc; "{{\"do\":\"repeat\",\"times\":{times},\"body\":[{inner}]}}")?;
    }
    Ok(inner)
}

const FINISH: &str = r#"{"do":"finish"}"#;

// The place of a repeat that is the ninth from outside.
const NINTH: &str = "/script/0/body/0/body/0/body/0/body/0/body/0/body/0/body/0/body/0";

const NESTED: [(u32, u32, &str, &str); 9] = [
    (8, 1, FINISH, "; Finish"),
    (9, 1, FINISH, "TooDeep"),
    (8, 1, r#"{"do":"repeat"}"#, "TooDeep"),
    (8, 1, r#"{"do":"repeat","times":1,"Times":1}"#, "DoubledKey"),
    (8, 1_000_000, "", "; Finish"),
    (1, 1_000_000, FINISH, "; Finish"),
    (
        1,
        500_001,
        r#"{"do":"finish"},{"do":"finish"}"#,
        "TooManySteps /script",
    ),
    (8, 1_000_000, FINISH, "TooManySteps /script"),
    (8, 0, FINISH, "; Finish"),
];

// The file of a script of nested repeats.
fn nested_file(alloc: Global, depth: u32, times: u32, body: &str) -> Result<String, Fail> {
    let action = nested(alloc, depth, times, body)?;
    Ok(format!(in alloc; "{{\"script\":[{action}]}}")?)
}

// What is told, with the place where it is the ninth repeat's.
fn at_its_place(alloc: Global, told: &str) -> Result<String, Fail> {
    match told {
        "TooDeep" | "DoubledKey" => Ok(format!(in alloc; "{told} {NINTH}")?),
        _ => Ok(String::from_str(alloc, told)?),
    }
}

#[test]
fn repeats_in_repeats(rt: HostRuntime) -> Result<(), Fail> {
    for (depth, times, body, told) in NESTED {
        let file = nested_file(rt.alloc(), depth, times, body)?;
        let wanted = at_its_place(rt.alloc(), told)?;
        acts(&rt, rt.alloc(), file.as_str(), wanted.as_str())?;
    }
    Ok(())
}

// The file of a script of a million actions, and what stands behind them.
fn file_of_a_million(alloc: Global, last: &str) -> Result<String, Fail> {
    let million = nested(alloc, 1, 1_000_000, FINISH)?;
    Ok(format!(in alloc; "{{\"script\":[{million},{last}]}}")?)
}

#[test]
fn too_many_steps_come_last(rt: HostRuntime) -> Result<(), Fail> {
    for (last, told) in [
        (r#"{"do":"repeat","times":9,"body":[]}"#, "; Finish"),
        (FINISH, "TooManySteps /script"),
        (
            r#"{"do":"finish"},{"do":"wait"}"#,
            "UnknownWord /script/2/do",
        ),
    ] {
        let file = file_of_a_million(rt.alloc(), last)?;
        acts(&rt, rt.alloc(), file.as_str(), told)?;
    }
    Ok(())
}

// What stands before and behind a text of so many letters, and the answer.
const LONG: [(&str, usize, &str, &str); 11] = [
    (
        r#"{"do":"send","from":"e","data":"","to":""#,
        1_024,
        r#""}"#,
        "",
    ),
    (
        r#"{"do":"send","from":"e","data":"","to":""#,
        1_025,
        r#""}"#,
        "OutOfRange /script/0/to",
    ),
    (
        r#"{"do":"send","from":"e","to":"","data":""#,
        65_536,
        r#""}"#,
        "",
    ),
    (
        r#"{"do":"send","from":"e","to":"","data":""#,
        65_537,
        r#""}"#,
        "OutOfRange /script/0/data",
    ),
    (r#"{"do":"publish","to":"x","value":""#, 65_536, r#""}"#, ""),
    (
        r#"{"do":"publish","to":"x","value":""#,
        65_537,
        r#""}"#,
        "OutOfRange /script/0/value",
    ),
    (
        r#"{"do":"publish","to":"x","value":{"hex":""#,
        131_072,
        r#""}}"#,
        "",
    ),
    (
        r#"{"do":"publish","to":"x","value":{"hex":""#,
        131_074,
        r#""}}"#,
        "OutOfRange /script/0/value/hex",
    ),
    (
        r#"{"do":"publish","to":"x","value":{"hex":""#,
        131_074,
        r#"xx"}}"#,
        "BadHex /script/0/value/hex",
    ),
    (r#"{"do":"fail","text":""#, 65_536, r#""}"#, ""),
    (
        r#"{"do":"fail","text":""#,
        65_537,
        r#""}"#,
        "OutOfRange /script/0/text",
    ),
];

// The file of a script with a text of so many letters.
fn long_file(alloc: Global, before: &str, count: usize, behind: &str) -> Result<String, Fail> {
    let text = String::from_utf8(vec![in alloc; b'a'; count]?)?;
    Ok(format!(in alloc; "{HEAD}\"script\":[{before}{text}{behind}]}}")?)
}

#[test]
fn limits_of_texts_and_bytes(rt: HostRuntime) -> Result<(), Fail> {
    for (before, count, behind, told) in LONG {
        let file = long_file(rt.alloc(), before, count, behind)?;
        if told.is_empty() {
            begins_so(&rt, rt.alloc(), file.as_str(), "unnamed ; ")?;
        } else {
            says(&rt, rt.alloc(), file.as_str(), told)?;
        }
    }
    Ok(())
}
