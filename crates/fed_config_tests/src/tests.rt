mod scripts;

use fed_config::{ConfigCause, FederateConfig, read_federate};
use hel_lists::{Items, Text};
use interface_names::{EndRecord, FilterKind, FilterRecord, InputRecord, PubRecord};
use std::alloc::Global;
use std::fmt::Write;
use std::process::Abort;
use std::test::Fail;

// A file that is refused, with the cause and the path.
const REFUSED: [(&str, &str); 79] = [
    ("", "NotJson /"),
    (r#"{"name":"A",}"#, "NotJson /"),
    (r#"{"period":1e999}"#, "NotJson /"),
    ("[]", "NotAnObject /"),
    (r#"{"Period":1,"period":1,"name":1}"#, "DoubledKey /"),
    (r#"{"name":1,"period":"x"}"#, "NotAText /name"),
    (r#"{"period":0.5}"#, "NotATime /period"),
    (r#"{"period":-1}"#, "NotATime /period"),
    (r#"{"period":-0}"#, "NotATime /period"),
    (r#"{"period":18446744073709551616}"#, "NotATime /period"),
    (r#"{"period":true}"#, "NotATime /period"),
    (r#"{"Off_Set":"0.5ns"}"#, "Time(NotWhole) /Off_Set"),
    (r#"{"offset":"5 parsec"}"#, "Time(UnknownUnit) /offset"),
    (r#"{"offset":"abc"}"#, "Time(NotANumber) /offset"),
    (
        r#"{"offset":"9223372036.854775808s"}"#,
        "Time(TooLarge) /offset",
    ),
    (
        r#"{"time_delta":18446744073709551615}"#,
        "OutOfRange /time_delta",
    ),
    (
        r#"{"inputDelay":"72057594037927937ns"}"#,
        "OutOfRange /inputDelay",
    ),
    (r#"{"output_delay":72057595}"#, "OutOfRange /output_delay"),
    (
        r#"{"uninterruptible":1,"wait_for_current_time_update":1}"#,
        "NotABool /uninterruptible",
    ),
    (
        r#"{"wait_for_current_time_update":"true"}"#,
        "NotABool /wait_for_current_time_update",
    ),
    (r#"{"max_iterations":1.5}"#, "NotANumber /max_iterations"),
    (r#"{"max_iterations":"5"}"#, "NotANumber /max_iterations"),
    (r#"{"max_iterations":0}"#, "OutOfRange /max_iterations"),
    (r#"{"max_iterations":-1}"#, "OutOfRange /max_iterations"),
    (r#"{"maxIterations":10001}"#, "OutOfRange /maxIterations"),
    (
        r#"{"publications":{},"subscriptions":1}"#,
        "NotAList /publications",
    ),
    (r#"{"publications":[1]}"#, "NotAnObject /publications/0"),
    (
        r#"{"publications":[{"key":"a","type":"int"},{"key":1,"name":"a","Name":"b"}]}"#,
        "DoubledKey /publications/1",
    ),
    (
        r#"{"publications":[{"global":1}]}"#,
        "Missing /publications/0/key",
    ),
    (
        r#"{"publications":[{"key":1,"name":"a"}]}"#,
        "NotAText /publications/0/key",
    ),
    (
        r#"{"publications":[{"name":"a","global":"no"}]}"#,
        "NotABool /publications/0/global",
    ),
    (
        r#"{"Publications":[{"key":"a"}]}"#,
        "Missing /Publications/0/type",
    ),
    (
        r#"{"publications":[{"key":"a","type":"any"}]}"#,
        "UnknownWord /publications/0/type",
    ),
    (
        r#"{"publications":[{"key":"a","type":1}]}"#,
        "NotAText /publications/0/type",
    ),
    (r#"{"subscriptions":"a"}"#, "NotAList /subscriptions"),
    (r#"{"subscriptions":["a"]}"#, "NotAnObject /subscriptions/0"),
    (
        r#"{"subscriptions":[{"required":true,"Required":true}]}"#,
        "DoubledKey /subscriptions/0",
    ),
    (r#"{"subscriptions":[{}]}"#, "Missing /subscriptions/0/key"),
    (
        r#"{"subscriptions":[{"name":[]}]}"#,
        "NotAText /subscriptions/0/name",
    ),
    (
        r#"{"subscriptions":[{"key":"a","type":"double"}]}"#,
        "UnknownWord /subscriptions/0/type",
    ),
    (
        r#"{"subscriptions":[{"key":"a","required":0}]}"#,
        "NotABool /subscriptions/0/required",
    ),
    (r#"{"inputs":null}"#, "NotAList /inputs"),
    (r#"{"inputs":[{},[]]}"#, "NotAnObject /inputs/1"),
    (
        r#"{"inputs":[{"targets":[],"tar_gets":[]}]}"#,
        "DoubledKey /inputs/0",
    ),
    (r#"{"inputs":[{"key":{}}]}"#, "NotAText /inputs/0/key"),
    (r#"{"inputs":[{"global":{}}]}"#, "NotABool /inputs/0/global"),
    (
        r#"{"inputs":[{"type":"Int"}]}"#,
        "UnknownWord /inputs/0/type",
    ),
    (
        r#"{"inputs":[{"required":1,"targets":1}]}"#,
        "NotABool /inputs/0/required",
    ),
    (
        r#"{"inputs":[{"targets":1}]}"#,
        "NotAText /inputs/0/targets",
    ),
    (
        r#"{"inputs":[{"targets":["a",1]}]}"#,
        "NotAText /inputs/0/targets/1",
    ),
    (r#"{"endpoints":{}}"#, "NotAList /endpoints"),
    (r#"{"endpoints":[7]}"#, "NotAnObject /endpoints/0"),
    (
        r#"{"endpoints":[{"key":"a","KEY":"a","name":"b"}]}"#,
        "DoubledKey /endpoints/0",
    ),
    (r#"{"endpoints":[{}]}"#, "Missing /endpoints/0/name"),
    (
        r#"{"endpoints":[{"name":1,"key":"a"}]}"#,
        "NotAText /endpoints/0/name",
    ),
    (
        r#"{"endpoints":[{"name":"a","targeted":1}]}"#,
        "NotABool /endpoints/0/targeted",
    ),
    (
        r#"{"endpoints":[{"name":"a","destination":["b"]}]}"#,
        "NotAText /endpoints/0/destination",
    ),
    (
        r#"{"endpoints":[{"name":"a","sourceTargets":1,"destinationTargets":[[]]}]}"#,
        "NotAText /endpoints/0/destinationTargets/0",
    ),
    (
        r#"{"endpoints":[{"name":"a","source_targets":false}]}"#,
        "NotAText /endpoints/0/source_targets",
    ),
    (r#"{"filters":1}"#, "NotAList /filters"),
    (r#"{"filters":["delay"]}"#, "NotAnObject /filters/0"),
    (
        r#"{"filters":[{"operation":"delay","Operation":"delay"}]}"#,
        "DoubledKey /filters/0",
    ),
    (r#"{"filters":[{"name":1}]}"#, "NotAText /filters/0/name"),
    (
        r#"{"filters":[{"source_targets":[1],"destination_targets":1}]}"#,
        "NotAText /filters/0/source_targets/0",
    ),
    (r#"{"filters":[{}]}"#, "Missing /filters/0/operation"),
    (
        r#"{"filters":[{"operation":"clone","properties":1}]}"#,
        "UnknownWord /filters/0/operation",
    ),
    (
        r#"{"filters":[{"operation":"reroute","destination_targets":[],"properties":1}]}"#,
        "UnknownWord /filters/0/destination_targets",
    ),
    (
        r#"{"filters":[{"operation":"delay","properties":1}]}"#,
        "NotAnObject /filters/0/properties",
    ),
    (
        r#"{"filters":[{"operation":"delay","properties":[{"name":"delay","value":{}},1]}]}"#,
        "NotAnObject /filters/0/properties/1",
    ),
    (
        r#"{"filters":[{"operation":"delay","properties":{"Na_me":"x","name":"x"}}]}"#,
        "DoubledKey /filters/0/properties",
    ),
    (
        r#"{"filters":[{"operation":"delay","properties":[{"value":1}]}]}"#,
        "Missing /filters/0/properties/0/name",
    ),
    (
        r#"{"filters":[{"operation":"delay","properties":[{"name":1}]}]}"#,
        "NotAText /filters/0/properties/0/name",
    ),
    (
        r#"{"filters":[{"operation":"delay","properties":{"name":"other"}}]}"#,
        "Missing /filters/0/properties/value",
    ),
    (
        r#"{"filters":[{"operation":"delay"}]}"#,
        "Missing /filters/0/properties/delay",
    ),
    (
        r#"{"filters":[{"operation":"delay","Properties":[{"name":"delay","Value":false}]}]}"#,
        "NotATime /filters/0/Properties/0/Value",
    ),
    (
        r#"{"filters":[{"operation":"delay","properties":{"name":"delay","value":72057595}}]}"#,
        "OutOfRange /filters/0/properties/value",
    ),
    (
        r#"{"filters":[{"operation":"random_drop","properties":[{"name":"seed","value":-1}]}]}"#,
        "Missing /filters/0/properties/dropprob",
    ),
    (
        r#"{"filters":[{"operation":"randomdrop","properties":[{"name":"dropprob","value":1000001}]}]}"#,
        "OutOfRange /filters/0/properties/0/value",
    ),
    (
        r#"{"filters":[{"operation":"reroute","properties":{"name":"newdestination","value":1}}]}"#,
        "NotAText /filters/0/properties/value",
    ),
];

// A file says this, or is refused so.
pub fn says(rt: &impl Abort, alloc: Global, file: &str, told: &str) -> Result<(), Fail> {
    let answer = shown(alloc, file)?;
    assert_eq!(rt; answer.as_str(), told, "{file:.200}");
    Ok(())
}

#[test]
fn refused_files(rt: HostRuntime) -> Result<(), Fail> {
    for (file, told) in REFUSED {
        says(&rt, rt.alloc(), file, told)?;
    }
    Ok(())
}

const NO_TEXTS: [&[u8]; 3] = [b"{\"name\":\"\xff\"}", b"\xef\xbb\xbf{}", b"\xc0\x80"];

fn is_no_text(rt: &impl Abort, alloc: Global, file: &[u8]) -> Result<(), Fail> {
    let refusal = read_federate(alloc, file).err().ok_or("a refusal")?;
    assert_eq!(rt; refusal.cause, ConfigCause::NotJson);
    assert_eq!(rt; refusal.path.as_str(), "/");
    Ok(())
}

#[test]
fn files_that_are_no_texts(rt: HostRuntime) -> Result<(), Fail> {
    for file in NO_TEXTS {
        is_no_text(&rt, rt.alloc(), file)?;
    }
    Ok(())
}

const READ: [(&str, &str); 13] = [
    ("{}", "unnamed ; 0 0 0 0 0 false false 50"),
    (
        r#"{"name":"A","source_targets":1,"sourceTargets":2,"n_a-me":1}"#,
        "named A; 0 0 0 0 0 false false 50",
    ),
    (r#"{"_NAME__":""}"#, "named ; 0 0 0 0 0 false false 50"),
    (
        r#"{"period":"0.5s","offset":1,"time_delta":"3ms","input_delay":72057594,"outputDelay":"72057594037927936ns"}"#,
        "unnamed ; 500000000 1000000000 3000000 72057594000000000 72057594037927936 false false 50",
    ),
    (
        r#"{"uninterruptible":true,"waitForCurrentTimeUpdate":true,"max_iterations":10000}"#,
        "unnamed ; 0 0 0 0 0 true true 10000",
    ),
    (
        r#"{"publications":[{"key":"a","name":7,"type":"int64","unit":"V"},{"name":"b","global":true,"type":"string"},{"key":"","type":"bytes"}]}"#,
        "unnamed ; 0 0 0 0 0 false false 50; publication a false Int; publication b true Text; publication  false Bytes",
    ),
    (
        r#"{"inputs":[{"key":"a","global":true,"type":"raw","required":true,"targets":["B/x","y"]},{"targets":"z"},{}],"subscriptions":[{"key":"C/x"},{"name":"D/x","type":"integer","required":true},{"key":"e","type":"any"}]}"#,
        "unnamed ; 0 0 0 0 0 false false 50; input - false None false C/x; input - false Some(Int) true D/x; input - false None false e; input a true Some(Bytes) true B/x y; input - false None false z; input - false None false",
    ),
    (
        r#"{"endpoints":[{"key":1,"name":"a"},{"key":"b","global":true,"targeted":true,"destination":"C/e","destination_targets":"D/e","sourceTargets":["E/e","f"]}]}"#,
        "unnamed ; 0 0 0 0 0 false false 50; endpoint a false false - to from; endpoint b true true C/e to D/e from E/e f",
    ),
    (
        r#"{"filters":[{"operation":"delay","properties":{"name":"delay","value":"5ns"}},{"key":"k","name":"n","source_targets":"A/e","destination_targets":["B/e"],"operation":"delay","properties":[{"name":"delay","value":false},{"name":"delay","value":2}]}]}"#,
        "unnamed ; 0 0 0 0 0 false false 50; filter - from to delay 5; filter n from A/e to B/e delay 2000000000",
    ),
    (
        r#"{"filters":[{"key":"k","operation":"random_drop","properties":[{"name":"dropprob","value":0}]},{"operation":"randomdrop","properties":[{"name":"seed","value":18446744073709551615},{"name":"dropprob","value":1000000}]}]}"#,
        "unnamed ; 0 0 0 0 0 false false 50; filter k from to drop 0 0; filter - from to drop 1000000 18446744073709551615",
    ),
    (
        r#"{"filters":[{"operation":"reroute","sourceTargets":["a"],"properties":[{"name":"other","value":null},{"name":"newdestination","value":"C/e"}]}]}"#,
        "unnamed ; 0 0 0 0 0 false false 50; filter - from a to reroute C/e",
    ),
    (
        r#"{"name":"A","name":"B"}"#,
        "named B; 0 0 0 0 0 false false 50",
    ),
    (
        r#"{"period":"5 "}"#,
        "unnamed ; 5000000000 0 0 0 0 false false 50",
    ),
];

#[test]
fn read_files(rt: HostRuntime) -> Result<(), Fail> {
    for (file, told) in READ {
        says(&rt, rt.alloc(), file, told)?;
    }
    Ok(())
}

// The file of a federate whose name has so many letters.
fn named(alloc: Global, count: usize) -> Result<String, Fail> {
    let name = String::from_utf8(vec![in alloc; b'x'; count]?)?;
    Ok(format!(in alloc; "{{\"name\":\"{name}\"}}")?)
}

pub fn begins_so(rt: &impl Abort, alloc: Global, file: &str, told: &str) -> Result<(), Fail> {
    let answer = shown(alloc, file)?;
    assert!(rt; answer.starts_with(told), "{answer:.200}");
    Ok(())
}

#[test]
fn length_of_a_name(rt: HostRuntime) -> Result<(), Fail> {
    for (count, told) in [(1_024, "named"), (1_025, "OutOfRange /name")] {
        let file = named(rt.alloc(), count)?;
        begins_so(&rt, rt.alloc(), file.as_str(), told)?;
    }
    Ok(())
}

// How many items a list has, and whether it is refused for that before its items are.
const LENGTHS: [(usize, &str, &str); 6] = [
    (32_768, "publications", "NotAnObject /publications/0"),
    (32_769, "publications", "OutOfRange /publications"),
    (32_769, "subscriptions", "OutOfRange /subscriptions"),
    (32_769, "inputs", "OutOfRange /inputs"),
    (32_769, "endpoints", "OutOfRange /endpoints"),
    (32_769, "filters", "OutOfRange /filters"),
];

// The file of a federate with a list of so many items.
fn listed(alloc: Global, key: &str, count: usize) -> Result<String, Fail> {
    let mut file = format!(in alloc; "{{\"{key}\":[1")?;
    for _ in 1..count {
        file.push_str(",1")?;
    }
    file.push_str("]}")?;
    Ok(file)
}

#[test]
fn lengths_of_lists(rt: HostRuntime) -> Result<(), Fail> {
    for (count, key, told) in LENGTHS {
        let file = listed(rt.alloc(), key, count)?;
        says(&rt, rt.alloc(), file.as_str(), told)?;
    }
    Ok(())
}

// What a file says, or why it is refused.
fn shown(alloc: Global, file: &str) -> Result<String, Fail> {
    match read_federate(alloc, file.as_bytes()) {
        Ok(config) => shown_config(alloc, &config),
        Err(refusal) => { Ok(format!(in alloc; "{:?} {}", refusal.cause, refusal.path)?) }
    }
}

fn shown_config(alloc: Global, config: &FederateConfig) -> Result<String, Fail> {
    let mut out = String::new(alloc);
    let named = if config.named { "named" } else { "unnamed" };
    write!(out, "{named} {}; ", config.federate.name)?;
    let s = &config.federate.settings;
    write!(
        out,
        "{} {} {} {} {} ",
        s.period, s.offset, s.time_delta, s.input_delay, s.output_delay
    )?;
    write!(out, "{} {} {}", s.uninterruptible, s.wait, s.max_iterations)?;
    for publication in config.federate.publications.as_slice() {
        show_publication(&mut out, publication)?;
    }
    for input in config.federate.inputs.as_slice() {
        show_input(&mut out, input)?;
    }
    for endpoint in config.federate.endpoints.as_slice() {
        show_endpoint(&mut out, endpoint)?;
    }
    for filter in config.federate.filters.as_slice() {
        show_filter(&mut out, filter)?;
    }
    Ok(out)
}

fn show_publication(out: &mut String, publication: &PubRecord) -> Result<(), Fail> {
    let PubRecord { name, global, kind } = publication;
    Ok(write!(out, "; publication {name} {global} {kind:?}")?)
}

fn show_input(out: &mut String, input: &InputRecord) -> Result<(), Fail> {
    let name = or_dash(&input.name);
    write!(
        out,
        "; input {name} {} {:?} {}",
        input.global, input.kind, input.required
    )?;
    show_texts(out, &input.targets)
}

fn show_endpoint(out: &mut String, endpoint: &EndRecord) -> Result<(), Fail> {
    let destination = or_dash(&endpoint.default_destination);
    let name = &endpoint.name;
    write!(
        out,
        "; endpoint {name} {} {} {destination} to",
        endpoint.global, endpoint.targeted
    )?;
    show_texts(out, &endpoint.destination_targets)?;
    write!(out, " from")?;
    show_texts(out, &endpoint.source_targets)
}

fn show_filter(out: &mut String, filter: &FilterRecord) -> Result<(), Fail> {
    write!(out, "; filter {} from", or_dash(&filter.name))?;
    show_texts(out, &filter.source_of)?;
    write!(out, " to")?;
    show_texts(out, &filter.destination_of)?;
    match &filter.kind {
        FilterKind::Delay(delay) => write!(out, " delay {delay}")?,
        FilterKind::Drop { per_million, seed } => write!(out, " drop {per_million} {seed}")?,
        FilterKind::Reroute(name) => write!(out, " reroute {name}")?,
    }
    Ok(())
}

fn show_texts(out: &mut String, texts: &Items<Text>) -> Result<(), Fail> {
    for text in texts.as_slice() {
        write!(out, " {text}")?;
    }
    Ok(())
}

fn or_dash(text: &Option<Text>) -> &str {
    match text {
        Some(text) => text.as_str(),
        None => "-",
    }
}
