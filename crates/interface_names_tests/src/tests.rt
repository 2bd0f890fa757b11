use InterfaceKind::{Endpoint, Filter, Input, Publication};
use hel_lists::{Copied, Items, Text};
use hel_values::ValueKind;
use helics_time::Settings;
use interface_names::{
    EndRecord, FEDERATE_LIMIT, FederateRecord, FilterKind, FilterRecord, INTERFACE_LIMIT,
    InputRecord, InterfaceKind, NAME_LIMIT, PubRecord, Registry, RegistryRefusal, global_name,
};
use std::alloc::Global;
use std::test::Fail;

// A federate with these interfaces. One with the name "-" is unnamed, where its kind allows it.
fn federate(
    alloc: Global,
    name: &str,
    interfaces: &[(InterfaceKind, &str, bool)],
) -> Result<FederateRecord, Fail> {
    let mut record = FederateRecord {
        name: Text::from_str(alloc, name)?,
        settings: Settings::of(0, 0, 0, 0, 0, false, false, 50).ok_or("settings")?,
        publications: Items::new(alloc),
        inputs: Items::new(alloc),
        endpoints: Items::new(alloc),
        filters: Items::new(alloc),
    };
    for (kind, name, global) in interfaces {
        push(alloc, &mut record, *kind, name, *global)?;
    }
    Ok(record)
}

fn push(
    alloc: Global,
    record: &mut FederateRecord,
    kind: InterfaceKind,
    name: &str,
    global: bool,
) -> Result<(), Fail> {
    let text = Text::from_str(alloc, name)?;
    match kind {
        Publication => record.publications.push(PubRecord {
            name: text,
            global,
            kind: ValueKind::Int,
        })?,
        Input => record.inputs.push(InputRecord {
            name: if name == "-" { None } else { Some(text) },
            global,
            kind: None,
            targets: Items::new(alloc),
            required: false,
        })?,
        Endpoint => record.endpoints.push(EndRecord {
            name: text,
            global,
            targeted: false,
            default_destination: None,
            destination_targets: Items::new(alloc),
            source_targets: Items::new(alloc),
        })?,
        Filter => record.filters.push(FilterRecord {
            name: if name == "-" { None } else { Some(text) },
            source_of: Items::new(alloc),
            destination_of: Items::new(alloc),
            kind: FilterKind::Delay(1),
        })?,
    }
    Ok(())
}

// What a registry says of a federate with these interfaces.
fn answer(
    registry: &mut Registry,
    alloc: Global,
    name: &str,
    interfaces: &[(InterfaceKind, &str, bool)],
) -> Result<String, Fail> {
    let record = federate(alloc, name, interfaces)?;
    let copy = record.copy(alloc)?;
    let answered = registry.add(copy);
    Ok(format!(in alloc; "{answered:?}")?)
}

// A federate's name, two interfaces, and what a registry answers that has taken all before.
type Case = (
    &'static str,
    [(InterfaceKind, &'static str, bool); 2],
    &'static str,
);

const CASES: [Case; 16] = [
    (
        "F",
        [(Publication, "k", false), (Endpoint, "k", false)],
        "Ok(0)",
    ),
    (
        "",
        [(Publication, "a", false), (Input, "a", false)],
        "Err(BadName)",
    ),
    (
        "G\u{1f}",
        [(Publication, "a", false), (Input, "a", false)],
        "Err(BadName)",
    ),
    (
        "G\u{7f}",
        [(Publication, "a", false), (Input, "a", false)],
        "Err(BadName)",
    ),
    (
        "G",
        [(Publication, "", false), (Input, "a", false)],
        "Err(BadName)",
    ),
    (
        "G",
        [(Publication, "a", false), (Input, "", false)],
        "Err(BadName)",
    ),
    (
        "G",
        [(Filter, "", true), (Input, "a", false)],
        "Err(BadName)",
    ),
    (
        "F",
        [(Filter, "a", false), (Input, "\n", false)],
        "Err(BadName)",
    ),
    (
        "F",
        [(Publication, "F/k", true), (Input, "-", false)],
        "Err(DuplicateFederate)",
    ),
    (
        "G",
        [(Publication, "k", true), (Publication, "k", true)],
        "Err(DuplicateName(Text { text: \"k\" }))",
    ),
    (
        "G",
        [(Endpoint, "k", true), (Endpoint, "F/k", true)],
        "Err(DuplicateName(Text { text: \"F/k\" }))",
    ),
    (
        "G",
        [(Filter, "k", false), (Filter, "k", true)],
        "Err(DuplicateName(Text { text: \"G/k\" }))",
    ),
    (
        "G",
        [(Publication, "k", true), (Input, "F/k", true)],
        "Ok(1)",
    ),
    (
        "H ~\u{80}",
        [(Input, "-", true), (Input, "-", true)],
        "Ok(2)",
    ),
    ("I", [(Filter, "-", false), (Filter, "-", false)], "Ok(3)"),
    (
        "I",
        [(Filter, "x", false), (Filter, "x", false)],
        "Err(DuplicateFederate)",
    ),
];

#[test]
fn federates_are_numbered_or_refused(rt: HostRuntime) -> Result<(), Fail> {
    let mut registry = Registry::new(rt.alloc());
    for (name, interfaces, told) in &CASES {
        let answered = answer(&mut registry, rt.alloc(), name, interfaces)?;
        assert_eq!(rt; answered.as_str(), *told, "{name}");
    }
    assert_eq!(rt; registry.len(), 4);
    assert_eq!(rt; registry.federate(1).name.as_str(), "G");
    Ok(())
}

#[test]
fn copies_are_equal_and_names_global(rt: HostRuntime) -> Result<(), Fail> {
    let record = federate(
        rt.alloc(),
        "F",
        &[
            (Publication, "p", true),
            (Input, "-", false),
            (Endpoint, "e", false),
            (Filter, "f", false),
        ],
    )?;
    let copy = record.copy(rt.alloc())?;
    assert_eq!(rt;
        format!(in rt.alloc(); "{copy:?}")?,
        format!(in rt.alloc(); "{record:?}")?
    );
    for (name, global, told) in [("k", false, "F/k"), ("k", true, "k"), ("", false, "F/")] {
        let given = global_name(rt.alloc(), "F", name, global)?;
        assert_eq!(rt; given.as_str(), told);
    }
    Ok(())
}

#[test]
fn limits_are_met_and_not_passed(rt: HostRuntime) -> Result<(), Fail> {
    for (count, told) in [(255, "Ok(0)"), (256, "Err(BadName)")] {
        let name = String::from_utf8(vec![in rt.alloc(); b'x'; count]?)?;
        let mut registry = Registry::new(rt.alloc());
        let answered = answer(&mut registry, rt.alloc(), name.as_str(), &[])?;
        assert_eq!(rt; answered.as_str(), told, "{count}");
    }
    for (count, told) in [(256, "Ok(0)"), (257, "Err(TooManyInterfaces)")] {
        let mut record = federate(rt.alloc(), "many", &[])?;
        for place in 0..count {
            let kind = [Publication, Input, Endpoint, Filter][place % 4];
            let name = format!(in rt.alloc(); "n{place}")?;
            push(rt.alloc(), &mut record, kind, name.as_str(), false)?;
        }
        let answered = Registry::new(rt.alloc()).add(record);
        assert_eq!(rt; format!(in rt.alloc(); "{answered:?}")?.as_str(), told);
    }
    Ok(())
}

#[test]
fn the_last_federate_is_the_512th(rt: HostRuntime) -> Result<(), Fail> {
    let mut registry = Registry::new(rt.alloc());
    for number in 0..512 {
        let name = format!(in rt.alloc(); "f{number}")?;
        let record = federate(rt.alloc(), name.as_str(), &[])?;
        let answered = registry.add(record);
        assert_eq!(rt; answered, Ok(number));
    }
    for name in ["f512", "f0", ""] {
        let answered = answer(&mut registry, rt.alloc(), name, &[])?;
        assert_eq!(rt; answered.as_str(), "Err(TooManyFederates)");
    }
    assert_eq!(rt; registry.len(), 512);
    Ok(())
}
