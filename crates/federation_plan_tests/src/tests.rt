ghost use Rattle.std.specs.Prelude.{ℕ, List, IfOk, IfSome};
ghost use Rattle.interface_names.specs.Filter.{KeepsBounds};
ghost use Rattle.federation_plan.specs.Interfaces.{IsEndpoint};

mod build;
mod calls;
mod messages;
mod reach;
mod trees;

use federation_plan::{NodeKind, NodeRow, Plan, PlanRefusal, Tree};
use hel_lists::{Copied, Items, Text};
use hel_values::{EndRef, ValueKind};
use helics_time::Settings;
use interface_names::{
    EndRecord, FederateRecord, FilterKind, FilterRecord, InputRecord, PubRecord, Registry,
};
use std::alloc::Global;
use std::process::Abort;
use std::test::Fail;

// A proof grows faster than its function, with each value that is dropped, each `?` and each message. So
// the functions here are short: one makes the values, another looks at them and has one assertion.

// Federates are written as text, one a line: the name, behind `~` where it waits for current updates,
// and its interfaces. `p` and `p:t` are publications of numbers and of texts; `<A/p` and `<t:A/p` are
// subscriptions to values of any kind and to texts, `!A/p` is a required one; `@e` is an endpoint,
// `@e=B/e` one with a default destination, `@e>` and `@e>B/e` are targeted, `@e<B/e` is so with a source
// target; a `/` in front of the name of a publication or an endpoint makes it global; `+A/e:4` is a filter on the side of the source, `-A/e:4` one on that of the destination: they
// delay, drop with a chance as in `*607535` and the seed 0, and reroute as in `>C/e`.

fn text(alloc: Global, text: &str) -> Result<Text, Fail> {
    Ok(Text::from_str(alloc, text)?)
}

// The names of a list, of which "" stands for none.
fn names(alloc: Global, name: &str) -> Result<Items<Text>, Fail> {
    let mut names = Items::new(alloc);
    if !name.is_empty() {
        names.push(text(alloc, name)?)?;
    }
    Ok(names)
}

fn kind_of(letter: &str) -> ValueKind {
    match letter {
        "t" => ValueKind::Text,
        "b" => ValueKind::Bytes,
        _ => ValueKind::Int,
    }
}

fn publication(alloc: Global, word: &str) -> Result<PubRecord, Fail> {
    let (name, letter) = word.split_once(':').unwrap_or((word, "i"));
    Ok(PubRecord {
        name: text(alloc, name.strip_prefix('/').unwrap_or(name))?,
        global: name.starts_with('/'),
        kind: kind_of(letter),
    })
}

fn input(alloc: Global, word: &str, required: bool) -> Result<InputRecord, Fail> {
    let (kind, target) = match word.split_once(':') {
        Some((letter, target)) => (Some(kind_of(letter)), target),
        None => (None, word),
    };
    Ok(InputRecord {
        name: None,
        global: false,
        kind,
        targets: names(alloc, target)?,
        required,
    })
}

fn end_record(alloc: Global, name: &str, to: Option<&str>, from: &str) -> Result<EndRecord, Fail> {
    Ok(EndRecord {
        name: text(alloc, name.strip_prefix('/').unwrap_or(name))?,
        global: name.starts_with('/'),
        targeted: to.is_some(),
        default_destination: None,
        destination_targets: names(alloc, to.unwrap_or(""))?,
        source_targets: names(alloc, from)?,
    })
}

fn endpoint(alloc: Global, word: &str) -> Result<EndRecord, Fail> {
    if let Some((name, to)) = word.split_once('>') {
        return end_record(alloc, name, Some(to), "");
    }
    if let Some((name, from)) = word.split_once('<') {
        return end_record(alloc, name, Some(""), from);
    }
    match word.split_once('=') {
        Some((name, default)) => {
            let mut end = end_record(alloc, name, None, "")?;
            end.default_destination = Some(text(alloc, default)?);
            Ok(end)
        }
        None => end_record(alloc, word, None, ""),
    }
}

// A filter that reroutes nothing.
fn filter_kind(word: &str) -> Result<FilterKind, Fail>
    ensures { IfOk result (λ kind. (names : List (List ℕ)) → KeepsBounds kind names) }
{
    if let Some(chance) = word.strip_prefix('*') {
        let per_million = chance.parse::<u32>().ok().ok_or("chance")?;
        if per_million <= 1_000_000 {
            return Ok(FilterKind::Drop {
                per_million,
                seed: 0,
            });
        }
    }
    let delay = word.parse::<u64>().ok().ok_or("delay")?;
    if delay <= 1 << 56 {
        return Ok(FilterKind::Delay(delay));
    }
    Err(Fail::from("filter"))
}

fn rerouting(alloc: Global, ends: Items<Text>, name: &str) -> Result<FilterRecord, Fail> {
    let kind = FilterKind::Reroute(text(alloc, name)?);
    Ok(FilterRecord {
        name: None,
        source_of: ends,
        destination_of: Items::new(alloc),
        kind,
    })
}

fn at_source(alloc: Global, ends: Items<Text>, what: &str) -> Result<FilterRecord, Fail> {
    let kind = filter_kind(what)?;
    Ok(FilterRecord {
        name: None,
        source_of: ends,
        destination_of: Items::new(alloc),
        kind,
    })
}

fn at_destination(alloc: Global, ends: Items<Text>, what: &str) -> Result<FilterRecord, Fail> {
    let kind = filter_kind(what)?;
    Ok(FilterRecord {
        name: None,
        source_of: Items::new(alloc),
        destination_of: ends,
        kind,
    })
}

fn filter_at(
    alloc: Global,
    ends: Items<Text>,
    what: &str,
    is_source: bool,
) -> Result<FilterRecord, Fail> {
    if let Some(name) = what.strip_prefix('>') {
        rerouting(alloc, ends, name)
    } else if is_source {
        at_source(alloc, ends, what)
    } else {
        at_destination(alloc, ends, what)
    }
}

fn filter(alloc: Global, word: &str, is_source: bool) -> Result<FilterRecord, Fail> {
    let (end, what) = word.split_once(':').ok_or("filter")?;
    filter_at(alloc, names(alloc, end)?, what, is_source)
}

fn push_input(
    alloc: Global,
    inputs: &mut Items<InputRecord>,
    word: &str,
    required: bool,
) -> Result<(), Fail> {
    let input = input(alloc, word, required)?;
    inputs.push(input)?;
    Ok(())
}

fn push_endpoint(alloc: Global, ends: &mut Items<EndRecord>, word: &str) -> Result<(), Fail> {
    let end = endpoint(alloc, word)?;
    ends.push(end)?;
    Ok(())
}

fn push_filter(
    alloc: Global,
    filters: &mut Items<FilterRecord>,
    word: &str,
    is_source: bool,
) -> Result<(), Fail> {
    let filter = filter(alloc, word, is_source)?;
    filters.push(filter)?;
    Ok(())
}

fn push_publication(
    alloc: Global,
    publications: &mut Items<PubRecord>,
    word: &str,
) -> Result<(), Fail> {
    let publication = publication(alloc, word)?;
    publications.push(publication)?;
    Ok(())
}

fn push(alloc: Global, record: &mut FederateRecord, word: &str) -> Result<(), Fail> {
    if let Some(input_word) = word.strip_prefix('<') {
        push_input(alloc, &mut record.inputs, input_word, false)
    } else if let Some(input_word) = word.strip_prefix('!') {
        push_input(alloc, &mut record.inputs, input_word, true)
    } else if let Some(end) = word.strip_prefix('@') {
        push_endpoint(alloc, &mut record.endpoints, end)
    } else {
        push_other(alloc, record, word)
    }
}

fn push_other(alloc: Global, record: &mut FederateRecord, word: &str) -> Result<(), Fail> {
    if let Some(filter_word) = word.strip_prefix('+') {
        push_filter(alloc, &mut record.filters, filter_word, true)
    } else if let Some(filter_word) = word.strip_prefix('-') {
        push_filter(alloc, &mut record.filters, filter_word, false)
    } else {
        push_publication(alloc, &mut record.publications, word)
    }
}

fn settings(wait: bool) -> Result<Settings, Fail> {
    let settings = Settings::of(0, 0, 0, 0, 0, false, wait, 50).ok_or("settings")?;
    Ok(settings)
}

fn without_interfaces(alloc: Global, name: Text, settings: Settings) -> FederateRecord {
    FederateRecord {
        name,
        settings,
        publications: Items::new(alloc),
        inputs: Items::new(alloc),
        endpoints: Items::new(alloc),
        filters: Items::new(alloc),
    }
}

fn named(alloc: Global, word: &str) -> Result<FederateRecord, Fail> {
    let wait = word.starts_with('~');
    let name = text(alloc, word.strip_prefix('~').unwrap_or(word))?;
    Ok(without_interfaces(alloc, name, settings(wait)?))
}

fn federate(alloc: Global, line: &str) -> Result<FederateRecord, Fail> {
    let (name, rest) = line.split_once(' ').unwrap_or((line, ""));
    let mut record = named(alloc, name)?;
    for word in rest.split_whitespace() {
        push(alloc, &mut record, word)?;
    }
    Ok(record)
}

fn enter(alloc: Global, registry: &mut Registry, line: &str) -> Result<(), Fail> {
    let record = federate(alloc, line)?;
    registry.add(record).ok().ok_or("registry")?;
    Ok(())
}

fn registry(alloc: Global, federates: &str) -> Result<Registry, Fail> {
    let mut registry = Registry::new(alloc);
    for line in federates.lines() {
        enter(alloc, &mut registry, line)?;
    }
    Ok(registry)
}

fn row(alloc: Global, parent: u16, kind: NodeKind) -> Result<NodeRow, Fail> {
    Ok(NodeRow {
        name: text(alloc, "n")?,
        parent,
        kind,
    })
}

fn grow(
    alloc: Global,
    nodes: &mut Items<NodeRow>,
    parent: u16,
    kind: NodeKind,
) -> Result<(), Fail> {
    let row = row(alloc, parent, kind)?;
    nodes.push(row)?;
    Ok(())
}

// So many federates at node 1.
fn at_one(alloc: Global, count: usize) -> Result<Items<u16>, Fail> {
    let mut cores = Items::new(alloc);
    for _ in 0..count {
        cores.push(1)?;
    }
    Ok(cores)
}

// A root and a core, at which so many federates stand.
fn small_tree(alloc: Global, count: usize) -> Result<Tree, Fail> {
    let mut nodes = Items::new(alloc);
    grow(alloc, &mut nodes, 0, NodeKind::Root)?;
    grow(alloc, &mut nodes, 0, NodeKind::Core)?;
    let cores = at_one(alloc, count)?;
    Ok(Tree { nodes, cores })
}

// What `build` answers of federates and a tree that is valid.
fn built(
    alloc: Global,
    registry: &Registry,
    tree: Tree,
) -> Result<Result<Plan, PlanRefusal>, Fail> {
    if tree.valid() && tree.cores.len() == registry.len() {
        Ok(Plan::build(alloc, registry, tree))
    } else {
        Err(Fail::from("tree"))
    }
}

// What it answers of federates that stand at one core.
fn answer(alloc: Global, federates: &str) -> Result<Result<Plan, PlanRefusal>, Fail> {
    let registry = registry(alloc, federates)?;
    let tree = small_tree(alloc, registry.len())?;
    built(alloc, &registry, tree)
}

fn made(answer: Result<Plan, PlanRefusal>) -> Result<Plan, Fail> {
    match answer {
        Ok(plan) => Ok(plan),
        Err(_) => Err(Fail::from("plan")),
    }
}

// The plan of federates that stand at one core.
fn plan(alloc: Global, federates: &str) -> Result<Plan, Fail> {
    made(answer(alloc, federates)?)
}

fn copy(alloc: Global, plan: &Plan) -> Result<Plan, Fail> {
    Ok(plan.copy(alloc)?)
}

fn count(plan: &Plan) -> u16 {
    plan.count()
}

fn endpoint_of(plan: &Plan, name: &str) -> Option<EndRef>
    ensures { IfSome result (IsEndpoint plan.now.federates) }
{
    plan.endpoint(name)
}

fn is_text(rt: &impl Abort, text: &str, want: &str, federates: &str) {
    assert_eq!(rt; text, want, "{federates}");
}
