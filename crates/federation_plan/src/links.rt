ghost use Rattle.std.specs.Prelude.{◌≡◌, ◌<◌, ◌≤◌, ℕ, List, Some, nat_eq, ◌||◌, ◌&&◌, length};
ghost use Rattle.std.specs.List.{list_any};
ghost use Rattle.std.specs.HashMap.{get_by_text};
ghost use Rattle.hel_values.specs.declared.EndRef.{EndRef};
ghost use Rattle.interface_names.specs.Limits.{most_interfaces};
ghost use Rattle.dependency_paths.specs.Links.{linked};
ghost use Rattle.federation_plan.specs.Interfaces.{AreFew, is_of, name_fed, interfaces_in, inputs, endpoints as endpoints_of, federate_at};
ghost use Rattle.federation_plan.specs.Links.{AreBelow, takes, sends, sends_to, has_endpoint, hears, is_sender};
ghost use Rattle.federation_plan.specs.Tables.{row_at, HasPlace, rerouted_at};

use crate::names::Names;
use dependency_paths::Links;
use hel_lists::{Items, Text};
use hel_values::EndRef;
use interface_names::{EndRecord, FederateRecord, InputRecord};

/// For each endpoint that of the last reroute in its source chain.
pub(crate) type Rerouted = Items<Items<Option<EndRef>>>;

/// Links each federate to those whose inputs target its publications.
pub(crate) fn link_values(links: &mut Links, publications: &Names, federates: &[FederateRecord])
    requires few { AreFew federates.now }
    requires count { length links.old ≡ length federates.now }
    requires known { AreBelow (length links.old) (get_by_text publications.now) }
    ensures count { length links.new ≡ length links.old }
    ensures links { (a f : ℕ) → linked links.new a f
        ≡ (linked links.old a f || list_any (takes (get_by_text publications.now) a f) (inputs federates.now)) }
{
    for (f, federate) in federates.iter().enumerate() {
        link_inputs(links, publications, f as u16, federate.inputs.as_slice());
    }
}

fn link_inputs(links: &mut Links, publications: &Names, to: u16, inputs: &[InputRecord])
    requires to { to < length links.old }
    requires known { AreBelow (length links.old) (get_by_text publications.now) }
    ensures count { length links.new ≡ length links.old }
    ensures links { (owner : List ℕ) (a f : ℕ) → linked links.new a f
        ≡ (linked links.old a f || list_any (takes (get_by_text publications.now) a f) (interfaces_in owner to 0 inputs.now)) }
{
    for input in inputs {
        link_from(links, publications, input.targets.as_slice(), to);
    }
}

/// Links each federate to those that its endpoints reach, as far as these say so themselves.
pub(crate) fn link_senders(
    links: &mut Links,
    endpoints: &Names,
    rerouted: &Rerouted,
    federates: &[FederateRecord],
)
    requires few { AreFew federates.now }
    requires count { length links.old ≡ length federates.now }
    requires places { (f : ℕ) → length (row_at rerouted.now f) ≡ length (federate_at federates.now f).endpoints }
    requires known { AreBelow (length links.old) (get_by_text endpoints.now) }
    requires ends { (e r : EndRef) → rerouted_at rerouted.now e ≡ Some r → r.fed < length links.old }
    ensures count { length links.new ≡ length links.old }
    ensures links { (a f : ℕ) → linked links.new a f
        ≡ (linked links.old a f || list_any (sends (get_by_text endpoints.now) federates.now (rerouted_at rerouted.now) a f) (endpoints_of federates.now)) }
{
    for (f, federate) in federates.iter().enumerate() {
        link_endpoints(links, endpoints, rerouted, federates, f as u16, federate);
    }
}

fn link_endpoints(
    links: &mut Links,
    endpoints: &Names,
    rerouted: &Rerouted,
    federates: &[FederateRecord],
    from: u16,
    federate: &FederateRecord,
)
    requires few { AreFew federates.now }
    requires few_endpoints { length federate.now.endpoints ≤ most_interfaces }
    requires from { from < length links.old }
    requires count { length links.old ≡ length federates.now }
    requires places { length (row_at rerouted.now from) ≡ length federate.now.endpoints }
    requires known { AreBelow (length links.old) (get_by_text endpoints.now) }
    requires ends { (e r : EndRef) → rerouted_at rerouted.now e ≡ Some r → r.fed < length links.old }
    ensures count { length links.new ≡ length links.old }
    ensures links { (owner : List ℕ) (a f : ℕ) → linked links.new a f
        ≡ (linked links.old a f || list_any (sends (get_by_text endpoints.now) federates.now (rerouted_at rerouted.now) a f) (interfaces_in owner from 0 federate.now.endpoints)) }
{
    for (index, end) in federate.endpoints.as_slice().iter().enumerate() {
        let at = EndRef {
            fed: from,
            index: index as u16,
        };
        let to = end_at(rerouted, at);
        link_endpoint(links, endpoints, federates, to, from, end);
    }
}

// Links a federate to those that its endpoint reaches, whose last reroute is given.
fn link_endpoint(
    links: &mut Links,
    endpoints: &Names,
    federates: &[FederateRecord],
    rerouted: Option<EndRef>,
    from: u16,
    end: &EndRecord,
)
    requires few { AreFew federates.now }
    requires from { from < length links.old }
    requires count { length links.old ≡ length federates.now }
    requires known { AreBelow (length links.old) (get_by_text endpoints.now) }
    requires ends { (r : EndRef) → rerouted ≡ Some r → r.fed < length links.old }
    ensures count { length links.new ≡ length links.old }
    ensures links { (a f : ℕ) → linked links.new a f
        ≡ (linked links.old a f || (nat_eq a from && sends_to (get_by_text endpoints.now) federates.now rerouted end.now f)) }
{
    match rerouted {
        Some(to) => links.link(from, to.fed),
        None => {
            if end.targeted {
                link_to(links, endpoints, end.destination_targets.as_slice(), from);
            } else {
                link_all(links, federates, from);
            }
        }
    }
}

// Links a federate to all that have endpoints.
fn link_all(links: &mut Links, federates: &[FederateRecord], from: u16)
    requires few { AreFew federates.now }
    requires from { from < length links.old }
    requires count { length links.old ≡ length federates.now }
    ensures count { length links.new ≡ length links.old }
    ensures links { (a f : ℕ) → linked links.new a f ≡ (linked links.old a f || (nat_eq a from && has_endpoint federates.now f)) }
{
    for (to, federate) in federates.iter().enumerate() {
        if !federate.endpoints.is_empty() {
            links.link(from, to as u16);
        }
    }
}

// Links a federate to those of the interfaces that these names mean.
fn link_to(links: &mut Links, names: &Names, targets: &[Text], from: u16)
    requires from { from < length links.old }
    requires known { AreBelow (length links.old) (get_by_text names.now) }
    ensures count { length links.new ≡ length links.old }
    ensures links { (a f : ℕ) → linked links.new a f ≡ (linked links.old a f || (nat_eq a from && name_fed (get_by_text names.now) targets.now f)) }
{
    for name in targets {
        link_to_name(links, names, name, from);
    }
}

fn link_to_name(links: &mut Links, names: &Names, name: &Text, from: u16)
    requires from { from < length links.old }
    requires known { AreBelow (length links.old) (get_by_text names.now) }
    ensures count { length links.new ≡ length links.old }
    ensures links { (a f : ℕ) → linked links.new a f ≡ (linked links.old a f || (nat_eq a from && is_of f (get_by_text names.now name.now))) }
{
    match names.get(name.as_str()) {
        Some(at) => links.link(from, at.fed),
        None => {}
    }
}

/// Links to each federate those whose endpoints its own name among their source targets.
pub(crate) fn link_receivers(
    links: &mut Links,
    endpoints: &Names,
    rerouted: &Rerouted,
    federates: &[FederateRecord],
)
    requires few { AreFew federates.now }
    requires count { length links.old ≡ length federates.now }
    requires known { AreBelow (length links.old) (get_by_text endpoints.now) }
    requires places { (name : List ℕ) (e : EndRef) → get_by_text endpoints.now name ≡ Some e → HasPlace rerouted.now e }
    ensures count { length links.new ≡ length links.old }
    ensures links { (a f : ℕ) → linked links.new a f
        ≡ (linked links.old a f || list_any (hears (get_by_text endpoints.now) (rerouted_at rerouted.now) a f) (endpoints_of federates.now)) }
{
    for (f, federate) in federates.iter().enumerate() {
        let to = f as u16;
        link_hearers(
            links,
            endpoints,
            rerouted,
            to,
            federate.endpoints.as_slice(),
        );
    }
}

fn link_hearers(
    links: &mut Links,
    endpoints: &Names,
    rerouted: &Rerouted,
    to: u16,
    ends: &[EndRecord],
)
    requires to { to < length links.old }
    requires known { AreBelow (length links.old) (get_by_text endpoints.now) }
    requires places { (name : List ℕ) (e : EndRef) → get_by_text endpoints.now name ≡ Some e → HasPlace rerouted.now e }
    ensures count { length links.new ≡ length links.old }
    ensures links { (owner : List ℕ) (a f : ℕ) → linked links.new a f
        ≡ (linked links.old a f || list_any (hears (get_by_text endpoints.now) (rerouted_at rerouted.now) a f) (interfaces_in owner to 0 ends.now)) }
{
    for end in ends {
        link_sources(
            links,
            endpoints,
            rerouted,
            to,
            end.source_targets.as_slice(),
        );
    }
}

fn link_sources(
    links: &mut Links,
    endpoints: &Names,
    rerouted: &Rerouted,
    to: u16,
    sources: &[Text],
)
    requires to { to < length links.old }
    requires known { AreBelow (length links.old) (get_by_text endpoints.now) }
    requires places { (name : List ℕ) (e : EndRef) → get_by_text endpoints.now name ≡ Some e → HasPlace rerouted.now e }
    ensures count { length links.new ≡ length links.old }
    ensures links { (a f : ℕ) → linked links.new a f ≡ (linked links.old a f
        || (nat_eq f to && list_any (λ name. is_sender (rerouted_at rerouted.now) a (get_by_text endpoints.now name)) sources.now)) }
{
    for name in sources {
        link_source(links, endpoints, rerouted, to, name);
    }
}

// Links the federate of an endpoint, by its name, to another, unless the endpoint is rerouted.
fn link_source(links: &mut Links, endpoints: &Names, rerouted: &Rerouted, to: u16, name: &Text)
    requires to { to < length links.old }
    requires known { AreBelow (length links.old) (get_by_text endpoints.now) }
    requires places { (e : EndRef) → get_by_text endpoints.now name.now ≡ Some e → HasPlace rerouted.now e }
    ensures count { length links.new ≡ length links.old }
    ensures links { (a f : ℕ) → linked links.new a f ≡ (linked links.old a f
        || (nat_eq f to && is_sender (rerouted_at rerouted.now) a (get_by_text endpoints.now name.now))) }
{
    match endpoints.get(name.as_str()) {
        Some(at) if end_at(rerouted, *at).is_none() => links.link(at.fed, to),
        _ => {}
    }
}

fn end_at(rerouted: &Rerouted, at: EndRef) -> Option<EndRef>
    requires { HasPlace rerouted.now at }
    ensures { result ≡ rerouted_at rerouted.now at }
{
    *rerouted.at(at.fed as usize).at(at.index as usize)
}

// Links the federates of the interfaces that these names mean to another.
fn link_from(links: &mut Links, names: &Names, targets: &[Text], to: u16)
    requires to { to < length links.old }
    requires known { AreBelow (length links.old) (get_by_text names.now) }
    ensures count { length links.new ≡ length links.old }
    ensures links { (a f : ℕ) → linked links.new a f ≡ (linked links.old a f || (nat_eq f to && name_fed (get_by_text names.now) targets.now a)) }
{
    for name in targets {
        link_name(links, names, name, to);
    }
}

fn link_name(links: &mut Links, names: &Names, name: &Text, to: u16)
    requires to { to < length links.old }
    requires known { AreBelow (length links.old) (get_by_text names.now) }
    ensures count { length links.new ≡ length links.old }
    ensures links { (a f : ℕ) → linked links.new a f ≡ (linked links.old a f || (nat_eq f to && is_of a (get_by_text names.now name.now))) }
{
    match names.get(name.as_str()) {
        Some(at) => links.link(at.fed, to),
        None => {}
    }
}
