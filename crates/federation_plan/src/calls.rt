ghost use Rattle.std.specs.Prelude.{◌≡◌, ◌<◌, length, IfSome};
ghost use Rattle.std.specs.Option.{option_copied};
ghost use Rattle.federation_plan.specs.Interfaces.{IsEndpoint, endpoint_at};
ghost use Rattle.federation_plan.specs.Wires.{destined, endpoint_in, kind_objection, name_meant as name_meant_by, publication_in, send_objection, target_objection};

use crate::plan::Plan;
use crate::refusal::same_kind;
use hel_values::{EndRef, Value};
use interface_names::{EndRecord, PubRecord};
use machine_laws::CallRefusal;

impl Plan {
    /// Why a federate doesn't publish a value: it has no such publication, or the value is of another
    /// kind (docs/RULES.md, Calls).
    pub fn publish_objection(&self, publication: EndRef, value: &Value) -> Option<CallRefusal>
        requires { publication.fed < length self.now.federates }
        ensures { result ≡ kind_objection (publication_in self.now.federates publication.fed publication.index) value.now }
    {
        let federate = self.federate(publication.fed);
        objection_to(
            federate.publications.get(usize::from(publication.index)),
            value,
        )
    }

    /// Why a federate's endpoint doesn't send to a name: it has no such endpoint, none has the name,
    /// or it may not send there (docs/RULES.md, Calls).
    pub fn send_objection(&self, from: EndRef, name: &str) -> Option<CallRefusal>
        requires { from.fed < length self.now.federates }
        ensures { result ≡ send_objection self.now.federates from (endpoint_in self.now.federates from.fed from.index) name.now }
    {
        let federate = self.federate(from.fed);
        if usize::from(from.index) >= federate.endpoints.len() {
            return Some(CallRefusal::NotOwner);
        }
        self.target_objection(from, name)
    }

    fn target_objection(&self, from: EndRef, name: &str) -> Option<CallRefusal>
        requires { IsEndpoint self.now.federates from }
        ensures { result ≡ target_objection self.now.federates from (destined self.now.federates (endpoint_at self.now.federates from).item name.now) }
    {
        match self.destined(from, name) {
            Some(to) if self.may_send(from, to) => None,
            Some(_) => Some(CallRefusal::NotATarget),
            None => Some(CallRefusal::UnknownEndpoint),
        }
    }

    /// The endpoint that a send from an endpoint to a name means: the empty name means the default
    /// destination. `None` where it has none, or no endpoint has the name.
    pub fn destined(&self, from: EndRef, name: &str) -> Option<EndRef>
        requires { IsEndpoint self.now.federates from }
        ensures value { result ≡ destined self.now.federates (endpoint_at self.now.federates from).item name.now }
        ensures is { IfSome result (IsEndpoint self.now.federates) }
    {
        let federate = self.federate(from.fed);
        match name_meant(federate.endpoints.at(usize::from(from.index)), name) {
            Some(name) => self.endpoint(name),
            None => None,
        }
    }
}

// Why a publication, where there is one, doesn't take a value.
fn objection_to(publication: Option<&PubRecord>, value: &Value) -> Option<CallRefusal>
    ensures { result ≡ kind_objection (option_copied publication.entry) value.now }
{
    match publication {
        None => Some(CallRefusal::NotOwner),
        Some(row) if same_kind(row.kind, value.kind()) => None,
        Some(_) => Some(CallRefusal::KindMismatch),
    }
}

// The name that a send from an endpoint means.
fn name_meant<'a>(end: &'a EndRecord, name: &'a str) -> Option<&'a str>
    ensures { option_copied result ≡ name_meant_by end.now name.now }
{
    if !name.is_empty() {
        return Some(name);
    }
    match &end.default_destination {
        Some(default) => Some(default.as_str()),
        None => None,
    }
}
