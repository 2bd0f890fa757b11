ghost use Rattle.std.specs.Prelude.{◌≡◌, [], ◌∷◌, ◌++◌, ◌↔◌, IsTrue, IfOk, OnOk};
ghost use Rattle.interface_names.specs.Federate.{names_by, has_bad_by};
ghost use Rattle.interface_names.specs.GlobalName.{number_of, is_same};
ghost use Rattle.interface_names.specs.Names.{global_name_of, is_control, is_bad_name};
ghost use Rattle.std.specs.List.{list_any};

use crate::records::{EndRecord, FilterRecord, InputRecord, PubRecord};
use hel_lists::{OutOfMemory, Text};
use std::alloc::Global;
use std::hash::{Hash, Hasher};

/// The kinds of interfaces. Each numbers its own, and a name may stand once in each.
#[derive(Clone, Copy, Debug, PartialEq, Eq)]
pub enum InterfaceKind {
    Publication,
    Input,
    Endpoint,
    Filter,
}

impl InterfaceKind {
    /// Its place in the order of kinds.
    pub fn number(self) -> u8
        ensures { result ≡ number_of self }
    {
        match self {
            InterfaceKind::Publication => 0,
            InterfaceKind::Input => 1,
            InterfaceKind::Endpoint => 2,
            InterfaceKind::Filter => 3,
        }
    }
}

/// What an interface is called in the federation.
#[derive(Debug, Drop)]
pub struct GlobalName {
    pub kind: InterfaceKind,
    pub name: Text,
}

impl PartialEq for GlobalName {
    ghost use Rattle.std.specs.Cmp.Rules.{comparing};
    ghost use Rattle.std.proofs.Common.{rules};
    ghost use Rattle.interface_names.specs.GlobalName.{is_same};

    ghost eq = { is_same };

    ghost laws = { Prim.search (comparing, rules) };

    fn eq(&self, other: &GlobalName) -> bool
        ensures value { result ≡ is_same self.now other.now }
        ensures same { IsTrue result ↔ (self.now ≡ other.now) }
    {
        self.kind.number() == other.kind.number() && self.name == other.name
    }
}

impl Eq for GlobalName {
    ghost use Rattle.std.specs.Cmp.Rules.{comparing};
    ghost use Rattle.std.proofs.Common.{rules};

    ghost laws = { Prim.search (comparing, rules) };
}

impl Hash for GlobalName {
    ghost use Rattle.std.specs.Prelude.{◌++◌};
    ghost use Rattle.std.specs.Hash as fed;
    ghost use Rattle.interface_names.specs.GlobalName.{number_of};
    ghost use Rattle.std.specs.Cmp.Rules.{hashing};
    ghost use Rattle.std.proofs.Common.{rules};

    ghost hash_input = { λ n. fed.u8 (number_of n.kind) ++ fed.str n.name };

    ghost respects_eq = { Prim.search (hashing, rules) };

    fn hash<H: Hasher>(&self, state: &mut H) {
        self.kind.number().hash(state);
        self.name.as_str().hash(state);
    }
}

/// What the federation calls a federate's interface of this name: the name itself where it is
/// global, else the federate's name, a slash and the name (docs/RULES.md, Names).
pub fn global_name(
    alloc: Global,
    federate: &str,
    name: &str,
    global: bool,
) -> Result<Text, OutOfMemory>
    ensures { IfOk result (λ text. text ≡ global_name_of federate.now name.now global) }
{
    if global {
        return Text::from_str(alloc, name);
    }
    Ok(Text::of(format!(in alloc; "{federate}/{name}")?))
}

/// The most bytes of a name.
pub const NAME_LIMIT: usize = 255;

/// Whether nothing may have this name: it is empty, longer than 255 bytes, or holds a control
/// character (docs/RULES.md, Names).
pub(crate) fn is_bad(name: &str) -> bool
    ensures { result ≡ is_bad_name name.now }
{
    name.is_empty() || name.len() > NAME_LIMIT || has_control(name.as_bytes())
}

fn has_control(bytes: &[u8]) -> bool
    ensures { result ≡ list_any is_control bytes.now }
{
    bytes.iter().any(|byte| *byte < 0x20 || *byte == 0x7f)
}

/// An interface, which its federate may have named.
pub(crate) trait Named {
    ghost use Rattle.std.specs.Prelude.{◌≡◌, Option};
    ghost use Rattle.std.specs.Option.{option_map};
    ghost use Rattle.interface_names.specs.Federate.{OwnName};

    ghost name_of: { Self → Option OwnName };

    /// The name, and whether it is global.
    fn own_name(&self) -> Option<(&str, bool)>
        ensures { option_map (λ own. record { name = own.0.now; global = own.1 }) result ≡ name_of self.now };
}

impl Named for PubRecord {
    ghost use Rattle.interface_names.specs.Federate.{name_of_publication};

    ghost name_of = { name_of_publication };

    fn own_name(&self) -> Option<(&str, bool)> {
        Some((self.name.as_str(), self.global))
    }
}

impl Named for InputRecord {
    ghost use Rattle.interface_names.specs.Federate.{name_of_input};

    ghost name_of = { name_of_input };

    fn own_name(&self) -> Option<(&str, bool)> {
        match &self.name {
            Some(name) => Some((name.as_str(), self.global)),
            None => None,
        }
    }
}

impl Named for EndRecord {
    ghost use Rattle.interface_names.specs.Federate.{name_of_endpoint};

    ghost name_of = { name_of_endpoint };

    fn own_name(&self) -> Option<(&str, bool)> {
        Some((self.name.as_str(), self.global))
    }
}

impl Named for FilterRecord {
    ghost use Rattle.interface_names.specs.Federate.{name_of_filter};

    ghost name_of = { name_of_filter };

    fn own_name(&self) -> Option<(&str, bool)> {
        match &self.name {
            Some(name) => Some((name.as_str(), false)),
            None => None,
        }
    }
}

/// Whether one of these has a bad name.
pub(crate) fn has_bad<T: Named>(interfaces: &[T]) -> bool
    ensures { result ≡ has_bad_by T.name_of interfaces.now }
{
    interfaces
        .iter()
        .any(|interface| match interface.own_name() {
            Some((name, _)) => is_bad(name),
            None => false,
        })
}

/// Puts what the federation calls these behind other names.
pub(crate) fn push_names<T: Named>(
    names: &mut Vec<GlobalName>,
    kind: InterfaceKind,
    federate: &str,
    interfaces: &[T],
) -> Result<(), OutOfMemory>
    ensures { OnOk result (names.new.items ≡ names.old.items ++ names_by T.name_of kind federate.now interfaces.now) }
{
    for interface in interfaces {
        push_name(names, kind, federate, interface)?;
    }
    Ok(())
}

fn push_name<T: Named>(
    names: &mut Vec<GlobalName>,
    kind: InterfaceKind,
    federate: &str,
    interface: &T,
) -> Result<(), OutOfMemory>
    ensures { OnOk result (names.new.items ≡ names.old.items ++ names_by T.name_of kind federate.now (interface.now ∷ [])) }
{
    let Some((name, global)) = interface.own_name() else {
        return Ok(());
    };
    let name = global_name(*names.allocator(), federate, name, global)?;
    names.push(GlobalName { kind, name })?;
    Ok(())
}
