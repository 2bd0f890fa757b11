ghost use Rattle.std.specs.Prelude.{◌≡◌, ◌<◌, ◌∷◌, ◌++◌, length, IfOk, OnOk, codes, decimal, string_bytes};
ghost use Rattle.std.specs.List.{flat_map, range_with_len};
ghost use Rattle.federation_plan.specs.Tree.{node_at};
ghost use Rattle.log_text.specs.Text.{line};
ghost use Rattle.log_text.specs.Check.{check_line, cycle_line, check_of, IsCheckText};

use federation_plan::{NodeRow, Plan, federate_name};
use hel_lists::OutOfMemory;
use interface_names::FederateRecord;
use std::alloc::Global;

// The name of a node, and a blank one where there is none of this number.
fn node_name(nodes: &[NodeRow], number: u16) -> &str
    ensures { result.now ≡ (node_at nodes.now number).name }
{
    match nodes.get(usize::from(number)) {
        Some(node) => node.name.as_str(),
        None => "",
    }
}

fn write_head(out: &mut String, number: u16, name: &str) -> Result<(), OutOfMemory>
    ensures { OnOk result (string_bytes out.new ≡ string_bytes out.old ++ codes "federate " ++ decimal number ++ 32 ∷ name.now) }
{
    write!(out, "federate {number} {name}")?;
    Ok(())
}

fn write_rest(out: &mut String, core: &str, ancestors: usize) -> Result<(), OutOfMemory>
    ensures { OnOk result (string_bytes out.new ≡ string_bytes out.old ++ line (codes " core " ++ core.now ++ codes " ancestors " ++ decimal ancestors)) }
{
    writeln!(out, " core {core} ancestors {ancestors}")?;
    Ok(())
}

fn write_line(
    out: &mut String,
    number: u16,
    name: &str,
    core: &str,
    ancestors: usize,
) -> Result<(), OutOfMemory>
    ensures { OnOk result (string_bytes out.new ≡ string_bytes out.old
        ++ line (codes "federate " ++ decimal number ++ 32 ∷ name.now ++ codes " core " ++ core.now ++ codes " ancestors " ++ decimal ancestors)) }
{
    write_head(out, number, name)?;
    write_rest(out, core, ancestors)?;
    Ok(())
}

fn write_federate(out: &mut String, plan: &Plan, number: u16) -> Result<(), OutOfMemory>
    requires { number < length plan.now.federates }
    ensures { OnOk result (string_bytes out.new ≡ string_bytes out.old ++ check_line plan.now number) }
{
    let name = federate_name(plan.federates(), usize::from(number));
    let core = node_name(plan.tree().nodes.as_slice(), plan.core_of(number));
    write_line(out, number, name, core, plan.ancestors(number).len())
}

fn write_federates(out: &mut String, plan: &Plan) -> Result<(), OutOfMemory>
    ensures { OnOk result (string_bytes out.new ≡ string_bytes out.old ++ flat_map (check_line plan.now) (range_with_len 0 (length plan.now.federates))) }
{
    for number in 0..plan.count() {
        write_federate(out, plan, number)?;
    }
    Ok(())
}

fn write_pair(out: &mut String, first: &str, second: &str) -> Result<(), OutOfMemory>
    ensures { OnOk result (string_bytes out.new ≡ string_bytes out.old ++ line (codes "wait cycle " ++ first.now ++ 32 ∷ second.now)) }
{
    writeln!(out, "wait cycle {first} {second}")?;
    Ok(())
}

fn write_cycle(
    out: &mut String,
    federates: &[FederateRecord],
    pair: Option<(u16, u16)>,
) -> Result<(), OutOfMemory>
    ensures { OnOk result (string_bytes out.new ≡ string_bytes out.old ++ cycle_line federates.now pair) }
{
    match pair {
        Some(pair) => {
            let first = federate_name(federates, usize::from(pair.0));
            let second = federate_name(federates, usize::from(pair.1));
            write_pair(out, first, second)
        }
        None => Ok(()),
    }
}

// Writes the text with this pair of federates that wait for each other.
fn write_check(out: &mut String, plan: &Plan, pair: Option<(u16, u16)>) -> Result<(), OutOfMemory>
    ensures { OnOk result (string_bytes out.new ≡ string_bytes out.old ++ check_of plan.now pair) }
{
    let federates = plan.federates();
    writeln!(out, "federates {}", federates.len())?;
    writeln!(out, "nodes {}", plan.tree().nodes.len())?;
    write_federates(out, plan)?;
    write_cycle(out, federates, pair)?;
    out.push_str("ok\n")?;
    Ok(())
}

/// The text of a plan: the numbers of federates and nodes, a line for each federate with its core
/// and the number of its ancestors, and the names of the first pair of federates that wait for each
/// other, where there is one (docs/FORMATS.md, Check text).
pub fn check_text(alloc: Global, plan: &Plan) -> Result<String, OutOfMemory>
    ensures { IfOk result (λ text. IsCheckText plan.now (string_bytes text)) }
{
    let mut out = String::new(alloc);
    write_check(&mut out, plan, plan.wait_cycle())?;
    Ok(out)
}
