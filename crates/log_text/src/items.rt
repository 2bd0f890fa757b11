// The lines of what a grant handed over.
ghost use Rattle.std.specs.Prelude.{◌≡◌, ◌++◌, IfOk, OnOk, string_bytes};
ghost use Rattle.std.specs.List.{flat_map};
ghost use Rattle.json.specs.Print.{quoted};
ghost use Rattle.due_queue.specs.declared.item.Content.TheVariants.{Message as MessageContent};
ghost use Rattle.log_text.specs.Text.{value_text, content_text, item_text};

use crate::names::{write_endpoint, write_publication};
use due_queue::{Content, Item, Message};
use hel_lists::OutOfMemory;
use hel_values::Value;
use helics_time::Seconds;
use interface_names::FederateRecord;
use serde_json::Value as Json;
use std::alloc::Global;

/// JSON text of a text.
pub(crate) fn quoted(alloc: Global, text: &str) -> Result<String, OutOfMemory>
    ensures { IfOk result (λ json. string_bytes json ≡ quoted text.now) }
{
    Ok(Json::try_from_str(alloc, text)?.to_string(alloc)?)
}

fn write_value(alloc: Global, out: &mut String, value: &Value) -> Result<(), OutOfMemory>
    ensures { OnOk result (string_bytes out.new ≡ string_bytes out.old ++ value_text value.now) }
{
    match value {
        Value::Int(number) => write!(out, "int {number}")?,
        Value::Text(text) => {
            let json = quoted(alloc, text.text())?;
            write!(out, "text {json}")?;
        }
        Value::Bytes(payload) => {
            let digits = hex::encode(alloc, payload.bytes())?;
            write!(out, "bytes {digits}")?;
        }
    }
    Ok(())
}

fn write_message(
    alloc: Global,
    out: &mut String,
    federates: &[FederateRecord],
    message: &Message,
) -> Result<(), OutOfMemory>
    ensures { OnOk result (string_bytes out.new ≡ string_bytes out.old ++ content_text federates.now (MessageContent message.now)) }
{
    write!(out, "message {} from ", message.destination.index)?;
    write_endpoint(out, federates, message.original_source)?;
    out.push_str(" for ")?;
    write_endpoint(out, federates, message.original_destination)?;
    let digits = hex::encode(alloc, message.payload.bytes())?;
    writeln!(out, " at {} bytes {digits}", Seconds(message.time))?;
    Ok(())
}

fn write_content(
    alloc: Global,
    out: &mut String,
    federates: &[FederateRecord],
    content: &Content,
) -> Result<(), OutOfMemory>
    ensures { OnOk result (string_bytes out.new ≡ string_bytes out.old ++ content_text federates.now content.now) }
{
    match content {
        Content::Value {
            input,
            publication,
            value,
        } => {
            write!(out, "value {input} from ")?;
            write_publication(out, federates, *publication)?;
            out.push(' ')?;
            write_value(alloc, out, value)?;
            out.push('\n')?;
        }
        Content::Message(message) => write_message(alloc, out, federates, message)?,
    }
    Ok(())
}

/// Writes a line for each item.
pub(crate) fn write_items(
    alloc: Global,
    out: &mut String,
    federates: &[FederateRecord],
    items: &[Item],
) -> Result<(), OutOfMemory>
    ensures { OnOk result (string_bytes out.new ≡ string_bytes out.old ++ flat_map (item_text federates.now) items.now) }
{
    for item in items {
        write_content(alloc, out, federates, &item.content)?;
    }
    Ok(())
}
