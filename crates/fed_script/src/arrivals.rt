// What a grant does to inputs and inboxes.
ghost use Rattle.std.specs.Prelude.{◌≡◌, ◌<◌, [], length, replicate, slice_index_or, IfOk, OnOk};
ghost use Rattle.value_updates.specs.Input.{opening};
ghost use Rattle.fed_script.specs.Room.{letters_of, no_mail, count_for, HasRoom, with_letter};
ghost use Rattle.fed_script.specs.View.{marks_cleared, values_in, letters_in, applied, delivered};

use crate::names::EndpointNames;
use due_queue::{Content, Item};
use endpoint_messages::{Inbox, Letter};
use hel_lists::{Copied, Items, OutOfMemory};
use hel_values::Value;
use std::alloc::Global;
use value_updates::InputState;

pub(crate) fn new_inputs(alloc: Global, count: u16) -> Result<Items<InputState>, OutOfMemory>
    ensures { IfOk result (λ inputs. inputs ≡ replicate count opening) }
{
    let mut inputs = Items::new(alloc);
    for _ in 0..count {
        inputs.push(InputState::new())?;
    }
    Ok(inputs)
}

pub(crate) fn new_inboxes(alloc: Global, count: u16) -> Result<Items<Inbox>, OutOfMemory>
    ensures { IfOk result (λ inboxes. letters_of inboxes ≡ replicate count []) }
{
    let mut inboxes = Items::new(alloc);
    for _ in 0..count {
        inboxes.push(Inbox::new(alloc))?;
    }
    Ok(inboxes)
}

// Copies of the values among items, each with the input that it is for.
pub(crate) fn copied_values(alloc: Global, items: &[Item]) -> Result<Vec<(u16, Value)>, OutOfMemory>
    ensures { IfOk result (λ values. values.items ≡ values_in items.now) }
{
    let mut values = Vec::new(alloc);
    for item in items {
        if let Content::Value { input, value, .. } = &item.content {
            values.push((*input, value.copy(alloc)?))?;
        }
    }
    Ok(values)
}

// The messages among items as letters, each with the endpoint that it is for.
pub(crate) fn written_letters<N: EndpointNames>(
    alloc: Global,
    names: &N,
    items: &[Item],
) -> Result<Vec<(u16, Letter)>, OutOfMemory>
    ensures { IfOk result (λ letters. letters.items ≡ letters_in (N.name_of names.now) items.now) }
{
    let mut letters = Vec::new(alloc);
    for item in items {
        if let Content::Message(message) = &item.content {
            let source = names.name(alloc, message.original_source)?;
            let payload = message.payload.copy(alloc)?;
            letters.push((message.destination.index, Letter { source, payload }))?;
        }
    }
    Ok(letters)
}

// Makes room for letters, each in the inbox of its endpoint.
pub(crate) fn make_room(
    inboxes: &mut Items<Inbox>,
    letters: &[(u16, Letter)],
) -> Result<(), OutOfMemory>
    ensures same { letters_of inboxes.new ≡ letters_of inboxes.old }
    ensures room { OnOk result (HasRoom inboxes.new letters.now) }
{
    if letters.is_empty() {
        return Ok(());
    }
    for endpoint in 0..inboxes.len() {
        let count = count_for(letters, endpoint);
        inboxes.at_mut(endpoint).make_room(count)?;
    }
    Ok(())
}

fn count_for(letters: &[(u16, Letter)], endpoint: usize) -> usize
    ensures { result ≡ count_for endpoint letters.now }
{
    let mut count = 0;
    for letter in letters {
        if usize::from(letter.0) == endpoint {
            count += 1;
        }
    }
    count
}

pub(crate) fn clear_marks(inputs: &mut Items<InputState>)
    ensures { inputs.new ≡ marks_cleared inputs.old }
{
    for place in 0..inputs.len() {
        inputs.at_mut(place).start_grant();
    }
}

pub(crate) fn apply_all(inputs: &mut Items<InputState>, values: Vec<(u16, Value)>)
    ensures { inputs.new ≡ applied inputs.old values.items }
{
    for (input, value) in values {
        let place = usize::from(input);
        if place < inputs.len() {
            inputs.at_mut(place).apply(value);
        }
    }
}

pub(crate) fn deliver_all(inboxes: &mut Items<Inbox>, letters: Vec<(u16, Letter)>)
    requires { HasRoom inboxes.old letters.items }
    ensures { letters_of inboxes.new ≡ delivered (letters_of inboxes.old) letters.items }
{
    for (endpoint, letter) in letters {
        deliver(inboxes, usize::from(endpoint), letter);
    }
}

fn deliver(inboxes: &mut Items<Inbox>, endpoint: usize, letter: Letter)
    requires { endpoint < length inboxes.old → 0 < (slice_index_or inboxes.old endpoint no_mail).spare }
    ensures { inboxes.new ≡ with_letter inboxes.old endpoint letter }
{
    if endpoint < inboxes.len() {
        inboxes.at_mut(endpoint).deliver(letter);
    }
}
