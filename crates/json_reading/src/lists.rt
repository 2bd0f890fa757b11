// Lists.
ghost use Rattle.std.specs.Prelude.{◌≡◌, decimal, [], ◌∷◌, ok_or, Ok};
ghost use Rattle.serde_json.specs.View.{view, items_view};
ghost use Rattle.json_reading.specs.Reading.{Gives, Stands, below, each_from, few_items};
ghost use Rattle.json_reading.specs.declared.refusal.ConfigCause.TheVariants.{NotAList};
ghost use Rattle.json_reading.specs.Leaves.{GivesItems};
ghost use Rattle.serde_json.specs.Find.{as_array};

use crate::fields::Reader;
use crate::leaves::AnyText;
use crate::refusal::{ConfigCause, ConfigRefusal};
use hel_lists::{Items, Text};
use serde_json::Value;
use std::alloc::Global;

/// Reads a list, each item by its reader: NotAList.
#[derive(Clone, Copy, Debug, PartialEq, Eq)]
pub struct ListOf<R> {
    pub reader: R,
}

impl<R: Reader> Reader for ListOf<R>
where
    R::Output: Drop,
{
    ghost use Rattle.json_reading.specs.Reading.{list_of};

    type Output = Items<R::Output>;

    ghost reads = { λ list. list_of (R.reads list.reader) };

    fn read(&self, alloc: Global, value: &Value) -> Result<Items<R::Output>, ConfigRefusal> {
        match items(value) {
            Ok(items) => each(alloc, items, &self.reader),
            Err(cause) => Err(ConfigRefusal::of(alloc, cause)),
        }
    }
}

/// Reads a list of at most so many items, each by its reader: NotAList, OutOfRange.
#[derive(Clone, Copy, Debug, PartialEq, Eq)]
pub struct ListUpTo<R> {
    pub reader: R,
    pub most: usize,
}

impl<R: Reader> Reader for ListUpTo<R>
where
    R::Output: Drop,
{
    ghost use Rattle.json_reading.specs.Reading.{list_up_to};

    type Output = Items<R::Output>;

    ghost reads = { λ list. list_up_to list.most (R.reads list.reader) };

    fn read(&self, alloc: Global, value: &Value) -> Result<Items<R::Output>, ConfigRefusal> {
        match few_items(value, self.most) {
            Ok(items) => each(alloc, items, &self.reader),
            Err(cause) => Err(ConfigRefusal::of(alloc, cause)),
        }
    }
}

/// The items of a list: NotAList.
pub fn items(value: &Value) -> Result<&[Value], ConfigCause>
    ensures { GivesItems result (ok_or (as_array (view value.now)) NotAList) }
{
    match value.as_array() {
        None => Err(ConfigCause::NotAList),
        Some(list) => Ok(list.as_slice()),
    }
}

/// The items of a list of at most so many: NotAList, OutOfRange.
#[tactic(auto, using(crate::proofs::Fronts::counts))]
pub fn few_items(value: &Value, most: usize) -> Result<&[Value], ConfigCause>
    ensures { GivesItems result (few_items most (as_array (view value.now))) }
{
    match value.as_array() {
        None => Err(ConfigCause::NotAList),
        Some(list) if list.len() > most => Err(ConfigCause::OutOfRange),
        Some(list) => Ok(list.as_slice()),
    }
}

/// Reads a text, or a list of texts: NotAText.
#[derive(Clone, Copy, Debug, PartialEq, Eq)]
pub struct TextOrTexts;

impl Reader for TextOrTexts {
    ghost use Rattle.json_reading.specs.Leaves.{texts_in};

    type Output = Items<Text>;

    ghost reads = { λ reader. texts_in };

    fn read(&self, alloc: Global, value: &Value) -> Result<Items<Text>, ConfigRefusal> {
        match value {
            Value::String(text) => one_text(alloc, text.as_str()),
            Value::Array(list) => each(alloc, list.as_slice(), &AnyText),
            _ => Err(ConfigRefusal::of(alloc, ConfigCause::NotAText)),
        }
    }
}

fn one_text(alloc: Global, text: &str) -> Result<Items<Text>, ConfigRefusal>
    ensures { Gives (λ x. x) result (Ok (text.now ∷ [])) }
{
    let mut texts = Items::new(alloc);
    let Ok(text) = Text::from_str(alloc, text) else {
        return Err(ConfigRefusal::memory(alloc));
    };
    match texts.push(text) {
        Ok(()) => Ok(texts),
        Err(_) => Err(ConfigRefusal::memory(alloc)),
    }
}

/// What the items of a list hold, in order.
pub fn each<R: Reader>(
    alloc: Global,
    list: &[Value],
    reader: &R,
) -> Result<Items<R::Output>, ConfigRefusal>
where
    R::Output: Drop,
    ensures { Gives (λ x. x) result (each_from (R.reads reader.now) 0 (items_view list.now)) }
{
    let mut found = Items::new(alloc);
    for (place, value) in list.iter().enumerate() {
        let one = match reader.read(alloc, value) {
            Ok(one) => one,
            Err(refusal) => return Err(at_place(alloc, place, refusal)),
        };
        match found.push(one) {
            Ok(()) => {}
            Err(_) => return Err(ConfigRefusal::memory(alloc)),
        }
    }
    Ok(found)
}

/// The refusal below a place of a list, counted from 0.
pub fn at_place(alloc: Global, place: usize, refusal: ConfigRefusal) -> ConfigRefusal
    ensures { Stands result (below (decimal place) refusal) }
{
    match place.to_string(alloc) {
        Ok(place) => refusal.under(alloc, place.as_str()),
        Err(_) => ConfigRefusal::memory(alloc),
    }
}
