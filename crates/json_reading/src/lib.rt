//! Reading JSON: keys by their tables, and what a value holds or the first refusal with its place.
#![tactic(auto)]

mod document;
mod fields;
mod keys;
mod leaves;
mod lists;
mod refusal;

pub use document::parse;
pub use fields::{Reader, needed, needed_either, optional, optional_either};
pub use keys::{Object, as_object, has_doubled, member, members, same_key};
pub use leaves::{
    AnyInteger, AnyText, TextUpTo, TimeUpTo, TrueOrFalse, WholeBetween, flag, integer, text, time,
    whole,
};
pub use lists::{ListOf, ListUpTo, TextOrTexts, at_place, each, few_items, items};
pub use refusal::{ConfigCause, ConfigRefusal};
