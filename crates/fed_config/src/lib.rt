//! Federate files: what a federate brings, read whole, or the first refusal with its place.
#![tactic(auto)]

mod config;
mod filters;
mod interfaces;
mod names;
mod places;
mod scripts;
mod values;
mod verbs;
mod words;

pub use config::{FederateConfig, read_federate};
pub use json_reading::{ConfigCause, ConfigRefusal};
