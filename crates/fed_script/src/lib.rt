//! Scripts of federates: their words, the view over which they act, and the actions that they give.
#![tactic(auto)]

mod action;
mod arrivals;
mod laws;
mod names;
mod rounds;
mod script;
mod view;
mod word;
mod words;

pub use action::Action;
pub use laws::script_laws;
pub use names::EndpointNames;
pub use script::Script;
pub use view::View;
pub use word::Word;
pub use words::Words;
