//! What an input holds: the last value applied to it, and whether one came since the last grant.
#![tactic(auto)]

ghost use Rattle.std.specs.Prelude.{◌≡◌, option_copied};
ghost use Rattle.value_updates.specs.Input.{applies, starts_grant, opening, after};
ghost use Rattle.value_updates.specs.Laws.{InputLaws};

use hel_values::Value;
use std::marker::Model;

/// An input as its federate sees it (docs/RULES.md, Values).
#[derive(Debug, Drop)]
pub struct InputState {
    value: Option<Value>,
    updated: bool,
}

impl Model for InputState {
    ghost use Rattle.value_updates.specs.Input.{Input};

    ghost Value = { Input };

    ghost view = { λ s. record { value = s.value; updated = s.updated } };
}

impl InputState {
    /// An input to which nothing was applied.
    pub fn new() -> InputState
        ensures { result ≡ opening }
    {
        InputState {
            value: None,
            updated: false,
        }
    }

    /// Applies a value: the input holds it and is marked.
    pub fn apply(&mut self, value: Value)
        ensures { self.new ≡ after self.old (applies value) }
    {
        self.value = Some(value);
        self.updated = true;
    }

    /// Clears the mark, as a grant begins.
    pub fn start_grant(&mut self)
        ensures { self.new ≡ after self.old starts_grant }
    {
        self.updated = false;
    }

    /// The last value applied, and `None` exactly where none was.
    pub fn value(&self) -> Option<&Value>
        ensures { option_copied result ≡ self.now.value }
    {
        self.value.as_ref()
    }

    /// Whether a value was applied since the mark was cleared.
    pub fn updated(&self) -> bool
        ensures { result ≡ self.now.updated }
    {
        self.updated
    }
}

/// Over every list of calls an input holds the last value applied, and its mark tells whether one
/// was applied since the last grant began.
pub fn input_laws()
    ensures { InputLaws }
{}

#[cfg(test)]
mod tests {
    use super::*;
    use std::test::Fail;

    #[test]
    fn the_last_value_and_the_mark(rt: HostRuntime) -> Result<(), Fail> {
        let mut input = InputState::new();
        for (number, grants, want, updated) in [
            (None, true, None, false),
            (Some(5), false, Some(5), true),
            (Some(7), false, Some(7), true),
            (None, true, Some(7), false),
            (Some(8), true, Some(8), false),
        ] {
            if let Some(number) = number {
                input.apply(Value::Int(number));
            }
            if grants {
                input.start_grant();
            }
            assert!(rt; input.value() == want.map(Value::Int).as_ref(), "{want:?}");
            assert_eq!(rt; input.updated(), updated);
        }
        Ok(())
    }
}
