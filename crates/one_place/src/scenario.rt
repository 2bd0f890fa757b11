use fed_script::Script;
use federation_plan::Plan;
use hel_lists::Items;
use std::marker::Model;

/// A plan and one script for each of its federates.
#[derive(Debug, Drop)]
pub struct Scenario {
    pub plan: Plan,
    pub scripts: Items<Script>,
}

impl Model for Scenario {
    ghost use Rattle.one_place.specs.Scene.{Scene, IsScene};

    ghost Value = { Scene };

    ghost view = { λ s. record { plan = s.plan; scripts = s.scripts } };

    ghost invariant = { λ s. IsScene (record { plan = s.plan; scripts = s.scripts }) };
}
