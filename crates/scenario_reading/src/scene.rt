use fed_script::Script;
use federation_plan::Plan;
use hel_lists::Items;

/// What a runner file and its federates' files set up: the plan, and the script of each federate
/// that has one, in order of the federates.
#[derive(Drop)]
pub struct Setting {
    pub plan: Plan,
    pub scripts: Items<Option<Script>>,
}

/// What is run: the plan, and the script of each federate in their order.
#[derive(Drop)]
pub struct Scenario {
    pub plan: Plan,
    pub scripts: Items<Script>,
}
