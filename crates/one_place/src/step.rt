use hel_lists::Text;
use hel_values::{Payload, TextValue, Value};
use iteration_rules::Mode;

/// One step of the machine. Numbers are those of the plan, a time is in nanoseconds and at most MAX.
#[derive(Debug, Drop)]
pub enum MachineStep {
    /// Every federate that is Created becomes Initializing.
    Begin,
    /// A federate asks to enter the executing mode.
    Enter(u16),
    Publish {
        fed: u16,
        publication: u16,
        value: Value,
    },
    Send {
        fed: u16,
        endpoint: u16,
        dest: Text,
        payload: Payload,
    },
    /// A federate asks for a time.
    Request {
        fed: u16,
        time: u64,
        mode: Mode,
    },
    /// A federate that asks gets its next stamp.
    Grant(u16),
    Finish(u16),
    Fail {
        fed: u16,
        text: TextValue,
    },
    Die(u16),
    /// The live federates of a core end, because the federate named has failed or died.
    Halt {
        core: u16,
        fed: u16,
    },
}
