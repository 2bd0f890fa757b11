ghost use Rattle.std.specs.Prelude.{◌≡◌, ◌↔◌, IsTrue};
ghost use Rattle.due_queue.specs.Item.{interface_of, is_due, same_content, same_message, same_parcel};
ghost use Rattle.due_queue.specs.Order.{is_sooner};

use hel_lists::{Copied, OutOfMemory};
use hel_values::{EndRef, Payload, Value};
use helics_time::Stamp;
use std::alloc::Global;
use std::marker::Model;

/// A message from one endpoint to another.
#[derive(Debug, Drop)]
pub struct Message {
    /// The endpoint that sent it last.
    pub source: EndRef,
    pub original_source: EndRef,
    /// The endpoint that it goes to.
    pub destination: EndRef,
    pub original_destination: EndRef,
    /// The time of its due, in nanoseconds.
    pub time: u64,
    pub payload: Payload,
}

impl Copied for Message {
    fn copy(&self, alloc: Global) -> Result<Self, OutOfMemory> {
        Ok(Message {
            source: self.source,
            original_source: self.original_source,
            destination: self.destination,
            original_destination: self.original_destination,
            time: self.time,
            payload: self.payload.copy(alloc)?,
        })
    }
}

impl PartialEq for Message {
    ghost use Rattle.std.specs.Cmp.{decided, partial_equiv_from_equiv};
    ghost use Rattle.due_queue.specs.Item.{same_message};
    ghost use Rattle.due_queue.specs.Sameness.{same_message-Decides};

    ghost eq = { same_message };

    ghost laws = { partial_equiv_from_equiv (decided same_message same_message-Decides) };

    fn eq(&self, other: &Message) -> bool
        ensures value { result ≡ same_message self.now other.now }
        ensures same { IsTrue result ↔ (self.now ≡ other.now) }
    {
        self.source == other.source
            && self.original_source == other.original_source
            && self.destination == other.destination
            && self.original_destination == other.original_destination
            && self.time == other.time
            && self.payload == other.payload
    }
}

impl Eq for Message {
    ghost use Rattle.std.specs.Cmp.{decided};
    ghost use Rattle.due_queue.specs.Item.{same_message};
    ghost use Rattle.due_queue.specs.Sameness.{same_message-Decides};

    ghost laws = { decided same_message same_message-Decides };
}

/// What an item hands over.
#[derive(Debug, Drop)]
pub enum Content {
    Value {
        /// The number of the receiver's input.
        input: u16,
        publication: EndRef,
        value: Value,
    },
    Message(Message),
}

impl Content {
    /// The number of the receiver's interface that it is for: an input, or an endpoint.
    pub fn interface(&self) -> u16
        ensures { result ≡ interface_of self.now }
    {
        match self {
            Content::Value { input, .. } => *input,
            Content::Message(message) => message.destination.index,
        }
    }
}

impl Copied for Content {
    fn copy(&self, alloc: Global) -> Result<Self, OutOfMemory> {
        match self {
            Content::Value {
                input,
                publication,
                value,
            } => Ok(Content::Value {
                input: *input,
                publication: *publication,
                value: value.copy(alloc)?,
            }),
            Content::Message(message) => Ok(Content::Message(message.copy(alloc)?)),
        }
    }
}

impl PartialEq for Content {
    ghost use Rattle.std.specs.Cmp.{decided, partial_equiv_from_equiv};
    ghost use Rattle.due_queue.specs.Item.{same_content};
    ghost use Rattle.due_queue.specs.Sameness.{same_content-Decides};

    ghost eq = { same_content };

    ghost laws = { partial_equiv_from_equiv (decided same_content same_content-Decides) };

    fn eq(&self, other: &Content) -> bool
        ensures value { result ≡ same_content self.now other.now }
        ensures same { IsTrue result ↔ (self.now ≡ other.now) }
    {
        match (self, other) {
            (
                Content::Value {
                    input,
                    publication,
                    value,
                },
                Content::Value {
                    input: other_input,
                    publication: other_publication,
                    value: other_value,
                },
            ) => input == other_input && publication == other_publication && value == other_value,
            (Content::Message(message), Content::Message(other_message)) => message
                == other_message,
            _ => false,
        }
    }
}

impl Eq for Content {
    ghost use Rattle.std.specs.Cmp.{decided};
    ghost use Rattle.due_queue.specs.Item.{same_content};
    ghost use Rattle.due_queue.specs.Sameness.{same_content-Decides};

    ghost laws = { decided same_content same_content-Decides };
}

/// A value or a message that is under way to a federate.
#[derive(Debug, Drop)]
pub struct Item {
    /// The federate that made it.
    pub source: u16,
    /// The sequence number of the call that made it.
    pub seq: u64,
    pub target: u16,
    /// It is handed over at the first grant whose cut reaches this stamp. Its time is below
    /// 2^62 + 2^61 nanoseconds, and its micro step at most 2^62 + 1 (docs/RULES.md, Items).
    pub due: Stamp,
    pub content: Content,
}

impl Model for Item {
    ghost use Rattle.helics_time.specs.Stamp.{IsDue};
    ghost use Rattle.due_queue.specs.Item.{Parcel};

    ghost Value = { Parcel };

    ghost view = { λ i. record {
      source = i.source;
      seq = i.seq;
      target = i.target;
      due = i.due;
      content = i.content;
    } };

    ghost invariant = { λ i. IsDue i.due };
}

impl Item {
    /// Whether a queue has this item before another: by due, source, sequence number and
    /// interface, in this order (docs/RULES.md, Items).
    #[tactic(auto, using(std::proofs::lemmas::Bool::Decides::nat_tests), unfolding(crate::specs::Order::is_sooner))]
    pub fn is_sooner(&self, other: &Item) -> bool
        ensures { result ≡ is_sooner self.now other.now }
    {
        self.place() < other.place()
    }

    fn place(&self) -> (u64, u64, u16, u64, u16)
        ensures time { result.0 ≡ self.now.due.time }
        ensures micro { result.1 ≡ self.now.due.micro }
        ensures source { result.2 ≡ self.now.source }
        ensures seq { result.3 ≡ self.now.seq }
        ensures interface { result.4 ≡ interface_of self.now.content }
    {
        let due = self.due;
        (
            due.time,
            due.micro,
            self.source,
            self.seq,
            self.content.interface(),
        )
    }

    /// Whether a grant with this cut hands it over.
    pub fn is_due(&self, cut: &Stamp) -> bool
        ensures { result ≡ is_due cut.now self.now }
    {
        self.due <= *cut
    }
}

impl Copied for Item {
    fn copy(&self, alloc: Global) -> Result<Self, OutOfMemory> {
        let content = self.content.copy(alloc)?;
        Ok(Item {
            source: self.source,
            seq: self.seq,
            target: self.target,
            due: self.due,
            content,
        })
    }
}

impl PartialEq for Item {
    ghost use Rattle.std.specs.Cmp.{decided, partial_equiv_from_equiv};
    ghost use Rattle.due_queue.specs.Item.{same_parcel};
    ghost use Rattle.due_queue.specs.Sameness.{same_parcel-Decides};

    ghost eq = { same_parcel };

    ghost laws = { partial_equiv_from_equiv (decided same_parcel same_parcel-Decides) };

    fn eq(&self, other: &Item) -> bool
        ensures value { result ≡ same_parcel self.now other.now }
        ensures same { IsTrue result ↔ (self.now ≡ other.now) }
    {
        self.source == other.source
            && self.seq == other.seq
            && self.target == other.target
            && self.due.time == other.due.time
            && self.due.micro == other.due.micro
            && self.content == other.content
    }
}

impl Eq for Item {
    ghost use Rattle.std.specs.Cmp.{decided};
    ghost use Rattle.due_queue.specs.Item.{same_parcel};
    ghost use Rattle.due_queue.specs.Sameness.{same_parcel-Decides};

    ghost laws = { decided same_parcel same_parcel-Decides };
}
