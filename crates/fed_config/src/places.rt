// The names of a federate's interfaces, with their places.
ghost use Rattle.std.specs.Prelude.{◌≡◌, ◌≤◌, ◌^◌, ℕ, List, length, map, IfOk};
ghost use Rattle.fed_config.specs.Places.{place_in, place_at};

use hel_lists::OutOfMemory;
use interface_names::{EndRecord, PubRecord};
use std::alloc::Global;
use std::collections::HashMap;

/// An interface that its federate has named.
pub trait Named {
    ghost use Rattle.std.specs.Prelude.{ℕ, List};

    ghost name_of: { Self → List ℕ };

    fn name(&self) -> &str
        ensures { result.now ≡ name_of self.now };
}

impl Named for PubRecord {
    ghost name_of = { λ p. p.name };

    fn name(&self) -> &str {
        self.name.as_str()
    }
}

impl Named for EndRecord {
    ghost name_of = { λ e. e.name };

    fn name(&self) -> &str {
        self.name.as_str()
    }
}

/// The places of names in a list, counted from 0.
#[derive(Drop)]
pub struct Places {
    places: HashMap<String, u16>,
}

impl Places {
    /// The places of these interfaces: a name that stands twice has the first.
    pub fn of<T: Named>(alloc: Global, interfaces: &[T]) -> Result<Places, OutOfMemory>
        requires { length interfaces.now ≤ 2 ^ 16 }
        ensures { IfOk result (λ places. (name : List ℕ) → place_at places name ≡ place_in (map T.name_of interfaces.now) name) }
    {
        let mut places = HashMap::new(alloc);
        let mut place = interfaces.len();
        while place > 0 {
            place -= 1;
            let name = String::from_str(alloc, interfaces[place].name())?;
            places.insert(name, place as u16)?;
        }
        Ok(Places { places })
    }

    /// The place of a name, where it is among the names.
    pub fn find(&self, name: &str) -> Option<u16>
        ensures { result ≡ place_at self.now name.now }
    {
        self.places.get(name).copied()
    }
}
