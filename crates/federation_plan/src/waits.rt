ghost use Rattle.std.specs.Prelude.{◌≡◌, ◌<◌, ◌↔◌, true, length, IsTrue};
ghost use Rattle.hel_lists.specs.Members.{IsIn};
ghost use Rattle.dependency_paths.specs.Paths.{row_of};
ghost use Rattle.federation_plan.specs.Interfaces.{federate_at};
ghost use Rattle.federation_plan.specs.Waiting.{IsFirstWait, IsFirstPartner, IsWaitPair};

use crate::plan::Plan;

impl Plan {
    /// Of the pairs of federates that wait for current updates and are each other's ancestors, the
    /// lesser number first, the least in order. `None` exactly where there is no such pair.
    pub fn wait_cycle(&self) -> Option<(u16, u16)>
        ensures { IsFirstWait self.now result }
    {
        let federates = self.federates();
        for a in 0..federates.len() as u16 {
            if let Some(b) = self.partner(a) {
                return Some((a, b));
            }
        }
        None
    }

    // The least federate of a greater number with which it makes such a pair.
    fn partner(&self, a: u16) -> Option<u16>
        requires { a < length self.now.federates }
        ensures { IsFirstPartner self.now a result }
    {
        let federates = self.federates();
        let federate = &federates[usize::from(a)];
        if !federate.settings.wait {
            return None;
        }
        for b in self.ancestors(a) {
            if self.is_wait_pair(a, *b) {
                return Some(*b);
            }
        }
        None
    }

    // Whether one that waits makes such a pair with an ancestor.
    fn is_wait_pair(&self, a: u16, b: u16) -> bool
        requires a_waits { (federate_at self.now.federates a).settings.wait ≡ true }
        requires b { b < length self.now.federates }
        requires b_first { IsIn b (row_of self.now.ancestors a) }
        ensures { IsTrue result ↔ IsWaitPair self.now a b }
    {
        let other = self.federate(b);
        a < b && other.settings.wait && self.is_ancestor(a, b)
    }

    fn is_ancestor(&self, a: u16, f: u16) -> bool
        requires { f < length self.now.federates }
        ensures { IsTrue result ↔ IsIn a (row_of self.now.ancestors f) }
    {
        self.ancestors(f).contains(&a)
    }
}
