ghost use Rattle.std.specs.Prelude.{◌≡◌, ◌≤◌, ◌<◌, ℕ, List, Option, length, take, IfOk, OnOk, OnErr};
ghost use Rattle.hel_outside.specs.Faults.{Rose, Gains, GainsPart};

/// The object failed, and its count of faults rose.
#[derive(Clone, Copy, Debug, PartialEq, Eq)]
pub struct Failed;

/// Where bytes go (docs/RULES.md, The outside).
pub trait Sink {
    /// How often a call has failed. The count stands still at its type's end.
    ghost faults: { Self → ℕ };

    /// What was written so far, where the object tells it.
    ghost written: { Self → Option (List ℕ) };

    /// Takes a first part of the bytes, and at least one of them where there is one; the answer is
    /// how many it took. To take none of bytes that aren't empty is a fault.
    fn write(&mut self, bytes: &[u8]) -> Result<usize, Failed>
        ensures within { IfOk result (λ n. n ≤ length bytes.now) }
        ensures some { IfOk result (λ n. 0 < length bytes.now → 0 < n) }
        ensures ok { IfOk result (λ n. Gains (written self.old) (written self.new) (take n bytes.now)) }
        ensures err { OnErr result (written self.new ≡ written self.old) }

        // A call fails only where the count rose, and no other call changes the count.
        ensures rose { OnErr result (Rose (faults self.old) (faults self.new)) }
        ensures later { faults self.old ≤ faults self.new }
        ensures quiet { OnOk result (faults self.new ≡ faults self.old) };
}

/// Writes all the bytes. An `Err` leaves a first part of them written, and not all.
#[tactic(auto, using(crate::proofs::Gained::gains_nothing))]
pub fn write_all<S: Sink>(sink: &mut S, bytes: &[u8]) -> Result<(), Failed>
    ensures ok { OnOk result (Gains (S.written sink.old) (S.written sink.new) bytes.now) }
    ensures err { OnErr result (GainsPart (S.written sink.old) (S.written sink.new) bytes.now) }
    ensures rose { OnErr result (Rose (S.faults sink.old) (S.faults sink.new)) }
    ensures later { S.faults sink.old ≤ S.faults sink.new }
    ensures quiet { OnOk result (S.faults sink.new ≡ S.faults sink.old) }
{
    let mut rest = bytes;
    while !rest.is_empty() {
        let taken = sink.write(rest)?;
        rest = rest.split_at(taken).1;
    }
    Ok(())
}
