ghost use Rattle.std.specs.Prelude.{◌≡◌, ◌≢◌, ◌<◌, ◌⊎◌, ℕ, List, []};
ghost use Rattle.federation_plan.specs.Plan.{Federation};
ghost use Rattle.hel_outside.specs.Faults.{Rose, Gains, GainsPart};
ghost use Rattle.scenario_reading.specs.declared.refusal.Refusal.{Refusal};
ghost use Rattle.helics_run.specs.declared.printing.Printed.{Printed as Printing};
ghost use Rattle.helics_run.specs.Lines.{error_line, bad_words, cannot_read, cannot_write, out_of_memory, refused};
ghost use Rattle.helics_run.specs.Command.{texts, HasVerb, AskFor, Prints, Refuses, AsksAt, IsPlanAt, NoneWait, TellsAll, IsPrinting, IsLater, Stands};
ghost use Rattle.helics_run.specs.Answers.{Answers, CountsFaults, Tells, MayTell};

use crate::failure::Failure;
use crate::line::{BAD_WORDS, CANNOT_WRITE, OUT_OF_MEMORY, cannot_read_line, refused_line};
use crate::printing::{Printed, check, sim};
use crate::status::Status;
use command_words::{Verb, read_words};
use hel_lists::OutOfMemory;
use hel_outside::{Files, Sink, write_all};
use std::alloc::Global;

// What the words ask for.
fn answer<F: Files>(alloc: Global, words: &[String], files: &mut F) -> Result<Printed, Failure>
    ensures answers { Answers (F.content files.old) (texts words.now) result }
    ensures faults { CountsFaults result (F.faults files.old) (F.faults files.new) (F.failed_path files.new) }
    ensures same { (path : List ℕ) → F.content files.new path ≡ F.content files.old path }
{
    let asked = read_words(alloc, words)?;
    match asked.verb {
        Verb::Check => check(alloc, files, asked.file.as_str()),
        Verb::Sim => sim(alloc, files, asked.file.as_str()),
    }
}

/// Writes a line, and ends with the status where that doesn't fail. Where it fails, no more is written.
pub fn tell<E: Sink>(err: &mut E, status: Status, line: &str) -> Status
    ensures { Tells status line.now result (E.written err.old) (E.written err.new) (E.faults err.old) (E.faults err.new) }
{
    match write_all(err, line.as_bytes()) {
        Ok(()) => status,
        Err(_) => Status::SinkFault,
    }
}

/// The program on these words, which leave out its own name.
pub fn command<F: Files, O: Sink, E: Sink>(
    alloc: Global,
    words: &Vec<String>,
    files: &mut F,
    out: &mut O,
    err: &mut E,
) -> Status
    // 0, 1 and 8: what the words ask for was printed. With 0 it is the plan of what was read, or the logs of a run in
    // which no federate failed and which ends with no live federate; with 1 those of a run up to its first failure, which
    // `err` tells; with 8 those of a run that ends with a live federate.
    ensures printed { IsPrinting result → (p : Printing) × Prints (F.content files.old) (texts words.now.items) p × (p.status ≡ result)
        × Gains (O.written out.old) (O.written out.new) p.out × Gains (E.written err.old) (E.written err.new) p.err }

    // With 8 two federates of the plan that wait for current updates are each other's ancestors.
    ensures waits { result ≡ Status.Stuck → (plan : Federation) × (IsPlanAt (F.content files.old) (texts words.now.items) plan × ¬ NoneWait plan) }

    // 2: exactly where the words ask for nothing.
    ensures bad_words { result ≡ Status.BadWords → ¬ AskFor (texts words.now.items)
        × Gains (E.written err.old) (E.written err.new) (error_line bad_words) }
    ensures words { ¬ AskFor (texts words.now.items) → Stands Status.BadWords result }

    // 3: only where the files failed, at a path that is asked for; and that failure stands.
    ensures file_fault { result ≡ Status.FileFault → Rose (F.faults files.old) (F.faults files.new)
        × AsksAt (F.content files.old) (texts words.now.items) (F.failed_path files.new)
        × Gains (E.written err.old) (E.written err.new) (error_line (cannot_read (F.failed_path files.new))) }
    ensures failed_files { F.faults files.old < F.faults files.new → Stands Status.FileFault result }

    // 4: the first refusal of what was read, by name.
    ensures refused { result ≡ Status.Refused → (r : Refusal)
        × Refuses (F.content files.old) (texts words.now.items) r
        × Gains (E.written err.old) (E.written err.new) (error_line (refused r)) }

    // 0, 1, 4 and 8, exactly: what the files tell decides.
    ensures decided { TellsAll (F.content files.old) (texts words.now.items) → (p : Printing)
        → Prints (F.content files.old) (texts words.now.items) p → (result ≡ Status.FileFault) ⊎ Stands p.status result }
    ensures refuses { TellsAll (F.content files.old) (texts words.now.items) → (r : Refusal)
        → Refuses (F.content files.old) (texts words.now.items) r → (result ≡ Status.FileFault) ⊎ Stands Status.Refused result }

    // 5: only where `out` or `err` failed, and before every other status.
    ensures sink_fault { result ≡ Status.SinkFault →
        Rose (O.faults out.old) (O.faults out.new) ⊎ Rose (E.faults err.old) (E.faults err.new) }
    ensures failed_out { O.faults out.old < O.faults out.new → result ≡ Status.SinkFault }
    ensures failed_err { E.faults err.old < E.faults err.new → result ≡ Status.SinkFault }
    ensures cannot_write { result ≡ Status.SinkFault → ¬ Rose (E.faults err.old) (E.faults err.new)
        → Gains (E.written err.old) (E.written err.new) (error_line cannot_write) }

    // 9 may come at any time, but only behind a first word that is one of the program's: else the answer is 2 or 5.
    ensures out_of_memory { result ≡ Status.OutOfMemory → HasVerb (texts words.now.items)
        × Gains (E.written err.old) (E.written err.new) (error_line out_of_memory) }

    // Nothing else is written to `out`, and what the files hold stays.
    ensures no_out { ¬ IsPrinting result → result ≢ Status.SinkFault → Gains (O.written out.old) (O.written out.new) [] }
    ensures part_of_out { result ≡ Status.SinkFault →
        (Gains (O.written out.old) (O.written out.new) [] × Rose (E.faults err.old) (E.faults err.new))
        ⊎ ((p : Printing) × (Prints (F.content files.old) (texts words.now.items) p
        × ((GainsPart (O.written out.old) (O.written out.new) p.out × Rose (O.faults out.old) (O.faults out.new))
        ⊎ (Gains (O.written out.old) (O.written out.new) p.out × Rose (E.faults err.old) (E.faults err.new))))) }
    // Where `err` failed, it gained a first part of one line, and not all of it.
    ensures part_of_err { E.faults err.old < E.faults err.new → (line : List ℕ)
        × MayTell (F.content files.old) (texts words.now.items) (Rose (O.faults out.old) (O.faults out.new))
        (λ answer. CountsFaults answer (F.faults files.old) (F.faults files.new) (F.failed_path files.new)) line
        × GainsPart (E.written err.old) (E.written err.new) line }
    ensures same_files { (path : List ℕ) → F.content files.new path ≡ F.content files.old path }

    // The others don't come.
    ensures later { ¬ IsLater result }

    // What right words ask for is printed where nothing fails or is refused, unless memory is wanting.
    ensures complete { AskFor (texts words.now.items)
        → ¬ Rose (F.faults files.old) (F.faults files.new)
        → ((r : Refusal) → ¬ Refuses (F.content files.old) (texts words.now.items) r)
        → ¬ Rose (O.faults out.old) (O.faults out.new)
        → ¬ Rose (E.faults err.old) (E.faults err.new)
        → IsPrinting result ⊎ (result ≡ Status.OutOfMemory) }

    // And where no federate of the run fails and no two wait for each other, it is done.
    ensures whole { AskFor (texts words.now.items)
        → ¬ Rose (F.faults files.old) (F.faults files.new)
        → ((r : Refusal) → ¬ Refuses (F.content files.old) (texts words.now.items) r)
        → ¬ Rose (O.faults out.old) (O.faults out.new)
        → ¬ Rose (E.faults err.old) (E.faults err.new)
        → ((p : Printing) → Prints (F.content files.old) (texts words.now.items) p → p.status ≢ Status.Halted)
        → ((plan : Federation) → IsPlanAt (F.content files.old) (texts words.now.items) plan → NoneWait plan)
        → (result ≡ Status.Done) ⊎ (result ≡ Status.OutOfMemory) }
{
    match answer(alloc, words, files) {
        Ok(printed) => {
            if write_all(out, printed.out.as_str().as_bytes()).is_err() {
                return tell(err, Status::SinkFault, CANNOT_WRITE);
            }
            tell(err, printed.status, printed.err.as_str())
        }
        Err(Failure::BadWords) => tell(err, Status::BadWords, BAD_WORDS),
        Err(Failure::FileFault(path)) => match cannot_read_line(alloc, path.as_str()) {
            Ok(line) => tell(err, Status::FileFault, line.as_str()),
            Err(OutOfMemory) => tell(err, Status::OutOfMemory, OUT_OF_MEMORY),
        },
        Err(Failure::Refused(refusal)) => match refused_line(alloc, &refusal) {
            Ok(line) => tell(err, Status::Refused, line.as_str()),
            Err(OutOfMemory) => tell(err, Status::OutOfMemory, OUT_OF_MEMORY),
        },
        Err(Failure::OutOfMemory) => tell(err, Status::OutOfMemory, OUT_OF_MEMORY),
    }
}

#[cfg(test)]
mod tests;
