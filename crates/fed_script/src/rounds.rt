ghost use Rattle.std.specs.Prelude.{◌≡◌, ◌≢◌, ◌<◌, [], find, slice_get};
ghost use Rattle.std.specs.Option.{option_copied};
ghost use Rattle.std.specs.List.{repeat};
ghost use Rattle.fed_script.specs.Round.{Passes};
ghost use Rattle.fed_script.specs.Script.{gives};
ghost use Rattle.fed_script.specs.Rounds.{unrolled, words_of, rest_of, AreFresh, PassesPart};

use crate::{View, Word};
use std::marker::Model;

/// A word, or words that are repeated.
#[cycle(rounds)]
#[derive(Debug, Drop)]
pub(crate) enum Part {
    Word(Word),
    Repeat(Rounds),
}

/// Parts that are gone through several times, and the place where they stand.
#[cycle(rounds)]
#[derive(Debug, Drop)]
pub(crate) struct Rounds {
    parts: Vec<Part>,
    /// The part that is next.
    place: usize,
    times: u32,
    /// How many rounds come after the present one.
    left: u32,
}

impl Model for Rounds {
    ghost use Rattle.fed_script.specs.Round.{Round};

    ghost Value = { Round };

    ghost use Rattle.fed_script.specs.Rounds.{round_of, IsRound};

    ghost view = { round_of };

    ghost invariant = { IsRound };

    ghost size = { λ r. r.depth };

    ghost use Rattle.fed_script.specs.Depth.{most_le-deepest};

    ghost size_decreases = { λ a h. most_le-deepest a.parts.items };
}

impl Rounds {
    /// So many rounds of these parts, of which none has begun.
    pub(crate) fn of(times: u32, parts: Vec<Part>) -> Rounds
        requires times { 0 < times }
        requires parts { parts.items ≢ [] }
        requires fresh { AreFresh parts.items }
        ensures all { result.all ≡ repeat times (unrolled parts.items) }
        ensures rest { result.rest ≡ result.all }
    {
        Rounds {
            parts,
            place: 0,
            times,
            left: times - 1,
        }
    }

    /// The next word.
    #[cycle(first)]
    pub(crate) fn first(&self) -> &Word
        ensures { slice_get self.now.rest 0 ≡ Some result.now }
    {
        self.parts[self.place].first()
    }

    /// The first word that is left and gives something over a view.
    #[cycle(given)]
    pub(crate) fn first_given<'a>(&'a self, view: &View) -> Option<&'a Word>
        ensures { option_copied result ≡ find (gives view.now) self.now.rest }
    {
        if let Some(word) = self.parts[self.place].first_given(view) {
            return Some(word);
        }
        if let Some(word) = first_among(&self.parts[self.place + 1..], view) {
            return Some(word);
        }
        if self.left == 0 {
            return None;
        }
        first_among(self.parts.as_slice(), view)
    }

    /// Passes the next word. It answers whether that was the last of all; then they stand at their
    /// beginning again.
    #[cycle(pass)]
    pub(crate) fn pass(&mut self) -> bool
        ensures { Passes self.old result self.new }
    {
        if !self.parts[self.place].pass() {
            return false;
        }
        self.place += 1;
        if self.place < self.parts.len() {
            return false;
        }
        self.place = 0;
        if self.left > 0 {
            self.left -= 1;
            return false;
        }
        self.left = self.times - 1;
        true
    }
}

impl Part {
    // The next word.
    #[cycle(first)]
    fn first(&self) -> &Word
        ensures { slice_get (rest_of self.now) 0 ≡ Some result.now }
    {
        match self {
            Part::Word(word) => word,
            Part::Repeat(rounds) => rounds.first(),
        }
    }

    // The first word that is left and gives something over a view.
    #[cycle(given)]
    fn first_given<'a>(&'a self, view: &View) -> Option<&'a Word>
        ensures { option_copied result ≡ find (gives view.now) (rest_of self.now) }
    {
        match self {
            Part::Word(word) => word.if_given(view),
            Part::Repeat(rounds) => rounds.first_given(view),
        }
    }

    // The first of its words that gives something over a view, wherever it stands.
    #[cycle(among)]
    fn first_of_all<'a>(&'a self, view: &View) -> Option<&'a Word>
        ensures { option_copied result ≡ find (gives view.now) (words_of self.now) }
    {
        match self {
            Part::Word(word) => word.if_given(view),
            Part::Repeat(rounds) => first_among(rounds.parts.as_slice(), view),
        }
    }

    // Passes the next word, and answers whether it was the last of the part.
    #[cycle(pass)]
    fn pass(&mut self) -> bool
        ensures { PassesPart self.old result self.new }
    {
        match self {
            Part::Word(_) => true,
            Part::Repeat(rounds) => rounds.pass(),
        }
    }
}

// The first word of parts that gives something over a view, wherever repeats among them stand.
#[cycle(among)]
fn first_among<'a>(parts: &'a [Part], view: &View) -> Option<&'a Word>
    ensures { option_copied result ≡ find (gives view.now) (unrolled parts.now) }
{
    for part in parts {
        if let Some(word) = part.first_of_all(view) {
            return Some(word);
        }
    }
    None
}
