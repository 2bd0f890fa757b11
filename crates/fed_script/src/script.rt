ghost use Rattle.std.specs.Prelude.{◌≡◌, [], None, Ok, IfOk, drop, find, slice_get};
ghost use Rattle.std.specs.Option.{option_copied};
ghost use Rattle.fed_script.specs.Round.{left_of};
ghost use Rattle.fed_script.specs.Script.{IsInitial, IsCourse, HasTime, gives, given_from, next_action, behind_first, seen_after, words_after, view_after, answers};

use crate::rounds::Rounds;
use crate::{Action, View, Word, Words};
use hel_lists::{Copied, Items, OutOfMemory};
use std::alloc::Global;
use std::marker::Model;

/// What a federate does: its actions before it enters, and then its words. Contracts see those that
/// are left (docs/RULES.md, Scripts).
#[derive(Debug, Drop)]
pub struct Script {
    initial: Items<Action>,
    initial_place: usize,
    rounds: Option<Rounds>,
}

impl Model for Script {
    ghost use Rattle.std.specs.Prelude.{drop};
    ghost use Rattle.fed_script.specs.Round.{left_of};
    ghost use Rattle.fed_script.specs.Script.{Course, IsCourse};

    ghost Value = { Course };

    ghost view = { λ s. record { initial = drop s.initial_place s.initial; words = left_of s.rounds } };

    ghost invariant = { λ s. IsCourse (record { initial = drop s.initial_place s.initial; words = left_of s.rounds }) };
}

impl Script {
    /// The script of these actions and words. It takes no memory.
    pub fn of(initial: Items<Action>, words: Words) -> Script
        requires { IsInitial initial }
        ensures value { result ≡ record { initial = initial; words = words } }
        ensures rules { IsCourse result }
    {
        Script {
            initial,
            initial_place: 0,
            rounds: words.into_rounds(),
        }
    }

    /// The next action before the federate enters: `None` exactly where none is left, which takes
    /// no memory.
    pub fn initial(&self, alloc: Global) -> Result<Option<Action>, OutOfMemory>
        ensures value { IfOk result (λ action. action ≡ slice_get self.now.initial 0) }
        ensures none { self.now.initial ≡ [] → result ≡ Ok None }
        ensures rules { IsCourse self.now }
    {
        match self.initial.get(self.initial_place) {
            None => Ok(None),
            Some(action) => Ok(Some(action.copy(alloc)?)),
        }
    }

    /// Passes the next action before the federate enters, if one is left.
    pub fn advance_initial(&mut self)
        ensures { self.new ≡ record self.old { initial = drop 1 self.old.initial } }
    {
        if self.initial_place < self.initial.len() {
            self.initial_place += 1;
        }
    }

    /// The next action of the federate that has entered. It finishes at the end of its script.
    pub fn next(&self, alloc: Global, view: &View) -> Result<Action, OutOfMemory>
        ensures value { IfOk result (λ action. action ≡ next_action self.now.words view.now) }
        ensures time { IfOk result HasTime }
        ensures rules { IsCourse self.now }
    {
        match first_given(&self.rounds, view) {
            None => Ok(Action::Finish),
            Some(word) => Ok(word.action(alloc, view)?.unwrap_or(Action::Finish)),
        }
    }

    /// Whether the next action of the federate that has entered is an echo's answer to a letter.
    pub fn answers(&self, view: &View) -> bool
        ensures { result ≡ answers self.now.words view.now }
    {
        match first_given(&self.rounds, view) {
            None => false,
            Some(word) => word.is_echo(),
        }
    }

    /// Passes the next action; an echo takes the letter that it answered. It takes no memory.
    pub fn advance(&mut self, view: &mut View)
        ensures words { self.new ≡ record self.old { words = words_after self.old.words view.old } }
        ensures view { view.new ≡ view_after self.old.words view.old }
    {
        pass_idle(&mut self.rounds, view);
        pass_given(&mut self.rounds, view);
    }
}

// The first word that is left and gives something.
fn first_given<'a>(rounds: &'a Option<Rounds>, view: &View) -> Option<&'a Word>
    ensures { option_copied result ≡ find (gives view.now) (left_of rounds.now) }
{
    match rounds {
        None => None,
        Some(running) => running.first_given(view),
    }
}

// Passes the words that give nothing.
fn pass_idle(rounds: &mut Option<Rounds>, view: &View)
    ensures { left_of rounds.new ≡ given_from (left_of rounds.old) view.now }
{
    while let Some(running) = rounds {
        if running.first().gives(view) {
            return;
        }
        if running.pass() {
            *rounds = None;
        }
    }
}

// Passes the next word, which gives something: an echo stays and takes a letter.
fn pass_given(rounds: &mut Option<Rounds>, view: &mut View)
    ensures words { left_of rounds.new ≡ behind_first (left_of rounds.old) }
    ensures view { view.new ≡ seen_after view.old (left_of rounds.old) }
{
    let Some(running) = rounds else {
        return;
    };
    if let Word::Echo(endpoint) = running.first() {
        view.take_letter(*endpoint);
    } else if running.pass() {
        *rounds = None;
    }
}
