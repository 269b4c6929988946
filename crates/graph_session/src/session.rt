// A session: a dictionary, answers with their history, and an engine that has the results.
ghost use Rattle.std.specs.Prelude.{◌≡◌, ◌+◌, ◌<◌, ◌≤◌, ◌^◌, [], ◌∷◌, IfErr, IfOk, IsSome, IsTrue, OnErr, OnOk, option_copied, is_none, None, Ok};
ghost use Rattle.answers.specs.Answered.{start};
ghost use Rattle.answers.specs.Change.{Fits, applied};
ghost use Rattle.answers.specs.Room.{HasRoom};
ghost use Rattle.answers.specs.Meaning.{answered, change};
ghost use Rattle.text_checks.specs.Tables.{named_checks};
ghost use Rattle.session_undo.specs.History.{CanPush, ahead_of, behind};
ghost use Rattle.dictionary.specs.Engines.{AreFresh};
ghost use Rattle.dictionary.specs.AcceptedParts.{accepted};
ghost use Rattle.dict_meaning.specs.Fits.{AnswersFit};
ghost use Rattle.dict_meaning.specs.Plain.{plain};
ghost use Rattle.dict_meaning.specs.Slots.{stands};
ghost use Rattle.graph_session.specs.Changes.{CanBeMade, change_of};
ghost use Rattle.graph_session.specs.Counts.{stamp_of, stamp_offered, touched_of};
ghost use Rattle.graph_session.specs.Moves.{step_command};
ghost use Rattle.graph_session.specs.Naming.{slot_of as slot_named};
ghost use Rattle.graph_session.specs.Refusals.{Refused, SameChecks, asks_checks, decided, first_of, slot_found, stamp_refusals, when};
ghost use Rattle.graph_session.specs.Rules.{rules, tree_of};
ghost use Rattle.graph_session.specs.SessionView.{bounded_to, session_state, moved_to, start_at};
ghost use Rattle.graph_session.specs.Step.{most_steps, refusal, reply, step, timeline_by, with_change};
ghost use Rattle.graph_session.specs.declared.reply.Refusal.TheVariants.{NoStamps};
ghost use Rattle.graph_session.specs.declared.reply.Reply.TheVariants as replies;

use crate::changes::{change_reply, edit_of};
use crate::moves::{step_against, step_along};
use crate::naming::find_slot;
use crate::questions::{ask_answer, ask_final, ask_missing, ask_unwatch, ask_watch};
use crate::reply::{Refusal, Reply};
use answers::{Answers, Edit};
use dictionary::{Dictionary, FactEngine};
use fact_paths::SlotPath;
use fact_values::{NoMemory, Slot};
use script_lines::Command;
use session_undo::{Direction, History};
use std::alloc::Global;
use std::marker::Model;
use std::sync::ledger::Ledger;
use steps::Steps;
use text_checks::CheckTable;
use three_state::Res;

/// Answers to a dictionary, the changes that led to them and that lead on, and the results.
#[derive(Drop)]
pub struct Session<E: FactEngine> {
    alloc: Global,
    dict: Dictionary,
    answers: Answers,
    history: History,
    engine: E,
    changes: u64,
}

impl<E: FactEngine> Model for Session<E> {
    ghost use Rattle.std.specs.Prelude.{◌≡◌, IsTrue, Some, None, if◌then◌else◌};
    ghost use Rattle.answers.specs.Meaning.{answered};
    ghost use Rattle.session_undo.specs.History.{place};
    ghost use Rattle.session_undo.specs.Timeline.{timeline};
    ghost use Rattle.dictionary.specs.AcceptedParts.{accepted};
    ghost use Rattle.graph_session.specs.Counts.{counts_of};
    ghost use Rattle.graph_session.specs.Keeping.{IsSound};
    ghost use Rattle.graph_session.specs.SessionView.{SessionView, coded_view};

    ghost Value = { SessionView };

    ghost coded = { coded_view };

    ghost view = { λ s. record {
      dict = s.dict;
      timeline = timeline (place s.history s.answers);
      changes = s.changes;
      counts = if E.STAMPS then Some (counts_of (accepted s.dict) (answered s.answers) (E.marks s.engine)) else None;
    } };

    ghost invariant = { λ s. IsSound s.dict (place s.history s.answers)
        × E.stands_for s.engine (accepted s.dict) (answered s.answers)
        × (IsTrue E.STAMPS → (E.marks s.engine).changes ≡ s.changes) };
}

impl<E: FactEngine> Session<E> {
    /// Nothing is answered yet.
    pub fn new(alloc: Global, dict: Dictionary) -> Result<Session<E>, NoMemory>
        ensures { IfOk result (λ s. s ≡ start_at dict start E.STAMPS) }
    {
        Session::resume(alloc, dict, Answers::new(alloc))
    }

    /// Goes on from these answers. There is nothing to undo.
    pub fn resume(alloc: Global, dict: Dictionary, answers: Answers) -> Result<Session<E>, NoMemory>
        requires { AnswersFit (accepted dict).tree (answered answers) }
        ensures { IfOk result (λ s. s ≡ start_at dict (answered answers) E.STAMPS) }
    {
        match E::begin(alloc, &dict, &answers) {
            Err(NoMemory) => {
                drop(dict);
                drop(answers);
                Err(NoMemory)
            }
            Ok(engine) => Ok(Session::of_parts(alloc, dict, answers, engine)),
        }
    }

    /// One more session over the same dictionary, which both share: nothing is answered in it yet. This session stays as it is.
    pub fn further(&mut self, alloc: Global) -> Result<Session<E>, NoMemory>
        ensures begun { IfOk result (λ s. s ≡ start_at self.old.dict start E.STAMPS) }
        ensures same { self.new ≡ self.old }
    {
        let dict = self.dict.share()?;
        match self.engine.further(alloc, &dict) {
            Err(NoMemory) => {
                drop(dict);
                Err(NoMemory)
            }
            Ok(engine) => Ok(Session::of_parts(alloc, dict, Answers::new(alloc), engine)),
        }
    }

    // The session of these parts, before any change.
    fn of_parts(alloc: Global, dict: Dictionary, answers: Answers, engine: E) -> Session<E>
        requires fit { AnswersFit (accepted dict).tree (answered answers) }
        requires stands { E.stands_for engine (accepted dict) (answered answers) }
        requires fresh { IsTrue E.STAMPS → AreFresh (E.marks engine) }
        ensures { result ≡ start_at dict (answered answers) E.STAMPS }
    {
        let _accepted = dict.source();
        Session {
            alloc,
            dict,
            answers,
            history: History::new(alloc),
            engine,
            changes: 0,
        }
    }

    /// The dictionary.
    pub fn dict(&self) -> &Dictionary
        ensures { result.now ≡ self.now.dict }
    {
        &self.dict
    }

    /// The answers.
    pub fn answers(&self) -> &Answers
        ensures value { answered result.now ≡ self.now.timeline.now }
        ensures fit { AnswersFit (accepted self.now.dict).tree self.now.timeline.now }
    {
        &self.answers
    }

    /// How many changes were made, undo and redo among them.
    pub fn changes(&self) -> u64
        ensures { result ≡ self.now.changes }
    {
        self.changes
    }

    /// The result of a slot: none where it doesn't stand.
    pub fn result(&self, slot: Slot) -> Option<&Res>
        ensures { option_copied result ≡ plain (accepted self.now.dict) self.now.timeline.now slot }
    {
        self.engine.result(slot)
    }

    /// The number of the last change that touched the slot, and 0 if none did: none where the slot doesn't stand, or the
    /// engine keeps no stamps.
    pub fn stamp(&self, slot: Slot) -> Option<u64>
        ensures { result ≡ stamp_offered (stands (accepted self.now.dict).tree self.now.timeline.now slot)
            self.now.counts slot }
    {
        self.engine.stamp(slot)
    }

    /// Keeps the newest changes, so many at most: those before them can't be undone any more. All else is as it was.
    pub fn keep_changes(&mut self, most: usize)
        ensures { self.new ≡ bounded_to most self.old }
    {
        self.history.keep_newest(most);
    }

    // Makes a change, with its results. For want of memory all is as before.
    fn change<L: Ledger>(&mut self, edit: Edit, steps: &mut Steps<L>) -> Result<(), NoMemory>
        requires few { self.old.changes < 2 ^ 63 }
        requires made { CanBeMade (rules self.old.dict) self.old.timeline.now (change edit) }
        ensures ok { OnOk result (self.new ≡ moved_to self.old (with_change self.old.timeline (change edit))) }
        ensures unchanged { OnErr result (self.new ≡ self.old) }
        ensures steps { steps.new ≤ steps.old + E.most (accepted self.old.dict) self.old.timeline.now
            (applied (change edit) self.old.timeline.now) }
    {
        match self.history.room() {
            Err(NoMemory) => {
                drop(edit);
                Err(NoMemory)
            }
            Ok(()) => match self.answers.apply(edit) {
                Err(unapplied) => {
                    drop(unapplied);
                    Err(NoMemory)
                }
                Ok(undo) => match self.engine.refresh(&self.dict, &self.answers, &undo, steps) {
                    Ok(()) => {
                        keep(&mut self.history, undo);
                        self.changes += 1;
                        Ok(())
                    }
                    Err(NoMemory) => {
                        restore(&mut self.answers, undo);
                        Err(NoMemory)
                    }
                },
            },
        }
    }

    // Makes the change that the command asks for.
    fn edit<L: Ledger>(
        &mut self,
        command: &Command,
        checks: &CheckTable,
        steps: &mut Steps<L>,
    ) -> Result<Reply, Refusal>
        requires makes_one { IsSome (change_of (tree_of (rules self.old.dict)) command.now) }
        requires same_checks { IsTrue (asks_checks command.now) → SameChecks (rules self.old.dict)
            (named_checks checks.now) }
        requires few { self.old.changes < 2 ^ 63 }
        ensures ok { IfOk result (λ r. step (rules self.old.dict) (session_state self.old) command.now
            ≡ Ok (r, session_state self.new)) }
        ensures dict { self.new.dict ≡ self.old.dict }
        ensures refused { IfErr result (λ r. Refused r (refusal (rules self.old.dict) (session_state self.old)
            command.now)) }
        ensures unchanged { OnErr result (self.new ≡ self.old) }
        ensures steps { steps.new ≤ steps.old + most_steps (E.most (accepted self.old.dict)) (rules self.old.dict)
            (session_state self.old) command.now }
    {
        let number = self.answers.next_number();
        match edit_of(self.alloc, &self.dict, &self.answers, checks, command) {
            Err(refusal) => Err(refusal),
            Ok(edit) => match self.change(edit, steps) {
                Err(NoMemory) => Err(Refusal::NoMemory),
                Ok(()) => Ok(change_reply(command, number)),
            },
        }
    }

    // Goes by one change in this direction.
    fn go<L: Ledger>(
        &mut self,
        direction: Direction,
        steps: &mut Steps<L>,
    ) -> Result<Reply, Refusal>
        requires few { self.old.changes < 2 ^ 63 }
        ensures ok { IfOk result (λ r. step (rules self.old.dict) (session_state self.old) (step_command direction)
            ≡ Ok (r, session_state self.new)) }
        ensures dict { self.new.dict ≡ self.old.dict }
        ensures refused { IfErr result (λ r. Refused r (refusal (rules self.old.dict) (session_state self.old)
            (step_command direction))) }
        ensures unchanged { OnErr result (self.new ≡ self.old) }
        ensures steps { steps.new ≤ steps.old + most_steps (E.most (accepted self.old.dict)) (rules self.old.dict)
            (session_state self.old) (step_command direction) }
    {
        match step_along(&mut self.history, &mut self.answers, direction) {
            Err(refusal) => Err(refusal),
            Ok(()) => match self.history.returning(direction) {
                None => unreachable!(),
                Some(undo) => match self.engine.refresh(&self.dict, &self.answers, undo, steps) {
                    Ok(()) => {
                        self.changes += 1;
                        Ok(Reply::Done)
                    }
                    Err(NoMemory) => {
                        step_against(&mut self.history, &mut self.answers, direction);
                        Err(Refusal::NoMemory)
                    }
                },
            },
        }
    }

    /// The standing slot that the path names.
    pub fn slot_of(&self, path: &SlotPath) -> Result<Slot, Refusal>
        ensures found { result ≡ slot_found (rules self.now.dict) self.now.timeline.now path.now }
        ensures stands { IfOk result (λ s. IsTrue (stands (accepted self.now.dict).tree self.now.timeline.now s)) }
    {
        find_slot(&self.dict, &self.answers, path)
    }

    // The stamp of a slot.
    fn ask_stamp(&self, path: &SlotPath) -> Result<Reply, Refusal>
        ensures { result ≡ decided (first_of (stamp_refusals (rules self.now.dict) self.now.timeline.now self.now.counts
            path.now)) (replies.Stamp (stamp_of self.now.counts (slot_named (tree_of (rules self.now.dict))
            path.now))) }
    {
        match self.slot_of(path) {
            Err(refusal) => Err(refusal),
            Ok(slot) => match self.stamp(slot) {
                None => Err(Refusal::NoStamps),
                Some(number) => Ok(Reply::Stamp(number)),
            },
        }
    }

    // How many slots the last change touched.
    fn ask_touched(&self) -> Result<Reply, Refusal>
        ensures { result ≡ decided (when (is_none self.now.counts) NoStamps)
            (replies.Touched (touched_of self.now.counts)) }
    {
        match self.engine.touched() {
            None => Err(Refusal::NoStamps),
            Some(number) => Ok(Reply::Touched(number)),
        }
    }

    // The answer to a command that makes no change.
    #[inline(always)]
    fn ask(&self, command: &Command) -> Result<Reply, Refusal>
        requires { timeline_by (tree_of (rules self.now.dict)) self.now.timeline command.now ≡ None }
        ensures { result ≡ decided (refusal (rules self.now.dict) (session_state self.now) command.now)
            (reply (rules self.now.dict) (session_state self.now) command.now) }
    {
        match command {
            Command::Get(path) => ask_answer(&self.dict, &self.answers, path),
            Command::Final(path) => ask_final(&self.dict, &self.answers, path),
            Command::Stamp(path) => self.ask_stamp(path),
            Command::Touched => self.ask_touched(),
            Command::Missing(path) => ask_missing(&self.dict, &self.answers, path),
            Command::Watch(_, path) => ask_watch(&self.dict, &self.answers, path),
            Command::Unwatch(_, path) => ask_unwatch(&self.dict, &self.answers, path),
            Command::Quit => Ok(Reply::Quit),
            Command::Set(..)
            | Command::Clear(_)
            | Command::OpenList(_)
            | Command::Add(_)
            | Command::Remove(..)
            | Command::Override(..)
            | Command::Release(_)
            | Command::Undo
            | Command::Redo => unreachable!(),
        }
    }

    /// Carries out a command: the reply, or the first refusal that holds. After a refusal, want of memory included, nothing
    /// has changed. For `set`, which alone asks checks, the table has those with which the dictionary was accepted, or no fact of it
    /// has a check.
    #[inline(always)]
    pub fn command<L: Ledger>(
        &mut self,
        command: &Command,
        checks: &CheckTable,
        steps: &mut Steps<L>,
    ) -> Result<Reply, Refusal>
        requires same_checks { IsTrue (asks_checks command.now) → SameChecks (rules self.old.dict)
            (named_checks checks.now) }
        requires few { self.old.changes < 2 ^ 63 }
        ensures ok { IfOk result (λ r. step (rules self.old.dict) (session_state self.old) command.now
            ≡ Ok (r, session_state self.new)) }
        ensures dict { self.new.dict ≡ self.old.dict }
        ensures refused { IfErr result (λ r. Refused r (refusal (rules self.old.dict) (session_state self.old)
            command.now)) }
        ensures unchanged { OnErr result (self.new ≡ self.old) }
        ensures steps { steps.new ≤ steps.old + most_steps (E.most (accepted self.old.dict)) (rules self.old.dict)
            (session_state self.old) command.now }
    {
        match command {
            Command::Set(..)
            | Command::Clear(_)
            | Command::OpenList(_)
            | Command::Add(_)
            | Command::Remove(..)
            | Command::Override(..)
            | Command::Release(_) => self.edit(command, checks, steps),
            Command::Undo => self.go(Direction::Back, steps),
            Command::Redo => self.go(Direction::Forth, steps),
            Command::Get(_)
            | Command::Final(_)
            | Command::Stamp(_)
            | Command::Touched
            | Command::Missing(_)
            | Command::Watch(..)
            | Command::Unwatch(..)
            | Command::Quit => self.ask(command),
        }
    }
}

// Applies an edit for which there is room.
fn restore(answers: &mut Answers, undo: Edit)
    requires room { HasRoom (change undo) answers.old }
    requires fits { Fits (change undo) (answered answers.old) }
    ensures { answered answers.new ≡ applied (change undo) (answered answers.old) }
{
    drop(answers.apply(undo));
}

// Adds a change, for which there is room.
#[inline(always)]
fn keep(history: &mut History, undo: Edit)
    requires { CanPush history.old }
    ensures back { behind history.new ≡ change undo ∷ behind history.old }
    ensures ahead { ahead_of history.new ≡ [] }
{
    drop(history.push(undo));
}
