// A session that several parties use.
ghost use Rattle.std.specs.Prelude.{◌≡◌, ◌+◌, ◌<◌, ◌≤◌, ◌^◌, ◌&&◌, not, [], IfErr, IfOk, IsTrue, OnErr, OnOk, None, Some, Ok, true, false};
ghost use Rattle.text_checks.specs.Tables.{named_checks};
ghost use Rattle.dictionary.specs.AcceptedParts.{accepted};
ghost use Rattle.dict_meaning.specs.Fits.{AnswersFit, is_list as is_list_of};
ghost use Rattle.dict_meaning.specs.Slots.{is_member, stands};
ghost use Rattle.answers.specs.Answered.{start};
ghost use Rattle.answers.specs.Meaning.{answered};
ghost use Rattle.graph_session.specs.Counts.{stamp_of};
ghost use Rattle.graph_session.specs.Refusals.{SameChecks, asks_checks, slot_refusals};
ghost use Rattle.graph_session.specs.Rules.{rules, tree_of};
ghost use Rattle.graph_session.specs.SessionView.{session_state};
ghost use Rattle.graph_session.specs.Step.{is_change, most_steps, step};
ghost use Rattle.shared_desk.specs.Desk.{Desk as Defined, absent_refusals, appends, desk_after, desk_begun, desk_refusal, desk_step, early, first_early, shown, stale as stale_at, stale_named};
ghost use Rattle.shared_desk.specs.DeskSteps.{CanStep, HasStepped};
ghost use Rattle.shared_desk.specs.DeskView.{StandsFor, kept_desk, rules_of};
ghost use Rattle.shared_desk.specs.Refusals.{Refused};
ghost use Rattle.script_lines.specs.declared.command.Command.TheVariants.{Redo, Remove, Undo};

use crate::last_seen::LastSeen;
use crate::parties::{entrant, judge_owner, make_room, next_entrant, sign, sign_at, stale_since};
use crate::refusal::DeskRefusal;
use answers::Answers;
use dictionary::{Dictionary, FactEngine};
use fact_paths::SlotPath;
use fact_values::{NoMemory, Slot};
use graph_session::{Refusal, Reply, Session, is_list};
use script_lines::Command;
use std::alloc::Global;
use std::marker::Model;
use std::sync::ledger::Ledger;
use steps::Steps;
use text_checks::CheckTable;

/// A session, and what its parties did and asked for. Beside the changes, an edit of a slot needs that its party has looked at
/// the slot since another party's change touched it.
#[derive(Drop)]
pub struct Desk<E: FactEngine> {
    session: Session<E>,
    /// The party of each change.
    changers: Vec<u32>,
    /// The party of each entry of the list of answers after the first.
    entries: Vec<u32>,
    /// The place in that list, from 0.
    place: usize,
    last_seen: LastSeen,
}

impl<E: FactEngine> Model for Desk<E> {
    ghost use Rattle.std.specs.Prelude.{◌≡◌, ◌≤◌};
    ghost use Rattle.graph_session.specs.SessionView.{session_state};
    ghost use Rattle.shared_desk.specs.Desk.{place_of};
    ghost use Rattle.shared_desk.specs.DeskView.{DeskView, coded_desk};

    ghost Value = { DeskView };

    ghost coded = { coded_desk };

    ghost view = { λ d. record {
      session = d.session;
      changers = d.changers.items;
      entries = d.entries.items;
      asked = d.last_seen;
    } };

    ghost invariant = { λ d. (d.place ≡ place_of (session_state d.session)) × (d.place ≤ d.session.changes) };
}

impl<E: FactEngine> Desk<E> {
    /// Nobody has done anything. The engine keeps stamps.
    pub fn new(alloc: Global, dict: Dictionary) -> Result<Desk<E>, NoMemory>
        requires { E.STAMPS ≡ true }
        ensures begun { IfOk result (λ d. StandsFor d (desk_begun (rules dict) start)) }
        ensures dict { IfOk result (λ d. d.session.dict ≡ dict) }
    {
        Desk::resume(alloc, dict, Answers::new(alloc))
    }

    /// These answers stand, and nobody has done anything. The engine keeps stamps.
    pub fn resume(alloc: Global, dict: Dictionary, answers: Answers) -> Result<Desk<E>, NoMemory>
        requires stamped { E.STAMPS ≡ true }
        requires fit { AnswersFit (accepted dict).tree (answered answers) }
        ensures begun { IfOk result (λ d. StandsFor d (desk_begun (rules dict) (answered answers))) }
        ensures dict { IfOk result (λ d. d.session.dict ≡ dict) }
        ensures unchanged { IfOk result (λ d. d.session.changes ≡ 0) }
    {
        let session = Session::resume(alloc, dict, answers)?;
        Ok(Desk {
            session,
            changers: Vec::new(alloc),
            entries: Vec::new(alloc),
            place: 0,
            last_seen: LastSeen::new(alloc),
        })
    }

    /// The session.
    pub fn session(&self) -> &Session<E>
        ensures { result.now ≡ self.now.session }
    {
        &self.session
    }

    // The number of the last change that touched the slot, and 0 if none did.
    fn last_touched(&self, slot: Slot) -> u64
        requires { IsTrue (stands (tree_of (rules_of self.now)) self.now.session.timeline.now slot) }
        ensures { result ≡ stamp_of self.now.session.counts slot }
    {
        match self.session.stamp(slot) {
            None => 0,
            Some(number) => number,
        }
    }

    // The other party's change since which the party hasn't looked at the slot.
    fn stale(&self, party: u32, slot: Slot) -> Option<u64>
        requires { IsTrue (stands (tree_of (rules_of self.now)) self.now.session.timeline.now slot) }
        ensures { result ≡ stale_at (kept_desk self.now) party slot }
    {
        let look = self.last_seen.at(party, slot);
        stale_since(&self.changers, party, look, self.last_touched(slot))
    }

    // Whether the slot is stale, as a refusal.
    fn judge_stale(&self, party: u32, slot: Slot) -> Option<DeskRefusal>
        requires { IsTrue (stands (tree_of (rules_of self.now)) self.now.session.timeline.now slot) }
        ensures { result ≡ first_early [] (stale_at (kept_desk self.now) party slot) None }
    {
        match self.stale(party, slot) {
            None => None,
            Some(last) => Some(DeskRefusal::Stale(last)),
        }
    }

    // Why an edit of the slot that the path names is refused early.
    fn judge_edit(&self, party: u32, path: &SlotPath) -> Option<DeskRefusal>
        ensures { result ≡ first_early (slot_refusals (rules_of self.now) self.now.session.timeline.now path.now)
            (stale_named (tree_of (rules_of self.now)) (kept_desk self.now) party (Some path.now)) None }
    {
        match self.session.slot_of(path) {
            Err(refusal) => Some(DeskRefusal::Session(refusal)),
            Ok(slot) => self.judge_stale(party, slot),
        }
    }

    // Why the member isn't to be taken out of the collection that the path names, early.
    fn judge_remove(&self, party: u32, path: &SlotPath, member: u32) -> Option<DeskRefusal>
        ensures { result ≡ first_early (absent_refusals (rules_of self.now) self.now.session.timeline.now
            (Remove path.now member))
            (stale_named (tree_of (rules_of self.now)) (kept_desk self.now) party (Some path.now)) None }
    {
        match self.session.slot_of(path) {
            Err(refusal) => Some(DeskRefusal::Session(refusal)),
            Ok(slot) => {
                if lacks_member(
                    self.session.dict(),
                    self.session.answers(),
                    slot.fact,
                    member,
                ) {
                    return Some(DeskRefusal::Session(Refusal::NoMember));
                }
                self.judge_stale(party, slot)
            }
        }
    }

    // Why the command is refused early.
    fn judge(&self, party: u32, command: &Command) -> Option<DeskRefusal>
        ensures { result ≡ early (rules_of self.now) (kept_desk self.now) party command.now }
    {
        match command {
            Command::Set(path, _) => self.judge_edit(party, path),
            Command::Clear(path) => self.judge_edit(party, path),
            Command::OpenList(path) => self.judge_edit(party, path),
            Command::Remove(path, member) => self.judge_remove(party, path, *member),
            Command::Override(path, _) => self.judge_edit(party, path),
            Command::Release(path) => self.judge_edit(party, path),
            Command::Undo => judge_owner(party, entrant(&self.entries, self.place)),
            Command::Redo => judge_owner(party, next_entrant(&self.entries, self.place)),
            Command::Add(_)
            | Command::Get(_)
            | Command::Final(_)
            | Command::Stamp(_)
            | Command::Touched
            | Command::Missing(_)
            | Command::Watch(..)
            | Command::Unwatch(..)
            | Command::Quit => None,
        }
    }

    // Makes a change that appends an entry.
    fn edit<L: Ledger>(
        &mut self,
        party: u32,
        command: &Command,
        checks: &CheckTable,
        steps: &mut Steps<L>,
    ) -> Result<Reply, DeskRefusal>
        requires appends { appends command.now ≡ true }
        requires ready { CanStep self.old (named_checks checks.now) command.now }
        ensures stepped { HasStepped self.old party command.now result self.new }
        ensures steps { steps.new ≤ steps.old + most_steps (E.most (accepted self.old.session.dict)) (rules_of self.old)
            (session_state self.old.session) command.now }
    {
        make_room(&mut self.changers)?;
        make_room(&mut self.entries)?;
        match self.session.command(command, checks, steps) {
            Err(refusal) => Err(DeskRefusal::Session(refusal)),
            Ok(reply) => {
                sign_at(&mut self.entries, self.place, party);
                self.place += 1;
                sign(&mut self.changers, party);
                Ok(reply)
            }
        }
    }

    // Goes back by one entry.
    fn undo<L: Ledger>(
        &mut self,
        party: u32,
        command: &Command,
        checks: &CheckTable,
        steps: &mut Steps<L>,
    ) -> Result<Reply, DeskRefusal>
        requires undo { command.now ≡ Undo }
        requires ready { CanStep self.old (named_checks checks.now) command.now }
        ensures stepped { HasStepped self.old party command.now result self.new }
        ensures steps { steps.new ≤ steps.old + most_steps (E.most (accepted self.old.session.dict)) (rules_of self.old)
            (session_state self.old.session) command.now }
    {
        make_room(&mut self.changers)?;
        match self.session.command(command, checks, steps) {
            Err(refusal) => Err(DeskRefusal::Session(refusal)),
            Ok(reply) => {
                self.place = self.place.saturating_sub(1);
                sign(&mut self.changers, party);
                Ok(reply)
            }
        }
    }

    // Goes forth by one entry.
    fn redo<L: Ledger>(
        &mut self,
        party: u32,
        command: &Command,
        checks: &CheckTable,
        steps: &mut Steps<L>,
    ) -> Result<Reply, DeskRefusal>
        requires redo { command.now ≡ Redo }
        requires ready { CanStep self.old (named_checks checks.now) command.now }
        ensures stepped { HasStepped self.old party command.now result self.new }
        ensures steps { steps.new ≤ steps.old + most_steps (E.most (accepted self.old.session.dict)) (rules_of self.old)
            (session_state self.old.session) command.now }
    {
        make_room(&mut self.changers)?;
        match self.session.command(command, checks, steps) {
            Err(refusal) => Err(DeskRefusal::Session(refusal)),
            Ok(reply) => {
                self.place += 1;
                sign(&mut self.changers, party);
                Ok(reply)
            }
        }
    }

    // Answers what shows the slot that the path names.
    fn show<L: Ledger>(
        &mut self,
        party: u32,
        path: &SlotPath,
        command: &Command,
        checks: &CheckTable,
        steps: &mut Steps<L>,
    ) -> Result<Reply, DeskRefusal>
        requires shown { shown command.now ≡ Some path.now }
        requires ready { CanStep self.old (named_checks checks.now) command.now }
        ensures stepped { HasStepped self.old party command.now result self.new }
        ensures steps { steps.new ≤ steps.old + most_steps (E.most (accepted self.old.session.dict)) (rules_of self.old)
            (session_state self.old.session) command.now }
    {
        let slot = match self.session.slot_of(path) {
            Err(refusal) => return Err(DeskRefusal::Session(refusal)),
            Ok(slot) => slot,
        };
        match self.session.command(command, checks, steps) {
            Err(refusal) => Err(DeskRefusal::Session(refusal)),
            Ok(reply) => match self.last_seen.put(party, slot, self.session.changes()) {
                Err(NoMemory) => Err(DeskRefusal::Session(Refusal::NoMemory)),
                Ok(()) => Ok(reply),
            },
        }
    }

    // Answers what makes no change and shows no slot.
    fn ask<L: Ledger>(
        &mut self,
        party: u32,
        command: &Command,
        checks: &CheckTable,
        steps: &mut Steps<L>,
    ) -> Result<Reply, DeskRefusal>
        requires asks { is_change command.now ≡ false }
        requires shows { shown command.now ≡ None }
        requires ready { CanStep self.old (named_checks checks.now) command.now }
        ensures stepped { HasStepped self.old party command.now result self.new }
        ensures steps { steps.new ≤ steps.old + most_steps (E.most (accepted self.old.session.dict)) (rules_of self.old)
            (session_state self.old.session) command.now }
    {
        match self.session.command(command, checks, steps) {
            Err(refusal) => Err(DeskRefusal::Session(refusal)),
            Ok(reply) => Ok(reply),
        }
    }

    // Carries out a command that isn't refused early.
    fn answer<L: Ledger>(
        &mut self,
        party: u32,
        command: &Command,
        checks: &CheckTable,
        steps: &mut Steps<L>,
    ) -> Result<Reply, DeskRefusal>
        requires ready { CanStep self.old (named_checks checks.now) command.now }
        ensures stepped { HasStepped self.old party command.now result self.new }
        ensures steps { steps.new ≤ steps.old + most_steps (E.most (accepted self.old.session.dict)) (rules_of self.old)
            (session_state self.old.session) command.now }
    {
        match command {
            Command::Set(..)
            | Command::Clear(_)
            | Command::OpenList(_)
            | Command::Add(_)
            | Command::Remove(..)
            | Command::Override(..)
            | Command::Release(_) => self.edit(party, command, checks, steps),
            Command::Undo => self.undo(party, command, checks, steps),
            Command::Redo => self.redo(party, command, checks, steps),
            Command::Get(path) => self.show(party, path, command, checks, steps),
            Command::Final(path) => self.show(party, path, command, checks, steps),
            Command::Stamp(path) => self.show(party, path, command, checks, steps),
            Command::Touched
            | Command::Missing(_)
            | Command::Watch(..)
            | Command::Unwatch(..)
            | Command::Quit => self.ask(party, command, checks, steps),
        }
    }

    /// Carries out a command of a party: the reply, or the first refusal that holds. After a refusal, want of memory included,
    /// nothing has changed. Watches aren't a desk's: `watch` and `unwatch` are answered as the session does, and put none. For
    /// `set` the table has the checks with which the dictionary was accepted, or no fact of it has a check.
    pub fn line<L: Ledger>(
        &mut self,
        party: u32,
        command: &Command,
        checks: &CheckTable,
        steps: &mut Steps<L>,
    ) -> Result<Reply, DeskRefusal>
        requires same_checks { IsTrue (asks_checks command.now) → SameChecks (rules_of self.old)
            (named_checks checks.now) }
        requires few { self.old.session.changes < 2 ^ 63 }
        ensures reply { (d : Defined) → StandsFor self.old d
            → IfOk result (λ r. desk_step (rules_of self.old) d party command.now
            ≡ Ok (r, desk_after (rules_of self.old) d party command.now)) }
        ensures after { (d : Defined) → StandsFor self.old d
            → OnOk result (StandsFor self.new (desk_after (rules_of self.old) d party command.now)) }
        ensures refused { (d : Defined) → StandsFor self.old d
            → IfErr result (λ r. Refused r (desk_refusal (rules_of self.old) d party command.now)) }
        ensures unchanged { OnErr result (self.new ≡ self.old) }
        ensures session { IfOk result (λ r. step (rules_of self.old) (session_state self.old.session) command.now
            ≡ Ok (r, session_state self.new.session)) }
        ensures dict { self.new.session.dict ≡ self.old.session.dict }
        ensures steps { steps.new ≤ steps.old + most_steps (E.most (accepted self.old.session.dict)) (rules_of self.old)
            (session_state self.old.session) command.now }
    {
        match self.judge(party, command) {
            Some(refusal) => Err(refusal),
            None => self.answer(party, command, checks, steps),
        }
    }
}

// Whether the fact is a collection that hasn't the member.
fn lacks_member(dict: &Dictionary, answers: &Answers, fact: u32, member: u32) -> bool
    ensures { result ≡ (is_list_of (tree_of (rules dict.now)) fact && not
        (is_member (answered answers.now) fact member)) }
{
    if !is_list(dict, fact) {
        return false;
    }
    match answers.members(fact) {
        None => true,
        Some(members) => !members.contains(&member),
    }
}
