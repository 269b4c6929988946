// What an expression of a fact is evaluated over: the results of a session.
ghost use Rattle.std.specs.Prelude.{◌≡◌, true};
ghost use Rattle.evaluation.specs.Results.{result_at};
ghost use Rattle.three_state.specs.declared.res.Res.TheVariants.{Incomplete};
ghost use Rattle.explain.specs.SessionContext.{context_at};

use dict_source::DictSource;
use dictionary::FactEngine;
use fact_values::{NoMemory, Slot};
use graph_session::Session;
use source_eval::{EvalContext, Notes};
use three_state::Res;

/// The results of a session, for the expressions of a fact.
#[derive(Drop)]
pub struct SessionContext<'a, E: FactEngine> {
    session: &'a Session<E>,
    fact: u32,
    /// What is read of a slot that doesn't stand.
    missing: Res,
    ghost missing_is_incomplete: { missing ≡ Incomplete },
}

impl<'a, E: FactEngine> SessionContext<'a, E> {
    pub fn new(session: &'a Session<E>, fact: u32) -> SessionContext<'a, E>
        ensures session { result.session.now ≡ session.now }
        ensures fact { result.fact ≡ fact }
    {
        SessionContext {
            session,
            fact,
            missing: Res::Incomplete,
        }
    }
}

impl<E: FactEngine> EvalContext for SessionContext<'_, E> {
    ghost meaning = { λ g. context_at g.session.now g.fact };

    fn source(&self) -> &DictSource {
        self.session.dict().source()
    }

    fn fact(&self) -> u32 {
        self.fact
    }

    fn result_at(&self, fact: Option<u32>, member: u32) -> &Res {
        let Some(fact) = fact else {
            return &self.missing;
        };
        match self.session.result(Slot { fact, member }) {
            Some(res) => res,
            None => &self.missing,
        }
    }
}

/// The slots that an evaluation reads.
#[derive(Drop)]
pub struct ReadSlots {
    pub slots: Vec<Slot>,
}

impl Notes for ReadSlots {
    ghost keeps = { true };

    ghost noted = { λ read. read.slots.items };

    fn note(&mut self, slot: Slot) -> Result<(), NoMemory> {
        self.slots.push(slot)?;
        Ok(())
    }
}
