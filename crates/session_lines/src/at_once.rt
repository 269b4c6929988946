// Answers a question about a fact that stands once by the text of its line, before the line is read. It takes no memory, and most
// questions of a script are such.
ghost use Rattle.std.specs.Prelude.{◌≡◌, IfSome};
ghost use Rattle.evaluation.specs.Results.{slot as slot_at};
ghost use Rattle.graph_session.specs.Rules.{rules};
ghost use Rattle.graph_session.specs.SessionView.{session_state};
ghost use Rattle.session_lines.specs.Questions.{IsReplyAbout, IsReplyAtOnce, reply_asked};

use crate::question::{Question, question_of};
use dictionary::FactEngine;
use fact_values::Slot;
use graph_session::{Reply, Session};

// The reply to a question about a fact that stands once.
fn reply_about(question: Question, fact: u32) -> Reply
    ensures { result ≡ reply_asked question (slot_at fact 0) }
{
    let slot = Slot { fact, member: 0 };
    match question {
        Question::Get => Reply::Answer(slot),
        Question::Final => Reply::FinalAsked(slot),
    }
}

// The session's reply to the question about the fact with this path, where it is one that stands once.
#[inline(always)]
#[tactic(auto, using(crate::proofs::QuestionLaws::replies_about))]
fn answer_about<E: FactEngine>(
    session: &Session<E>,
    question: Question,
    text: &str,
) -> Option<Reply>
    ensures { IfSome result (IsReplyAbout (rules session.now.dict) (session_state session.now) question text.now) }
{
    let fact = session.dict().source().find_global_text(text)?;
    Some(reply_about(question, fact))
}

/// The session's reply to the line, where it is a question about a fact that stands once. Other lines have none here.
pub fn reply_at_once<E: FactEngine>(session: &Session<E>, line: &[u8]) -> Option<Reply>
    ensures { IfSome result (IsReplyAtOnce (rules session.now.dict) (session_state session.now) line.now) }
{
    let (question, text) = question_of(line)?;
    answer_about(session, question, text)
}
