ghost use Rattle.std.specs.Prelude.{◌≡◌, map};
ghost use Rattle.kept.specs.Kept.{base_of, state_of};
ghost use Rattle.session.specs.Banks.{opening_over};
ghost use Rattle.session_laws.specs.Laws.{RunKeeps};
ghost use Rattle.session_laws.specs.Outcomes.{outcome};
ghost use Rattle.session_laws.specs.Runs.{called};
ghost use Rattle.replay.specs.Replaying.{call_of, answer_of, numbered, AnsweredAll};

use crate::calls::{Answer, Call, Granted, Replayed};
use graph::Graph;
use graph::class::Class;
use session::{Bank, Refusal, Session};

// Opens a session over the graph, makes the calls one after the other, and hands the graph back as it was given. The answers go into
// a lent row; where it is too short, nothing is done.
pub fn replay<G: Graph>(
    graph: G,
    bank: Bank,
    classes: &[Option<Class>; 512],
    calls: &[Call],
    answers: &mut [Answer],
) -> Replayed<G>
    ensures graph { result.graph ≡ graph }
    ensures answers { AnsweredAll (opening_over (G.means graph).shape bank classes.now) calls.now answers.old answers.new result.answer }
    ensures laws { RunKeeps (opening_over (G.means graph).shape bank classes.now) (map call_of calls.now) }
{
    if answers.len() < calls.len() {
        return Replayed {
            graph,
            answer: Err(Refusal::Short),
        };
    }
    let mut session = Session::open(graph, bank, classes);
    // Written by index: calls and answers go side by side, and what `iter_mut().zip(calls)` lends is not known afterwards.
    for (i, call) in calls.iter().enumerate() {
        answers[i] = make(&mut session, *call);
    }
    Replayed {
        graph: session.close(),
        answer: Ok(()),
    }
}

// Makes one call by the session's own.
fn make<G>(session: &mut Session<G>, call: Call) -> Answer
    ensures answer { numbered result ≡ answer_of (outcome (base_of session.old.kept) (state_of session.old.kept) (call_of call)) }
    ensures graph { session.new.graph ≡ session.old.graph }
    ensures base { base_of session.new.kept ≡ base_of session.old.kept }
    ensures state { state_of session.new.kept ≡ called (base_of session.old.kept) (state_of session.old.kept) (call_of call) }
{
    // No closure: a call is what the caller lists.
    match call {
        Call::Note(u, v) => session.note(u, v).map(Granted::Noted),
        Call::Mark(v) => session.mark(v).map(|()| Granted::Done),
        Call::Simplify(v) => session.simplify(v).map(|()| Granted::Done),
        Call::Freeze(v) => session.freeze(v).map(|()| Granted::Done),
        Call::Push(v) => session.push(v).map(|()| Granted::Done),
        Call::Merge(m) => {
            let mut marks = [0; 512];
            session.merge(m, &mut marks).map(Granted::Decided)
        }
        Call::Colour => {
            let mut table = [0; 512];
            session.colour(&mut table).map(|()| Granted::Done)
        }
    }
}
