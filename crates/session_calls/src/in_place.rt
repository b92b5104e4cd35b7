// The calls of a session where it lies, for a session by value: the call takes it by reference, and it is handed back with the answer. What
// they promise is what the calls by value promise.
ghost use Rattle.std.specs.Prelude.{◌≡◌};
ghost use Rattle.sessions.specs.Answers.{answer_says, timed_out_says, delivery_says};
ghost use Rattle.sessions.specs.Calls.{frame_answer, frame_session, heart_beat_answer, heart_beat_session, timed_out_answer, deliver_answer, deliver_session};

use sessions::in_place::{
    deliver_in_place, frame_in_place, heart_beat_in_place, timed_out_in_place,
};
use sessions::refusals::InvalidRecord;
use sessions::session::{Outcome, Recording, Session};

// The session after it was asked whether the peer is timed out, and the answer.
#[derive(Clone, Copy)]
pub struct TimedOutcome {
    pub session: Session,
    pub answer: Result<bool, InvalidRecord>,
}

pub fn frame(mut session: Session, command: u32, block: &[u8], time: u32) -> Outcome
    ensures { (answer_says result.answer ≡ frame_answer session command block.now)
        × (result.session ≡ frame_session session command block.now time) }
{
    let answer = frame_in_place(&mut session, command, block, time);
    Outcome { session, answer }
}

pub fn heart_beat(mut session: Session, time: u32) -> Outcome
    ensures { (answer_says result.answer ≡ heart_beat_answer session) × (result.session ≡ heart_beat_session session time) }
{
    let answer = heart_beat_in_place(&mut session, time);
    Outcome { session, answer }
}

pub fn timed_out(mut session: Session, time: u32) -> TimedOutcome
    ensures { (timed_out_says result.answer ≡ timed_out_answer session time) × (result.session ≡ session) }
{
    let answer = timed_out_in_place(&mut session, time);
    TimedOutcome { session, answer }
}

pub fn deliver(mut session: Session, subscription: &[u8], label: &[u8]) -> Recording
    ensures { (delivery_says result.answer ≡ deliver_answer session subscription.now label.now)
        × (result.session ≡ deliver_session session subscription.now label.now) }
{
    let answer = deliver_in_place(&mut session, subscription, label);
    Recording { session, answer }
}
