// The calls of a session on one where it lies: each calls the one by value and stores the session that it gives, but for `timed_out`, which
// gives none.
ghost use Rattle.std.specs.Prelude.{◌≡◌};
ghost use Rattle.sessions.specs.Answers.{answer_says, timed_out_says, delivery_says};
ghost use Rattle.sessions.specs.Calls.{frame_answer, frame_session, heart_beat_answer, heart_beat_session, timed_out_answer, deliver_answer};
ghost use Rattle.sessions.specs.Calls.{deliver_session};

use crate::refusals::{InvalidRecord, Refusal};
use crate::session::{Acceptance, Session};

// A frame.
pub fn frame_in_place(
    s: &mut Session,
    command: u32,
    block: &[u8],
    time: u32,
) -> Result<Acceptance, Refusal>
    ensures { (answer_says result ≡ frame_answer s.old command block.now)
        × (s.new ≡ frame_session s.old command block.now time) }
{
    let out = (*s).frame(command, block, time);
    *s = out.session;
    out.answer
}

// A heart-beat.
pub fn heart_beat_in_place(s: &mut Session, time: u32) -> Result<Acceptance, Refusal>
    ensures { (answer_says result ≡ heart_beat_answer s.old) × (s.new ≡ heart_beat_session s.old time) }
{
    let out = (*s).heart_beat(time);
    *s = out.session;
    out.answer
}

// Whether the peer is timed out; the session stays as it is.
pub fn timed_out_in_place(s: &mut Session, time: u32) -> Result<bool, InvalidRecord>
    ensures { (timed_out_says result ≡ timed_out_answer s.old time) × (s.new ≡ s.old) }
{
    (*s).timed_out(time)
}

// A delivery is recorded.
pub fn deliver_in_place(s: &mut Session, subscription: &[u8], label: &[u8]) -> Result<(), Refusal>
    ensures { (delivery_says result ≡ deliver_answer s.old subscription.now label.now)
        × (s.new ≡ deliver_session s.old subscription.now label.now) }
{
    let out = (*s).deliver(subscription, label);
    *s = out.session;
    out.answer
}
