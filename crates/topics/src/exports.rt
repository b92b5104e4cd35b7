// The calls for C: byte slices, and an answer in one number.
ghost use Rattle.std.specs.Prelude.{◌≡◌};
ghost use Rattle.topics.specs.Topics.{match_answer, packed_match, unpacked_match};
ghost use Rattle.topics.specs.Plans.{plan_answer, packed_plan, unpacked_plan};

// What a refusal's number is multiplied by.
const MATCH_REFUSED: u64 = 65536;

const PLAN_REFUSED: u64 = 4294967296;

// What matches answers, in one number; it reads back.
pub fn stomp_match(name: &[u8], pattern: &[u8]) -> u64
    ensures { (result ≡ packed_match (match_answer name.now pattern.now))
        × (unpacked_match result ≡ match_answer name.now pattern.now) }
{
    match crate::pattern::matches(name, pattern) {
        Ok(yes) => u64::from(yes),
        Err(e) => MATCH_REFUSED * u64::from(e.number()),
    }
}

// What check_plan answers, in one number; it reads back.
pub fn stomp_check_plan(messages: &[u8], subscriptions: &[u8], plan: &[u8]) -> u64
    ensures { (result ≡ packed_plan (plan_answer messages.now subscriptions.now plan.now))
        × (unpacked_plan result ≡ plan_answer messages.now subscriptions.now plan.now) }
{
    match crate::plan::check_plan(messages, subscriptions, plan) {
        Ok(()) => 0,
        Err(e) => PLAN_REFUSED * u64::from(e.number()) + u64::from(e.names().unwrap_or(0)),
    }
}
