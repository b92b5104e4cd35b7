// The calls of topics for C, as a static library: each calls the one of topics by the same name.
#![tactic(auto)]

ghost use Rattle.std.specs.Prelude.{◌≡◌};
ghost use Rattle.topics.specs.Topics.{match_answer, packed_match, unpacked_match};
ghost use Rattle.topics.specs.Plans.{plan_answer, packed_plan, unpacked_plan};

// What matches answers, in one number; it reads back.
#[unsafe(no_mangle)]
pub extern "C" fn stomp_match(name: &[u8], pattern: &[u8]) -> u64
    ensures { (result ≡ packed_match (match_answer name.now pattern.now))
        × (unpacked_match result ≡ match_answer name.now pattern.now) }
{
    topics::exports::stomp_match(name, pattern)
}

// What check_plan answers, in one number; it reads back.
#[unsafe(no_mangle)]
pub extern "C" fn stomp_check_plan(messages: &[u8], subscriptions: &[u8], plan: &[u8]) -> u64
    ensures { (result ≡ packed_plan (plan_answer messages.now subscriptions.now plan.now))
        × (unpacked_plan result ≡ plan_answer messages.now subscriptions.now plan.now) }
{
    topics::exports::stomp_check_plan(messages, subscriptions, plan)
}
