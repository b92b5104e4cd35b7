// The calls of a registry for C, as a static library: each calls the one of registry by the same name.
#![tactic(auto)]

ghost use Rattle.std.specs.Prelude.{◌≡◌};
ghost use Rattle.registry.specs.Calls.{open_run, close_run, publish, ask, end_session};
ghost use Rattle.registry.specs.Records.{answer_to, next, text_start};
ghost use Rattle.registry.specs.Answers.{answer_number, packed_ask, asked_read};

#[unsafe(no_mangle)]
pub extern "C" fn stomp_registry_open(reg: &mut [u8], run: &[u8]) -> u64
    ensures { (result ≡ answer_number (answer_to reg.old (open_run run.now)))
        × (reg.new ≡ next reg.old (open_run run.now)) }
{
    registry::exports::stomp_registry_open(reg, run)
}

#[unsafe(no_mangle)]
pub extern "C" fn stomp_registry_close(reg: &mut [u8], run: &[u8]) -> u64
    ensures { (result ≡ answer_number (answer_to reg.old (close_run run.now)))
        × (reg.new ≡ next reg.old (close_run run.now)) }
{
    registry::exports::stomp_registry_close(reg, run)
}

#[unsafe(no_mangle)]
pub extern "C" fn stomp_registry_publish(
    reg: &mut [u8],
    run: &[u8],
    destination: &[u8],
    text: &[u8],
    session: u64,
) -> u64
    ensures { (result ≡ answer_number (answer_to reg.old (publish run.now destination.now text.now session)))
        × (reg.new ≡ next reg.old (publish run.now destination.now text.now session)) }
{
    registry::exports::stomp_registry_publish(reg, run, destination, text, session)
}

#[unsafe(no_mangle)]
pub extern "C" fn stomp_registry_end(reg: &mut [u8], session: u64) -> u64
    ensures { (result ≡ answer_number (answer_to reg.old (end_session session)))
        × (reg.new ≡ next reg.old (end_session session)) }
{
    registry::exports::stomp_registry_end(reg, session)
}

// The answer to asking, in one number: where the text is, which reads back.
#[unsafe(no_mangle)]
pub extern "C" fn stomp_registry_ask(reg: &[u8], run: &[u8], destination: &[u8]) -> u64
    ensures { (result ≡ packed_ask (answer_to reg.now (ask run.now destination.now))
        (text_start reg.now run.now destination.now))
        × (asked_read reg.now result ≡ answer_to reg.now (ask run.now destination.now)) }
{
    registry::exports::stomp_registry_ask(reg, run, destination)
}
