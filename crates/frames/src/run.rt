// A row of octets, from any state.
ghost use Rattle.std.specs.Prelude.{◌≡◌, ◌≤◌, length, drop};
ghost use Rattle.frames.specs.Scanning.{Valid, scan};

use crate::state::{Scan, ValidScan};

// The state after the octets of s from a place on.
pub(crate) fn run(s: &[u8], from: usize, begin: Scan) -> Scan
    requires { (from ≤ length s.now) × Valid begin }
    ensures { (result ≡ scan begin (drop from s.now)) × Valid result }
{
    let mut st = ValidScan { scan: begin };
    let mut i = from;
    // A cursor: each step goes as far as pass did.
    while i < s.len() {
        if Scan::IN_COUNTED < st.scan.phase {
            return st.scan;
        }
        let next = crate::pass::pass(s, i, st);
        i += next.scan.at - st.scan.at;
        if s.len() <= i {
            return next.scan;
        }
        st = crate::scan::step(next, s[i]);
        i += 1;
    }
    st.scan
}

// The state after all octets of s. Where it begins in a body, that is passed first: pieces of a stream often are parts of one.
pub(crate) fn run_on(s: &[u8], begin: Scan) -> Scan
    requires { Valid begin }
    ensures { (result ≡ scan begin s.now) × Valid result }
{
    if (begin.phase < Scan::IN_BODY) | (Scan::IN_COUNTED < begin.phase) {
        return run(s, 0, begin);
    }
    let st = ValidScan { scan: begin };
    let k = crate::pass::body_ahead(s, 0, st);
    let next = st.skip(k).scan;
    if s.len() <= k {
        return next;
    }
    run(s, k, next)
}
