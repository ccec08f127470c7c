// The tests 27 to 31 of a voice: two passes over its stored pairs, nothing played.
#![tactic(auto)]

ghost use Rattle.std.specs.Prelude.{◌≡◌, ◌≤◌, length};
ghost use Rattle.bodies.specs.Voice.{pairs};
ghost use Rattle.structure.specs.Findings.{pairs_finding, structure_finding};

use nesting::Open;
use refusals::Reason;

mod nesting;
mod single;

// What tests made pair by pair find: the first that applies, by its reason and its pair's number.
#[derive(Clone, Copy, Debug, PartialEq, Eq)]
pub struct Finding {
    pub reason: Reason,
    pub pair: usize,
}

// internal: 27 to 29, pair by pair.
pub fn pairs_finding(voice: &[u8]) -> Result<(), Finding>
    requires { length voice.now ≤ 65536 }
    ensures { result ≡ pairs_finding (pairs voice.now) }
{
    let n = voice.len() / 2;
    for i in 0..n {
        let last = i + 1 == n;
        if !last {
            if bodies::plain_at(voice, i) {
                continue;
            }
        }
        let kind = bodies::kind_at(voice, i);
        if let Err(reason) = single::test_pair(kind, last) {
            return Err(Finding { reason, pair: i });
        }
    }
    Ok(())
}

// internal: 30 and 31, pair by pair.
pub fn structure_finding(voice: &[u8]) -> Result<(), Finding>
    requires { length voice.now ≤ 65536 }
    ensures { result ≡ structure_finding (pairs voice.now) }
{
    let n = voice.len() / 2;
    let mut closed = [false; 24];
    let mut o = Open {
        inside: 0,
        outside: 0,
        phrase: None,
    };
    for i in 0..n {
        if bodies::plain_at(voice, i) {
            continue;
        }
        let kind = bodies::kind_at(voice, i);
        let known = closed[nesting::number_of(kind)];
        match nesting::pass(kind, o, known) {
            Err(reason) => return Err(Finding { reason, pair: i }),
            Ok(step) => {
                o = step.after;
                nesting::close(&mut closed, step.closes);
            }
        }
    }
    Ok(())
}
