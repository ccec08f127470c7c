// Internal: counts added up. Events and pairs walked stop at 1,048,577, one more than 33 lets pass, so that
// no sum outgrows its number; the laws of crates/counts show that the stop never shows in an answer. A plain
// event is the most frequent pair, and a voice has too few of them to outgrow anything: they are added
// without the stop, which comes where counts are joined and where a body ends.
#![tactic(auto)]

ghost use Rattle.std.specs.Prelude.{◌≡◌, ◌<◌, ◌≤◌};
ghost use Rattle.tally.specs.Sums.{cap, join, no_counts, more, passes, standing, again};
ghost use Rattle.tally.specs.Small.{Small, Running, packed_counts, unpacked_counts};

// The events and pairs walked of a body, and its depth. With no invariant: docs/CONTRACTS.md names the calls
// below, which may ask no more of their callers than `Running` and `Small`.
#[derive(Clone, Copy)]
pub struct Counts {
    pub events: u32,
    pub walked: u32,
    pub depth: u32,
}

// internal: of nothing.
pub fn nothing() -> Counts
    ensures { result ≡ no_counts }
{
    Counts {
        events: 0,
        walked: 0,
        depth: 0,
    }
}

fn capped(x: u32) -> u32
    ensures { result ≡ cap x }
{
    x.min(1048577)
}

// Counts with more after them. No sum of callers is too large for its number.
fn with(a: Counts, b: Counts) -> Counts
    requires { Running a × (b.events ≤ 267387391) × (b.walked ≤ 267387391) }
    ensures { result ≡ join a b }
{
    Counts {
        events: capped(a.events + b.events),
        walked: capped(a.walked + b.walked),
        depth: a.depth.max(b.depth),
    }
}

// internal: an event more.
pub fn with_event(a: Counts) -> Counts
    requires { Running a }
    ensures { result ≡ more a }
{
    Counts {
        events: a.events + 1,
        walked: a.walked + 1,
        depth: a.depth,
    }
}

// internal: the counts of a body at its end, with the stop that its last events went without.
pub fn settled(a: Counts) -> Counts
    requires { Running a }
    ensures { result ≡ join a no_counts }
{
    with(a, nothing())
}

// internal: HED n, its body and its TAL: 1 + n × (body + 1).
pub fn with_repeat(a: Counts, n: u16, b: Counts) -> Counts
    requires { Running a × Small b × (n < 256) }
    ensures { result ≡ join a (passes n b) }
{
    let times = n as u32;
    with(
        a,
        Counts {
            events: times * b.events,
            walked: 1 + times * (b.walked + 1),
            depth: 1 + b.depth,
        },
    )
}

// internal: DEF to END, body + 2. A DEF counts no depth.
pub fn with_phrase(a: Counts, b: Counts) -> Counts
    requires { Running a × Small b }
    ensures { result ≡ join a (standing b) }
{
    with(
        a,
        Counts {
            events: b.events,
            walked: b.walked + 2,
            depth: b.depth,
        },
    )
}

// internal: CAL, body + 2.
pub fn with_call(a: Counts, b: Counts) -> Counts
    requires { Running a × Small b }
    ensures { result ≡ join a (again b) }
{
    with(
        a,
        Counts {
            events: b.events,
            walked: b.walked + 2,
            depth: 1 + b.depth,
        },
    )
}

// internal: counts in one number, for a phrase's cell. They stay so: docs/CONTRACTS.md names this call and
// the next, docs/DECISIONS.md the law `unpacked_packed` of them.
pub fn packed_counts(a: Counts) -> u64
    requires { Small a }
    ensures { result ≡ packed_counts a }
{
    (a.events as u64 * 2097152 + a.walked as u64) * 32 + a.depth as u64
}

// internal: the counts that a number holds.
pub fn unpacked_counts(x: u64) -> Counts
    ensures { result ≡ unpacked_counts x }
{
    Counts {
        events: (x / 67108864 % 2097152) as u32,
        walked: (x / 32 % 2097152) as u32,
        depth: (x % 32) as u32,
    }
}
