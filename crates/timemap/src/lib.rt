// Internal: the length of a body as a map of the values that it starts with, so that no body is read twice. A
// body lasts a fixed number of 384ths and fixed multiples of the tempo, UTL and UTV before it; it leaves each
// of the three as it was or at a fixed value.
#![tactic(auto)]

ghost use Rattle.std.specs.Prelude.{◌≡◌, ◌+◌, ◌*◌, ◌<◌, ◌≤◌};
ghost use Rattle.timemap.specs.Maps as maps;
ghost use Rattle.timemap.specs.Maps.{fixed_part, open_part};
ghost use Rattle.timemap.specs.Small.{Low, Sized, Small};

use clock::Values;

// The length of a body, fixed 384ths and multiples of the values before it, and where it leaves each value:
// at one that it sets, else as it was.
#[derive(Clone, Copy, Default)]
pub struct TimeMap {
    pub fixed: u64,
    pub tempos: u64,
    pub utls: u64,
    pub utvs: u64,
    pub tempo: Option<u16>,
    pub utl: Option<u16>,
    pub utv: Option<u16>,
}

// internal: of n multiples of a value, what they come to where an earlier body sets it.
pub fn fixed_part(left: Option<u16>, n: u64) -> u64
    requires { Low left × (n ≤ 1073741824) }
    ensures { (result ≡ fixed_part left n) × (result ≤ 274877906944) }
{
    match left {
        None => 0,
        Some(value) => n * u64::from(value),
    }
}

// internal: of n multiples of a value, how many still go by the value before both bodies.
pub fn open_part<T: Copy>(left: Option<T>, n: u64) -> u64
    ensures { (result ≡ open_part left n) × (result ≤ n) }
{
    match left {
        None => n,
        Some(_) => 0,
    }
}

// A number and n times another.
fn added(x: u64, n: u64, y: u64) -> u64
    requires { (x ≤ 4611686018427387904) × (n * y ≤ 4611686018427387904) }
    ensures { result ≡ x + n * y }
{
    x + n * y
}

impl TimeMap {
    // internal: of nothing.
    pub fn still() -> TimeMap
        ensures { result ≡ maps.still }
    {
        TimeMap {
            fixed: 0,
            tempos: 0,
            utls: 0,
            utvs: 0,
            tempo: None,
            utl: None,
            utv: None,
        }
    }

    // Of a body, and another after it: the map of the other by the values before both.
    fn under(self, other: TimeMap) -> TimeMap
        requires { Small self × Small other }
        ensures { result ≡ maps.under self other }
    {
        let tempo = fixed_part(self.tempo, other.tempos);
        let utl = fixed_part(self.utl, other.utls);
        let utv = fixed_part(self.utv, other.utvs);
        TimeMap {
            fixed: other.fixed + tempo + utl + utv,
            tempos: open_part(self.tempo, other.tempos),
            utls: open_part(self.utl, other.utls),
            utvs: open_part(self.utv, other.utvs),
            tempo: other.tempo.or(self.tempo),
            utl: other.utl.or(self.utl),
            utv: other.utv.or(self.utv),
        }
    }

    // A length and n times another, with what the other leaves.
    fn plus(self, n: u64, other: TimeMap) -> TimeMap
        requires { Small self × Sized 2199023255552 other × (n < 256) }
        ensures { result ≡ maps.plus self n other }
    {
        TimeMap {
            fixed: added(self.fixed, n, other.fixed),
            tempos: added(self.tempos, n, other.tempos),
            utls: added(self.utls, n, other.utls),
            utvs: added(self.utvs, n, other.utvs),
            ..other
        }
    }

    // internal: a body, and another after it.
    pub fn joined(self, other: TimeMap) -> TimeMap
        requires { Small self × Small other }
        ensures { result ≡ maps.joined self other }
    {
        self.plus(1, self.under(other))
    }

    // internal: n passes over a body: the first, and n - 1 that all start with what a pass leaves.
    pub fn passes(self, n: u64) -> TimeMap
        requires { (0 < n) × (n < 256) × Small self }
        ensures { result ≡ maps.passes n self }
    {
        self.plus(n - 1, self.under(self))
    }

    // internal: how long a body lasts after these values.
    pub fn length(self, values: Values) -> u64
        requires { Small self }
        ensures { result ≡ maps.length_by self values }
    {
        let tempo = added(self.fixed, self.tempos, u64::from(values.tempo));
        let utl = added(tempo, self.utls, u64::from(values.utl));
        added(utl, self.utvs, u64::from(values.utv))
    }
}
