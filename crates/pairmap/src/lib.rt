// Internal: a map with one more pair after it, by the pair's two bytes. A pair changes few of the map's
// numbers, so no map of the pair alone is made.
#![tactic(auto)]

ghost use Rattle.std.specs.Prelude.{◌≡◌, ◌≤◌};
ghost use Rattle.pair.specs.Pairs.{meaning_of};
ghost use Rattle.clock.specs.Settings.{setting_of};
ghost use Rattle.timemap.specs.Maps.{joined};
ghost use Rattle.timemap.specs.Small.{Small};
ghost use Rattle.pairmap.specs.Pairs as pairs;
ghost use Rattle.pairmap.specs.Pairs.{note_map, setting_map, single};

use clock::Values;
use timemap::TimeMap;

// A map with more 384ths and more multiples of the values before it.
fn more(a: TimeMap, fixed: u64, tempos: u64, utls: u64, utvs: u64) -> TimeMap
    requires { Small a × (fixed ≤ 274877906944) × (tempos ≤ 672) × (utls ≤ 672) × (utvs ≤ 672) }
    ensures { result ≡ pairs.more a fixed tempos utls utvs }
{
    TimeMap {
        fixed: a.fixed + fixed,
        tempos: a.tempos + tempos,
        utls: a.utls + utls,
        utvs: a.utvs + utvs,
        ..a
    }
}

// A note goes by one of the three values: with code 1 in bits 4 to 2 by UTV where bit 5 is set, else by UTL;
// with any other code by the tempo. So n, its length where all three are 1, is its multiple of that value.
fn with_note(a: TimeMap, first: u8, n: u64) -> TimeMap
    requires { Small a × (n ≤ 672) }
    ensures { result ≡ joined a (note_map first n) }
{
    if first / 4 % 8 != 1 {
        return more(
            a,
            timemap::fixed_part(a.tempo, n),
            timemap::open_part(a.tempo, n),
            0,
            0,
        );
    }
    if first / 32 % 2 == 0 {
        more(
            a,
            timemap::fixed_part(a.utl, n),
            0,
            timemap::open_part(a.utl, n),
            0,
        )
    } else {
        more(
            a,
            timemap::fixed_part(a.utv, n),
            0,
            0,
            timemap::open_part(a.utv, n),
        )
    }
}

// A command leaves the value that it sets at what it sets.
fn with_setting(a: TimeMap, first: u8, second: u8) -> TimeMap
    ensures { result ≡ joined a (setting_map (setting_of first second)) }
{
    let after = clock::values_after(clock::at_start(), first, second);
    match first {
        0x06 => TimeMap {
            tempo: Some(after.tempo),
            ..a
        },
        0x16 => TimeMap {
            utl: Some(after.utl),
            ..a
        },
        0xF6 => TimeMap {
            utv: Some(after.utv),
            ..a
        },
        _ => a,
    }
}

// internal: a map, and a pair after it.
pub fn with_pair(a: TimeMap, first: u8, second: u8) -> TimeMap
    requires { Small a }
    ensures { result ≡ joined a (single (meaning_of first second)) }
{
    if first % 4 == 0 {
        let ones = Values {
            tempo: 1,
            utl: 1,
            utv: 1,
        };
        with_note(a, first, u64::from(clock::length(ones, first, second)))
    } else {
        with_setting(a, first, second)
    }
}
