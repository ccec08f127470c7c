// The voices of a file whose container is right.
ghost use Rattle.std.specs.Prelude.{◌≡◌, ◌+◌, ◌*◌, ◌≤◌, length};
ghost use Rattle.refusals.specs.Numbers.{outcome_of};
ghost use Rattle.bodies.specs.Voice.{pairs};
ghost use Rattle.bodies.specs.Order as order;
ghost use Rattle.counts.specs.Limits.{count_outcome};
ghost use Rattle.mus.specs.Voices.{limited, voice_outcome};
ghost use Rattle.mus.specs.Song.{voice_in, song_with, song_in};
ghost use Rattle.mus.specs.Bounds.{InFile};
ghost use Rattle.mus.specs.Asked.{song_voice};
ghost use Rattle.mus.specs.Text.{song_line};

use crate::{Song, Voice};
use container::Layout;
use fields::Span;
use refusals::Refusal;
use structure::Finding;

// The refusal of a pair by its number in the voice, with its file offset.
fn refusal_at(x: Finding, offset: usize) -> Refusal
    requires { (offset ≤ 65536) × (x.pair ≤ 65536) }
    ensures { result ≡ record { reason = x.reason; place = offset + 2 * x.pair } }
{
    Refusal {
        reason: x.reason,
        place: offset + 2 * x.pair,
    }
}

// 32 and 33 with the place of the voice's first pair, of a voice that 27 to 31 do not refuse; else the voice
// with its counts.
fn counted(voice: &[u8], offset: usize) -> Result<Voice, Refusal>
    requires { (length voice.now ≤ 65536) × order.Sound (pairs voice.now) }
    ensures { outcome_of result ≡ limited offset (length voice.now) (count_outcome (pairs voice.now)) }
{
    match counts::count_voice(voice) {
        Ok(walk) => Ok(Voice {
            offset,
            length: voice.len(),
            events: walk.events,
            walked: walk.walked,
        }),
        Err(reason) => Err(Refusal {
            reason,
            place: offset,
        }),
    }
}

// A voice by its own bytes and the file offset of its first pair: 27 to 29, then 30 and 31, then 32, then 33.
fn accept_voice(voice: &[u8], offset: usize) -> Result<Voice, Refusal>
    requires { (length voice.now ≤ 65536) × (offset ≤ 65536) }
    ensures { outcome_of result ≡ voice_outcome offset voice.now }
{
    if let Err(x) = structure::pairs_finding(voice) {
        return Err(refusal_at(x, offset));
    }
    if let Err(x) = structure::structure_finding(voice) {
        return Err(refusal_at(x, offset));
    }
    counted(voice, offset)
}

fn accept_span(file: &[u8], span: Span) -> Result<Voice, Refusal>
    requires { (length file.now ≤ 65536) × (span.from ≤ 65536) }
    ensures { outcome_of result ≡ voice_in pairs file.now span }
{
    let from = span.from;
    let len = span.len;
    accept_voice(fields::part(file, from, len), from)
}

// internal: voice 1, 2, 3.
pub fn accept_voices(file: &[u8], l: Layout) -> Result<Song, Refusal>
    requires { InFile file.now l }
    ensures { outcome_of result ≡ song_in (voice_in pairs file.now) l }
{
    let v1 = accept_span(file, l.voice1)?;
    let v2 = accept_span(file, l.voice2)?;
    let v3 = accept_span(file, l.voice3)?;
    Ok(song_of(l, v1, v2, v3))
}

fn song_of(l: Layout, voice1: Voice, voice2: Voice, voice3: Voice) -> Song
    ensures { result ≡ song_with l voice1 voice2 voice3 }
{
    let line1 = l.line1;
    let line2 = l.line2;
    let line3 = l.line3;
    let line4 = l.line4;
    let line5 = l.line5;
    Song {
        load: l.load,
        voice1,
        voice2,
        voice3,
        line1,
        line2,
        line3,
        line4,
        line5,
    }
}

// internal: a voice by its number from 1 to 3.
pub fn voice_of(song: Song, n: u32) -> Voice
    ensures { result ≡ song_voice song n }
{
    match n {
        1 => song.voice1,
        2 => song.voice2,
        _ => song.voice3,
    }
}

// internal: where a line lies, by its number from 1 to 5; None for any other number.
pub fn line_of(song: Song, number: u64) -> Option<Span>
    ensures { result ≡ song_line song number }
{
    match number {
        1 => Some(song.line1),
        2 => Some(song.line2),
        3 => Some(song.line3),
        4 => Some(song.line4),
        5 => Some(song.line5),
        _ => None,
    }
}
