// What acceptance says of the three voices, as a list of numbers.
ghost use Rattle.std.specs.Prelude.{◌≡◌};
ghost use Rattle.muscalls.specs.Lists.{song_numbers};
ghost use Rattle.muscalls.specs.Bounds.{NarrowSong};

use mus::Song;

// internal: for each voice offset, pairs, events and pairs walked.
pub fn song_numbers(s: Song) -> [u32; 12]
    requires { NarrowSong s }
    ensures { result ≡ song_numbers s }
{
    [
        s.voice1.offset as u32,
        (s.voice1.length / 2) as u32,
        s.voice1.events,
        s.voice1.walked,
        s.voice2.offset as u32,
        (s.voice2.length / 2) as u32,
        s.voice2.events,
        s.voice2.walked,
        s.voice3.offset as u32,
        (s.voice3.length / 2) as u32,
        s.voice3.events,
        s.voice3.walked,
    ]
}
