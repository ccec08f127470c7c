// A song's speed by two numbers of a header: how many songs there are, and the speed field.
ghost use Rattle.std.specs.Prelude.{◌≡◌, ◌-◌, min};
ghost use Rattle.refusals.specs.Numbers.{outcome_of};
ghost use Rattle.sid.specs.Speed.{speed_bit, speed_of};

use refusals::{Reason, Refusal};

// Which bit it is: song - 1, and 31 above song 32.
fn bit_number(song: u64) -> u32
    ensures { result ≡ min song 32 - 1 }
{
    song.min(32).saturating_sub(1) as u32
}

#[tactic(auto, unfolding(crate::specs::Speed::speed_bit))]
// The bit itself.
fn speed_bit(field: u32, song: u64) -> u32
    ensures { result ≡ speed_bit field song }
{
    (field >> bit_number(song)) % 2
}

// internal: the song's bit, or 44.
pub fn speed_of(songs: u16, field: u32, song: u64) -> Result<u32, Refusal>
    ensures { outcome_of result ≡ speed_of songs field song }
{
    if song == 0 || u64::from(songs) < song {
        Err(Reason::NoSuchSong.into())
    } else {
        Ok(speed_bit(field, song))
    }
}
