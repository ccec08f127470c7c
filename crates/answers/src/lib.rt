// What the calls for C and Rust answer, as one number, and what they put into a list.
#![tactic(auto)]

ghost use Rattle.std.specs.Prelude.{◌≡◌, ◌+◌, ◌*◌, ◌<◌};
ghost use Rattle.fields.specs.Parts.{front};

// internal: a refusal's number above its place.
pub fn refused(number: u32, place: usize) -> u64
    requires { place < 0x100000000 }
    ensures { result ≡ number * 0x100000000 + place }
{
    number as u64 * 0x100000000 + place as u64
}

// internal: values into the first cells of a list, as many as fit.
pub fn fill<T: Copy>(values: &[T], out: &mut [T])
    ensures { out.new ≡ front values.now out.old }
{
    let count = values.len().min(out.len());
    for i in 0..count {
        out[i] = values[i];
    }
}
