// The code of a command, 2CCSVVVV or 3CCSVVVV.
ghost use Rattle.std.specs.Prelude.{◌≡◌, ◌<◌};
ghost use Rattle.codes.specs.Coding.{count, signed};

// internal: a command's number and a value.
pub fn count(id: u64, v: u16) -> u64
    requires { id < 0x1000 }
    ensures { result ≡ count id v }
{
    id * 0x100000 + v as u64
}

// internal: a command's number and a value with its sign.
pub fn signed(id: u64, v: i32) -> u64
    requires { id < 0x1000 }
    ensures { result ≡ signed id v }
{
    let parts = signed::parts_of(v);
    let size = parts.size as u64;
    if parts.negative {
        id * 0x100000 + 0x10000 + size
    } else {
        id * 0x100000 + size
    }
}
