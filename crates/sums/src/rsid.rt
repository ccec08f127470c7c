// The sums of RSID: which effective init passes, given by the init field or, where that is 0, by the load
// address.
use printing::print;
use std::io;
use std::io::Write;

// An RSID file of one song, BASIC clear, with four payload bytes: nothing but the two addresses can have it
// refused.
fn file_of(init: u16, load: u16) -> [u8; 130] {
    let mut file = [0u8; 130];
    file[..4].copy_from_slice(b"RSID");
    // version, data offset
    file[5] = 2;
    file[7] = 0x7C;
    file[10..12].copy_from_slice(&init.to_be_bytes());
    // songs, start song
    file[15] = 1;
    file[17] = 1;
    // the data's first two bytes, low byte first
    file[124..126].copy_from_slice(&load.to_le_bytes());
    file
}

fn show_file(out: &mut impl Write, init: u16, load: u16) -> io::Result<()> {
    print(out, format_args!("RSID load {load:04X} init {init:04X} "))?;
    match sid::read(&file_of(init, load)) {
        Ok(_) => print(out, "passes\n"),
        Err(refusal) => print(out, format_args!("refused {}\n", refusal.reason.number())),
    }
}

pub fn show_sums(out: &mut impl Write) -> io::Result<()> {
    let addresses = [
        (0x07E8, 0x1000),
        (0x9FFF, 0x1000),
        (0x07E7, 0x1000),
        (0xA000, 0x1000),
        (0, 0x07E8),
        (0, 0x9FFF),
        (0, 0xA000),
    ];
    for (init, load) in addresses {
        show_file(out, init, load)?;
    }
    Ok(())
}
