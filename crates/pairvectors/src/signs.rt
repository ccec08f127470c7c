// Commands with a signed value: the ends of each range, and the numbers next to them; last the type's own
// ends.
use crate::show;
use meaning::Meaning;
use std::io;
use std::io::Write;

fn show_sweeps(out: &mut impl Write) -> io::Result<()> {
    let rows = [
        ("P-S 127", Meaning::Ps(127)),
        ("P-S 128", Meaning::Ps(128)),
        ("P-S -128", Meaning::Ps(-128)),
        ("P-S -129", Meaning::Ps(-129)),
        ("F-S 127", Meaning::Fs(127)),
        ("F-S 128", Meaning::Fs(128)),
        ("F-S -128", Meaning::Fs(-128)),
        ("F-S -129", Meaning::Fs(-129)),
    ];
    show::spellings(out, &rows)
}

fn show_scales(out: &mut impl Write) -> io::Result<()> {
    let rows = [
        ("AUT 127", Meaning::Aut(127)),
        ("AUT 128", Meaning::Aut(128)),
        ("AUT -128", Meaning::Aut(-128)),
        ("AUT -129", Meaning::Aut(-129)),
        ("SCA 7", Meaning::Sca(7)),
        ("SCA 8", Meaning::Sca(8)),
        ("SCA -7", Meaning::Sca(-7)),
        ("SCA -8", Meaning::Sca(-8)),
    ];
    show::spellings(out, &rows)
}

fn show_transposes(out: &mut impl Write) -> io::Result<()> {
    let rows = [
        ("TPS 95", Meaning::Tps(95)),
        ("TPS 96", Meaning::Tps(96)),
        ("TPS -95", Meaning::Tps(-95)),
        ("TPS -96", Meaning::Tps(-96)),
        ("RTP 47", Meaning::Rtp(47)),
        ("RTP 48", Meaning::Rtp(48)),
        ("RTP -47", Meaning::Rtp(-47)),
        ("RTP -48", Meaning::Rtp(-48)),
    ];
    show::spellings(out, &rows)
}

fn show_tunings(out: &mut impl Write) -> io::Result<()> {
    let rows = [
        ("JIF 757", Meaning::Jif(757)),
        ("JIF 758", Meaning::Jif(758)),
        ("JIF -200", Meaning::Jif(-200)),
        ("JIF -201", Meaning::Jif(-201)),
        ("DTN 2047", Meaning::Dtn(2047)),
        ("DTN 2048", Meaning::Dtn(2048)),
        ("DTN -2048", Meaning::Dtn(-2048)),
        ("DTN -2049", Meaning::Dtn(-2049)),
        ("DTN 5000", Meaning::Dtn(5000)),
    ];
    show::spellings(out, &rows)
}

fn show_type_ends(out: &mut impl Write) -> io::Result<()> {
    let rows = [
        ("P-S 2147483647", Meaning::Ps(i32::MAX)),
        ("P-S -2147483648", Meaning::Ps(i32::MIN)),
        ("TPS 2147483647", Meaning::Tps(i32::MAX)),
        ("TPS -2147483648", Meaning::Tps(i32::MIN)),
        ("RTP -2147483648", Meaning::Rtp(i32::MIN)),
        ("JIF -2147483648", Meaning::Jif(i32::MIN)),
        ("DTN 2147483647", Meaning::Dtn(i32::MAX)),
        ("DTN -2147483648", Meaning::Dtn(i32::MIN)),
    ];
    show::spellings(out, &rows)
}

pub fn show_signs(out: &mut impl Write) -> io::Result<()> {
    show_sweeps(out)?;
    show_scales(out)?;
    show_transposes(out)?;
    show_tunings(out)?;
    show_type_ends(out)
}
