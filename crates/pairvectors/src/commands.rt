// Commands with an unsigned value: the last that has a pair, and the next. Of CAL and DEF also 15 to 17: from
// 16 on they stand in other rows.
use crate::show;
use meaning::Meaning;
use std::io;
use std::io::Write;

fn show_slopes(out: &mut impl Write) -> io::Result<()> {
    let rows = [
        ("DCY 15", Meaning::Dcy(15)),
        ("DCY 16", Meaning::Dcy(16)),
        ("RUP 31", Meaning::Rup(31)),
        ("RUP 32", Meaning::Rup(32)),
    ];
    show::spellings(out, &rows)
}

fn show_calls(out: &mut impl Write) -> io::Result<()> {
    let rows = [
        ("CAL 15", Meaning::Cal(15)),
        ("CAL 16", Meaning::Cal(16)),
        ("CAL 17", Meaning::Cal(17)),
        ("CAL 23", Meaning::Cal(23)),
        ("CAL 24", Meaning::Cal(24)),
    ];
    show::spellings(out, &rows)
}

fn show_phrases(out: &mut impl Write) -> io::Result<()> {
    let rows = [
        ("DEF 15", Meaning::Def(15)),
        ("DEF 16", Meaning::Def(16)),
        ("DEF 17", Meaning::Def(17)),
        ("DEF 23", Meaning::Def(23)),
        ("DEF 24", Meaning::Def(24)),
    ];
    show::spellings(out, &rows)
}

fn show_levels(out: &mut impl Write) -> io::Result<()> {
    let rows = [
        ("ATK 15", Meaning::Atk(15)),
        ("ATK 16", Meaning::Atk(16)),
        ("SUS 15", Meaning::Sus(15)),
        ("SUS 16", Meaning::Sus(16)),
        ("LFO 1", Meaning::Lfo(1)),
        ("LFO 2", Meaning::Lfo(2)),
        ("RDN 31", Meaning::Rdn(31)),
        ("RDN 32", Meaning::Rdn(32)),
    ];
    show::spellings(out, &rows)
}

fn show_waves(out: &mut impl Write) -> io::Result<()> {
    let rows = [
        ("WAV 7", Meaning::Wav(7)),
        ("WAV 8", Meaning::Wav(8)),
        ("F-M 7", Meaning::Fm(7)),
        ("F-M 8", Meaning::Fm(8)),
        ("RLS 15", Meaning::Rls(15)),
        ("RLS 16", Meaning::Rls(16)),
        ("RES 15", Meaning::Res(15)),
        ("RES 16", Meaning::Res(16)),
    ];
    show::spellings(out, &rows)
}

fn show_volumes(out: &mut impl Write) -> io::Result<()> {
    let rows = [
        ("3-0 YES", Meaning::ThreeOff(true)),
        ("3-0 NO", Meaning::ThreeOff(false)),
        ("VOL 15", Meaning::Vol(15)),
        ("VOL 16", Meaning::Vol(16)),
        ("SRC 2", Meaning::Src(2)),
        ("SRC 3", Meaning::Src(3)),
        ("DST 3", Meaning::Dst(3)),
        ("DST 4", Meaning::Dst(4)),
        ("DCY 65535", Meaning::Dcy(65535)),
    ];
    show::spellings(out, &rows)
}

pub fn show_seconds(out: &mut impl Write) -> io::Result<()> {
    show_slopes(out)?;
    show_calls(out)?;
    show_phrases(out)?;
    show_levels(out)?;
    show_waves(out)?;
    show_volumes(out)
}

fn show_tempos(out: &mut impl Write) -> io::Result<()> {
    let rows = [
        ("P-W 4095", Meaning::Pw(4095)),
        ("P-W 4096", Meaning::Pw(4096)),
        ("TEM 0", Meaning::Tem(0)),
        ("TEM 1", Meaning::Tem(1)),
        ("TEM 256", Meaning::Tem(256)),
        ("TEM 257", Meaning::Tem(257)),
    ];
    show::spellings(out, &rows)
}

fn show_bytes(out: &mut impl Write) -> io::Result<()> {
    let rows = [
        ("UTL 255", Meaning::Utl(255)),
        ("UTL 256", Meaning::Utl(256)),
        ("PNT 255", Meaning::Pnt(255)),
        ("PNT 256", Meaning::Pnt(256)),
        ("HED 255", Meaning::Hed(255)),
        ("HED 256", Meaning::Hed(256)),
        ("FLG 255", Meaning::Flg(255)),
        ("FLG 256", Meaning::Flg(256)),
    ];
    show::spellings(out, &rows)
}

fn show_vibratos(out: &mut impl Write) -> io::Result<()> {
    let rows = [
        ("VDP 127", Meaning::Vdp(127)),
        ("VDP 128", Meaning::Vdp(128)),
        ("VRT 255", Meaning::Vrt(255)),
        ("VRT 256", Meaning::Vrt(256)),
        ("AUX 255", Meaning::Aux(255)),
        ("AUX 256", Meaning::Aux(256)),
        ("PVD 127", Meaning::Pvd(127)),
        ("PVD 128", Meaning::Pvd(128)),
        ("PVR 127", Meaning::Pvr(127)),
        ("PVR 128", Meaning::Pvr(128)),
    ];
    show::spellings(out, &rows)
}

fn show_limits(out: &mut impl Write) -> io::Result<()> {
    let rows = [
        ("MAX 255", Meaning::Max(255)),
        ("MAX 256", Meaning::Max(256)),
        ("UTV 255", Meaning::Utv(255)),
        ("UTV 256", Meaning::Utv(256)),
        ("F-C 255", Meaning::Fc(255)),
        ("F-C 256", Meaning::Fc(256)),
        ("HLD 255", Meaning::Hld(255)),
        ("HLD 256", Meaning::Hld(256)),
    ];
    show::spellings(out, &rows)
}

fn show_long(out: &mut impl Write) -> io::Result<()> {
    let rows = [
        ("MS# 1023", Meaning::Ms(1023)),
        ("MS# 1024", Meaning::Ms(1024)),
        ("POR 16383", Meaning::Por(16383)),
        ("POR 16384", Meaning::Por(16384)),
        ("POR 65535", Meaning::Por(65535)),
    ];
    show::spellings(out, &rows)
}

pub fn show_others(out: &mut impl Write) -> io::Result<()> {
    show_tempos(out)?;
    show_bytes(out)?;
    show_vibratos(out)?;
    show_limits(out)?;
    show_long(out)
}
