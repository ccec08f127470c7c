// Notes that have a pair and, beside them, notes that have none.
use crate::show;
use crate::show::{pitch, pitched, resting, sounding};
use meaning::{Accidental, Duration, Letter, Shape};
use std::io;
use std::io::Write;

fn show_values(out: &mut impl Write) -> io::Result<()> {
    let rows = [
        (
            "whole plain -",
            sounding(Duration::Whole, Shape::Plain, false),
        ),
        (
            "thirty-second double-dotted tied",
            sounding(Duration::ThirtySecond, Shape::DoubleDotted, true),
        ),
        (
            "64th plain -",
            sounding(Duration::SixtyFourth, Shape::Plain, false),
        ),
        (
            "64th plain tied",
            sounding(Duration::SixtyFourth, Shape::Plain, true),
        ),
        (
            "64th triplet -",
            sounding(Duration::SixtyFourth, Shape::Triplet, false),
        ),
        (
            "64th triplet tied",
            sounding(Duration::SixtyFourth, Shape::Triplet, true),
        ),
        (
            "64th dotted -",
            sounding(Duration::SixtyFourth, Shape::Dotted, false),
        ),
        (
            "64th double-dotted -",
            sounding(Duration::SixtyFourth, Shape::DoubleDotted, false),
        ),
        (
            "64th dotted tied",
            sounding(Duration::SixtyFourth, Shape::Dotted, true),
        ),
    ];
    show::spellings(out, &rows)
}

fn show_utilities(out: &mut impl Write) -> io::Result<()> {
    let rows = [
        (
            "utility-duration plain -",
            sounding(Duration::UtilityDuration, Shape::Plain, false),
        ),
        (
            "utility-duration triplet tied",
            sounding(Duration::UtilityDuration, Shape::Triplet, true),
        ),
        (
            "utility-duration dotted -",
            sounding(Duration::UtilityDuration, Shape::Dotted, false),
        ),
        (
            "utility-duration double-dotted -",
            sounding(Duration::UtilityDuration, Shape::DoubleDotted, false),
        ),
        (
            "utility-voice plain -",
            sounding(Duration::UtilityVoice, Shape::Plain, false),
        ),
        (
            "utility-voice plain tied",
            sounding(Duration::UtilityVoice, Shape::Plain, true),
        ),
        (
            "utility-voice dotted -",
            sounding(Duration::UtilityVoice, Shape::Dotted, false),
        ),
        (
            "utility-voice double-dotted -",
            sounding(Duration::UtilityVoice, Shape::DoubleDotted, false),
        ),
        (
            "utility-voice triplet -",
            sounding(Duration::UtilityVoice, Shape::Triplet, false),
        ),
        (
            "utility-voice triplet tied",
            sounding(Duration::UtilityVoice, Shape::Triplet, true),
        ),
    ];
    show::spellings(out, &rows)
}

fn show_absolutes(out: &mut impl Write) -> io::Result<()> {
    let rows = [
        (
            "absolute plain -",
            sounding(Duration::AbsolutePitch, Shape::Plain, false),
        ),
        (
            "absolute plain tied",
            sounding(Duration::AbsolutePitch, Shape::Plain, true),
        ),
        (
            "absolute dotted -",
            sounding(Duration::AbsolutePitch, Shape::Dotted, false),
        ),
        (
            "absolute double-dotted -",
            sounding(Duration::AbsolutePitch, Shape::DoubleDotted, false),
        ),
        (
            "absolute triplet -",
            sounding(Duration::AbsolutePitch, Shape::Triplet, false),
        ),
        (
            "absolute triplet tied",
            sounding(Duration::AbsolutePitch, Shape::Triplet, true),
        ),
    ];
    show::spellings(out, &rows)
}

fn show_rests(out: &mut impl Write) -> io::Result<()> {
    let rows = [
        (
            "quarter dotted rest",
            resting(Duration::Quarter, Shape::Dotted),
        ),
        (
            "64th plain rest",
            resting(Duration::SixtyFourth, Shape::Plain),
        ),
        (
            "absolute plain rest",
            resting(Duration::AbsolutePitch, Shape::Plain),
        ),
        (
            "64th dotted rest",
            resting(Duration::SixtyFourth, Shape::Dotted),
        ),
        (
            "absolute dotted rest",
            resting(Duration::AbsolutePitch, Shape::Dotted),
        ),
    ];
    show::spellings(out, &rows)
}

fn show_octaves(out: &mut impl Write) -> io::Result<()> {
    let rows = [
        ("C natural 0", pitched(Letter::C, Accidental::Natural, 0)),
        ("C natural 7", pitched(Letter::C, Accidental::Natural, 7)),
        ("C natural 8", pitched(Letter::C, Accidental::Natural, 8)),
        (
            "C natural 200",
            pitched(Letter::C, Accidental::Natural, 200),
        ),
        (
            "C natural 65535",
            pitched(Letter::C, Accidental::Natural, 65535),
        ),
        ("B sharp 7", pitched(Letter::B, Accidental::Sharp, 7)),
        ("C flat 0", pitched(Letter::C, Accidental::Flat, 0)),
        ("C flat 8", pitched(Letter::C, Accidental::Flat, 8)),
        (
            "B double-flat 8",
            pitched(Letter::B, Accidental::DoubleFlat, 8),
        ),
    ];
    show::spellings(out, &rows)
}

fn show_double_sharps(out: &mut impl Write) -> io::Result<()> {
    let rows = [
        (
            "C double-sharp 4",
            pitched(Letter::C, Accidental::DoubleSharp, 4),
        ),
        (
            "D double-sharp 4",
            pitched(Letter::D, Accidental::DoubleSharp, 4),
        ),
        (
            "E double-sharp 4",
            pitched(Letter::E, Accidental::DoubleSharp, 4),
        ),
        (
            "F double-sharp 4",
            pitched(Letter::F, Accidental::DoubleSharp, 4),
        ),
        (
            "G double-sharp 4",
            pitched(Letter::G, Accidental::DoubleSharp, 4),
        ),
        (
            "A double-sharp 4",
            pitched(Letter::A, Accidental::DoubleSharp, 4),
        ),
        (
            "B double-sharp 4",
            pitched(Letter::B, Accidental::DoubleSharp, 4),
        ),
    ];
    show::spellings(out, &rows)
}

fn show_double_flats(out: &mut impl Write) -> io::Result<()> {
    let rows = [
        (
            "C double-flat 4",
            pitched(Letter::C, Accidental::DoubleFlat, 4),
        ),
        (
            "D double-flat 4",
            pitched(Letter::D, Accidental::DoubleFlat, 4),
        ),
        (
            "E double-flat 4",
            pitched(Letter::E, Accidental::DoubleFlat, 4),
        ),
        (
            "F double-flat 4",
            pitched(Letter::F, Accidental::DoubleFlat, 4),
        ),
        (
            "G double-flat 4",
            pitched(Letter::G, Accidental::DoubleFlat, 4),
        ),
        (
            "A double-flat 4",
            pitched(Letter::A, Accidental::DoubleFlat, 4),
        ),
        (
            "B double-flat 4",
            pitched(Letter::B, Accidental::DoubleFlat, 4),
        ),
    ];
    show::spellings(out, &rows)
}

pub fn show_notes(out: &mut impl Write) -> io::Result<()> {
    show_values(out)?;
    show_utilities(out)?;
    show_absolutes(out)?;
    show_rests(out)?;
    show_octaves(out)?;
    show_double_sharps(out)?;
    show_double_flats(out)
}

pub fn show_half_steps(out: &mut impl Write) -> io::Result<()> {
    let rows = [
        ("half-step C flat 0", pitch(Letter::C, Accidental::Flat, 0)),
        (
            "half-step C natural 0",
            pitch(Letter::C, Accidental::Natural, 0),
        ),
        (
            "half-step F natural 5",
            pitch(Letter::F, Accidental::Natural, 5),
        ),
        (
            "half-step B sharp 7",
            pitch(Letter::B, Accidental::Sharp, 7),
        ),
        (
            "half-step C natural 8",
            pitch(Letter::C, Accidental::Natural, 8),
        ),
        (
            "half-step B sharp 65535",
            pitch(Letter::B, Accidental::Sharp, 65535),
        ),
        (
            "half-step C double-flat 4",
            pitch(Letter::C, Accidental::DoubleFlat, 4),
        ),
        (
            "half-step E double-sharp 4",
            pitch(Letter::E, Accidental::DoubleSharp, 4),
        ),
    ];
    show::half_steps(out, &rows)
}
