// Prints what a track holds: layout, cylinder and side, one byte each, and then the image, from the standard input.
#![tactic(auto)]

ghost use Rattle.std.specs.Prelude.{◌≤◌};

use answers::Record;
use layouts::{MOST_SECTORS, TrackNumbers};
use read::Reading;
use std::io;

// The number of a refused call. This and all that prints fails where that does not go out.
fn print_refusal(rt: &impl Print, number: u8) -> io::Result<()> {
    println!(rt; "refused {number}")
}

// A line for each sector of the track: its number and its answer.
fn print_answers(
    rt: &impl Print,
    sectors: usize,
    records: [Record; MOST_SECTORS],
) -> io::Result<()> {
    for (index, record) in records.iter().enumerate().take(sectors) {
        println!(rt; "{} {}", index + 1, u8::from(record.answer))?;
    }
    Ok(())
}

// What was read of the track.
fn print_reading(
    rt: &impl Print,
    layout: u8,
    cylinder: u8,
    side: u8,
    reading: Reading,
) -> io::Result<()> {
    println!(rt; "track {cylinder} {side} {layout}")?;
    print_answers(rt, reading.sectors, reading.records)?;
    println!(rt; "idents {} {}", reading.bad, reading.foreign)
}

// How long the layout's data area is. A layout that there is none of is refused, whatever the area.
fn area_bytes(layout: u8) -> usize
    ensures { result ≤ 8192 }
{
    layouts::layout_of(layout as u32).area_bytes
}

// Reads the track and prints it.
fn print_track(
    rt: &impl Print,
    layout: u8,
    cylinder: u8,
    side: u8,
    image: &[u8],
) -> io::Result<()> {
    let mut area = [0u8; 8192];
    let end = area_bytes(layout);
    let numbers = TrackNumbers {
        layout: layout as u32,
        cylinder: cylinder as u32,
        side: side as u32,
    };
    match read::read(numbers, image, &mut area[0..end]) {
        Ok(reading) => print_reading(rt, layout, cylinder, side, reading),
        Err(refusal) => print_refusal(rt, u8::from(refusal)),
    }
}

fn main(rt: HostRuntime) {
    let stderr = (rt.stderr(), rt.alloc());
    // longer than any image that is read, so that one too long is seen to be
    let mut buffer = streams::large_buffer();
    let input = streams::read_input(&rt, &mut buffer);
    let end = input.end;
    if let Some(why) = input.broken {
        streams::tell_broken(&stderr, b"dump", end, why);
        return;
    }
    let [layout, cylinder, side, image @ ..] = &buffer[..end] else {
        streams::tell_lost(&stderr, b"dump", print_refusal(&rt, 1));
        return;
    };
    let printed = print_track(&rt, *layout, *cylinder, *side, image);
    streams::tell_lost(&stderr, b"dump", printed);
}
