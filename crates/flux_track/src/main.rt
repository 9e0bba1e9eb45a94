// Makes an image of a capture, and writes what dump reads. The input has the track's layout, cylinder and side, one byte each, the ticks of a nominal
// cell, and the stamps of the flux transitions; ticks and stamps have four bytes each, most significant first.
#![tactic(auto)]

ghost use Rattle.std.specs.Prelude.{◌≡◌, ◌*◌, ◌≤◌, length};

use calls::LONGEST_IMAGE;
use flux::Refusal;
use std::io;

// The bytes of layout, cylinder and side.
const TRACK_BYTES: usize = 3;

// The bytes of a stamp, and of the ticks.
const WIDTH: usize = 4;

// What stands before the stamps.
const HEAD_BYTES: usize = TRACK_BYTES + WIDTH;

// One stamp more than the longest image takes, since each but the first brings two cells or more. What follows so many decides nothing.
const MOST_STAMPS: usize = 4 * LONGEST_IMAGE + 1;

// The stamps that the bytes hold.
fn take_stamps(bytes: &[u8], stamps: &mut [u32]) {
    let (fours, _) = bytes.as_chunks::<WIDTH>();
    for (stamp, four) in stamps.iter_mut().zip(fours) {
        *stamp = u32::from_be_bytes(*four);
    }
}

// The number of the refusal, and that of the interval where there is one. This and all that prints fails where that does not go out.
fn print_refusal(rt: &impl Print, refusal: Refusal) -> io::Result<()> {
    let number = u8::from(refusal);
    match refusal {
        Refusal::NoBand(interval) => println!(rt; "refused {number} {interval}"),
        _ => println!(rt; "refused {number}"),
    }
}

// The three bytes that name the track, and those of the image that hold cells.
fn print_track(rt: &impl Print, track: &[u8], cells: u64, image: &[u8]) -> io::Result<()>
    requires { (cells ≤ 8 * length image.now) × (length image.now ≤ 24576) }
{
    let end = (cells as usize).div_ceil(8);
    rt.write_all(track)?;
    rt.write_all(&image[..end])
}

// What came of the capture.
fn print_capture(rt: &impl Print, track: &[u8], ticks: u32, stamps: &[u32]) -> io::Result<()> {
    let mut image = [0u8; LONGEST_IMAGE];
    let laid = flux::lay(ticks, stamps, &mut image);
    match laid {
        Ok(cells) => print_track(rt, track, cells, &image),
        Err(refusal) => print_refusal(rt, refusal),
    }
}

// What came of the input: of what stands before the stamps, and their bytes.
fn print_input(rt: &impl Print, head: &[u8; HEAD_BYTES], bytes: &[u8]) -> io::Result<()>
    requires { length bytes.now ≤ 393220 }
{
    let mut room = [0u32; MOST_STAMPS];
    let stamps = &mut room[..bytes.len() / WIDTH];
    take_stamps(bytes, stamps);
    let [layout, cylinder, side, a, b, c, d] = *head;
    let ticks = u32::from_be_bytes([a, b, c, d]);
    print_capture(rt, &[layout, cylinder, side], ticks, stamps)
}

// Says that the last stamp is not there as a whole: something of the capture is lost.
fn tell_cut(rt: &impl Eprint, end: usize) {
    let _ = eprintln!(rt; "flux: the input ends within a stamp, after so many bytes: {end}");
}

fn main(rt: HostRuntime) {
    let stderr = (rt.stderr(), rt.alloc());
    // room for all bytes that decide something
    let mut bytes = [0u8; HEAD_BYTES + WIDTH * MOST_STAMPS];
    let input = streams::read_input(&rt, &mut bytes);
    let end = input.end;
    if let Some(why) = input.broken {
        streams::tell_broken(&stderr, b"flux", end, why);
        return;
    }
    let Some((head, stamps)) = bytes[..end].split_first_chunk::<HEAD_BYTES>() else {
        streams::tell_lost(&stderr, b"flux", print_refusal(&rt, Refusal::TicksNumber));
        return;
    };
    if stamps.len() % WIDTH != 0 {
        tell_cut(&rt, end);
        return;
    }
    let printed = print_input(&rt, head, stamps);
    streams::tell_lost(&stderr, b"flux", printed);
}
