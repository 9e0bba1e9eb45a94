// Prints what a file of a read cartridge holds, from the standard input: its label, a line for each track with the answers of its sectors, and how much
// there is of each. The data are counted only, so a file may be longer than what is kept of it.
#![tactic(auto)]

ghost use Rattle.std.specs.Prelude.{◌+◌, ◌≤◌, max, length};

use file::{Refusal, Section, Sections, TRACK_WIDTH};
use std::io;
use std::io::Read;
use streams::Input;

// Reads on behind the bytes that have come, and only counts them: until there is a byte more than the data, the input ends or a read fails. How many
// are left over is not asked, so that an input without an end is refused too.
fn read_rest(stdin: &impl io::Input, start: usize, data: Section) -> Input {
    let mut buffer = streams::large_buffer();
    let wanted = data.place as usize + data.count as usize;
    let mut end = start;
    while end <= wanted {
        match stdin.reader().read(&mut buffer) {
            Ok(0) => break,
            Ok(more) => end += more,
            Err(why) => {
                return Input {
                    end,
                    broken: Some(why),
                };
            }
        }
    }
    Input { end, broken: None }
}

// How many bytes the file has, where its first ones filled the buffer. One whose head is refused is so whatever follows: no more is read.
fn count_all(stdin: &impl io::Input, head: Result<Sections, Refusal>, start: usize) -> Input {
    match head {
        Ok(found) => read_rest(stdin, start, found.data),
        Err(_) => Input {
            end: start,
            broken: None,
        },
    }
}

// A number behind a word. This and all that prints fails where that does not go out.
fn print_number(rt: &impl Print, word: &[u8], number: impl Into<u32>) -> io::Result<()> {
    let number: u32 = number.into();
    rt.write_all(word)?;
    print!(rt; "{number}")
}

// The end of a line.
fn print_end(rt: &impl Print) -> io::Result<()> {
    rt.write_all(b"\n")
}

// So many bytes from a place on, as far as they are there. (Those of a section that was found all are.)
fn part(bytes: &[u8], start: usize, count: usize) -> &[u8]
    ensures { start + length result.now ≤ max start (length bytes.now) }
{
    let rest = bytes.get(start..).unwrap_or(&[]);
    rest.get(..count).unwrap_or(rest)
}

// A byte of the label. One that is no plain character goes out as its number: what a file holds must not move a terminal.
fn print_label_byte(rt: &impl Print, byte: u8) -> io::Result<()> {
    if (byte < b' ') | (b'~' < byte) | (byte == b'"') | (byte == b'\\') {
        return print!(rt; "\\x{byte:02x}");
    }
    rt.write_all(&[byte])
}

// The bytes of the label.
fn print_label(rt: &impl Print, label: &[u8]) -> io::Result<()> {
    for &byte in label {
        print_label_byte(rt, byte)?;
    }
    Ok(())
}

// The answers of a track.
fn print_answers(rt: &impl Print, answers: &[u8]) -> io::Result<()> {
    for &answer in answers {
        print_number(rt, b" ", answer)?;
    }
    Ok(())
}

// A line for a track: its numbers, and the answers of its sectors in order of their numbers.
fn print_track(
    rt: &impl Print,
    cylinder: u8,
    side: u8,
    layout: u8,
    answers: &[u8],
) -> io::Result<()> {
    print_number(rt, b"cylinder ", cylinder)?;
    print_number(rt, b" side ", side)?;
    print_number(rt, b" layout ", layout)?;
    rt.write_all(b":")?;
    print_answers(rt, answers)?;
    print_end(rt)
}

// How many sectors a track of the layout has.
fn sectors_of(layout: u8) -> usize {
    layouts::layout_of(layout as u32).sectors
}

// The lines of all tracks.
fn print_tracks(rt: &impl Print, tracks: &[u8], answers: &[u8]) -> io::Result<()> {
    let mut rest = answers;
    for track in tracks.chunks_exact(TRACK_WIDTH) {
        let layout = track[2];
        let (here, behind) = rest.split_at(sectors_of(layout).min(rest.len()));
        print_track(rt, track[0], track[1], layout, here)?;
        rest = behind;
    }
    Ok(())
}

// All that is printed of a file. The counts stand last: where they do, nothing before them is missing.
fn print_sections(rt: &impl Print, file: &[u8], found: Sections) -> io::Result<()> {
    let label = part(file, found.label.place as usize, found.label.count as usize);
    let tracks = part(
        file,
        found.tracks.place as usize,
        TRACK_WIDTH * (found.tracks.count as usize),
    );
    let answers = part(
        file,
        found.answers.place as usize,
        found.answers.count as usize,
    );
    rt.write_all(b"label \"")?;
    print_label(rt, label)?;
    rt.write_all(b"\"\n")?;
    print_tracks(rt, tracks, answers)?;
    print_number(rt, b"tracks ", found.tracks.count)?;
    print_number(rt, b", sectors ", found.answers.count)?;
    print_number(rt, b", data bytes ", found.data.count)?;
    print_end(rt)
}

// What came of the file, or of what is kept of it.
fn print_judged(rt: &impl Print, file: &[u8], judged: Result<Sections, Refusal>) -> io::Result<()> {
    match judged {
        Ok(found) => print_sections(rt, file, found),
        Err(refusal) => {
            print_number(rt, b"refused ", u8::from(refusal))?;
            print_end(rt)
        }
    }
}

fn main(rt: HostRuntime) {
    let stderr = (rt.stderr(), rt.alloc());
    // longer than any head, which is all that is kept of a file that is longer still
    let mut buffer = streams::large_buffer();
    let mut input = streams::read_input(&rt, &mut buffer);
    let end = input.end;
    let head = file::head(&buffer[..end]);
    if end == buffer.len() {
        input = count_all(&rt, head, end);
    }
    if let Some(why) = input.broken {
        streams::tell_broken(&stderr, b"cartridge-file", input.end, why);
        return;
    }
    let printed = print_judged(&rt, &buffer[..end], file::whole(head, input.end));
    streams::tell_lost(&stderr, b"cartridge-file", printed);
}
