// What the programs share of their streams: the standard input is read to its end or until the buffer is full, and a stream that fails is told of.
// What the system answers to a read and a write is tested by bin/test-scripts; no proof speaks of it.
#![tactic(auto)]

ghost use Rattle.std.specs.Prelude.{◌≡◌, length};
ghost use Rattle.streams.specs.Counts.{IsPrefixLen};

use std::io;
use std::io::Read;

// What came of the input.
#[derive(Clone, Copy)]
pub struct Input {
    // how many bytes
    pub end: usize,
    // why a read failed behind them, if one did; else they are all there is, or all that is asked for
    pub broken: Option<io::Error>,
}

// Room for what is read at a time, and for what is kept of an input.
pub fn large_buffer() -> [u8; 65536]
    ensures { 65536 ≡ length result }
{
    [0; 65536]
}

// Reads until the buffer is full, the input ends or a read fails.
pub fn read_input(stdin: &impl io::Input, buffer: &mut [u8]) -> Input
    ensures { IsPrefixLen result.«end» buffer.new }
{
    let mut end = 0;
    while end < buffer.len() {
        match stdin.reader().read(&mut buffer[end..]) {
            Ok(0) => break,
            Ok(more) => end += more,
            Err(why) => {
                return Input {
                    end,
                    broken: Some(why),
                };
            }
        }
    }
    Input { end, broken: None }
}

// What the system says of an error. std puts the error's number behind that.
fn words(text: &str) -> &str {
    match text.split_once(" (os error ") {
        Some((words, _number)) => words,
        None => text,
    }
}

// Says what failed, and why in the system's words: with no memory for those, as std has them.
fn fail(
    stderr: &(impl Print + Alloc),
    program: &[u8],
    what: &str,
    why: io::Error,
) -> io::Result<()> {
    let _ = stderr.write_all(program);
    match why.to_string(stderr.alloc()) {
        Ok(text) => println!(stderr; ": {what}: {}", words(&text)),
        Err(_) => println!(stderr; ": {what}: {why}"),
    }
}

// Says why a read failed, and how far it came. Nothing can be done where that can't be said; the same holds below.
pub fn tell_broken(stderr: &(impl Print + Alloc), program: &[u8], end: usize, why: io::Error) {
    let _ = fail(stderr, program, "the input could not be read", why);
    let _ = stderr.write_all(program);
    let _ = println!(stderr; ": bytes read before that: {end}");
}

// Says so where some of the output is lost.
pub fn tell_lost(stderr: &(impl Print + Alloc), program: &[u8], printed: io::Result<()>) {
    if let Err(why) = printed {
        let _ = fail(stderr, program, "the output could not be written", why);
    }
}
