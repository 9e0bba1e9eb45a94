// A file in numbers, for the exported functions: where its sections are, and how long it is.
ghost use Rattle.std.specs.Prelude.{◌≡◌};
ghost use Rattle.station.specs.Files.{section_numbers, written_length};

use file::{Refusal, Sections};

// The place and the count of each section; zeros where the file is refused.
pub(crate) fn section_numbers(answer: Result<Sections, Refusal>) -> [u32; 8]
    ensures { result ≡ section_numbers answer }
{
    match answer {
        Ok(found) => [
            found.label.place,
            found.label.count,
            found.tracks.place,
            found.tracks.count,
            found.answers.place,
            found.answers.count,
            found.data.place,
            found.data.count,
        ],
        Err(_) => [0; 8],
    }
}

// The bytes of the file; 0 where the writing is refused.
pub(crate) fn written_length(answer: Result<u32, Refusal>) -> [u32; 1]
    ensures { result ≡ written_length answer }
{
    [answer.unwrap_or(0)]
}
