// The file is written from its first byte on, each section behind the one before it.
ghost use Rattle.std.specs.Prelude.{◌++◌, ◌≡◌, ◌+◌, ◌-◌, ◌≤◌, length, replicate};
ghost use Rattle.std.proofs.lemmas.List.Edits.{sets};
ghost use Rattle.file.specs.Contents.{content_of};
ghost use Rattle.file.specs.Sections.{four_bytes, counted, encoded};

use super::{COUNT_WIDTH, Contents, TRACK_WIDTH};

// A count in four bytes, most significant first: the lower half of its eight.
fn put_count(count: usize, area: &mut [u8], at: usize)
    requires { at + 4 ≤ length area.old }
    ensures { area.new ≡ sets area.old at (four_bytes count) }
{
    area[at..at + COUNT_WIDTH].copy_from_slice(&count.to_be_bytes()[COUNT_WIDTH..]);
}

// A section after its count, each element of it having `width` bytes. The answer is the byte behind it.
fn put_section(width: usize, held: &[u8], area: &mut [u8], at: usize) -> usize
    requires { (1 ≤ width) × (at + 4 + length held.now ≤ length area.old) }
    ensures written { area.new ≡ sets area.old at (counted width held.now) }
    ensures behind { result ≡ at + 4 + length held.now }
{
    put_count(held.len() / width, area, at);
    let from = at + COUNT_WIDTH;
    let end = from + held.len();
    area[from..end].copy_from_slice(held);
    end
}

// The four sections. The answer is the byte behind them.
#[tactic(auto, using(crate::proofs::Putting::length_encoded))]
fn put_sections(contents: Contents, area: &mut [u8]) -> usize
    requires { 16 + length contents.label.now + length contents.tracks.now + length contents.answers.now + length contents.«data».now ≤ length area.old }
    ensures written { area.new ≡ sets area.old 0 (encoded (content_of contents.entry)) }
    ensures behind { result ≡ length (encoded (content_of contents.entry)) }
{
    let tracks_at = put_section(1, contents.label, area, 0);
    let answers_at = put_section(TRACK_WIDTH, contents.tracks, area, tracks_at);
    let data_at = put_section(1, contents.answers, area, answers_at);
    put_section(1, contents.data, area, data_at)
}

// The file, and zeros behind it. The answer is how long it is.
#[tactic(auto, using(crate::proofs::Putting::length_encoded))]
pub(crate) fn put_file(contents: Contents, area: &mut [u8]) -> usize
    requires { length (encoded (content_of contents)) ≤ length area.old }
    ensures written { area.new ≡ encoded (content_of contents.entry) ++ replicate (length area.old - length (encoded (content_of contents.entry))) 0 }
    ensures behind { result ≡ length (encoded (content_of contents.entry)) }
{
    let end = put_sections(contents, area);
    area[end..].fill(0);
    end
}
