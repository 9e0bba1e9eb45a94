// The library for C and Rust: thin functions over the crates that own the rules.
#![tactic(auto)]

ghost use Rattle.std.specs.Prelude.{◌≡◌, ◌+◌, ◌*◌, length, length as listLength};
ghost use Rattle.coding.specs.Coding.{high, low};
ghost use Rattle.cells.specs.declared.Mode.TheVariants.{Fm, Mfm};
ghost use Rattle.station.specs.Outcomes.{GivesEdc, GivesCoded, GivesDataByte, GivesFormat, GivesRead, GivesPick, GivesRequest, GivesStep};
ghost use Rattle.station.specs.Files.{GivesFileRead, GivesFileWrite};
ghost use Rattle.station.specs.Timings.{GivesFlux};

use cells::Mode;
use layouts::TrackNumbers;

mod files;
mod numbers;
mod records;
mod rewriting;
mod taken;
mod timings;

// The EDC of the bytes, with the register all ones at the start.
pub fn station_edc(bytes: &[u8]) -> u16
    ensures { GivesEdc bytes.now result }
{
    edc::edc(bytes)
}

// The two image bytes of a byte after a bit, as one number.
fn joined(mode: Mode, before: u8, byte: u8) -> u16
    ensures { result ≡ high mode before byte * 256 + low mode byte }
{
    let pair = coding::coded(mode, before, byte);
    (pair.first as u16) * 256 + (pair.second as u16)
}

// A byte coded in FM after the bit `before`: its two image bytes, the first in the upper half.
pub fn station_code_fm(before: u8, byte: u8) -> u16
    ensures { GivesCoded Fm before byte result }
{
    joined(Mode::Fm, before, byte)
}

// A byte coded in MFM after the bit `before`, 0 for ZERO and anything else for ONE: its two image bytes, the first in the upper half.
pub fn station_code_mfm(before: u8, byte: u8) -> u16
    ensures { GivesCoded Mfm before byte result }
{
    joined(Mode::Mfm, before, byte)
}

// The data byte of the sixteen cells from `place` on; past the image's end cells are 0.
pub fn station_data_byte(image: &[u8], place: usize) -> u8
    ensures { GivesDataByte image.now place result }
{
    cells::data_byte(image, place)
}

// Formats a track: 0 where the image holds it, else the number of the refusal, and the image is as it was. `data` has the sectors' bytes
// and `marks` a byte FB or F8 for each, by sector number.
pub fn station_format(
    layout: u32,
    cylinder: u32,
    side: u32,
    data: &[u8],
    marks: &[u8],
    image: &mut [u8],
) -> u8
    ensures { GivesFormat layout cylinder side «data».now marks.now image.old result image.new }
{
    let numbers = TrackNumbers {
        layout,
        cylinder,
        side,
    };
    let answer = format::format(numbers, data, marks, image);
    calls::checked_number(answer)
}

// Reads a track: 0, or the number of the refusal. `area` gets a slot for each sector number, `records` three numbers by sector, the answer's, the
// place, and how many clock cells are doubtful, and zeros past the layout's count, `counts` the bad and the foreign identifiers. A refused read
// leaves zeros in all three.
pub fn station_read(
    layout: u32,
    cylinder: u32,
    side: u32,
    image: &[u8],
    area: &mut [u8],
    records: &mut [u32; 78],
    counts: &mut [u32; 2],
) -> u8
    ensures { GivesRead layout cylinder side image.now (length area.old) result area.new records.new counts.new }
{
    let numbers = TrackNumbers {
        layout,
        cylinder,
        side,
    };
    let answer = read::read(numbers, image, area);
    records::list_answered(&answer, records);
    *counts = records::answered_counts(&answer);
    calls::checked_number(answer)
}

// Picks a sector from two passes over one track: the number of its answer, or of the refusal. Each pass is the area and the records that
// `station_read` gave; of a record a first number that is no answer's counts as 21, and the other two are handed on as they are. `taken` gets the
// pass that the sector is taken from (1 the first, 2 the second), the first byte of its slot in that pass's area and the slot's length, or zeros
// where neither pass answered or the call is refused. `record` gets the record of the pass that is taken, or of the first where neither answered, or
// zeros where the call is refused.
pub fn station_pick(
    layout: u32,
    sector: u32,
    first: &[u8],
    first_records: &[u32; 78],
    second: &[u8],
    second_records: &[u32; 78],
    taken: &mut [u32; 3],
    record: &mut [u32; 3],
) -> u8
    ensures { GivesPick layout sector first.now first_records.now second.now second_records.now result taken.new «record».new }
{
    let one = records::record_at(first_records, sector);
    let two = records::record_at(second_records, sector);
    let picked = pick::choose(layout, sector, first.len(), second.len(), one, two);
    *taken = taken::part_of(layout, sector, picked);
    *record = taken::handed_on(picked);
    taken::pick_number(picked)
}

// Asks for the rewrite of a sector: 0, and `plan` gets the layout, the cell at which the block's mark begins, 0 for the stores made, and the
// stores in all; or the number of the refusal, and zeros in `plan`. `mark` is FB or F8, and `contents` the sector's new bytes.
pub fn station_request(
    layout: u32,
    cylinder: u32,
    side: u32,
    sector: u32,
    mark: u32,
    contents: &[u8],
    image: &[u8],
    plan: &mut [u32; 4],
) -> u8
    ensures { GivesRequest layout cylinder side sector mark contents.now image.now result plan.new }
{
    let numbers = TrackNumbers {
        layout,
        cylinder,
        side,
    };
    let answer = request::request(numbers, sector, mark, contents, image);
    *plan = rewriting::noted(answer, image.len());
    calls::checked_number(answer)
}

// Makes the store that is next by the plan: 0, and `plan` is moved on; or the number of the refusal, and plan and image are as they were. The
// first three numbers of the plan are taken as they are, the fourth is not looked at.
pub fn station_step(plan: &mut [u32; 4], mark: u32, contents: &[u8], image: &mut [u8]) -> u8
    ensures { GivesStep plan.old mark contents.now image.old result plan.new image.new }
{
    let answer = rewrite::step(rewriting::numbered_plan(*plan), mark, contents, image);
    rewriting::move_on(answer, image.len(), plan)
}

// Writes the file of a read cartridge: 0, and `area` holds the file and zeros behind it, `length` its bytes; or the number of the refusal, and zeros in
// the whole area and in `length`. `tracks` has three bytes each, cylinder, side and layout, `answers` a byte for each of their sectors, and `data` the
// bytes of those that answered with bytes.
pub fn station_file_write(
    label: &[u8],
    tracks: &[u8],
    answers: &[u8],
    data: &[u8],
    area: &mut [u8],
    length: &mut [u32; 1],
) -> u8
    ensures { GivesFileWrite (record { label = label.now; tracks = tracks.now; answers = answers.now; «data» = «data».now }) (listLength area.old) result area.new length.new }
{
    let answer = file::write(label, tracks, answers, data, area);
    *length = files::written_length(answer);
    numbers::number_of(answer)
}

// Reads the file of a read cartridge: 0, and `sections` gets the place and the count of label, tracks, answers and data; or the number of the
// refusal, and zeros.
pub fn station_file_read(file: &[u8], sections: &mut [u32; 8]) -> u8
    ensures { GivesFileRead file.now result sections.new }
{
    let answer = file::read(file);
    *sections = files::section_numbers(answer);
    numbers::number_of(answer)
}

// Lays the cells of a capture into the image, where a nominal cell takes so many ticks of the counter that the stamps come from: 0, and `image` holds the
// cells and zeros behind them, `res` their number and 0; or the number of the refusal, zeros in the whole image, and `res` gets 0 and the number
// of the interval that is in no band, from 1, or zeros.
pub fn station_flux(ticks: u32, stamps: &[u32], image: &mut [u8], res: &mut [u64; 2]) -> u8
    ensures { GivesFlux ticks stamps.now (listLength image.old) result image.new res.new }
{
    let answer = flux::lay(ticks, stamps, image);
    *res = timings::laid_numbers(answer);
    numbers::number_of(answer)
}
