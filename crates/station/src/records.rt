// Records in numbers: what `station_read` hands out for each sector, and what `station_pick` takes back.
ghost use Rattle.std.specs.Prelude.{◌≡◌, ◌-◌, ◌*◌, ◌≤◌, length, replicate, IfOk};
ghost use Rattle.layouts.specs.Layouts.{most_sectors};
ghost use Rattle.answers.specs.Answers.{answer_number};
ghost use Rattle.station.specs.Outcomes.{answered_records, answered_counts};
ghost use Rattle.station.specs.Records.{record_width, record_numbers, record_list, numbered_at};

use answers::Record;
use calls::Refusal;
use layouts::MOST_SECTORS;
use read::Reading;

// How many numbers a record is handed out in.
pub(crate) const WIDTH: usize = 3;

// The number of a record's answer.
pub(crate) fn record_number(record: Record) -> u8
    ensures { result ≡ answer_number «record».answer }
{
    u8::from(record.answer)
}

// A record's numbers: its answer's, its place, and how many of its clock cells are doubtful.
pub(crate) fn record_numbers(record: Record) -> [u32; WIDTH]
    ensures { result ≡ record_numbers «record» }
{
    [record_number(record) as u32, record.place, record.clocks]
}

// Lists the numbers of the sectors that there are, in a list of zeros.
pub(crate) fn list_sectors(count: usize, records: [Record; MOST_SECTORS], list: &mut [u32])
    requires { (count ≤ most_sectors) × (list.old ≡ replicate (most_sectors * record_width) 0) }
    ensures { list.new ≡ record_list count records }
{
    for i in 0..count {
        let numbers = record_numbers(records[i]);
        list[i * WIDTH] = numbers[0];
        list[i * WIDTH + 1] = numbers[1];
        list[i * WIDTH + 2] = numbers[2];
    }
}

// Lists what a read answers of the sectors; zeros past the layout's count, and all of them where the call is refused.
pub(crate) fn list_answered(answer: &Result<Reading, Refusal>, list: &mut [u32; 78])
    requires { IfOk answer.now (λ reading. reading.sectors ≤ most_sectors) }
    ensures { list.new ≡ answered_records answer.now }
{
    *list = [0; 78];
    let Ok(reading) = answer else {
        return;
    };
    list_sectors(reading.sectors, reading.records, list);
}

// The bad and the foreign identifiers that a read counts; zeros where the call is refused.
pub(crate) fn answered_counts(answer: &Result<Reading, Refusal>) -> [u32; 2]
    ensures { result ≡ answered_counts answer.now }
{
    match answer {
        Ok(reading) => [reading.bad, reading.foreign],
        Err(_) => [0; 2],
    }
}

// The index of a sector.
fn index_of(sector: u32) -> usize
    ensures { result ≡ sector - 1 }
{
    if sector == 0 {
        return 0;
    }
    sector as usize - 1
}

// The record of a sector, by the numbers of all. A sector that there is not has none, and a pick refuses it.
pub(crate) fn record_at(list: &[u32], sector: u32) -> Record
    requires { length list.now ≡ most_sectors * record_width }
    ensures { result ≡ numbered_at list.now sector }
{
    let index = index_of(sector);
    if index < MOST_SECTORS {
        let number = list[index * WIDTH];
        let place = list[index * WIDTH + 1];
        let clocks = list[index * WIDTH + 2];
        return Record {
            answer: answers::answer_of(number),
            place,
            clocks,
        };
    }
    Record {
        answer: answers::answer_of(0),
        place: 0,
        clocks: 0,
    }
}
