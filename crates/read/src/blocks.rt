// A sector's block: its bytes go into the slot as they are decoded, and their doubtful clock cells are counted with them. Those that are
// lent the slot give what goes with what they leave there: the answer, with the sum where a block was decoded, or the whole record.
ghost use Rattle.std.specs.Prelude.{◌≡◌, ◌++◌, ◌∷◌, [], ◌+◌, ◌*◌, ◌≤◌, length, replicate};
ghost use Rattle.cells.specs.Cells.{cell};
ghost use Rattle.edc.specs.Register.{edc_of};
ghost use Rattle.marks.specs.Marks.{covered};
ghost use Rattle.walk.specs.declared.Block.TheVariants.{Within};
ghost use Rattle.read.specs.Records.{slot_of, identifier_record};
ghost use Rattle.read.specs.Turns.{Lent, Leaves, Gives, Decodes, Checks, Opens, place_of, unmet, next};
ghost use Rattle.answers.specs.declared.Answer.TheVariants.{Refused, Defective};

use answers::{Answer, Fault, LETTER_F, NO_PLACE, Record};
use cells::Mode;
use layouts::Track;
use marks::{Image, Mark};
use walk::Block;

// What decoding a block says besides its bytes: the two of the EDC behind them, and how many clock cells of them all are doubtful.
#[derive(Clone, Copy)]
struct Decoded {
    high: u8,
    low: u8,
    clocks: u32,
}

// What a block says of its sector besides the slot.
#[derive(Clone, Copy)]
struct Told {
    answer: Answer,
    clocks: u32,
}

// Fills the slot with the data bytes from `place` on, where the mark ends.
fn decode(mode: Mode, mark: Mark, image: &[u8], place: usize, slot: &mut [u8]) -> Decoded
    requires { (place + 16 * length slot.old ≤ 4294967296) × (1 ≤ length slot.old) }
    ensures { Decodes mode mark (cell image.now) place (length slot.old) result.high result.low result.clocks slot.new }
{
    let clocks = cells::read_bytes(mode, marks::last_bit(mark), image, place, slot);
    let end = place + 16 * slot.len();
    let high = cells::read_byte(mode, slot[slot.len() - 1] % 2, image, end);
    let low = cells::read_byte(mode, high.byte % 2, image, end + 16);
    Decoded {
        high: high.byte,
        low: low.byte,
        clocks: clocks + high.clocks + low.clocks,
    }
}

// The register once the mark, the slot's bytes and the two behind them have entered it.
fn register_of(mode: Mode, mark: Mark, slot: &[u8], high: u8, low: u8) -> u16
    ensures { result ≡ edc_of (covered mode mark ++ (slot.now ++ high ∷ low ∷ [])) }
{
    let register = edc::bytes_entered(marks::register_after(mode, mark), slot);
    edc::byte_entered(edc::byte_entered(register, high), low)
}

// A refused sector: its slot is all zero.
fn refused(fault: Fault, slot: &mut [u8]) -> Answer
    ensures { (result ≡ Refused fault) × (slot.new ≡ replicate (length slot.old) 0) }
{
    cells::clear(slot);
    Answer::Refused(fault)
}

// A defective area: F followed by zeros, whatever else the block holds.
fn defective(slot: &mut [u8]) -> Answer
    requires { 1 ≤ length slot.old }
    ensures { (result ≡ Defective) × (slot.new ≡ slot_of (length slot.old) Defective slot.old) }
{
    cells::clear(slot);
    slot[0] = LETTER_F;
    Answer::Defective
}

// The answer, once the slot that holds the block's bytes holds what the answer leaves of them.
fn settled(answer: Answer, slot: &mut [u8]) -> Answer
    requires { 1 ≤ length slot.old }
    ensures { (result ≡ answer) × (slot.new ≡ slot_of (length slot.old) answer slot.old) }
{
    match answer {
        Answer::Refused(fault) => refused(fault, slot),
        Answer::Data => Answer::Data,
        Answer::Control => Answer::Control,
        Answer::Defective => defective(slot),
    }
}

// The block whose bytes begin at `place`, after a data or a control mark, on a track of this cylinder.
fn checked(
    cylinder: u32,
    mode: Mode,
    mark: Mark,
    image: &[u8],
    place: usize,
    slot: &mut [u8],
) -> Told
    requires { (place + 16 * length slot.old ≤ 4294967296) × (1 ≤ length slot.old) }
    ensures { Checks cylinder mode mark (cell image.now) place (length slot.old) result.answer result.clocks slot.new }
{
    let decoded = decode(mode, mark, image, place, slot);
    let register = register_of(mode, mark, slot, decoded.high, decoded.low);
    let answer = answers::answer_after(cylinder, mark, slot[0], register == 0);
    Told {
        answer: settled(answer, slot),
        clocks: decoded.clocks,
    }
}

// The block whose bytes begin at `place`, after an open mark: its EDC is not looked at, and nothing of it is left.
fn opened(mode: Mode, image: &[u8], place: usize, slot: &mut [u8]) -> Told
    requires { (place + 16 * length slot.old ≤ 4294967296) × (1 ≤ length slot.old) }
    ensures { Opens mode (cell image.now) place (length slot.old) result.answer result.clocks slot.new }
{
    let decoded = decode(mode, Mark::Open, image, place, slot);
    Told {
        answer: refused(Fault::OpenMark, slot),
        clocks: decoded.clocks,
    }
}

// What the block says whose mark stands at `place`, by itself.
fn block_told(track: Track, image: Image, place: usize, slot: &mut [u8]) -> Told
    requires { Lent track image.bytes.now (Within place) slot.old }
    ensures { Leaves (identifier_record track (cell image.entry.bytes.now) (8 * length image.entry.bytes.now) (Within place)) result.answer result.clocks slot.new }
{
    let layout = track.layout;
    let mode = layout.mode;
    let bytes = place + 16 * marks::mark_bytes(mode);
    // the data mark first, since most blocks have it; a claimed block without data or control mark has an open one
    if marks::stands(mode, Mark::Data, image, place) {
        return checked(track.cylinder, mode, Mark::Data, image.bytes, bytes, slot);
    }
    if marks::stands(mode, Mark::Control, image, place) {
        return checked(
            track.cylinder,
            mode,
            Mark::Control,
            image.bytes,
            bytes,
            slot,
        );
    }
    opened(mode, image.bytes, bytes, slot)
}

// A sector of which no whole block was found, or more than one identifier: it is refused, and no clock cell counts.
fn blockless(fault: Fault, slot: &mut [u8]) -> Told
    ensures { (result.answer ≡ Refused fault) × (result.clocks ≡ 0) × (slot.new ≡ replicate (length slot.old) 0) }
{
    Told {
        answer: refused(fault, slot),
        clocks: 0,
    }
}

// What an accepted identifier says of its sector, where it is the first.
fn identifier_told(track: Track, image: Image, block: Block, slot: &mut [u8]) -> Told
    requires { Lent track image.bytes.now block slot.old }
    ensures { Leaves (identifier_record track (cell image.entry.bytes.now) (8 * length image.entry.bytes.now) block) result.answer result.clocks slot.new }
{
    match block {
        Block::Missing => blockless(Fault::NoBlock, slot),
        Block::Beyond(_) => blockless(Fault::PastEnd, slot),
        Block::Within(place) => block_told(track, image, place, slot),
    }
}

// The place that a block gives its sector.
#[tactic(auto, unfolding(crate::specs::Turns::place_of))]
fn place_of(block: Block) -> u32
    requires { place_of block ≤ 4294967295 }
    ensures { result ≡ place_of block }
{
    match block {
        Block::Missing => NO_PLACE,
        Block::Beyond(place) => place as u32,
        Block::Within(place) => place as u32,
    }
}

// Whether no identifier of the sector has been accepted.
fn is_unmet(answer: Answer) -> bool
    ensures { result ≡ unmet answer }
{
    answer == Answer::Refused(Fault::NoIdentifier)
}

// What a sector is that answered `before`, once one more of its identifiers was accepted.
pub(crate) fn next_record(
    track: Track,
    image: Image,
    before: Answer,
    block: Block,
    slot: &mut [u8],
) -> Record
    requires { Lent track image.bytes.now block slot.old }
    ensures { Gives (next track (cell image.entry.bytes.now) (8 * length image.entry.bytes.now) before block) result slot.new }
{
    if is_unmet(before) {
        let told = identifier_told(track, image, block, slot);
        let answer = told.answer;
        return Record {
            answer,
            place: place_of(block),
            clocks: told.clocks,
        };
    }
    let told = blockless(Fault::Doubled, slot);
    let answer = told.answer;
    Record {
        answer,
        place: NO_PLACE,
        clocks: told.clocks,
    }
}
