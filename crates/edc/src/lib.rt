// The error detection code of a track's fields: the shift register of ISO 7065-2, annex A, by whole bytes and by words of eight. There is no
// table: over bits all of it is linear, so a few shifts of the whole register, or of a word that stands for it, do what eight or 64 single ones do.
#![tactic(auto)]

ghost use Rattle.std.specs.Prelude.{◌≡◌};
ghost use Rattle.edc.specs.Register.{byte_entered, bytes_entered};
ghost use Rattle.edc.specs.Words.{word_entered, stands_for};
ghost use Rattle.edc.specs.Outcomes.{IsByteEntered, IsBytesEntered, IsEdc};

// The register prior to operation: all positions are ONE.
pub const START: u16 = 0xFFFF;

// Eight shifts with the input bit ZERO. The upper byte comes to C15 and is fed back; of what is fed back at C12 the upper half comes there once
// more.
fn moved(register: u16) -> u16
    ensures { result ≡ byte_entered register 0 }
{
    let upper = register >> 8;
    let fed = upper ^ (upper >> 4);
    ((register << 8) ^ (fed << 12)) ^ ((fed << 5) ^ fed)
}

// The register after a byte. Its bits are added all at once, B8 to position C15 and B1 to C8: each of the eight shifts then finds the bit that
// it enters at C15.
pub fn byte_entered(register: u16, byte: u8) -> u16
    ensures { IsByteEntered register byte result }
{
    moved(register ^ ((byte as u16) << 8))
}

// A word that stands for the register. A register is sixteen places ahead of its word, and X^64 + X^48 + X^20 is 1 modulo the polynomial's fourth
// power, X^64 + X^48 + X^20 + 1.
fn spread(register: u16) -> u64
    ensures { stands_for result ≡ register }
{
    let word = register as u64;
    ((word << 48) ^ (word << 32)) ^ (word << 4)
}

// A word that stands for the register after 64 more shifts with the input bit ZERO: the word times X^64, which modulo that fourth power is
// X^48 + X^20 + 1. What these push above the word comes down again in `all`.
fn folded(word: u64) -> u64
    ensures { stands_for result ≡ word_entered (stands_for word) 64 0 }
{
    let one = (word >> 16) ^ word;
    let two = (one >> 32) ^ one;
    let all = (word >> 44) ^ two;
    all ^ ((all << 20) ^ (all << 48))
}

// A word that stands for the register after one more byte: of the word times X^8 only the upper byte goes over the word's end.
fn pushed(word: u64, byte: u8) -> u64
    ensures { stands_for result ≡ byte_entered (stands_for word) byte }
{
    (folded(word >> 56) ^ (word << 8)) ^ (byte as u64)
}

// The register that the word stands for: the rest of the word times X^16, modulo the polynomial. `all` is the quotient, by the polynomial and its
// second, fourth and eighth power; what it has times the polynomial in the lowest sixteen places is the rest.
fn reduced(word: u64) -> u16
    ensures { result ≡ stands_for word }
{
    let one = ((word >> 16) ^ (word >> 11)) ^ ((word >> 4) ^ word);
    let two = ((one >> 32) ^ (one >> 22)) ^ ((one >> 8) ^ one);
    let four = ((two >> 44) ^ (two >> 16)) ^ two;
    let all = (four >> 32) ^ four;
    ((all ^ ((all << 5) ^ (all << 12))) % 65536) as u16
}

// A word that stands for the register after bytes, first to last, eight at a time, and those behind the last eight one at a time.
fn entered(from: u64, bytes: &[u8]) -> u64
    ensures { stands_for result ≡ bytes_entered (stands_for from) bytes.now }
{
    let (eights, rest) = bytes.as_chunks::<8>();
    let mut word = from;
    for eight in eights {
        word = folded(word) ^ u64::from_be_bytes(*eight);
    }
    for byte in rest {
        word = pushed(word, *byte);
    }
    word
}

// The register after bytes. It stands once in the library, and not in each of its callers: the back end writes the turns of the second loop out, and
// there is no room to spare.
#[inline(never)]
pub fn bytes_entered(register: u16, bytes: &[u8]) -> u16
    ensures { IsBytesEntered register bytes.now result }
{
    reduced(entered(spread(register), bytes))
}

// The EDC of bytes, from the register's start.
pub fn edc(bytes: &[u8]) -> u16
    ensures { IsEdc bytes.now result }
{
    bytes_entered(START, bytes)
}
