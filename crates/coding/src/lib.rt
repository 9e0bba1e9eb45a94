// How a data byte is coded in sixteen cells.
#![tactic(auto)]

ghost use Rattle.std.specs.Prelude.{◌≡◌, ◌+◌, ◌*◌};
ghost use Rattle.coding.specs.Coding.{high, low};
ghost use Rattle.coding.specs.Outcomes.{IsCoded};

use cells::Mode;

// The two image bytes of a data byte.
#[derive(Clone, Copy, Debug, PartialEq, Eq)]
pub struct Pair {
    pub first: u8,
    pub second: u8,
}

// The sixteen cells of `byte` after the bit `before`. After a ONE the first clock cell of MFM is 0, whatever follows.
fn sixteen(mode: Mode, before: u8, byte: u8) -> u16
    ensures { result ≡ high mode before byte * 256 + low mode byte }
{
    let bits = byte as u16;
    let nibbles = (bits | (bits << 4)) & 0x0F0F;
    let pairs = (nibbles | (nibbles << 2)) & 0x3333;
    let data = (pairs | (pairs << 1)) & 0x5555;
    match mode {
        Mode::Fm => data | 0xAAAA,
        Mode::Mfm => {
            let cells = data | ((((data << 1) | (data >> 1)) & 0xAAAA) ^ 0xAAAA);
            if before == 0 { cells } else { cells % 32768 }
        }
    }
}

// The two image bytes of `byte` after the bit `before`: 0 is ZERO, anything else ONE.
pub fn coded(mode: Mode, before: u8, byte: u8) -> Pair
    ensures { IsCoded mode before byte result }
{
    let [first, second] = sixteen(mode, before, byte).to_be_bytes();
    Pair { first, second }
}
