// What a step stores, and where: the papers' list, of which each call works out one store. A data byte's cells need only the byte before it;
// the EDC's, and the byte after the block, go over all the contents.
ghost use Rattle.std.specs.Prelude.{◌∷◌, ◌≡◌, ◌+◌, ◌*◌, ◌%◌, ◌≤◌, ◌<◌, length, get_or};
ghost use Rattle.layouts.specs.Layouts.{layout_of};
ghost use Rattle.marks.specs.Marks.{mark_byte, mark_of};
ghost use Rattle.rewrite.specs.Stores.{no_store, block_end, follows, new_edc, field, joined as joinedTo, stores, store_count};

use super::{Plan, Store};
use cells::Mode;
use coding::Pair;
use layouts::Layout;
use marks::Mark;

// The block that a plan rewrites: the plan, with its layout's constants.
#[derive(Clone, Copy)]
pub(crate) struct Block {
    pub plan: Plan,
    pub layout: Layout,
    ghost small: { layout.size ≤ 65535 },
}

impl Block {
    // The block of a plan.
    pub(crate) fn of(plan: Plan) -> Block
        ensures { (result.plan ≡ plan) × (result.layout ≡ layout_of plan.layout) }
    {
        Block {
            plan,
            layout: layouts::layout_of(plan.layout),
        }
    }

    // The byte after it.
    pub(crate) fn end(self) -> usize
        ensures { result ≡ block_end self.layout self.plan.place }
    {
        let place = self.plan.place as usize;
        place / 8 + 2 * (marks::mark_bytes(self.layout.mode) + self.layout.size + 2)
    }

    // Whether the byte after it is stored too.
    fn is_followed(self, bytes: usize) -> bool
        ensures { result ≡ follows self.layout.mode (block_end self.layout self.plan.place) bytes }
    {
        match self.layout.mode {
            Mode::Fm => false,
            Mode::Mfm => self.end() < bytes,
        }
    }

    // How many stores there are in an image of so many bytes.
    pub(crate) fn stores(self, bytes: usize) -> usize
        ensures { result ≡ store_count self.layout self.plan.place bytes }
    {
        if self.is_followed(bytes) {
            return 2 * self.layout.size + 7;
        }
        2 * self.layout.size + 6
    }
}

// The new bytes and their EDC, coded as if the new mark stood before them. The mark goes as its byte, FB or F8, up to where its string is asked for:
// most steps ask for none of it.
#[derive(Clone, Copy)]
struct Field<'a> {
    mode: Mode,
    mark: u8,
    contents: &'a [u8],
}

impl<'a> Field<'a> {
    // The EDC of the bytes, counted over the mark too.
    fn edc(self) -> u16
        ensures { result ≡ new_edc self.entry.mode (mark_of self.entry.mark) self.entry.contents.now }
    {
        let register = marks::register_after(self.mode, marks::mark_of(self.mark));
        edc::bytes_entered(register, self.contents)
    }

    // The last bit before byte `i` of the contents; before the first stands the mark.
    fn bit_before(self, i: usize) -> u8
        requires { i ≤ length self.contents.now }
        ensures { (result ≡ get_or (mark_byte (mark_of self.entry.mark) ∷ self.entry.contents.now) i 0 % 2) × (result < 2) }
    {
        if i == 0 {
            return marks::last_bit(marks::mark_of(self.mark));
        }
        self.contents[i - 1] % 2
    }

    // The two image bytes of byte `i` of the contents and their EDC.
    fn pair(self, i: usize) -> Pair
        requires { i < length self.contents.now + 2 }
        ensures first_value { result.first ≡ get_or (field self.entry.mode (mark_of self.entry.mark) self.entry.contents.now) (2 * i) 0 }
        ensures second_value { result.second ≡ get_or (field self.entry.mode (mark_of self.entry.mark) self.entry.contents.now) (2 * i + 1) 0 }
    {
        let contents = self.contents;
        if i < contents.len() {
            return coding::coded(self.mode, self.bit_before(i), contents[i]);
        }
        let register = self.edc();
        let upper = (register / 256) as u8;
        if i == contents.len() {
            return coding::coded(self.mode, self.bit_before(i), upper);
        }
        coding::coded(self.mode, upper % 2, (register % 256) as u8)
    }

    // Image byte `at` of them.
    fn byte(self, at: usize) -> u8
        requires { at < 2 * (length self.contents.now + 2) }
        ensures { result ≡ get_or (field self.entry.mode (mark_of self.entry.mark) self.entry.contents.now) at 0 }
    {
        let pair = self.pair(at / 2);
        if at % 2 == 0 {
            return pair.first;
        }
        pair.second
    }

    // The byte after the block, behind the EDC.
    fn joined(self, byte: u8) -> u8
        ensures { result ≡ joinedTo (new_edc self.entry.mode (mark_of self.entry.mark) self.entry.contents.now % 2) byte }
    {
        if byte / 64 % 2 == 0 {
            let bit = (self.edc() % 2) as u8;
            return 128 * (1 - bit) + byte % 128;
        }
        byte
    }
}

// The store that is next by the block's plan.
pub(crate) fn store_of(block: Block, mark: u8, contents: &[u8], image: &[u8]) -> Store
    requires whole { length contents.now ≡ block.layout.size }
    requires unfinished { block.plan.made < store_count block.layout block.plan.place (length image.now) }
    ensures { result ≡ get_or (stores block.layout image.now block.plan.place (mark_of mark) contents.now) block.plan.made no_store }
{
    let mode = block.layout.mode;
    let made = block.plan.made as usize;
    let end = block.plan.place as usize / 8 + 2 * marks::mark_bytes(mode) - 1;
    if made == 0 {
        return Store {
            byte: end,
            value: marks::last_byte(mode, Mark::Open),
        };
    }
    let field = Field {
        mode,
        mark,
        contents,
    };
    if made < 2 * contents.len() + 5 {
        return Store {
            byte: end + made,
            value: field.byte(made - 1),
        };
    }
    if made + 1 < block.stores(image.len()) {
        let after = end + made;
        return Store {
            byte: after,
            value: field.joined(image[after]),
        };
    }
    Store {
        byte: end,
        value: marks::last_byte(mode, marks::mark_of(mark)),
    }
}
