// An image of the house bound, lent.
ghost use Rattle.marks.specs.Outcomes.{Housed};

// The bytes of an image. It has at most 2^28 of them, as each image has that the tests let pass.
#[derive(Clone, Copy)]
pub struct Image<'a> {
    pub bytes: &'a [u8],
    pub ghost housed: { Housed bytes.now },
}
