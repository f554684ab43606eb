// Where a block stands in an area.
ghost use Rattle.std.specs.Prelude.{◌≡◌, ◌+◌};
ghost use Rattle.format.specs.Reading.{content as content_of};
ghost use Rattle.block.specs.Blocks.{IsWithin};

use format::Part;

// A length word and a flag.
pub const HEAD_LEN: usize = 5;

#[derive(Clone, Copy, PartialEq, Eq, Debug)]
pub struct Block {
    // its length word
    pub start: usize,
    pub end: usize,
}

impl Block {
    // The content: values, then entries.
    pub(crate) fn content<'a>(&self, area: &'a [u8]) -> Part<'a>
        requires { IsWithin area.now self.now }
        ensures bytes { result.bytes.now ≡ content_of area.now self.now.start self.now.end }
        ensures place { result.place ≡ self.now.start + 5 }
    {
        let place = self.start + HEAD_LEN;
        Part {
            bytes: &area[place..self.end],
            place,
        }
    }
}
