//! Document 01: "The reader carries the lent sheet with it and moves on by one entry".
#![tactic(auto)]

ghost use Rattle.std.specs.Prelude.{◌≡◌, is_some, ltb};
ghost use Rattle.protocol.specs.Words.{entry_count};
ghost use Rattle.sheet_reader.specs.Sheet.{words_at};

/// The lent sheet, and the number of the next entry, whose first word stands at 2 + 3 × next.
#[derive(Clone, Copy)]
pub struct Reader<'a> {
    pub sheet: &'a [u32],
    pub next: usize,
}

impl<'a> Reader<'a> {
    /// a reader before the first entry
    pub fn new(sheet: &'a [u32]) -> Reader<'a>
        ensures { (result.sheet ≡ sheet.entry) × (result.next ≡ 0) }
    {
        Reader { sheet, next: 0 }
    }
}

// The words of one entry after the other. At the end the reader stays where it is.
impl<'a> Iterator for Reader<'a> {
    ghost use Rattle.sheet_reader.specs.Reader.{MovesOn, left};

    type Item = (u32, u32, u32);

    ghost next_gives = { MovesOn };

    ghost remaining = { left };

    fn next(&mut self) -> Option<(u32, u32, u32)> {
        // an entry's number is below the number of words, so its place does not overflow
        if self.sheet.len() <= self.next {
            return None;
        }
        let place = 2 + 3 * self.next;
        if self.sheet.len() < place + 3 {
            return None;
        }
        self.next += 1;
        Some((
            self.sheet[place],
            self.sheet[place + 1],
            self.sheet[place + 2],
        ))
    }
}

/// the words of entry i, by a reader that stands before it; there are as many entries as the protocol counts
pub fn read_at(sheet: &[u32], i: usize) -> Option<(u32, u32, u32)>
    ensures words { result ≡ words_at sheet.now i }
    ensures found { is_some result ≡ ltb i (entry_count sheet.now) }
{
    Reader { sheet, next: i }.next()
}
