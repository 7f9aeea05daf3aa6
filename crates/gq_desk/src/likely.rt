//! Where the row of a name may stand.

ghost use Rattle.std.specs.Prelude.{◌<◌};

use crate::plans::TenantRow;

// How many marks there are.
const MARKS: usize = 1024;

// A place for each mark of a word: a guess that is right for most names of a plan, and costs a multiplication where a look-up
// costs a walk through a hash table. Of two names with one mark the later place is held, so a place says nothing until the
// row there is seen to be of the word.
#[derive(Clone, Copy)]
pub struct Likely {
    places: [u8; MARKS],
}

impl Likely {
    // The places of the rows.
    pub fn of(rows: &[TenantRow]) -> Likely {
        let mut likely = Likely { places: [0; MARKS] };
        for (place, row) in rows.iter().enumerate() {
            likely.note(row.name.as_bytes(), place);
        }
        likely
    }

    // The place of the last row that has the word's mark, or 0.
    pub fn place(&self, word: &[u8]) -> usize {
        self.places[mark(word)] as usize
    }

    // Notes the place of a word, if it is below 256.
    fn note(&mut self, word: &[u8], place: usize) {
        if place < 256 {
            self.places[mark(word)] = place as u8;
        }
    }
}

// A number made of the first two bytes and the last two.
fn mark(word: &[u8]) -> usize
    ensures { result < MARKS }
{
    let ends = match word {
        [] => 0,
        [only] => u64::from(*only),
        [first, second, ..] => {
            let [.., before, last] = word else {
                return 0;
            };
            u64::from(*first) << 24
                | u64::from(*second) << 16
                | u64::from(*before) << 8
                | u64::from(*last)
        }
    };
    (ends.wrapping_mul(0x9e37_79b9_7f4a_7c15) >> 54) as usize
}
