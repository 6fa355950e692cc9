//! Known words that tell nodes apart: where states of different words were joined, it would no longer be known where a
//! return leads.

use crate::types::{PlacedWord, Run};
use arrayvec::ArrayVec;
use gb_joining::gb_ops::registers::Registers;
use gb_joining::gb_verify::{Abs, Rules, Val};
use gb_joining::limits::WORDS;
use gb_joining::stop::RunStop;

/// The places of words in pairs of registers: BC, DE and HL.
const IN_PAIRS: [u16; 3] = [0x100, 0x101, 0x102];

/// Some known words with their places.
type Words = ArrayVec<PlacedWord, WORDS>;

/// The value of an interval that has one alone.
fn known(val: Val) -> Option<u8> {
    if val.lo == val.hi { Some(val.lo) } else { None }
}

/// A known word.
fn known_word(high: Val, low: Val) -> Option<u16> {
    match (known(high), known(low)) {
        (Some(high), Some(low)) => Some(u16::from_be_bytes([high, low])),
        _ => None,
    }
}

/// The pairs of registers, high bytes first.
fn pairs(registers: &Registers<Val>) -> [(Val, Val); 3] {
    [
        (registers.b, registers.c),
        (registers.d, registers.e),
        (registers.h, registers.l),
    ]
}

impl<'a> Run<'a> {
    /// Adds a word that is the address behind an inlined call.
    fn add_return(&self, place: u16, high: Val, low: Val, words: &mut Words) {
        if let Some(word) = known_word(high, low)
            && self.returns.contains(&word)
        {
            let _ = words.try_push(PlacedWord { place, word });
        }
    }

    /// The words among items.
    fn add_items(&self, items: &[Val], words: &mut Words) {
        let mut before: Option<Val> = None;
        let mut place: u16 = 0;
        for item in items {
            if let Some(high) = before {
                self.add_return(place, high, *item, words);
            }
            before = Some(*item);
            place = place.saturating_add(1);
        }
    }

    /// The words in pairs of registers.
    fn add_pairs(&self, registers: &Registers<Val>, words: &mut Words) {
        for (place, (high, low)) in IN_PAIRS.iter().zip(pairs(registers)) {
            self.add_return(*place, high, low, words);
        }
    }

    /// The words that tell a state apart; where all is told apart, all known bytes of the stack, else those that are counted.
    fn words_of(&self, state: &Abs, is_keyed: bool, counted: u64) -> Words {
        let mut words = ArrayVec::new();
        if is_keyed {
            add_known(state.items(), u64::MAX, true, &mut words);
        } else {
            self.add_items(state.items(), &mut words);
            add_known(state.items(), counted, false, &mut words);
        }
        self.add_pairs(&state.core().registers, &mut words);
        words
    }

    /// The number of the words that tell a state apart: 0 where there are none.
    pub(crate) fn number_words(
        &mut self,
        state: &Abs,
        is_keyed: bool,
        counted: u64,
    ) -> Result<usize, RunStop> {
        let has_none = self.returns.is_empty() && !is_keyed && counted == 0;
        if self.rules() == Rules::Simple || has_none {
            return Ok(0);
        }
        let words = self.words_of(state, is_keyed, counted);
        if words.is_empty() {
            return Ok(0);
        }
        if let Some(number) = self.word_index.get(words.as_slice()) {
            return Ok(*number);
        }
        let number = self.word_index.len().saturating_add(1);
        let key = Vec::from_slice(self.alloc, words.as_slice())?;
        self.word_index.insert(key, number)?;
        Ok(number)
    }
}

/// Adds those bytes of items that are known and whose bits are set; of those behind the 64th it is said whether they are wanted.
fn add_known(items: &[Val], wanted: u64, with_others: bool, words: &mut Words) {
    let mut place: u16 = 0;
    let mut left = wanted;
    for item in items {
        let is_wanted = left & 1 == 1 || (with_others && place >= 64);
        left >>= 1;
        if is_wanted && let Some(byte) = known(*item) {
            let word = u16::from(byte);
            let _ = words.try_push(PlacedWord { place, word });
        }
        place = place.saturating_add(1);
    }
}
