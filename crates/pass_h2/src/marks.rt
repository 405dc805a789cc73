// Marks in a row.

ghost use Rattle.std.specs.Prelude.{◌≡◌, ℕ, ◌+◌, ◌<◌, ◌≤◌, ◌*◌, ◌++◌, [], ◌∷◌, length, true, false, filter, replicate, slice_set, slice_index, slice_index_or, if◌then◌else◌, IfOk, OnOk};
ghost use Rattle.std.specs.List.{list_any, range_with_len};
ghost use Rattle.pass_h2.specs.Bits as bits;
ghost use Rattle.pass_h2.specs.MarkLists as words;

use std::alloc::{AllocError, Global};
use std::marker::Model;

/// Marks by their places, each a bit.
#[derive(Drop)]
pub(crate) struct Marks {
    words: Vec<u64>,
    count: u64,
}

impl Model for Marks {
    ghost use Rattle.std.specs.Prelude.{◌≤◌, ◌*◌, Bool, List, length};
    ghost use Rattle.pass_h2.specs.Bits.{marks_of};

    ghost Value = { List Bool };

    ghost view = { λ m. marks_of m.words.items m.count };

    ghost invariant = { λ m. m.count ≤ 64 * length m.words.items };
}

fn has_bit(word: u64, bit: u64) -> bool
    requires { bit < 64 }
    ensures { result ≡ bits.has_bit word bit }
{
    word & (1 << bit) != 0
}

/// The word at this place, or one without a bit.
fn word_at(words: &[u64], place: u64) -> u64
    ensures { result ≡ slice_index words.now place }
{
    words.get(place as usize).copied().unwrap_or(0)
}

fn mark_at(words: &[u64], place: u64) -> bool
    ensures { result ≡ bits.mark_at words.now place }
{
    has_bit(word_at(words, place / 64), place % 64)
}

/// Whether there is a mark at one of so many places.
fn some_mark(words: &[u64], count: u64) -> bool
    ensures { result ≡ list_any (bits.mark_at words.now) (range_with_len 0 count) }
{
    (0..count).any(|place| mark_at(words, place))
}

/// Sets the bit of this place, if there is one.
fn set_bit(words: &mut [u64], place: u64)
    ensures { words.new ≡ bits.with_bit words.old place }
{
    let i = (place / 64) as usize;
    if i < words.len() {
        words[i] |= 1 << (place % 64);
    }
}

/// The bits that both have.
fn common_words(alloc: Global, front: &[u64], back: &[u64]) -> Result<Vec<u64>, AllocError>
    ensures { IfOk result (λ words. words.items ≡ bits.common_words front.now back.now) }
{
    (0..front.len() as u64)
        .map(|i| word_at(front, i) & word_at(back, i))
        .collect(alloc)
}

/// The bits of the first that the second hasn't.
fn without_words(alloc: Global, front: &[u64], back: &[u64]) -> Result<Vec<u64>, AllocError>
    ensures { IfOk result (λ words. words.items ≡ bits.without_words front.now back.now) }
{
    (0..front.len() as u64)
        .map(|i| word_at(front, i) ^ (word_at(front, i) & word_at(back, i)))
        .collect(alloc)
}

/// How many places from this one on are passed over, at most `left`: those of its word that come before the next mark.
fn unmarked_from(words: &[u64], place: u64, left: u64) -> u64
    ensures few { result ≤ left }
    ensures unmarked { (i : ℕ) → place ≤ i → i < place + result → bits.mark_at words.now i ≡ false }
{
    let rest = word_at(words, place / 64) >> (place % 64);
    let most = left.min(64 - place % 64);
    if rest == 0 {
        most
    } else {
        most.min(rest.trailing_zeros() as u64)
    }
}

/// Adds the place, if it has a mark.
fn add_marked(places: &mut Vec<u64>, words: &[u64], place: u64) -> Result<(), AllocError>
    ensures { OnOk result (places.new.items ≡ places.old.items ++ (if bits.mark_at words.now place then place ∷ [] else [])) }
{
    if mark_at(words, place) {
        places.push(place)?;
    }
    Ok(())
}

/// Those of so many places that have a mark.
fn marked_places(alloc: Global, words: &[u64], count: u64) -> Result<Vec<u64>, AllocError>
    ensures { IfOk result (λ places. places.items ≡ filter (bits.mark_at words.now) (range_with_len 0 count)) }
{
    let mut places = Vec::new(alloc);
    let mut place = 0;
    while place < count {
        let unmarked = unmarked_from(words, place, count - place);
        if unmarked == 0 {
            add_marked(&mut places, words, place)?;
            place += 1;
        } else {
            place += unmarked;
        }
    }
    Ok(places)
}

impl Marks {
    /// The marks of these words.
    fn of_words(words: Vec<u64>, count: u64) -> Marks
        requires { count ≤ 64 * length words.items }
        ensures { result ≡ bits.marks_of words.items count }
    {
        Marks { words, count }
    }

    /// So many places without a mark.
    pub(crate) fn new(alloc: Global, count: usize) -> Result<Marks, AllocError>
        ensures { IfOk result (λ marks. marks ≡ replicate count false) }
    {
        let words = vec![in alloc; 0u64; count / 64 + 1]?;
        Ok(Marks::of_words(words, count as u64))
    }

    /// Whether there is a mark at this place, or this where there is no such place.
    pub(crate) fn get_or(&self, place: u64, other: bool) -> bool
        ensures { result ≡ slice_index_or self.now place other }
    {
        if place < self.count {
            mark_at(self.words.as_slice(), place)
        } else {
            other
        }
    }

    /// Whether there is a mark.
    pub(crate) fn has_some(&self) -> bool
        ensures { result ≡ list_any (λ mark. mark) self.now }
    {
        some_mark(self.words.as_slice(), self.count)
    }

    /// Sets the mark at this place, if there is one.
    pub(crate) fn set(&mut self, place: u64)
        ensures { self.new ≡ slice_set self.old place true }
    {
        if place < self.count {
            set_bit(self.words.as_mut_slice(), place);
        }
    }

    /// A copy of the marks.
    pub(crate) fn copy(&self, alloc: Global) -> Result<Marks, AllocError>
        ensures { IfOk result (λ marks. marks ≡ self.now) }
    {
        let words = self.words.as_slice().iter().copied().collect(alloc)?;
        Ok(Marks::of_words(words, self.count))
    }

    /// The marks that stand in both.
    pub(crate) fn common(&self, alloc: Global, other: &Marks) -> Result<Marks, AllocError>
        ensures { IfOk result (λ marks. marks ≡ words.common self.now other.now) }
    {
        let words = common_words(alloc, self.words.as_slice(), other.words.as_slice())?;
        Ok(Marks::of_words(words, self.count.min(other.count)))
    }

    /// The marks that don't stand in the other.
    pub(crate) fn without(&self, alloc: Global, other: &Marks) -> Result<Marks, AllocError>
        ensures { IfOk result (λ marks. marks ≡ words.without self.now other.now) }
    {
        let words = without_words(alloc, self.words.as_slice(), other.words.as_slice())?;
        Ok(Marks::of_words(words, self.count.min(other.count)))
    }

    /// The places that have a mark.
    pub(crate) fn places(&self, alloc: Global) -> Result<Vec<u64>, AllocError>
        ensures { IfOk result (λ places. places.items ≡ words.places self.now) }
    {
        marked_places(alloc, self.words.as_slice(), self.count)
    }
}
