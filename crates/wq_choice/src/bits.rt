//! Sets of small numbers: a bit for each, 64 to a word.
//!
//! Only the choice of what to change rests on them, and whatever is chosen is judged. So they promise nothing.

use std::alloc::{AllocError, Allocator};

/// All numbers of other words come to these, as far as there are as many words.
fn add_words(words: &mut [u64], others: &[u64]) {
    for place in 0..words.len().min(others.len()) {
        words[place] |= others[place];
    }
}

/// A set of numbers below a bound.
#[derive(Drop)]
pub(crate) struct Numbers<A: Allocator> {
    words: Vec<u64, A>,
}

impl<A: Allocator + Copy> Numbers<A> {
    /// None of the numbers below this one.
    pub(crate) fn none(alloc: A, below: usize) -> Result<Self, AllocError> {
        let words = vec![in alloc; 0; below.div_ceil(64)]?;
        Ok(Numbers { words })
    }

    /// Whether this one is in it.
    pub(crate) fn has(&self, number: u16) -> bool {
        match self.words.get(usize::from(number / 64)) {
            Some(word) => *word >> (number % 64) & 1 == 1,
            None => false,
        }
    }

    /// One number more.
    pub(crate) fn insert(&mut self, number: u16) {
        if let Some(word) = self.words.get_mut(usize::from(number / 64)) {
            *word |= 1 << (number % 64);
        }
    }

    /// One number less.
    pub(crate) fn remove(&mut self, number: u16) {
        if let Some(word) = self.words.get_mut(usize::from(number / 64)) {
            *word &= !(1 << (number % 64));
        }
    }

    /// Puts in, or out, the numbers of some words, from the word at this place on.
    pub(crate) fn set_words(&mut self, first: usize, words: &[u64]) {
        for (old, new) in self.words.iter_mut().skip(first).zip(words.iter()) {
            *old = *new;
        }
    }

    /// All numbers of another set.
    pub(crate) fn insert_all(&mut self, other: &Numbers<A>) {
        add_words(self.words.as_mut_slice(), other.words.as_slice());
    }

    /// No number of another set.
    pub(crate) fn remove_all(&mut self, other: &Numbers<A>) {
        for (word, less) in self.words.iter_mut().zip(other.words.iter()) {
            *word &= !*less;
        }
    }

    /// How many numbers it has.
    pub(crate) fn count(&self) -> u32 {
        let mut count: u32 = 0;
        for word in &self.words {
            count = count.saturating_add(word.count_ones());
        }
        count
    }

    /// The least number that is in both sets, if there is one.
    pub(crate) fn first_common(&self, other: &Numbers<A>) -> Option<u16> {
        let mut base: u16 = 0;
        for (one, other) in self.words.iter().zip(other.words.iter()) {
            let both = *one & *other;
            if both != 0 {
                return Some(base.wrapping_add(both.trailing_zeros() as u16));
            }
            base = base.wrapping_add(64);
        }
        None
    }

    /// Its words that aren't 0, each with its place.
    pub(crate) fn some_words(&self, alloc: A) -> Result<Vec<(usize, u64), A>, AllocError> {
        let mut some = Vec::new(alloc);
        for (place, word) in self.words.iter().enumerate() {
            if *word != 0 {
                some.push((place, *word))?;
            }
        }
        Ok(some)
    }

    /// Whether some of the numbers in these words are in it, but not all.
    pub(crate) fn has_part(&self, words: &[(usize, u64)]) -> bool {
        let mut has_some = false;
        let mut has_all = true;
        for (place, word) in words {
            let here = match self.words.get(*place) {
                Some(own) => *own & *word,
                None => 0,
            };
            has_some |= here != 0;
            has_all &= here == *word;
            if has_some && !has_all {
                return true;
            }
        }
        false
    }
}

/// This many empty sets of numbers below that.
pub(crate) fn empty_sets<A: Allocator + Copy>(
    alloc: A,
    count: usize,
) -> Result<Vec<Numbers<A>, A>, AllocError> {
    let mut sets = Vec::with_capacity(alloc, count)?;
    for _ in 0..count {
        sets.push(Numbers::none(alloc, count)?)?;
    }
    Ok(sets)
}

/// Whether a number is in a set of these.
pub(crate) fn is_in<A: Allocator + Copy>(sets: &[Numbers<A>], set: u16, number: u16) -> bool {
    match sets.get(usize::from(set)) {
        Some(set) => set.has(number),
        None => false,
    }
}
