//! Which name a word nearly is.

/// How many letters may be wrong in a word that is nearly right.
const MOST_WRONG: usize = 2;

/// How many letters two words have in common, from their beginnings.
fn common_first(one: &[u8], other: &[u8]) -> usize {
    let shortest = one.len().min(other.len());
    for place in 0..shortest {
        if one[place] != other[place] {
            return place;
        }
    }
    shortest
}

/// How many letters two words have in common, from their ends.
fn common_last(one: &[u8], other: &[u8]) -> usize {
    let shortest = one.len().min(other.len());
    for place in 0..shortest {
        if one[one.len() - 1 - place] != other[other.len() - 1 - place] {
            return place;
        }
    }
    shortest
}

/// How many letters of the longer word stand between what both begin with and what both end with.
fn distance(one: &str, other: &str) -> usize {
    let (one, other) = (one.as_bytes(), other.as_bytes());
    let (first, last) = (common_first(one, other), common_last(one, other));
    let longest = one.len().max(other.len());
    let shortest = one.len().min(other.len());
    longest - first.saturating_add(last).min(shortest)
}

/// Of the names that were offered, the nearest to a word.
#[derive(Clone, Copy)]
pub struct Nearest<'a> {
    word: &'a str,
    /// The name has fewer wrong letters than so many.
    limit: usize,
    name: Option<&'static str>,
}

impl<'a> Nearest<'a> {
    /// No name was offered yet.
    pub fn new(word: &'a str) -> Nearest<'a> {
        Nearest {
            word,
            limit: word.len().min(MOST_WRONG.saturating_add(1)),
            name: None,
        }
    }

    /// A name that may be meant.
    pub fn offer(&mut self, name: &'static str) {
        let wrong = distance(name, self.word);
        if wrong < self.limit {
            self.limit = wrong;
            self.name = Some(name);
        }
    }

    /// The nearest name, the first of several, where the word is nearly it.
    pub fn name(&self) -> Option<&'static str> {
        self.name
    }
}
