//! What the words of a line may be.

use crate::blame::{Blame, Wanted};
use crate::words::{Word, Words};
use ivy_options::Nearest;
use ivy_program::parse_number;

/// What a word after the first is to be.
#[derive(Clone, Copy)]
pub(crate) enum Operand {
    Register,
    Number,
    Width,
    Name,
}

/// A form of words: the first one, and those after it.
pub(crate) type Form = (&'static str, &'static [Operand]);

/// The most letters of a name.
const MOST_LETTERS: usize = 16;

/// Whether a word is `r0` to `r15`.
fn is_register(word: &str) -> bool {
    matches!(
        *word.as_bytes(),
        [b'r', b'0'..=b'9'] | [b'r', b'1', b'0'..=b'5']
    )
}

/// Whether a word is 1 to 16 small letters and digits, the first a letter.
fn is_name(word: &str) -> bool {
    let bytes = word.as_bytes();
    let starts = match bytes.first() {
        Some(first) => first.is_ascii_lowercase(),
        None => false,
    };
    starts
        && bytes.len() <= MOST_LETTERS
        && bytes
            .iter()
            .all(|b| b.is_ascii_lowercase() || b.is_ascii_digit())
}

impl Operand {
    /// Whether a word is this.
    fn fits(self, word: &str) -> bool {
        match self {
            Operand::Register => is_register(word),
            Operand::Number => parse_number(word).is_some(),
            Operand::Width => matches!(parse_number(word), Some(1 | 2 | 4 | 8)),
            Operand::Name => is_name(word),
        }
    }

    fn wanted(self) -> Wanted {
        Wanted::of(match self {
            Operand::Register => "a register, `r0` to `r15`",
            Operand::Number => "a number, 0 to 18446744073709551615",
            Operand::Width => "a width: 1, 2, 4 or 8",
            Operand::Name => "a name: 1 to 16 small letters and digits, the first a letter",
        })
    }
}

/// What is at fault at a word.
pub(crate) fn blame_at<'a>(line: usize, word: Word<'a>, wanted: Wanted) -> Blame<'a> {
    Blame {
        line,
        column: word.at.saturating_add(1),
        word: Some(word.text),
        wanted,
    }
}

/// What is at fault where a line ends too early.
pub(crate) fn blame_end<'a>(line: usize, words: Words<'_, 'a>, wanted: Wanted) -> Blame<'a> {
    Blame {
        line,
        column: words.end.saturating_add(2),
        word: None,
        wanted,
    }
}

/// What is at fault at a place of a line that is to have this, if it does not.
fn blame_operand<'a>(
    line: usize,
    words: Words<'_, 'a>,
    place: usize,
    operand: Operand,
) -> Option<Blame<'a>> {
    match words.get(place) {
        None => Some(blame_end(line, words, operand.wanted())),
        Some(word) if operand.fits(word.text) => None,
        Some(word) => Some(blame_at(line, word, operand.wanted())),
    }
}

/// The first of the words from a place on that is not what it is to be.
pub(crate) fn blame_operands<'a>(
    line: usize,
    words: Words<'_, 'a>,
    from: usize,
    operands: &[Operand],
) -> Option<Blame<'a>> {
    let mut place = from;
    for operand in operands {
        let blame = blame_operand(line, words, place, *operand);
        if blame.is_some() {
            return blame;
        }
        place = place.saturating_add(1);
    }
    let next = words.get(place)?;
    Some(blame_at(line, next, Wanted::of("the end of the line")))
}

/// The form that begins with this word.
fn form_of(forms: &[Form], word: &str) -> Option<Form> {
    for form in forms {
        if form.0 == word {
            return Some(*form);
        }
    }
    None
}

/// The first word of a form that is nearest to a word, where that is nearly it.
fn nearest(forms: &[Form], word: &str) -> Option<&'static str> {
    let mut nearest = Nearest::new(word);
    for form in forms {
        nearest.offer(form.0);
    }
    nearest.name()
}

/// What is at fault in words that are to be one of these forms.
pub(crate) fn blame_form<'a>(
    line: usize,
    words: Words<'_, 'a>,
    forms: &[Form],
    wanted: Wanted,
) -> Option<Blame<'a>> {
    let Some(first) = words.get(0) else {
        return Some(blame_end(line, words, wanted));
    };
    match form_of(forms, first.text) {
        Some((_name, operands)) => blame_operands(line, words, 1, operands),
        None => {
            let near = nearest(forms, first.text);
            Some(blame_at(line, first, wanted.near(near)))
        }
    }
}
