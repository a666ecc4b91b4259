//! The words of a line of text, and the numbers among them.
ghost use Rattle.std.specs.Prelude.{◌≡◌, ◌+◌, ◌<◌, ◌≤◌, ◌∷◌, ◌++◌, [], length, take, IfOk, IfSome, IfNone, MatchBool, MatchOption, map};
ghost use Rattle.std.specs.Str.Parse.{digits_value};
ghost use Rattle.ivy_program.specs.texts.Numbers.{IsNumber};
ghost use Rattle.ivy_program.specs.texts.TextWords.{is_blank, parted_words, words_of, without_comment, without_end};

use std::alloc::{AllocError, Allocator};

/// The most digits that a number can have.
const MOST_DIGITS: usize = 20;

/// The number that a word spells: 1 to 20 decimal digits, at most `u64::MAX`. It has no sign.
pub fn parse_number(word: &str) -> Option<u64>
    ensures number { IfSome result (λ n. IsNumber word.now × (n ≡ digits_value 10 word.now)) }
    ensures none { IfNone result (¬ IsNumber word.now) }
{
    if word.len() > MOST_DIGITS || word.starts_with('+') {
        return None;
    }
    word.parse().ok()
}

/// A line without its end: an LF, and one CR before it.
fn without_end(line: &str) -> &str
    ensures { result.now ≡ without_end line.now }
{
    match line.strip_suffix('\n') {
        Some(line) => line.strip_suffix('\r').unwrap_or(line),
        None => line,
    }
}

/// A line without its comment.
fn without_comment(line: &str) -> &str
    ensures { result.now ≡ without_comment line.now }
{
    match line.split_once('#') {
        Some((before, _comment)) => before,
        None => line,
    }
}

/// The words of a line, in order, which only spaces and tabs part.
///
/// The line's end, an LF and one CR before it, is no part of a word, and a `#` starts a comment to the
/// end of the line. Err only where the allocator has no memory.
pub fn words_of<A: Allocator>(alloc: A, line: &str) -> Result<Vec<&str, A>, AllocError>
    ensures { IfOk result (λ words. map (λ word. word.now) words.items ≡ words_of line.now) }
{
    without_comment(without_end(line))
        .split([' ', '\t'])
        .filter(|word| !word.is_empty())
        .collect(alloc)
}

/// Whether it parts words.
fn is_blank(byte: u8) -> bool
    ensures { result ≡ is_blank byte }
{
    byte == b' ' || byte == b'\t'
}

/// Puts a word behind so many others. False where there is no place for it.
fn put<'t>(words: &mut [&'t str], count: usize, word: &'t str) -> bool
    requires { count ≤ length words.old }
    ensures { MatchBool result ((count < length words.old) × (map (λ w. w.now) (take (count + 1) words.new) ≡ map (λ w. w.now) (take count words.old) ++ word.entry.now ∷ [])) (count ≡ length words.old) }
{
    if count == words.len() {
        return false;
    }
    words[count] = word;
    true
}

/// The parts of a text between spaces and tabs that are not empty, so many. None where there are not as many places.
fn part<'t>(text: &'t str, words: &mut [&'t str]) -> Option<usize>
    ensures { MatchOption result (length words.old < length (parted_words text.entry.now)) (λ count. (count ≤ length words.old) × (map (λ w. w.now) (take count words.new) ≡ parted_words text.entry.now)) }
{
    let bytes = text.as_bytes();
    let mut count = 0;
    let mut start = 0;
    for at in 0..bytes.len() {
        if !is_blank(bytes[at]) {
            continue;
        }
        if start < at {
            if !put(words, count, &text[start..at]) {
                return None;
            }
            count += 1;
        }
        start = at + 1;
    }
    if start < bytes.len() {
        if !put(words, count, &text[start..]) {
            return None;
        }
        count += 1;
    }
    Some(count)
}

/// The words of a line, as [`words_of`] says, put in these places, and how many they are. None where there are not as
/// many places: the line is read no further then. It takes no memory.
pub fn few_words<'t>(line: &'t str, words: &mut [&'t str]) -> Option<usize>
    ensures { MatchOption result (length words.old < length (words_of line.entry.now)) (λ count. (count ≤ length words.old) × (map (λ w. w.now) (take count words.new) ≡ words_of line.entry.now)) }
{
    part(without_comment(without_end(line)), words)
}
