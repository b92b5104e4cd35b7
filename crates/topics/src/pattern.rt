// Whether a pattern matches a name.
ghost use Rattle.std.specs.Prelude.{◌≡◌, false, List, ◌≤◌, length};
ghost use Rattle.headers.specs.Rows.{same};
ghost use Rattle.headers.specs.Parts.{parts_from};
ghost use Rattle.topics.specs.Topics.{Word, words, hash, matches as matching, match_answer, match_says, match_number};
ghost use Rattle.topics.specs.Rows.{Next};

use crate::word::{PLACES, Words};

// Why asking for a match is refused: the name is malformed (80), or the pattern (81).
#[derive(Clone, Copy)]
pub enum MatchError {
    BadName,
    BadPattern,
}

impl MatchError {
    // Its number.
    pub fn number(self) -> u32
        ensures { result ≡ match_number self }
    {
        match self {
            MatchError::BadName => 80,
            MatchError::BadPattern => 81,
        }
    }
}

// The plain form, which document 02 asks for beside the quick one: whether the words of a pattern from place p on match those of a name
// from place n on. From a place after the end there are no words.
fn match_rest(pattern: &[u8], p: usize, name: &[u8], n: usize) -> bool
    requires { (length pattern.now ≤ 256) × (length name.now ≤ 256) }
    ensures { result ≡ matching (parts_from 46 pattern.now p) (parts_from 46 name.now n) }
{
    if pattern.len() < p {
        return name.len() < n;
    }
    let after = crate::word::next_word(pattern, p);
    let word = crate::word::word_between(pattern, p, after);
    if crate::word::is_hash(word) {
        if match_rest(pattern, after, name, n) {
            return true;
        }
        if name.len() < n {
            return false;
        }
        return match_rest(pattern, p, name, crate::word::next_word(name, n));
    }
    if name.len() < n {
        return false;
    }
    let next = crate::word::next_word(name, n);
    let other = crate::word::word_between(name, n, next);
    if !crate::word::stands_for(word, other) {
        return false;
    }
    match_rest(pattern, after, name, next)
}

// The plain form of matches, which document 02 asks for too. It tries one way after another to share the name's words out among the `#`,
// which can take very long, so callers get matches, which meets the same contract.
fn matches_plainly(name: &[u8], pattern: &[u8]) -> Result<bool, MatchError>
    ensures { match_says result ≡ match_answer name.now pattern.now }
{
    if !crate::word::is_well_formed(name) {
        return Err(MatchError::BadName);
    }
    if !crate::word::is_well_formed(pattern) {
        return Err(MatchError::BadPattern);
    }
    Ok(match_rest(pattern, 0, name, 0))
}

// The row with `#` before its words; the name has n words.
fn put_hash(row: &mut [bool; PLACES], n: usize)
    requires { n ≤ 32 }
    ensures { (ws : List Word) → length ws ≡ n → Next hash ws row.old row.new }
{
    for j in (0..n).rev() {
        row[j] = row[j] | row[j + 1];
    }
}

// The row with a word that is not `#` before its words. Words of the name are compared only where the words after them match.
fn put_word(row: &mut [bool; PLACES], word: &[u8], name: &Words<'_>)
    requires { same word.now hash ≡ false }
    ensures { Next word.now (words name.now.text.now) row.old row.new }
{
    for j in 0..name.count {
        row[j] = row[j + 1] && crate::word::stands_for(word, name.word(j));
    }
    row[name.count] = false;
}

// The row with any word before its words.
fn put_any(row: &mut [bool; PLACES], word: &[u8], name: &Words<'_>)
    ensures { Next word.now (words name.now.text.now) row.old row.new }
{
    if crate::word::is_hash(word) {
        put_hash(row, name.count);
    } else {
        put_word(row, word, name);
    }
}

// The quick form: a row of answers, filled word by word from the pattern's last. Entry k says whether the words passed match those of the
// name from word k on.
fn match_row(pattern: &Words<'_>, name: &Words<'_>) -> bool
    ensures { result ≡ matching (words pattern.now.text.now) (words name.now.text.now) }
{
    let mut row = [false; PLACES];
    row[name.count] = true;
    for j in (0..pattern.count).rev() {
        put_any(&mut row, pattern.word(j), name);
    }
    row[0]
}

// Whether a pattern matches a name.
pub fn matches(name: &[u8], pattern: &[u8]) -> Result<bool, MatchError>
    ensures { match_says result ≡ match_answer name.now pattern.now }
{
    let mut starts = [0u16; PLACES];
    let Some(count) = crate::word::places(name, &mut starts) else {
        return Err(MatchError::BadName);
    };
    let mut parts = [0u16; PLACES];
    let Some(many) = crate::word::places(pattern, &mut parts) else {
        return Err(MatchError::BadPattern);
    };
    let n = Words {
        text: name,
        starts: &starts,
        count,
    };
    let p = Words {
        text: pattern,
        starts: &parts,
        count: many,
    };
    Ok(match_row(&p, &n))
}
