//! Words that a user lists in a file, to make each choice of a run.

ghost use Rattle.std.specs.Prelude.{◌≡◌, ◌-◌, ◌^◌, All, IfOk, IfErr, map, option_map};
ghost use Rattle.ioa_request.specs.Numerals.{numeral_in};
ghost use Rattle.ioa_request.specs.Fields.{after_field, first_field};
ghost use Rattle.ioa_serving.specs.WordLists.{AreWords, IsBadWords, listed, words_in};

use ioa_node::Words;
use ioa_request::{first_field, numeral};
use ioa_value::{OutOfMemory, first_line};
use std::alloc::Global;

/// Words that are listed, and zeros after them.
#[derive(Drop)]
pub struct ListedWords {
    words: Vec<u32>,
    /// How many are taken. At the list's end it stays.
    taken: usize,
}

impl ListedWords {
    /// These words, from the first.
    pub fn new(words: Vec<u32>) -> ListedWords
        ensures words { result.words ≡ words }
        ensures taken { result.taken ≡ 0 }
    {
        ListedWords { words, taken: 0 }
    }
}

impl Words for ListedWords {
    ghost use Rattle.ioa_serving.specs.WordLists.{words_to_come};

    ghost stream = { words_to_come };

    fn next(&mut self) -> u32 {
        if self.taken < self.words.len() {
            let word = self.words[self.taken];
            self.taken += 1;
            word
        } else {
            0
        }
    }
}

/// The words that a text lists for so many workers, a line for each: decimal numbers of 32 bits, parted by single spaces. A line that is
/// empty or missing has none. Where another of their lines is malformed, the answer is the number of the first such line, from 1.
pub fn read_words(
    alloc: Global,
    text: &[u8],
    workers: usize,
) -> Result<Result<Vec<ListedWords>, usize>, OutOfMemory>
    ensures words { IfOk result (λ r. IfOk r (λ sources. AreWords workers text.now (map listed sources.items))) }
    ensures fresh { IfOk result (λ r. IfOk r (λ sources. All (λ s. s.taken ≡ 0) sources.items)) }
    ensures bad { IfOk result (λ r. IfErr r (IsBadWords workers text.now)) }
{
    let mut sources = Vec::new(alloc);
    let mut rest = text;
    while sources.len() < workers {
        let (line, after) = first_line(rest);
        let Some(words) = line_words(alloc, line)? else {
            return Ok(Err(sources.len() + 1));
        };
        sources.push(ListedWords::new(words))?;
        rest = after;
    }
    Ok(Ok(sources))
}

/// The words of a line, if it is none but words.
fn line_words(alloc: Global, line: &[u8]) -> Result<Option<Vec<u32>>, OutOfMemory>
    ensures { IfOk result (λ r. option_map (λ v. v.items) r ≡ words_in line.now) }
{
    let mut words = Vec::new(alloc);
    if line.is_empty() {
        return Ok(Some(words));
    }
    let mut rest = line;
    loop {
        let (field, after) = first_field(rest);
        let Some(word) = word(field) else {
            return Ok(None);
        };
        words.push(word)?;
        let Some(more) = after else {
            return Ok(Some(words));
        };
        rest = more;
    }
}

/// The word that a field spells.
fn word(field: &[u8]) -> Option<u32>
    ensures { result ≡ numeral_in (2 ^ 32 - 1) field.now }
{
    let number = numeral(field, u64::from(u32::MAX))?;
    u32::try_from(number).ok()
}
