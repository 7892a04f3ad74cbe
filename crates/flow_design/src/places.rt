//! Writes to places that may not be there.
ghost use Rattle.std.specs.Prelude.{◌≡◌, [], slice_index_or, slice_set};

use flow_word::Words;

/// Sets word `at` of list `list`. Nothing changes where there is no such list or word.
#[tactic(auto, using(crate::proofs::Beyond::set_beyond))]
#[inline(always)]
pub fn put_at(lists: &mut [Words], list: u64, at: u64, word: u64)
    ensures { lists.new ≡ slice_set lists.old list (slice_set (slice_index_or lists.old list []) at word) }
{
    if list < lists.len() as u64 {
        set_at(lists[list as usize].as_mut_slice(), at, word);
    }
}

/// Sets word `at`. Nothing changes where there is no such word.
#[tactic(auto, using(crate::proofs::Beyond::set_beyond))]
#[inline(always)]
pub fn set_at(words: &mut [u64], at: u64, word: u64)
    ensures { words.new ≡ slice_set words.old at word }
{
    if at < words.len() as u64 {
        words[at as usize] = word;
    }
}
