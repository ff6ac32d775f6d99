// A table of words by first standing: two cells an entry, the word's hash and its offset. Offsets from 32,769 on are those of a second
// text, so that the symbols of a program and of its job stand in one table.
ghost use Rattle.std.specs.Prelude.{◌≡◌, set, ◌+◌, ◌*◌, ◌%◌};
ghost use Rattle.language.specs.Words.{same as word_same};
ghost use Rattle.words.specs.Twins.Cutting.{word_at};
ghost use Rattle.lexer.specs.Twins.Chains.{Chained, linked, linked_all};
ghost use Rattle.lexer.specs.Twins.Table.{word_in, entry_is, find_at, entered};

use cells::cell::{cell, put};
use cells::part::part;
use words::cutting::piece_end;
use words::fit::{begins, same};

// The word that begins at `i`.
pub fn word_at(text: &[u8], i: usize) -> &[u8]
    ensures { result.now ≡ word_at text.now i }
{
    let end = piece_end(text, i);
    part(text, i, end)
}

// The word stands at `at`. The stored word is cut out only where its text begins with this one, so that words of one hash are told apart
// at the first byte in which they differ.
fn stands_at(text: &[u8], at: usize, word: &[u8]) -> bool
    ensures { result ≡ word_same (word_at text.now at) word.now }
{
    begins(word, part(text, at, text.len())) && same(word_at(text, at), word)
}

// The word stands at this offset.
fn stands(first: &[u8], second: &[u8], offset: u16, word: &[u8]) -> bool
    ensures { result ≡ word_same (word_in first.now second.now offset) word.now }
{
    if offset < 32769 {
        stands_at(first, usize::from(offset), word)
    } else {
        stands_at(second, usize::from(offset - 32769), word)
    }
}

// The entry k is this word. Bytes are compared only where the hashes are equal.
fn entry_is(first: &[u8], second: &[u8], table: &[u16], k: u16, hash: u16, word: &[u8]) -> bool
    ensures { result ≡ entry_is first.now second.now table.now hash word.now k }
{
    let place = 2 * usize::from(k);
    cell(table, place) == hash && stands(first, second, cell(table, place + 1), word)
}

// The place of the word among the first `count` entries, or `count`.
#[tactic(auto, using(crate::proofs::TableLaws::find_past, crate::proofs::TableLaws::find_found, crate::proofs::TableLaws::find_next))]
pub(crate) fn find(
    first: &[u8],
    second: &[u8],
    table: &[u16],
    count: u16,
    hash: u16,
    word: &[u8],
) -> u16
    ensures { result ≡ find_at first.now second.now table.now hash word.now count 0 }
{
    for k in 0..count {
        if entry_is(first, second, table, k, hash, word) {
            return k;
        }
    }
    count
}

// The bucket of a hash.
fn bucket(hash: u16) -> usize
    ensures { result ≡ hash % 256 }
{
    usize::from(hash % 256)
}

// As `find`, by the chain of the word's bucket: entries of other buckets have other hashes. The chain goes from the newest entry to the oldest, so that
// the last that is the word is the first of the table. The chains stand from `base` on.
pub(crate) fn find_linked(
    first: &[u8],
    second: &[u8],
    table: &[u16],
    chains: &[u16],
    base: u16,
    count: u16,
    hash: u16,
    word: &[u8],
) -> u16
    requires { Chained base table.now count chains.now }
    ensures { result ≡ find_at first.now second.now table.now hash word.now count 0 }
{
    let mut found = count;
    let mut k = cell(chains, base as usize + bucket(hash));
    while 0 < k {
        let e = k - 1;
        let next = cell(chains, base as usize + 256 + e as usize);
        if entry_is(first, second, table, e, hash, word) {
            found = e;
            k = next;
            continue;
        }
        k = next;
    }
    found
}

// The entry k, which is the newest, goes in front of its chain.
pub(crate) fn link(table: &[u16], k: u16, base: u16, chains: &mut [u16])
    ensures { chains.new ≡ linked base table.now k chains.old }
{
    let b = bucket(cell(table, 2 * (k as usize)));
    let before = cell(chains, base as usize + b);
    put(chains, base as usize + 256 + k as usize, before);
    put(chains, base as usize + b, ((k as usize + 1) % 65536) as u16);
}

// The first `count` entries in their chains, one after the other.
#[tactic(auto, using(crate::proofs::ChainLaws::all_past, crate::proofs::ChainLaws::all_next, crate::proofs::ChainLaws::length_linked))]
pub(crate) fn link_all(table: &[u16], count: u16, base: u16, chains: &mut [u16])
    ensures { chains.new ≡ linked_all base table.now count 0 chains.old }
{
    for k in 0..count {
        link(table, k, base, chains);
    }
}

// The entry k.
pub(crate) fn enter(table: &mut [u16], k: u16, hash: u16, offset: u16)
    ensures { table.new ≡ entered table.old k hash offset }
{
    let place = 2 * usize::from(k);
    put(table, place, hash);
    put(table, place + 1, offset);
}
