// A text cut into tokens in storage (specs/Twins/Lexed.antt). It ends with the first token that no reader passes: the end of the text, a word
// that fits nowhere, or one too many.
ghost use Rattle.std.specs.Prelude.{◌≡◌, set, eqb, ◌&&◌, not};
ghost use Rattle.lexer.specs.Twins.Chains.{Linked, linked_if};
ghost use Rattle.lexer.specs.Twins.Lexed.{mark_cell, number_at, over_at, shut_at, count_of, place_of, counted, entered_if, shifted, token_from, cut_from, starting};

use crate::table::{enter, find, find_linked, link, link_all};
use bounds::text::{is_symbol_over, is_token_over};
use cells::cell::{low, put};
use cells::part::part;
use words::cutting::{piece_end, word_start};
use words::fit::value;
use words::keys::{AVARIABLE, END, EVARIABLE, OTHER, PLAIN, SYMBOL};
use words::kinds::{fit_of, hash_of, key_of, kind_of};

// A token in cells; whether it is a new symbol, or a new word that is none; and whether no reader passes it.
#[derive(Clone, Copy)]
pub struct Token {
    pub mark: u16,
    pub num: u16,
    pub at: u16,
    pub hash: u16,
    pub next: usize,
    pub symbol: bool,
    pub name: bool,
    pub shut: bool,
}

// Where the chains of the symbols begin, behind those of the other words: 256 buckets and 4,097 entries. They have 256 buckets and 1,025 entries.
const SYMBOLS_FROM: u16 = 4353;

// How many symbols are known, and how many other words.
#[derive(Clone, Copy)]
pub struct Counts {
    pub found: u16,
    pub known: u16,
}

// How many tokens are stored, and how many symbols the table has then.
#[derive(Clone, Copy)]
pub struct Cut {
    pub tokens: usize,
    pub symbols: u16,
}

fn mark_of(key: u16, kind: u16, fit: u16, over: bool) -> u16
    ensures { result ≡ mark_cell key kind fit over }
{
    let sum = usize::from(key) + 32 * usize::from(kind) + 256 * usize::from(fit);
    if over {
        return low(sum + 1024);
    }
    low(sum)
}

// A numeral's value, or the word's place; 0 where the word does not fit.
fn number(job: bool, kind: u16, fit: u16, place: u16, word: &[u8]) -> u16
    ensures { result ≡ number_at job kind fit place word.now }
{
    if fit != 0 {
        return 0;
    }
    match kind {
        EVARIABLE | AVARIABLE => value(word, 2),
        PLAIN if job => value(word, 0),
        _ => place,
    }
}

// "A text has at most 4,096 tokens"; "both texts together 1,024 different symbols (Z)"
fn over_at(i: usize, kind: u16, num: u16) -> bool
    ensures { result ≡ over_at i kind num }
{
    is_token_over(i) || kind == SYMBOL && is_symbol_over(num)
}

// No reader passes it.
fn shut_at(over: bool, fit: u16, key: u16) -> bool
    ensures { result ≡ shut_at over fit key }
{
    over || fit != 0 && (key == OTHER || key == END)
}

// Symbols and other words are counted apart.
fn count_of(kind: u16, found: u16, known: u16) -> u16
    ensures { result ≡ count_of kind found known }
{
    if kind == SYMBOL { found } else { known }
}

// The word's place in its table. A text has at most 1,024 symbols; the chains have room for so many.
fn place_of(
    first: &[u8],
    text: &[u8],
    symbols: &[u16],
    names: &[u16],
    chains: &[u16],
    counts: Counts,
    kind: u16,
    hash: u16,
    word: &[u8],
) -> u16
    requires { Linked symbols.now counts.found names.now counts.known chains.now }
    ensures { result ≡ place_of first.now text.now symbols.now counts.found names.now counts.known kind hash word.now }
{
    if kind == SYMBOL {
        if counts.found <= 1024 {
            return find_linked(
                first,
                text,
                symbols,
                chains,
                SYMBOLS_FROM,
                counts.found,
                hash,
                word,
            );
        }
        return find(first, text, symbols, counts.found, hash, word);
    }
    find_linked(text, text, names, chains, 0, counts.known, hash, word)
}

// A symbol that is new.
fn new_symbol(new: bool, kind: u16) -> bool
    ensures { result ≡ (new && eqb kind 0) }
{
    new && kind == SYMBOL
}

// A word that is new and no symbol.
fn new_name(new: bool, kind: u16) -> bool
    ensures { result ≡ (new && not (eqb kind 0)) }
{
    new && kind != SYMBOL
}

// One more, if it is so.
fn counted_if(yes: bool, n: u16) -> u16
    ensures { result ≡ counted yes n }
{
    if yes { n.saturating_add(1) } else { n }
}

// The offset in the table: those of a job stand behind the program's.
fn shifted_by(job: bool, at: u16) -> u16
    ensures { result ≡ shifted job at }
{
    if job {
        low(usize::from(at) + 32769)
    } else {
        at
    }
}

// The next entry of the table, if it is so.
fn enter_if(table: &mut [u16], yes: bool, k: u16, hash: u16, offset: u16)
    ensures { table.new ≡ entered_if yes table.old k hash offset }
{
    if yes {
        enter(table, k, hash, offset);
    }
}

// The new entry of the table goes in its chain, if it is so.
fn link_if(table: &[u16], yes: bool, k: u16, base: u16, chains: &mut [u16])
    ensures { chains.new ≡ linked_if base yes table.now k chains.old }
{
    if yes {
        link(table, k, base, chains);
    }
}

// The token number i, which is the first from `from` on. `first` is the text of the symbols that stood before, or `text` itself.
fn token_from(
    job: bool,
    first: &[u8],
    text: &[u8],
    symbols: &[u16],
    names: &[u16],
    chains: &[u16],
    counts: Counts,
    i: usize,
    from: usize,
) -> Token
    requires { Linked symbols.now counts.found names.now counts.known chains.now }
    ensures { result ≡ token_from job first.now text.now symbols.now counts.found names.now counts.known i from }
{
    let at = word_start(text, from);
    let next = piece_end(text, at);
    let word = part(text, at, next);
    let key = key_of(word);
    let kind = kind_of(word);
    let fit = fit_of(job, kind, word);
    let hash = hash_of(word);
    let place = place_of(
        first, text, symbols, names, chains, counts, kind, hash, word,
    );
    let num = number(job, kind, fit, place, word);
    let over = over_at(i, kind, num);
    let new = place == count_of(kind, counts.found, counts.known);
    Token {
        mark: mark_of(key, kind, fit, over),
        num,
        at: low(at),
        hash,
        next,
        symbol: new_symbol(new, kind),
        name: new_name(new, kind),
        shut: shut_at(over, fit, key),
    }
}

// The token's three cells.
fn store(marks: &mut [u16], nums: &mut [u16], ats: &mut [u16], i: usize, t: Token)
    ensures { (marks.new ≡ set marks.old i t.mark) × (nums.new ≡ set nums.old i t.num) × (ats.new ≡ set ats.old i t.at) }
{
    put(marks, i, t.mark);
    put(nums, i, t.num);
    put(ats, i, t.at);
}

// The tokens of a text, up to the first that no reader passes. `names` is working storage.
pub fn cut_tokens(
    job: bool,
    first: &[u8],
    text: &[u8],
    marks: &mut [u16],
    nums: &mut [u16],
    ats: &mut [u16],
    symbols: &mut [u16],
    before: u16,
    names: &mut [u16],
) -> Cut
    ensures { let s = cut_from job first.now text.now 4097 (starting marks.old nums.old ats.old symbols.old names.old before) in (result.tokens ≡ s.i) × (result.symbols ≡ s.found) × (marks.new ≡ s.marks) × (nums.new ≡ s.nums) × (ats.new ≡ s.ats) × (symbols.new ≡ s.symbols) × (names.new ≡ s.names) }
{
    let mut found = before;
    let mut known: u16 = 0;
    let mut from: usize = 0;
    let mut chains: [u16; 5634] = [0; 5634];
    link_all(symbols, before, SYMBOLS_FROM, &mut chains);
    for i in 0..4097 {
        let counts = Counts { found, known };
        let t = token_from(job, first, text, symbols, names, &chains, counts, i, from);
        store(marks, nums, ats, i, t);
        if t.shut {
            return Cut {
                tokens: i + 1,
                symbols: found,
            };
        }
        enter_if(symbols, t.symbol, found, t.hash, shifted_by(job, t.at));
        enter_if(names, t.name, known, t.hash, t.at);
        link_if(symbols, t.symbol, found, SYMBOLS_FROM, &mut chains);
        link_if(names, t.name, known, 0, &mut chains);
        found = counted_if(t.symbol, found);
        known = counted_if(t.name, known);
        from = t.next;
    }
    Cut {
        tokens: 4097,
        symbols: found,
    }
}
