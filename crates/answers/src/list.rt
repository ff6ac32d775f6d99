// What the listing of two texts answers, and its number and values.
ghost use Rattle.std.specs.Prelude.{◌≡◌};
ghost use Rattle.answers.specs.ListEnding.{unstopped_as};
ghost use Rattle.answers.specs.ListNumbers.{word_number, word_cut, number_of, cut_of, lines_of, transitions_of};

use refusals::refusal::Refused;

// The word of the first line.
#[derive(Clone, Copy)]
pub enum Word {
    Whole,
    Cut,
    Stop21,
    Stop22,
    Stop23,
}

// The listing's first word, how many lines stand in the answer storage and how many transitions were made.
#[derive(Clone, Copy)]
pub struct Listed {
    pub word: Word,
    pub lines: usize,
    pub count: usize,
}

// A listing; the refusal of a text (1 to 13) with its offset; 20.
pub type Answer = Result<Listed, Refused>;

// "A walk that isn't stopped ends as cut if a configuration N deep is no end, else as whole."
pub fn unstopped(cut: bool) -> Word
    ensures { result ≡ unstopped_as cut }
{
    if cut {
        return Word::Cut;
    }
    Word::Whole
}

fn word_number(word: Word) -> usize
    ensures { result ≡ word_number word }
{
    match word {
        Word::Whole => 0,
        Word::Cut => 0,
        Word::Stop21 => 21,
        Word::Stop22 => 22,
        Word::Stop23 => 23,
    }
}

fn word_cut(word: Word) -> usize
    ensures { result ≡ word_cut word }
{
    match word {
        Word::Whole => 0,
        Word::Cut => 1,
        Word::Stop21 => 0,
        Word::Stop22 => 0,
        Word::Stop23 => 0,
    }
}

// The number (01, "From the input", "From the state"): 1 to 13 of a refused text, 20, 21 to 23; whole and cut have none.
pub fn number_of(a: Answer) -> usize
    ensures { result ≡ number_of a }
{
    match a {
        Ok(listed) => word_number(listed.word),
        Err(refused) => refused.number(),
    }
}

// 1 where the walk ended as cut.
pub fn cut_of(a: Answer) -> usize
    ensures { result ≡ cut_of a }
{
    match a {
        Ok(listed) => word_cut(listed.word),
        Err(_) => 0,
    }
}

// The lines in the answer storage.
pub fn lines_of(a: Answer) -> usize
    ensures { result ≡ lines_of a }
{
    match a {
        Ok(listed) => listed.lines,
        Err(_) => 0,
    }
}

// The transitions made.
pub fn transitions_of(a: Answer) -> usize
    ensures { result ≡ transitions_of a }
{
    match a {
        Ok(listed) => listed.count,
        Err(_) => 0,
    }
}
