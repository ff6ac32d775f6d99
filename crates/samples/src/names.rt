// The table that the atoms of samples are named by: the texts' symbols, two cells each, then the numbers that they leave free, one for each
// new atom.
ghost use Rattle.std.specs.Prelude.{◌≡◌, ◌/◌, length};
ghost use Rattle.lexer.specs.Twins.Table.{word_in};
ghost use Rattle.samples.specs.Twins.Numbers.{number_of};
ghost use Rattle.samples.specs.Twins.Naming.{copied_from, marked_from, free_from, name_table};

use crate::number::number_of;
use cells::cell::put;
use lexer::table::word_at;

// The number of the symbol that stands at this offset.
fn symbol_number(program: &[u8], job: &[u8], offset: u16) -> u16
    ensures { result ≡ number_of (word_in program.now job.now offset) }
{
    if offset < 32769 {
        return number_of(word_at(program, offset as usize));
    }
    number_of(word_at(job, (offset - 32769) as usize))
}

// A mark at each number that a symbol's name has; at 0 where one has none.
fn mark_taken(program: &[u8], job: &[u8], symbols: &[u16], taken: &mut [u16; 5121])
    ensures { taken.new ≡ marked_from program.now job.now symbols.now (length symbols.now / 2) 0 taken.old }
{
    let count = symbols.len() / 2;
    for k in 0..count {
        let n = symbol_number(program, job, symbols[2 * k + 1]);
        put(taken, n as usize, 1);
    }
}

// "from 1 up .., leaving out symbols of program or job": the numbers without a mark, from the cell 2,048 on.
fn put_free(taken: &[u16; 5121], table: &mut [u16; 6144])
    ensures { table.new ≡ free_from taken.now 5120 1 2048 table.old }
{
    let mut at: usize = 2048;
    for n in 1..5121u16 {
        if taken[n as usize] != 0 {
            continue;
        }
        put(table, at, n);
        at += 1;
    }
}

// The symbols' entries: 2,048 cells; 65,535, which is no offset, past the end of the symbols.
fn copy_entries(symbols: &[u16], table: &mut [u16; 6144])
    ensures { table.new ≡ copied_from symbols.now 2048 0 table.old }
{
    for i in 0..2048 {
        table[i] = symbols.get(i).copied().unwrap_or(65535);
    }
}

// The table by which samples are printed. `symbols` has two cells for each symbol of the texts.
pub fn name_table(program: &[u8], job: &[u8], symbols: &[u16], table: &mut [u16; 6144])
    ensures { table.new ≡ name_table program.now job.now symbols.now table.old }
{
    let mut taken: [u16; 5121] = [0; 5121];
    mark_taken(program, job, symbols, &mut taken);
    copy_entries(symbols, table);
    put_free(&taken, table);
}
