// Each number of a refusal (01, "From the input"; 13: 02, request 1) and of a stop ("From the state", "The walk and what stops it") in words.
use std::io;

// The sentence of a number of 1 to 13 and 20 to 23.
pub fn meaning(number: usize) -> &'static str {
    match number {
        1 => "the text is too long: a program has at most 32768 bytes, a job 8192",
        2 => "this byte is none of those that a text may have: printable ASCII, tab, line feed",
        3 => "the grammar wants something else here, or the text ends too early",
        4 =>
            "a name of over 16 characters, a numeral of over 7 digits, or a variable's number that is not 1 to 999",
        5 =>
            "too many: 4096 tokens, 64 open brackets, 64 definitions, 16 parameters or 1024 symbols are the most",
        6 => "this name is defined or bound twice",
        7 => "no function of this name, or a wrong number of arguments",
        8 => "an atom is due here: a symbol or a variable a.NAME",
        9 => "this variable is not in reach",
        10 =>
            "the job's inputs are unlike main's parameters in number or kind, or one has a variable in a run",
        11 =>
            "this side of a non-equality is no atom, or its variable stands in neither input nor output",
        12 => "the number is too large: steps 1000, walk 1000000, table 256 are the most",
        13 => "this name is in reach already: a cons? binds new names alone",
        20 => "the storage that was lent is too short",
        21 => "a configuration has over 4096 nodes",
        22 => "the listing has more lines than the job's table, or over 16384 nodes in them",
        _ => "the walk makes more transitions than the job's walk allows",
    }
}

fn write_number(to: &impl Print, number: usize) -> io::Result<()> {
    println!(to; "{number}  {}", meaning(number))
}

// All of them, a line each.
pub fn write_numbers(to: &impl Print) -> io::Result<()> {
    for number in 1..14usize {
        write_number(to, number)?;
    }
    for number in 20..24usize {
        write_number(to, number)?;
    }
    Ok(())
}
