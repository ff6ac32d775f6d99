// The words of the command line.
use crate::commands::{Command, FILES, SAMPLES};
use crate::meaning::write_numbers;
use crate::{files, say};
use std::env::{Env, FillError};
use std::io;

// Room for a word of the command line. A longer one counts as empty.
const WORD: usize = 4096;

// What `ura help` is asked for beside the commands.
const NUMBERS: &[u8] = b"numbers";

// The word of this number, in `space`; none where it is missing or longer than that.
fn word_at<'a>(env: &impl Env, i: usize, space: &'a mut [u8; WORD]) -> &'a [u8] {
    match env.arg(i, space) {
        Ok(n) => &space[..n],
        Err(FillError::NotPresent | FillError::TooLong) => &[],
    }
}

// Whether the command line has a word of this number; it may be empty or long.
fn is_present(env: &impl Env, i: usize) -> bool {
    !matches!(env.arg(i, &mut []), Err(FillError::NotPresent))
}

// How many words the command line has, the program's own name among them.
pub fn count(env: &impl Env) -> usize {
    for i in 0..usize::MAX {
        if !is_present(env, i) {
            return i;
        }
    }
    usize::MAX
}

// The first argument behind the command that is no option. None where an option is not the command's, as standard error then says.
fn first_file(rt: &HostRuntime, command: Command) -> io::Result<Option<usize>> {
    let count = count(rt);
    for i in 2..count {
        let mut space = [0u8; WORD];
        let word = word_at(rt, i, &mut space);
        if !word.starts_with(b"--") {
            return Ok(Some(i));
        }
        if !command.takes(word) {
            say::unknown_option(&rt.stderr(), command, word)?;
            return Ok(None);
        }
    }
    Ok(Some(count))
}

// Whether the option stands before argument `first`, the first file.
fn is_given(env: &impl Env, first: usize, option: &[u8]) -> bool {
    (2..first).any(|i| {
        let mut space = [0u8; WORD];
        word_at(env, i, &mut space) == option
    })
}

// `ura help`, `ura help COMMAND` and `ura help numbers`.
fn help(rt: &HostRuntime) -> io::Result<()> {
    if count(rt) == 2 {
        return say::help_all(&rt.stdout());
    }
    let mut space = [0u8; WORD];
    let word = word_at(rt, 2, &mut space);
    if word == NUMBERS {
        return write_numbers(&rt.stdout());
    }
    match Command::named(word) {
        Some(command) => say::help(&rt.stdout(), command),
        None => say::unknown_command(&rt.stderr(), word),
    }
}

// A command that takes files.
fn of_files(rt: &HostRuntime, command: Command) -> io::Result<()> {
    let Some(first) = first_file(rt, command)? else {
        return Ok(());
    };
    let given = count(rt).saturating_sub(first);
    if given != FILES {
        return say::wrong_files(&rt.stderr(), command, given);
    }
    match command {
        Command::Run => files::run(rt, first),
        Command::List | Command::Help => files::list(rt, first, is_given(rt, first, SAMPLES)),
    }
}

// What the first argument asks for.
pub fn command(rt: &HostRuntime) -> io::Result<()> {
    let mut space = [0u8; WORD];
    let word = word_at(rt, 1, &mut space);
    match Command::named(word) {
        Some(Command::Help) => help(rt),
        Some(command) => of_files(rt, command),
        None => say::unknown_command(&rt.stderr(), word),
    }
}
