// The usage text, the help and the errors, made of the commands.
use crate::commands::{COMMANDS, Command, FILES};
use std::io;

// How the command is written.
fn usage(to: &impl Print, command: Command) -> io::Result<()> {
    println!(to; "usage: ura {command}")
}

// How it is written, and what it does.
pub fn help(to: &impl Print, command: Command) -> io::Result<()> {
    usage(to, command)?;
    println!(to; "  {}", command.purpose())
}

// All commands.
pub fn help_all(to: &impl Print) -> io::Result<()> {
    to.write_all(
        b"usage: ura            the listing of prog.tsg and job.txt\n       ura COMMAND [--OPTION ..] FILE ..    - is standard input\n\n",
    )?;
    for command in COMMANDS {
        println!(to; "{command}: {}", command.purpose())?;
    }
    Ok(())
}

pub fn unknown_command(err: &impl Print, word: &[u8]) -> io::Result<()> {
    err.write_all(b"ura: there is no command ")?;
    err.write_all(word)?;
    err.write_all(b"\n")?;
    help_all(err)
}

pub fn unknown_option(err: &impl Print, command: Command, option: &[u8]) -> io::Result<()> {
    print!(err; "ura: {} has no option ", command.name())?;
    err.write_all(option)?;
    err.write_all(b"\n")?;
    usage(err, command)
}

pub fn wrong_files(err: &impl Print, command: Command, given: usize) -> io::Result<()> {
    println!(err; "ura: {} takes {FILES} files, not {given}", command.name())?;
    usage(err, command)
}
