// The commands: how each is written, and what it does. The usage text, the help and the errors (say.rt) are made of these.
use std::fmt;

#[derive(Clone, Copy)]
pub enum Command {
    List,
    Run,
    Help,
}

// Each of them, in the order of the help.
pub const COMMANDS: [Command; 3] = [Command::List, Command::Run, Command::Help];

// The program's and the job's: how many files a command takes that takes files.
pub const FILES: usize = 2;

// "Where called for" (02, request 2).
pub const SAMPLES: &[u8] = b"--samples";

impl Command {
    // The one of this name, where there is one.
    pub fn named(word: &[u8]) -> Option<Command> {
        match word {
            b"list" => Some(Command::List),
            b"run" => Some(Command::Run),
            b"help" => Some(Command::Help),
            _ => None,
        }
    }

    pub fn name(self) -> &'static str {
        match self {
            Command::List => "list",
            Command::Run => "run",
            Command::Help => "help",
        }
    }

    // What stands behind the name, in brackets what may be left out.
    fn words(self) -> &'static str {
        match self {
            Command::List => "[--samples] PROG JOB",
            Command::Run => "PROG JOB",
            Command::Help => "[COMMAND]",
        }
    }

    // What it does.
    pub fn purpose(self) -> &'static str {
        match self {
            Command::List =>
                "every sort of input that gets the wanted output, one a line; --samples: one such input under each",
            Command::Run => "the program run forwards on the job's inputs",
            Command::Help =>
                "what the commands do; help numbers: what the numbers of refusals and stops mean",
        }
    }

    pub fn takes(self, option: &[u8]) -> bool {
        match self {
            Command::List => option == SAMPLES,
            Command::Run | Command::Help => false,
        }
    }
}

// How it is written.
impl fmt::Display for Command {
    fn fmt<W: fmt::Write>(&self, f: &mut fmt::Formatter<W>) -> fmt::Result {
        let name = self.name();
        let words = self.words();
        write!(f, "{name} {words}")
    }
}
