// The program (01, "The resolver's parts"; "Printing, and cases"):
//
//     ura                              the listing of the program in prog.tsg and the job in job.txt
//     ura list [--samples] PROG JOB    the listing of the program in the file PROG and the job in the file JOB; with a sample under each line
//     ura run PROG JOB                 the same program run forwards on the job's inputs
//     ura help [COMMAND]               what the commands do; what the numbers of refusals and stops mean
//
// Standard output has the listing or the run as 01, "Printing, and cases", has it, or the refusal, and nothing else. Standard error has what a person wants to know beside it:
// why a file cannot be read ("A file that cannot be read counts as empty"), where a text is refused and for what, and what a listing that is cut or
// stopped is not.
#![tactic(auto)]

mod arguments;
mod commands;
mod explain;
mod files;
mod hint;
mod meaning;
mod place;
mod say;

use std::io;

fn main(rt: HostRuntime) -> io::Result<()> {
    if arguments::count(&rt) == 1 {
        return files::list_here(&rt);
    }
    arguments::command(&rt)
}
