// The texts of two files listed or run, and what the answer means for whoever reads it.
use crate::explain::{Named, ending, refusal};
use answers::list;
use pages::files::{JOB, PROGRAM, read_file, read_input};
use pages::output::{Written, list_texts, run_texts};
use refusals::refusal::Refused;
use run_answers::run::{self, Ran};
use std::env::{Env, FillError};
use std::io;
use streams::failure::{fail, name_too_long};

// Room for a file's name.
const NAME: usize = 4096;

// A program's name behind more arguments than this has no job's name behind it: the argument behind these is read for that.
const ARGUMENTS: usize = 65536;

// The name that stands for standard input.
const STANDARD_INPUT: &[u8] = b"-";

// Lines that are missing must not go unnoticed: a loader is released from the list.
fn report(err: &impl Print, written: Written) -> io::Result<()> {
    let Err(error) = written.ended else {
        return Ok(());
    };
    fail(err, b"ura: standard output", &error);
    err.write_all(b"ura: what was printed is NOT COMPLETE\n")
}

// Where a text is refused; of storage that is too short nothing is said, which is none that this program lends.
fn explain_refused(
    err: &impl Print,
    refused: Refused,
    program: Named,
    job: Named,
) -> io::Result<()> {
    match refused {
        Refused::Program(r) => refusal(err, program, r),
        Refused::Job(r) => refusal(err, job, r),
        Refused::Short => Ok(()),
    }
}

fn explain_list(
    err: &impl Print,
    answer: list::Answer,
    program: Named,
    job: Named,
) -> io::Result<()> {
    match answer {
        Ok(listed) => ending(err, listed.word),
        Err(refused) => explain_refused(err, refused, program, job),
    }
}

fn explain_run(
    err: &impl Print,
    answer: run::Answer,
    program: Named,
    job: Named,
) -> io::Result<()> {
    match answer {
        Ok(Ran::Value { .. }) => Ok(()),
        Ok(Ran::Over) => err.write_all(
            b"NOT COMPLETE: a state of the run has over 4096 nodes, and the run stopped there without a value\n",
        ),
        Ok(Ran::NotWithin) => err.write_all(
            b"NOT COMPLETE: the run reaches no end within the job's steps and has no value\n",
        ),
        Err(refused) => explain_refused(err, refused, program, job),
    }
}

fn list_named(rt: &HostRuntime, samples: bool, program: Named, job: Named) -> io::Result<()> {
    let err = rt.stderr();
    let listed = list_texts(rt, &mut rt.stdout(), samples, program.text, job.text);
    report(&err, listed.written)?;
    explain_list(&err, listed.answer, program, job)
}

fn run_named(rt: &HostRuntime, program: Named, job: Named) -> io::Result<()> {
    let err = rt.stderr();
    let ran = run_texts(rt, &mut rt.stdout(), program.text, job.text);
    report(&err, ran.written)?;
    explain_run(&err, ran.answer, program, job)
}

// The file with the name, its text in `space`; `-` is standard input.
fn read_named<'a>(rt: &HostRuntime, name: &'a [u8], space: &'a mut [u8]) -> Named<'a> {
    let err = rt.stderr();
    let n = if name == STANDARD_INPUT {
        read_input(rt, &err, space)
    } else {
        read_file(rt, &err, name, space)
    };
    Named {
        name,
        text: &space[..n],
    }
}

// `ura` alone. A file of these names is read, and not standard input.
pub fn list_here(rt: &HostRuntime) -> io::Result<()> {
    let mut program_space = [0u8; PROGRAM];
    let mut job_space = [0u8; JOB];
    let program = read_named(rt, b"prog.tsg", &mut program_space);
    let job = read_named(rt, b"job.txt", &mut job_space);
    list_named(rt, false, program, job)
}

// The name that argument i is, in `space`. One that is too long names no file, as standard error then says.
fn name_at<'a>(rt: &HostRuntime, i: usize, space: &'a mut [u8; NAME]) -> &'a [u8] {
    match rt.arg(i, space) {
        Ok(n) => &space[..n],
        Err(FillError::NotPresent) => &[],
        Err(FillError::TooLong) => {
            fail(&rt.stderr(), b"ura: a file's name", &name_too_long());
            &[]
        }
    }
}

// The texts of the files that argument i and the next name, handed on.
fn with_files<F: FnOnce(Named, Named) -> io::Result<()>>(
    rt: &HostRuntime,
    i: usize,
    hand_on: F,
) -> io::Result<()>
    requires { F.IsAlwaysCallable hand_on }
{
    let mut program_name = [0u8; NAME];
    let mut job_name = [0u8; NAME];
    let mut program_space = [0u8; PROGRAM];
    let mut job_space = [0u8; JOB];
    let a = name_at(rt, i, &mut program_name);
    let b = name_at(rt, i.min(ARGUMENTS) + 1, &mut job_name);
    let program = read_named(rt, a, &mut program_space);
    let job = read_named(rt, b, &mut job_space);
    hand_on(program, job)
}

// They are listed, with samples where they are called for.
pub fn list(rt: &HostRuntime, i: usize, samples: bool) -> io::Result<()> {
    with_files(rt, i, |program, job| list_named(rt, samples, program, job))
}

// The program is run on the job's inputs.
pub fn run(rt: &HostRuntime, i: usize) -> io::Result<()> {
    with_files(rt, i, |program, job| run_named(rt, program, job))
}
