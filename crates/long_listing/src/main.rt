// The listing of prog.tsg and job.txt in data/, written as `ura` writes it. It has three pages, so that one that is lost, or that starts at
// another byte, is seen in what is printed. stdout was made by another implementation, rust/reference.
#![tactic(auto)]

use pages::files::{JOB, PROGRAM, read_file};
use pages::output::list_texts;
use streams::failure::fail;

fn main(rt: HostRuntime) {
    let err = rt.stderr();
    let mut program = [0u8; PROGRAM];
    let mut job = [0u8; JOB];
    let p = read_file(&rt, &err, b"prog.tsg", &mut program);
    let j = read_file(&rt, &err, b"job.txt", &mut job);
    let listed = list_texts(&rt, &mut rt.stdout(), false, &program[..p], &job[..j]);
    if let Err(error) = listed.written.ended {
        fail(&err, b"standard output", &error);
    }
}
