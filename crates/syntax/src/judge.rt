// What the grammar and the check find in a text's stored tokens: "3, 4, 5 at the earliest token", then 6 to 9 and 13 of a program, 10 to 12 of a
// job (01, "From the input"; 02, request 1).
ghost use Rattle.std.specs.Prelude.{◌≡◌};
ghost use Rattle.syntax.specs.Twins.ReadAnswer.{program_judged, job_judged};

use grammar::definitions::program;
use grammar::jobs::job;
use job_checker::check_job::check_job;
use programs::check_program::check_program;
use refusals::refusal::Refusal;

// A program of n tokens: the index past it, or the refusal.
pub fn judge_program(marks: &[u16], nums: &[u16], ats: &[u16], n: usize) -> Result<usize, Refusal>
    ensures { result ≡ program_judged marks.now nums.now ats.now n }
{
    let end = program(marks, ats)?;
    check_program(marks, nums, ats, n)?;
    Ok(end)
}

// A job of n tokens, for a program whose tokens have the marks `main`, m of them; `runs` is whether the tool is the runner.
pub fn judge_job(
    runs: bool,
    main: &[u16],
    m: usize,
    text: &[u8],
    marks: &[u16],
    nums: &[u16],
    ats: &[u16],
    n: usize,
) -> Result<usize, Refusal>
    ensures { result ≡ job_judged runs main.now m text.now marks.now nums.now ats.now n }
{
    let end = job(marks, ats)?;
    check_job(marks, nums, ats, n, text, main, m, runs)?;
    Ok(end)
}
