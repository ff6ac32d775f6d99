// The pages of a printed text: page k has the bytes from k * 65,536 on, and zeros behind the text's end. A page's number has 32 bits, so
// that the place of its first byte fits.
ghost use Rattle.std.specs.Prelude.{◌≡◌, ◌*◌, ◌-◌, min, length};
ghost use Rattle.window.specs.Windows.{windowed};
ghost use Rattle.print.specs.Twins.ListedText.{listed_with};
ghost use Rattle.print.specs.Twins.RanText.{ran_text};

use print::list::{print_list, print_sampled};
use print::ran::print_run;

// Page k of a listing, with samples where they are called for (02, request 2), and how many of its bytes are text. `cells` is the answer storage that
// `list` left.
pub fn list_page(
    samples: bool,
    program: &[u8],
    job: &[u8],
    answer: answers::list::Answer,
    cells: &[u16],
    k: u32,
    page: &mut [u8; 65536],
) -> usize
    ensures { let text = listed_with samples program.now job.now cells.now answer in (result ≡ min 65536 (length text - k * 65536)) × (page.new ≡ windowed 65536 (k * 65536) text) }
{
    let from = (k as usize) * 65536;
    if samples {
        print_sampled(program, job, answer, cells, from, page)
    } else {
        print_list(program, job, answer, cells, from, page)
    }
}

// The same of a run. `cells` is the answer storage that `run` left.
pub fn run_page(
    program: &[u8],
    job: &[u8],
    answer: run_answers::run::Answer,
    cells: &[u16],
    k: u32,
    page: &mut [u8; 65536],
) -> usize
    ensures { let text = ran_text program.now job.now cells.now answer in (result ≡ min 65536 (length text - k * 65536)) × (page.new ≡ windowed 65536 (k * 65536) text) }
{
    print_run(program, job, answer, cells, (k as usize) * 65536, page)
}
