// The storages that both texts are read into, as one value: what an entry keeps of them while it works.
ghost use Rattle.std.specs.Prelude.{◌≡◌};
ghost use Rattle.reading.specs.Twins.BothCells.{both_read};

use crate::both::{Both, read_both};
use refusals::refusal::Refused;

// The program's tokens, where what they begin ends, and its definitions; the job's tokens; the symbols of both.
#[derive(Drop)]
pub struct Stored {
    pub marks: [u16; 4097],
    pub nums: [u16; 4097],
    pub ends: [u16; 4097],
    pub heads: [u16; 64],
    pub jmarks: [u16; 4097],
    pub jnums: [u16; 4097],
    pub symbols: [u16; 2048],
}

impl Stored {
    // Nothing read yet.
    pub const EMPTY: Stored = Stored {
        marks: [0; 4097],
        nums: [0; 4097],
        ends: [0; 4097],
        heads: [0; 64],
        jmarks: [0; 4097],
        jnums: [0; 4097],
        symbols: [0; 2048],
    };

    // `read_both` into these storages; `runs` for the forward runner.
    pub fn read(
        &mut self,
        runs: bool,
        program: &[u8],
        job: &[u8],
        work: &mut [u16],
    ) -> Result<Both, Refused>
        ensures { let w = both_read runs program.now job.now self.old.marks self.old.nums self.old.ends self.old.heads self.old.jmarks self.old.jnums self.old.symbols work.old in (result ≡ w.job.placed.texts) × (self.new.marks ≡ w.marks) × (self.new.nums ≡ w.nums) × (self.new.ends ≡ w.job.placed.ends) × (self.new.heads ≡ w.job.placed.heads) × (self.new.jmarks ≡ w.job.jmarks) × (self.new.jnums ≡ w.job.jnums) × (self.new.symbols ≡ w.job.symbols) × (work.new ≡ w.job.work) }
    {
        read_both(
            runs,
            program,
            job,
            &mut self.marks,
            &mut self.nums,
            &mut self.ends,
            &mut self.heads,
            &mut self.jmarks,
            &mut self.jnums,
            &mut self.symbols,
            work,
        )
    }
}
