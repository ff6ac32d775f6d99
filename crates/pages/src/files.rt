// "A file that cannot be read counts as empty" (01, "Printing, and cases"): also where a part of it was read before a read failed. Standard error has the
// file's error, as the system has it.
ghost use Rattle.std.specs.Prelude.{◌≡◌, ◌-◌, ◌≤◌, ◌⊎◌, length, take, drop, replicate, IfSome};

use std::io::{Input, Read};
use std::rt::Files;
use streams::failure::fail;
use streams::reading::{open_read, read_full};
use window::sink::clear;

// Room for one byte more than a text may have, so that a longer file is refused with 1.
pub const PROGRAM: usize = 32769;

pub const JOB: usize = 8193;

// The bytes up to the end of the file, or as many as there is room for: how many they are, or 0 where a read fails, as standard error then
// says of the path.
fn read_whole<R: Read>(reader: &mut R, err: &impl Print, path: &[u8], buf: &mut [u8]) -> usize
    ensures bound { result ≤ length buf.old }
    ensures bytes { IfSome (R.remaining reader.old) (λ xs. (result ≡ 0) ⊎ (take result buf.new ≡ take (length buf.old) xs)) }
{
    match read_full(reader, buf) {
        Ok(n) => n,
        Err(error) => {
            fail(err, path, &error);
            0
        }
    }
}

// The same of the file at the path.
fn read_path<R: Files>(rt: &R, err: &impl Print, path: &[u8], buf: &mut [u8]) -> usize
    ensures { result ≤ length buf.old }
{
    match open_read(rt, path) {
        Ok(mut file) => read_whole(&mut file, err, path, buf),
        Err(error) => {
            fail(err, path, &error);
            0
        }
    }
}

// The bytes of the file at the path, as many as there is room for, then zeros; how many they are. What stands in the file no contract can
// say; what stands behind it one can.
pub fn read_file<R: Files>(rt: &R, err: &impl Print, path: &[u8], buf: &mut [u8]) -> usize
    ensures { (result ≤ length buf.old) × (drop result buf.new ≡ replicate (length buf.old - result) 0) }
{
    let n = read_path(rt, err, path, buf);
    clear(&mut buf[n..]);
    n
}

// The same of standard input.
pub fn read_input<R: Input>(rt: &R, err: &impl Print, buf: &mut [u8]) -> usize
    ensures { (result ≤ length buf.old) × (drop result buf.new ≡ replicate (length buf.old - result) 0) }
{
    let n = read_whole(&mut rt.reader(), err, b"standard input", buf);
    clear(&mut buf[n..]);
    n
}
