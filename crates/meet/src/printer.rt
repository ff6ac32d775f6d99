// From cells to bytes, by way of a page.
use crate::reader::{name_at, word_end};
use cells::cell;
use cells::part::part;
use itoa::Buffer;
use meetings::class::NODES;
use sets::tree;
use std::io;

// The bytes of a page.
const PAGE: usize = 4096;

// What is printed stands in the first `at` bytes, and a page that is full is written out.
#[derive(Drop)]
pub struct Page<'a, P: Print> {
    out: &'a P,
    bytes: [u8; PAGE],
    at: usize,
}

// The line that was read, and the offset at which each of its symbols first stands.
#[derive(Clone, Copy)]
pub struct Words<'a> {
    pub text: &'a [u8],
    pub names: &'a [usize],
}

impl<'a> Words<'a> {
    fn symbol(self, z: usize) -> &'a [u8] {
        let from = name_at(self.names, z);
        part(self.text, from, word_end(self.text, from))
    }
}

impl<'a, P: Print> Page<'a, P> {
    pub fn new(out: &'a P) -> Page<'a, P> {
        Page {
            out,
            bytes: [0; PAGE],
            at: 0,
        }
    }

    // One byte more.
    fn push(&mut self, b: u8) -> io::Result<()> {
        if PAGE <= self.at {
            self.out.write_all(&self.bytes)?;
            self.at = 0;
        }
        self.bytes[self.at] = b;
        self.at += 1;
        Ok(())
    }

    fn push_all(&mut self, bytes: &[u8]) -> io::Result<()> {
        for b in bytes {
            self.push(*b)?;
        }
        Ok(())
    }

    // Writes out what stands in the page.
    pub fn flush(&self) -> io::Result<()> {
        self.out.write_all(part(&self.bytes, 0, self.at))
    }

    fn number(&mut self, n: u64) -> io::Result<()> {
        let mut digits = Buffer::new();
        self.push_all(digits.format(n).as_bytes())
    }

    // `'Z`, `?eK` or `?aK`.
    fn leaf(&mut self, words: Words, code: u16) -> io::Result<()> {
        let n = code / 4;
        match code % 4 {
            1 => self.push_all(words.symbol(usize::from(n))),
            2 => {
                self.push_all(b"?e")?;
                self.number(u64::from(n))
            }
            _ => {
                self.push_all(b"?a")?;
                self.number(u64::from(n))
            }
        }
    }

    // Behind a tree: a pair that waits for one more tree gets a blank, and each that waits for none is closed. How many are open
    // then.
    fn close(&mut self, open: usize, waits: &mut [u16; NODES]) -> io::Result<usize> {
        for k in (0..open).rev() {
            if cell::cell(waits, k) == 2 {
                cell::put(waits, k, 1);
                self.push(b' ')?;
                return Ok(k + 1);
            }
            self.push(b')')?;
        }
        Ok(0)
    }

    // One node of a tree, where so many pairs are open: how many are open then. `waits` has for each open pair how many trees it
    // waits for. No tree has more open pairs than it has room for, since a tree has at most 4,096 nodes.
    fn node(
        &mut self,
        open: usize,
        words: Words,
        code: u16,
        waits: &mut [u16; NODES],
    ) -> io::Result<usize> {
        if code != tree::PAIR {
            self.leaf(words, code)?;
            return self.close(open, waits);
        }
        if NODES <= open {
            return Ok(open);
        }
        waits[open] = 2;
        self.push_all(b"(cons ")?;
        Ok(open + 1)
    }

    // The tree whose cells these are.
    fn tree(&mut self, words: Words, cells: &[u16]) -> io::Result<()> {
        let mut waits = [0u16; NODES];
        let mut open = 0;
        for code in cells {
            open = self.node(open, words, *code, &mut waits)?;
        }
        Ok(())
    }

    // ` # L R`
    fn non_equality(&mut self, words: Words, left: u16, right: u16) -> io::Result<()> {
        self.push_all(b" # ")?;
        self.leaf(words, left)?;
        self.push(b' ')?;
        self.leaf(words, right)
    }

    // The line of an intersection: its expression, and the non-equalities in the first 2 n cells of q, which are left.
    pub fn common(&mut self, words: Words, cells: &[u16], q: &[u16], n: usize) -> io::Result<()> {
        self.tree(words, cells)?;
        for i in 0..n.min(q.len() / 2) {
            self.non_equality(words, q[2 * i], q[2 * i + 1])?;
        }
        self.push(b'\n')
    }

    // A line of one word.
    pub fn line(&mut self, word: &[u8]) -> io::Result<()> {
        self.push_all(word)?;
        self.push(b'\n')
    }

    // The line `broken N`.
    pub fn broken(&mut self, offset: usize) -> io::Result<()> {
        self.push_all(b"broken ")?;
        self.number(offset as u64)?;
        self.push(b'\n')
    }
}
