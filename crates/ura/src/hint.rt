// What is written most often where a text may not have it.
use cells::cell::byte;
use std::io;

const BYTE_ORDER_MARK: &[u8] = b"\xef\xbb\xbf";

// A line for what stands at the place, where it is one of these.
pub fn write_hint(err: &impl Print, text: &[u8], offset: usize) -> io::Result<()> {
    if text.starts_with(BYTE_ORDER_MARK) {
        return err.write_all(
            b"  hint: the text begins with a byte order mark; save it without one\n",
        );
    }
    match byte(text, offset) {
        b'\r' => err.write_all(b"  hint: a carriage return; end lines with a line feed alone\n"),
        b';' | b'#' | b'/' => err.write_all(b"  hint: a text has no comments\n"),
        _ => Ok(()),
    }
}
