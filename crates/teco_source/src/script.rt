//! Scripts: files whose first line names the program that runs them.
ghost use Rattle.std.specs.Prelude.{◌≡◌, ◌≤◌, length};
ghost use Rattle.teco_source.specs.Scripts as scripts;

use teco_base::bytes::LF;

/// The two bytes that a script begins with.
pub const NUMBER_SIGN: u8 = b'#';

pub const EXCLAMATION: u8 = b'!';

// How long the first line is, with its end.
fn first_line(file: &[u8]) -> usize
    ensures value { result ≡ scripts.first_line file.now }
    ensures within { result ≤ length file.now }
{
    for i in 0..file.len() {
        if file[i] == LF {
            return i + 1;
        }
    }
    file.len()
}

/// Where the text of a file begins: behind the first line where that begins with `#!`, which names
/// the program that the system runs the file by.
pub fn text_begin(file: &[u8]) -> usize
    ensures value { result ≡ scripts.text_begin file.now }
    ensures within { result ≤ length file.now }
{
    match file {
        [a, b, ..] if *a == NUMBER_SIGN && *b == EXCLAMATION => first_line(file),
        _ => 0,
    }
}
