// All of standard input, as far as there is room. No contract can say what is read.
#![tactic(auto)]

ghost use Rattle.input.specs.Results.{InputResult};

use std::io;
use std::io::Read;

// All that the reader gives, which is standard input in the programs: how many bytes stand at the start of the buffer.
pub fn read_all<R: Read>(from: &mut R, s: &mut [u8]) -> io::Result<usize>
    ensures { InputResult result s.new }
{
    let mut at = 0;
    // A `while`: a read may give any number of bytes.
    while at < s.len() {
        let n = from.read(&mut s[at..])?;
        if n == 0 {
            break;
        }
        at += n;
    }
    Ok(at)
}
