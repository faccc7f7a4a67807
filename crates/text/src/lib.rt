// A line of text, made piece by piece, and its bytes for whoever writes it. A longer text is cut off where the line
// has no more room.
#![tactic(auto)]

ghost use Rattle.std.specs.Prelude.{◌≡◌, ◌+◌, ◌-◌, ◌≤◌, length, drop, replicate, IfSome};
ghost use Rattle.std.proofs.Math.Seq.{paste};
ghost use Rattle.io.specs.Counts.{IsPrefixLen};

// The bytes of a line at most, and with its end.
const ROOM: usize = 160;

pub const ENDED_ROOM: usize = ROOM + 1;

// No `ArrayVec`, which is not `Copy`: a line may be gone on with twice. Behind what it says its bytes are zero, so that
// two lines are equal where they say the same.
#[derive(Clone, Copy, Debug, PartialEq, Eq)]
pub struct Line {
    bytes: [u8; ROOM],
    used: usize,
    ghost whole: { length bytes ≡ 160 },
    ghost in_room: { used ≤ 160 },
    ghost unused: { drop used bytes ≡ replicate (160 - used) 0 },
}

// A line's bytes with the first n of a text laid over them from `at` on.
fn laid_over(mut bytes: [u8; ROOM], at: usize, text: &[u8], n: usize) -> [u8; ROOM]
    requires { (at + n ≤ 160) × (n ≤ length text.now) }
    ensures { result ≡ paste bytes at text.now n }
{
    bytes[at..at + n].copy_from_slice(&text[..n]);
    bytes
}

impl Line {
    ghost use Rattle.text.specs.Lines.{said, visible as Lines·visible, first_line, spaces, AppendResult, NumberResult, EmptyResult, EndedResult};

    pub fn empty() -> Self
        ensures { EmptyResult result }
    {
        Line {
            bytes: [0; ROOM],
            used: 0,
        }
    }

    // How many bytes it has.
    pub fn length(&self) -> usize
        ensures { result ≡ length (said self.now) }
    {
        self.used
    }

    // The line with a text behind it.
    pub fn words(self, text: &[u8]) -> Self
        ensures { AppendResult self text.now result }
    {
        // As much of it as there is room for.
        let n = text.len().min(ROOM - self.used);
        Line {
            bytes: laid_over(self.bytes, self.used, text, n),
            used: self.used + n,
        }
    }

    // A byte that is no visible character of ASCII becomes a question mark.
    fn visible(b: u8) -> u8
        ensures { result ≡ Lines·visible b }
    {
        match b {
            b' '..=b'~' => b,
            _ => b'?',
        }
    }

    // The line with the first line of a text from outside behind it, in visible characters.
    pub fn first_line(self, text: &[u8]) -> Self
        ensures { AppendResult self (first_line text.now) result }
    {
        let mut next = self;
        for b in text {
            if *b == b'\n' {
                break;
            }
            next = next.words(&[Self::visible(*b)]);
        }
        next
    }

    // The line with a number in decimal behind it.
    pub fn number(self, n: u64) -> Self
        ensures { NumberResult self n result }
    {
        let mut digits = itoa::Buffer::new();
        self.words(digits.format(n).as_bytes())
    }

    // The line with spaces behind it up to a column, and at least one.
    pub fn column(self, c: usize) -> Self
        ensures { AppendResult self (spaces c (length (said self))) result }
    {
        let n = c.saturating_sub(self.length()).clamp(1, ROOM);
        self.words(&[b' '; ROOM][..n])
    }

    // Writes the line and its end to the start of `out`, and says how many bytes that is. None where not every line
    // would fit.
    pub fn ended(&self, out: &mut [u8]) -> Option<usize>
        ensures prefix_len { IfSome result (λ n. IsPrefixLen n out.new) }
        ensures ended_result { EndedResult self.now result out.new }
    {
        if out.len() <= ROOM {
            return None;
        }
        let n = self.length();
        out[..n].copy_from_slice(&self.bytes[..n]);
        out[n] = b'\n';
        Some(n + 1)
    }
}
