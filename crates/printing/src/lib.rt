// The lines of the listing, in a text.
#![tactic(auto)]

ghost use Rattle.std.specs.Prelude.{◌+◌, ◌≤◌, ◌≡◌, length, take};
ghost use Rattle.arrayvec.specs.ArrayVec.{array_vec_len};
ghost use Rattle.recording.specs.Listing.{line_numbers};
ghost use Rattle.printing.specs.Printing.{with_number, with_line};

use arrayvec::ArrayVec;
use recording::Line;

// How many lines a text has room for, and the most bytes of a line.
pub const LINES: usize = 256;

pub const LINE: usize = 24;

// Puts a number in decimal and a byte after it at the end of a text.
fn put_number<const N: usize>(text: &mut ArrayVec<u8, N>, n: u16, after: u8)
    requires { array_vec_len text.old + 6 ≤ N }
    ensures size { array_vec_len text.new ≤ array_vec_len text.old + 6 }
    ensures text_after { text.new.items ≡ with_number text.old.items n after }
{
    let mut digits = [0u8; 20];
    let count = io::decimal(u64::from(n), &mut digits);
    text.try_extend_from_slice(&digits[..count]).unwrap();
    text.push(after);
}

// Puts the four numbers of a line at the end of a text.
pub fn push_line<const N: usize>(text: &mut ArrayVec<u8, N>, line: Line)
    requires { array_vec_len text.old + LINE ≤ N }
    ensures size { array_vec_len text.new ≤ array_vec_len text.old + LINE }
    ensures text_after { text.new.items ≡ with_line text.old.items (line_numbers line.call line.refusal line.frame.0 line.page.0) }
{
    put_number(text, u16::from(line.call), b' ');
    put_number(text, u16::from(line.refusal), b' ');
    put_number(text, u16::from(line.frame.0), b' ');
    put_number(text, line.page.0, b'\n');
}

// The same into a text that is a slice, from `at` on; gives where the line ends.
pub fn put_line(text: &mut [u8], at: usize, line: Line) -> usize
    requires { at + 24 ≤ length text.old }
    ensures upper_bound { result ≤ at + 24 }
    ensures text_after { take result text.new ≡ with_line (take at text.old) (line_numbers line.call line.refusal line.frame.0 line.page.0) }
{
    let mut alone: ArrayVec<u8, LINE> = ArrayVec::new();
    push_line(&mut alone, line);
    let end = at + alone.len();
    text[at..end].copy_from_slice(alone.as_slice());
    end
}
