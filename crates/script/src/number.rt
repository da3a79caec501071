ghost use Rattle.std.specs.Prelude.{◌≡◌, ◌==◌, ◌+◌, ◌*◌, ◌%◌, ◌^◌, length, position, take};
ghost use Rattle.script.specs.Numbers.{decimal_value, line_before_comment, numbers_of};
ghost use Rattle.script.specs.Room.{length_said};

use crate::kind::room;
use crate::word;

// The number with one more decimal digit, whose value is the lower half of its byte.
fn with_digit(n: u32, digit: u8) -> u32
    ensures { result ≡ (n * 10 + digit % 16) % 2 ^ 32 }
{
    n.wrapping_mul(10).wrapping_add(u32::from(digit % 16))
}

// The number that decimal digits say, modulo two to the 32.
pub(crate) fn value(digits: &[u8]) -> u32
    ensures { result ≡ decimal_value digits.now % 2 ^ 32 }
{
    digits.iter().fold(0, |n, digit| with_digit(n, *digit))
}

// Where the comment of a line begins.
fn comment_start(line: &[u8]) -> Option<usize>
    ensures { result ≡ position (λ b. b == 35) line.now }
{
    line.iter().position(|b| *b == b'#')
}

fn before_comment(line: &[u8]) -> &[u8]
    ensures { result.now ≡ line_before_comment line.now }
{
    match comment_start(line) {
        Some(start) => &line[..start],
        None => line,
    }
}

// The numbers of a text, as many as `out` has room for, which are written into it.
pub fn numbers<'a>(s: &[u8], out: &'a mut [u32]) -> &'a [u32]
    ensures { result.now ≡ take (length out.old) (numbers_of s.now) }
{
    let found = s
        .split(|b| *b == b'\n')
        .flat_map(|line| before_comment(line).split(|b| !b.is_ascii_digit()))
        .filter(|digits| !digits.is_empty())
        .map(|digits| value(digits));
    let mut count = 0;
    for number in found.take(out.len()) {
        out[count] = number;
        count += 1;
    }
    &out[..count]
}

// The length that an entry says: that of a table of sizes K, N, M, and D words more, or less where a `-` stands in it; of no number, 0.
pub fn length(s: &[u8]) -> usize
    ensures { result ≡ length_said s.now }
{
    let mut room_for_four = [0; 4];
    let numbers = numbers(s, &mut room_for_four);
    if numbers.is_empty() {
        return 0;
    }
    let words = room(word(numbers, 0), word(numbers, 1), word(numbers, 2));
    let difference = word(numbers, 3) as usize;
    if s.contains(&b'-') {
        words.saturating_sub(difference)
    } else {
        words + difference
    }
}
