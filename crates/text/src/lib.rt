// Lines, decimal numbers and form words of a lent text.
// A text is a slice of bytes and places in it are numbers from 0. No public function has a `requires`: each says its whole answer
// for every input, by a definition of specs/.
#![tactic(auto)]

ghost use Rattle.std.specs.Prelude.{◌≡◌, true, ◌≤◌, ◌<◌, length, take, get_or, MatchOption};
ghost use Rattle.text.specs.Part.{PartOf};
ghost use Rattle.text.specs.Line.{no_lf, next_line, next_number};
ghost use Rattle.text.specs.Number.{digit_run, read_number, option_of};
ghost use Rattle.text.specs.Form.{read_numbers, read_form, form_of};

// A place in a text, and the number of the line that starts there.
#[derive(Clone, Copy, Debug, PartialEq, Eq)]
pub struct Cursor {
    pub at: usize,
    pub number: usize,
}

// What the scanner hands out: a line with its LF, bytes start to end without it; bytes behind the last LF; or nothing is left.
#[derive(Clone, Copy, Debug, PartialEq, Eq)]
pub enum Next {
    Line {
        start: usize,
        end: usize,
        number: usize,
        next: Cursor,
    },
    Unended {
        start: usize,
        end: usize,
        number: usize,
    },
    Done {
        number: usize,
    },
}

// Where the text starts: line 1.
pub fn first_line() -> Cursor
    ensures { (result.at ≡ 0) × (result.number ≡ 1) }
{
    Cursor { at: 0, number: 1 }
}

// How many bytes in front lie in blocks of eight without LF. The compiler compares the bytes of a block at once.
fn plain_front(s: &[u8]) -> usize
    ensures { (result ≤ length s.now) × (no_lf (take result s.now) ≡ true) }
{
    s.chunks_exact(8)
        .take_while(|block| !block.contains(&b'\n'))
        .count()
        * 8
}

// Where the first LF stands.
fn line_length(s: &[u8]) -> Option<usize>
    ensures { MatchOption result (no_lf s.now ≡ true) (λ n. (n < length s.now) × (get_or s.now n 0 ≡ 10) × (no_lf (take n s.now) ≡ true)) }
{
    let plain = plain_front(s);
    let more = s[plain..].iter().position(|b| *b == b'\n')?;
    Some(plain + more)
}

// The line at the cursor, with its number.
pub fn next_line(text: &[u8], c: Cursor) -> Next
    ensures { result ≡ next_line text.now c }
{
    let Cursor { at, number } = c;
    let rest = &text[at.min(text.len())..];
    match line_length(rest) {
        Some(length) => Next::Line {
            start: at,
            end: at + length,
            number,
            next: Cursor {
                at: at + length + 1,
                number: next_number(number),
            },
        },
        None if rest.is_empty() => Next::Done { number },
        None => Next::Unended {
            start: at,
            end: at + rest.len(),
            number,
        },
    }
}

// The number of the line behind line n.
pub fn next_number(n: usize) -> usize
    ensures { result ≡ next_number n }
{
    n.saturating_add(1)
}

// The part of a text from one place to another, as it stands in it. What lies behind the text's end is not there.
pub fn part(text: &[u8], start: usize, end: usize) -> &[u8]
    ensures { PartOf text.entry start end result }
{
    let n = text.len();
    if n <= start {
        return &text[n..];
    }
    if end <= start {
        return &text[start..start];
    }
    if n <= end {
        return &text[start..];
    }
    &text[start..end]
}

// The digits at the front of the bytes, all of them.
fn digit_run(s: &[u8]) -> &[u8]
    ensures { result.now ≡ digit_run s.now }
{
    let count = s.iter().take_while(|b| b.is_ascii_digit()).count();
    &s[..count]
}

// The number at the front of the bytes, and how many bytes it takes: the digits there are taken whole, and they are a number if there are
// 1 to 16 of them with no leading zero. Seventeen are too many already, so no byte behind them is looked at.
pub fn number_at(s: &[u8]) -> Option<(u64, usize)>
    ensures { result ≡ option_of (read_number s.now) }
{
    let digits = digit_run(&s[..s.len().min(17)]);
    if digits.is_empty() || 16 < digits.len() {
        return None;
    }
    if digits[0] == b'0' && 1 < digits.len() {
        return None;
    }
    let mut value = 0;
    for digit in digits {
        value = value * 10 + u64::from(*digit - b'0');
    }
    Some((value, digits.len()))
}

// `count` numbers, each behind one space, and `)`, to the end of the bytes. The first four are handed out, 0 where there are fewer.
pub fn numbers_from(s: &[u8], count: u8) -> Option<[u64; 4]>
    ensures { result ≡ form_of (read_numbers count s.now) }
{
    let mut numbers = [0u64; 4];
    let mut rest = s;
    for i in 0..count as usize {
        let behind = rest.strip_prefix(b" ")?;
        let (value, length) = number_at(behind)?;
        if i < 4 {
            numbers[i] = value;
        }
        rest = &behind[length..];
    }
    if rest == b")".as_slice() {
        Some(numbers)
    } else {
        None
    }
}

// A line as a form: the word, `count` numbers, each behind one space, and `)`. The first four numbers are handed out.
pub fn form_at(line: &[u8], word: &[u8], count: u8) -> Option<[u64; 4]>
    ensures { result ≡ form_of (read_form word.now count line.now) }
{
    numbers_from(line.strip_prefix(word)?, count)
}
