// Numbers, words and whole lines written into a lent buffer at a place: all of the bytes, or none. The place behind them is handed out.
// No public function has a `requires`: each says its whole answer and the whole buffer, for every input, by a definition of specs/.
#![tactic(auto)]

ghost use Rattle.std.specs.Prelude.{◌≡◌, true, [], ◌+◌, ◌-◌, ◌*◌, ◌≤◌, ◌<◌, leb, length};
ghost use Rattle.text.specs.Number.{digits};
ghost use Rattle.writer.specs.Write.{overwrite, answered, pass_buffer, put_answer, put_buffer, put_number, put_row, draw_line};

// How many digits a number has: one, and one more for each power of ten from 10 on that it reaches. Tests tell the short ones, of which a
// log has most, since a processor foresees a test and would have to wait for `ilog10`.
pub fn number_length(value: u64) -> usize
    ensures { result ≡ length (digits value) }
{
    match value {
        0..=9 => 1,
        10..=99 => 2,
        100..=999 => 3,
        1000..=9999 => 4,
        10000..=99999 => 5,
        _ => value.ilog10() as usize + 1,
    }
}

// All of the bytes, from `at` on, into a buffer that has room for them; the place behind them. They are few, and `copy_from_slice`
// calls C's memmove.
fn copy_to(buffer: &mut [u8], at: usize, bytes: &[u8]) -> usize
    requires { at + length bytes.now ≤ length buffer.old }
    ensures { (result ≡ at + length bytes.now) × (buffer.new ≡ overwrite buffer.old at bytes.now) }
{
    for (i, byte) in bytes.iter().enumerate() {
        buffer[at + i] = *byte;
    }
    at + bytes.len()
}

// The digits of a number, from `at` on, into a buffer that has room for them; the place behind them. The last digit is written first, and
// the first one needs no division.
fn digits_to(buffer: &mut [u8], at: usize, value: u64) -> usize
    requires { at + length (digits value) ≤ length buffer.old }
    ensures { (result ≡ at + length (digits value)) × (buffer.new ≡ overwrite buffer.old at (digits value)) }
{
    let behind = at + number_length(value);
    let mut rest = value;
    for place in (at + 1..behind).rev() {
        buffer[place] = b'0' + (rest % 10) as u8;
        rest /= 10;
    }
    buffer[at] = b'0' + rest as u8;
    behind
}

// Whether `count` bytes fit in a buffer of this length from `at` on.
fn has_room(length: usize, at: usize, count: usize) -> bool
    ensures { result ≡ leb (at + count) length }
{
    at <= length && count <= length - at
}

// The word into the buffer from `at` on, or nothing.
pub fn put_word(buffer: &mut [u8], at: usize, word: &[u8]) -> Option<usize>
    ensures { (result ≡ put_answer buffer.old at word.now) × (buffer.new ≡ put_buffer buffer.old at word.now) × (put_number result ≡ put_row buffer.old at word.now) }
{
    if !has_room(buffer.len(), at, word.len()) {
        return None;
    }
    Some(copy_to(buffer, at, word))
}

// The number in decimal into the buffer from `at` on, or nothing.
pub fn put_number(buffer: &mut [u8], at: usize, value: u64) -> Option<usize>
    ensures { (result ≡ put_answer buffer.old at (digits value)) × (buffer.new ≡ put_buffer buffer.old at (digits value)) × (put_number result ≡ put_row buffer.old at (digits value)) }
{
    if !has_room(buffer.len(), at, number_length(value)) {
        return None;
    }
    Some(digits_to(buffer, at, value))
}

// How many of this many bytes a whole line, the form and its LF, leaves over, or: it does not fit.
fn line_rest(word: &[u8], numbers: &[u64], room: usize) -> Option<usize>
    ensures { result ≡ answered (leb (length (draw_line word.now numbers.now)) room) (room - length (draw_line word.now numbers.now)) }
{
    let mut left = room.checked_sub(word.len())?;
    for number in numbers {
        left = left.checked_sub(number_length(*number) + 1)?;
    }
    left.checked_sub(2)
}

// Whether a line of a word this long and so many numbers fits in any case: no number has more than 20 digits.
fn surely_fits(word: usize, count: usize, room: usize) -> bool
    ensures { result ≡ true → word + (21 * count + 2) ≤ room }
{
    if 100 < count {
        return false;
    }
    let most = 21 * count + 2;
    most <= room && word <= room - most
}

// Whether a whole line, the form and its LF, fits in this many bytes. It is measured only where it might not.
fn line_fits(word: &[u8], numbers: &[u64], room: usize) -> bool
    ensures { result ≡ leb (length (draw_line word.now numbers.now)) room }
{
    surely_fits(word.len(), numbers.len(), room) || line_rest(word, numbers, room).is_some()
}

// The numbers, each behind a space, `)` and LF, from `at` on, into a buffer that has room for them; the place behind them.
fn numbers_to(buffer: &mut [u8], at: usize, numbers: &[u64]) -> usize
    requires { at + length (draw_line [] numbers.now) ≤ length buffer.old }
    ensures { (result ≡ at + length (draw_line [] numbers.now)) × (buffer.new ≡ overwrite buffer.old at (draw_line [] numbers.now)) }
{
    let mut place = at;
    for number in numbers {
        buffer[place] = b' ';
        place = digits_to(buffer, place + 1, *number);
    }
    copy_to(buffer, place, b")\n")
}

// A whole line into the buffer from `at` on, or nothing: the word, each number behind a space,
// `)` and LF. Without `write` it is only measured: the answer is the same, and no byte changes.
pub fn put_form(
    write: bool,
    buffer: &mut [u8],
    at: usize,
    word: &[u8],
    numbers: &[u64],
) -> Option<usize>
    ensures { (result ≡ put_answer buffer.old at (draw_line word.now numbers.now)) × (buffer.new ≡ pass_buffer write buffer.old at (draw_line word.now numbers.now)) × (put_number result ≡ put_row buffer.old at (draw_line word.now numbers.now)) }
{
    let room = buffer.len().checked_sub(at)?;
    if !write {
        let rest = line_rest(word, numbers, room)?;
        return Some(buffer.len() - rest);
    }
    if !line_fits(word, numbers, room) {
        return None;
    }
    let behind = copy_to(buffer, at, word);
    Some(numbers_to(buffer, behind, numbers))
}
