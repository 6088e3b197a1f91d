//! The lines of a text, one by one.
ghost use Rattle.std.specs.Prelude.{◌≡◌, ◌+◌, ◌<◌, ◌^◌, ◌≤◌, ◌∷◌, position, length, IfNone, All};
ghost use Rattle.std.specs.Prelude.{false, not};
ghost use Rattle.std.specs.Iterator.{YieldsFirstBy, item_count};
ghost use Rattle.std.specs.List.{enumerate_from, list_all};
ghost use Rattle.bag_text.specs.LineEnd.{is_line_end, end_len};
ghost use Rattle.bag_text.specs.Lines.{lines};
ghost use Rattle.memchr.specs.Find.{IsFirstByte, Nowhere, Passes, is_byte2};

const LINE_FEED: u8 = b'\n';

const CARRIAGE_RETURN: u8 = b'\r';

/// The lines of a text that are left, and the number of the first of them.
#[derive(Clone, Copy, Debug)]
pub struct Lines<'a> {
    rest: &'a str,
    number: u64,
    ghost room: { number + length rest.now < 2 ^ 64 },
}

impl<'a> Lines<'a> {
    ghost use Rattle.bag_text.specs.NumberedRest.{numbered_rest};

    pub(crate) fn new(text: &'a str) -> Lines<'a>
        ensures { numbered_rest result ≡ enumerate_from 1 (lines text.now) }
    {
        Lines {
            rest: text,
            number: 1,
        }
    }
}

impl<'a> Iterator for Lines<'a> {
    type Item = (u64, &'a str);

    ghost use Rattle.bag_text.specs.NumberedRest.{numbered_rest};

    ghost next_gives = { YieldsFirstBy (λ item. (item.0, item.1.now)) numbered_rest };

    ghost remaining = { item_count numbered_rest };

    fn next(&mut self) -> Option<(u64, &'a str)> {
        if self.rest.is_empty() {
            return None;
        }
        let (line, rest) = split_line(self.rest);
        let number = self.number;
        *self = Lines {
            rest,
            number: number + 1,
        };
        Some((number, line))
    }
}

/// The first line of a text that isn't empty, and what follows that line's end.
fn split_line(text: &str) -> (&str, &str)
    requires { 0 < length text.now }
    ensures first { lines text.now ≡ result.0.now ∷ lines result.1.now }
    ensures shorter { length result.1.now < length text.now }
{
    let bytes = text.as_bytes();
    match line_end(bytes) {
        None => (text, ""),
        Some(end) => (&text[..end], &text[after_end(bytes, end)..]),
    }
}

/// Where the first line ends.
fn line_end(bytes: &[u8]) -> Option<usize>
    ensures found { result ≡ position is_line_end bytes.now }
    ensures none { IfNone result (All (λ b. is_line_end b ≡ false) bytes.now) }
{
    first_of_two(LINE_FEED, CARRIAGE_RETURN, bytes)
}

/// Where the next line begins, after the end that begins at this place.
fn after_end(bytes: &[u8], end: usize) -> usize
    requires { end < length bytes.now }
    ensures value { result ≡ end + end_len bytes.now end }
    ensures within { result ≤ length bytes.now }
{
    if bytes[end] == CARRIAGE_RETURN && bytes.get(end + 1) == Some(&LINE_FEED) {
        end + 2
    } else {
        end + 1
    }
}

/// How many bytes are tested at once.
const BLOCK: usize = 32;

/// Where the first of two bytes stands.
pub(crate) fn first_of_two(a: u8, b: u8, bytes: &[u8]) -> Option<usize>
    ensures { IsFirstByte (is_byte2 a b) bytes.now result }
{
    for place in len_without(a, b, bytes)..bytes.len() {
        if bytes[place] == a || bytes[place] == b {
            return Some(place);
        }
    }
    None
}

/// The length of the blocks at the front that have neither of two bytes.
fn len_without(a: u8, b: u8, bytes: &[u8]) -> usize
    ensures within { result ≤ length bytes.now }
    ensures nowhere { Nowhere (Passes (is_byte2 a b) bytes.now) 0 result }
{
    let mut end = 0;
    while BLOCK <= bytes.len() - end && has_neither(a, b, &bytes[end..end + BLOCK]) {
        end += BLOCK;
    }
    end
}

/// Whether neither of two bytes is among these. It takes no branch for a byte, so that many are
/// tested at once.
fn has_neither(a: u8, b: u8, bytes: &[u8]) -> bool
    ensures { result ≡ list_all (λ c. not (is_byte2 a b c)) bytes.now }
{
    let mut all = true;
    for byte in bytes {
        all &= (*byte != a) & (*byte != b);
    }
    all
}
