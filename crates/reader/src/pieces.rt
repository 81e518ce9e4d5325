// The pieces of a line. A piece's reader takes the text from where the piece is due. It answers the value and the rest of
// the text, or how many bytes are left at the first one with which no such piece goes on.
ghost use Rattle.std.specs.Prelude.{◌≡◌, ℕ, ◌+◌, ◌-◌, ◌*◌, ◌<◌, ◌≤◌, List, ◌++◌, length, decimal, MatchOption};
ghost use Rattle.reader.specs.Format.{Optional, optional};
ghost use Rattle.reader.specs.Pieces.{shared, Reads, Strips, Extends, Longest, Parting, Listed};

// The error is one count, and no struct: each reader would only take it out again. So it is with a text and what comes after a
// piece: each call gives another.
pub(crate) type Read<'a, T> = Result<(T, &'a [u8]), usize>;

// How many bytes `a` and `b` share from their beginnings.
fn common_len(a: &[u8], b: &[u8]) -> usize
    ensures count { result ≡ shared a.now b.now }
    ensures within { result ≤ length b.now }
{
    a.iter().zip(b).take_while(|(x, y)| x == y).count()
}

pub(crate) fn literal<'a>(text: &'a [u8], due: &[u8]) -> Result<&'a [u8], usize>
    ensures { Strips due.now text.now result }
{
    // One pass over what is due says how far it goes; `strip_prefix` would need another where it fails.
    let n = common_len(due, text);
    if n < due.len() {
        Err(text.len() - n)
    } else {
        Ok(&text[n..])
    }
}

// The number `value`, of `count` digits, with one digit more.
fn extended(value: u32, count: usize, byte: u8, limit: u32) -> Option<u32>
    ensures { MatchOption result (Extends value count byte limit → ⊥) (λ v. Extends value count byte limit × (v ≡ value * 10 + (byte - 48))) }
{
    if !byte.is_ascii_digit() || (value == 0 && count > 0) {
        return None;
    }
    value
        .checked_mul(10)?
        .checked_add(u32::from(byte - b'0'))
        .filter(|next| *next <= limit)
}

// The longest number at the beginning of the text, and its length.
// A `try_fold` would carry the two along in one more type, and say no more.
fn digits(text: &[u8], limit: u32) -> (u32, usize)
    ensures { Longest text.now limit result.0 result.1 }
{
    let mut value = 0;
    for (n, byte) in text.iter().enumerate() {
        let Some(longer) = extended(value, n, *byte, limit) else {
            return (value, n);
        };
        value = longer;
    }
    (value, text.len())
}

// A number up to the limit, and then the text `after`.
pub(crate) fn number<'a>(text: &'a [u8], limit: u32, after: &[u8]) -> Read<'a, u32>
    requires { Parting after.now }
    ensures { Reads (λ v. v ≤ limit) (λ v. decimal v ++ after.now) text.now result }
{
    let (value, n) = digits(text, limit);
    if n == 0 {
        return Err(text.len());
    }
    let rest = literal(&text[n..], after)?;
    Ok((value, rest))
}

// A number or `-`, and then the text `after`. Inlined, so that what comes after is a constant: a line of a command has five
// such fields, and a call for each made its reading a sixth slower.
#[inline(always)]
pub(crate) fn optional_number<'a>(text: &'a [u8], after: &[u8]) -> Read<'a, Option<u32>>
    requires { Parting after.now }
    ensures { Reads Optional (λ o. optional o ++ after.now) text.now result }
{
    if let Some(rest) = text.strip_prefix(b"-") {
        let rest = literal(rest, after)?;
        return Ok((None, rest));
    }
    let (n, rest) = number(text, u32::MAX, after)?;
    Ok((Some(n), rest))
}

// The text `word`, and then the text `after`.
fn phrase<'a>(text: &'a [u8], word: &[u8], after: &[u8]) -> Result<&'a [u8], usize>
    ensures { Strips (word.now ++ after.now) text.now result }
{
    let rest = literal(text, word)?;
    literal(rest, after)
}

// Values that a text names by words.
pub trait Word: Copy {
    ghost spelled: { Self → List ℕ };

    fn text(self) -> &'static [u8]
        ensures { result.now ≡ spelled self };
}

// The word of one of the values, and then the text `after`.
// A `find_map` would forget how far the words go that are not there.
pub(crate) fn one_of<'a, W: Word>(text: &'a [u8], all: &[W], after: &[u8]) -> Read<'a, W>
    requires { 0 < length all.now }
    ensures { Reads (Listed all.now) (λ w. W.Word.spelled w ++ after.now) text.now result }
{
    let mut least = text.len();
    for w in all {
        match phrase(text, w.text(), after) {
            Ok(rest) => return Ok((*w, rest)),
            Err(left) => least = least.min(left),
        }
    }
    Err(least)
}
