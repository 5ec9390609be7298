// What the words of a row say, read from where a word starts on.
ghost use Rattle.std.specs.Prelude.{◌≡◌, ◌==◌, ◌||◌, ◌+◌, ◌<◌};
ghost use Rattle.text.specs.Words.{digits_from, up_to, number_to, named, lettered};
ghost use Rattle.text.specs.Rows.{value_of};
ghost use Rattle.text.specs.declared.Field.TheVariants.{AnyType, Condition};
ghost use Rattle.text.specs.Inner.Read.{word_size, word_of};
ghost use Rattle.extend.specs.Inner.Filled.{said, kind_of};

use crate::form::Kind;
use text::Field;

// What a word says, and how many bytes it has.
#[derive(Clone, Copy)]
pub(crate) struct Word {
    pub number: usize,
    pub size: usize,
}

// A word ends at a space, at a line feed and at the end of the text.
fn ends_word(c: u8) -> bool
    ensures { result ≡ (c == 32 || c == 10) }
{
    c == b' ' || c == b'\n'
}

// How many bytes the word has that a text starts with.
pub(crate) fn word_size(text: &[u8]) -> usize
    ensures { result ≡ word_size text.now }
{
    text.iter()
        .position(|c| ends_word(*c))
        .unwrap_or(text.len())
}

// The number that the digits of a word write, where it is at most so much: digits past that are not read.
fn digits(text: &[u8], most: usize) -> Option<Word>
    requires { most < 65536 }
    ensures { result ≡ said (up_to most (digits_from 0 (word_of text.now))) text.now }
{
    let mut number = 0;
    for (size, c) in text.iter().enumerate() {
        if !c.is_ascii_digit() {
            if ends_word(*c) {
                return Some(Word { number, size });
            }
            return None;
        }
        number = number * 10 + usize::from(*c - b'0');
        if most < number {
            return None;
        }
    }
    Some(Word {
        number,
        size: text.len(),
    })
}

// A decimal number without leading zeros.
fn number(text: &[u8], most: usize) -> Option<Word>
    requires { most < 65536 }
    ensures { result ≡ said (number_to most (word_of text.now)) text.now }
{
    let word = digits(text, most)?;
    if word.size == 0 {
        return None;
    }
    if 1 < word.size && text[0] == b'0' {
        return None;
    }
    Some(word)
}

// A letter, and a number that counts from a base.
fn lettered(letter: u8, base: usize, most: usize, text: &[u8]) -> Option<Word>
    requires { (32 < letter) × (base + most < 65536) }
    ensures { result ≡ said (lettered letter base most (word_of text.now)) text.now }
{
    let [first, rest @ ..] = text else {
        return None;
    };
    if *first != letter {
        return None;
    }
    let word = number(rest, most)?;
    Some(Word {
        number: base + word.number,
        size: 1 + word.size,
    })
}

// The word of a name, which stands for a number. A longer word is read only up to where it shows that it is longer.
fn named(name: &[u8], n: usize, text: &[u8]) -> Option<Word>
    ensures { result ≡ said (named name.now n (word_of text.now)) text.now }
{
    let size = word_size(&text[..text.len().min(name.len() + 1)]);
    if &text[..size] == name {
        return Some(Word { number: n, size });
    }
    None
}

// A basic type, or `g` and a group.
fn any_type(text: &[u8]) -> Option<Word>
    ensures { result ≡ said (value_of AnyType (word_of text.now)) text.now }
{
    number(text, 32767).or_else(|| lettered(b'g', 32768, 32767, text))
}

// `off`, `on`, or `s` and a switch.
fn condition(text: &[u8]) -> Option<Word>
    ensures { result ≡ said (value_of Condition (word_of text.now)) text.now }
{
    named(b"off", 0, text)
        .or_else(|| named(b"on", 1, text))
        .or_else(|| lettered(b's', 2, 31, text))
}

// What a word says in a field.
pub(crate) fn value(field: Field, text: &[u8]) -> Option<Word>
    ensures { result ≡ said (value_of field (word_of text.now)) text.now }
{
    match field {
        Field::Member => number(text, 32767),
        Field::AnyType => any_type(text),
        Field::Number => number(text, 65535),
        Field::Predicate => number(text, 255),
        Field::Condition => condition(text),
    }
}

// The kind of record that a row's first word names. (A match on the four words is left with 23 goals, one for each way to be
// none of them.)
pub(crate) fn kind_of(word: &[u8]) -> Option<Kind>
    ensures { result ≡ kind_of word.now }
{
    if word == b"group".as_slice() {
        return Some(Kind::Group);
    }
    if word == b"allow".as_slice() {
        return Some(Kind::Allow);
    }
    if word == b"trans".as_slice() {
        return Some(Kind::Transition);
    }
    if word == b"limit".as_slice() {
        return Some(Kind::Constraint);
    }
    None
}
