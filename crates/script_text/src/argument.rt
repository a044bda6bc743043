//! Reading the words that stand behind an event's first word. `None` is a word that stands for nothing; an `Err` is
//! want of memory.

ghost use Rattle.std.specs.Prelude.{◌≡◌, ◌≤◌, ◌-◌, ◌^◌, IfOk, IfSome};
ghost use Rattle.std.specs.Char.{is_ascii_digit};
ghost use Rattle.std.specs.List.{list_all};
ghost use Rattle.fs_model.specs.PathText.{slices};
ghost use Rattle.script_text.specs.EventText.{is_number, number_of, label_of, path_of, write_type_of, read_type_of, listed_of, made_of, fill_of};

use fs_model::cut::cut;
use fs_model::event::{Fill, ReadType, WriteType};
use fs_model::label::Label;
use fs_model::path::{Path, PathFault};
use fs_model::piece::Piece;
use hex::FromHexError;
use percent_encoding::percent_decode;
use std::alloc::{AllocError, Global};
use std::str;

/// The greatest place in a generator from which bytes may be taken.
const LAST_PLACE: u64 = (1 << 42) - 1;

/// Whether a word is digits alone.
fn has_digits(word: &[u8]) -> bool
    ensures { result ≡ list_all is_ascii_digit word.now }
{
    word.iter().all(|b| b.is_ascii_digit())
}

/// Whether a word is digits alone, one or more, with no needless zero in front.
#[tactic(auto, unfolding(crate::specs::EventText::is_number))]
fn is_number(word: &[u8]) -> bool
    ensures { result ≡ is_number word.now }
{
    match word {
        [] | [b'0', _, ..] => false,
        _ => has_digits(word),
    }
}

/// The number below 2^64 that a word is, without sign and without needless zeros.
#[tactic(auto, using(crate::proofs::Numbers::parsed), unfolding(crate::specs::EventText::number_of))]
fn any_number(word: &[u8]) -> Option<u64>
    ensures { result ≡ number_of 0 (2 ^ 64 - 1) word.now }
{
    if !is_number(word) {
        return None;
    }
    match str::from_utf8(word) {
        Ok(text) => text.parse().ok(),
        Err(_) => None,
    }
}

/// The number from `least` to `most` that a word is, without sign and without needless zeros.
#[tactic(auto, unfolding(crate::specs::EventText::number_of))]
pub fn number_of(word: &[u8], least: u64, most: u64) -> Option<u64>
    ensures value { result ≡ number_of least most word.now }
    ensures within { IfSome result (λ n. n ≤ most) }
{
    let number = any_number(word)?;
    if number < least || most < number {
        return None;
    }
    Some(number)
}

/// The label that a word is.
#[tactic(auto, unfolding(crate::specs::EventText::label_of))]
pub fn label_of(alloc: Global, word: &[u8]) -> Result<Option<Label>, AllocError>
    ensures { IfOk result (λ found. found ≡ label_of word.now) }
{
    Label::read(alloc, word)
}

/// The path that a word stands for, once its escapes are decoded.
#[tactic(auto, unfolding(crate::specs::EventText::path_of))]
pub fn path_of(alloc: Global, word: &[u8]) -> Result<Option<Path>, AllocError>
    ensures { IfOk result (λ found. found ≡ path_of word.now) }
{
    let mut text = Vec::new(alloc);
    percent_decode(word).append_to(&mut text)?;
    match Path::read(alloc, &text) {
        Ok(path) => Ok(Some(path)),
        Err(PathFault::Memory) => Err(AllocError),
        Err(_) => Ok(None),
    }
}

/// The write type that a word names; `None` also for those that aren't built yet.
#[tactic(auto, unfolding(crate::specs::EventText::write_type_of))]
pub fn write_type_of(word: &[u8]) -> Option<WriteType>
    ensures { result ≡ write_type_of word.now }
{
    if word == b"MUST_CACHE".as_slice() {
        return Some(WriteType::MustCache);
    }
    None
}

/// The read type that a word names; `None` also for those that aren't built yet.
#[tactic(auto, unfolding(crate::specs::EventText::read_type_of))]
pub fn read_type_of(word: &[u8]) -> Option<ReadType>
    ensures { result ≡ read_type_of word.now }
{
    if word == b"NO_CACHE".as_slice() {
        return Some(ReadType::NoCache);
    }
    None
}

/// The bytes of hexadecimal digits in either case: 1 to 65,536.
#[tactic(auto, unfolding(crate::specs::EventText::listed_of))]
fn listed_of(alloc: Global, digits: &[u8]) -> Result<Option<Fill>, AllocError>
    ensures { IfOk result (λ found. found ≡ listed_of digits.now) }
{
    match hex::decode(alloc, digits) {
        Ok(bytes) if 1 <= bytes.len() && bytes.len() <= 65_536 => {
            Ok(Some(Fill::Listed(Piece::from_vec(bytes))))
        }
        Err(FromHexError::OutOfMemory) => Err(AllocError),
        _ => Ok(None),
    }
}

/// The bytes of a generator: its number, the place of the first byte, and how many.
#[tactic(auto, unfolding(crate::specs::EventText::made_of))]
fn made_of(words: &[&[u8]]) -> Option<Fill>
    ensures { result ≡ made_of (slices words.now) }
{
    let [num, at, len] = words else {
        return None;
    };
    let num = number_of(num, 0, 255)?;
    let at = number_of(at, 0, LAST_PLACE)?;
    let len = number_of(len, 1, 65_536)?;
    Some(Fill::Made {
        num: num as u8,
        at,
        len: len as u32,
    })
}

/// The bytes that a word stands for: `x:` and hexadecimal digits, or `g:NUM:AT:N`.
#[tactic(auto, unfolding(crate::specs::EventText::fill_of))]
pub fn fill_of(alloc: Global, word: &[u8]) -> Result<Option<Fill>, AllocError>
    ensures { IfOk result (λ found. found ≡ fill_of word.now) }
{
    match word {
        [b'x', b':', digits @ ..] => listed_of(alloc, digits),
        [b'g', b':', numbers @ ..] => Ok(made_of(&cut(alloc, numbers, b':')?)),
        _ => Ok(None),
    }
}
