//! The words of lines, in their one canonical spelling. Each call adds to what it is given; an `Err` is want of memory.

ghost use Rattle.std.specs.Prelude.{◌≡◌, ◌∷◌, ◌++◌, ◌/◌, ◌%◌, ◌<◌, [], false, OnOk, codes};
ghost use Rattle.std.specs.Fmt.{decimal, digit_glyph};
ghost use Rattle.script_text.specs.Words.{name_word, names_word, path_word, key_word, hex_word, spaced};

use fs_model::items::Items;
use fs_model::label::Label;
use fs_model::name::Name;
use fs_model::path::Path;
use fs_model::prefix::Prefix;
use percent_encoding::{AsciiSet, NON_ALPHANUMERIC, ascii_set, percent_encode};
use std::alloc::{AllocError, Global};

/// The ASCII bytes of a name that are written by their digits.
const ESCAPED: AsciiSet = ascii_set!(NON_ALPHANUMERIC.remove(b'.').remove(b'_').remove(b'-'));

/// The bytes of a name.
fn push_name_bytes(out: &mut Vec<u8>, name: &[u8]) -> Result<(), AllocError>
    ensures { OnOk result (out.new.items ≡ out.old.items ++ name_word name.now) }
{
    for piece in percent_encode(name, ESCAPED) {
        out.extend_from_slice(piece.as_bytes())?;
    }
    Ok(())
}

/// A name.
pub fn push_name(out: &mut Vec<u8>, name: &Name) -> Result<(), AllocError>
    ensures { OnOk result (out.new.items ≡ out.old.items ++ name_word name.now) }
{
    push_name_bytes(out, name.as_bytes())
}

/// A slash before each name.
fn push_names(out: &mut Vec<u8>, names: &[Name]) -> Result<(), AllocError>
    ensures { OnOk result (out.new.items ≡ out.old.items ++ names_word names.now) }
{
    for name in names {
        out.push(b'/')?;
        push_name(out, name)?;
    }
    Ok(())
}

/// A path.
pub fn push_path(out: &mut Vec<u8>, path: &Path) -> Result<(), AllocError>
    ensures { OnOk result (out.new.items ≡ out.old.items ++ path_word path.now) }
{
    let names = path.as_slice();
    if names.is_empty() {
        out.push(b'/')?;
        return Ok(());
    }
    push_names(out, names)
}

/// A slash before each name of a key.
fn push_key_names(out: &mut Vec<u8>, names: &[Items<u8>]) -> Result<(), AllocError>
    ensures { OnOk result (out.new.items ≡ out.old.items ++ names_word names.now) }
{
    for name in names {
        out.push(b'/')?;
        push_name_bytes(out, name.as_slice())?;
    }
    Ok(())
}

/// A key: `-` where it is empty, and `%2D` where its one name is `-`.
pub fn push_key(out: &mut Vec<u8>, key: &Prefix) -> Result<(), AllocError>
    ensures { OnOk result (out.new.items ≡ out.old.items ++ key_word key.now) }
{
    match key.as_slice() {
        [] => out.extend_from_slice(b"-"),
        [name] if name.as_slice() == b"-".as_slice() => out.extend_from_slice(b"%2D"),
        [name, names @ ..] => {
            push_name_bytes(out, name.as_slice())?;
            push_key_names(out, names)
        }
    }
}

/// A number.
pub fn push_number(alloc: Global, out: &mut Vec<u8>, number: u64) -> Result<(), AllocError>
    ensures { OnOk result (out.new.items ≡ out.old.items ++ decimal number) }
{
    let text = number.to_string(alloc)?;
    out.extend_from_slice(text.as_bytes())
}

/// The lower-case hexadecimal digit of a number below 16.
fn hex_digit(number: u8) -> u8
    requires { number < 16 }
    ensures { result ≡ digit_glyph false number }
{
    if number < 10 {
        b'0' + number
    } else {
        b'a' + (number - 10)
    }
}

/// Two hexadecimal digits for each byte.
pub fn push_hex(out: &mut Vec<u8>, bytes: &[u8]) -> Result<(), AllocError>
    ensures { OnOk result (out.new.items ≡ out.old.items ++ hex_word bytes.now) }
{
    for byte in bytes {
        out.push(hex_digit(*byte / 16))?;
        out.push(hex_digit(*byte % 16))?;
    }
    Ok(())
}

/// A space and a word.
pub fn push_word(out: &mut Vec<u8>, word: &[u8]) -> Result<(), AllocError>
    ensures { OnOk result (out.new.items ≡ out.old.items ++ spaced (word.now ∷ [])) }
{
    out.push(b' ')?;
    out.extend_from_slice(word)
}

/// A space and a label.
pub fn push_label_word(out: &mut Vec<u8>, label: &Label) -> Result<(), AllocError>
    ensures { OnOk result (out.new.items ≡ out.old.items ++ spaced (label.now ∷ [])) }
{
    push_word(out, label.as_bytes())
}

/// A space and a path.
pub fn push_path_word(out: &mut Vec<u8>, path: &Path) -> Result<(), AllocError>
    ensures { OnOk result (out.new.items ≡ out.old.items ++ spaced (path_word path.now ∷ [])) }
{
    out.push(b' ')?;
    push_path(out, path)
}

/// A space and a number.
pub fn push_number_word(alloc: Global, out: &mut Vec<u8>, number: u64) -> Result<(), AllocError>
    ensures { OnOk result (out.new.items ≡ out.old.items ++ spaced (decimal number ∷ [])) }
{
    out.push(b' ')?;
    push_number(alloc, out, number)
}

/// Two words: this one and a path.
pub fn push_verb_path(out: &mut Vec<u8>, verb: &[u8], path: &Path) -> Result<(), AllocError>
    ensures { OnOk result (out.new.items ≡ out.old.items ++ spaced (verb.now ∷ path_word path.now ∷ [])) }
{
    push_word(out, verb)?;
    push_path_word(out, path)
}

/// Two words: this one and a label.
pub fn push_verb_label(out: &mut Vec<u8>, verb: &[u8], label: &Label) -> Result<(), AllocError>
    ensures { OnOk result (out.new.items ≡ out.old.items ++ spaced (verb.now ∷ label.now ∷ [])) }
{
    push_word(out, verb)?;
    push_label_word(out, label)
}

/// Two words: this one and a number.
pub fn push_verb_number(
    alloc: Global,
    out: &mut Vec<u8>,
    verb: &[u8],
    number: u64,
) -> Result<(), AllocError>
    ensures { OnOk result (out.new.items ≡ out.old.items ++ spaced (verb.now ∷ decimal number ∷ [])) }
{
    push_word(out, verb)?;
    push_number_word(alloc, out, number)
}
