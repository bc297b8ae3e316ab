//! What the lines of a text stand for.
use crate::fault::Fault;
use std::fs;
use std::rt::Files;

/// A text that others name.
#[derive(Drop)]
pub(crate) struct NamedText {
    pub(crate) name: String,
    pub(crate) bytes: Vec<u8>,
}

/// What stands before a byte of a line.
#[derive(Clone, Copy, Debug, PartialEq, Eq)]
enum Before {
    /// Nothing that changes it.
    Nothing,
    /// A backslash.
    Backslash,
    /// A backslash and an x.
    Hex,
    /// The same, and a digit.
    Digit(u8),
}

/// The value of a digit of base 16.
fn digit_of(byte: u8) -> Result<u8, Fault> {
    match byte {
        b'0'..=b'9' => Ok(byte - b'0'),
        b'A'..=b'F' => Ok(byte - b'A' + 10),
        _ => Err(Fault::Escape),
    }
}

/// Adds what a byte behind a backslash stands for.
fn push_behind(text: &mut Vec<u8>, byte: u8) -> Result<Before, Fault> {
    match byte {
        b'r' => text.push(b'\r')?,
        b'n' => text.push(b'\n')?,
        b'\\' => text.push(b'\\')?,
        b'x' => return Ok(Before::Hex),
        _ => return Err(Fault::Escape),
    }
    Ok(Before::Nothing)
}

/// Adds what a byte stands for, and tells what stands before the next.
fn push_byte(text: &mut Vec<u8>, before: Before, byte: u8) -> Result<Before, Fault> {
    match before {
        Before::Nothing if byte == b'\\' => Ok(Before::Backslash),
        Before::Nothing => {
            text.push(byte)?;
            Ok(Before::Nothing)
        }
        Before::Backslash => push_behind(text, byte),
        Before::Hex => Ok(Before::Digit(digit_of(byte)?)),
        Before::Digit(first) => {
            let last = digit_of(byte)?;
            text.push(first.wrapping_mul(16).wrapping_add(last))?;
            Ok(Before::Nothing)
        }
    }
}

/// Adds a line with its newline, which a backslash at its end takes away.
fn push_plain(text: &mut Vec<u8>, line: &str) -> Result<(), Fault> {
    let mut before = Before::Nothing;
    for byte in line.as_bytes() {
        before = push_byte(text, before, *byte)?;
    }
    match before {
        Before::Nothing => Ok(text.push(b'\n')?),
        Before::Backslash => Ok(()),
        Before::Hex | Before::Digit(_) => Err(Fault::Escape),
    }
}

/// The number that a word spells.
pub(crate) fn number_of(word: &str) -> Result<u64, Fault> {
    match word.parse::<u64>() {
        Ok(number) => Ok(number),
        Err(_) => Err(Fault::Number),
    }
}

/// The number that stands before a space, and what stands behind it.
pub(crate) fn number_before(words: &str) -> Result<(u64, &str), Fault> {
    let (word, rest) = words.split_once(' ').ok_or(Fault::Number)?;
    Ok((number_of(word)?, rest))
}

/// Adds a line so many times, as in `3 query,0,*`.
fn push_repeat(text: &mut Vec<u8>, words: &str) -> Result<(), Fault> {
    let (count, line) = number_before(words)?;
    for _ in 0..count {
        push_plain(text, line)?;
    }
    Ok(())
}

/// Adds the insert of measure 1 through server 0 at a place.
fn push_insert(text: &mut Vec<u8>, place: &str) -> Result<(), Fault> {
    text.extend_from_slice(b"insert,0,1,")?;
    push_plain(text, place)
}

/// Adds so many inserts at places in turn, as in `33 berlin munich`.
fn push_inserts<R: AllocGlobal>(rt: &R, text: &mut Vec<u8>, words: &str) -> Result<(), Fault> {
    let (count, rest) = number_before(words)?;
    let places: Vec<&str> = rest.split(' ').collect(rt.alloc())?;
    for at in 0..count {
        let len = places.len() as u64;
        if len == 0 {
            return Err(Fault::Place);
        }
        let place = places.get((at % len) as usize).copied().unwrap_or("");
        push_insert(text, place)?;
    }
    Ok(())
}

/// Adds lines that begin with numbers, from the first to the last, as in `1 33 insert ok`; between bars stand lines that
/// come in turn, as in `1 4 move ok|balance 1 1`.
fn push_numbered<R: AllocGlobal>(rt: &R, text: &mut Vec<u8>, words: &str) -> Result<(), Fault> {
    let (first, rest) = number_before(words)?;
    let (last, rest) = number_before(rest)?;
    let lines: Vec<&str> = rest.split('|').collect(rt.alloc())?;
    for number in first..=last {
        let len = lines.len() as u64;
        if len == 0 {
            return Err(Fault::Number);
        }
        let line = lines
            .get((number.wrapping_sub(first) % len) as usize)
            .copied()
            .unwrap_or("");
        let begin = format!(in rt.alloc(); "{number} ")?;
        text.extend_from_slice(begin.as_str().as_bytes())?;
        push_plain(text, line)?;
    }
    Ok(())
}

/// Adds a letter so many times and no newline, as in `1000 a`.
fn push_bytes(text: &mut Vec<u8>, words: &str) -> Result<(), Fault> {
    let (count, letter) = number_before(words)?;
    let [byte] = letter.as_bytes() else {
        return Err(Fault::Escape);
    };
    for _ in 0..count {
        text.push(*byte)?;
    }
    Ok(())
}

/// Adds what a file holds.
fn push_file<R: Files + AllocGlobal>(rt: &R, text: &mut Vec<u8>, file: &str) -> Result<(), Fault> {
    let Ok(bytes) = fs::read(rt, file) else {
        return Err(Fault::File);
    };
    Ok(text.extend_from_slice(bytes.as_slice())?)
}

/// Adds the first text of this name.
fn push_named(text: &mut Vec<u8>, name: &str, named: &[NamedText]) -> Result<(), Fault> {
    for other in named {
        if other.name.as_str() == name {
            return Ok(text.extend_from_slice(other.bytes.as_slice())?);
        }
    }
    Err(Fault::Name)
}

/// Adds what a line stands for, where `named` are the texts that stand above.
pub(crate) fn push_line<R: Files + AllocGlobal>(
    rt: &R,
    text: &mut Vec<u8>,
    line: &str,
    named: &[NamedText],
) -> Result<(), Fault> {
    let Some(asked) = line.strip_prefix('@') else {
        return push_plain(text, line);
    };
    let (word, rest) = asked.split_once(' ').unwrap_or((asked, ""));
    match word {
        "file" => push_file(rt, text, rest),
        "repeat" => push_repeat(text, rest),
        "inserts" => push_inserts(rt, text, rest),
        "numbered" => push_numbered(rt, text, rest),
        "bytes" => push_bytes(text, rest),
        _ => push_named(text, asked, named),
    }
}
