//! Why words are refused.
ghost use Rattle.std.specs.Prelude.{◌≡◌, ◌≢◌, [], OnOk};
ghost use Rattle.clap.specs.Words.{kind_of};
ghost use Rattle.tor_words.specs.Refused.{IsUsage, SaysUsage, HasUsageLine};

use clap::Error;
use clap::error::ErrorKind;
use std::alloc::Global;
use tor_arena::{List, NoMemory};

/// Why words give no settings.
#[derive(Drop)]
pub enum WordsRefused {
    /// They are no command of the program. The text says why: its first line is `usage`.
    Usage(List<u8>),
    /// Memory ran out.
    NoMemory,
}

/// The digits of a number below 16.
const DIGITS: [u8; 16] = *b"0123456789abcdef";

// Whether a terminal would heed a character: a control character but LF, or one that says in which direction a text runs.
fn is_heeded(character: char) -> bool {
    matches!(
        character,
        '\u{0}'..='\u{9}'
            | '\u{b}'..='\u{1f}'
            | '\u{7f}'..='\u{9f}'
            | '\u{61c}'
            | '\u{200e}'
            | '\u{200f}'
            | '\u{202a}'..='\u{202e}'
            | '\u{2066}'..='\u{2069}'
    )
}

// Puts octets after the first line, each as its number, \xNN.
fn put_numbers(lines: &mut List<u8>, octets: &[u8]) -> Result<(), NoMemory>
    ensures { OnOk result (HasUsageLine lines.old → HasUsageLine lines.new) }
{
    for octet in octets {
        let high = DIGITS[usize::from(*octet >> 4)];
        let low = DIGITS[usize::from(*octet & 15)];
        lines.extend_from_slice(&[b'\\', b'x', high, low])?;
    }
    Ok(())
}

// Puts a character after the first line: one that a terminal would heed as the numbers of its octets, since a word of the command line
// may hold any.
fn put_visible(lines: &mut List<u8>, character: char) -> Result<(), NoMemory>
    ensures { OnOk result (HasUsageLine lines.old → HasUsageLine lines.new) }
{
    let mut room = [0; 4];
    let octets = character.encode_utf8(&mut room).as_bytes();
    if is_heeded(character) {
        put_numbers(lines, octets)
    } else {
        lines.extend_from_slice(octets)
    }
}

// Puts a text, the characters that a terminal would heed as numbers.
fn put_text(lines: &mut List<u8>, text: &str) -> Result<(), NoMemory>
    ensures { OnOk result (HasUsageLine lines.old → HasUsageLine lines.new) }
{
    for character in text.chars() {
        put_visible(lines, character)?;
    }
    Ok(())
}

// What clap says before and after a line that points at a word much like the one it refuses: what was meant is not for it to guess.
fn around_hint(text: &str) -> (&str, &str) {
    let Some((before, hint)) = text.split_once("  tip: a similar ") else {
        return (text, "");
    };
    let Some((_, after)) = hint.split_once('\n') else {
        return (before, "");
    };
    (before, after.strip_prefix('\n').unwrap_or(after))
}

// Puts the first line, and what is to be said after it.
fn put_usage(lines: &mut List<u8>, text: &str) -> Result<(), NoMemory>
    requires { lines.old ≡ [] }
    ensures { OnOk result (HasUsageLine lines.new) }
{
    let (before, after) = around_hint(text);
    lines.extend_from_slice(b"usage\n")?;
    put_text(lines, before)?;
    put_text(lines, after)
}

/// The refusal that says this text after its first line, unless memory runs out.
pub(crate) fn usage(alloc: Global, text: &str) -> WordsRefused
    ensures { SaysUsage result }
{
    let mut lines = List::new(alloc);
    match put_usage(&mut lines, text) {
        Ok(()) => WordsRefused::Usage(lines),
        Err(NoMemory) => {
            drop(lines);
            WordsRefused::NoMemory
        }
    }
}

/// The refusal that an error of clap stands for.
pub(crate) fn refusal(alloc: Global, error: &Error) -> WordsRefused
    ensures why { IsUsage result → kind_of error.now ≢ ErrorKind.OutOfMemory }
    ensures text { SaysUsage result }
{
    if error.kind() == ErrorKind::OutOfMemory {
        return WordsRefused::NoMemory;
    }
    match error.to_string(alloc) {
        Ok(text) => usage(alloc, text.as_str()),
        Err(_) => WordsRefused::NoMemory,
    }
}
