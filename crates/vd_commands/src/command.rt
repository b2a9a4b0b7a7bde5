//! The words of the command line.
ghost use Rattle.std.specs.Prelude.{◌≡◌, true, false, map, string_bytes, option_map, IfOk, MatchOption};
ghost use Rattle.std.specs.List.{list_all};
ghost use Rattle.std.specs.Str.{bytes_eq};
ghost use Rattle.vd_base.specs.Name.{is_name};
ghost use Rattle.vd_commands.specs.Command.{command_of, command_read, check_of, play_of, are_files, is_filled, is_unbuilt};

use std::alloc::{AllocError, Global};
use vd_base::{Name, NameFault};

/// The command that the words are.
#[derive(Drop)]
pub enum Words<'a> {
    /// The link, and the files.
    Check(Name, &'a [String]),
    /// The link, the schedule and the files.
    Play(Name, &'a String, &'a [String]),
    /// A command that is not built yet.
    Unbuilt,
}

fn is_filled(word: &String) -> bool
    ensures { result ≡ is_filled (string_bytes word.now) }
{
    word.len() >= 1
}

fn all_filled(words: &[String]) -> bool
    ensures { result ≡ list_all is_filled (map string_bytes words.now) }
{
    for word in words {
        if !is_filled(word) {
            return false;
        }
    }
    true
}

fn are_files(words: &[String]) -> bool
    ensures { result ≡ are_files (map string_bytes words.now) }
{
    words.len() >= 1 && all_filled(words)
}

fn is(word: &[u8], wanted: &[u8]) -> bool
    ensures { result ≡ bytes_eq word.now wanted.now }
{
    word == wanted
}

fn is_unbuilt(word: &[u8]) -> bool
    ensures { result ≡ is_unbuilt word.now }
{
    is(word, b"session") || is(word, b"audit") || is(word, b"gen")
}

/// The name that a word is, where it is one.
fn name_of(alloc: Global, word: &String) -> Result<Option<Name>, AllocError>
    ensures { IfOk result (λ found. MatchOption found (is_name (string_bytes word.now) ≡ false) (λ name. (name ≡ string_bytes word.now) × (is_name (string_bytes word.now) ≡ true))) }
{
    match Name::new(alloc, word.as_bytes()) {
        Ok(name) => Ok(Some(name)),
        Err(NameFault::NotName) => Ok(None),
        Err(NameFault::Memory(error)) => Err(error),
    }
}

fn check_of(alloc: Global, words: &[String]) -> Result<Option<Words<'_>>, AllocError>
    ensures { IfOk result (λ found. option_map command_read found ≡ check_of (map string_bytes words.now)) }
{
    let Some((link, files)) = words.split_first() else {
        return Ok(None);
    };
    if !are_files(files) {
        return Ok(None);
    }
    match name_of(alloc, link)? {
        Some(name) => Ok(Some(Words::Check(name, files))),
        None => Ok(None),
    }
}

fn play_of(alloc: Global, words: &[String]) -> Result<Option<Words<'_>>, AllocError>
    ensures { IfOk result (λ found. option_map command_read found ≡ play_of (map string_bytes words.now)) }
{
    let Some((link, behind)) = words.split_first() else {
        return Ok(None);
    };
    let Some((schedule, files)) = behind.split_first() else {
        return Ok(None);
    };
    if !is_filled(schedule) || !are_files(files) {
        return Ok(None);
    }
    match name_of(alloc, link)? {
        Some(name) => Ok(Some(Words::Play(name, schedule, files))),
        None => Ok(None),
    }
}

/// The command that the words are, where they are one.
pub fn command_of(alloc: Global, words: &[String]) -> Result<Option<Words<'_>>, AllocError>
    ensures { IfOk result (λ found. option_map command_read found ≡ command_of (map string_bytes words.now)) }
{
    let Some((first, rest)) = words.split_first() else {
        return Ok(None);
    };
    if is(first.as_bytes(), b"check") {
        return check_of(alloc, rest);
    }
    if is(first.as_bytes(), b"play") {
        return play_of(alloc, rest);
    }
    if is_unbuilt(first.as_bytes()) {
        Ok(Some(Words::Unbuilt))
    } else {
        Ok(None)
    }
}
