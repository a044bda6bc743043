//! Reading the text of a script.

ghost use Rattle.std.specs.Prelude.{◌≡◌, ◌<◌, ◌≤◌, ◌∷◌, ◌++◌, [], List, true, IfOk, IfErr, OnOk, MatchOption, option_to_list, length, Ok};
ghost use Rattle.script_text.specs.declared.read.ScriptFault.{ScriptFault};
ghost use Rattle.std.specs.List.{list_all, position_or_len};
ghost use Rattle.std.specs.Prelude.{◌==◌};
ghost use Rattle.fs_model.specs.PathText.{slices};
ghost use Rattle.script_text.specs.declared.script.Command.{Command};
ghost use Rattle.script_text.specs.Commands.{is_command, commands_text};
ghost use Rattle.script_text.specs.ScriptForm.{SpellsScript};
ghost use Rattle.script_text.specs.ScriptText.{verb_of, command_of, read_line, lines_of, commands_of, read_script, Gives};

use crate::argument::number_of;
use crate::event::event_of;
use crate::script::{Command, Script, Verb};
use fs_model::cut::cut;
use fs_model::numbers::Actor;
use std::alloc::{AllocError, AllocFailed, Global};
use thiserror::Error;

/// Why a text is no script.
#[derive(Clone, Copy, Debug, PartialEq, Eq, Error)]
pub enum ScriptFault {
    /// The line of this number, from 1, is the first that is no script line.
    #[error("line {0} is no script line")]
    BadLine(u32),
    /// There was no memory for the script.
    #[error("no memory for the script")]
    Memory,
}

impl From<AllocError> for ScriptFault {
    ghost use Rattle.std.specs.Prelude.{◌≡◌};
    ghost use Rattle.script_text.specs.declared.read.ScriptFault.TheVariants.{Memory};

    ghost from_gives = { λ _ e. e ≡ Memory };

    fn from(_: AllocError) -> ScriptFault {
        ScriptFault::Memory
    }
}

impl<T: Drop> From<AllocFailed<T>> for ScriptFault {
    ghost use Rattle.std.specs.Prelude.{◌≡◌};
    ghost use Rattle.script_text.specs.declared.read.ScriptFault.TheVariants.{Memory};

    ghost from_gives = { λ _ e. e ≡ Memory };

    fn from(_: AllocFailed<T>) -> ScriptFault {
        ScriptFault::Memory
    }
}

/// The verb of these words.
fn verb_of(alloc: Global, words: &[&[u8]]) -> Result<Option<Verb>, AllocError>
    ensures { IfOk result (λ found. found ≡ verb_of (slices words.now)) }
{
    match event_of(alloc, words)? {
        Some(event) => Ok(Some(Verb::One(event))),
        None => Ok(None),
    }
}

/// The command of these words, or `None`.
fn command_of(alloc: Global, words: &[&[u8]]) -> Result<Option<Command>, AllocError>
    ensures { IfOk result (λ found. found ≡ command_of (slices words.now)) }
{
    let [actor, words @ ..] = words else {
        return Ok(None);
    };
    let Some(actor) = number_of(actor, 1, 64) else {
        return Ok(None);
    };
    match verb_of(alloc, words)? {
        Some(verb) => Ok(Some(Command {
            actor: Actor(actor as u32),
            verb,
        })),
        None => Ok(None),
    }
}

/// What the line at this place says: a command, or nothing.
fn read_line(alloc: Global, place: u32, line: &[u8]) -> Result<Option<Command>, ScriptFault>
    ensures gives { Gives (λ said. said) result (read_line place line.now) }
    ensures few { IfOk result (λ _. place ≤ 1000000) }
{
    if place > 1_000_000 || line.len() > 262_144 {
        return Err(ScriptFault::BadLine(place));
    }
    if let [] | [b'#', ..] = line {
        return Ok(None);
    }
    let words = cut(alloc, line, b' ')?;
    match command_of(alloc, &words)? {
        Some(command) => Ok(Some(command)),
        None => Err(ScriptFault::BadLine(place)),
    }
}

/// How many bytes stand before the first line feed.
fn line_len(text: &[u8]) -> usize
    ensures place { result ≡ position_or_len (λ b. b == 10) text.now }
    ensures within { result ≤ length text.now }
{
    match text.iter().position(|b| *b == b'\n') {
        Some(len) => len,
        None => text.len(),
    }
}

/// The first line of a text, and what follows its line feed; `None` where no line is left.
fn next_line(text: &[u8]) -> Option<(&[u8], &[u8])>
    ensures lines { MatchOption result (lines_of text.now ≡ []) (λ next. lines_of text.now ≡ next.0.now ∷ lines_of next.1.now) }
    ensures less { MatchOption result (text.now ≡ []) (λ next. length next.1.now < length text.now) }
{
    if text.is_empty() {
        return None;
    }
    let (line, after) = text.split_at(line_len(text));
    match after {
        [] => Some((line, after)),
        [_, rest @ ..] => Some((line, rest)),
    }
}

/// Adds a command, where there is one.
fn push_said(commands: &mut Vec<Command>, said: Option<Command>) -> Result<(), ScriptFault>
    ensures ok { OnOk result (commands.new.items ≡ commands.old.items ++ option_to_list said) }
    ensures err { IfErr result (λ fault. fault ≡ ScriptFault.Memory) }
{
    if let Some(command) = said {
        commands.push(command)?;
    }
    Ok(())
}

/// The commands of a text.
fn commands_in(alloc: Global, text: &[u8]) -> Result<Vec<Command>, ScriptFault>
    ensures { Gives (λ v. v.items) result (read_script text.now) }
{
    let mut commands = Vec::new(alloc);
    let mut rest = text;
    let mut place = 1;
    while let Some((line, after)) = next_line(rest) {
        let said = read_line(alloc, place, line)?;
        push_said(&mut commands, said)?;
        rest = after;
        place += 1;
    }
    Ok(commands)
}

/// The script that a text spells: a line for each command, with empty lines and comments between them.
///
/// A text has at most 1,000,000 lines of at most 262,144 bytes without their line feeds. An `Err` is `BadLine` with
/// the number, from 1, of the first line that is no script line, or want of memory.
pub fn read_script(alloc: Global, text: &[u8]) -> Result<Script, ScriptFault>
    // What is read is spelled so, in commands that a script can spell.
    ensures found { IfOk result (λ script. SpellsScript text.now script × (list_all is_command script ≡ true)) }

    // What is spelled so is read, unless memory runs out.
    ensures only { (script : List Command) → SpellsScript text.now script → Gives (λ read. read) result (Ok script) }

    // So is what a script's commands are written as.
    ensures again { (script : List Command) → list_all is_command script ≡ true → length script ≤ 1000000 → text.now ≡ commands_text script → Gives (λ read. read) result (Ok script) }

    // Which fault it is.
    ensures exact { Gives (λ script. script) result (read_script text.now) }
{
    Ok(Script::from_vec(commands_in(alloc, text)?))
}
