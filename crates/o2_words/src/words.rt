// The words of a command line, read.
ghost use Rattle.std.specs.Prelude.{◌≡◌, ◌⊎◌, ◌↔◌, List, ℕ, codes, IsTrue, IfOk, MatchOption, MatchResult};
ghost use Rattle.o2_words.specs.AskedWords.{IsAsked};
ghost use Rattle.o2_words.specs.CommandLine.{texts, IsLabelLine, IsTunefs, IsDebugfs, IsNotBuilt, RefusesWords, device_of};
ghost use Rattle.o2_words.specs.Commands.{Says, ReadsAsked};
ghost use Rattle.o2_words.specs.QueryWords.{Asks, IsForLater};

use crate::command::{Command, WordFault};
use crate::form::FORMS;
use crate::fsck_line::{last_place, read_fsck};
use crate::place::farthest;
use crate::query_word::{Asked, read_query_word};
use crate::{Answer, Kind, Name};
use o2_debug::{PathQuery, Query};
use o2_dir::PathText;
use o2_view::Bytes;
use std::alloc::{AllocError, Global};

// The place of the device's name, in each command line of `tunefs` and of `debugfs`.
const DEVICE: u32 = 3;

/// Reads the words of a command line, or tells why they are not served.
pub fn read_words(alloc: Global, words: &[String]) -> Result<Command, WordFault>
    ensures { MatchResult result (λ command. Says command (texts words.now)) (λ fault. RefusesWords (texts words.now) fault) }
{
    if is_not_built(words) {
        return Err(WordFault::Later);
    }
    if let Some(label) = read_label(words) {
        return Ok(Command::Label {
            label: Bytes::from(Vec::from_slice(alloc, label.as_bytes())?),
            device: DEVICE,
        });
    }
    if let Some(asked) = read_asked(words) {
        return match query_of(alloc, asked) {
            Ok(query) => Ok(Command::Debug {
                query,
                device: DEVICE,
            }),
            Err(fault) => Err(fault),
        };
    }
    match read_fsck(words) {
        Some(Answer::No) => {
            return Ok(Command::Check {
                device: last_place(words),
            });
        }
        Some(Answer::Yes) => return Err(WordFault::Later),
        None => {}
    }
    let place = farthest(alloc, &FORMS, words)?;
    Err(WordFault::Usage {
        place: place as u32,
    })
}

// The label of a line `tunefs -L LABEL DEVICE`.
fn read_label(words: &[String]) -> Option<&str>
    ensures { MatchOption result (IsTunefs (texts words.now) → ⊥) (λ label. IsLabelLine label.now (device_of (texts words.now)) (texts words.now)) }
{
    let [tool, option, label, device] = words else {
        return None;
    };
    if Name::Tunefs.is(tool.as_str())
        && Name::Label.is(option.as_str())
        && Kind::Device.fits(device.as_str())
    {
        Some(label.as_str())
    } else {
        None
    }
}

// What a line `debugfs -R WORD DEVICE` asks for.
fn read_asked(words: &[String]) -> Option<Asked<'_>>
    ensures { MatchOption result (IsDebugfs (texts words.now) → ⊥) (λ asked. ReadsAsked asked (texts words.now)) }
{
    let [tool, option, word, device] = words else {
        return None;
    };
    if Name::Debugfs.is(tool.as_str())
        && Name::Ask.is(option.as_str())
        && Kind::Device.fits(device.as_str())
    {
        read_query_word(word.as_str())
    } else {
        None
    }
}

// The query that was asked, if it is answered.
fn query_of(alloc: Global, asked: Asked<'_>) -> Result<Query, WordFault>
    ensures { MatchResult result (λ query. (word : List ℕ) → IsAsked asked.entry word → Asks query word) (λ fault. (fault ≡ WordFault.NoMemory) ⊎ ((fault ≡ WordFault.Later) × (asked.entry ≡ Asked.Later))) }
{
    match asked {
        Asked::Stats => Ok(Query::Stats),
        Asked::SlotMap => Ok(Query::SlotMap),
        Asked::Ls(path) => Ok(Query::At(PathQuery::Ls {
            path: path_text(alloc, path)?,
        })),
        Asked::Stat(path) => Ok(Query::At(PathQuery::Stat {
            path: path_text(alloc, path)?,
        })),
        Asked::Cat(path) => Ok(Query::At(PathQuery::Cat {
            path: path_text(alloc, path)?,
        })),
        Asked::Refcount(path) => Ok(Query::At(PathQuery::Refcount {
            path: path_text(alloc, path)?,
        })),
        Asked::Later => Err(WordFault::Later),
    }
}

fn path_text(alloc: Global, path: &str) -> Result<PathText, AllocError>
    ensures { IfOk result (λ text. text ≡ path.now) }
{
    Ok(PathText::from(String::from_str(alloc, path)?))
}

// Whether the first words are those of a line that a later version serves.
fn is_not_built(words: &[String]) -> bool
    ensures { IsTrue result ↔ IsNotBuilt (texts words.now) }
{
    match words {
        [] => false,
        [tool] => is_unbuilt_tool(tool.as_str()),
        [tool, option, ..] => {
            is_unbuilt_tool(tool.as_str())
                || (Name::Tunefs.is(tool.as_str()) && is_unbuilt_option(option.as_str()))
        }
    }
}

fn is_unbuilt_tool(word: &str) -> bool
    ensures { IsTrue result ↔ ((word.now ≡ codes "mkfs") ⊎ (word.now ≡ codes "sample")) }
{
    Name::Mkfs.is(word) || Name::Sample.is(word)
}

fn is_unbuilt_option(word: &str) -> bool
    ensures { IsTrue result ↔ ((word.now ≡ codes "-N") ⊎ (word.now ≡ codes "-J") ⊎ (word.now ≡ codes "-S")) }
{
    Name::Slots.is(word) || Name::Journals.is(word) || Name::Size.is(word)
}
