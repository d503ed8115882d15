//! What the words of the command line ask for.

ghost use Rattle.std.specs.Prelude.{◌≡◌, map, option_map, string_bytes};
ghost use Rattle.topo_cli.specs.Words.{form, form_of, form_of_four, form_of_three, form_of_two, grid_size, hops_of};

use topo_base::{FaceId, IdNumber, RegionId, read_id, read_positive};

/// What the words ask for.
#[derive(Clone, Copy, Debug, PartialEq, Eq)]
pub enum Command<'a> {
    /// Answers to the script, from the tables of a folder.
    Ask {
        dir: &'a str,
    },
    /// The image of a folder's tables, written to a file.
    Build {
        dir: &'a str,
        file: &'a str,
    },
    /// Answers to the script, from a built file.
    Query {
        file: &'a str,
    },
    /// Whether a file is lawful.
    Check {
        file: &'a str,
    },
    /// The sums of the walks over the grid of a size.
    Trial {
        size: u32,
    },
    /// A shortest walk from one face to another, in a built file.
    Hops {
        file: &'a str,
        from: FaceId,
        to: FaceId,
    },
    /// The outline of a region, in a built file.
    Border {
        file: &'a str,
        region: RegionId,
    },
    /// The file of form 2 that stands for the map of a built file, written to a file.
    Upgrade {
        old: &'a str,
        new: &'a str,
    },
    /// The tables of a built file, written to a folder.
    Dump {
        file: &'a str,
        dir: &'a str,
    },
}

/// The most squares along a side of a grid.
const LARGEST_GRID: IdNumber = 1000;

/// The size of a grid.
fn read_grid_size(text: &str) -> Option<u32>
    ensures { result ≡ grid_size text.now }
{
    match read_positive(text.as_bytes()) {
        Some(size) if size <= LARGEST_GRID => Some(size as u32),
        _ => None,
    }
}

/// A command and one name.
fn command_of_two<'a>(word: &str, name: &'a str) -> Option<Command<'a>>
    ensures { option_map form_of result ≡ form_of_two word.now name.now }
{
    if name.is_empty() {
        None
    } else if word == "ask" {
        Some(Command::Ask { dir: name })
    } else if word == "query" {
        Some(Command::Query { file: name })
    } else if word == "check" {
        Some(Command::Check { file: name })
    } else if word == "trial" {
        match read_grid_size(name) {
            Some(size) => Some(Command::Trial { size }),
            None => None,
        }
    } else {
        None
    }
}

/// A command and two words more.
fn command_of_three<'a>(word: &str, name: &'a str, other: &'a str) -> Option<Command<'a>>
    ensures { option_map form_of result ≡ form_of_three word.now name.now other.now }
{
    if name.is_empty() || other.is_empty() {
        None
    } else if word == "build" {
        Some(Command::Build {
            dir: name,
            file: other,
        })
    } else if word == "upgrade" {
        Some(Command::Upgrade {
            old: name,
            new: other,
        })
    } else if word == "dump" {
        Some(Command::Dump {
            file: name,
            dir: other,
        })
    } else if word == "border" {
        match read_positive(other.as_bytes()) {
            Some(region) => Some(Command::Border {
                file: name,
                region: RegionId(region),
            }),
            None => None,
        }
    } else {
        None
    }
}

/// A file and two faces in it.
fn hops<'a>(file: &'a str, from: &str, to: &str) -> Option<Command<'a>>
    ensures { option_map form_of result ≡ hops_of file.now from.now to.now }
{
    let from = FaceId(read_id(from.as_bytes())?);
    let to = FaceId(read_id(to.as_bytes())?);
    Some(Command::Hops { file, from, to })
}

/// A command, a name and two ids.
fn command_of_four<'a>(word: &str, file: &'a str, from: &str, to: &str) -> Option<Command<'a>>
    ensures { option_map form_of result ≡ form_of_four word.now file.now from.now to.now }
{
    if word == "hops" && !file.is_empty() {
        hops(file, from, to)
    } else {
        None
    }
}

/// The command of words that are of a form.
pub fn command_of(words: &[String]) -> Option<Command<'_>>
    ensures { option_map form_of result ≡ form (map string_bytes words.now) }
{
    match words {
        [word, name] => command_of_two(word.as_str(), name.as_str()),
        [word, name, other] => command_of_three(word.as_str(), name.as_str(), other.as_str()),
        [word, file, from, to] => {
            command_of_four(word.as_str(), file.as_str(), from.as_str(), to.as_str())
        }
        _ => None,
    }
}
