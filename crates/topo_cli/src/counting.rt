//! Lines of counts, and of sums of walks.

ghost use Rattle.std.specs.Prelude.{◌≡◌, [], ◌∷◌, ◌++◌, flat_map, IfOk, OnOk, map, string_bytes};
ghost use Rattle.topo_base.specs.Script.{Item, item_text};
ghost use Rattle.topo_base.specs.Script.Item.{Number};
ghost use Rattle.navigate.specs.Bound.{served_map};
ghost use Rattle.topo_cli.specs.Text.{counts_line, five, number_line};

use pemb_file::{Counts, Served};
use query_text::number_item;
use std::alloc::{AllocError, Global};
use topo_base::IdNumber;

/// Appends a number behind a space.
pub fn append_number(text: &mut Vec<u8>, number: IdNumber) -> Result<(), AllocError>
    ensures { OnOk result (text.new.items ≡ text.old.items ++ item_text (Number number)) }
{
    text.extend_from_slice(number_item(number).as_slice())
}

/// A word and five counts.
fn line_of_numbers(alloc: Global, word: &str, counts: Counts) -> Result<Vec<u8>, AllocError>
    ensures { IfOk result (λ line. line.items ≡ word.now ++ flat_map item_text (map Item.Number (five counts))
        ++ 10 ∷ []) }
{
    let mut line = Vec::new(alloc);
    line.extend_from_slice(word.as_bytes())?;
    append_number(&mut line, IdNumber::from(counts.nodes))?;
    append_number(&mut line, IdNumber::from(counts.edges))?;
    append_number(&mut line, IdNumber::from(counts.faces))?;
    append_number(&mut line, IdNumber::from(counts.components))?;
    append_number(&mut line, IdNumber::from(counts.regions))?;
    line.push(b'\n')?;
    Ok(line)
}

/// A word and the five counts of the map of a file.
pub fn line_of_counts(alloc: Global, word: &str, served: &Served<'_>) -> Result<Vec<u8>, AllocError>
    ensures { IfOk result (λ line. line.items ≡ counts_line word.now (served_map served.now)) }
{
    line_of_numbers(alloc, word, served.counts())
}

/// A word and one number.
pub fn line_of_number(alloc: Global, word: &str, number: u64) -> Result<String, AllocError>
    ensures { IfOk result (λ line. string_bytes line ≡ number_line word.now number) }
{
    format!(in alloc; "{word} {number}\n")
}
