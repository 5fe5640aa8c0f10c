//! Finds the documents for which a journal lacks requested leaves.
ghost use Rattle.std.specs.Prelude.{◌≡◌, ◌++◌, ◌||◌, [], OnOk, codes, is_some};
ghost use Rattle.journal_lines.specs.Entries.{entry_in, entry_view};
ghost use Rattle.journal_lines.specs.Texts.{after};
ghost use Rattle.journal_tasks.specs.Confirming.{is_told, lacks_text, lacks_view, noted, noted_all, noted_by, texts_in, without};
ghost use Rattle.journal_tasks.specs.Stating.{put_at};

use indexmap::IndexMap;
use journal_lines::{Entry, entry_of};
use json::Scratch;
use std::alloc::{AllocError, Global};

/// The last `lacks` lines of documents, by document id.
type Lines = IndexMap<String, Vec<u8>>;

/// A table of the documents for which a journal lacks requested leaves. For each of these documents, the table has the
/// document's last `lacks` line. If a `state` line of a document follows its `lacks` line in the journal, the table
/// omits the document. A `lacks` line says that not all requested leaves of a document were received.
#[derive(Drop)]
pub(crate) struct Lacks {
    alloc: Global,
    scratch: Scratch,
    lines: Lines,
}

/// Whether a line begins as a `state` line does.
fn is_state(line: &[u8]) -> bool
    ensures { result ≡ is_some (after (codes "state ") line.now) }
{
    line.strip_prefix(b"state ".as_slice()).is_some()
}

/// Whether a line begins as a `lacks` line does.
fn is_lacks(line: &[u8]) -> bool
    ensures { result ≡ is_some (after (codes "lacks ") line.now) }
{
    line.strip_prefix(b"lacks ".as_slice()).is_some()
}

/// Whether a line begins as a `state` line or a `lacks` line does.
pub(crate) fn is_told(line: &[u8]) -> bool
    ensures { result ≡ is_told line.now }
{
    is_state(line) || is_lacks(line)
}

/// Removes the line about a document from the table, if the table has a line about this document.
fn remove(lines: &mut Lines, id: &str)
    ensures { lacks_view lines.new ≡ without id.now (lacks_view lines.old) }
{
    let _line = lines.shift_remove(id);
}

/// Removes the line about a document from the table, and adds a new line about this document at the end of the table.
fn put(alloc: Global, lines: &mut Lines, id: &str, line: &[u8]) -> Result<(), AllocError>
    ensures { OnOk result (lacks_view lines.new ≡ put_at (without id.now (lacks_view lines.old)) id.now line.now) }
{
    remove(lines, id);
    let line = Vec::from_slice(alloc, line)?;
    let key = String::from_str(alloc, id)?;
    lines.insert(key, line)?;
    Ok(())
}

/// Reads a `state` line or a `lacks` line of a journal. A `state` line removes the `lacks` line of its document from the
/// table. A `lacks` line is added at the end of the table, and an earlier `lacks` line of its document is removed.
fn note_entry(
    alloc: Global,
    lines: &mut Lines,
    entry: &Entry,
    line: &[u8],
) -> Result<(), AllocError>
    ensures { OnOk result (lacks_view lines.new ≡ noted_by line.now (entry_view entry.now) (lacks_view lines.old)) }
{
    match entry {
        Entry::State(leaves) => {
            remove(lines, leaves.id.as_str());
            Ok(())
        }
        Entry::Lacks(leaves) => put(alloc, lines, leaves.id.as_str(), line),
        Entry::Leaf(_) | Entry::Wrong => Ok(()),
    }
}

impl Lacks {
    /// Returns a table that has no `lacks` lines.
    pub(crate) fn new(alloc: Global) -> Lacks
        ensures { lacks_view result.lines ≡ [] }
    {
        Lacks {
            alloc,
            scratch: Scratch::new(alloc),
            lines: IndexMap::new(alloc),
        }
    }

    /// Reads a line of a confirmed block. If the table is empty, only a `lacks` line is parsed.
    fn note(&mut self, line: &[u8]) -> Result<(), AllocError>
        ensures { OnOk result (lacks_view self.new.lines ≡ noted (lacks_view self.old.lines) line.now) }
    {
        if !is_lacks(line) && self.lines.is_empty() {
            return Ok(());
        }
        let entry = entry_of(self.alloc, &mut self.scratch, line)?;
        note_entry(self.alloc, &mut self.lines, &entry, line)?;
        Ok(())
    }

    /// Reads the given lines of a confirmed block.
    pub(crate) fn note_all(&mut self, lines: &[Vec<u8>]) -> Result<(), AllocError>
        ensures { OnOk result (lacks_view self.new.lines ≡ noted_all (texts_in lines.now) (lacks_view self.old.lines)) }
    {
        for line in lines {
            self.note(line.as_slice())?;
        }
        Ok(())
    }

    /// Appends all lines of the table to the text.
    pub(crate) fn push(&self, text: &mut Vec<u8>) -> Result<(), AllocError>
        ensures { OnOk result (text.new.items ≡ text.old.items ++ lacks_text (lacks_view self.now.lines)) }
    {
        for index in 0..self.lines.len() {
            let Some((_id, line)) = self.lines.get_index(index) else {
                return Ok(());
            };
            text.extend_from_slice(line.as_slice())?;
            text.push(b'\n')?;
        }
        Ok(())
    }
}
