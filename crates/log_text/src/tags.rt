//! The tags of the lines of a log's text.
ghost use Rattle.std.specs.Prelude.{◌≡◌, ◌≤◌, ◌+◌, ◌∷◌, ◌++◌, [], ℕ, List, IfOk, OnOk, length, max};
ghost use Rattle.run_lines.specs.Tags.{before_tag};
ghost use Rattle.log_text.specs.Tags.{AreTagsOf, start_at, tag_in, tag_of};
ghost use Rattle.log_text.specs.Internal.TagLists.{HoldsTags};

use crate::origins::{Origins, read_origins};
use line_text::next_line;
use run_lines::without_tag;
use std::alloc::Global;
use tso_ops::OutOfMemory;

/// What reports repeat of a text's lines: their tags, for which no memory is taken where no line has one, and from which of them its
/// operations come.
#[derive(Drop)]
pub struct LineTags {
    /// Of lines 1, 2, .. to the last that has a tag, where its tag begins, or would: it ends where that of the next line begins.
    starts: Vec<usize>,
    /// The tags, one after another.
    bytes: Vec<u8>,
    /// From which lines the operations come.
    pub origins: Origins,
}

/// The tags of the lines of a text, and from which of them its operations come. OutOfMemory where an allocation was refused.
pub fn read_tags(alloc: Global, text: &[u8]) -> Result<LineTags, OutOfMemory>
    ensures { IfOk result (AreTagsOf text.now) }
{
    let mut tags = LineTags {
        starts: Vec::new(alloc),
        bytes: Vec::new(alloc),
        origins: read_origins(alloc, text)?,
    };
    let mut rest = text;
    let mut index: usize = 0;
    'lines: loop {
        let Some((line, after)) = next_line(rest) else {
            tags.take(index, rest)?;
            return Ok(tags);
        };
        tags.take(index, line)?;
        rest = after;
        index += 1;
    }
}

impl LineTags {
    /// Takes the tag of the next line, of this index from 0, where it has one. OutOfMemory where an allocation was refused.
    fn take(&mut self, index: usize, line: &[u8]) -> Result<(), OutOfMemory>
        ensures holds { OnOk result ((lines : List (List ℕ)) → length lines ≡ index → HoldsTags self.old lines → HoldsTags self.new (lines ++ line.now ∷ [])) }
        ensures origins { OnOk result (self.new.origins ≡ self.old.origins) }
    {
        let tag = tag_of(line);
        if tag.is_empty() {
            return Ok(());
        }
        self.begin(index)?;
        self.bytes.extend_from_slice(tag)?;
        Ok(())
    }

    /// Notes where the tag of the line of this index begins, and those of all lines before it.
    fn begin(&mut self, index: usize) -> Result<(), OutOfMemory>
        ensures bytes { OnOk result (self.new.bytes ≡ self.old.bytes) }
        ensures origins { OnOk result (self.new.origins ≡ self.old.origins) }
        ensures count { OnOk result (length self.new.starts.items ≡ max (index + 1) (length self.old.starts.items)) }
        ensures same { OnOk result ((k : ℕ) → start_at self.new k ≡ start_at self.old k) }
    {
        while self.starts.len() <= index {
            self.starts.push(self.bytes.len())?;
        }
        Ok(())
    }

    /// Where the tag of the line of this index begins, or would.
    fn start_at(&self, index: usize) -> usize
        ensures { result ≡ start_at self.now index }
    {
        if index < self.starts.len() {
            self.starts[index]
        } else {
            self.bytes.len()
        }
    }

    /// The tag of the line of this number, from 1: nothing where it has none.
    pub fn tag_of_line(&self, line: usize) -> &[u8]
        ensures { result.now ≡ tag_in self.now line }
    {
        let index = line.saturating_sub(1);
        let start = self.start_at(index);
        let end = self.start_at(index + 1);
        if start <= end && end <= self.bytes.len() {
            &self.bytes[start..end]
        } else {
            &[]
        }
    }
}

/// The tag of a line, with the space before it: nothing where it has none.
fn tag_of(line: &[u8]) -> &[u8]
    ensures { result.now ≡ tag_of line.now }
{
    &line[untagged_len(line)..]
}

/// How many bytes stand before the tag of a line: all, where it has none.
fn untagged_len(line: &[u8]) -> usize
    ensures count { result ≡ length (before_tag line.now) }
    ensures within { result ≤ length line.now }
{
    without_tag(line).len()
}
