//! Lists of texts.

ghost use Rattle.std.specs.Prelude.{◌≡◌, ◌≤◌, ◌<◌, ◌+◌, ◌*◌, ◌++◌, ◌∷◌, ◌↔◌, [], length, slice_index_or, OnOk, OnErr, IsErrOf};
ghost use Rattle.table_records.specs.declared.limits.TheConstants.{MOST_LIST_BYTES};
ghost use Rattle.table_records.specs.Texts.{list_bytes};

use crate::Memory;
use crate::limits::MOST_LIST_BYTES;
use std::alloc::Global;
use std::marker::Model;
use thiserror::Error;

/// One text: its bytes.
#[derive(Drop)]
struct Text {
    bytes: Vec<u8>,
}

impl Model for Text {
    ghost use Rattle.std.specs.Prelude.{ℕ, List};

    ghost Value = { List ℕ };

    ghost view = { λ text. text.bytes.items };
}

/// Texts in the order in which they came, which contracts see as a list of lists of bytes. All of them, each with
/// its length of two bytes, take at most [`MOST_LIST_BYTES`].
#[derive(Drop)]
pub struct Texts {
    alloc: Global,
    texts: Vec<Text>,
    taken: usize,
}

impl Model for Texts {
    ghost use Rattle.std.specs.Prelude.{◌≡◌, ◌≤◌, ℕ, List};
    ghost use Rattle.table_records.specs.declared.limits.TheConstants.{MOST_LIST_BYTES};
    ghost use Rattle.table_records.specs.Texts.{list_bytes};

    ghost Value = { List (List ℕ) };

    ghost view = { λ a. a.texts.items };

    ghost invariant = { λ a. (a.taken ≡ list_bytes a.texts.items) × (list_bytes a.texts.items ≤ MOST_LIST_BYTES) };
}

/// Why a text was not taken.
#[derive(Clone, Copy, Debug, PartialEq, Eq, Error)]
pub enum TextsFault {
    /// The list would take more than [`MOST_LIST_BYTES`].
    #[error("the list would take more than 8192 bytes")]
    Full,
    #[error("no memory")]
    Memory,
}

impl Texts {
    /// No text. This takes no memory.
    pub fn new(alloc: Global) -> Texts
        ensures { result ≡ [] }
    {
        Texts {
            alloc,
            texts: Vec::new(alloc),
            taken: 0,
        }
    }

    /// How many texts there are.
    pub fn count(&self) -> usize
        ensures count { result ≡ length self.now }
        ensures most { 2 * result ≤ MOST_LIST_BYTES }
    {
        self.texts.len()
    }

    /// The bytes that the texts take, each with its length.
    pub fn byte_count(&self) -> usize
        ensures sum { result ≡ list_bytes self.now }
        ensures most { result ≤ MOST_LIST_BYTES }
    {
        self.taken
    }

    /// The bytes of a text, counted from 0.
    pub fn at(&self, place: usize) -> &[u8]
        requires { place < length self.now }
        ensures text { result.now ≡ slice_index_or self.now place [] }
        ensures short { length result.now + 2 ≤ MOST_LIST_BYTES }
    {
        &self.texts[place].bytes
    }

    /// Adds a copy of a text at the end, or leaves the list as it was. The fault is `Full` exactly where the text
    /// and its length pass the room that is left.
    pub fn push(&mut self, text: &[u8]) -> Result<(), TextsFault>
        ensures taken { OnOk result (self.new ≡ self.old ++ text.now ∷ []) }
        ensures refused { OnErr result (self.new ≡ self.old) }
        ensures full { IsErrOf result TextsFault.Full ↔ (MOST_LIST_BYTES < list_bytes self.old + (length text.now + 2)) }
    {
        if text.len() > MOST_LIST_BYTES || self.taken + 2 + text.len() > MOST_LIST_BYTES {
            return Err(TextsFault::Full);
        }
        match self.push_fitting(text) {
            Ok(()) => Ok(()),
            Err(Memory) => Err(TextsFault::Memory),
        }
    }

    /// Adds a copy of a text that fits, or leaves the list as it was.
    pub fn push_fitting(&mut self, text: &[u8]) -> Result<(), Memory>
        requires { list_bytes self.old + (length text.now + 2) ≤ MOST_LIST_BYTES }
        ensures taken { OnOk result (self.new ≡ self.old ++ text.now ∷ []) }
        ensures refused { OnErr result (self.new ≡ self.old) }
    {
        let copy = Text {
            bytes: text.to_vec(self.alloc)?,
        };
        self.texts.push(copy)?;
        self.taken += text.len() + 2;
        Ok(())
    }
}
