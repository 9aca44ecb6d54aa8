//! The containers that are appended to.

ghost use Rattle.std.specs.Prelude.{◌≡◌, ◌≤◌, Some};
ghost use Rattle.volume_inside.specs.declared.chunk_rules.TheConstants.{DATA_ROW, HOT_CONTAINER};
ghost use Rattle.chunk_container.specs.Open.{open_of, with_open, none_open};

use volume_inside::{DATA_ROW, MAP_ROW};

/// The ids of the containers that are appended to, one of each kind at most: those of chunks and of maps have the kind of
/// their rows.
#[derive(Clone, Copy, Debug, PartialEq, Eq)]
pub struct OpenContainers {
    pub chunks: Option<u64>,
    pub maps: Option<u64>,
    pub hot: Option<u64>,
}

/// Where bytes go.
#[derive(Clone, Copy, Debug, PartialEq, Eq)]
pub struct Target {
    /// The id of a container.
    pub container: u64,
    /// In bytes, from the container's first one on.
    pub offset: u32,
    /// Whether the container is made for them.
    pub made: bool,
}

impl OpenContainers {
    /// No container is open.
    pub fn none() -> OpenContainers
        ensures { result ≡ none_open }
    {
        OpenContainers {
            chunks: None,
            maps: None,
            hot: None,
        }
    }

    /// The open container of a kind.
    pub fn of(&self, kind: u8) -> Option<u64>
        requires least { DATA_ROW ≤ kind }
        requires most { kind ≤ HOT_CONTAINER }
        ensures { result ≡ open_of self.now kind }
    {
        match kind {
            DATA_ROW => self.chunks,
            MAP_ROW => self.maps,
            _ => self.hot,
        }
    }

    /// Makes a container the open one of its kind.
    pub(crate) fn set(&mut self, kind: u8, container: u64)
        requires least { DATA_ROW ≤ kind }
        requires most { kind ≤ HOT_CONTAINER }
        ensures { self.new ≡ with_open kind (Some container) self.old }
    {
        match kind {
            DATA_ROW => self.chunks = Some(container),
            MAP_ROW => self.maps = Some(container),
            _ => self.hot = Some(container),
        }
    }
}
