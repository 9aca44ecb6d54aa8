// Acknowledgements of durable calls.
ghost use Rattle.std.specs.Prelude.{◌≡◌, ◌++◌, ◌<◌, ◌≤◌, slice_get, option_map, vec_len, vec_capacity};
ghost use Rattle.ddpsh.specs.Acks.{ack_list};

use std::marker::Model;

/// A moment of the disk at which all calls so far, refused ones among them, were durable, and how many these were.
#[derive(Clone, Copy, Debug, PartialEq, Eq)]
pub struct Ack {
    pub moment: u64,
    pub calls: u64,
}

/// The acknowledgements of a run, the first one first. Contracts see the list of them.
#[derive(Drop)]
pub struct Acks {
    list: Vec<Ack>,
}

impl Model for Acks {
    ghost use Rattle.std.specs.Prelude.{List};
    ghost use Rattle.ddpsh.specs.declared.acks.Ack.{Ack};

    ghost Value = { List Ack };

    ghost view = { λ a. a.list.items };
}

impl Acks {
    pub(crate) fn from_list(list: Vec<Ack>) -> Acks
        ensures { result ≡ list.items }
    {
        Acks { list }
    }

    /// The k-th, counted from 0, or None behind the last.
    pub fn at(&self, k: usize) -> Option<&Ack>
        ensures { option_map (λ ack. ack.now) result ≡ slice_get self.now k }
    {
        self.list.get(k)
    }
}

/// Keeps an acknowledgement, if there is one. Room was made for it.
pub(crate) fn keep(acks: &mut Vec<Ack>, ack: Option<Ack>)
    requires room { vec_len acks.old < vec_capacity acks.old }
    ensures { acks.new.items ≡ acks.old.items ++ ack_list ack }
{
    if let Some(ack) = ack {
        acks.push(ack).unwrap();
    }
}
