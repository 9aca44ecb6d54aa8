// The states of clusters.
ghost use Rattle.std.specs.Prelude.{◌≡◌, ◌<◌, length};

use cluster_space::{Memory, Space, State};
use row_files::{Answers, Asked, RowFault, or_memory};
use std::alloc::{AllocError, Global};

/// A space and how many clusters it has.
#[derive(Drop)]
struct Clusters {
    space: Space,
    count: u32,
    ghost counted: { length space ≡ count },
}

impl Clusters {
    fn new(alloc: Global, count: u32) -> Result<Clusters, Memory> {
        let space = Space::new(alloc, count)?;
        Ok(Clusters { space, count })
    }

    fn state(&self, cluster: u32) -> Option<State> {
        if cluster < self.count {
            Some(self.space.state(cluster))
        } else {
            None
        }
    }

    /// Turns the state of a cluster, where a call does that.
    fn turn(&mut self, cluster: u32, to: State) -> bool {
        if cluster >= self.count {
            return false;
        }
        match (self.space.state(cluster), to) {
            (State::Free, State::Used) => self.space.mark_used(cluster),
            (State::Used, State::Deferred) => self.space.defer(cluster),
            (State::Deferred, State::Free) => self.space.release(cluster),
            _ => return false,
        }
        true
    }

    fn take(&mut self) -> Option<u32> {
        match self.space.take() {
            Some(cluster) => Some(cluster),
            None => None,
        }
    }

    fn release_all(&mut self) {
        self.space.release_all();
    }

    /// Takes clusters until there is none, and answers how many there were.
    fn take_all(&mut self) -> u64 {
        let mut taken = 0u64;
        for _ in 0..self.count {
            if self.take().is_some() {
                taken = taken.saturating_add(1);
            }
        }
        taken
    }
}

fn fresh(alloc: Global, count: u32) -> Result<Clusters, RowFault> {
    or_memory(Clusters::new(alloc, count))
}

/// Answers the lines of a row about one space.
pub fn answer(alloc: Global, asked: &[u8], answers: &mut Answers) -> Result<(), RowFault> {
    let mut clusters = fresh(alloc, 0)?;
    for line in asked.split(|byte| *byte == b'\n') {
        let mut words = Asked::new(line);
        match words.word() {
            b"" => {}
            b"new" => clusters = fresh(alloc, words.short_number()?)?,
            b"use" => turned(answers, &mut clusters, words, State::Used)?,
            b"defer" => turned(answers, &mut clusters, words, State::Deferred)?,
            b"release" => turned(answers, &mut clusters, words, State::Free)?,
            b"release-all" => clusters.release_all(),
            b"take" => taken(answers, clusters.take())?,
            b"take-all" => answers.number(clusters.take_all())?,
            b"free" => answers.number(u64::from(clusters.space.free_count()))?,
            b"deferred" => answers.number(u64::from(clusters.space.deferred_count()))?,
            b"states" => states(answers, &clusters)?,
            _ => return Err(RowFault::NoQuestion),
        }
    }
    Ok(())
}

fn turned(
    answers: &mut Answers,
    clusters: &mut Clusters,
    mut asked: Asked<'_>,
    to: State,
) -> Result<(), RowFault> {
    let cluster = asked.short_number()?;
    Ok(answers.line(if clusters.turn(cluster, to) {
        "ok"
    } else {
        "no"
    })?)
}

fn taken(answers: &mut Answers, cluster: Option<u32>) -> Result<(), AllocError> {
    match cluster {
        Some(_) => answers.line("taken"),
        None => answers.line("none"),
    }
}

/// Says the states of all clusters, a letter each.
fn states(answers: &mut Answers, clusters: &Clusters) -> Result<(), AllocError> {
    for cluster in 0..clusters.count {
        answers.part(match clusters.state(cluster) {
            Some(State::Free) => b"F",
            Some(State::Used) => b"U",
            Some(State::Deferred) => b"D",
            None => b"?",
        })?;
    }
    answers.line("")
}
