// A plain volume in memory serves a script.
use crate::items::{Item, items_of};
use crate::replies::{print_ok, print_reply};
use plain_volume::{Call, Name, Reference, Reply};
use row_files::{Answers, RowFault, or_memory};
use std::alloc::Global;

/// More files than a list may have.
const MOST_FILES: u64 = 1_000_000;

/// A plain volume, and what it has told.
#[derive(Drop)]
pub struct Plain {
    alloc: Global,
    volume: Reference,
    /// The answers to the last script.
    pub output: Answers,
    /// How many there are.
    pub lines: u64,
    /// 1 where one of them is a refusal, else 0.
    pub status: u64,
}

impl Plain {
    pub fn new(alloc: Global) -> Plain {
        Plain {
            alloc,
            volume: Reference::new(alloc),
            output: Answers::new(alloc),
            lines: 0,
            status: 0,
        }
    }

    /// The volume's reply. It says nothing more, so that no caller reads the contract of a step.
    fn reply(&mut self, call: &Call) -> Result<Reply, RowFault> {
        or_memory(self.volume.apply(call))
    }

    fn answer_call(&mut self, call: &Call) -> Result<(), RowFault> {
        let reply = self.reply(call)?;
        if let Reply::Refused(_) = &reply {
            self.status = 1;
        }
        Ok(print_reply(&mut self.output, &reply)?)
    }

    fn next_name(&mut self, after: Option<Name>) -> Result<Option<Name>, RowFault> {
        match self.reply(&Call::Next(after))? {
            Reply::Name(name) => Ok(name),
            _ => Err(RowFault::NoQuestion),
        }
    }

    fn length_of(&mut self, name: &Name) -> Result<u64, RowFault> {
        match self.reply(&Call::Stat(or_memory(name.copy(self.alloc))?))? {
            Reply::Length(length) => Ok(length),
            _ => Err(RowFault::NoQuestion),
        }
    }

    /// Prints each file, and answers how many there are.
    fn print_files(&mut self, listed: &mut Answers) -> Result<u64, RowFault> {
        let mut last = None;
        for count in 0..MOST_FILES {
            let Some(name) = self.next_name(last)? else {
                return Ok(count);
            };
            listed.part_number(self.length_of(&name)?)?;
            listed.part(b" ")?;
            listed.bytes(name.as_bytes())?;
            last = Some(name);
        }
        Err(RowFault::NoQuestion)
    }

    fn answer_list(&mut self) -> Result<(), RowFault> {
        let mut listed = Answers::new(self.alloc);
        let count = self.print_files(&mut listed)?;
        print_ok(&mut self.output, count)?;
        Ok(self.output.part(listed.text())?)
    }

    fn answer(&mut self, item: &Item) -> Result<(), RowFault> {
        self.lines = self.lines.saturating_add(1);
        match item {
            Item::Call(call) => self.answer_call(call),
            Item::List => self.answer_list(),
            Item::Refused(told) => {
                self.status = 1;
                Ok(self.output.part(told)?)
            }
        }
    }

    fn begin(&mut self) {
        self.output.clear();
        self.lines = 0;
        self.status = 0;
    }

    /// Answers one item, with nothing told before.
    pub fn step(&mut self, item: &Item) -> Result<(), RowFault> {
        self.begin();
        self.answer(item)
    }

    fn answer_all(&mut self, items: &[Item]) -> Result<(), RowFault> {
        self.begin();
        for item in items {
            self.answer(item)?;
        }
        Ok(())
    }

    /// What these lines are told.
    pub fn told(&mut self, items: &[Item]) -> Result<Vec<u8>, RowFault> {
        self.answer_all(items)?;
        Ok(self.output.text().to_vec(self.alloc)?)
    }

    /// Serves a script, whose answers then stand in `output`.
    pub fn serve(&mut self, script: &[u8]) -> Result<(), RowFault> {
        let items = items_of(self.alloc, script)?;
        self.answer_all(&items)
    }
}
