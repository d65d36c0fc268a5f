// The rules of a roll once more, over plain lists.
use self::calls::{Answer, Call};
use roll::{Entry, Refused, verdict};
use std::alloc::{AllocError, Global};

mod calls;
mod lists;
mod tests;

#[derive(Drop)]
struct Plain {
    // oldest first
    entries: Vec<Entry>,
    held: Vec<u8>,
    lever: bool,
}

// Once more, and not the roll's own: what it is to be compared with must not share its mistakes.
fn in_range(task: u8) -> bool {
    (1..=127).contains(&task)
}

impl Plain {
    fn new(heap: Global, lever: bool) -> Plain {
        Plain {
            entries: Vec::new(heap),
            held: Vec::new(heap),
            lever,
        }
    }

    // As `ask` of the tests does a roll: Plain is none, since of it nothing is proved and it allocates.
    fn ask(&mut self, call: Call) -> Result<Answer, AllocError> {
        Ok(match call {
            Call::Add(task, level) => Answer::Done(self.add(task, level)?),
            Call::End(task) => Answer::Done(self.end(task)),
            Call::Clear(task) => Answer::Number(self.clear(task)),
            Call::Sleep(task) => Answer::Done(self.mark(task, true)),
            Call::Rouse(task) => Answer::Done(self.mark(task, false)),
            Call::SetLevel(task, level) => Answer::Done(self.set_level(task, level)),
            Call::First => Answer::Task(self.first()),
            Call::Count(task) => Answer::Number(self.count(task)),
            Call::Hold(task) => Answer::Done(self.hold(task)?),
            Call::Unhold(task) => Answer::Done(self.unhold(task)),
        })
    }

    fn count(&self, task: u8) -> u8 {
        let entries = self.entries.iter().filter(|e| e.task == task);
        u8::try_from(entries.count()).unwrap_or(u8::MAX)
    }

    fn oldest(&self, task: u8) -> Option<usize> {
        self.entries.iter().position(|e| e.task == task)
    }

    fn add(&mut self, task: u8, level: u8) -> Result<Result<(), Refused>, AllocError> {
        if !in_range(task) || level > 4 || self.count(task) == 2 {
            return Ok(Err(Refused));
        }
        self.entries.push(Entry {
            task,
            level,
            asleep: false,
        })?;
        Ok(Ok(()))
    }

    fn end(&mut self, task: u8) -> Result<(), Refused> {
        match self.oldest(task) {
            Some(i) if i < self.entries.len() => {
                let _ = self.entries.remove(i);
                Ok(())
            }
            _ => Err(Refused),
        }
    }

    fn clear(&mut self, task: u8) -> u8 {
        u8::from(self.end(task).is_ok()) + u8::from(self.end(task).is_ok())
    }

    fn mark(&mut self, task: u8, asleep: bool) -> Result<(), Refused> {
        let mut entries = self.entries.iter_mut();
        let e = entries.find(|e| e.task == task).ok_or(Refused)?;
        e.asleep = asleep;
        Ok(())
    }

    fn set_level(&mut self, task: u8, level: u8) -> Result<(), Refused> {
        verdict(in_range(task) && level <= 4)?;
        for e in self.entries.iter_mut() {
            if e.task == task {
                e.level = level;
            }
        }
        Ok(())
    }

    fn first(&self) -> Option<u8> {
        let mut best: Option<Entry> = None;
        for (i, e) in self.entries.iter().enumerate() {
            if self.oldest(e.task) != Some(i) || e.asleep || self.is_held(e.task) {
                continue;
            }
            match best {
                Some(b) if b.level <= e.level => {}
                _ => best = Some(*e),
            }
        }
        best.map(|e| e.task)
    }

    fn is_held(&self, task: u8) -> bool {
        self.held.contains(&task)
    }

    fn hold(&mut self, task: u8) -> Result<Result<(), Refused>, AllocError> {
        if !self.lever || !in_range(task) || self.is_held(task) {
            return Ok(Err(Refused));
        }
        self.held.push(task)?;
        Ok(Ok(()))
    }

    fn unhold(&mut self, task: u8) -> Result<(), Refused> {
        verdict(self.is_held(task))?;
        self.held.retain(|held| *held != task);
        Ok(())
    }
}
