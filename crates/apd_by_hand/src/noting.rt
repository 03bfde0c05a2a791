//! An oracle that has all its replies beforehand, with what it is asked and told.

ghost use Rattle.std.specs.Prelude.{◌≡◌};

use apd_answers::{AskEnd, Asked, Oracle, Reply};
use apd_known::Scripted;
use apd_text::Entry;
use std::alloc::{AllocError, Global};

/// An oracle that has all its replies beforehand, and notes what it is asked and which of its replies it is told.
#[derive(Drop)]
pub struct Noting {
    alloc: Global,
    /// Who replies.
    pub scripted: Scripted,
    /// How many questions were asked, as far as a u64 goes.
    asked: u64,
    /// What was asked and replied, in order.
    pub said: Vec<Entry>,
}

impl Noting {
    /// Nothing is noted yet.
    pub fn new(alloc: Global, scripted: Scripted) -> Noting
        ensures { result.scripted ≡ scripted }
    {
        Noting {
            alloc,
            scripted,
            asked: 0,
            said: Vec::new(alloc),
        }
    }

    /// Notes a question.
    fn note_question(&mut self, asked: &Asked) -> Result<(), AllocError>
        ensures { self.new.scripted ≡ self.old.scripted }
    {
        let number = self.asked.saturating_add(1);
        let question = asked.question.copy(self.alloc)?;
        let asked = Asked {
            question,
            suspects: asked.suspects,
        };
        self.asked = number;
        self.said.push(Entry::Question { number, asked })?;
        Ok(())
    }

    /// Notes a reply.
    fn note_reply(&mut self, reply: &Reply, left: Option<u32>) -> Result<(), AllocError>
        ensures { self.new.scripted ≡ self.old.scripted }
    {
        let reply = reply.copy(self.alloc)?;
        self.said.push(Entry::Replied {
            reply,
            left,
            by_reference: false,
        })?;
        Ok(())
    }
}

impl Oracle for Noting {
    ghost use Rattle.apd_by_hand.specs.Notes.{Notes};

    ghost end = { λ n. n.scripted.end };

    ghost read_faults = { λ _. 0 };

    ghost write_faults = { λ _. 0 };

    ghost step = { λ n call m. (m.scripted.pairs ≡ n.scripted.pairs) × Notes n.scripted.pairs call };

    fn ask(&mut self, asked: &Asked) -> Result<Reply, AskEnd> {
        self.note_question(asked)?;
        self.scripted.ask(asked)
    }

    fn told(&mut self, reply: &Reply, left: Option<u32>) -> Result<(), AskEnd> {
        self.note_reply(reply, left)?;
        self.scripted.told(reply, left)
    }
}
