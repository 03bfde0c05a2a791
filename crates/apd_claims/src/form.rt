//! What a line is, before its terms are read.

use apd_base::Text;
use apd_causes::Ran;

/// The number of a question, and how many suspects it is about one of, where that is told.
#[derive(Clone, Copy)]
pub struct NumberedQuestion {
    pub number: u64,
    pub suspects: Option<u32>,
}

/// What is said of one term.
#[derive(Clone, Copy)]
pub enum LineFrame {
    /// It is asked whether it is true.
    Truth(NumberedQuestion),
    /// It is asked whether its body has a solution.
    Cover(NumberedQuestion),
    /// It is asked whether the first of its two arguments is below the second.
    Order(NumberedQuestion),
    /// It is a reply, by the reference program or by a line, which leaves so many suspects, where that is told.
    Reply {
        left: Option<u32>,
        by_reference: bool,
    },
    /// It is a wrong instance of the clause of this number, which begins in this line of the program.
    Instance {
        clause: u32,
        line: u32,
    },
    /// It is an uncovered goal.
    Uncovered,
}

/// A goal of a clause, by its number, whose call isn't below its caller, the box of this number.
#[derive(Clone, Copy)]
pub struct Calling {
    pub clause: u32,
    pub line: u32,
    pub goal: u8,
    pub caller: u32,
}

/// What a line is by how it begins and by its numbers.
#[derive(Drop)]
pub enum LineForm {
    /// Goals that are run.
    Query(Text),
    /// An end of a run.
    End(Ran),
    /// An atom, and whether it is said to be true.
    Symptom(bool, Text),
    /// What is said of this term.
    Framed(LineFrame, Text),
    /// A call that isn't below its caller: the text has the two atoms, and the number of the call's box.
    Call(Calling, Text),
    /// How many candidates follow.
    Candidates,
    /// A candidate.
    Candidate,
    /// So many calls descend.
    Descent(u32),
    /// A line that isn't checked.
    Other,
    /// A line that begins as one of these, and isn't one.
    Unread,
}
