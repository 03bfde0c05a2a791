//! What a line makes of what was told so far.

ghost use Rattle.std.specs.Prelude.{◌≡◌, ◌↔◌, IfOk, IsTrue};
ghost use Rattle.apd_answers.specs.Questions.{Fits};
ghost use Rattle.apd_check.specs.Checked.{after_claim, first_state};
ghost use Rattle.apd_claims.specs.Sayable.{IsSayable, IsShown};
ghost use Rattle.apd_check.specs.Steps.{IsKept, Leads};
ghost use Rattle.apd_claims.specs.declared.claim.Claim.TheVariants as claims;

use crate::again::run_again;
use crate::checked::Why;
use crate::fitting::fits;
use crate::judging::{judge_descent, judge_finding};
use crate::questions::judge_question;
use crate::state::LogState;
use apd_answers::{Answers, Asked, Finding, Question, Reply};
use apd_causes::{Query, Ran};
use apd_claims::Claim;
use apd_clauses::Program;
use apd_findings::{Parted, prepare};
use apd_record::Record;
use std::alloc::{AllocError, Global};
use std::mem::replace;

/// Whether two runs ended alike, with the same counts.
fn is_same_run(a: Ran, b: Ran) -> bool
    ensures { IsTrue result ↔ (a ≡ b) }
{
    a == b
}

impl LogState {
    /// Nothing was run or asked yet, and this is known.
    pub(crate) fn first(alloc: Global, known: Answers) -> Result<LogState, AllocError>
        ensures { IfOk result (λ s. s ≡ first_state known) }
    {
        let known = Parted::of(alloc, known)?;
        Ok(LogState {
            query: None,
            history: Record::new(alloc),
            known,
            waiting: None,
        })
    }

    /// A query is run.
    fn run(&mut self, alloc: Global, program: &Program, query: Query)
        ensures { self.new ≡ after_claim program.now self.old (claims.Runs query) }
    {
        // Dropped by calls, here and below: an assignment would drop what was there part by part, in
        // as many steps to check.
        drop(self.query.replace(query));
        drop(replace(&mut self.history, Record::new(alloc)));
        drop(self.waiting.take());
    }

    /// The run of the query ended so: it is made again.
    fn end(&mut self, alloc: Global, program: &Program, ran: Ran) -> Result<Option<Why>, AllocError>
        requires kept { IsKept self.old }
        requires shown { IsShown ran }
        ensures { IfOk result (Leads program.now self.old (claims.Ends ran) self.new) }
    {
        let Some(query) = &self.query else {
            return Ok(Some(Why::End));
        };
        let again = run_again(alloc, program, query, ran)?;
        if !is_same_run(again.ran, ran) {
            drop(again);
            return Ok(Some(Why::End));
        }
        drop(self.query.take());
        drop(replace(&mut self.history, again.history));
        Ok(None)
    }

    /// This reply to a question is told.
    fn tell(
        &mut self,
        program: &Program,
        question: &Question,
        reply: &Reply,
    ) -> Result<Option<Why>, AllocError>
        requires { Fits question.now reply.now }
        ensures { IfOk result
            (Leads program.now self.old (claims.Tells question.now reply.now) self.new) }
    {
        let judged = judge_question(question);
        if judged.is_some() {
            return Ok(judged);
        }
        self.known.add(question, reply)?;
        drop(self.waiting.take());
        Ok(None)
    }

    /// This is asked.
    fn ask(&mut self, program: &Program, asked: Asked) -> Option<Why>
        ensures { Leads program.now self.old (claims.Asks asked) self.new result }
    {
        let judged = judge_question(&asked.question);
        if judged.is_some() {
            drop(asked);
            return judged;
        }
        drop(self.waiting.replace(asked));
        None
    }

    /// What was asked is replied to so.
    fn reply(
        &mut self,
        alloc: Global,
        program: &Program,
        reply: &Reply,
    ) -> Result<Option<Why>, AllocError>
        requires { IsKept self.old }
        ensures { IfOk result (Leads program.now self.old (claims.Replies reply.now) self.new) }
    {
        let Some(asked) = &self.waiting else {
            return Ok(Some(Why::NoQuestion));
        };
        if !fits(alloc, asked, reply)? {
            return Ok(Some(Why::Unfit));
        }
        self.known.add(&asked.question, reply)?;
        drop(self.waiting.take());
        Ok(None)
    }

    /// Computes ahead what tells whether a finding follows from the replies. What was told stays as it is.
    fn prepare(&mut self, finding: &Finding) -> Result<(), AllocError>
        ensures { self.new ≡ self.old }
    {
        prepare(&mut self.known, finding)
    }

    /// This is found, with this line of its clause.
    fn find(
        &mut self,
        alloc: Global,
        program: &Program,
        finding: &Finding,
        line: u32,
    ) -> Result<Option<Why>, AllocError>
        ensures { IfOk result
            (Leads program.now self.old (claims.Finds finding.now line) self.new) }
    {
        self.prepare(finding)?;
        judge_finding(alloc, program, self, finding, line)
    }

    /// A line says this: the state behind it, or why it isn't good.
    pub(crate) fn take(
        &mut self,
        alloc: Global,
        program: &Program,
        claim: Claim,
    ) -> Result<Option<Why>, AllocError>
        requires kept { IsKept self.old }
        requires sayable { IsSayable claim }
        ensures { IfOk result (Leads program.now self.old claim self.new) }
    {
        match claim {
            Claim::Runs(query) => {
                self.run(alloc, program, query);
                Ok(None)
            }
            Claim::Ends(ran) => self.end(alloc, program, ran),
            Claim::Tells(question, reply) => {
                let told = self.tell(program, &question, &reply);
                drop(question);
                drop(reply);
                told
            }
            Claim::Asks(asked) => Ok(self.ask(program, asked)),
            Claim::Replies(reply) => {
                let replied = self.reply(alloc, program, &reply);
                drop(reply);
                replied
            }
            Claim::Finds(finding, line) => {
                let judged = self.find(alloc, program, &finding, line);
                drop(finding);
                judged
            }
            Claim::Descends(calls) => judge_descent(alloc, program, self, calls),
            Claim::Nothing => Ok(None),
            Claim::Garbled => Ok(Some(Why::Text)),
        }
    }
}
