//! Whether questions and replies are the same.

ghost use Rattle.std.specs.Prelude.{◌≡◌};
ghost use Rattle.apd_term.specs.Matching.{same_term};
ghost use Rattle.apd_answers.specs.Store.{same_list, same_tuple, same_question, same_reply};

use crate::question::{Question, Reply};
use apd_term::{Atoms, Flat, Tuple};

/// Whether two terms are one.
fn same_term(a: &Flat, b: &Flat) -> bool
    ensures { result ≡ same_term a.now b.now }
{
    a.same(b)
}

/// Whether two lists have the same terms.
fn same_list(a: &[Flat], b: &[Flat]) -> bool
    ensures { result ≡ same_list a.now b.now }
{
    if a.len() != b.len() {
        return false;
    }
    'terms: for i in 0..a.len() {
        if !same_term(&a[i], &b[i]) {
            return false;
        }
    }
    true
}

/// Whether two tuples have the same head and body.
fn same_tuple(a: &Tuple, b: &Tuple) -> bool
    ensures { result ≡ same_tuple a.now b.now }
{
    same_term(&a.head, &b.head) && same_list(a.body.as_slice(), b.body.as_slice())
}

/// Whether two questions are one.
pub(crate) fn same_question(a: &Question, b: &Question) -> bool
    ensures { result ≡ same_question a.now b.now }
{
    match (a, b) {
        (Question::True(x), Question::True(y)) => same_term(x, y),
        (Question::Covers(x), Question::Covers(y)) => same_tuple(x, y),
        (Question::Below(q, p), Question::Below(x, y)) => same_term(q, x) && same_term(p, y),
        _ => false,
    }
}

/// Whether two replies are one.
pub(crate) fn same_reply(a: &Reply, b: &Reply) -> bool
    ensures { result ≡ same_reply a.now b.now }
{
    match (a, b) {
        (Reply::Yes, Reply::Yes) | (Reply::No, Reply::No) | (Reply::Unknown, Reply::Unknown) =>
            true,
        (Reply::Values(x), Reply::Values(y)) => same_list(x.as_slice(), y.as_slice()),
        _ => false,
    }
}
