//! What a line says of a call that isn't below its caller.

ghost use Rattle.std.specs.Prelude.{◌≡◌, [], None, Some, MatchOption, IfOk, IfSome, length};
ghost use Rattle.std.specs.Option.{option_and_then, option_map};
ghost use Rattle.apd_read.specs.Reader.{Reader};
ghost use Rattle.apd_term.specs.Growth.{Grown};
ghost use Rattle.apd_talk.specs.Speech.{Lasting};
ghost use Rattle.apd_text.specs.Named.{EntryIsNamed};
ghost use Rattle.apd_claims.specs.Claims.{call_between, call_claim, call_entry, call_in, called, is_operator, is_operator_read, may_end};
ghost use Rattle.apd_parts.specs.Parts.{box_where, boxed_in, boxed_where, if_some};
ghost use Rattle.apd_claims.specs.Sayable.{IsSayable};
ghost use Rattle.apd_claims.specs.Texts.{KeepsFew};

use crate::claim::Claim;
use crate::claims::{or_garbled, with_newline, written};
use crate::entries::call_entry;
use crate::form::Calling;
use crate::means::Means;
use crate::parting::CallLine;
use crate::reading::read_term;
use apd_base::Text;
use apd_ops::Ops;
use apd_parts::{Led, Quote, box_outside, boxed_in, quote_after, word_begins};
use apd_term::names::Names;
use apd_term::{Flat, Pred};
use apd_text::Entry;
use std::alloc::AllocError;

/// The entry of a call whose atom and whose caller's atom were read.
fn entry_of(
    calling: Calling,
    callee: u32,
    call: Option<Flat>,
    caller: Option<Flat>,
) -> Option<Entry>
    ensures { result ≡ if_some call (λ q. option_map (call_entry calling callee q) caller) None }
{
    match (call, caller) {
        (Some(call), Some(caller)) => Some(call_entry(calling, callee, call, caller)),
        _ => None,
    }
}

/// The two calls, where both texts are terms.
pub(crate) fn called(
    means: &Means<'_>,
    names: &mut Names,
    calling: Calling,
    call: &[u8],
    led: &Led<'_>,
) -> Result<Option<Entry>, AllocError>
    ensures names { Grown names.old names.new }
    ensures few { KeepsFew names.old names.new }
    ensures entry { IfOk result (λ o. Lasting names.new (λ n. (reader : Reader n) →
        o ≡ called reader means.now.ops.now calling call.now
        (record { number = led.now.number; rest = led.now.rest.now }))) }
    ensures named { IfOk result (λ o. IfSome o (EntryIsNamed (length names.new))) }
{
    let callee = read_term(means, names, call)?;
    let caller = read_term(means, names, led.rest)?;
    let _count = names.count();
    Ok(entry_of(calling, led.number, callee, caller))
}

/// What a line says, if these are the call's atom, its box and its caller.
fn claim_between(
    means: &Means<'_>,
    names: &mut Names,
    line: &CallLine,
    call: &[u8],
    led: &Led<'_>,
) -> Result<Option<Claim>, AllocError>
    ensures names { Grown names.old names.new }
    ensures few { KeepsFew names.old names.new }
    ensures claim { IfOk result (λ o. Lasting names.new (λ n. (reader : Reader n) →
        o ≡ call_between reader means.now.ops.now line.now.whole line.now.calling (record {
          front = call.now;
          led = record { number = led.now.number; rest = led.now.rest.now };
        }))) }
    ensures sayable { IfOk result (λ o. IfSome o IsSayable) }
{
    let entry = called(means, names, line.calling, call, led)?;
    written(means, names, line.whole.bytes(), entry)
}

/// What a line says of a call, by the first place outside quotes.
fn claim_outside(
    means: &Means<'_>,
    names: &mut Names,
    line: &CallLine,
) -> Result<Option<Claim>, AllocError>
    ensures names { Grown names.old names.new }
    ensures few { KeepsFew names.old names.new }
    ensures claim { IfOk result (λ o. Lasting names.new (λ n. (reader : Reader n) →
        o ≡ option_and_then (call_between reader means.now.ops.now line.now.whole line.now.calling)
        (boxed_in Quote.Outside line.now.text))) }
    ensures sayable { IfOk result (λ o. IfSome o IsSayable) }
{
    let Some(boxed) = boxed_in(line.text.bytes()) else {
        return Ok(None);
    };
    claim_between(means, names, line, boxed.front, &boxed.led)
}

/// Whether it is an operator without arguments.
fn is_operator(ops: &Ops, pred: Option<Pred>) -> bool
    ensures { result ≡ is_operator ops.now pred }
{
    match pred {
        Some(pred) => pred.arity == 0
            && (ops.prefix(pred.name).is_some() || ops.infix(pred.name).is_some()),
        None => false,
    }
}

/// Whether what was read is an operator's name alone.
fn is_operator_read(ops: &Ops, read: Option<Flat>) -> bool
    ensures { result ≡ is_operator_read ops.now read }
{
    match read {
        Some(term) => is_operator(ops, term.pred()),
        None => false,
    }
}

/// Whether a text of more than an operator's name may end with this word.
fn may_end(means: &Means<'_>, names: &mut Names, word: &[u8]) -> Result<bool, AllocError>
    ensures names { Grown names.old names.new }
    ensures few { KeepsFew names.old names.new }
    ensures may { IfOk result (λ b. Lasting names.new (λ n. (reader : Reader n) →
        b ≡ may_end reader means.now.ops.now word.now)) }
{
    if word.is_empty() {
        return Ok(false);
    }
    let read = read_term(means, names, word)?;
    Ok(!is_operator_read(means.ops, read))
}

/// The box of a call and its caller, where they stand first outside quotes, behind a word that may end a term.
fn box_here<'a>(
    means: &Means<'_>,
    names: &mut Names,
    quote: Quote,
    word: &[u8],
    text: &'a [u8],
) -> Result<Option<Led<'a>>, AllocError>
    ensures names { Grown names.old names.new }
    ensures few { KeepsFew names.old names.new }
    ensures here { IfOk result (λ o. Lasting names.new (λ n. (reader : Reader n) →
        MatchOption o (box_where (may_end reader means.now.ops.now) quote word.now text.now ≡ None)
        (λ a. box_where (may_end reader means.now.ops.now) quote word.now text.now
        ≡ Some (record { number = a.number; rest = a.rest.now })))) }
{
    let Some(led) = box_outside(quote, text) else {
        return Ok(None);
    };
    let may = may_end(means, names, word)?;
    if !may {
        return Ok(None);
    }
    Ok(Some(led))
}

/// What a line says of a call, by the first place outside quotes behind a word that may end a term.
fn claim_behind(
    means: &Means<'_>,
    names: &mut Names,
    line: &CallLine,
) -> Result<Option<Claim>, AllocError>
    ensures names { Grown names.old names.new }
    ensures few { KeepsFew names.old names.new }
    ensures claim { IfOk result (λ o. Lasting names.new (λ n. (reader : Reader n) →
        o ≡ option_and_then (call_between reader means.now.ops.now line.now.whole line.now.calling)
        (boxed_where (may_end reader means.now.ops.now) Quote.Outside [] line.now.text))) }
    ensures sayable { IfOk result (λ o. IfSome o IsSayable) }
{
    let text = line.text.bytes();
    let mut quote = Quote::Outside;
    let mut begun = 0;
    'places: for place in 0..text.len() {
        let led = box_here(means, names, quote, &text[begun..place], &text[place..])?;
        if let Some(led) = led {
            return claim_between(means, names, line, &text[..place], &led);
        }
        begun = word_begins(quote, text[place], begun, place);
        quote = quote_after(quote, text[place]);
    }
    Ok(None)
}

/// What a line says of a call, if anything.
fn call_in(
    means: &Means<'_>,
    names: &mut Names,
    line: &CallLine,
) -> Result<Option<Claim>, AllocError>
    ensures names { Grown names.old names.new }
    ensures few { KeepsFew names.old names.new }
    ensures claim { IfOk result (λ o. Lasting names.new (λ n. (reader : Reader n) →
        o ≡ call_in reader means.now.ops.now line.now.whole line.now.calling line.now.text)) }
    ensures sayable { IfOk result (λ o. IfSome o IsSayable) }
{
    let first = claim_outside(means, names, line)?;
    if first.is_some() {
        return Ok(first);
    }
    // Dropped by a call: else each part of each kind of claim is a step to check.
    drop(first);
    claim_behind(means, names, line)
}

/// What a line says of a call that isn't below its caller.
pub(crate) fn call_claim(
    means: &Means<'_>,
    names: &mut Names,
    line: &[u8],
    calling: Calling,
    text: Text,
) -> Result<Claim, AllocError>
    ensures names { Grown names.old names.new }
    ensures few { KeepsFew names.old names.new }
    ensures claim { IfOk result (λ c. Lasting names.new (λ n. (reader : Reader n) →
        c ≡ call_claim reader means.now.ops.now line.now calling text)) }
    ensures sayable { IfOk result IsSayable }
{
    let whole = with_newline(means.alloc, line)?;
    let call = CallLine {
        calling,
        text,
        whole,
    };
    let claim = call_in(means, names, &call)?;
    Ok(or_garbled(claim))
}
