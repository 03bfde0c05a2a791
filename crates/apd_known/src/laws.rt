//! Laws of what an oracle file states, each the contract of a function without a body.

ghost use Rattle.std.specs.Prelude.{◌≡◌, ℕ, List};
ghost use Rattle.apd_ops.specs.Table.{Table, IsTable};
ghost use Rattle.apd_read.specs.Reader.{Reader};
ghost use Rattle.apd_known.specs.Files.{stated_in};

/// The law of one statement list: under the same names and by the same operators all readers of texts give the same
/// statements of a text, or the same first fault with its line.
pub fn one_statement_list()
    ensures { (names : List (List ℕ)) (r s : Reader names) (ops : Table) (text : List ℕ) →
        IsTable ops → stated_in r ops text ≡ stated_in s ops text }
{}
