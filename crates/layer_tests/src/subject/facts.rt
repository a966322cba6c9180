//! What is known of picks.

use anyhow::{Result, bail};
use constraint_set::atom::Atom;
use constraint_set::facts::Facts;
use spec_model::event::Framing;
use spec_model::tree::Alphabet;
use std::alloc::Global;
use test_rows::{first_word, framing, quoted, text_of, yes_or_no};

/// Facts, with the forms that were seen since the first of them.
#[derive(Drop)]
pub struct FactsAsked {
    framing: Framing,
    room: u64,
    facts: Facts,
    forms: Vec<Vec<u8>>,
}

impl FactsAsked {
    /// No facts, in a framing and with room for so many that differ.
    pub fn begin(alloc: Global, made_of: &str) -> Result<FactsAsked> {
        let (framing, room) = first_word(made_of);
        let (framing, room) = (self::framing(framing)?, room.parse()?);
        Ok(FactsAsked {
            framing,
            room,
            facts: Facts::new(alloc, framing, room)?,
            forms: Vec::new(alloc),
        })
    }

    /// What is answered to a step, which is made on a copy of the facts: `least` tells the least texts and `form` the number of the
    /// form as seen from roots; `anew` forgets all but the forms; every other step says whether it may be made.
    pub fn answer(&mut self, alloc: Global, step: &str) -> Result<String> {
        self.facts = self.facts.copy(alloc)?;
        let (verb, rest) = first_word(step);
        match verb {
            "least" => least(alloc, &self.facts),
            "form" => {
                let form = form_of(alloc, &self.facts, rest)?;
                Ok(format!(in alloc; "{}", number_of(&mut self.forms, form)?)?)
            }
            "anew" => {
                self.facts = Facts::new(alloc, self.framing, self.room)?;
                Ok(String::from_str(alloc, "nothing is known")?)
            }
            _ => {
                let is_made = stepped(alloc, &mut self.facts, verb, rest)?;
                Ok(String::from_str(alloc, yes_or_no(is_made))?)
            }
        }
    }
}

/// A symbol by its number, or a text between quotes.
fn atom(alloc: Global, written: &str) -> Result<Atom> {
    Ok(if written.starts_with('"') {
        Atom::Const(text_of(alloc, written)?)
    } else {
        Atom::Sym(written.parse()?)
    })
}

/// Whether a symbol of this length and alphabet may be added; then it is.
fn added(alloc: Global, facts: &mut Facts, written: &str) -> Result<bool> {
    let (n, alphabet) = first_word(written);
    let n = n.parse()?;
    let alphabet = match alphabet {
        "hex" => Alphabet::Hex,
        "alnum" => Alphabet::Alnum,
        "any" => Alphabet::Any,
        _ => bail!("no alphabet"),
    };
    if !facts.can_add(n, alphabet) {
        return Ok(false);
    }
    facts.fresh(alloc, n, alphabet)?;
    Ok(true)
}

/// Whether a step may be made; then it is. In a `piece` the second atom is a text.
fn stepped(alloc: Global, facts: &mut Facts, verb: &str, rest: &str) -> Result<bool> {
    if verb == "fresh" {
        return added(alloc, facts, rest);
    }
    let (first, second) = first_word(rest);
    let (a, b) = (atom(alloc, first)?, atom(alloc, second)?);
    if !facts.has(&a) || !facts.has(&b) {
        bail!("no such symbol");
    }
    match verb {
        "equal" => Ok(facts.equal(alloc, &a, &b)?),
        "differ" => Ok(facts.can_ask() && facts.differ(alloc, &a, &b)?),
        "piece" => Ok(facts.assume_piece(alloc, &a, text_of(alloc, second)?.as_slice())?),
        _ => bail!("no step"),
    }
}

/// The least texts, each between quotes.
fn least(alloc: Global, facts: &Facts) -> Result<String> {
    let mut least = String::new(alloc);
    for text in facts.least(alloc)? {
        least.push_str(quoted(alloc, text.as_slice())?.as_str())?;
    }
    Ok(least)
}

/// The form of facts as seen from roots.
fn form_of(alloc: Global, facts: &Facts, roots: &str) -> Result<Vec<u8>> {
    let mut atoms = Vec::new(alloc);
    for root in roots.split_whitespace() {
        atoms.push(atom(alloc, root)?)?;
    }
    if !atoms.iter().all(|root| facts.has(root)) {
        bail!("no such root");
    }
    Ok(facts.form(alloc, &atoms)?)
}

/// The number of a form among those seen, to which it is put where it is new.
fn number_of(forms: &mut Vec<Vec<u8>>, form: Vec<u8>) -> Result<usize> {
    match forms.iter().position(|seen| *seen == form) {
        Some(number) => Ok(number),
        None => {
            forms.push(form)?;
            Ok(forms.len() - 1)
        }
    }
}
