//! The parts of a send, made from a template.

ghost use Rattle.std.specs.Prelude.{◌≡◌, ◌+◌, ◌<◌, ◌≤◌, ◌++◌, ◌∷◌, IfOk, List, OnOk, length, map, sum_by, true};
ghost use Rattle.std.specs.List.{AllByRecursion};
ghost use Rattle.spec_model.specs.Message.{may_stand_in_message};
ghost use Rattle.exchange_text.specs.Actions.{AreParts, IsPart, length_of};
ghost use Rattle.exchange_text.specs.declared.action.Part.{Part};
ghost use Rattle.spec_model.specs.declared.event.Framing.{Framing};
ghost use Rattle.script_gen.specs.Parts.{as_in_message, literal, number, one_at_least, part_of, parts_of, piece, rest, within, word, word_part};
ghost use Rattle.script_gen.specs.Ready.{IsReady, IsSite, IsTemplate};

use crate::plan::{Plan, Site};
use crate::words::Words;
use exchange_text::action::{MAX_RECEIPT, Part};
use spec_model::Memory;
use spec_model::event::Framing;
use spec_model::list::{Bytes, List};
use spec_model::tree::{HoleKind, Item};
use std::alloc::Global;

/// The parts of a send by a template, on a connection on which so many messages were sent before. There is room for as many bytes as a
/// message may have.
pub fn send_parts(
    alloc: Global,
    plan: &Plan,
    words: &mut Words,
    earlier: u32,
    template: &[Item],
) -> Result<List<Part>, Memory>
    requires ready { IsReady plan.now }
    requires few_sent { earlier ≤ MAX_RECEIPT }
    requires template { IsTemplate template.now }
    ensures parts { IfOk result (λ parts. parts ≡ one_at_least (within plan.now.shape.limit (parts_of plan.now earlier template.now words.old).0)) }
    ensures left { OnOk result (words.new ≡ (parts_of plan.now earlier template.now words.old).1) }
    ensures fits { IfOk result (AreParts plan.now.shape) }
{
    let mut sent = Sent {
        parts: List::new(alloc),
        room: usize::from(plan.shape.limit),
    };
    for item in template {
        let part = part_of(alloc, plan, words, earlier, item)?;
        sent.put(part)?;
    }
    sent.finished(alloc)
}

/// The parts of a message, and for how many bytes there is room behind them.
#[derive(Debug, Drop)]
struct Sent {
    parts: List<Part>,
    room: usize,
}

impl Sent {
    /// Puts a part at the end as far as there is room for it: a literal is cut, and a piece that is longer is left out.
    fn put(&mut self, part: Part) -> Result<(), Memory>
        ensures parts { OnOk result ((more : List Part) → self.new.parts ++ within self.new.room more ≡ self.old.parts ++ within self.old.room (part ∷ more)) }
        ensures room { OnOk result (sum_by length_of self.new.parts + self.new.room ≡ sum_by length_of self.old.parts + self.old.room) }
        ensures few { OnOk result (length self.new.parts ≤ length self.old.parts + 1) }
        ensures fits { OnOk result ((framing : Framing) → IsPart framing part → AllByRecursion (IsPart framing) self.old.parts → AllByRecursion (IsPart framing) self.new.parts) }
    {
        match part {
            Part::Lit(mut text) => {
                text.truncate(self.room);
                self.room -= text.len();
                self.parts.push(Part::Lit(text))
            }
            Part::Piece { len, .. } if usize::from(len) > self.room => Ok(()),
            Part::Piece {
                receipt,
                start,
                len,
                fill,
            } => {
                self.room -= usize::from(len);
                self.parts.push(Part::Piece {
                    receipt,
                    start,
                    len,
                    fill,
                })
            }
        }
    }

    /// The parts, or one empty literal where there is none.
    fn finished(self, alloc: Global) -> Result<List<Part>, Memory>
        ensures { IfOk result (λ parts. parts ≡ one_at_least self.parts) }
    {
        let Sent { mut parts, .. } = self;
        if parts.is_empty() {
            parts.push(Part::Lit(Bytes::new(alloc)))?;
        }
        Ok(parts)
    }
}

/// The part of an item.
fn part_of(
    alloc: Global,
    plan: &Plan,
    words: &mut Words,
    earlier: u32,
    item: &Item,
) -> Result<Part, Memory>
    requires ready { IsReady plan.now }
    requires few_sent { earlier ≤ MAX_RECEIPT }
    ensures part { IfOk result (λ part. part ≡ (part_of plan.now earlier item.now words.old).0) }
    ensures left { OnOk result (words.new ≡ (part_of plan.now earlier item.now words.old).1) }
    ensures fits { IfOk result (IsPart plan.now.shape.framing) }
{
    match item {
        Item::Lit(text) => written(alloc, plan.shape.framing, text.as_slice()),
        Item::Hole(_, HoleKind::Word) => word_part(alloc, plan.sites.as_slice(), words, earlier),
        Item::Hole(_, HoleKind::Num) => number(alloc, words),
        Item::Hole(_, HoleKind::Rest) => rest(alloc, words),
    }
}

/// A literal of a written text. In `line` framing each LF becomes a space.
fn written(alloc: Global, framing: Framing, text: &[u8]) -> Result<Part, Memory>
    ensures part { IfOk result (λ part. part ≡ Part.Lit (map (as_in_message framing) text.now)) }
    ensures fits { IfOk result (IsPart framing) }
{
    let mut bytes = Vec::with_capacity(alloc, text.len())?;
    for byte in text {
        bytes.push(as_in_message(framing, *byte))?;
    }
    Ok(Part::Lit(List::from_vec(bytes)))
}

/// The byte, or a space for LF in `line` framing.
fn as_in_message(framing: Framing, byte: u8) -> u8
    ensures byte { result ≡ as_in_message framing byte }
    ensures stands { may_stand_in_message framing result ≡ true }
{
    match framing {
        Framing::Line if byte == b'\n' => b' ',
        _ => byte,
    }
}

/// What stands for a word: where there is a site and a message was sent before, one more drawing says whether it is a piece.
#[tactic(auto, unfolding(crate::specs::Parts::piece_or_word))]
fn word_part(alloc: Global, sites: &[Site], words: &mut Words, earlier: u32) -> Result<Part, Memory>
    requires sites { AllByRecursion IsSite sites.now }
    requires few_sent { earlier ≤ MAX_RECEIPT }
    ensures part { IfOk result (λ part. part ≡ (word_part sites.now earlier words.old).0) }
    ensures left { OnOk result (words.new ≡ (word_part sites.now earlier words.old).1) }
    ensures fits { IfOk result (λ part. (framing : Framing) → IsPart framing part) }
{
    if sites.is_empty() || earlier == 0 || words.draw(2) != 0 {
        word(alloc, words)
    } else {
        piece(alloc, sites, words, earlier)
    }
}

/// A word of one to six letters.
#[tactic(auto, unfolding(crate::specs::Parts::word))]
fn word(alloc: Global, words: &mut Words) -> Result<Part, Memory>
    ensures part { IfOk result (λ part. part ≡ (word words.old).0) }
    ensures left { OnOk result (words.new ≡ (word words.old).1) }
    ensures fits { IfOk result (λ part. (framing : Framing) → IsPart framing part) }
{
    let more = words.draw(6);
    literal(alloc, words, 1 + more)
}

/// Up to eight letters.
#[tactic(auto, unfolding(crate::specs::Parts::rest))]
fn rest(alloc: Global, words: &mut Words) -> Result<Part, Memory>
    ensures part { IfOk result (λ part. part ≡ (rest words.old).0) }
    ensures left { OnOk result (words.new ≡ (rest words.old).1) }
    ensures fits { IfOk result (λ part. (framing : Framing) → IsPart framing part) }
{
    let count = words.draw(9);
    literal(alloc, words, count)
}

/// The decimal of a number below ten.
#[tactic(auto, unfolding(crate::specs::Parts::number))]
fn number(alloc: Global, words: &mut Words) -> Result<Part, Memory>
    ensures part { IfOk result (λ part. part ≡ (number words.old).0) }
    ensures left { OnOk result (words.new ≡ (number words.old).1) }
    ensures fits { IfOk result (λ part. (framing : Framing) → IsPart framing part) }
{
    let digit = words.draw(10) as u8;
    let text = Bytes::from_slice(alloc, &[b'0' + digit])?;
    Ok(Part::Lit(text))
}

/// A literal of so many letters.
fn literal(alloc: Global, words: &mut Words, count: usize) -> Result<Part, Memory>
    ensures part { IfOk result (λ part. part ≡ (literal count words.old).0) }
    ensures left { OnOk result (words.new ≡ (literal count words.old).1) }
    ensures fits { IfOk result (λ part. (framing : Framing) → IsPart framing part) }
{
    let mut text = Vec::new(alloc);
    for _ in 0..count {
        text.push(b'a' + words.draw(26) as u8)?;
    }
    Ok(Part::Lit(List::from_vec(text)))
}

/// The bytes at a site of a message that was received, where so many messages were sent before. Zeros fill in.
#[tactic(auto, unfolding(crate::specs::Parts::piece))]
fn piece(alloc: Global, sites: &[Site], words: &mut Words, earlier: u32) -> Result<Part, Memory>
    requires sites { AllByRecursion IsSite sites.now }
    requires some { 0 < length sites.now }
    requires sent { 0 < earlier }
    requires few_sent { earlier ≤ MAX_RECEIPT }
    ensures part { IfOk result (λ part. part ≡ (piece sites.now earlier words.old).0) }
    ensures left { OnOk result (words.new ≡ (piece sites.now earlier words.old).1) }
    ensures fits { IfOk result (λ part. (framing : Framing) → IsPart framing part) }
{
    let site = sites[words.draw(sites.len())];
    let receipt = words.draw(earlier as usize) as u32 + 1;
    let fill = vec![in alloc; b'0'; usize::from(site.len)]?;
    Ok(Part::Piece {
        receipt,
        start: site.start,
        len: site.len,
        fill: List::from_vec(fill),
    })
}
