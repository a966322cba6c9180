//! What a script is made from.

ghost use Rattle.std.specs.Prelude.{◌≡◌};
ghost use Rattle.script_gen.specs.Plan.{pick_len, site_at, site_behind};

use spec_model::event::Shape;
use spec_model::list::{Bytes, List};
use spec_model::tree::{Expr, Item};

/// The greatest place behind a site: the greatest number of bytes of a message.
pub const MAX_SITE_END: u64 = 4096;

/// Where the messages of a send show what the server picked: so many bytes from a place, counted from 0.
#[derive(Clone, Copy, Debug, PartialEq, Eq)]
pub struct Site {
    pub start: u16,
    pub len: u16,
}

/// The name that a pick bound, and its length in bytes.
#[derive(Debug, Drop)]
pub struct KnownPick {
    pub name: Bytes,
    pub len: u64,
}

/// The templates and the sites of a specification, for scripts of so many connections.
#[derive(Debug, Drop)]
pub struct Plan {
    pub shape: Shape,
    pub conns: u16,
    /// The patterns by which messages are made.
    pub templates: List<List<Item>>,
    pub sites: List<Site>,
}

/// The site of a send with these parts, where these picks are known: its first part that is no written text is a pick's name, and it
/// ends where a message can have bytes.
pub fn site_of(picks: &[KnownPick], parts: &[Expr]) -> Option<Site>
    ensures { result ≡ site_behind picks.now 0 parts.now }
{
    let mut start: usize = 0;
    for part in parts {
        match part {
            Expr::Text(text) => start = start.checked_add(text.len())?,
            Expr::Name(name) => return site_at(start, pick_len(picks, name)?),
            Expr::Num(_) => return None,
        }
    }
    None
}

/// The site of so many bytes from a place, where it ends within a message.
fn site_at(start: usize, len: u64) -> Option<Site>
    ensures { result ≡ site_at start len }
{
    let end = (start as u64).checked_add(len)?;
    if end > MAX_SITE_END {
        return None;
    }
    Some(Site {
        start: start as u16,
        len: len as u16,
    })
}

/// The length of the pick of this name, if one is known.
fn pick_len(picks: &[KnownPick], name: &Bytes) -> Option<u64>
    ensures { result ≡ pick_len picks.now name.now }
{
    let pick = picks.iter().find(|pick| pick.name == *name)?;
    Some(pick.len)
}
