//! Faults that were found, and the first of them.

ghost use Rattle.std.specs.Prelude.{◌≡◌, ◌↔◌, IsTrue};
ghost use Rattle.spec_rules.specs.Fault.{IsBefore, which_number};
ghost use Rattle.spec_check.specs.Least.{IsEarlier, IsFirst, IsListedAt, IsToldAt};

use spec_rules::fault::Fault;

/// A fault, and the place where it stands.
#[derive(Clone, Copy, Debug, PartialEq, Eq)]
pub struct Found {
    pub fault: Fault,
    pub at: usize,
}

/// A fault, and whether it stands at the place that was tested.
#[derive(Clone, Copy, Debug, PartialEq, Eq)]
pub struct Tested {
    pub fault: Fault,
    pub stands: bool,
}

/// The number of a fault's limit, and 0 for a fault of another kind.
fn which_number(fault: Fault) -> u8
    ensures { result ≡ which_number fault }
{
    match fault {
        Fault::Limit(limit) => limit.number(),
        _ => 0,
    }
}

/// Whether one fault comes before the other, by place, then kind, then limit.
fn is_before(one: Found, other: Found) -> bool
    ensures { IsTrue result ↔ IsBefore one.at one.fault other.at other.fault }
{
    if one.at != other.at {
        return one.at < other.at;
    }
    let kind = one.fault.number();
    let other_kind = other.fault.number();
    if kind != other_kind {
        return kind < other_kind;
    }
    which_number(one.fault) < which_number(other.fault)
}

/// The earlier of two faults, where there are two.
pub fn earlier(left: Option<Found>, right: Option<Found>) -> Option<Found>
    ensures { IsEarlier left right result }
{
    match (left, right) {
        (Some(one), Some(other)) => {
            if is_before(other, one) {
                Some(other)
            } else {
                Some(one)
            }
        }
        (Some(one), None) => Some(one),
        (None, right) => right,
    }
}

/// The fault, at this place, where it stands there.
pub fn found_at(tested: Tested, at: usize) -> Option<Found>
    ensures { IsFirst (IsToldAt tested at) result }
{
    if tested.stands {
        Some(Found {
            fault: tested.fault,
            at,
        })
    } else {
        None
    }
}

/// The first of the faults that stand at this place.
pub fn first_listed(tests: &[Tested], at: usize) -> Option<Found>
    ensures { IsFirst (IsListedAt tests.now at) result }
{
    let mut found = None;
    for tested in tests {
        found = earlier(found, found_at(*tested, at));
    }
    found
}
