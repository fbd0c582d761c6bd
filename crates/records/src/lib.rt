// One record of a run: what its own operations say, and the state that follows. Follows `durability_of` of waymaker-fault's
// session.rs; specs/Records has document 01's rule over any list of operations, and specs/Columns what it says of operations in
// columns. `ledger` finds once what does not depend on the record (`Facts`) and asks here for each. Two columns are taken and no `LogRef`,
// since the caller cuts them to the operations that count; of two lengths they are read as far as both go. Kinds and answers are the
// columns' codes: 2 is a barrier, 1 is yes.
#![tactic(auto)]

ghost use Rattle.std.specs.Prelude.{◌≡◌, ◌≤◌, length};
ghost use Rattle.std.specs.List.{IsAfterLastMatch};
ghost use Rattle.records.specs.Records.{judged};
ghost use Rattle.records.specs.Columns.{is_write, last_place, last_barrier, armed_in, entry_at, codes_of};

use inject::Injection;
use model::Durability;

// What every record's state is judged by: what is armed, whether the bytes that it withheld are still not on media, and one past
// the last barrier that answered 0.
#[derive(Clone, Copy, Debug, PartialEq, Eq)]
pub struct Facts {
    pub armed: Option<Injection>,
    pub outstanding: bool,
    pub barrier: usize,
}

// State and torn as the columns hold them: `ledger` stores them as they are.
#[derive(Clone, Copy, Debug, PartialEq, Eq)]
pub struct Codes {
    pub state: u8,
    pub torn: u8,
}

// ---- what is found once

// One past the last barrier that answered 0. A loop from the front: of two columns read together from their ends the library promises
// nothing (`rposition` of a `zip`).
pub fn last_barrier(kinds: &[u8], answered: &[u8]) -> usize
    ensures { result ≡ last_barrier kinds.now answered.now }
{
    let mut last = 0;
    for (at, (kind, answered)) in kinds.iter().zip(answered).enumerate() {
        if (*kind == 2) & (*answered == 1) {
            last = at + 1;
        }
    }
    last
}

// ---- one record

// Whether the operation that the injection is armed on is among these.
fn armed_in(armed: Option<Injection>, start: usize, stop: usize) -> bool
    ensures { result ≡ armed_in armed start stop }
{
    armed.is_some_and(|injection| (start <= injection.op) & (injection.op < stop))
}

// One past the last program or erase, 0 where there is none.
fn past_last_write(kinds: &[u8]) -> usize
    ensures { IsAfterLastMatch is_write kinds.now result × (result ≤ length kinds.now) }
{
    match kinds.iter().rposition(|kind| *kind != 2) {
        Some(at) => at + 1,
        None => 0,
    }
}

// The state of a record: whether it changed a cell, whether some of it is withheld, and whether a barrier that answered 0 follows
// its last program or erase. A record that changed no cell is attempted, withheld or not: this test comes first.
#[tactic(auto, unfolding(crate::specs::Records::judged))]
fn durability_of(changed: bool, withheld: bool, followed: bool) -> Durability
    ensures { result ≡ (judged 0 changed withheld followed).state }
{
    if !changed {
        return Durability::Attempted;
    }
    // A barrier orders what is on media, and that is half a record.
    if withheld {
        return Durability::PossiblyDurable;
    }
    if followed {
        Durability::Acknowledged
    } else {
        Durability::PossiblyDurable
    }
}

// State and torn of the record whose mark stands at `from`, the next one at `to`. A next mark that stands earlier leaves it no
// operations, and so does a mark that stands past them all. A record none of whose bytes reached media is not a torn one.
pub fn entry_at(facts: Facts, kinds: &[u8], changed: &[u8], from: usize, to: usize) -> Codes
    ensures { result ≡ codes_of (entry_at facts kinds.now changed.now 0 from to) }
{
    let rows = kinds.len().min(changed.len());
    let start = from.min(rows);
    let stop = to.min(rows).max(start);
    let withheld = facts.outstanding & armed_in(facts.armed, start, stop);
    let own_changed = changed[start..stop].contains(&1);
    let written = past_last_write(&kinds[start..stop]);
    // A record without a program or erase has no last one for a barrier to follow.
    let followed = (written > 0) & (start + written < facts.barrier);
    let state = durability_of(own_changed, withheld, followed);
    Codes {
        state: state as u8,
        torn: u8::from(own_changed & withheld),
    }
}
