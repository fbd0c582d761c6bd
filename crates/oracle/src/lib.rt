// Whether a recovery is legal, after oracle.rs: the verdict on a ledger, a recovered history, the dispatched intents and a
// bank count. The ledger is three lent columns, as in `model`. One verdict for every input, the first breach in the order of
// the tests, with its values: each promise is an equation with a definition of specs/. What it means to be accepted is a
// theorem (`oracle_legal`). There is no heap and so no set: ids are sought by scans of the lent
// lists.
#![tactic(auto)]

ghost use Rattle.std.specs.Prelude.{◌≡◌, [], None, length};
ghost use Rattle.model.specs.Scans.{ids_from};
ghost use Rattle.oracle.specs.Verdict.{number_of, seen_before, fault_of, first_fault, differs, first_lost, banks_breach, verdict, verified};
ghost use Rattle.oracle.specs.Nonzero.{breach-nonzero};
ghost use Rattle.oracle.specs.Scans.{held_by, least_faulty};

use basics::Numbered;
use model::{Durability, LedgerRef};

// What makes a recovery no legal one; and Refused, for columns that hold no ledger.
#[derive(Clone, Copy, Debug, PartialEq, Eq)]
pub enum Breach {
    // The run declared one record id twice, so no question about it has one answer.
    DuplicateRecordId(u32),
    // Recovery produced something other than a beginning of the committed history.
    NotAPrefix {
        position: usize,
        expected: Option<u32>,
        found: u32,
    },
    // Recovery produced a record none of whose bytes ever reached media.
    RecoveredWhatWasNeverAttempted(u32),
    // Recovery produced a record only part of which reached media.
    RecoveredATornRecord(u32),
    // Recovery lost a record whose barrier had returned.
    LostAnAcknowledgedRecord(u32),
    // An effect happened whose durable intent is not in the recovered history.
    DispatchedWithoutADurableIntent(u32),
    // No bank is authoritative, so there is nothing to boot from.
    NoAuthoritativeBank,
    // More than one bank is authoritative, so which history is the run's is not decided.
    AmbiguousAuthority(u64),
    // The columns hold no ledger.
    Refused,
}

// Ok where the recovery is a legal one. (No `From<Refusal>` of the error: of all refusals only that of columns is a breach.)
pub type Verdict = Result<(), Breach>;

// Columns that hold a ledger: nothing refuses them, so they are of one length.
#[derive(Clone, Copy)]
struct Entries<'a> {
    columns: LedgerRef<'a>,
    ghost even: { (length columns.states.now ≡ length columns.ids.now) × (length columns.torn.now ≡ length columns.ids.now) },
}

impl Numbered for Breach {
    ghost number = { number_of };

    ghost nonzero = { breach-nonzero };

    // Document 01's number of a breach.
    fn number(self) -> u32 {
        match self {
            Breach::DuplicateRecordId(_) => 31,
            Breach::NotAPrefix { .. } => 32,
            Breach::RecoveredWhatWasNeverAttempted(_) => 33,
            Breach::RecoveredATornRecord(_) => 34,
            Breach::LostAnAcknowledgedRecord(_) => 35,
            Breach::DispatchedWithoutADurableIntent(_) => 36,
            Breach::NoAuthoritativeBank => 37,
            Breach::AmbiguousAuthority(_) => 38,
            Breach::Refused => 12,
        }
    }
}

// 31: the first ledger id seen before.
fn first_repeat(ids: &[u32]) -> Verdict
    ensures { result ≡ seen_before [] ids.now }
{
    for (place, id) in ids.iter().enumerate() {
        if id_columns::contains(&ids[..place], *id) {
            return Err(Breach::DuplicateRecordId(*id));
        }
    }
    Ok(())
}

// 32: the first history position whose committed id differs or is missing.
fn first_difference(ledger: &LedgerRef<'_>, history: &[u32]) -> Verdict
    ensures { result ≡ differs 0 (ids_from 1 ledger.now.ids.now ledger.now.states.now) history.now }
{
    let mut committed = ledger
        .ids
        .iter()
        .zip(ledger.states)
        .filter(|(_, state)| **state != Durability::Attempted as u8)
        .map(|(id, _)| *id);
    for (position, found) in history.iter().enumerate() {
        let expected = committed.next();
        if expected != Some(*found) {
            return Err(Breach::NotAPrefix {
                position,
                expected,
                found: *found,
            });
        }
    }
    Ok(())
}

// 35: the first acknowledged id not recovered.
fn first_lost(ledger: &LedgerRef<'_>, history: &[u32]) -> Verdict
    ensures { result ≡ first_lost Breach.LostAnAcknowledgedRecord history.now (ids_from 2 ledger.now.ids.now ledger.now.states.now) }
{
    for (id, state) in ledger.ids.iter().zip(ledger.states) {
        if *state >= Durability::Acknowledged as u8 && !id_columns::contains(history, *id) {
            return Err(Breach::LostAnAcknowledgedRecord(*id));
        }
    }
    Ok(())
}

// 36: the first dispatched id not recovered. The loop of 35 goes over two columns and this one over a list: one function for
// both would take an iterator and a breach, and be no shorter.
fn first_unaccounted(dispatched: &[u32], history: &[u32]) -> Verdict
    ensures { result ≡ first_lost Breach.DispatchedWithoutADurableIntent history.now dispatched.now }
{
    for intent in dispatched {
        if !id_columns::contains(history, *intent) {
            return Err(Breach::DispatchedWithoutADurableIntent(*intent));
        }
    }
    Ok(())
}

// 37 for bank count 0, 38 with the count for 2 or more.
fn bank_breach(banks: Option<u64>) -> Verdict
    ensures { result ≡ banks_breach banks }
{
    match banks {
        None | Some(1) => Ok(()),
        Some(0) => Err(Breach::NoAuthoritativeBank),
        Some(count) => Err(Breach::AmbiguousAuthority(count)),
    }
}

impl Entries<'_> {
    // 33 if the id's first entry is attempted, else 34 if it is torn.
    fn fault_of(&self, id: u32) -> Verdict
        ensures { result ≡ fault_of (held_by self.now.columns) id }
    {
        let Some(row) = id_columns::first_place(self.columns.ids, id) else {
            return Ok(());
        };
        if self.columns.states[row] == Durability::Attempted as u8 {
            return Err(Breach::RecoveredWhatWasNeverAttempted(id));
        }
        if self.columns.torn[row] == 1 {
            return Err(Breach::RecoveredATornRecord(id));
        }
        Ok(())
    }

    // The least recovered id with a fault: the one that is met first by rising value.
    fn least_faulty(&self, history: &[u32]) -> Option<u32>
        ensures { result ≡ least_faulty (fault_of (held_by self.now.columns)) history.now }
    {
        history
            .iter()
            .copied()
            .filter(|id| self.fault_of(*id).is_err())
            .min()
    }

    // 33 and 34, over recovered ids by rising value.
    fn first_fault(&self, history: &[u32]) -> Verdict
        ensures { result ≡ first_fault (held_by self.now.columns) history.now }
    {
        match self.least_faulty(history) {
            None => Ok(()),
            Some(id) => self.fault_of(id),
        }
    }

    // The verdict on the ledger.
    fn judged(&self, history: &[u32], dispatched: &[u32], banks: Option<u64>) -> Verdict
        ensures { result ≡ verdict (held_by self.now.columns) history.now dispatched.now banks }
    {
        first_repeat(self.columns.ids)?;
        // Before the prefix, because "recovery produced a record that never reached media" is a diagnosis and "position 1
        // disagrees" is a symptom of it.
        self.first_fault(history)?;
        first_difference(&self.columns, history)?;
        first_lost(&self.columns, history)?;
        first_unaccounted(dispatched, history)?;
        bank_breach(banks)
    }
}

// Whether a recovery is a legal one of the run that the ledger describes: the first breach in document 01's order, with its
// values. The bank count comes last on purpose: what was lost is the more specific diagnosis.
pub fn verify_oracle(
    ledger: &LedgerRef<'_>,
    history: &[u32],
    dispatched: &[u32],
    banks: Option<u64>,
) -> Verdict
    ensures { result ≡ verified ledger.now.ids.now ledger.now.states.now ledger.now.torn.now history.now dispatched.now banks }
{
    ledger.refusal().map_err(|_| Breach::Refused)?;
    let entries = Entries { columns: *ledger };
    entries.judged(history, dispatched, banks)
}

// The same for a recovery that claims nothing about banks or dispatched effects.
pub fn verify_recovery(ledger: &LedgerRef<'_>, history: &[u32]) -> Verdict
    ensures { result ≡ verified ledger.now.ids.now ledger.now.states.now ledger.now.torn.now history.now [] None }
{
    verify_oracle(ledger, history, &[], None)
}
