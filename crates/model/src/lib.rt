// The ledger of a run, after model.rs: every record that the run declared, in order, with the state it ended in and whether
// it is torn. A ledger is three lent columns of one length: ids, states (0 attempted, 1 possibly durable, 2 acknowledged) and
// torn (0 or 1). Columns that hold no ledger are refused with 12. What is asked of an id's first entry is in `first_entries`,
// and the committed and the acknowledged ids are in `ids_by_state`. Each promise is an equation with a definition of specs/.
#![tactic(auto)]

ghost use Rattle.std.specs.Prelude.{◌≡◌, length};
ghost use Rattle.basics.specs.Replies.{number_in, numbered};
ghost use Rattle.refusals.specs.Numbers.{number_of};
ghost use Rattle.model.specs.Columns.{state_of, all_up_to, uneven, refused};
ghost use Rattle.model.specs.Answers.{len_asked};

use refusals::Refusal;

// What recovery is allowed, and required, to do with a record. As a number it is the code that the column of states holds.
#[derive(Clone, Copy, Debug, PartialEq, Eq, PartialOrd, Ord)]
pub enum Durability {
    // Nothing of it reached media. Recovery must not produce it.
    Attempted,
    // Some or all of it reached media, and no barrier has ordered it since. Recovery may produce it or not.
    PossiblyDurable,
    // A barrier returned after every one of its writes. Recovery must produce it.
    Acknowledged,
}

// The state that a code of the column stands for. (Not a TryFrom: `refusal` tells a code without a meaning before, and here it is
// `Acknowledged`.)
impl From<u8> for Durability {
    ghost from_gives = { λ code state. state ≡ state_of code };

    fn from(code: u8) -> Durability {
        match code {
            0 => Durability::Attempted,
            1 => Durability::PossiblyDurable,
            _ => Durability::Acknowledged,
        }
    }
}

// A ledger's three columns, lent to be read.
#[derive(Clone, Copy)]
pub struct LedgerRef<'a> {
    pub ids: &'a [u32],
    pub states: &'a [u8],
    pub torn: &'a [u8],
}

// The same columns, lent to be written.
#[derive(Drop)]
pub struct LedgerMut<'a> {
    pub ids: &'a mut [u32],
    pub states: &'a mut [u8],
    pub torn: &'a mut [u8],
}

// Whether no code of a column is above `top`. Every code is read: with no way out of the loop it is compiled to vectors.
pub fn all_up_to(codes: &[u8], top: u8) -> bool
    ensures { result ≡ all_up_to top codes.now }
{
    let mut sound = true;
    for code in codes {
        sound &= *code <= top;
    }
    sound
}

impl LedgerRef<'_> {
    // Whether the columns are unequal.
    pub fn uneven(&self) -> bool
        ensures { result ≡ uneven (length self.now.ids.now) (length self.now.states.now) (length self.now.torn.now) }
    {
        let rows = self.ids.len();
        (self.states.len() != rows) | (self.torn.len() != rows)
    }

    // 12 for three columns that hold no ledger: of unequal lengths, with a state above 2, or with a torn code above 1.
    pub fn refusal(&self) -> Result<(), Refusal>
        ensures { number_in number_of result ≡ refused self.now.ids.now self.now.states.now self.now.torn.now }
    {
        if self.uneven() {
            return Err(Refusal::MalformedColumns);
        }
        if !all_up_to(self.states, 2) {
            return Err(Refusal::MalformedColumns);
        }
        if !all_up_to(self.torn, 1) {
            return Err(Refusal::MalformedColumns);
        }
        Ok(())
    }

    // How many records the run declared.
    pub fn len(&self) -> Result<usize, Refusal>
        ensures { numbered number_of result ≡ len_asked self.now.ids.now self.now.states.now self.now.torn.now }
    {
        self.refusal()?;
        Ok(self.ids.len())
    }
}

impl LedgerMut<'_> {
    // The columns to read. (As `session` has it of its columns: a trait for all would name a type of answer and a definition for each.)
    pub fn seen(&self) -> LedgerRef<'_>
        ensures { (result.ids.now ≡ self.now.ids.now) × (result.states.now ≡ self.now.states.now) × (result.torn.now ≡ self.now.torn.now) }
    {
        LedgerRef {
            ids: self.ids,
            states: self.states,
            torn: self.torn,
        }
    }

    // Whether the columns are unequal.
    pub fn uneven(&self) -> bool
        ensures { result ≡ uneven (length self.now.ids.now) (length self.now.states.now) (length self.now.torn.now) }
    {
        self.seen().uneven()
    }
}
