// A script: text that stands for a record writer's calls. Document 01, "Scripts and the two programs", has its lines; the
// Rust has no script, its writer is a closure. A script is read once into lent columns, a row for each call, and a lent
// pool of bytes, so that later runs never look at the text again; or it is refused with an error and a line, and then
// nothing that was lent changes. Both ways are one equation: what is accepted means those calls, and what means calls is
// not refused.
//
// Reading goes over the text twice: the first time to know that no line is faulty, how many calls there are and how many
// bytes they bring; the second time to store them. A line is read from its first byte on, with no look ahead for its end.
#![tactic(auto)]

ghost use Rattle.std.specs.Prelude.{◌≡◌, not, ◌&&◌, ◌≤◌, ◌<◌, length, drop, eqb};
ghost use Rattle.basics.specs.Replies.{number_in};
ghost use Rattle.refusals.specs.Numbers.{number_of};
ghost use Rattle.refusals.specs.declared.Refusal.TheVariants.{MalformedLine};
ghost use Rattle.text.specs.Lines.{lines_of};
ghost use Rattle.script.specs.Calls.{read_lines};
ghost use Rattle.script.specs.First.{head_test};
ghost use Rattle.script.specs.Script.{script_of};
ghost use Rattle.script.specs.Columns.{written, uneven_of, room_test, count_of, after, read_into};
ghost use Rattle.script.specs.Lent.{columns_in, columns_seen, SameCalls, reply_of};
ghost use Rattle.script.specs.Inner.{Opened, row_of, Reads, ReadsUnits, ReadsHead, fault_at, checked_from, Checks, Ready, calls_read, stored};

use refusals::Refusal;
use storage::Geometry;
use text::{LF, TAB};

// A script above this many bytes is refused with 9.
pub const MOST_TEXT: usize = 65536;
// Columns of this length are enough for every script: the line of a call takes at least two bytes. So 13 is for shorter
// ones alone.
pub const MOST_CALLS: usize = 32768;
// And so is a pool of this length: a byte of a program takes two digits.
pub const MOST_BYTES: usize = 32768;
// A capacity above this is refused with 10.
pub const MOST_CAPACITY: u32 = 16384;
// A program has this many bytes at most.
const MOST_PROGRAM: usize = 4096;

// The codes of the kinds of rows. (Numbers: an enum would be made here and turned into its code where the row is stored; nothing between
// asks for one.)
const PROGRAM: u8 = 0;

const ERASE: u8 = 1;

const BARRIER: u8 = 2;

const BEGIN: u8 = 3;

const END: u8 = 4;

const RANGE: u8 = 5;

// What line 1 says: the device, whether a bit set without an erase is rejected (else absorbed), and whether the writer
// carries on at an error (else it stops and returns it): flags, as line 1 has them, since this crate knows no device.
#[derive(Clone, Copy, Debug, PartialEq, Eq)]
pub struct Head {
    pub geometry: Geometry,
    pub rejected: bool,
    pub carries_on: bool,
}

// A script that was read: line 1, how many calls it has and how many bytes they bring.
#[derive(Clone, Copy, Debug, PartialEq, Eq)]
pub struct Script {
    pub head: Head,
    pub calls: u32,
    pub bytes: u32,
}

// What refuses a script, and the line, which is 0 where the fault is in no line. (No `From<Refusal>`: the line is known where the refusal is
// met.)
#[derive(Clone, Copy, Debug, PartialEq, Eq)]
pub struct ScriptError {
    pub refusal: Refusal,
    pub line: u32,
}

// The columns that a script is read into, a row for each call: its kind by code, its first field (id or offset), its second
// (from or length), its third (to), and where in the pool its bytes start. The codes are those of a list of calls: 0 a
// program, 1 an erase, 2 a barrier, 3 begin, 4 end; and 5 a range. A field that a call does not have is 0.
#[derive(Drop)]
pub struct CallsMut<'a> {
    pub kinds: &'a mut [u8],
    pub firsts: &'a mut [u32],
    pub seconds: &'a mut [u32],
    pub thirds: &'a mut [u32],
    pub starts: &'a mut [u32],
    pub pool: &'a mut [u8],
}

// The same columns, to be looked at.
#[derive(Clone, Copy)]
pub struct CallsRef<'a> {
    pub kinds: &'a [u8],
    pub firsts: &'a [u32],
    pub seconds: &'a [u32],
    pub thirds: &'a [u32],
    pub starts: &'a [u32],
    pub pool: &'a [u8],
}

// A call as a line says it: its row of the columns, and where in the text its bytes start and how many there are.
#[derive(Clone, Copy, Debug, PartialEq, Eq)]
struct Row {
    kind: u8,
    first: u32,
    second: u32,
    third: u32,
    start: usize,
    size: u32,
}

// ---- a line after the first, by its letter
//
// Each reader takes the text and a place in it, and requires that a line of its own letter starts there. A struct of the two would
// be built anew at each field; with the fact in a ghost field it would hold the letter too, and each reader would still say which.
// Of a slice of what is left, every contract would have to say which part of the text it is.

// The row of a call without bytes.
fn bare_row(kind: u8, first: u32, second: u32, third: u32, start: usize) -> Row
    ensures { result ≡ row_of kind first second third start 0 }
{
    Row {
        kind,
        first,
        second,
        third,
        start,
        size: 0,
    }
}

// Whether a letter is neither `N` nor `S`. A product in place of two tests: nothing foretells which of the two comes next, and
// a branch between them is guessed wrong every other time. By a `match`, or by `matches!`, lines of these two took 1.6 times as
// long.
fn other_letter(kind: u8) -> bool
    ensures { result ≡ (not (eqb kind 78) && not (eqb kind 83)) }
{
    let letter = kind as u32;
    let from_end = (letter + 178) % 256;
    let from_barrier = (letter + 173) % 256;
    from_end * from_barrier != 0
}

// `N` ends, and `S` is a barrier: the LF follows the letter. (`text` is for the promise alone.)
fn alone_line(text: &[u8], from: usize, kind: u8) -> Option<(Row, usize)>
    requires { Opened text.now from kind 10 }
    ensures { Reads text.now from result }
{
    let other = other_letter(kind);
    if other {
        return None;
    }
    let code = if kind == b'N' { END } else { BARRIER };
    let next = from + 2;
    Some((bare_row(code, 0, 0, 0, next), next))
}

// `B` id begins.
fn begin_line(text: &[u8], from: usize) -> Option<(Row, usize)>
    requires { Opened text.now from 66 9 }
    ensures { Reads text.now from result }
{
    let (id, next) = read_fields::read_number(text, from + 2, LF)?;
    Some((bare_row(BEGIN, id, 0, 0, next), next))
}

// `M` id from to marks a range.
fn mark_line(text: &[u8], from: usize) -> Option<(Row, usize)>
    requires { Opened text.now from 77 9 }
    ensures { Reads text.now from result }
{
    let (id, at) = read_fields::read_number(text, from + 2, TAB)?;
    let (first, past) = read_fields::read_number(text, at, TAB)?;
    let (last, next) = read_fields::read_number(text, past, LF)?;
    Some((bare_row(RANGE, id, first, last, next), next))
}

// `E` offset length.
fn erase_line(text: &[u8], from: usize) -> Option<(Row, usize)>
    requires { Opened text.now from 69 9 }
    ensures { Reads text.now from result }
{
    let (offset, at) = read_fields::read_number(text, from + 2, TAB)?;
    let (len, next) = read_fields::read_number(text, at, LF)?;
    Some((bare_row(ERASE, offset, len, 0, next), next))
}

// `P` offset bytes: pairs, at most MOST_PROGRAM of them.
fn program_line(text: &[u8], from: usize) -> Option<(Row, usize)>
    requires { Opened text.now from 80 9 }
    ensures { Reads text.now from result }
{
    let (offset, start) = read_fields::read_number(text, from + 2, TAB)?;
    let (count, next) = hex_pairs::read_pairs(text, start)?;
    if MOST_PROGRAM < count {
        return None;
    }
    let size = count as u32;
    let program = Row {
        kind: PROGRAM,
        first: offset,
        second: size,
        third: 0,
        start,
        size,
    };
    Some((program, next))
}

// The line that starts at a place. A line whose kind letter is none of these is faulty. (A `match` on the letter: each reader requires its
// own. In line in both passes: from a call the row comes back through memory, and most lines took 1.3 to 1.5 times as long.)
#[inline(always)]
fn read_line(text: &[u8], from: usize) -> Option<(Row, usize)>
    requires { from < length text.now }
    ensures { Reads text.now from result }
{
    let past = from + 1;
    if text.len() <= past {
        return None;
    }
    let kind = text[from];
    let end = text[past];
    if end == LF {
        return alone_line(text, from, kind);
    }
    if end != TAB {
        return None;
    }
    match kind {
        b'B' => begin_line(text, from),
        b'M' => mark_line(text, from),
        b'P' => program_line(text, from),
        b'E' => erase_line(text, from),
        _ => None,
    }
}

// ---- line 1

// Capacity, erase, program and read unit, a tab after each.
fn read_units(text: &[u8], at: usize) -> Option<(Geometry, usize)>
    ensures { ReadsUnits text.now at result }
{
    let (capacity, after_capacity) = read_fields::read_number(text, at, TAB)?;
    let (erase_size, after_erase) = read_fields::read_number(text, after_capacity, TAB)?;
    let (program_size, after_program) = read_fields::read_number(text, after_erase, TAB)?;
    let (read_size, next) = read_fields::read_number(text, after_program, TAB)?;
    let geometry = Geometry {
        capacity,
        erase_size,
        program_size,
        read_size,
    };
    Some((geometry, next))
}

// `G`, the four numbers, `a` or `r`, `s` or `c`.
fn read_head(text: &[u8]) -> Option<(Head, usize)>
    ensures { ReadsHead text.now result }
{
    let (kind, at) = read_fields::read_letter(text, 0, TAB)?;
    if kind != b'G' {
        return None;
    }
    let (geometry, after_units) = read_units(text, at)?;
    let (rule, after_rule) = read_fields::read_letter(text, after_units, TAB)?;
    if (rule != b'a') & (rule != b'r') {
        return None;
    }
    let (mode, next) = read_fields::read_letter(text, after_rule, LF)?;
    if (mode != b's') & (mode != b'c') {
        return None;
    }
    let head = Head {
        geometry,
        rejected: rule == b'r',
        carries_on: mode == b'c',
    };
    Some((head, next))
}

// Whether a script may have this geometry: 1 to 3, and then 10 for a capacity above 16,384.
fn head_refusal(geometry: Geometry) -> Result<(), Refusal>
    ensures { number_in number_of result ≡ head_test geometry }
{
    geometry.check()?;
    if MOST_CAPACITY < geometry.capacity {
        return Err(Refusal::CapacityTooLarge);
    }
    Ok(())
}

// ---- the two passes

// A line that is malformed.
fn malformed(line: u32) -> ScriptError
    ensures { result ≡ fault_at MalformedLine line }
{
    ScriptError {
        refusal: Refusal::MalformedLine,
        line,
    }
}

// The lines from a place on, the first of them line 2: how many calls and bytes, or the first faulty line.
fn check_lines(text: &[u8], from: usize) -> Result<(u32, u32), ScriptError>
    requires { (from ≤ length text.now) × (length text.now ≤ 65536) }
    ensures { result ≡ checked_from 0 0 (read_lines 2 (lines_of (drop from text.now))) }
{
    let mut at = from;
    let mut calls: u32 = 0;
    let mut bytes: u32 = 0;
    // By places: only reading a line tells where it ends, so that no iterator gives the lines.
    while at < text.len() {
        let Some((row, next)) = read_line(text, at) else {
            return Err(malformed(calls + 2));
        };
        calls += 1;
        bytes += row.size;
        at = next;
    }
    Ok((calls, bytes))
}

// A script without the columns, and where its second line starts: every number but 12 and 13 is found here.
fn check(text: &[u8]) -> Result<(Script, usize), ScriptError>
    ensures { Checks text.now result }
{
    if MOST_TEXT < text.len() {
        return Err(ScriptError {
            refusal: Refusal::ScriptTooLong,
            line: 0,
        });
    }
    let Some((head, body)) = read_head(text) else {
        return Err(malformed(1));
    };
    head_refusal(head.geometry).map_err(|refusal| ScriptError { refusal, line: 1 })?;
    let (calls, bytes) = check_lines(text, body)?;
    Ok((Script { head, calls, bytes }, body))
}

// Stores a line's bytes over a part of the pool. Most lines have none, and are done at once: by places, so that no slice is made for them.
fn store_bytes(text: &[u8], start: usize, pool: &mut [u8], used: usize, free: usize)
    requires { (used ≤ free) × (free ≤ length pool.old) }
    ensures { pool.new ≡ stored text.now start pool.old used free }
{
    if free == used {
        return;
    }
    hex_pairs::decode(text, start, &mut pool[used..free]);
}

impl CallsRef<'_> {
    // Whether the five columns are unequal.
    pub fn uneven(&self) -> bool
        ensures { result ≡ uneven_of (columns_seen self.now) }
    {
        let rows = self.kinds.len();
        (self.firsts.len() != rows)
            | (self.seconds.len() != rows)
            | (self.thirds.len() != rows)
            | (self.starts.len() != rows)
    }

    // The columns and the pool against what is to be stored: 12 or 13.
    fn room_refusal(&self, calls: u32, bytes: u32) -> Result<(), Refusal>
        ensures { number_in number_of result ≡ room_test (columns_seen self.now) calls bytes }
    {
        let short = (self.kinds.len() < calls as usize) | (self.pool.len() < bytes as usize);
        refusals::columns_refusal(self.uneven(), short)
    }
}

impl CallsMut<'_> {
    // The columns as they are. (As `session` has it of its columns: a trait for all would name a type of answer and a definition for each.)
    pub fn seen(&self) -> CallsRef<'_>
        ensures { columns_seen result ≡ columns_in self.now }
    {
        CallsRef {
            kinds: self.kinds,
            firsts: self.firsts,
            seconds: self.seconds,
            thirds: self.thirds,
            starts: self.starts,
            pool: self.pool,
        }
    }

    // Stores a row for each call, and the bytes of all programs one after the other in the pool. The lines are sound and
    // there is room: `check` and `room_refusal` come first.
    fn fill_lines(&mut self, text: &[u8], from: usize)
        requires { Ready text.now from (columns_in self.old) (calls_read (read_lines 2 (lines_of (drop from text.now)))) }
        ensures same { SameCalls self.old self.new }
        ensures left { columns_in self.new ≡ written (calls_read (read_lines 2 (lines_of (drop from text.now)))) (columns_in self.old) }
    {
        let mut at = from;
        // Counted by hand: the loop goes by places of the text, as that of `check_lines`.
        let mut i: usize = 0;
        let mut used: usize = 0;
        while at < text.len() {
            let Some((row, next)) = read_line(text, at) else {
                return;
            };
            let free = used + row.size as usize;
            self.kinds[i] = row.kind;
            self.firsts[i] = row.first;
            self.seconds[i] = row.second;
            self.thirds[i] = row.third;
            self.starts[i] = used as u32;
            store_bytes(text, row.start, self.pool, used, free);
            i += 1;
            used = free;
            at = next;
        }
    }
}

// ---- the script

// How many calls a script has, and how many bytes they bring; or what refuses it, and the line.
pub fn count_calls(text: &[u8]) -> Result<Script, ScriptError>
    ensures { reply_of result ≡ count_of (script_of text.now) }
{
    let (script, _) = check(text)?;
    Ok(script)
}

// Reads a script into lent columns. A refusal leaves all that was lent as it was: the script's own numbers first, then 12
// for columns of unequal length and 13 for columns or a pool that are too short.
pub fn read_script(text: &[u8], calls: &mut CallsMut<'_>) -> Result<Script, ScriptError>
    ensures same { SameCalls calls.old calls.new }
    ensures left { after (reply_of result) (columns_in calls.new) ≡ read_into text.now (columns_in calls.old) }
{
    let (script, body) = check(text)?;
    calls
        .seen()
        .room_refusal(script.calls, script.bytes)
        .map_err(|refusal| ScriptError { refusal, line: 0 })?;
    calls.fill_lines(text, body);
    Ok(script)
}
