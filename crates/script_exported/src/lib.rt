// The layer `script` for callers in Rust or C, which tests/differential holds against a reader of its own: a text and lent
// columns in, a lent reply filled with numbers. Each function makes one call and tells its answer whole: document 01's
// number, 0 where nothing is refused, the line, and then what line 1 says and how many calls and bytes there are, all 0
// after a refusal. A slice crosses as a pointer, then a length; an array as a pointer.
#![tactic(auto)]

ghost use Rattle.std.specs.Prelude.{◌≡◌};
ghost use Rattle.script.specs.Script.{script_of};
ghost use Rattle.script.specs.Columns.{columns, count_of, read_into};
ghost use Rattle.script.specs.Lent.{reply_of};
ghost use Rattle.script_exported.specs.Reply.{read_cells, reply_cells};

use basics::Numbered;
use script::{CallsMut, Script, ScriptError};

// The cells of a script that was read.
fn read_cells(script: Script) -> [u32; 10]
    ensures { result ≡ read_cells script.head script.calls script.bytes }
{
    let head = script.head;
    let geometry = head.geometry;
    [
        0,
        0,
        geometry.capacity,
        geometry.erase_size,
        geometry.program_size,
        geometry.read_size,
        u32::from(head.rejected),
        u32::from(head.carries_on),
        script.calls,
        script.bytes,
    ]
}

// The cells of an answer.
fn reply_cells(answer: Result<Script, ScriptError>) -> [u32; 10]
    ensures { result ≡ reply_cells (reply_of answer) }
{
    match answer {
        Ok(script) => read_cells(script),
        Err(error) => [error.refusal.number(), error.line, 0, 0, 0, 0, 0, 0, 0, 0],
    }
}

// `count_calls`: what line 1 says, how many calls a script has and how many bytes they bring; or its number and line.
#[unsafe(no_mangle)]
pub extern "C" fn script_count_calls(text: &[u8], reply: &mut [u32; 10])
    ensures { reply.new ≡ reply_cells (count_of (script_of text.now)) }
{
    *reply = reply_cells(script::count_calls(text));
}

// `read_script`: the same, and a row for each call in the five columns and the bytes of all programs in the pool; a refusal
// leaves them.
#[unsafe(no_mangle)]
pub extern "C" fn script_read_script(
    text: &[u8],
    kinds: &mut [u8],
    firsts: &mut [u32],
    seconds: &mut [u32],
    thirds: &mut [u32],
    starts: &mut [u32],
    pool: &mut [u8],
    reply: &mut [u32; 10],
)
    ensures { (reply.new ≡ reply_cells (read_into text.now (columns kinds.old firsts.old seconds.old thirds.old starts.old pool.old)).reply) × (columns kinds.new firsts.new seconds.new thirds.new starts.new pool.new ≡ (read_into text.now (columns kinds.old firsts.old seconds.old thirds.old starts.old pool.old)).columns) }
{
    let mut calls = CallsMut {
        kinds,
        firsts,
        seconds,
        thirds,
        starts,
        pool,
    };
    *reply = reply_cells(script::read_script(text, &mut calls));
}
