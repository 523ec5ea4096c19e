// The library as C calls it: numbers and byte runs. Nothing is decided here.
#![tactic(auto)]

mod make; // the scheduler, a call a file: make.rt, open.rt, step.rt, drop.rt, start.rt, end.rt
mod drop;
mod end;
mod open;
mod start;
mod step;

ghost use Rattle.std.specs.Prelude.{◌≡◌, cond, not, eqb, pos};
ghost use Rattle.nas_settings.specs.Settings.{settings};
ghost use Rattle.das_handle.specs.Handle.{handle_answer, handle_table, handle_reply};
ghost use Rattle.dac_write.specs.Writer.{draft, write_answer, write_output};
ghost use Rattle.dac_check.specs.ReplyCheck.{check_answer};
ghost use Rattle.c_numbers.specs.Numbers.{told, answer_told, written_number, written_length, checked_number};

use c_numbers::numbers::Told;
use nas_settings::Gate;

// What is told before an answer is known. A refusal gives it back with a number of its own; no other answer has a stamp of 2.
fn untold() -> Told
    ensures { result ≡ told 0 0 0 (pos 0) 2 }
{
    Told {
        stamped: 2,
        ..Told::alone(0)
    }
}

// Writes the numbers beside an answer where C lends them, and gives back the answer's own. What C lends is not read, as C may not have set it,
// and not written after a refusal.
fn told_to(
    numbers: Told,
    changed: &mut u32,
    size: &mut u32,
    skew: &mut i64,
    stamped: &mut u32,
) -> u32
    ensures { told result changed.new size.new skew.new stamped.new ≡ cond (eqb numbers.stamped 2) (told numbers.answer changed.old size.old skew.old stamped.old) numbers }
{
    if numbers.stamped != 2 {
        *changed = numbers.changed;
        *size = numbers.length;
        *skew = numbers.skew;
        *stamped = numbers.stamped;
    }
    numbers.answer
}

// Handles a request.
#[unsafe(no_mangle)]
pub extern "C" fn fbk_handle(
    table: &mut [u8],
    secret: &[u8],
    nas_ip: u32,
    nas_id: &[u8],
    reply: &mut [u8],
    packet: &[u8],
    clock: u32,
    changed: &mut u32,
    size: &mut u32,
    skew: &mut i64,
    stamped: &mut u32,
) -> u32
    ensures stamped_after { told result changed.new size.new skew.new stamped.new ≡ answer_told (handle_answer (settings secret.now nas_ip nas_id.now) table.old reply.old packet.now clock) (told 0 changed.old size.old skew.old stamped.old) }
    ensures table_after { table.new ≡ handle_table (settings secret.now nas_ip nas_id.now) table.old reply.old packet.now clock }
    ensures reply_after { reply.new ≡ handle_reply (settings secret.now nas_ip nas_id.now) table.old reply.old packet.now clock }
{
    let gate = Gate {
        secret,
        nas_ip,
        nas_id,
    };
    let a = das_handle::handle(table, &gate, reply, packet, clock);
    let numbers = c_numbers::numbers::tell(a, untold());
    told_to(numbers, changed, size, skew, stamped)
}

// Writes a request.
#[unsafe(no_mangle)]
pub extern "C" fn fbk_write(
    code: u32,
    identifier: u8,
    given: &[u8],
    add: u32,
    secret: &[u8],
    out: &mut [u8],
    size: &mut u32,
) -> u32
    ensures value { result ≡ written_number (write_answer secret.now out.old (draft code identifier given.now (not (eqb add 0)))) }
    ensures out_after { out.new ≡ write_output secret.now out.old (draft code identifier given.now (not (eqb add 0))) }
    ensures size_after { size.new ≡ written_length (write_answer secret.now out.old (draft code identifier given.now (not (eqb add 0)))) size.old }
{
    let w = dac_write::write_request(code, identifier, given, add != 0, secret, out);
    *size = c_numbers::exchange::written_length(w, *size);
    c_numbers::exchange::written_number(w)
}

// Checks a reply.
#[unsafe(no_mangle)]
pub extern "C" fn fbk_check_reply(secret: &[u8], request: &[u8], reply: &[u8]) -> u32
    ensures { result ≡ checked_number (check_answer secret.now request.now reply.now) }
{
    c_numbers::exchange::checked_number(dac_check::check_reply(secret, request, reply))
}
