// Stored packets through the handler, a line each: name, answer, sessions changed, skew, reply, and the slots that changed.
#![tactic(auto)]

mod stored; // stored.rt: the packets

use das_answer::Answer;
use nas_settings::Gate;
use std::io;
use table_records::Session;

fn hex<W: io::Write>(out: &mut W, s: &[u8]) -> io::Result<()> {
    for byte in s {
        write!(out, "{byte:02x}")?;
    }
    Ok(())
}

// Writes what an answer tells, and gives the length of the reply.
fn told<W: io::Write>(out: &mut W, answer: Answer) -> io::Result<usize> {
    match answer {
        Answer::Refused(refusal) => {
            write!(out, " answer {}", u32::from(refusal))?;
            Ok(0)
        }
        Answer::Discarded(discard) => {
            write!(out, " answer {}", 100 + u32::from(discard))?;
            Ok(0)
        }
        Answer::Stale(skew) => {
            write!(out, " answer 106 skew {skew}")?;
            Ok(0)
        }
        Answer::Nak(cause, skew, size) => {
            write!(out, " answer {} skew {skew}", u32::from(cause))?;
            Ok(size)
        }
        Answer::Ack(count, skew, size) => {
            write!(out, " answer 0 changed {count} skew {skew}")?;
            Ok(size)
        }
    }
}

// Slot k, where it is not as it was.
fn changed<W: io::Write>(out: &mut W, before: &[u8], t: &[u8], k: usize) -> io::Result<()> {
    let was = table_slots::slot_of(before, k);
    let is = table_slots::slot_of(t, k);
    if !octet_runs::equal(was, is) {
        write!(out, " slot {k} ")?;
        hex(out, is)?;
    }
    Ok(())
}

// Two sessions on NAS-Port 7. Both slots are free, so no insert is refused.
fn table() -> [u8; 384] {
    let ann = Session {
        nas_port: 7,
        framed_address: 0x0a000007,
        session_timeout: 65000,
        idle_timeout: 600,
        user_name: b"ann",
        session_id: b"4F",
        calling_station: b"02",
        filter_id: b"day",
    };
    let bob = Session {
        nas_port: 7,
        framed_address: 0x0a000008,
        session_timeout: 7200,
        idle_timeout: 600,
        user_name: b"bob",
        session_id: b"50",
        calling_station: b"",
        filter_id: b"",
    };
    let mut t = [0u8; 384];
    let _ = table_sessions::insert(&mut t, &ann);
    let _ = table_sessions::insert(&mut t, &bob);
    t
}

// The table that each packet finds.
fn start<W: io::Write>(out: &mut W) -> io::Result<()> {
    let none = [0u8; 384];
    let t = table();
    write!(out, "Table")?;
    changed(out, &none, &t, 0)?;
    changed(out, &none, &t, 1)?;
    writeln!(out)
}

pub fn run<W: io::Write>(out: &mut W, name: &[u8], packet: &[u8]) -> io::Result<()> {
    let before = table();
    let mut t = table();
    let mut reply = [0u8; 4096];
    out.write_all(name)?;
    let gate = Gate {
        secret: b"xyzzy",
        nas_ip: 0xc0000207,
        nas_id: b"g",
    };
    let answer = das_handle::handle(&mut t, &gate, &mut reply, packet, 1700000000);
    let n = told(out, answer)?;
    if n > 0 {
        write!(out, " reply ")?;
        hex(out, octet_runs::slice(&reply, 0, n))?;
    }
    changed(out, &before, &t, 0)?;
    changed(out, &before, &t, 1)?;
    writeln!(out)
}

fn main(rt: HostRuntime) -> io::Result<()> {
    let mut out = rt.stdout();
    start(&mut out)?;
    stored::discards(&mut out)?;
    stored::naks(&mut out)?;
    stored::acks(&mut out)
}
