// Stored requests through the writer and stored replies through the reply check, a line each: name, answer, and the request.
#![tactic(auto)]

mod stored; // stored.rt: the requests and replies

use dac_check::Unfit;
use std::io;

fn hex<W: io::Write>(out: &mut W, s: &[u8]) -> io::Result<()> {
    for b in s {
        write!(out, "{b:02x}")?;
    }
    Ok(())
}

pub fn write<W: io::Write>(
    out: &mut W,
    name: &[u8],
    code: u32,
    given: &[u8],
    add: bool,
) -> io::Result<()> {
    let mut packet = [0u8; 4096];
    out.write_all(name)?;
    match dac_write::write_request(code, 7, given, add, b"xyzzy", &mut packet) {
        Ok(n) => {
            write!(out, " answer 0 packet ")?;
            hex(out, octet_runs::slice(&packet, 0, n))?;
        }
        Err(r) => write!(out, " answer {}", u32::from(r))?,
    }
    out.write_all(b"\n")
}

pub fn check<W: io::Write>(
    out: &mut W,
    name: &[u8],
    request: &[u8],
    reply: &[u8],
) -> io::Result<()> {
    let answer = match dac_check::check_reply(b"xyzzy", request, reply) {
        Ok(()) => 0,
        Err(Unfit::Mismatch(v)) => 200 + u32::from(v),
        Err(Unfit::Refused(r)) => u32::from(r),
    };
    out.write_all(name)?;
    write!(out, " answer {answer}")?;
    out.write_all(b"\n")
}

fn main(rt: HostRuntime) -> io::Result<()> {
    let mut out = rt.stdout();
    stored::written(&mut out)?;
    stored::right(&mut out)?;
    stored::failed(&mut out)
}
