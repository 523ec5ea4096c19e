// The request writer: the other side of the gate.
#![tactic(auto)]

ghost use Rattle.std.specs.Prelude.{◌≡◌};
ghost use Rattle.dac_write.specs.Writer.{draft, write_answer, write_output};

use refusals::Refusal;

mod writing; // writing.rt: a request that is not refused

// Writes a request of these attributes, and type 80 after them if asked for, and returns its length. A refusal leaves out as it was.
#[tactic(auto, unfolding(crate::specs::Writer::write_answer, crate::specs::Writer::write_output))]
pub fn write_request(
    code: u32,
    identifier: u8,
    given: &[u8],
    add: bool,
    secret: &[u8],
    out: &mut [u8],
) -> Result<usize, Refusal>
    ensures value { result ≡ write_answer secret.now out.old (draft code identifier given.now «add») }
    ensures out_after { out.new ≡ write_output secret.now out.old (draft code identifier given.now «add») }
{
    writing::refusal(code, given, add, secret, &*out)?;
    // The code fits, and `try_from` would give an error that cannot come.
    Ok(writing::put_request(code as u8, identifier, given, add, secret, out))
}
