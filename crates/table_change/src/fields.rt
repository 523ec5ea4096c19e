// The fields that a CoA names, written.
ghost use Rattle.std.specs.Prelude.{◌≡◌, ◌+◌, ◌≤◌, length};
ghost use Rattle.table_change.specs.Change.{set_number, set_text};

use octet_runs::Span;

// Writes a number where the request names it.
#[tactic(auto, unfolding(crate::specs::Change::set_number))]
pub fn set_number(t: &mut [u8], at: usize, x: Option<u32>)
    requires { at + 4 ≤ length t.old }
    ensures { t.new ≡ set_number x at t.old }
{
    if let Some(v) = x {
        octet_numbers::put_be32(t, at, v);
    }
}

// Writes a text of the area of the request's attributes, where the request names it.
#[tactic(auto, unfolding(crate::specs::Change::set_text))]
pub fn set_text(t: &mut [u8], at: usize, area: &[u8], x: Option<Span>)
    requires { at + 33 ≤ length t.old }
    ensures { t.new ≡ set_text area.now x at t.old }
{
    if let Some(v) = x {
        table_records::put_text(t, at, 32, v.of(area));
    }
}
