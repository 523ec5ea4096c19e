// What a request does to the sessions that it names: each that is marked and live is ended or altered.
#![tactic(auto)]

mod fields; // fields.rt: what an alteration writes

ghost use Rattle.std.specs.Prelude.{◌≡◌, ◌+◌, ◌*◌, ◌≤◌, ◌<◌, length, replicate};
ghost use Rattle.octet_numbers.specs.Runs.{write};
ghost use Rattle.table_slots.specs.Slot.{slot_count, slot};
ghost use Rattle.table_change.specs.Change.{altered, change_at, marked, change_marked, count_marked};

use octet_runs::Span;

// What a CoA alters, where it names it. The text is a run of the request's attributes.
#[derive(Clone, Copy, Debug, PartialEq, Eq)]
pub struct Alteration {
    pub timeout: Option<u32>,
    pub idle: Option<u32>,
    pub filter: Option<Span>,
    pub down: Option<u32>,
    pub up: Option<u32>,
}

// What happens to the sessions that a request names.
#[derive(Clone, Copy, Debug, PartialEq, Eq)]
pub enum Change {
    End,
    Alter(Alteration),
}

// Alters slot k.
fn alter_slot(t: &mut [u8], k: usize, area: &[u8], a: Alteration)
    requires { (k + 1) * 192 ≤ length t.old }
    ensures { t.new ≡ write t.old (k * 192) (altered area.now a (slot k t.old)) }
{
    let at = k * 192;
    fields::set_number(&mut *t, at + 10, a.timeout);
    fields::set_number(&mut *t, at + 14, a.idle);
    fields::set_text(&mut *t, at + 148, area, a.filter);
    fields::set_number(&mut *t, at + 181, a.down);
    fields::set_number(t, at + 185, a.up);
}

// Ends slot k: all its bytes are zero.
pub fn end_slot(t: &mut [u8], k: usize)
    requires { (k + 1) * 192 ≤ length t.old }
    ensures { t.new ≡ write t.old (k * 192) (replicate 192 0) }
{
    octet_copies::fill(t, k * 192, 192, 0);
}

// Ends or alters slot k.
#[tactic(auto, unfolding(crate::specs::Change::change_at, crate::specs::Change::changed))]
fn change_slot(t: &mut [u8], k: usize, area: &[u8], c: Change)
    requires { (k + 1) * 192 ≤ length t.old }
    ensures { t.new ≡ change_at area.now c k t.old }
{
    match c {
        Change::End => end_slot(t, k),
        Change::Alter(a) => alter_slot(t, k, area, a),
    }
}

// Whether slot k is marked and live.
fn is_marked(t: &[u8], marks: &[u8; 64], k: usize) -> bool
    requires { k < 64 }
    ensures { result ≡ marked marks.now t.now k }
{
    marks[k] == 1 && table_slots::slot_live(t, k)
}

// Changes every slot that is marked and live, and says how many there are.
pub fn change_marked(t: &mut [u8], area: &[u8], marks: &[u8; 64], c: Change) -> usize
    ensures value { result ≡ count_marked marks.now (slot_count t.old) t.old }
    ensures t_after { t.new ≡ change_marked area.now c marks.now (slot_count t.old) t.old }
{
    let mut count = 0;
    for k in 0..table_slots::slot_count(t) {
        if is_marked(t, marks, k) {
            change_slot(&mut *t, k, area, c);
            count += 1;
        }
    }
    count
}
