// The record of a session, written to its slot, and the limits of its texts.
#![tactic(auto)]

ghost use Rattle.std.specs.Prelude.{◌≡◌, [], ◌∷◌, ◌++◌, ◌+◌, ◌*◌, ◌≤◌, ◌<◌, length, replicate};
ghost use Rattle.octet_numbers.specs.Numbers.{be_bytes};
ghost use Rattle.octet_numbers.specs.Runs.{write};
ghost use Rattle.table_records.specs.Record.{text_field, record_of, fits_record};

mod session; // session.rt: what is recorded

pub use session::Session;

// Writes a text field of 1 + cap bytes: length, value, zeros.
pub fn put_text(t: &mut [u8], at: usize, cap: usize, v: &[u8])
    requires { (cap < 256) × (at + 1 + cap ≤ length t.old) }
    ensures { t.new ≡ write t.old at (text_field cap v.now) }
{
    let kept = octet_runs::slice(v, 0, cap);
    let n = kept.len();
    // n fits, and `try_from` would give an error that cannot come.
    t[at] = n as u8;
    octet_copies::copy(&mut *t, at + 1, kept);
    octet_copies::fill(t, at + 1 + n, cap - n, 0);
}

// Whether the texts keep to the limits of the record.
#[tactic(auto, unfolding(crate::specs::Record::fits_record))]
pub fn fits_record(x: &Session) -> bool
    ensures { result ≡ fits_record x.now }
{
    table_slots::in_range(1, 63, x.user_name.len())
        && table_slots::in_range(1, 32, x.session_id.len())
        && table_slots::in_range(0, 32, x.calling_station.len())
        && table_slots::in_range(0, 32, x.filter_id.len())
}

// Writes the record's mark.
fn put_mark(t: &mut [u8], at: usize)
    requires { at + 2 ≤ length t.old }
    ensures { t.new ≡ write t.old at (0x5A ∷ 0x4C ∷ []) }
{
    t[at] = 0x5A;
    t[at + 1] = 0x4C;
}

// Writes the record's mark and the four numbers, 18 bytes.
fn put_numbers(t: &mut [u8], at: usize, x: &Session)
    requires { at + 18 ≤ length t.old }
    ensures { t.new ≡ write t.old at ((0x5A ∷ 0x4C ∷ []) ++ be_bytes 4 x.now.port ++ be_bytes 4 x.now.address ++ be_bytes 4 x.now.timeout ++ be_bytes 4 x.now.idle) }
{
    put_mark(&mut *t, at);
    octet_numbers::put_be32(&mut *t, at + 2, x.nas_port);
    octet_numbers::put_be32(&mut *t, at + 6, x.framed_address);
    octet_numbers::put_be32(&mut *t, at + 10, x.session_timeout);
    octet_numbers::put_be32(t, at + 14, x.idle_timeout);
}

// Writes the four texts and the zeros after them, 174 bytes.
fn put_texts(t: &mut [u8], at: usize, x: &Session)
    requires { at + 174 ≤ length t.old }
    ensures { t.new ≡ write t.old at (text_field 63 x.now.user ++ text_field 32 x.now.id ++ text_field 32 x.now.station ++ text_field 32 x.now.filter ++ replicate 11 0) }
{
    put_text(&mut *t, at, 63, x.user_name);
    put_text(&mut *t, at + 64, 32, x.session_id);
    put_text(&mut *t, at + 97, 32, x.calling_station);
    put_text(&mut *t, at + 130, 32, x.filter_id);
    octet_copies::fill(t, at + 163, 11, 0);
}

// Writes the whole record of a session to slot k.
pub fn put_record(t: &mut [u8], k: usize, x: &Session)
    requires { (k + 1) * 192 ≤ length t.old }
    ensures { t.new ≡ write t.old (k * 192) (record_of x.now) }
{
    let at = k * 192;
    put_numbers(&mut *t, at, x);
    put_texts(t, at + 18, x);
}
