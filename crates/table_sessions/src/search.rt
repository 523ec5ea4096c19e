// What a new session asks of the slots: whether its Acct-Session-Id is live, and which slot is free.
ghost use Rattle.std.specs.Prelude.{◌≡◌, ◌&&◌};
ghost use Rattle.octet_numbers.specs.Runs.{equal_bytes};
ghost use Rattle.table_slots.specs.Slot.{slot, live, session_id};
ghost use Rattle.table_sessions.specs.Session.{id_live, free_slot};

// Whether slot k is live with this Acct-Session-Id.
fn has_id(t: &[u8], k: usize, id: &[u8]) -> bool
    ensures { result ≡ live (slot k t.now) && equal_bytes id.now (session_id (slot k t.now)) }
{
    let s = table_slots::slot_of(t, k);
    table_slots::is_live(s) && octet_runs::equal(id, table_slots::text_at(s, 82))
}

// Whether one of the first n slots is live with this Acct-Session-Id.
pub fn id_live(t: &[u8], n: usize, id: &[u8]) -> bool
    ensures { result ≡ id_live id.now t.now n }
{
    for i in 0..n {
        if has_id(t, i, id) {
            return true;
        }
    }
    false
}

// The lowest free one of n slots.
pub fn lowest_free(t: &[u8], n: usize) -> Option<usize>
    ensures { result ≡ free_slot t.now n }
{
    for k in 0..n {
        if !table_slots::slot_live(t, k) {
            return Some(k);
        }
    }
    None
}
