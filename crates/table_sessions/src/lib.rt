// Sessions recorded in the table, each in the lowest free slot, and ended by the number of their slot.
#![tactic(auto)]

mod search; // search.rt: what a new session asks of the slots

ghost use Rattle.std.specs.Prelude.{◌≡◌};
ghost use Rattle.table_sessions.specs.Session.{insert_answer, insert_table, remove_answer, remove_table};

use refusals::Refusal;
use table_records::Session;

// Records the session x in the lowest free slot, and says which that is.
#[tactic(auto, unfolding(crate::specs::Session::insert_answer, crate::specs::Session::insert_table))]
pub fn insert(t: &mut [u8], x: &Session) -> Result<usize, Refusal>
    ensures value { result ≡ insert_answer x.now t.old }
    ensures t_after { t.new ≡ insert_table x.now t.old }
{
    let n = table_slots::slot_count(t);
    if n == 0 {
        return Err(Refusal::TableLength);
    }
    if !table_records::fits_record(x) {
        return Err(Refusal::TextLength);
    }
    if search::id_live(t, n, x.session_id) {
        return Err(Refusal::SessionIdLive);
    }
    let k = search::lowest_free(t, n).ok_or(Refusal::NoFreeSlot)?;
    table_records::put_record(t, k, x);
    Ok(k)
}

// Ends the session of slot k.
#[tactic(auto, unfolding(crate::specs::Session::remove_answer, crate::specs::Session::remove_table))]
pub fn remove(t: &mut [u8], k: usize) -> Result<(), Refusal>
    ensures value { result ≡ remove_answer k t.old }
    ensures t_after { t.new ≡ remove_table k t.old }
{
    let n = table_slots::slot_count(t);
    if n == 0 {
        return Err(Refusal::TableLength);
    }
    if n <= k || !table_slots::slot_live(t, k) {
        return Err(Refusal::NoSuchSession);
    }
    table_change::end_slot(t, k);
    Ok(())
}
