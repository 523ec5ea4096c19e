// What writes the session table.
ghost use Rattle.std.specs.Prelude.{◌≡◌, cond, length};
ghost use Rattle.table_records.specs.Record.{session_of};
ghost use Rattle.table_slots.specs.Slot.{slot_count};
ghost use Rattle.table_change.specs.Change.{change_marked, count_marked};
ghost use Rattle.table_sessions.specs.Session.{insert_answer, insert_table, remove_answer, remove_table};
ghost use Rattle.probe_table.specs.Given.{change_of};
ghost use Rattle.probe_table.specs.Answers.{answer, marks_room, insert_number, insert_slot, remove_number};

use crate::given::change_of;
use table_records::Session;

// Changes every slot that is marked and live, and says how many there are.
fn change_all(t: &mut [u8], area: &[u8], marks: &[u8], c: table_change::Change) -> u32
    requires { length marks.now ≡ 64 }
    ensures value { result ≡ count_marked marks.now (slot_count t.old) t.old }
    ensures t_after { t.new ≡ change_marked area.now c marks.now (slot_count t.old) t.old }
{
    let mut m = [0u8; 64];
    octet_copies::copy(&mut m, 0, marks);
    table_change::change_marked(t, area, &m, c) as u32
}

// Ends or alters every slot that is marked and live; refused where there are not 64 marks.
#[unsafe(no_mangle)]
#[tactic(auto, unfolding(crate::specs::Answers::marks_room))]
pub extern "C" fn probe_table_change(
    t: &mut [u8],
    area: &[u8],
    marks: &[u8],
    end: u32,
    timed: u32,
    timeout: u32,
    idled: u32,
    idle: u32,
    filtered: u32,
    at: usize,
    size: usize,
    downed: u32,
    down: u32,
    upped: u32,
    up: u32,
    count: &mut u32,
) -> u32
    ensures value { result ≡ answer (marks_room marks.now) }
    ensures t_after { t.new ≡ cond (marks_room marks.now) (change_marked area.now (change_of end timed timeout idled idle filtered at size downed down upped up) marks.now (slot_count t.old) t.old) t.old }
    ensures count_after { count.new ≡ cond (marks_room marks.now) (count_marked marks.now (slot_count t.old) t.old) count.old }
{
    if marks.len() != 64 {
        return 1;
    }
    let c = change_of(
        end, timed, timeout, idled, idle, filtered, at, size, downed, down, upped, up,
    );
    *count = change_all(t, area, marks, c);
    0
}

// Records a session: 0 and its slot, or the refusal number.
#[unsafe(no_mangle)]
pub extern "C" fn probe_table_insert(
    t: &mut [u8],
    port: u32,
    address: u32,
    timeout: u32,
    idle: u32,
    user: &[u8],
    id: &[u8],
    station: &[u8],
    filter: &[u8],
    slot: &mut u32,
) -> u32
    ensures value { result ≡ insert_number (insert_answer (session_of port address timeout idle user.now id.now station.now filter.now) t.old) }
    ensures t_after { t.new ≡ insert_table (session_of port address timeout idle user.now id.now station.now filter.now) t.old }
    ensures slot_after { slot.new ≡ insert_slot (insert_answer (session_of port address timeout idle user.now id.now station.now filter.now) t.old) slot.old }
{
    let x = Session {
        nas_port: port,
        framed_address: address,
        session_timeout: timeout,
        idle_timeout: idle,
        user_name: user,
        session_id: id,
        calling_station: station,
        filter_id: filter,
    };
    match table_sessions::insert(t, &x) {
        Ok(k) => {
            *slot = k as u32;
            0
        }
        Err(refusal) => u32::from(refusal),
    }
}

// Ends the session of slot k: 0, or the refusal number.
#[unsafe(no_mangle)]
pub extern "C" fn probe_table_remove(t: &mut [u8], k: usize) -> u32
    ensures value { result ≡ remove_number (remove_answer k t.old) }
    ensures t_after { t.new ≡ remove_table k t.old }
{
    match table_sessions::remove(t, k) {
        Ok(()) => 0,
        Err(refusal) => u32::from(refusal),
    }
}
