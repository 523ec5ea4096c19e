// Starting a session, as C calls it: what C holds is lent as arrays.
ghost use Rattle.std.specs.Prelude.{◌≡◌};
ghost use Rattle.table_records.specs.Record.{session_of};
ghost use Rattle.table_sessions.specs.Session.{insert_table};
ghost use Rattle.sched_state.specs.Calls.{start_called};
ghost use Rattle.sched_rows.specs.Layout.{held, scheduler_in};
ghost use Rattle.sched_rows.specs.Left.{start_left};
ghost use Rattle.c_told.specs.Told.{number_by, place_by};

use sched_rows::Made;
use table_records::Session;

#[unsafe(no_mangle)]
pub extern "C" fn fbk_start_lent(
    words: &[[u32; 4]; 4],
    kinds: &[[u32; 2]; 4],
    places: &mut [[usize; 2]; 4],
    marks: &mut [[u8; 64]; 4],
    secret: &[u8; 64],
    size: usize,
    nas_ip: u32,
    nas_id: &[u8; 32],
    label: usize,
    table: &mut [u8],
    port: u32,
    framed: u32,
    timeout: u32,
    idle: u32,
    user: &[u8],
    id: &[u8],
    station: &[u8],
    filter: &[u8],
    slot: &mut u32,
) -> u32
    ensures value { result ≡ number_by (start_called (scheduler_in (held words.now kinds.now places.old marks.old secret.now size nas_ip nas_id.now label)) (session_of port framed timeout idle user.now id.now station.now filter.now) table.old).outcome }
    ensures label_after { held words.now kinds.now places.new marks.new secret.now size nas_ip nas_id.now label ≡ start_left (held words.now kinds.now places.old marks.old secret.now size nas_ip nas_id.now label) (session_of port framed timeout idle user.now id.now station.now filter.now) table.old }
    ensures table_after { table.new ≡ insert_table (session_of port framed timeout idle user.now id.now station.now filter.now) table.old }
    ensures slot_after { slot.new ≡ place_by (start_called (scheduler_in (held words.now kinds.now places.old marks.old secret.now size nas_ip nas_id.now label)) (session_of port framed timeout idle user.now id.now station.now filter.now) table.old).outcome slot.old }
{
    let made = Made {
        secret,
        secret_size: size,
        nas_ip,
        nas_id,
        nas_id_size: label,
    };
    let session = Session {
        nas_port: port,
        framed_address: framed,
        session_timeout: timeout,
        idle_timeout: idle,
        user_name: user,
        session_id: id,
        calling_station: station,
        filter_id: filter,
    };
    sched_start::start(words, kinds, places, marks, &made, table, &session, slot)
}
