// Check of a job's part of the store: D1 where it no longer shows the request, else D4 by the chaining words as held, D5, D6 and causes 1 to 6.
ghost use Rattle.std.specs.Prelude.{◌≡◌, ◌≤◌, length};
ghost use Rattle.nas_settings.specs.Settings.{gate_settings};
ghost use Rattle.das_judge.specs.Judged.{reply_judged};
ghost use Rattle.sched_reread.specs.Check.{store_judged};

use das_answer::Answer;
use nas_settings::Gate;
use refusals::Discard;

pub fn check(
    words: [u32; 4],
    q: &[u8],
    n: usize,
    gate: &Gate,
    clock: u32,
    reply: &mut [u8],
) -> Result<i64, Answer>
    requires { 4096 ≤ length reply.old }
    ensures value { result ≡ store_judged (gate_settings gate.now) words n clock q.now }
    ensures reply_after { reply.new ≡ reply_judged gate.now.secret.now q.now reply.old result }
{
    let Some(packet) = crate::held(n, q) else {
        return Err(Answer::Discarded(Discard::Length));
    };
    let signed = packet_words::is_authenticator(words, q);
    let mut noted = [attr_survey::NONE; 256];
    let (judged, _) = das_judge::judge(signed, packet, gate, clock, reply, &mut noted);
    judged
}
