// Match: whether a slot is one of the sessions that the request names.
ghost use Rattle.std.specs.Prelude.{◌≡◌, false, ◌<◌};
ghost use Rattle.table_slots.specs.Slot.{slot_count};
ghost use Rattle.attr_walk.specs.Attributes.{attributes, found};
ghost use Rattle.attr_types.specs.Types.{first_repeated, none};
ghost use Rattle.packet_form.specs.Packet.{area_of};
ghost use Rattle.das_effects.specs.Matching.{matches_in};
ghost use Rattle.sched_job.specs.Moves.{match_job};

use crate::{Job, Stage};
use attr_survey::Survey;
use packet_form::Packet;

fn matches(packet: &Packet, survey: &Survey, t: &[u8], k: usize) -> bool
    requires area_is { survey.now.area.now ≡ area_of packet.now.bytes.now }
    requires once { found (first_repeated none (attributes (area_of packet.now.bytes.now))) ≡ false }
    ensures { result ≡ matches_in (area_of packet.now.bytes.now) t.now k }
{
    let criteria = das_effects::criteria(survey.noted);
    table_match::match_slot(t, k, survey.area, &criteria)
}

impl Job {
    // Match: slot k, by a packet in the store and the survey of its attributes.
    #[tactic(auto, unfolding(crate::specs::Moves::match_job))]
    pub fn match_slot(self, k: usize, packet: &Packet, survey: &Survey, t: &[u8]) -> Job
        requires k_bound { k < slot_count t.now }
        requires area_is { survey.now.area.now ≡ area_of packet.now.bytes.now }
        requires once { found (first_repeated none (attributes (area_of packet.now.bytes.now))) ≡ false }
        ensures { result ≡ match_job self k packet.now.bytes.now t.now }
    {
        let next = k + 1;
        let mut marks = self.marks;
        if matches(packet, survey, t, k) {
            marks[k] = 1;
        }
        Job {
            stage: Stage::Match(next),
            marks,
            ..self
        }
    }
}
